// Tests of `sig_text` on texts of one byte: which bytes spell a value or a label of small algebras, and how each other
// byte is refused.
use crate::literals::{label_again, value_again};
use alg_model::Alg;
use sig_text::LitFault;
use sig_text::LitFault::{BadText, NotALabel, NotInCarrier};
use std::alloc::Global;
use std::test::Fail;
use testkit_readers::algebra;

// The bytes that spell a value or a label; and the bytes that only have the shape of one, with how they are refused. No
// other byte has the shape.
#[derive(Clone, Copy)]
struct Spelled {
    bytes: &'static str,
    shaped: &'static str,
    fault: LitFault,
}

impl Spelled {
    // The answer to the byte alone.
    fn answer(&self, byte: u8) -> Result<(), LitFault> {
        if self.bytes.as_bytes().contains(&byte) {
            Ok(())
        } else if self.shaped.as_bytes().contains(&byte) {
            Err(self.fault)
        } else {
            Err(BadText)
        }
    }
}

// An expression; the bytes that spell its values, and those that have their shape; the same of its labels, and how the
// latter are refused as labels.
type Literals = (
    &'static str,
    &'static str,
    &'static str,
    &'static str,
    &'static str,
    LitFault,
);

const DIGITS: &str = "0123456789";

const LETTERS: &str = "ABCDEFGHIJKLMNOPQRSTUVWXYZabcdefghijklmnopqrstuvwxyz_";

const LITERALS: &[Literals] = &[
    ("add(3..5)", DIGITS, "", "345", DIGITS, NotALabel),
    ("cap(6; 1..2)", "0123456", DIGITS, "12", DIGITS, NotALabel),
    ("worst(6; 1..2)", "0123456", DIGITS, "12", DIGITS, NotALabel),
    ("width(6; 1..2)", "0123456", DIGITS, "12", DIGITS, NotALabel),
    ("lp(6)", "0123456", DIGITS, "0123456", DIGITS, NotALabel),
    ("op(6)", "0123456", DIGITS, "", "", NotALabel),
    // A sequence and a set have two marks at least, and labels of tags and guards have two parts or are words.
    ("seq(3)", "", "", "012", DIGITS, NotALabel),
    ("simseq(3)", "", "", "012", DIGITS, NotALabel),
    ("tags(3)", "", "", "", "", NotALabel),
    ("guard(3)", "", "", "", "", NotALabel),
    ("gate", "", "", "", "", NotALabel),
    // Any word has the shape of a name.
    (
        "table { a < _ = B; _: a -> B; z: none }",
        "aB_",
        LETTERS,
        "_z",
        LETTERS,
        NotALabel,
    ),
    // A pair has five parts, and a side has three.
    ("lex(add(1..2), gate)", "", "", "", "", NotALabel),
    ("union(add(1..2), gate)", "", "", "", "", NotALabel),
    // A label is a value, or a word of four letters.
    (
        "left(cap(6; 1..2))",
        "0123456",
        DIGITS,
        "0123456",
        DIGITS,
        NotInCarrier,
    ),
    ("right(cap(6; 1..2))", "0123456", DIGITS, "", "", NotALabel),
];

// Whether the byte alone is answered so as a value, and as a label.
fn answers_byte(
    alloc: Global,
    alg: &Alg,
    byte: u8,
    value: Result<(), LitFault>,
    label: Result<(), LitFault>,
) -> Result<bool, Fail> {
    let found = value_again(alloc, alg, &[byte])?;
    let is_value = match &found {
        Ok(text) => value.is_ok() && text.as_str().as_bytes() == [byte].as_slice(),
        Err(fault) => value == Err(*fault),
    };
    let found = label_again(alloc, alg, &[byte])?;
    let is_label = match &found {
        Ok(text) => label.is_ok() && text.as_str().as_bytes() == [byte].as_slice(),
        Err(fault) => label == Err(*fault),
    };
    Ok(is_value && is_label)
}

// The first byte that is answered in another way; none where there is no such byte.
fn other_byte(alloc: Global, literals: &Literals) -> Result<Option<u8>, Fail> {
    let (expression, values, like_values, labels, like_labels, fault) = literals;
    let value = Spelled {
        bytes: values,
        shaped: like_values,
        fault: NotInCarrier,
    };
    let label = Spelled {
        bytes: labels,
        shaped: like_labels,
        fault: *fault,
    };
    let alg = algebra(alloc, *expression)?;
    for byte in 0..=u8::MAX {
        if !answers_byte(alloc, &alg, byte, value.answer(byte), label.answer(byte))? {
            return Ok(Some(byte));
        }
    }
    Ok(None)
}

#[test]
fn each_byte_alone_is_a_literal_or_none(rt: HostRuntime) -> Result<(), Fail> {
    for literals in LITERALS {
        let other = other_byte(rt.alloc(), literals)?;
        assert!(rt; other.is_none(), "{other:?} in {}", literals.0);
    }
    Ok(())
}
