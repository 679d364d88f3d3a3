// Tests of `sig_text`: literals that are read and printed again, and those that are refused.
use alg_model::{Alg, Amount};
use meta_base::Text;
use sig_text::LitFault::{BadText, NotALabel, NotInCarrier};
use sig_text::{
    LitError, LitFault, print_label, print_value, read_label, read_value, read_value_to,
};
use std::alloc::Global;
use std::test::Fail;
use testkit_readers::{algebra, algebra_of_file};

// The value that the text spells, printed again, or the fault of the text.
pub(crate) fn value_again(
    alloc: Global,
    alg: &Alg,
    text: &[u8],
) -> Result<Result<Text, LitFault>, Fail> {
    match read_value(alloc, alg, text) {
        Ok(value) => Ok(Ok(print_value(alloc, alg, &value)?)),
        Err(LitError::Bad(fault)) => Ok(Err(fault)),
        Err(LitError::NoMemory) => Err("out of memory".into()),
    }
}

// The same of a label.
pub(crate) fn label_again(
    alloc: Global,
    alg: &Alg,
    text: &[u8],
) -> Result<Result<Text, LitFault>, Fail> {
    match read_label(alloc, alg, text) {
        Ok(label) => Ok(Ok(print_label(alloc, alg, &label)?)),
        Err(LitError::Bad(fault)) => Ok(Err(fault)),
        Err(LitError::NoMemory) => Err("out of memory".into()),
    }
}

fn is_answer(answer: Result<Text, LitFault>, expected: Result<&str, LitFault>) -> bool {
    match (&answer, expected) {
        (Ok(text), Ok(expected)) => text.as_str() == expected,
        (Err(fault), Err(expected)) => *fault == expected,
        _ => false,
    }
}

// Whether the text of a value is answered so in the algebra of the expression.
fn answers_value(
    alloc: Global,
    expression: &str,
    text: &str,
    expected: Result<&str, LitFault>,
) -> Result<bool, Fail> {
    let alg = algebra(alloc, expression)?;
    let answer = value_again(alloc, &alg, text.as_bytes());
    drop(alg);
    Ok(is_answer(answer?, expected))
}

// The same of a label.
fn answers_label(
    alloc: Global,
    expression: &str,
    text: &str,
    expected: Result<&str, LitFault>,
) -> Result<bool, Fail> {
    let alg = algebra(alloc, expression)?;
    let answer = label_again(alloc, &alg, text.as_bytes());
    drop(alg);
    Ok(is_answer(answer?, expected))
}

const SCOPED: &str = "scoped(add(1..5), cap(9; 1..5))";

const CUSTOMERS: &str = "lex(table { c < r < p; C: c -> c; P: c -> p, r -> p, p -> p }, add(1..1))";

#[test]
fn values(rt: HostRuntime) -> Result<(), Fail> {
    let cases: &[(&str, &str, Result<&str, LitFault>)] = &[
        ("seq(3)", " [0 , 2]", Ok("[0,2]")),
        ("seq(3)", "[3]", Err(NotInCarrier)),
        ("seq(3)", "[0", Err(BadText)),
        ("seq(3)", "[0] 1", Err(BadText)),
        ("tags(4)", "{3,0}", Ok("{0,3}")),
        ("tags(4)", "{0,00}", Err(BadText)),
        (CUSTOMERS, "(c,05)", Ok("(c,5)")),
        (CUSTOMERS, "(d,4294967295)", Err(NotInCarrier)),
        (CUSTOMERS, "(c,4294967296)", Err(BadText)),
    ];
    for (expression, text, expected) in cases {
        let is_answered = answers_value(rt.alloc(), *expression, *text, *expected)?;
        assert!(rt; is_answered, "{text} in {expression}");
    }
    Ok(())
}

#[test]
fn labels(rt: HostRuntime) -> Result<(), Fail> {
    let cases: &[(&str, &str, Result<&str, LitFault>)] = &[
        ("plus(tags(4), guard(4))", "r:?2", Ok("r:?2")),
        ("plus(tags(4), guard(4))", "r:?4", Err(NotALabel)),
        (SCOPED, "out(3, 4)", Ok("out(3,4)")),
        // The label is further left than the value.
        (SCOPED, "out(6,10)", Err(NotALabel)),
        (SCOPED, "out(5,10)", Err(NotInCarrier)),
        (CUSTOMERS, "(P,1)", Ok("(P,1)")),
    ];
    for (expression, text, expected) in cases {
        let is_answered = answers_label(rt.alloc(), *expression, *text, *expected)?;
        assert!(rt; is_answered, "{text} in {expression}");
    }
    Ok(())
}

// The value up to a greatest number that the text spells in `add(1..1)`, printed again, or the fault of
// the text.
fn value_again_to(
    alloc: Global,
    text: &str,
    greatest: Amount,
) -> Result<Result<Text, LitFault>, Fail> {
    let alg = algebra(alloc, "add(1..1)")?;
    if greatest > 1 << 119 {
        return Err("the greatest number is too great".into());
    }
    match read_value_to(alloc, &alg, text.as_bytes(), greatest) {
        Ok(value) => Ok(Ok(print_value(alloc, &alg, &value)?)),
        Err(LitError::Bad(fault)) => Ok(Err(fault)),
        Err(LitError::NoMemory) => Err("out of memory".into()),
    }
}

// A printed sum is read back, up to the number that is given.
#[test]
fn sums(rt: HostRuntime) -> Result<(), Fail> {
    let cases: &[(&str, Amount, Result<&str, LitFault>)] = &[
        ("4294967296", 1 << 119, Ok("4294967296")),
        (
            "664613997892457936451903530140172288",
            1 << 119,
            Ok("664613997892457936451903530140172288"),
        ),
        (
            "664613997892457936451903530140172289",
            1 << 119,
            Err(BadText),
        ),
        ("4294967296", 4_294_967_295, Err(BadText)),
        ("4294967295", 4_294_967_295, Ok("4294967295")),
    ];
    for (text, greatest, expected) in cases {
        let answer = value_again_to(rt.alloc(), *text, *greatest)?;
        assert!(rt; is_answer(answer, *expected), "{text} up to {greatest}");
    }
    Ok(())
}

// Literals of profile 2 have its greatest number.
#[test]
fn wide_literals(rt: HostRuntime) -> Result<(), Fail> {
    let alloc = rt.alloc();
    let alg = algebra_of_file(alloc, b"raml 2; main add(1..18446744073709551615);")?;
    let greatest = "18446744073709551615";
    let label = label_again(alloc, &alg, greatest.as_bytes())?;
    let value = value_again(alloc, &alg, greatest.as_bytes())?;
    let beyond = value_again(alloc, &alg, b"18446744073709551616")?;
    drop(alg);
    assert!(rt; is_answer(label, Ok(greatest)));
    assert!(rt; is_answer(value, Ok(greatest)));
    assert!(rt; is_answer(beyond, Err(BadText)));
    Ok(())
}
