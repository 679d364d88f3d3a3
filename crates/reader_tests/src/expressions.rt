// Tests of `raml_syntax`: expression files that are read and printed, and those that are refused, with
// the places of their faults.
use alg_model::Tree;
use meta_base::MAX_FILE_BYTES;
use raml_syntax::ExprKind::*;
use raml_syntax::{AlgError, ExprFault, ExprKind, print_alg, read_alg};
use std::alloc::Global;
use std::process::Abort;
use std::test::Fail;
use testkit_readers::algebra_of_file;

// The fault of a text that means no algebra.
fn fault_of(alloc: Global, text: &[u8]) -> Option<ExprFault> {
    if text.len() > MAX_FILE_BYTES {
        return None;
    }
    match read_alg(alloc, text) {
        Err(AlgError::Bad(fault)) => Some(fault),
        _ => None,
    }
}

// The text is refused for this fault, at this line and column.
fn check_refused(
    rt: &impl Abort,
    alloc: Global,
    text: &[u8],
    kind: ExprKind,
    line: u32,
    column: u32,
) {
    match fault_of(alloc, text) {
        Some(fault) => {
            assert_eq!(rt; fault.kind, kind);
            assert_eq!(rt; fault.place.line, line);
            assert_eq!(rt; fault.place.column, column);
        }
        None => panic!(rt; "no fault"),
    }
}

#[test]
fn refused_files(rt: HostRuntime) {
    let refused: &[(&[u8], ExprKind, u32)] = &[
        (b"main $", BadByte, 6),
        (b"main gate; $", BadByte, 12),
        (b"main ;", Unexpected, 6),
        (b"main lex;", Unexpected, 9),
        (b"main 4294967296;", Unexpected, 6),
        (b"gate;", Unexpected, 1),
        (b"raml gate;", Unexpected, 6),
        (b"raml 2 main gate;", Unexpected, 8),
        (b"raml 1; raml 1; main gate;", Unexpected, 9),
        (b"let a = gate; raml 2; main a;", Unexpected, 15),
        (b"raml", EndOfText, 5),
        (b"", EndOfText, 1),
        (b"let", EndOfText, 4),
        (b"let rel = table { c <", EndOfText, 22),
        (b"main lex(add(1..10)", EndOfText, 20),
        (b"main add(1..4294967296);", NumberTooLarge, 13),
        (b"main gate; 4294967296", NumberTooLarge, 12),
        (b"raml 4294967296;", NumberTooLarge, 6),
        (b"raml 1; main add(1..4294967296);", NumberTooLarge, 21),
        (
            b"raml 2; main add(1..18446744073709551616);",
            NumberTooLarge,
            21,
        ),
        (b"main foo;", UnknownName, 6),
        (b"main main;", UnknownName, 6),
        (b"main raml;", UnknownName, 6),
        (b"let a = a; main a;", UnknownName, 9),
        (b"let a = gate; let a = gate; main a;", NameTwice, 19),
        (b"let left = gate; main gate;", NameTwice, 5),
        (b"main add(5..4);", BadRange, 13),
        (b"main add(5..4", BadRange, 13),
        (b"main simseq(1025);", BadRange, 13),
        (b"main tags(65);", BadRange, 11),
        (b"main guard(65);", BadRange, 12),
        (b"main add(1.", BadByte, 11),
        (b"main plus(add(1..2), seq(3));", CarriersDiffer, 28),
        (b"main table { a < a; Z: none };", BadTable, 18),
        (b"main gate; gate", TrailingText, 12),
        // After `raml 2;` this is a number, and else it is too large.
        (b"raml 2; main gate; 4294967296", TrailingText, 20),
        (b"raml 1; main gate; 4294967296", NumberTooLarge, 20),
        (b"raml 3; main gate;", UnknownProfile, 6),
        (b"raml 0", UnknownProfile, 6),
    ];
    for (text, kind, column) in refused {
        check_refused(&rt, rt.alloc(), *text, *kind, 1, *column);
    }
}

// Names that stand for large trees count all their nodes: 255 and 255 are too many.
#[test]
fn doubled_trees(rt: HostRuntime) {
    check_refused(
        &rt,
        rt.alloc(),
        b"let a0 = gate;
let a1 = lex(a0, a0);
let a2 = lex(a1, a1);
let a3 = lex(a2, a2);
let a4 = lex(a3, a3);
let a5 = lex(a4, a4);
let a6 = lex(a5, a5);
let a7 = lex(a6, a6);
let a8 = lex(a7, a7);
main a8;
",
        TooLarge,
        9,
        18,
    );
}

// The word that passes the greatest number of nodes is refused before anything after it is read.
#[test]
fn deep_trees(rt: HostRuntime) -> Result<(), Fail> {
    let mut text = vec![in rt.alloc()]?;
    text.extend_from_slice(b"main ")?;
    for _ in 0..300 {
        text.extend_from_slice(b"left(")?;
    }
    check_refused(&rt, rt.alloc(), text.as_slice(), TooLarge, 1, 1286);
    Ok(())
}

// As many names as a file has room for: were each looked for among all before it, this would not end.
#[test]
fn many_names(rt: HostRuntime) -> Result<(), Fail> {
    let mut text = vec![in rt.alloc()]?;
    for i in 0..200000 {
        let line = format!(in rt.alloc(); "let n{i} = gate;\n")?;
        text.extend_from_slice(line.as_bytes())?;
    }
    text.extend_from_slice(b"main lex(n0, n199999);")?;
    let pair = algebra_of_file(rt.alloc(), text.as_slice())?;
    assert!(rt; matches!(pair.tree(), Tree::Lex(..)));
    Ok(())
}

// Whether the tree is the table of `o`, `a` and `d` whose first row has this image of `o`.
fn is_gadget(tree: &Tree, image: u8) -> bool {
    match tree {
        Tree::Table(table) => {
            let rows = table.rows.as_slice();
            table.names.as_slice().len() == 3
                && table.ranks.as_slice() == [0, 1, 1].as_slice()
                && matches!(rows, [first, second]
                    if first.images.as_slice() == [Some(image), None, None].as_slice()
                        && second.images.as_slice() == [None, None, None].as_slice())
        }
        _ => false,
    }
}

#[test]
fn tables(rt: HostRuntime) -> Result<(), Fail> {
    let gadget = algebra_of_file(rt.alloc(), b"main table { o < a = d; D: o -> d; N: none };")?;
    assert!(rt; is_gadget(gadget.tree(), 2));
    Ok(())
}

// Whether the file's algebra is printed so.
fn is_printed(alloc: Global, file: &[u8], expected: &str) -> Result<bool, Fail> {
    let alg = algebra_of_file(alloc, file)?;
    let text = print_alg(alloc, &alg);
    drop(alg);
    Ok(text?.as_str() == expected)
}

#[test]
fn printed_files(rt: HostRuntime) -> Result<(), Fail> {
    let cases: &[(&[u8], &str)] = &[
        (b"main add(1..4294967295);", "main add(1..4294967295);\n"),
        // `none` is reserved only in tables.
        (b"let none = gate; # a name\nmain none;", "main gate;\n"),
        (
            b"main lex(width(100; 0..100), add(1..10));",
            "main lex(width(100;0..100),add(1..10));\n",
        ),
        (
            b"main table { o < a = d; D: d -> a, o -> d; N: none };",
            "main table{o<a=d;D:o->d,d->a;N:none};\n",
        ),
        // As large as they may be.
        (b"main simseq(1024);", "main simseq(1024);\n"),
        (
            b"main lex(tags(64), guard(64));",
            "main lex(tags(64),guard(64));\n",
        ),
        (b"raml 1; main gate;", "main gate;\n"),
        (b"raml 02; main gate;", "raml 2;main gate;\n"),
        (b"let raml = gate; main raml;", "main gate;\n"),
        (
            b"raml 2; main add(1..4294967296);",
            "raml 2;main add(1..4294967296);\n",
        ),
        (
            b"raml 2; main add(1..18446744073709551615);",
            "raml 2;main add(1..18446744073709551615);\n",
        ),
    ];
    for (text, expected) in cases {
        assert!(rt; is_printed(rt.alloc(), *text, *expected)?);
    }
    Ok(())
}

// A file with a table of so many values, each worse than the one before, and of so many rows without maps.
fn table_file(alloc: Global, values: u32, rows: u32) -> Result<String, Fail> {
    let mut text = String::with_capacity(alloc, 512)?;
    text.push_str("main table{v0")?;
    for k in 1..values {
        let value = format!(in alloc; "<v{k}")?;
        text.push_str(value.as_str())?;
    }
    for k in 0..rows {
        let row = format!(in alloc; ";r{k}:none")?;
        text.push_str(row.as_str())?;
    }
    text.push_str("};\n")?;
    Ok(text)
}

// A table has 16 values and 16 rows at most, and the name of the 17th is refused.
#[test]
fn large_tables(rt: HostRuntime) -> Result<(), Fail> {
    let largest = table_file(rt.alloc(), 16, 16)?;
    assert!(rt; is_printed(rt.alloc(), largest.as_bytes(), largest.as_str())?);
    let values = table_file(rt.alloc(), 17, 1)?;
    check_refused(&rt, rt.alloc(), values.as_bytes(), BadTable, 1, 66);
    let rows = table_file(rt.alloc(), 1, 17)?;
    check_refused(&rt, rt.alloc(), rows.as_bytes(), BadTable, 1, 149);
    Ok(())
}
