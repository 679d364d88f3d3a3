// Tests of `check` with properties that have to hold: the line after the five verdicts, and the status.
use crate::program::{BAD_GADGET, Outcome, outcome_of, run_on, says};
use std::str;
use std::test::Fail;

// Whether the run wrote the five lines, which say so of the properties, and then this line or nothing, and ended with
// this status.
fn ended_after_verdicts(
    outcome: Outcome,
    marks: &str,
    line: &str,
    status: u8,
) -> Result<bool, Fail> {
    let text = str::from_utf8(&outcome.taken)?;
    match text.strip_suffix(line) {
        Some(verdicts) => Ok(says(verdicts, marks)? && outcome.status == status),
        None => Ok(false),
    }
}

// What `check` prints where not strict alone fails.
const NO_STRICT: &str =
    "monotone yes\nstrict no: 0 on 0 gives 0\nisotone yes\ncancellative yes\ntotal yes\n";

// Verdicts, what stands after them, and a status, that don't say that strict is required and fails.
const OTHER_ENDS: &[(&str, &str, u8)] = &[
    (NO_STRICT, "", 3),
    (NO_STRICT, "required: strict\n", 0),
    (NO_STRICT, "required: total\n", 3),
    (NO_STRICT, "required: total\nrequired: strict\n", 3),
    ("", "required: strict\n", 3),
];

#[test]
fn other_ends_are_reported_apart(rt: HostRuntime) -> Result<(), Fail> {
    for (verdicts, line, status) in OTHER_ENDS {
        let text = format!(in rt.alloc(); "{verdicts}{line}")?;
        let outcome = outcome_of(rt.alloc(), text.as_bytes(), *status)?;
        assert!(rt; !ended_after_verdicts(outcome, "y-yyy", "required: strict\n", 3)?);
    }
    Ok(())
}

// An expression, a network, the words after `check`, the properties that hold, the last line if one is required that
// doesn't, and the status.
type Case = (
    &'static [u8],
    &'static [u8],
    &'static [&'static str],
    &'static str,
    &'static str,
    u8,
);

const FREE: &[u8] = b"main add(0..10);";

const COSTLY: &[u8] = b"main add(1..10);";

const ALL_FIVE: &str = "monotone,strict,isotone,cancellative,total";

// Of several properties that fail, the first in the order of the verdicts is named, wherever it stands in the list.
const CASES: &[Case] = &[
    (FREE, b"", &["f", "--require", "monotone"], "y-yyy", "", 0),
    (
        FREE,
        b"",
        &["f", "--require", "strict,total"],
        "y-yyy",
        "required: strict\n",
        3,
    ),
    (
        FREE,
        b"",
        &["--require", "total,strict", "f"],
        "y-yyy",
        "required: strict\n",
        3,
    ),
    (COSTLY, b"", &["f", "--require", ALL_FIVE], "yyyyy", "", 0),
    (
        BAD_GADGET,
        b"",
        &["f", "--require", "cancellative"],
        "---y-",
        "",
        0,
    ),
    (
        BAD_GADGET,
        b"",
        &["f", "--require", "total,cancellative,isotone"],
        "---y-",
        "required: isotone\n",
        3,
    ),
    (
        BAD_GADGET,
        b"",
        &["f", "--require", ALL_FIVE],
        "---y-",
        "required: monotone\n",
        3,
    ),
    (
        BAD_GADGET,
        b"",
        &["f", "--require", "cancellative,total"],
        "---y-",
        "required: total\n",
        3,
    ),
    (
        FREE,
        b"node a b\nlink a b : 0\nthen link a b : 1\n",
        &["f", "n", "--require", "strict"],
        "yyyyy",
        "",
        0,
    ),
    (
        FREE,
        b"node a b\nlink a b : 1\nthen link a b : 0\n",
        &["f", "--require", "strict", "n"],
        "y-yyy",
        "required: strict\n",
        3,
    ),
];

#[test]
fn properties_are_required(rt: HostRuntime) -> Result<(), Fail> {
    for (file, net, rest, marks, line, status) in CASES {
        let mut words = Vec::from_slice(rt.alloc(), &["check"])?;
        words.extend_from_slice(*rest)?;
        let outcome = run_on(&rt, &words, *file, *net)?;
        assert!(rt;
            ended_after_verdicts(outcome, *marks, *line, *status)?,
            "{rest:?}"
        );
    }
    Ok(())
}
