// Tests of `metacli`: whole runs over memory, from words and files to the status and what was written.
use meta_base::{
    Gate, List, MAX_FILE_BYTES, MemFile, MemShelf, MemSink, NoMemory, OpenGate, Shelf, Sink, Text,
};
use metacli::{Command, Required, read_words, run_meta, status};
use std::alloc::Global;
use std::str;
use std::sync::Wait;
use std::test::Fail;
use std::thread::Threads;

// What a run over memory came to: its status, and the bytes that were taken.
#[derive(Drop)]
pub(crate) struct Outcome {
    pub(crate) status: u8,
    pub(crate) taken: Vec<u8>,
}

// Whether the run wrote this text, and ended with this status.
pub(crate) fn ended_with(outcome: Outcome, text: &[u8], status: u8) -> bool {
    outcome.taken.as_slice() == text && outcome.status == status
}

// Whether the run was refused for a label with a line that begins so.
pub(crate) fn is_missing(outcome: Outcome, begins: &str) -> Result<bool, Fail> {
    let text = str::from_utf8(&outcome.taken)?;
    Ok(outcome.status == 3 && text.starts_with(begins) && text.lines().count() == 1)
}

// What stands around a run: the bytes of the expression file `f`, of the network file `n` and of the report `r`, the
// calls of the shelf and of the sink that fail, and how much the shelf gives and the sink takes at a time.
#[derive(Clone, Copy)]
pub(crate) struct Around<'a> {
    pub(crate) file: &'a [u8],
    pub(crate) net: &'a [u8],
    pub(crate) report: &'a [u8],
    pub(crate) failing_calls: &'a [u64],
    pub(crate) failing_writes: &'a [u64],
    pub(crate) read_bite: usize,
    pub(crate) bite: usize,
}

// How much is given and taken at a time where that is of no matter, and what it has room for: eight of the longest lines of
// a network file.
pub(crate) const BITE: usize = 100;

const ROOM: usize = 32768;

fn list_of<T: Copy>(alloc: Global, items: &[T]) -> Result<List<T>, NoMemory> {
    Ok(List::from_vec(Vec::from_slice(alloc, items)?))
}

// The status of a run. It promises nothing of what was taken, so tests are quick to prove.
fn status_of_run<S: Shelf, K: Sink, G: Gate>(
    rt: &(impl AllocGlobal + Threads + Wait + Sync),
    words: &[Text],
    shelf: &mut S,
    out: &mut K,
    gate: &G,
) -> u8 {
    let ended = run_meta(rt, words, shelf, out, gate);
    let status = status(&ended.answer);
    drop(ended);
    status
}

fn push_file(
    alloc: Global,
    files: &mut List<MemFile>,
    name: &str,
    bytes: &[u8],
) -> Result<(), Fail> {
    files.push(MemFile {
        name: Text::copy(alloc, name)?,
        bytes: list_of(alloc, bytes)?,
    })?;
    Ok(())
}

// A shelf of the three files.
fn shelf_of(alloc: Global, around: &Around) -> Result<MemShelf, Fail> {
    let mut files = List::new(alloc);
    push_file(alloc, &mut files, "f", around.file)?;
    push_file(alloc, &mut files, "n", around.net)?;
    push_file(alloc, &mut files, "r", around.report)?;
    let failing = list_of(alloc, around.failing_calls)?;
    Ok(MemShelf::in_bites(files, around.read_bite.max(1), failing))
}

// The status of `check` on the expression file, into that sink.
pub(crate) fn status_of_check<K: Sink>(
    rt: &(impl AllocGlobal + Threads + Wait + Sync),
    around: Around,
    out: &mut K,
) -> Result<u8, Fail> {
    let alloc = rt.alloc();
    let mut shelf = shelf_of(alloc, &around)?;
    let mut words = Vec::new(alloc);
    words.push(Text::copy(alloc, "check")?)?;
    words.push(Text::copy(alloc, "f")?)?;
    Ok(status_of_run(rt, &words, &mut shelf, out, &OpenGate))
}

// A run of these words.
pub(crate) fn run_around(
    rt: &(impl AllocGlobal + Threads + Wait + Sync),
    words: &[&str],
    around: Around,
) -> Result<Outcome, Fail> {
    run_watched(rt, words, around, &OpenGate)
}

// The same with a gate.
fn run_watched<G: Gate>(
    rt: &(impl AllocGlobal + Threads + Wait + Sync),
    words: &[&str],
    around: Around,
    gate: &G,
) -> Result<Outcome, Fail> {
    let alloc = rt.alloc();
    let mut shelf = shelf_of(alloc, &around)?;
    let failing = list_of(alloc, around.failing_writes)?;
    let mut out = MemSink::new(alloc, ROOM, around.bite.max(1), failing)?;
    let mut texts = Vec::new(alloc);
    for word in words {
        texts.push(Text::copy(alloc, *word)?)?;
    }
    let status = status_of_run(rt, &texts, &mut shelf, &mut out, gate);
    Ok(Outcome {
        status,
        taken: out.taken().to_vec(alloc)?,
    })
}

// A run of these words without a fault.
pub(crate) fn run(
    rt: &(impl AllocGlobal + Threads + Wait + Sync),
    words: &[&str],
    file: &[u8],
) -> Result<Outcome, Fail> {
    run_on(rt, words, file, b"")
}

// The same with a network.
pub(crate) fn run_on(
    rt: &(impl AllocGlobal + Threads + Wait + Sync),
    words: &[&str],
    file: &[u8],
    net: &[u8],
) -> Result<Outcome, Fail> {
    run_at(rt, words, file, net, &OpenGate)
}

// The same with a gate.
pub(crate) fn run_at<G: Gate>(
    rt: &(impl AllocGlobal + Threads + Wait + Sync),
    words: &[&str],
    file: &[u8],
    net: &[u8],
    gate: &G,
) -> Result<Outcome, Fail> {
    let around = Around {
        file,
        net,
        report: b"",
        failing_calls: &[],
        failing_writes: &[],
        read_bite: BITE,
        bite: BITE,
    };
    run_watched(rt, words, around, gate)
}

// A run of `verify` on a network, with a report.
pub(crate) fn run_verify(
    rt: &(impl AllocGlobal + Threads + Wait + Sync),
    file: &[u8],
    net: &[u8],
    report: &[u8],
) -> Result<Outcome, Fail> {
    let around = Around {
        file,
        net,
        report,
        failing_calls: &[],
        failing_writes: &[],
        read_bite: BITE,
        bite: BITE,
    };
    run_around(rt, &["verify", "f", "n", "r"], around)
}

// What a run with this status would come to that wrote this text.
pub(crate) fn outcome_of(alloc: Global, taken: &[u8], status: u8) -> Result<Outcome, NoMemory> {
    let taken = Vec::from_slice(alloc, taken)?;
    Ok(Outcome { status, taken })
}

// Ends that aren't `quiet 1` with status 0.
const OTHER_ENDS: &[(&[u8], u8)] = &[
    (b"quiet 1\n", 4),
    (b"quiet 2\n", 0),
    (b"quiet 1", 0),
    (b"", 0),
];

#[test]
fn other_ends_are_reported_apart(rt: HostRuntime) -> Result<(), Fail> {
    for (taken, status) in OTHER_ENDS {
        let outcome = outcome_of(rt.alloc(), *taken, *status)?;
        assert!(rt; !ended_with(outcome, b"quiet 1\n", 0));
    }
    Ok(())
}

// Ends that are no refusal for a label that fails to be strict.
const NO_MISSING: &[(&[u8], u8)] = &[
    (b"strict fails on a b: 0 on 0 gives 0\n", 0),
    (b"isotone fails on a b: 0 on 0 gives 0\n", 3),
    (b"strict fails on a b: 0 on 0 gives 0\na x 0 a\n", 3),
    (b"", 3),
];

#[test]
fn other_refusals_are_reported_apart(rt: HostRuntime) -> Result<(), Fail> {
    for (taken, status) in NO_MISSING {
        let outcome = outcome_of(rt.alloc(), *taken, *status)?;
        assert!(rt; !is_missing(outcome, "strict fails on ")?);
    }
    Ok(())
}

pub(crate) const ALL_HOLD: &[u8] =
    b"monotone yes\nstrict yes\nisotone yes\ncancellative yes\ntotal yes\n";

#[test]
fn all_five_hold(rt: HostRuntime) -> Result<(), Fail> {
    for file in [
        b"main add(1..10);".as_slice(),
        b"\tmain\r\nadd (0001 ..4294967295 ) ;\n",
        b"main add(1..10); # all",
        b"let a = add(1..10); main a;",
    ] {
        assert!(rt; ended_with(run(&rt, &["check", "f"], file)?, ALL_HOLD, 0));
    }
    Ok(())
}

// Any value shows that adding 0 isn't strict.
#[test]
fn strict_fails_on_zero(rt: HostRuntime) -> Result<(), Fail> {
    let outcome = run(&rt, &["check", "f"], b"main add(0..10);")?;
    let text = str::from_utf8(&outcome.taken)?;
    let rest = text
        .strip_prefix("monotone yes\nstrict no: 0 on ")
        .ok_or("strict isn't denied")?;
    let value = rest
        .strip_suffix("\nisotone yes\ncancellative yes\ntotal yes\n")
        .ok_or("another property is denied")?;
    let (value, image) = value.split_once(" gives ").ok_or("no image")?;
    assert_eq!(rt; value.parse::<u64>()?, image.parse::<u64>()?);
    assert_eq!(rt; outcome.status, 0);
    Ok(())
}

// Each fault of words, by its number. A fault is looked for only where the words have none of those in front of
// it: no command, an unknown one, a bad flag, a wrong count, a bad number or list.
const REFUSED_WORDS: &[(&[u8], &[&[&str]])] = &[
    (b"words refused: C1\n", &[&[]]),
    (
        b"words refused: C2\n",
        &[&["walk", "f"], &["--help"], &["Check", "f"], &[""]],
    ),
    (
        b"words refused: C3\n",
        &[
            &["check"],
            &["check", "a", "b", "c"],
            &["route", "f"],
            &["route", "f", "n", "n"],
            &["settle", "f"],
            &["demo", "1"],
            &["route", "f", "n", "--workers"],
            &["run", "f", "n", "--turns"],
            &["route", "f", "--workers", "n"],
            &["route", "f", "--workers", "x"],
            &["stable", "f"],
            &["hops", "f"],
            &["flood", "f"],
            &["distance", "f"],
            &["verify", "f", "n"],
            &["verify", "f", "n", "r", "r"],
            &["gadget"],
            &["gadget", "f", "n"],
            &["check", "f", "--require"],
            &["check", "--require", "strict"],
            &["check", "--require", "safe"],
            &["check", "a", "b", "c", "--require", ""],
        ],
    ),
    (
        b"words refused: C4\n",
        &[
            &["route", "f", "n", "--workers", "0"],
            &["run", "f", "n", "--turns", "1000001"],
            &["trace", "f", "n", "--turns", "-1"],
            &["flood", "f", "n", "--workers", "17"],
            &["flood", "f", "n", "--turns", "1000001"],
            &["distance", "f", "n", "--workers", "0"],
            &["distance", "f", "n", "--turns", "x"],
            &["route", "f", "n", "--workers", "17"],
            &["route", "f", "n", "--workers", "x"],
            &["route", "f", "n", "--workers", ""],
            &["route", "f", "n", "--workers", "+4"],
            &["route", "f", "n", "--workers", "000000000000000000004"],
            &["route", "f", "n", "--workers", "99999999999999999999"],
            &["route", "f", "--workers", "--workers", "n"],
            &["demo", "1", "1"],
            &["demo", "1", "513"],
            &["demo", "x", "2"],
            &["demo", "18446744073709551616", "2"],
        ],
    ),
    (
        b"words refused: C5\n",
        &[
            &["route", "f", "n", "--workers=4"],
            &["route", "f", "n", "--turns", "4"],
            &["run", "f", "n", "--turns", "4", "--turns", "4"],
            &["route", "f", "n", "--"],
            &["route", "--"],
            &["route", "f", "n", "--workers", "2", "--workers", "3"],
            &["route", "f", "n", "--workers", "2", "--workers"],
            &["check", "f", "--workers", "2"],
            &["settle", "f", "n", "--workers", "2"],
            &["demo", "1", "2", "--turns", "3"],
            &["check", "f", "--require", "strict", "--require", "total"],
            &["code", "f", "--require", "strict"],
            &["gadget", "f", "--require", "strict"],
            &["route", "f", "n", "--require", "safe"],
            &["stable", "f", "n", "--workers", "2"],
            &["hops", "f", "n", "--workers", "2"],
            &["flood", "f", "n", "--require", "isotone"],
            &["distance", "f", "n", "--turns", "1", "--turns", "1"],
            &["verify", "f", "n", "r", "--turns", "2"],
        ],
    ),
    (
        b"words refused: C6\n",
        &[
            &["check", "f", "--require", ""],
            &["check", "f", "--require", ","],
            &["check", "f", "--require", "safe"],
            &["check", "f", "--require", "Strict"],
            &["check", "f", "--require", "stric"],
            &["check", "f", "--require", "stricter"],
            &["check", "f", "--require", "strict,"],
            &["check", "f", "--require", ",strict"],
            &["check", "f", "--require", "strict, total"],
            &["check", "f", "--require", "strict,,total"],
            &["check", "f", "--require", "total,safe"],
            &["check", "f", "--require", "strict,strict"],
            &["check", "f", "--require", "strict,total,strict"],
            &["check", "f", "--require", "--require"],
        ],
    ),
];

#[test]
fn words_are_refused(rt: HostRuntime) -> Result<(), Fail> {
    for (text, lists) in REFUSED_WORDS {
        for words in *lists {
            let outcome = run(&rt, *words, b"main add(1..10);")?;
            assert!(rt; ended_with(outcome, *text, 1), "{words:?}");
        }
    }
    Ok(())
}

// Whether the words mean this command.
fn words_mean(alloc: Global, words: &[&str], command: Command) -> Result<bool, Fail> {
    let mut texts = Vec::new(alloc);
    for word in words {
        texts.push(Text::copy(alloc, *word)?)?;
    }
    Ok(read_words(&texts) == Ok(command))
}

// `check` with these places of its files, and the marked properties required.
fn check_of(file: usize, net: Option<usize>, marks: &str) -> Command {
    let marks = marks.as_bytes();
    let is_marked = |place: usize| marks.get(place) == Some(&b'y');
    Command::Check {
        file,
        net,
        require: Required {
            monotone: is_marked(0),
            strict: is_marked(1),
            isotone: is_marked(2),
            cancellative: is_marked(3),
            total: is_marked(4),
        },
    }
}

// The properties that are required are those of the list, in whatever order.
#[test]
fn words_mean_checks(rt: HostRuntime) -> Result<(), Fail> {
    let all = "total,cancellative,isotone,strict,monotone";
    let meant: &[(&[&str], usize, Option<usize>, &str)] = &[
        (&["check", "f"], 1, None, "-----"),
        (&["check", "f", "n"], 1, Some(2), "-----"),
        (&["check", "f", "--require", "monotone"], 1, None, "y----"),
        (&["check", "f", "--require", "isotone"], 1, None, "--y--"),
        (
            &["check", "--require", "total,strict", "f", "n"],
            3,
            Some(4),
            "-y--y",
        ),
        (&["check", "f", "--require", all, "n"], 1, Some(4), "yyyyy"),
    ];
    for (words, file, net, marks) in meant {
        let command = check_of(*file, *net, *marks);
        assert!(rt; words_mean(rt.alloc(), *words, command)?, "{words:?}");
    }
    Ok(())
}

// The places of the files are known from the arguments, wherever flags and their values stand.
#[test]
fn words_mean_commands(rt: HostRuntime) -> Result<(), Fail> {
    let route = |file, net, workers| Command::Route { file, net, workers };
    let meant: &[(&[&str], Command)] = &[
        (&["gadget", "f"], Command::Gadget { file: 1 }),
        (&["stable", "f", "n"], Command::Stable { file: 1, net: 2 }),
        (&["hops", "f", "n"], Command::Hops { file: 1, net: 2 }),
        (
            &["verify", "f", "n", "r"],
            Command::Verify {
                file: 1,
                net: 2,
                report: 3,
            },
        ),
        (&["route", "f", "n"], route(1, 2, 4)),
        (&["route", "--workers", "2", "f", "n"], route(3, 4, 2)),
        (&["route", "f", "--workers", "16", "n"], route(1, 4, 16)),
        (
            &["route", "f", "n", "--workers", "00000000000000000001"],
            route(1, 2, 1),
        ),
        (&["settle", "f", "n"], Command::Settle { file: 1, net: 2 }),
        (
            &["demo", "18446744073709551615", "512"],
            Command::Demo {
                seed: u64::MAX,
                nodes: 512,
            },
        ),
    ];
    for (words, command) in meant {
        assert!(rt; words_mean(rt.alloc(), *words, *command)?, "{words:?}");
    }
    Ok(())
}

#[test]
fn other_commands_are_reported_apart(rt: HostRuntime) -> Result<(), Fail> {
    let check = Command::Check {
        file: 1,
        net: None,
        require: Required::default(),
    };
    let others: &[&[&str]] = &[
        &["check", "f", "n"],
        &["check", "f", "--require", "total"],
        &["settle", "f", "n"],
        &["check"],
        &[],
    ];
    for words in others {
        assert!(rt; !words_mean(rt.alloc(), *words, check)?, "{words:?}");
    }
    Ok(())
}

// The line of a refused expression.
#[test]
fn expressions_are_refused(rt: HostRuntime) -> Result<(), Fail> {
    let refused: &[(&[u8], &[u8])] = &[
        (b"", b"expression refused: X3 at 1:1\n"),
        (b"main add(5..4);", b"expression refused: X7 at 1:13\n"),
        (
            b"main add(1..4294967296);",
            b"expression refused: X4 at 1:13\n",
        ),
        (b"main add(1..10)\0;", b"expression refused: X1 at 1:16\n"),
        (b"main add(1. .10);", b"expression refused: X1 at 1:11\n"),
        (b"main add(1..10);;", b"expression refused: X11 at 1:17\n"),
        (b"main lex(add(1..10)", b"expression refused: X3 at 1:20\n"),
        (
            b"main plus(add(1..2), seq(3));",
            b"expression refused: X8 at 1:28\n",
        ),
        (b"raml 3; main gate;", b"expression refused: X12 at 1:6\n"),
        (b"main gate", b"expression refused: X3 at 1:10\n"),
    ];
    for (file, text) in refused {
        assert!(rt; ended_with(run(&rt, &["check", "f"], *file)?, *text, 2));
    }
    Ok(())
}

const PROPERTIES: [&str; 5] = ["monotone", "strict", "isotone", "cancellative", "total"];

// Whether the five lines say of each property that it holds, where it is marked `y`, and else deny it with an
// instance.
pub(crate) fn says(text: &str, marks: &str) -> Result<bool, Fail> {
    for ((line, property), mark) in text.lines().zip(PROPERTIES).zip(marks.chars()) {
        let rest = line.strip_prefix(property).ok_or("another property")?;
        if (mark == 'y') != (rest == " yes") || (mark != 'y') != rest.starts_with(" no: ") {
            return Ok(false);
        }
    }
    Ok(text.lines().count() == 5)
}

// Whether the run said so, and wrote these lines among others.
fn has_said(outcome: Outcome, marks: &str, lines: &str) -> Result<bool, Fail> {
    let text = str::from_utf8(&outcome.taken)?;
    Ok(outcome.status == 0 && says(text, marks)? && text.contains(lines))
}

// What `check` prints where not strict alone is denied, or not by that label; and that with another status.
const NO_STRICT: &[(&[u8], u8)] = &[
    (ALL_HOLD, 0),
    (
        b"monotone yes\nstrict no: 0 on 0 gives 0\nisotone yes\ncancellative yes\ntotal no: 0 on 1 gives none\n",
        0,
    ),
    (
        b"monotone yes\nstrict no: 1 on 0 gives 0\nisotone yes\ncancellative yes\ntotal yes\n",
        0,
    ),
    (
        b"monotone yes\nstrict no\nisotone yes\ncancellative yes\ntotal yes\n",
        0,
    ),
    (
        b"monotone yes\nstrict no: 0 on 0 gives 0\nisotone yes\ncancellative yes\n",
        0,
    ),
    (
        b"monotone yes\nstrict no: 0 on 0 gives 0\nisotone yes\ncancellative yes\ntotal yes\n",
        3,
    ),
];

#[test]
fn other_answers_are_reported_apart(rt: HostRuntime) -> Result<(), Fail> {
    for (taken, status) in NO_STRICT {
        let outcome = outcome_of(rt.alloc(), *taken, *status)?;
        assert!(rt; !has_said(outcome, "y-yyy", "strict no: 0 on ")?);
    }
    Ok(())
}

// Routes of customers are preferred to those of peers, and these to those of providers, and only customers' routes go
// to everyone; then the fewest hops are.
pub(crate) const CUSTOMERS: &[u8] = b"let rel = table {
  c < r < p;
  C: c -> c;
  R: c -> r;
  P: c -> p, r -> p, p -> p
};
main lex(rel, add(1..1));";

// A way by a neighbour that routes directly is preferred to a direct one.
pub(crate) const BAD_GADGET: &[u8] = b"main table { o < a < d; D: o -> d; N: d -> a };";

const BAD_LINES: &str = "monotone no: N on d gives a\nstrict no: N on d gives a\n";

#[test]
fn policies_are_decided(rt: HostRuntime) -> Result<(), Fail> {
    let cases: &[(&[u8], &str, &str)] = &[
        (b"main add(0..10);", "y-yyy", ""),
        (b"main lex(width(100; 0..100), add(1..10));", "yy--y", ""),
        (b"main lex(add(1..10), width(100; 0..100));", "yyy-y", ""),
        (
            b"main cap(15; 1..1);",
            "yyyy-",
            "total no: 1 on 15 gives none\n",
        ),
        (b"main lex(add(1..1), cap(100; 1..10));", "yy-y-", ""),
        (b"main lex(lp(3), add(1..1));", "----y", ""),
        (b"raml 2; main add(1..18446744073709551615);", "yyyyy", ""),
        (CUSTOMERS, "yy---", ""),
        (BAD_GADGET, "---y-", BAD_LINES),
    ];
    for (file, marks, lines) in cases {
        assert!(rt; has_said(run(&rt, &["check", "f"], *file)?, *marks, *lines)?);
    }
    Ok(())
}

// What is asked of a network is asked of the labels on its arcs alone, after all changes.
#[test]
fn networks_are_decided(rt: HostRuntime) -> Result<(), Fail> {
    let cases: &[(&[u8], &[u8], &str, &str)] = &[
        (
            b"main gate;",
            b"node a b\nlink a b : deny\norigin x at b : unit\n",
            "yyyy-",
            "total no: deny on unit gives none\n",
        ),
        (b"main gate;", b"node a b\nlink a b : allow\n", "y-yyy", ""),
        (
            b"main add(0..10);",
            b"node a b\nlink a b : 0\n",
            "y-yyy",
            "",
        ),
        (
            b"main add(0..10);",
            b"node a b\nlink a b : 0\nthen link a b : 1\n",
            "yyyyy",
            "",
        ),
        (
            b"main add(0..10);",
            b"node a b\nlink a b : 0\nlink b a : 1\nthen drop a b\n",
            "yyyyy",
            "",
        ),
        (BAD_GADGET, b"", "yyyyy", ""),
    ];
    for (file, net, marks, lines) in cases {
        let outcome = run_on(&rt, &["check", "f", "n"], *file, *net)?;
        assert!(rt; has_said(outcome, *marks, *lines)?);
    }
    Ok(())
}

// A comment of so many bytes.
fn comment(alloc: Global, bytes: usize) -> Result<Vec<u8>, NoMemory> {
    Ok(vec![in alloc; b'#'; bytes]?)
}

#[test]
fn long_files(rt: HostRuntime) -> Result<(), Fail> {
    let cases: &[(usize, &[u8], u8)] = &[
        (MAX_FILE_BYTES, b"expression refused: X3 at 1:4194305\n", 2),
        (MAX_FILE_BYTES + 1, b"too long: the expression\n", 8),
    ];
    for (bytes, text, status) in cases {
        let file = comment(rt.alloc(), *bytes)?;
        let outcome = run(&rt, &["check", "f"], &file);
        drop(file);
        assert!(rt; ended_with(outcome?, *text, *status));
    }
    Ok(())
}

// The network file is begun only once the expression is read.
#[test]
fn network_files_are_read_second(rt: HostRuntime) -> Result<(), Fail> {
    let cases: &[(&str, &[u8], &[u8], &[u8], u8)] = &[
        (
            "n",
            b"main",
            b"edge a b\n",
            b"expression refused: X3 at 1:5\n",
            2,
        ),
        (
            "n",
            b"main add(1..2);",
            b"edge a b\n",
            b"network refused: N1 at line 1\n",
            2,
        ),
        (
            "m",
            b"main add(1..10);",
            b"",
            b"read fault on the network\n",
            5,
        ),
    ];
    for (name, file, net, text, status) in cases {
        let outcome = run_on(&rt, &["route", "f", *name], *file, *net)?;
        assert!(rt; ended_with(outcome, *text, *status));
    }
    Ok(())
}

#[test]
fn long_networks(rt: HostRuntime) -> Result<(), Fail> {
    let net = comment(rt.alloc(), MAX_FILE_BYTES + 1)?;
    let outcome = run_on(&rt, &["route", "f", "n"], b"main add(1..10);", &net);
    drop(net);
    assert!(rt; ended_with(outcome?, b"too long: the network\n", 8));
    Ok(())
}

// The line of a refused network.
#[test]
fn networks_are_refused(rt: HostRuntime) -> Result<(), Fail> {
    let refused: &[(&[u8], &[u8])] = &[
        (b"edge a b", b"network refused: N1 at line 1\n"),
        (b"link a b : 1", b"network refused: N2 at line 1\n"),
        (b"node a a", b"network refused: N3 at line 1\n"),
        (
            b"node a b\nlink a b : 1\nlink a b : 2",
            b"network refused: N4 at line 3\n",
        ),
        (b"node a\nlink a a : 1", b"network refused: N5 at line 2\n"),
        (
            b"node a b\nlink a b : 11",
            b"network refused: N6 at line 2\n",
        ),
        (
            b"node a\norigin x at a : q",
            b"network refused: N7 at line 2\n",
        ),
        (
            b"node a\norigin x at a : 0\norigin x at a : 1",
            b"network refused: N8 at line 3\n",
        ),
        (
            b"node a b\nthen link a b : 1\nnode c",
            b"network refused: N10 at line 3\n",
        ),
        (
            b"node a b\nthen drop a b",
            b"network refused: N11 at line 2\n",
        ),
    ];
    for (net, text) in refused {
        let outcome = run_on(&rt, &["route", "f", "n"], b"main add(1..10);", *net)?;
        assert!(rt; ended_with(outcome, *text, 2));
    }
    Ok(())
}

#[test]
fn long_lines(rt: HostRuntime) -> Result<(), Fail> {
    let mut line = vec![in rt.alloc(); b' '; 4096]?;
    let outcome = run_on(&rt, &["route", "f", "n"], b"main add(1..9);", &line)?;
    assert!(rt; ended_with(outcome, b"", 0));
    line.push(b'\r')?;
    let outcome = run_on(&rt, &["route", "f", "n"], b"main add(1..9);", &line)?;
    assert!(rt; ended_with(outcome, b"network refused: N1 at line 1\n", 2));
    Ok(())
}
