ghost use Rattle.std.specs.Prelude.{◌≡◌, ◌≢◌, ◌<◌, Some, length, slice_get};
ghost use Rattle.label_code.specs.Orders.{RunOrder, FitsBoth, finding, by_words, by_sides, misses};
ghost use Rattle.label_code.specs.Findings.{finding_of};

use crate::pieces::{after, item, sequence};
use crate::{OrdOp, OrderCode, Row, Word};
use meta_base::List;
use std::cmp::Ordering;

/// Which of two rows the code prefers, both of which it fits: `Less` is the first. It takes no memory.
pub fn compare(code: &OrderCode, a: &Row, b: &Row) -> Ordering
    requires { FitsBoth code.now a.now b.now }
    ensures { RunOrder code.now a.now b.now ≡ Some result }
{
    compare_words(code.as_slice(), a.as_slice(), b.as_slice())
}

/// What [`compare`] tells, of rows that are slices.
#[inline(always)]
pub fn compare_words(code: &[OrdOp], first: &[Word], second: &[Word]) -> Ordering
    requires { FitsBoth code.now first.now second.now }
    ensures { RunOrder code.now first.now second.now ≡ Some result }
{
    let mut code = code;
    let mut first = first;
    let mut second = second;
    // Most orders look at numbers first, and most rows differ there. Two looks distinguish two kinds of operations, where
    // a choice among all kinds is a jump by a table.
    while let ([op, others @ ..], [m, left @ ..], [n, right @ ..]) = (code, first, second) {
        let found = if let OrdOp::Less = op {
            m.cmp(n)
        } else if let OrdOp::More = op {
            n.cmp(m)
        } else {
            return compare_others(code, first, second);
        };
        if found != Ordering::Equal {
            return found;
        }
        code = others;
        first = left;
        second = right;
    }
    if code.is_empty() {
        return Ordering::Equal;
    }
    compare_steps(code, first, second)
}

// The same of a code whose first operation is another, which goes to the loop that suits that operation.
#[inline(never)]
fn compare_others(code: &[OrdOp], first: &[Word], second: &[Word]) -> Ordering
    requires { FitsBoth code.now first.now second.now }
    ensures { RunOrder code.now first.now second.now ≡ Some result }
{
    if let [OrdOp::Rank(_), ..] = code {
        return compare_ranks(code, first, second);
    }
    compare_steps(code, first, second)
}

// The same by numbers and ranks, which most orders compare alone, up to the first operation that does something else.
#[inline(always)]
fn compare_ranks(code: &[OrdOp], first: &[Word], second: &[Word]) -> Ordering
    requires { FitsBoth code.now first.now second.now }
    ensures { RunOrder code.now first.now second.now ≡ Some result }
{
    let mut code = code;
    let mut first = first;
    let mut second = second;
    while let ([op, others @ ..], [m, left @ ..], [n, right @ ..]) = (code, first, second) {
        let found = match op {
            OrdOp::Less => m.cmp(n),
            OrdOp::More => n.cmp(m),
            OrdOp::Rank(ranks) => rank_of(ranks, *m).cmp(&rank_of(ranks, *n)),
            _ => return compare_steps(code, first, second),
        };
        if found != Ordering::Equal {
            return found;
        }
        code = others;
        first = left;
        second = right;
    }
    if code.is_empty() {
        return Ordering::Equal;
    }
    compare_steps(code, first, second)
}

// The same, one operation after another.
#[inline(never)]
fn compare_steps(code: &[OrdOp], first: &[Word], second: &[Word]) -> Ordering
    requires { FitsBoth code.now first.now second.now }
    ensures { RunOrder code.now first.now second.now ≡ Some result }
{
    let mut code = code;
    let mut first = first;
    let mut second = second;
    loop {
        let Some((op, rest)) = code.split_first() else {
            return Ordering::Equal;
        };
        match find(op, first, second) {
            Found::Decided(ordering) => return ordering,
            Found::Tied(left, right, jump) => {
                first = left;
                second = right;
                code = after(rest, jump);
            }
        }
    }
}

// What an operation finds: which row is preferred, or what is left of two that are equal so far, and over how many
// operations it jumps.
#[derive(Clone, Copy)]
enum Found<'a> {
    Decided(Ordering),
    Tied(&'a [Word], &'a [Word], usize),
}

// What the operation finds.
fn find<'a>(op: &OrdOp, first: &'a [Word], second: &'a [Word]) -> Found<'a>
    requires { finding op.now first.now second.now ≢ misses }
    ensures { finding_of result ≡ finding op.now first.now second.now }
{
    if let OrdOp::Leap(jump) = op {
        return Found::Tied(first, second, *jump);
    }
    let ([m, first @ ..], [n, second @ ..]) = (first, second) else {
        unreachable!()
    };
    match op {
        OrdOp::Less => by(m.cmp(n), first, second),
        OrdOp::More => by(n.cmp(m), first, second),
        OrdOp::Length => { by(m.cmp(n), sequence(*m, first).1, sequence(*n, second).1) }
        OrdOp::Pass => Found::Tied(first, second, 0),
        OrdOp::Rank(ranks) => { by(rank_of(ranks, *m).cmp(&rank_of(ranks, *n)), first, second) }
        OrdOp::Sides(jump) => stated_by_sides(*m, *n, first, second, *jump),
        OrdOp::Leap(_) => unreachable!(),
    }
}

// The rank of a word.
fn rank_of(ranks: &List<Word>, word: Word) -> Word
    requires { word < length ranks.now }
    ensures { slice_get ranks.now word ≡ Some result }
{
    item(ranks.as_slice(), word)
}

// Decided, unless the words were equal.
fn by<'a>(ordering: Ordering, first: &'a [Word], second: &'a [Word]) -> Found<'a>
    ensures { finding_of result ≡ by_words ordering first.now second.now }
{
    match ordering {
        Ordering::Equal => Found::Tied(first, second, 0),
        unequal => Found::Decided(unequal),
    }
}

// What two sides tell.
fn stated_by_sides<'a>(
    m: Word,
    n: Word,
    first: &'a [Word],
    second: &'a [Word],
    jump: usize,
) -> Found<'a>
    requires { by_sides m n first.now second.now jump ≢ misses }
    ensures { finding_of result ≡ by_sides m n first.now second.now jump }
{
    match m.cmp(&n) {
        Ordering::Equal if m == 0 => Found::Tied(first, second, 0),
        Ordering::Equal => Found::Tied(first, second, jump),
        unequal => Found::Decided(unequal),
    }
}
