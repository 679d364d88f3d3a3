// Spaces and comments.
ghost use Rattle.std.specs.Prelude.{◌≡◌, ◌+◌, ◌<◌, ◌≤◌, ◌^◌, ◌++◌, false, take, drop, length, count_by, slice_index};
ghost use Rattle.std.specs.List.{list_all};
ghost use Rattle.meta_base.specs.Bytes.{is_space, is_line_feed};
ghost use Rattle.raml_lex.specs.Gaps.{passed_at, gap_of, after_gap, is_plain_space, IsLine};
ghost use Rattle.raml_lex.specs.KnownFronts.{after_blank};
ghost use Rattle.raml_lex.specs.Places.{FitsPlace};
ghost use Rattle.raml_lex.specs.Sources.{IsCursor};

use crate::cursor::Cursor;
use memchr::{memchr, memrchr};
use meta_base::bytes::is_space;

// How many bytes stand before the first line feed, or all of them where there is none.
fn line_len(text: &[u8]) -> usize
    ensures { IsLine text.now result }
{
    match memchr(b'\n', text) {
        Some(len) => len,
        None => text.len(),
    }
}

// The end of the comment that begins there: the line feed of its line, or the end of the source.
fn after_comment(source: &[u8], here: Cursor) -> Cursor
    requires cursor { IsCursor source.now here }
    requires within { here.at < length source.now }
    requires mark { slice_index source.now here.at ≡ 35 }
    ensures cursor { IsCursor source.now result }
    ensures further { here.at < result.at }
    ensures gap { passed_at source.now result.at ≡ passed_at source.now here.at }
    ensures after { after_gap false (drop result.at source.now) ≡ after_gap false (drop here.at source.now) }
{
    let (_, comment) = source.split_at(here.at);
    here.after(line_len(comment))
}

// How many bytes of a long run of spaces are passed together: so few that one byte counts their line feeds. A
// short run, as between most tokens, is passed byte by byte.
const BLOCK: usize = 240;

// Whether all are spaces. Tabs and carriage returns are looked for only where there are others than blanks and line
// feeds.
#[tactic(auto, using(crate::proofs::Gaps::plain_spaces))]
fn are_spaces(bytes: &[u8]) -> bool
    ensures { result ≡ list_all is_space bytes.now }
{
    are_plain_spaces(bytes) || are_any_spaces(bytes)
}

// Whether all are blanks and line feeds. It looks at each and branches at none, so that one instruction looks at
// several.
fn are_plain_spaces(bytes: &[u8]) -> bool
    ensures { result ≡ list_all is_plain_space bytes.now }
{
    let mut all = true;
    for byte in bytes {
        all &= (*byte == b' ') | (*byte == b'\n');
    }
    all
}

// Whether all are spaces, in the same way.
fn are_any_spaces(bytes: &[u8]) -> bool
    ensures { result ≡ list_all is_space bytes.now }
{
    let mut all = true;
    for byte in bytes {
        all &= (*byte == b' ') | (*byte == b'\t') | (*byte == b'\n') | (*byte == b'\r');
    }
    all
}

// How many line feeds there are.
fn line_feeds(bytes: &[u8]) -> u8
    requires { length bytes.now < 2 ^ 8 }
    ensures { result ≡ count_by is_line_feed bytes.now }
{
    let mut count = 0;
    for byte in bytes {
        count += u8::from(*byte == b'\n');
    }
    count
}

// After these bytes, which stand there.
fn after_bytes(source: &[u8], here: Cursor, bytes: &[u8]) -> Cursor
    requires cursor { IsCursor source.now here }
    requires bytes { take (length bytes.now) (drop here.at source.now) ≡ bytes.now }
    requires within { length bytes.now ≤ length (drop here.at source.now) }
    requires few { length bytes.now < 2 ^ 8 }
    ensures cursor { IsCursor source.now result }
    ensures at { result.at ≡ here.at + length bytes.now }
{
    match memrchr(b'\n', bytes) {
        Some(last) => Cursor {
            at: here.at + bytes.len(),
            line: here.line + u32::from(line_feeds(bytes)),
            line_start: here.at + last + 1,
        },
        None => here.after(bytes.len()),
    }
}

// After all whole blocks of spaces that stand from here on.
fn after_blocks(source: &[u8], from: Cursor) -> Cursor
    requires { IsCursor source.now from }
    ensures cursor { IsCursor source.now result }
    ensures further { from.at ≤ result.at }
    ensures gap { passed_at source.now result.at ≡ passed_at source.now from.at }
    ensures after { after_gap false (drop result.at source.now) ≡ after_gap false (drop from.at source.now) }
{
    let mut here = from;
    while source.len() - here.at >= BLOCK {
        let block = &source[here.at..here.at + BLOCK];
        if !are_spaces(block) {
            break;
        }
        here = after_bytes(source, here, block);
    }
    here
}

/// After the blank that stands there, if one does.
#[inline(always)]
pub fn after_space(source: &[u8], from: &Cursor) -> Cursor
    requires { IsCursor source.now from.now }
    ensures cursor { IsCursor source.now result }
    ensures blank { drop result.at source.now ≡ after_blank (drop from.now.at source.now) }
    ensures gap { passed_at source.now result.at ≡ passed_at source.now from.now.at }
    ensures after { after_gap false (drop result.at source.now) ≡ after_gap false (drop from.now.at source.now) }
{
    if from.at < source.len() && source[from.at] == b' ' {
        from.after(1)
    } else {
        *from
    }
}

// Where the spaces and comments end that stand from here on, however many.
#[inline(never)]
fn long_gap_end(source: &[u8], from: Cursor) -> Cursor
    requires { IsCursor source.now from }
    ensures cursor { IsCursor source.now result }
    ensures gap { take result.at source.now ≡ take from.at source.now ++ gap_of false (drop from.at source.now) }
    ensures after { drop result.at source.now ≡ after_gap false (drop from.at source.now) }
{
    let mut here = from;
    let mut run = 0;
    while here.at < source.len() {
        let byte = source[here.at];
        if byte == b'\n' {
            here = here.on_next_line();
        } else if is_space(byte) {
            here = here.after(1);
        } else if byte == b'#' {
            here = after_comment(source, here);
        } else {
            break;
        }
        run += 1;
        if run == BLOCK {
            here = after_blocks(source, here);
            run = 0;
        }
    }
    here
}

/// Where the spaces and comments end that stand from here on. It is written for most gaps, which are one space or
/// none: where there are more, the gap is read from its front.
#[inline(always)]
pub fn gap_end(source: &[u8], from: &Cursor) -> Cursor
    requires { IsCursor source.now from.now }
    ensures cursor { IsCursor source.now result }
    ensures gap { take result.at source.now
        ≡ take from.now.at source.now ++ gap_of false (drop from.now.at source.now) }
    ensures after { drop result.at source.now ≡ after_gap false (drop from.now.at source.now) }
{
    let here = after_space(source, from);
    if here.at < source.len() && source[here.at] > b' ' && source[here.at] != b'#' {
        here
    } else {
        long_gap_end(source, *from)
    }
}
