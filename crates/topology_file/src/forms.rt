ghost use Rattle.std.specs.Prelude.{◌≡◌, [], ◌∷◌};
ghost use Rattle.std.specs.Str.{bytes_eq};
ghost use Rattle.topology_file.specs.Texts.{words_of};
ghost use Rattle.topology_file.specs.Forms.{line_of, plain_line as plain_line_of, node_line as node_line_of, drop_line as drop_line_of, colon_line as colon_line_of, short_line as short_line_of, long_line as long_line_of, origin_line as origin_line_of, then_line as then_line_of};
ghost use Rattle.topology_file.specs.Views.{arc_form, pure_line, HasDestName};

use crate::names::is_name;
use crate::texts::{split_at_byte, split_word};
use crate::word::Word;

/// What a line asks for, by its form alone. Its parts are slices of the line. All names in it are names,
/// but for those of nodes, which are looked at as they are added.
#[derive(Debug, Drop)]
pub enum Line<'a> {
    /// Nothing.
    Silent,
    /// A part of the network.
    Network(NetLine<'a>),
    /// A change: the arc gets this label, or is added.
    ThenLink {
        listener: &'a [u8],
        speaker: &'a [u8],
        label: &'a [u8],
    },
    /// A change: the arc is taken out.
    ThenDrop {
        listener: &'a [u8],
        speaker: &'a [u8],
    },
    /// The line has no form of a network file.
    Bad,
}

/// What a line adds to the network.
#[derive(Debug, Drop)]
pub enum NetLine<'a> {
    /// Nodes, by the text of the words after the first, of which there is one at least.
    Nodes(&'a [u8]),
    /// An arc, or two.
    Arc(ArcLine<'a>),
    /// An origin, by the names of its destination and its node and the text of its value.
    Origin {
        dest: &'a [u8],
        node: &'a [u8],
        value: &'a [u8],
    },
}

/// The names of an arc's listener and speaker, and the text of its label.
#[derive(Debug, Drop)]
pub struct ArcLine<'a> {
    pub ways: Ways,
    pub listener: Word<'a>,
    pub speaker: Word<'a>,
    pub label: Word<'a>,
}

impl<'a> ArcLine<'a> {
    /// Where no part was read yet.
    pub fn blank() -> ArcLine<'a> {
        ArcLine {
            ways: Ways::One,
            listener: Word::of(b""),
            speaker: Word::of(b""),
            label: Word::of(b""),
        }
    }
}

/// Which arcs a line asks for.
#[derive(Clone, Copy, Debug)]
pub enum Ways {
    /// The one from the listener to the speaker: `link`.
    One,
    /// That arc, and the one back: `both`.
    Both,
}

/// What a line asks for that says this. The colon is the first one.
#[inline(never)]
pub fn line_form(said: &[u8]) -> Line<'_>
    ensures form { pure_line result ≡ line_of said.now }
    ensures names { HasDestName result }
{
    match split_at_byte(said, b':') {
        (words, []) => plain_line(words),
        (words, [_, literal @ ..]) => colon_line(words, literal),
    }
}

// A line without a colon.
fn plain_line(text: &[u8]) -> Line<'_>
    ensures form { pure_line result ≡ plain_line_of (words_of text.now) }
    ensures names { HasDestName result }
{
    match split_word(text) {
        None => Line::Silent,
        Some((b"node", names)) => node_line(names),
        Some((word, rest)) => drop_line(word, rest),
    }
}

// A line `node ..`, by the text after that word.
fn node_line(names: &[u8]) -> Line<'_>
    ensures form { pure_line result ≡ node_line_of (words_of names.now) }
    ensures names { HasDestName result }
{
    match split_word(names) {
        None => Line::Bad,
        Some(_) => Line::Network(NetLine::Nodes(names)),
    }
}

// A line without a colon that begins with this word.
fn drop_line<'a>(word: &[u8], rest: &'a [u8]) -> Line<'a>
    ensures form { pure_line result ≡ drop_line_of (word.now ∷ words_of rest.now) }
    ensures names { HasDestName result }
{
    let Some((kind, rest)) = split_word(rest) else {
        return Line::Bad;
    };
    let Some((listener, rest)) = split_word(rest) else {
        return Line::Bad;
    };
    let Some((speaker, rest)) = split_word(rest) else {
        return Line::Bad;
    };
    if split_word(rest).is_some()
        || !is_word(word, b"then")
        || !is_word(kind, b"drop")
        || !is_name(listener)
        || !is_name(speaker)
    {
        return Line::Bad;
    }
    Line::ThenDrop { listener, speaker }
}

// A line with a colon, by the text before it and the text after it.
fn colon_line<'a>(text: &'a [u8], literal: &'a [u8]) -> Line<'a>
    ensures form { pure_line result ≡ colon_line_of (words_of text.now) literal.now }
    ensures names { HasDestName result }
{
    let Some((word, rest)) = split_word(text) else {
        return Line::Bad;
    };
    let Some((first, rest)) = split_word(rest) else {
        return Line::Bad;
    };
    let Some((second, rest)) = split_word(rest) else {
        return Line::Bad;
    };
    let Some((third, rest)) = split_word(rest) else {
        return short_line(word, first, second, literal);
    };
    match split_word(rest) {
        None => long_line(word, first, second, third, literal),
        Some(_) => Line::Bad,
    }
}

// A line of three words before its colon.
fn short_line<'a>(word: &[u8], listener: &'a [u8], speaker: &'a [u8], label: &'a [u8]) -> Line<'a>
    ensures form { pure_line result ≡ short_line_of word.now listener.now speaker.now label.now }
    ensures names { HasDestName result }
{
    if !is_name(listener) || !is_name(speaker) {
        return Line::Bad;
    }
    match word {
        b"link" => arc_of(Ways::One, listener, speaker, label),
        b"both" => arc_of(Ways::Both, listener, speaker, label),
        _ => Line::Bad,
    }
}

fn arc_of<'a>(ways: Ways, listener: &'a [u8], speaker: &'a [u8], label: &'a [u8]) -> Line<'a>
    ensures form { pure_line result ≡ arc_form ways listener.now speaker.now label.now }
    ensures names { HasDestName result }
{
    Line::Network(NetLine::Arc(ArcLine {
        ways,
        listener: Word::of(listener),
        speaker: Word::of(speaker),
        label: Word::of(label),
    }))
}

// A line of four words before its colon.
fn long_line<'a>(
    word: &[u8],
    first: &'a [u8],
    second: &'a [u8],
    third: &'a [u8],
    literal: &'a [u8],
) -> Line<'a>
    ensures form { pure_line result ≡ long_line_of word.now first.now second.now third.now literal.now }
    ensures names { HasDestName result }
{
    if is_word(word, b"origin") {
        origin_line(first, second, third, literal)
    } else {
        then_line(word, first, second, third, literal)
    }
}

// A line `origin ..`, by the other three words.
fn origin_line<'a>(dest: &'a [u8], at: &[u8], node: &'a [u8], value: &'a [u8]) -> Line<'a>
    ensures form { pure_line result ≡ origin_line_of dest.now at.now node.now value.now }
    ensures names { HasDestName result }
{
    if is_word(at, b"at") && is_name(dest) && is_name(node) {
        Line::Network(NetLine::Origin { dest, node, value })
    } else {
        Line::Bad
    }
}

// A line of four words that isn't `origin ..`.
fn then_line<'a>(
    word: &[u8],
    kind: &[u8],
    listener: &'a [u8],
    speaker: &'a [u8],
    label: &'a [u8],
) -> Line<'a>
    ensures form { pure_line result ≡ then_line_of word.now kind.now listener.now speaker.now label.now }
    ensures names { HasDestName result }
{
    if is_word(word, b"then") && is_word(kind, b"link") && is_name(listener) && is_name(speaker) {
        Line::ThenLink {
            listener,
            speaker,
            label,
        }
    } else {
        Line::Bad
    }
}

fn is_word(word: &[u8], wanted: &[u8]) -> bool
    ensures { result ≡ bytes_eq word.now wanted.now }
{
    word == wanted
}
