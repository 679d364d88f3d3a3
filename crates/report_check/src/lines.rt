// What a line of a report says, by its words alone.
ghost use Rattle.std.specs.Prelude.{◌≡◌, length};
ghost use Rattle.std.specs.List.{list_all};
ghost use Rattle.meta_base.specs.Bytes.{is_digit};
ghost use Rattle.report_check.specs.ReportText.{end_line as end_line_of, is_count as is_count_of, none_line as none_line_of, said_by as said_by_words, said_in};
ghost use Rattle.report_check.specs.Said.{PathWithin, pure_said};
ghost use Rattle.topology_file.specs.Texts.{words_of};

use meta_base::bytes::is_digit;
use topology_file::{split_word, without_return};

/// The most digits of the count in the line that ends a run's rows.
const MAX_COUNT_DIGITS: usize = 20;

/// What a line says. Its parts are slices of the line, and none is known to be a name.
#[derive(Clone, Copy, Debug)]
pub enum Said<'a> {
    /// Nothing.
    Silent,
    /// The node has no route for the destination.
    NoRoute {
        node: &'a [u8],
        dest: &'a [u8],
    },
    /// It has a route: the texts of its value and of the nodes of its path, of which there is one at least.
    Route {
        node: &'a [u8],
        dest: &'a [u8],
        value: &'a [u8],
        path: &'a [u8],
    },
    /// How a run ended.
    Ending,
    /// The line has no form of a report.
    Bad,
}

/// What the line says.
pub fn line_says(line: &[u8]) -> Said<'_>
    ensures said { pure_said result ≡ said_in line.now }
    ensures path { PathWithin (length line.now) result }
{
    words_say(without_return(line))
}

// What the words of the text say.
fn words_say(text: &[u8]) -> Said<'_>
    ensures said { pure_said result ≡ said_by_words (words_of text.now) }
    ensures path { PathWithin (length text.now) result }
{
    let Some((node, rest)) = split_word(text) else {
        return Said::Silent;
    };
    let Some((dest, rest)) = split_word(rest) else {
        return Said::Bad;
    };
    let Some((value, path)) = split_word(rest) else {
        return end_line(node, dest);
    };
    match split_word(path) {
        None => none_line(node, dest, value),
        Some(_) => Said::Route {
            node,
            dest,
            value,
            path,
        },
    }
}

// A line of two words.
fn end_line<'a>(word: &[u8], count: &[u8]) -> Said<'a>
    ensures said { pure_said result ≡ end_line_of word.now count.now }
    ensures path { PathWithin 0 result }
{
    if (word == b"quiet".as_slice() || word == b"spent".as_slice()) && is_count(count) {
        Said::Ending
    } else {
        Said::Bad
    }
}

// A line of three words.
fn none_line<'a>(node: &'a [u8], dest: &'a [u8], word: &[u8]) -> Said<'a>
    ensures said { pure_said result ≡ none_line_of node.now dest.now word.now }
    ensures path { PathWithin 0 result }
{
    if word == b"none".as_slice() {
        Said::NoRoute { node, dest }
    } else {
        Said::Bad
    }
}

// Whether the word is a count: 1 to [`MAX_COUNT_DIGITS`] digits.
fn is_count(word: &[u8]) -> bool
    ensures { result ≡ is_count_of word.now }
{
    1 <= word.len() && word.len() <= MAX_COUNT_DIGITS && are_digits(word)
}

fn are_digits(word: &[u8]) -> bool
    ensures { result ≡ list_all is_digit word.now }
{
    word.iter().all(|byte| is_digit(*byte))
}
