// Names of nodes and destinations.
ghost use Rattle.std.specs.Prelude.{◌≡◌};
ghost use Rattle.std.specs.List.{list_all, list_any};
ghost use Rattle.std.specs.Str.{bytes_eq};
ghost use Rattle.net_graph.specs.Nets.{is_name_byte, is_name as is_name_of};
ghost use Rattle.topology_file.specs.Texts.{words_of};

use crate::texts::split_word;

// Of each byte 1 if it may stand in a name, and else 0.
const NAME_BYTES: [u8; 256] = [
    0, 0, 0, 0, 0, 0, 0, 0, 0, 0, 0, 0, 0, 0, 0, 0, 0, 0, 0, 0, 0, 0, 0, 0, 0, 0, 0, 0, 0, 0, 0, 0,
    0, 0, 0, 0, 0, 0, 0, 0, 0, 0, 0, 0, 0, 1, 1, 0, 1, 1, 1, 1, 1, 1, 1, 1, 1, 1, 0, 0, 0, 0, 0, 0,
    0, 1, 1, 1, 1, 1, 1, 1, 1, 1, 1, 1, 1, 1, 1, 1, 1, 1, 1, 1, 1, 1, 1, 1, 1, 1, 1, 0, 0, 0, 0, 1,
    0, 1, 1, 1, 1, 1, 1, 1, 1, 1, 1, 1, 1, 1, 1, 1, 1, 1, 1, 1, 1, 1, 1, 1, 1, 1, 1, 0, 0, 0, 0, 0,
    0, 0, 0, 0, 0, 0, 0, 0, 0, 0, 0, 0, 0, 0, 0, 0, 0, 0, 0, 0, 0, 0, 0, 0, 0, 0, 0, 0, 0, 0, 0, 0,
    0, 0, 0, 0, 0, 0, 0, 0, 0, 0, 0, 0, 0, 0, 0, 0, 0, 0, 0, 0, 0, 0, 0, 0, 0, 0, 0, 0, 0, 0, 0, 0,
    0, 0, 0, 0, 0, 0, 0, 0, 0, 0, 0, 0, 0, 0, 0, 0, 0, 0, 0, 0, 0, 0, 0, 0, 0, 0, 0, 0, 0, 0, 0, 0,
    0, 0, 0, 0, 0, 0, 0, 0, 0, 0, 0, 0, 0, 0, 0, 0, 0, 0, 0, 0, 0, 0, 0, 0, 0, 0, 0, 0, 0, 0, 0, 0,
];

/// Whether the byte may stand in a name: a letter, a digit or one of `_-.`.
#[inline]
#[tactic(auto, using(crate::proofs::NameBytes::table_says))]
pub fn is_name_part(byte: u8) -> bool
    ensures { result ≡ is_name_byte byte }
{
    NAME_BYTES[byte as usize] == 1
}

fn is_of_name_parts(word: &[u8]) -> bool
    ensures { result ≡ list_all is_name_byte word.now }
{
    word.iter().all(|byte| is_name_part(*byte))
}

/// Whether the word is a name: 1 to 32 letters, digits and bytes of `_-.`.
pub fn is_name(word: &[u8]) -> bool
    ensures { result ≡ is_name_of word.now }
{
    1 <= word.len() && word.len() <= 32 && is_of_name_parts(word)
}

/// Whether each word of the text is a name.
pub fn are_all_names(text: &[u8]) -> bool
    ensures { result ≡ list_all is_name_of (words_of text.now) }
{
    let mut rest = text;
    while let Some((word, others)) = split_word(rest) {
        if !is_name(word) {
            return false;
        }
        rest = others;
    }
    true
}

/// Whether the word is one of the text's.
pub fn has_word(text: &[u8], wanted: &[u8]) -> bool
    ensures { result ≡ list_any (λ word. bytes_eq word wanted.now) (words_of text.now) }
{
    let mut rest = text;
    while let Some((word, others)) = split_word(rest) {
        if word == wanted {
            return true;
        }
        rest = others;
    }
    false
}
