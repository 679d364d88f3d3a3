//! The words after the command, taken apart into arguments and flags.
ghost use Rattle.std.specs.Prelude.{◌≡◌, ◌+◌, ◌^◌, ◌<◌, length, OnSome};
ghost use Rattle.command_words.specs.Parts.{is_flag};

use crate::usage::Flag;
use meta_base::Text;

/// A part of the words after the command.
#[derive(Clone, Copy)]
pub enum WordPart<'a> {
    /// An argument, and its place among all words.
    Argument {
        place: usize,
        word: &'a str,
    },
    /// A flag and its value, the word after it; a flag that is the last word has none.
    Flag {
        word: &'a str,
        value: Option<&'a str>,
    },
}

impl<'a> WordPart<'a> {
    ghost use Rattle.std.specs.Prelude.{option_map};
    ghost use Rattle.std.specs.List.{list_any};
    ghost use Rattle.command_words.specs.Parts.{pure_part, place_of, word_of, is_argument, value_of, misses_value, gives, is_unknown};

    /// The place of an argument.
    pub fn place(self) -> Option<usize>
        ensures { result ≡ place_of (pure_part self.entry) }
    {
        match self {
            WordPart::Argument { place, .. } => Some(place),
            WordPart::Flag { .. } => None,
        }
    }

    /// The word of an argument, or of a flag.
    pub fn word(self) -> &'a str
        ensures { result.now ≡ word_of (pure_part self.entry) }
    {
        match self {
            WordPart::Argument { word, .. } | WordPart::Flag { word, .. } => word,
        }
    }

    /// Whether it is an argument.
    pub fn is_argument(self) -> bool
        ensures { result ≡ is_argument (pure_part self.entry) }
    {
        matches!(self, WordPart::Argument { .. })
    }

    /// The value of a flag.
    pub fn value(self) -> Option<&'a str>
        ensures { option_map (λ v. v.now) result ≡ value_of (pure_part self.entry) }
    {
        match self {
            WordPart::Argument { .. } => None,
            WordPart::Flag { value, .. } => value,
        }
    }

    /// Whether it is a flag without a value.
    pub fn misses_value(self) -> bool
        ensures { result ≡ misses_value (pure_part self.entry) }
    {
        matches!(self, WordPart::Flag { value: None, .. })
    }

    /// Whether it is this flag.
    pub fn gives(self, flag: Flag) -> bool
        ensures { result ≡ gives flag (pure_part self.entry) }
    {
        match self {
            WordPart::Argument { .. } => false,
            WordPart::Flag { word, .. } => word == flag.word(),
        }
    }

    /// Whether it is a flag, but none of these.
    pub fn is_unknown(self, flags: &[Flag]) -> bool
        ensures { result ≡ is_unknown flags.now (pure_part self.entry) }
    {
        self.place().is_none() && !self.is_among(flags)
    }

    // Whether it is one of these flags.
    fn is_among(self, flags: &[Flag]) -> bool
        ensures { result ≡ list_any (λ flag. gives flag (pure_part self.entry)) flags.now }
    {
        flags.iter().any(|flag| self.gives(*flag))
    }
}

/// The parts of words, from left to right.
#[derive(Drop)]
pub struct Parts<'a> {
    words: &'a [Text],
    // The place of the first of these words among all.
    place: usize,
    ghost countable: { place + length words.now < 2 ^ 64 },
}

impl<'a> Parts<'a> {
    ghost use Rattle.std.specs.Iterator.{YieldsFirstRef};
    ghost use Rattle.command_words.specs.Parts.{parts_from};
    ghost use Rattle.command_words.specs.PartsLeft.{parts_left};

    /// The parts of the words after the command.
    #[tactic(auto, using(crate::proofs::FirstParts::parts_within))]
    pub fn after_command(words: &'a [Text]) -> Parts<'a>
        ensures parts { parts_left result ≡ parts_from 1 words.now }
        ensures few { length (parts_left result) < 2 ^ 64 }
    {
        Parts { words, place: 1 }
    }

    // Takes the first word.
    fn take_word(&mut self) -> Option<&'a str>
        ensures word { YieldsFirstRef (λ parts. parts.words.now) self.old result self.new }
        ensures place { OnSome result (self.new.place ≡ self.old.place + 1) }
    {
        let (word, rest) = self.words.split_first()?;
        self.words = rest;
        self.place += 1;
        Some(word.as_str())
    }
}

impl<'a> Iterator for Parts<'a> {
    ghost use Rattle.std.specs.Iterator.{YieldsFirstBy, item_count};
    ghost use Rattle.command_words.specs.Parts.{pure_part};
    ghost use Rattle.command_words.specs.PartsLeft.{parts_left};

    type Item = WordPart<'a>;

    ghost next_gives = { YieldsFirstBy pure_part parts_left };

    ghost remaining = { item_count parts_left };

    #[tactic(auto, using(crate::proofs::FirstParts::first_argument))]
    fn next(&mut self) -> Option<WordPart<'a>> {
        let place = self.place;
        let word = self.take_word()?;
        if is_flag(word) {
            let value = self.take_word();
            Some(WordPart::Flag { word, value })
        } else {
            Some(WordPart::Argument { place, word })
        }
    }
}

// Whether the word is a flag.
fn is_flag(word: &str) -> bool
    ensures { result ≡ is_flag word.now }
{
    word.as_bytes().starts_with(b"--")
}
