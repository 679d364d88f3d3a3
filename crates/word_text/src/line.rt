// A line that is written as bytes, and names of nodes that stand in many lines.
ghost use Rattle.std.specs.Prelude.{◌≡◌, ◌≤◌, ◌++◌, [], true, length, decimal, IfOk, OnOk};
ghost use Rattle.word_text.specs.PathNames.{name_text};

use itoa::Buffer;
use label_code::Word;
use meta_base::NoMemory;
use std::alloc::Global;
use std::marker::Model;

// As many bytes as most lines have, so that the room seldom grows.
const USUAL_LINE: usize = 1024;

/// A line, which contracts see as its bytes, in room that stays when it is emptied.
#[derive(Debug, Drop)]
pub struct Line {
    room: Vec<u8>,
    len: usize,
}

impl Model for Line {
    ghost use Rattle.std.specs.Prelude.{◌≤◌, List, ℕ, take, vec_len};

    ghost Value = { List ℕ };

    ghost view = { λ line. take line.len line.room.items };

    ghost invariant = { λ line. line.len ≤ vec_len line.room };
}

impl Line {
    /// A line of no bytes. It is refused for want of memory alone, as all that appends to a line is.
    pub fn new(alloc: Global) -> Result<Line, NoMemory>
        ensures { IfOk result (λ line. line ≡ []) }
    {
        Ok(Line {
            room: vec![in alloc; 0; USUAL_LINE]?,
            len: 0,
        })
    }

    /// Lends its bytes.
    pub fn as_bytes(&self) -> &[u8]
        ensures { result.now ≡ self.now }
    {
        &self.room[..self.len]
    }

    /// Empties it. Its room stays.
    pub fn clear(&mut self)
        ensures { self.new ≡ [] }
    {
        self.len = 0;
    }

    /// Appends these bytes. After a refusal it isn't said what the line has.
    #[inline]
    pub fn push_bytes(&mut self, bytes: &[u8]) -> Result<(), NoMemory>
        ensures { OnOk result (self.new ≡ self.old ++ bytes.now) }
    {
        let start = self.len;
        if self.room.len() - start < bytes.len() {
            return self.push_beyond(bytes);
        }
        self.room[start..start + bytes.len()].copy_from_slice(bytes);
        self.len = start + bytes.len();
        Ok(())
    }

    /// Appends a number in base ten, with no leading zero.
    #[inline]
    #[tactic(auto, using(crate::proofs::Digits::one_digit, crate::proofs::Digits::two_digits))]
    pub fn push_number(&mut self, n: Word) -> Result<(), NoMemory>
        ensures { OnOk result (self.new ≡ self.old ++ decimal n) }
    {
        // Most numbers are one digit or two.
        if n < 10 {
            return self.push_bytes(&[b'0' + n as u8]);
        }
        if n < 100 {
            let n = n as u8;
            return self.push_bytes(&[b'0' + n / 10, b'0' + n % 10]);
        }
        self.push_long_number(n)
    }

    // Appends a number of more digits.
    #[inline(never)]
    fn push_long_number(&mut self, n: Word) -> Result<(), NoMemory>
        ensures { OnOk result (self.new ≡ self.old ++ decimal n) }
    {
        let mut digits = Buffer::new();
        self.push_bytes(digits.format(n).as_bytes())
    }

    // Appends bytes for which the room may be too small.
    #[inline(never)]
    fn push_beyond(&mut self, bytes: &[u8]) -> Result<(), NoMemory>
        ensures { OnOk result (self.new ≡ self.old ++ bytes.now) }
    {
        self.room.truncate(self.len);
        self.room.extend_from_slice(bytes)?;
        self.len = self.room.len();
        Ok(())
    }

    #[inline(always)]
    fn push_short(&mut self, name: &ShortName) -> Result<(), NoMemory>
        ensures { OnOk result (self.new ≡ self.old ++ name.now) }
    {
        let start = self.len;
        if self.room.len() - start < SHORT {
            return self.push_beyond(&name.bytes[..name.len]);
        }
        // A copy of a fixed length takes few instructions, and one from a place of its own needs no look at whether
        // the two overlap. What follows the name is written over.
        let bytes = name.bytes;
        self.room[start..start + SHORT].copy_from_slice(&bytes);
        self.len = start + name.len;
        Ok(())
    }

    // Appends a longer name. A call keeps it apart from what most names take.
    #[inline(never)]
    fn push_long(&mut self, name: &[u8]) -> Result<(), NoMemory>
        ensures { OnOk result (self.new ≡ self.old ++ name.now) }
    {
        self.push_bytes(name)
    }

    /// Appends a name that was prepared.
    #[inline(always)]
    pub fn push_name(&mut self, name: &PathName) -> Result<(), NoMemory>
        ensures { OnOk result (self.new ≡ self.old ++ name_text name.now) }
    {
        match name {
            PathName::Short(short) => self.push_short(short),
            PathName::Long(long) => self.push_long(long.as_slice()),
        }
    }
}

// The room of a name that is copied with a fixed length.
const SHORT: usize = 32;

/// A text in such room, which contracts see as its bytes.
#[derive(Debug, Drop)]
pub struct ShortName {
    bytes: [u8; SHORT],
    len: usize,
}

impl Model for ShortName {
    ghost use Rattle.std.specs.Prelude.{◌≤◌, List, ℕ, take};

    ghost Value = { List ℕ };

    ghost view = { λ name. take name.len name.bytes };

    ghost invariant = { λ name. name.len ≤ 32 };
}

impl ShortName {
    fn of(text: &[u8]) -> ShortName
        requires { length text.now ≤ SHORT }
        ensures { result ≡ text.now }
    {
        let mut bytes = [0; SHORT];
        bytes[..text.len()].copy_from_slice(text);
        ShortName {
            bytes,
            len: text.len(),
        }
    }
}

/// A text that is appended to many lines, as the name of a node after a space.
#[derive(Debug, Drop)]
pub enum PathName {
    Short(ShortName),
    Long(Vec<u8>),
}

impl PathName {
    /// That text. It is refused for want of memory alone.
    pub fn of(alloc: Global, text: &[u8]) -> Result<PathName, NoMemory>
        ensures { IfOk result (λ name. name_text name ≡ text.now) }
    {
        if text.len() <= SHORT {
            return Ok(PathName::Short(ShortName::of(text)));
        }
        let mut long = Vec::new(alloc);
        long.extend_from_slice(text)?;
        Ok(PathName::Long(long))
    }

    /// Whether it was found that the text is empty.
    #[inline(always)]
    pub fn is_empty(&self) -> bool
        ensures { result ≡ true → name_text self.now ≡ [] }
    {
        match self {
            PathName::Short(short) => short.len == 0,
            PathName::Long(_) => false,
        }
    }
}
