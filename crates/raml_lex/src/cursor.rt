// Where a reader of tokens stands.
ghost use Rattle.std.specs.Prelude.{◌≡◌, ◌+◌, ◌≤◌};
ghost use Rattle.raml_lex.specs.Places.{FitsPlace};
ghost use Rattle.raml_lex.specs.Sources.{place_at};

use meta_base::Place;

/// How many bytes of the source were taken, the line there, and how many bytes stand before that line. The
/// column follows from these, so no byte of a gap is counted.
#[derive(Clone, Copy, Debug)]
pub struct Cursor {
    pub at: usize,
    pub line: u32,
    pub line_start: usize,
}

impl Cursor {
    /// The front of a source.
    pub fn new() -> Cursor
        ensures { result ≡ record { at = 0; line = 1; line_start = 0 } }
    {
        Cursor {
            at: 0,
            line: 1,
            line_start: 0,
        }
    }

    /// The place there.
    pub fn place(self) -> Place
        requires start { self.line_start ≤ self.at }
        requires end { FitsPlace (self.at + 1) }
        ensures { result ≡ place_at self }
    {
        Place {
            line: self.line,
            column: (self.at - self.line_start) as u32 + 1,
        }
    }

    /// So many bytes on, none of which is a line feed.
    pub fn after(self, count: usize) -> Cursor
        requires { FitsPlace (self.at + count) }
        ensures { result ≡ record self { at = self.at + count } }
    {
        Cursor {
            at: self.at + count,
            line: self.line,
            line_start: self.line_start,
        }
    }

    /// After a line feed.
    pub fn on_next_line(self) -> Cursor
        requires byte { FitsPlace (self.at + 1) }
        requires line { FitsPlace (self.line + 1) }
        ensures { result ≡ record { at = self.at + 1; line = self.line + 1; line_start = self.at + 1 } }
    {
        Cursor {
            at: self.at + 1,
            line: self.line + 1,
            line_start: self.at + 1,
        }
    }
}
