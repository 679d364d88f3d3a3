ghost use Rattle.std.specs.Prelude.{◌≡◌, ◌&&◌, ◌-◌, ◌<◌, ◌^◌, false, List, [], ◌∷◌, ℕ, length, min, IfOk, is_ok, is_some, not, option_map, if◌then◌else◌};
ghost use Rattle.std.specs.Option.{option_map_or};
ghost use Rattle.meta_base.specs.Count.{raised};
ghost use Rattle.meta_base.specs.Shelf.{Begins, Keeps, HasRead};
ghost use Rattle.meta_base.specs.MemFiles.{bytes_at, bytes_named};

use crate::calls::Calls;
use crate::{Failed, List, Shelf, Text};

/// A file in memory.
#[derive(Debug, Drop)]
pub struct MemFile {
    pub name: Text,
    pub bytes: List<u8>,
}

/// A shelf in memory that tells all, and some of whose calls fail: for tests, and for programs that
/// have their files in memory. No call takes memory.
#[derive(Debug, Drop)]
pub struct MemShelf {
    files: List<MemFile>,
    calls: Calls,
    // The place of the file that was begun.
    begun: Option<usize>,
    // How many bytes of that file were moved.
    at: usize,
    taken: u64,
    ended: bool,
    // How many files were begun, or tried.
    tries: u64,
    // How many bytes a read gives at most.
    bite: usize,
    ghost bites: { 0 < bite },
}

impl MemShelf {
    ghost use Rattle.meta_base.specs.MemShelves.{files_of, failing_of, calls_of, bite_of, fails_now, faults_next, moment_of};

    /// A shelf of these files, of which the first of a name counts. Calls of `begin` and `read` are
    /// numbered together from 0; those whose numbers are in `failing` fail and raise the count of
    /// faults. No file is begun.
    pub fn new(files: List<MemFile>, failing: List<u64>) -> MemShelf
        ensures files { files_of result ≡ files }
        ensures bite { bite_of result ≡ 2 ^ 64 - 1 }
        ensures failing { failing_of result ≡ failing }
        ensures calls { calls_of result ≡ 0 }
        ensures rest { (moment_of result).rest ≡ [] }
        ensures taken { (moment_of result).taken ≡ 0 }
        ensures ended { (moment_of result).ended ≡ false }
        ensures faults { (moment_of result).faults ≡ 0 }
        ensures begun { (moment_of result).begun ≡ 0 }
    {
        MemShelf::in_bites(files, usize::MAX, failing)
    }

    /// Such a shelf of which a read gives at most `bite` bytes, which is at least 1: for tests of what is read in
    /// many pieces.
    pub fn in_bites(files: List<MemFile>, bite: usize, failing: List<u64>) -> MemShelf
        requires { 0 < bite }
        ensures files { files_of result ≡ files }
        ensures bite { bite_of result ≡ bite }
        ensures failing { failing_of result ≡ failing }
        ensures calls { calls_of result ≡ 0 }
        ensures rest { (moment_of result).rest ≡ [] }
        ensures taken { (moment_of result).taken ≡ 0 }
        ensures ended { (moment_of result).ended ≡ false }
        ensures faults { (moment_of result).faults ≡ 0 }
        ensures begun { (moment_of result).begun ≡ 0 }
    {
        MemShelf {
            files,
            calls: Calls::new(failing),
            begun: None,
            at: 0,
            taken: 0,
            ended: false,
            tries: 0,
            bite,
        }
    }

    /// How many calls failed.
    pub fn faults(&self) -> u64
        ensures { result ≡ (moment_of self.now).faults }
    {
        self.calls.faults()
    }
}

// The place of the first file of that name.
fn place_of(files: &[MemFile], name: &str) -> Option<usize>
    ensures { option_map (bytes_at files.now) result ≡ bytes_named name.now files.now }
{
    for (place, file) in files.iter().enumerate() {
        if file.name.as_str() == name {
            return Some(place);
        }
    }
    None
}

// The bytes of the file that was begun, if one was.
fn bytes_begun(files: &[MemFile], begun: Option<usize>) -> &[u8]
    ensures { result.now ≡ option_map_or (bytes_at files.now) begun [] }
{
    match begun.and_then(|place| files.get(place)) {
        Some(file) => file.bytes.as_slice(),
        None => &[],
    }
}

impl Shelf for MemShelf {
    ghost use Rattle.meta_base.specs.MemShelves.{files_of, failing_of, calls_of, bite_of, fails_now, faults_next, moment_of};

    ghost now_is = { moment_of };

    fn begin(&mut self, name: &str) -> Result<(), Failed>
        ensures begins { Begins (moment_of self.old) name.now (moment_of self.new) result }
        ensures answer { is_ok result ≡
            (not (fails_now self.old) && is_some (bytes_named name.now (files_of self.old))) }
        ensures faults { (moment_of self.new).faults ≡ faults_next self.old }
        ensures calls { calls_of self.new ≡ raised (calls_of self.old) 1 }
        ensures failing { failing_of self.new ≡ failing_of self.old }
        ensures files { files_of self.new ≡ files_of self.old }
        ensures bite { bite_of self.new ≡ bite_of self.old }
    {
        self.taken = 0;
        self.ended = false;
        self.at = 0;
        self.begun = None;
        self.tries = self.tries.saturating_add(1);
        if self.calls.count() {
            return Err(self.calls.fault());
        }
        self.begun = place_of(self.files.as_slice(), name);
        match self.begun {
            Some(_) => Ok(()),
            None => Err(Failed),
        }
    }

    fn read(&mut self, buf: &mut [u8]) -> Result<usize, Failed>
        ensures keeps { Keeps (moment_of self.old) (moment_of self.new) }
        ensures read { HasRead (moment_of self.old) buf.old result (moment_of self.new) buf.new }
        ensures answer { is_ok result ≡ not (fails_now self.old) }
        ensures amount { IfOk result (λ n.
            n ≡ min (min (length (moment_of self.old).rest) (length buf.old)) (bite_of self.old)) }
        ensures faults { (moment_of self.new).faults ≡ faults_next self.old }
        ensures calls { calls_of self.new ≡ raised (calls_of self.old) 1 }
        ensures failing { failing_of self.new ≡ failing_of self.old }
        ensures files { files_of self.new ≡ files_of self.old }
        ensures bite { bite_of self.new ≡ bite_of self.old }
    {
        if self.calls.count() {
            return Err(self.calls.fault());
        }
        let bytes = bytes_begun(self.files.as_slice(), self.begun);
        let left = &bytes[self.at.min(bytes.len())..];
        let n = left.len().min(buf.len()).min(self.bite);
        buf[..n].copy_from_slice(&left[..n]);
        self.at = self.at.saturating_add(n);
        self.taken = self.taken.saturating_add(n as u64);
        if n == 0 && !buf.is_empty() {
            self.ended = true;
        }
        Ok(n)
    }
}
