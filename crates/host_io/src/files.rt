ghost use Rattle.std.specs.Prelude.{◌≡◌, false};

use meta_base::{Failed, Shelf};
use std::fs;
use std::io::Read;
use std::rt::Files;

/// The files of the system, by their paths. It tells nothing of their bytes, and counts each error as
/// a fault, also that a file isn't there.
#[derive(Drop)]
pub struct FileShelf<'a, R: Files> {
    rt: &'a R,
    file: Option<R::File>,
    taken: u64,
    ended: bool,
    begun: u64,
    faults: u64,
}

impl<'a, R: Files> FileShelf<'a, R> {
    /// No file is begun, and nothing has failed.
    pub fn new(rt: &'a R) -> Self
        ensures taken { result.taken ≡ 0 }
        ensures ended { result.ended ≡ false }
        ensures begun { result.begun ≡ 0 }
        ensures faults { result.faults ≡ 0 }
    {
        FileShelf {
            rt,
            file: None,
            taken: 0,
            ended: false,
            begun: 0,
            faults: 0,
        }
    }
}

impl<'a, R: Files> Shelf for FileShelf<'a, R> {
    ghost use Rattle.host_io.specs.Outside.{silent_shelf};

    ghost now_is = { λ s. silent_shelf s.taken s.ended s.begun s.faults };

    fn begin(&mut self, name: &str) -> Result<(), Failed> {
        self.taken = 0;
        self.ended = false;
        self.begun = self.begun.saturating_add(1);
        self.file = fs::open(self.rt, name).ok();
        if self.file.is_some() {
            return Ok(());
        }
        self.faults = self.faults.saturating_add(1);
        Err(Failed)
    }

    fn read(&mut self, buf: &mut [u8]) -> Result<usize, Failed> {
        let n = match &mut self.file {
            Some(file) => match file.read(buf) {
                Ok(n) => n,
                Err(_) => {
                    self.faults = self.faults.saturating_add(1);
                    return Err(Failed);
                }
            },
            None => 0,
        };
        self.taken = self.taken.saturating_add(n as u64);
        if n == 0 && !buf.is_empty() {
            self.ended = true;
        }
        Ok(n)
    }
}
