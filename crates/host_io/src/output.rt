ghost use Rattle.std.specs.Prelude.{◌≡◌, ◌==◌, ◌<◌, ◌≤◌, IfOk, OnOk, length, vec_len};
ghost use Rattle.meta_base.specs.Count.{HasRisen};
ghost use Rattle.meta_base.specs.Sink.{HasFlushed, HasWritten};
ghost use Rattle.host_io.specs.Outside.{silent_sink};
ghost use Rattle.host_io.specs.declared.output.TheConstants.{ROOM};

use meta_base::{Failed, NoMemory, Sink};
use std::alloc::Global;

// How many bytes are gathered before the system is called: some thousand lines for one call.
const ROOM: usize = 65_536;

/// Standard output. It gathers what it takes, and hands it to the system 64 KiB at a time and when it is flushed. It
/// reports nothing of what it took but whether any of it waits, and counts each error of the system as a fault, also that nothing was taken of a
/// piece that isn't empty.
#[derive(Drop)]
pub struct OutSink<'a, R: Print> {
    rt: &'a R,
    gathered: Vec<u8>,
    // How many of the gathered bytes the system has.
    handed: usize,
    faults: u64,
    ghost fits: { vec_len gathered ≤ ROOM },
    ghost within: { handed ≤ vec_len gathered },
}

impl<'a, R: Print> OutSink<'a, R> {
    /// Nothing is gathered, and nothing has failed. Its room of 64 KiB is found at once; it is refused for want of
    /// memory alone.
    pub fn new(alloc: Global, rt: &'a R) -> Result<Self, NoMemory>
        ensures { IfOk result (λ sink. sink.faults ≡ 0) }
    {
        Ok(OutSink {
            rt,
            gathered: Vec::with_capacity(alloc, ROOM)?,
            handed: 0,
            faults: 0,
        })
    }

    // Counts a fault.
    fn fault(&mut self) -> Failed
        ensures risen { HasRisen self.old.faults self.new.faults }
        ensures no_fall { self.old.faults ≤ self.new.faults }
        ensures gathered { self.new.gathered ≡ self.old.gathered }
    {
        self.faults = self.faults.saturating_add(1);
        Failed
    }

    // Hands the system all that was gathered. Where that fails, what the system has not taken stays gathered.
    fn hand_on(&mut self) -> Result<(), Failed>
        ensures handed { HasFlushed (silent_sink self.old.faults (vec_len self.old.gathered == 0)) result
            (silent_sink self.new.faults (vec_len self.new.gathered == 0)) }
        ensures emptied { OnOk result (vec_len self.new.gathered ≡ 0) }
    {
        while self.handed < self.gathered.len() {
            match self.rt.write_some(&self.gathered[self.handed..]) {
                Ok(n) if n > 0 => self.handed += n,
                _ => return Err(self.fault()),
            }
        }
        self.gathered.clear();
        self.handed = 0;
        Ok(())
    }

    // Gathers as many bytes from the front of a piece as there is room for. Want of memory, which this room never
    // shows, would be a fault.
    fn gather(&mut self, piece: &[u8]) -> Result<usize, Failed>
        requires some { 0 < length piece.now }
        requires room { vec_len self.old.gathered < ROOM }
        ensures { HasWritten (silent_sink self.old.faults (vec_len self.old.gathered == 0)) piece.now result
            (silent_sink self.new.faults (vec_len self.new.gathered == 0)) }
    {
        let n = piece.len().min(ROOM - self.gathered.len());
        match self.gathered.extend_from_slice(&piece[..n]) {
            Ok(()) => Ok(n),
            Err(_) => Err(self.fault()),
        }
    }
}

impl<'a, R: Print> Sink for OutSink<'a, R> {
    ghost holds = { λ s. silent_sink s.faults (vec_len s.gathered == 0) };

    fn write(&mut self, piece: &[u8]) -> Result<usize, Failed> {
        if piece.is_empty() {
            return Ok(0);
        }
        if self.gathered.len() == ROOM {
            self.hand_on()?;
        }
        self.gather(piece)
    }

    fn flush(&mut self) -> Result<(), Failed> {
        self.hand_on()
    }
}
