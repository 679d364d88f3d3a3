ghost use Rattle.std.specs.Prelude.{◌≡◌, ◌==◌, ◌||◌, true, ◌&&◌, ◌-◌, ◌<◌, ◌≤◌, [], IfOk, is_ok, length, min, not, vec_len, if◌then◌else◌};
ghost use Rattle.meta_base.specs.Count.{raised};
ghost use Rattle.meta_base.specs.Sink.{HasFlushed, HasWritten};

use crate::calls::Calls;
use crate::{Failed, List, NoMemory, Sink};
use std::alloc::Global;

/// A sink in memory with so much room, which takes a bite at a time, tells all, and some of whose
/// calls fail: for tests, and for programs that want the text in memory.
#[derive(Debug, Drop)]
pub struct MemSink {
    buffer: Vec<u8>,
    // How many bytes of the buffer were taken.
    len: usize,
    bite: usize,
    calls: Calls,
    ghost within: { len ≤ vec_len buffer },
    ghost bites: { 0 < bite },
}

impl MemSink {
    ghost use Rattle.meta_base.specs.MemSinks.{room_of, bite_of, failing_of, writes_of, taken_by, held_by};

    /// A sink that has taken nothing. Its buffer of `room` bytes is made at once; a write takes at
    /// most `bite` bytes, which is at least 1. Writes of pieces that aren't empty are numbered from
    /// 0; one whose number is in `failing`, or that finds no room left, fails and raises the count of
    /// faults.
    pub fn new(
        alloc: Global,
        room: usize,
        bite: usize,
        failing: List<u64>,
    ) -> Result<MemSink, NoMemory>
        requires { 0 < bite }
        ensures room { IfOk result (λ sink. room_of sink ≡ room) }
        ensures bite { IfOk result (λ sink. bite_of sink ≡ bite) }
        ensures failing { IfOk result (λ sink. failing_of sink ≡ failing) }
        ensures writes { IfOk result (λ sink. writes_of sink ≡ 0) }
        ensures taken { IfOk result (λ sink. taken_by sink ≡ []) }
        ensures faults { IfOk result (λ sink. (held_by sink).faults ≡ 0) }
    {
        Ok(MemSink {
            buffer: vec![in alloc; 0; room]?,
            len: 0,
            bite,
            calls: Calls::new(failing),
        })
    }

    /// Lends the bytes that it took.
    pub fn taken(&self) -> &[u8]
        ensures { result.now ≡ taken_by self.now }
    {
        &self.buffer[..self.len]
    }

    /// How many writes failed.
    pub fn faults(&self) -> u64
        ensures { result ≡ (held_by self.now).faults }
    {
        self.calls.faults()
    }
}

impl Sink for MemSink {
    ghost use Rattle.meta_base.specs.MemSinks.{room_of, bite_of, failing_of, writes_of, taken_by, held_by, refuses_now, faults_next, writes_next, amount_next};

    ghost holds = { held_by };

    fn write(&mut self, piece: &[u8]) -> Result<usize, Failed>
        ensures written { HasWritten (held_by self.old) piece.now result (held_by self.new) }
        ensures answer { is_ok result ≡ (length piece.now == 0 || not (refuses_now self.old)) }
        ensures amount { IfOk result (λ n. n ≡ amount_next (length piece.now) self.old) }
        ensures faults { (held_by self.new).faults ≡ faults_next (length piece.now) self.old }
        ensures writes { writes_of self.new ≡ writes_next (length piece.now) self.old }
        ensures failing { failing_of self.new ≡ failing_of self.old }
        ensures room { room_of self.new ≡ room_of self.old }
        ensures bite { bite_of self.new ≡ bite_of self.old }
    {
        if piece.is_empty() {
            return Ok(0);
        }
        let fails = self.calls.count();
        let n = piece.len().min(self.bite).min(self.buffer.len() - self.len);
        if fails || n == 0 {
            return Err(self.calls.fault());
        }
        self.buffer[self.len..self.len + n].copy_from_slice(&piece[..n]);
        self.len += n;
        Ok(n)
    }

    // What it took stays in its buffer.
    fn flush(&mut self) -> Result<(), Failed>
        ensures flushed { HasFlushed (held_by self.old) result (held_by self.new) }
        ensures answer { is_ok result ≡ true }
        ensures same { self.new ≡ self.old }
    {
        Ok(())
    }
}
