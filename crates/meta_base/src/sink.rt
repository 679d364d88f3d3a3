ghost use Rattle.meta_base.specs.Sink.{Held, HasFlushed, HasWritten};

use crate::Failed;

/// Where bytes go.
///
/// A sink shows at every moment whether it reports what it took, the bytes that it took, a count of
/// faults that never falls and stops at the greatest `u64`, and whether nothing of what it took waits to be
/// handed on.
pub trait Sink {
    /// What the sink shows.
    ghost holds: { Self → Held };

    /// Takes bytes from the front of the piece, at least one where it isn't empty, and answers how
    /// many.
    ///
    /// It fails only on a piece that isn't empty, where the count of faults rises; it has then taken
    /// nothing. A call that doesn't fail leaves the count, and one with an empty piece changes nothing.
    fn write(&mut self, piece: &[u8]) -> Result<usize, Failed>
        ensures { HasWritten (holds self.old) piece.now result (holds self.new) };

    /// Hands on what it took and still keeps, where it gathers pieces. Whoever wrote the last piece calls it.
    ///
    /// It fails only where the count of faults rises. What is shown of the bytes stays as it is. A call that
    /// doesn't fail leaves the count too, and nothing waits after it.
    fn flush(&mut self) -> Result<(), Failed>
        ensures { HasFlushed (holds self.old) result (holds self.new) };
}
