ghost use Rattle.meta_base.specs.Shelf.{Moment, Keeps, Begins, HasRead};

use crate::Failed;

/// Where files are read from: one at a time, each from its front.
///
/// A shelf shows at every moment whether it tells its contents, the bytes of its named files and what
/// is left of the file that was begun, how many bytes were taken since the last `begin`, whether the
/// end was found since then, how many files were begun or tried, and a count of faults; both counts
/// never fall and stop at the greatest `u64`. A call that doesn't fail leaves the count of faults.
pub trait Shelf {
    /// What the shelf shows.
    ghost now_is: { Self → Moment };

    /// Begins the file of that name, in place of the one begun before.
    ///
    /// It fails only where the count of faults rose, or where the shelf tells that it has no file of
    /// that name; then no file is begun. Whatever it answers, the number of bytes taken is 0, the end
    /// isn't found, and the count of files rises by one.
    fn begin(&mut self, name: &str) -> Result<(), Failed>
        ensures { Begins (now_is self.old) name.now (now_is self.new) result };

    /// Moves the first bytes of what is left into the buffer, and answers how many.
    ///
    /// 0 on a buffer that isn't empty means that nothing is left, as where no file is begun. It fails
    /// only where the count of faults rose, and has then taken nothing.
    fn read(&mut self, buf: &mut [u8]) -> Result<usize, Failed>
        ensures keeps { Keeps (now_is self.old) (now_is self.new) }
        ensures read { HasRead (now_is self.old) buf.old result (now_is self.new) buf.new };
}
