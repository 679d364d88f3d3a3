ghost use Rattle.std.specs.Prelude.{◌≡◌, ◌⊎◌, ◌+◌, ◌<◌, ◌≤◌, ℕ, List, Some, None, true, false, length, IfOk, OnOk, IsTrue, IsErrOf};
ghost use Rattle.meta_base.specs.Count.{HasRisen, raised};
ghost use Rattle.meta_base.specs.Offers.{IsOffer, greatest_offer};
ghost use Rattle.meta_base.specs.Shelf.{Keeps, IsAbsent, HasRead};
ghost use Rattle.meta_base.specs.Sink.{Puts};

use crate::{Failed, List, MAX_FILE_BYTES, Shelf, Sink, TakeError};
use std::alloc::Global;

// How many bytes are asked for at a time: most files are small, and a larger buffer is filled with zeros for each.
const CHUNK: usize = 4096;

// Moves the next bytes into the buffer, which has room for 4,096 bytes at least.
fn read_on<S: Shelf>(shelf: &mut S, buf: &mut [u8]) -> Result<usize, Failed>
    requires offer { IsOffer (length buf.old) }
    ensures keeps { Keeps (S.now_is shelf.old) (S.now_is shelf.new) }
    ensures read { HasRead (S.now_is shelf.old) buf.old result (S.now_is shelf.new) buf.new }
{
    shelf.read(buf)
}

/// Takes all bytes of the file `name`, which may have at most `limit` of them.
///
/// It begins one file, and each read is offered a buffer of 4,096 bytes. [`TakeError::Fault`] comes only
/// where the shelf's count of faults rose or where the shelf tells that it has no such file, and before the
/// file's end was found; after any other answer the count is as it was. [`TakeError::TooLong`] comes exactly
/// where more than `limit` bytes were taken, and then at most one buffer more. The file stays begun.
pub fn take_all<S: Shelf>(
    alloc: Global,
    shelf: &mut S,
    name: &str,
    limit: usize,
) -> Result<List<u8>, TakeError>
    requires { limit ≤ MAX_FILE_BYTES }
    ensures keeps { Keeps (S.now_is shelf.old) (S.now_is shelf.new) }

    // It begins one file, and no call failed unless that is answered.
    ensures begins { (S.now_is shelf.new).begun ≡ raised (S.now_is shelf.old).begun 1 }
    ensures no_fault { IfOk result (λ _. (S.now_is shelf.new).faults ≡ (S.now_is shelf.old).faults) }
    ensures no_fault_long { IsErrOf result TakeError.TooLong →
        (S.now_is shelf.new).faults ≡ (S.now_is shelf.old).faults }
    ensures no_fault_memory { IsErrOf result TakeError.NoMemory →
        (S.now_is shelf.new).faults ≡ (S.now_is shelf.old).faults }

    // Each refusal has its cause.
    ensures fault { IsErrOf result TakeError.Fault →
        HasRisen (S.now_is shelf.old).faults (S.now_is shelf.new).faults ⊎ IsAbsent (S.now_is shelf.old) name.now }
    ensures fault_open { IsErrOf result TakeError.Fault → (S.now_is shelf.new).ended ≡ false }
    ensures no_more { (S.now_is shelf.new).taken ≤ limit + greatest_offer }
    ensures too_long { IsErrOf result TakeError.TooLong → limit < (S.now_is shelf.new).taken }
    ensures only_too_long { limit < (S.now_is shelf.new).taken → IsErrOf result TakeError.TooLong }
    ensures too_long_reported { IsErrOf result TakeError.TooLong → IsTrue (S.now_is shelf.old).reports →
        ((bytes : List ℕ) × ((S.now_is shelf.old).file name.now ≡ Some bytes) × (limit < length bytes)) }

    // What is taken is the file, to its end.
    ensures count { IfOk result (λ bytes. length bytes ≡ (S.now_is shelf.new).taken) }
    ensures end { OnOk result ((S.now_is shelf.new).ended ≡ true) }
    ensures whole { IfOk result (λ bytes.
        IsTrue (S.now_is shelf.old).reports → (S.now_is shelf.old).file name.now ≡ Some bytes) }
{
    let mut bytes = Vec::new(alloc);
    let mut chunk = [0u8; CHUNK];
    match shelf.begin(name) {
        Ok(()) => {}
        Err(Failed) => return Err(TakeError::Fault),
    }
    loop {
        match read_on(shelf, &mut chunk) {
            Ok(0) => return Ok(List::from_vec(bytes)),
            Ok(n) if n > limit - bytes.len() => return Err(TakeError::TooLong),
            Ok(n) => bytes.extend_from_slice(&chunk[..n])?,
            Err(Failed) => return Err(TakeError::Fault),
        }
    }
}

/// Writes the whole piece, in as many writes as the sink needs: each offers all that is left.
///
/// It fails only where the sink's count of faults rose, and a front of the piece that isn't all of it was
/// then appended; where it doesn't fail the count is as it was.
#[inline(always)]
pub fn put_all<K: Sink>(out: &mut K, piece: &[u8]) -> Result<(), Failed>
    ensures { Puts (K.holds out.old) piece.now result (K.holds out.new) }
{
    let mut done = 0;
    while done < piece.len() {
        done += out.write(&piece[done..])?;
    }
    Ok(())
}
