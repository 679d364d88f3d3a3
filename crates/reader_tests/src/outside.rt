// Tests of `meta_base`: lists, texts, and files that are taken and pieces that are put whole.
ghost use Rattle.std.specs.Prelude.{◌<◌, ◌≤◌};
ghost use Rattle.meta_base.specs.declared.limits.TheConstants.{MAX_FILE_BYTES};

use meta_base::{
    Failed, List, MAX_FILE_BYTES, MemFile, MemShelf, MemSink, NoMemory, Shelf, TakeError, Text,
    put_all, take_all,
};
use std::alloc::Global;
use std::test::Fail;

// A list of these items.
fn list_of<T: Copy>(alloc: Global, items: &[T]) -> Result<List<T>, NoMemory> {
    Ok(List::from_vec(Vec::from_slice(alloc, items)?))
}

// A shelf of one file, which is called `f`.
fn shelf_of(alloc: Global, bytes: &[u8], failing: &[u64]) -> Result<MemShelf, NoMemory> {
    let mut files = List::new(alloc);
    files.push(MemFile {
        name: Text::copy(alloc, "f")?,
        bytes: list_of(alloc, bytes)?,
    })?;
    Ok(MemShelf::new(files, list_of(alloc, failing)?))
}

// All of the file, by the trait's bound alone.
fn taken_from(
    alloc: Global,
    shelf: &mut impl Shelf,
    name: &str,
    limit: usize,
) -> Result<List<u8>, TakeError>
    requires { limit ≤ MAX_FILE_BYTES }
{
    take_all(alloc, shelf, name, limit)
}

#[test]
fn lists_and_texts(rt: HostRuntime) -> Result<(), Fail> {
    let mut list = List::new(rt.alloc());
    list.push(7)?;
    assert_eq!(rt; list.as_slice(), [7].as_slice());
    assert_eq!(rt; Text::copy(rt.alloc(), "ab")?.as_str(), "ab");
    Ok(())
}

// Whether taking all of the file of that name is answered so.
fn is_taken(
    alloc: Global,
    shelf: &mut MemShelf,
    name: &str,
    limit: usize,
    expected: Result<&[u8], TakeError>,
) -> bool
    requires { limit ≤ MAX_FILE_BYTES }
{
    match (&taken_from(alloc, shelf, name, limit), expected) {
        (Ok(bytes), Ok(expected)) => bytes.as_slice() == expected,
        (Err(error), Err(expected)) => *error == expected,
        _ => false,
    }
}

#[test]
fn whole_files(rt: HostRuntime) -> Result<(), Fail> {
    let mut shelf = shelf_of(rt.alloc(), b"abc", &[])?;
    let is_whole = is_taken(rt.alloc(), &mut shelf, "f", 3, Ok(b"abc"));
    let is_too_long = is_taken(rt.alloc(), &mut shelf, "f", 2, Err(TakeError::TooLong));
    let is_missing = is_taken(rt.alloc(), &mut shelf, "g", 2, Err(TakeError::Fault));
    drop(shelf);
    assert!(rt; is_whole && is_too_long && is_missing);
    Ok(())
}

// Call 1 of a shelf is its first read.
#[test]
fn reads_fail(rt: HostRuntime) -> Result<(), Fail> {
    let mut shelf = shelf_of(rt.alloc(), b"abc", &[1])?;
    let fails = is_taken(rt.alloc(), &mut shelf, "f", 3, Err(TakeError::Fault));
    let faults = shelf.faults();
    drop(shelf);
    assert!(rt; fails && faults == 1);
    Ok(())
}

// Call 0 begins the file, and the longest one is read and found to end by the 1,025 calls after it, as
// long as each takes 4,096 bytes at least.
#[test]
fn reads_are_large(rt: HostRuntime) -> Result<(), Fail> {
    let file = vec![in rt.alloc(); b'a'; MAX_FILE_BYTES]?;
    let mut shelf = shelf_of(rt.alloc(), &file, &[1026])?;
    let is_whole = is_taken(rt.alloc(), &mut shelf, "f", MAX_FILE_BYTES, Ok(&file));
    drop(shelf);
    drop(file);
    assert!(rt; is_whole);
    Ok(())
}

// Whether putting five bytes into a sink with so much room, which takes a bite at a time, is answered so,
// takes these bytes, and counts so many faults.
fn is_put(
    alloc: Global,
    room: usize,
    bite: usize,
    expected: (Result<(), Failed>, &[u8], u64),
) -> Result<bool, NoMemory>
    requires { 0 < bite }
{
    let mut out = MemSink::new(alloc, room, bite, List::new(alloc))?;
    let answer = put_all(&mut out, b"abcde");
    let is_answer = answer == expected.0 && out.taken() == expected.1 && out.faults() == expected.2;
    drop(out);
    Ok(is_answer)
}

#[test]
fn whole_pieces(rt: HostRuntime) -> Result<(), Fail> {
    assert!(rt; is_put(rt.alloc(), 3, 9, (Err(Failed), b"abc", 1))?);
    assert!(rt; is_put(rt.alloc(), 9, 2, (Ok(()), b"abcde", 0))?);
    Ok(())
}
