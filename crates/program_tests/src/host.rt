// Tests of `host_io`: that real files are taken and real pieces printed.
use host_io::{FileShelf, OutSink};
use meta_base::{Failed, Sink, TakeError, put_all, take_all};
use std::fmt::Display;
use std::io::ErrorKind;
use std::test::Fail;
use std::{fs, io};

#[test]
fn files_are_taken(rt: HostRuntime) -> Result<(), Fail> {
    fs::write(&rt, "some.raml", "main add(1..10);")?;
    let mut shelf = FileShelf::new(&rt);
    let bytes = take_all(rt.alloc(), &mut shelf, "some.raml", 16)?;
    assert_eq!(rt; bytes.as_slice(), b"main add(1..10);".as_slice());
    let absent = take_all(rt.alloc(), &mut shelf, "other.raml", 16);
    assert_eq!(rt; absent.err(), Some(TakeError::Fault));
    Ok(())
}

// An output that takes this line, and fails on all else.
pub(crate) struct OneLine;

const LINE: &[u8] = b"a line\n";

impl Print for OneLine {
    fn print<D: Display + Drop>(&self, _value: D) -> io::Result<()> {
        Err(ErrorKind::BrokenPipe.into())
    }

    fn println<D: Display + Drop>(&self, _value: D) -> io::Result<()> {
        Err(ErrorKind::BrokenPipe.into())
    }

    fn write_all(&self, bytes: &[u8]) -> io::Result<()> {
        if bytes == LINE {
            return Ok(());
        }
        Err(ErrorKind::BrokenPipe.into())
    }
}

#[test]
fn pieces_reach_the_output(rt: HostRuntime) -> Result<(), Fail> {
    let mut out = OutSink::new(rt.alloc(), &OneLine)?;
    assert_eq!(rt; out.write(b"a li"), Ok(4));
    assert_eq!(rt; out.write(b"ne\n"), Ok(3));
    assert_eq!(rt; out.flush(), Ok(()));
    assert_eq!(rt; out.flush(), Ok(()));
    assert_eq!(rt; out.write(b"a "), Ok(2));
    assert_eq!(rt; out.flush(), Err(Failed));
    Ok(())
}

// A piece that is longer than what the sink gathers is taken in two, and the second call hands on the first part.
#[test]
fn long_pieces_are_handed_on(rt: HostRuntime) -> Result<(), Fail> {
    let mut out = OutSink::new(rt.alloc(), &OneLine)?;
    let piece = vec![in rt.alloc(); b'-'; 65_537]?;
    assert_eq!(rt; out.write(&piece), Ok(65_536));
    assert_eq!(rt; out.write(&piece[65_536..]), Err(Failed));
    Ok(())
}

#[test]
fn pieces_are_printed(rt: HostRuntime) -> Result<(), Fail> {
    let mut out = OutSink::new(rt.alloc(), &rt)?;
    assert_eq!(rt; put_all(&mut out, b"a line\n"), Ok(()));
    assert_eq!(rt; out.write(b""), Ok(0));
    assert_eq!(rt; out.flush(), Ok(()));
    Ok(())
}
