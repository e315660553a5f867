//! The adapters over std's readers and writers, with a reader and a writer whose calls fail.

use outside::{Sink, Source, StdSink, StdSource, read_all};
use std::io;
use std::io::{ErrorKind, Read, Write};
use std::test::Fail;

/// Reads one byte a call, and writes at most four bytes a call. The two calls with the numbers `at`, counted from 1, are interrupted. From
/// the fifth call on there is nothing to read.
#[derive(Drop)]
struct Interrupted {
    calls: u64,
    at: [u64; 2],
}

impl Interrupted {
    fn call(&mut self) -> io::Result<u64> {
        self.calls = self.calls.saturating_add(1);
        if self.calls == self.at[0] || self.calls == self.at[1] {
            return Err(io::Error::from(ErrorKind::Interrupted));
        }
        Ok(self.calls)
    }
}

impl Read for Interrupted {
    fn read(&mut self, room: &mut [u8]) -> io::Result<usize> {
        if self.call()? > 4 || room.is_empty() {
            return Ok(0);
        }
        room[0] = b'x';
        Ok(1)
    }
}

impl Write for Interrupted {
    fn write(&mut self, piece: &[u8]) -> io::Result<usize> {
        self.call()?;
        Ok(piece.len().min(4))
    }

    fn flush(&mut self) -> io::Result<()> {
        Ok(())
    }
}

/// Tests that a failed read is a fault and is not made again, and that a reader whose reads don't fail is read to its end.
#[test]
fn readers_of_std_are_sources(rt: HostRuntime) -> Result<(), Fail> {
    let mut source = StdSource::new(Interrupted {
        calls: 0,
        at: [1, 3],
    });
    for wanted in [None, Some(1), None, Some(1), Some(0)] {
        assert_eq!(rt; source.read(&mut [0; 4]).ok(), wanted);
    }
    assert_eq!(rt; source.faults(), 2);
    let mut source = StdSource::new(b"pool 3".as_slice());
    let read = read_all(rt.alloc(), &mut source, 6)?;
    assert_eq!(rt; read.as_slice(), b"pool 3".as_slice());
    assert_eq!(rt; source.faults(), 0);
    Ok(())
}

/// Tests that a failed write is a fault and is not made again, that the bytes before the fault are written, and that an empty piece makes
/// no call.
#[test]
fn writers_of_std_are_sinks(rt: HostRuntime) {
    let mut sink = StdSink::new(Interrupted {
        calls: 0,
        at: [1, 4],
    });
    for (piece, is_taken) in [
        (b"abc".as_slice(), false),
        (b"abcdef", true),
        (b"abcdef", false),
        (b"", true),
        (b"abcd", true),
    ] {
        assert_eq!(rt; sink.put(piece).is_ok(), is_taken);
    }
    assert_eq!(rt; sink.faults(), 2);
    let mut room = [0u8; 6];
    let mut sink = StdSink::new(room.as_mut_slice());
    assert!(rt; sink.put(b"abc").is_ok() && sink.put(b"defg").is_err());
    assert_eq!(rt; sink.faults(), 1);
    assert_eq!(rt; room, *b"abcdef");
}
