//! A source over std's reader and a sink over its writer, some of whose calls fail.

use nsi_outside::{SinkError, Source, StdSink, StdSource, write_all};
use std::io::{self, Read, Write};
use std::test::Fail;

/// Gives two bytes a call. The second call fails.
#[derive(Drop)]
struct FlakyReader {
    calls: u8,
    left: &'static [u8],
}

impl Read for FlakyReader {
    fn read(&mut self, buffer: &mut [u8]) -> io::Result<usize> {
        self.calls = self.calls.wrapping_add(1);
        if self.calls == 2 {
            return Err(io::Error::from(io::ErrorKind::BrokenPipe));
        }
        let n = self.left.len().min(buffer.len()).min(2);
        let (front, rest) = self.left.split_at(n);
        buffer[..n].copy_from_slice(front);
        self.left = rest;
        Ok(n)
    }
}

#[test]
fn source_over_a_reader(rt: HostRuntime) -> Result<(), Fail> {
    let reader = FlakyReader {
        calls: 0,
        left: b"abc",
    };
    let mut source = StdSource::new(reader);
    let mut buffer = [0u8; 8];
    let first = source.read(&mut buffer)?;
    assert_eq!(rt; (first, &buffer[..2]), (2, b"ab".as_slice()));
    assert!(rt; source.read(&mut buffer).is_err());
    let last = source.read(&mut buffer)?;
    assert_eq!(rt; (last, &buffer[..1]), (1, b"c".as_slice()));
    assert_eq!(rt; source.read(&mut buffer)?, 0);
    Ok(())
}

/// Takes two bytes a call. The third call fails, and the fourth takes nothing.
#[derive(Drop)]
struct FlakyWriter {
    calls: u8,
    taken: Vec<u8>,
}

impl Write for FlakyWriter {
    fn write(&mut self, piece: &[u8]) -> io::Result<usize> {
        self.calls = self.calls.wrapping_add(1);
        if self.calls == 3 {
            return Err(io::Error::from(io::ErrorKind::BrokenPipe));
        }
        if self.calls == 4 {
            return Ok(0);
        }
        let n = piece.len().min(2);
        self.taken.extend_from_slice(&piece[..n])?;
        Ok(n)
    }

    fn flush(&mut self) -> io::Result<()> {
        Ok(())
    }
}

#[test]
fn sink_over_a_writer(rt: HostRuntime) -> Result<(), Fail> {
    let mut writer = FlakyWriter {
        calls: 0,
        taken: Vec::new(rt.alloc()),
    };
    let mut sink = StdSink::new(&mut writer);
    write_all(&mut sink, b"abc")?;
    assert!(rt; write_all(&mut sink, b"de") == Err(SinkError::Failed));
    assert!(rt; write_all(&mut sink, b"fg") == Err(SinkError::Failed));
    write_all(&mut sink, b"hi")?;
    assert_eq!(rt; writer.taken.as_slice(), b"abchi".as_slice());
    Ok(())
}
