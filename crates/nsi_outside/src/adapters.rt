//! The trusted edge: std's reader and writer as a source and a sink. They tell nothing of their bytes, and count their
//! faults. Once a count stands at the end of its type an adapter goes on without an error, which no clause forbids.

ghost use Rattle.std.specs.Prelude.{◌≡◌, None};
ghost use Rattle.nsi_outside.specs.Adapters.{read_outcome, write_outcome};

use crate::sink::{Sink, SinkError};
use crate::source::{ReadFailed, Source};
use std::io::{self, Read, Write};
use std::marker::Model;

/// What a read came to: so many bytes, the end, or a fault.
#[derive(Clone, Copy, Debug, PartialEq, Eq)]
pub enum ReadOutcome {
    Bytes(usize),
    End,
    Failed,
}

/// What a write came to: so many bytes, or a fault.
#[derive(Clone, Copy, Debug, PartialEq, Eq)]
pub enum WriteOutcome {
    Bytes(usize),
    Failed,
}

/// What a read of std came to, into a buffer that isn't empty.
pub fn read_outcome(given: io::Result<usize>) -> ReadOutcome
    ensures { result ≡ read_outcome given }
{
    match given {
        Ok(0) => ReadOutcome::End,
        Ok(n) => ReadOutcome::Bytes(n),
        Err(_) => ReadOutcome::Failed,
    }
}

/// What a write of std came to, of a piece that isn't empty.
pub fn write_outcome(given: io::Result<usize>) -> WriteOutcome
    ensures { result ≡ write_outcome given }
{
    match given {
        Ok(0) | Err(_) => WriteOutcome::Failed,
        Ok(n) => WriteOutcome::Bytes(n),
    }
}

/// A source over a reader.
#[derive(Drop)]
pub struct StdSource<R> {
    reader: R,
    faults: u64,
}

impl<R> Model for StdSource<R> {
    ghost use Rattle.std.specs.Prelude.{ℕ};

    ghost Value = { ℕ };

    ghost view = { λ s. s.faults };
}

impl<R> StdSource<R> {
    pub fn new(reader: R) -> StdSource<R>
        ensures faults { result ≡ 0 }
    {
        StdSource { reader, faults: 0 }
    }
}

impl<R: Read> Source for StdSource<R> {
    ghost left = { λ _. None };

    ghost faults = { λ s. s };

    fn read(&mut self, buffer: &mut [u8]) -> Result<usize, ReadFailed> {
        if self.faults == u64::MAX {
            return Ok(0);
        }
        match read_outcome(self.reader.read(buffer)) {
            ReadOutcome::Bytes(n) => Ok(n),
            ReadOutcome::End => Ok(0),
            ReadOutcome::Failed => {
                self.faults += 1;
                Err(ReadFailed)
            }
        }
    }
}

/// A sink over a writer. A write that took nothing counts as a fault.
#[derive(Drop)]
pub struct StdSink<W> {
    writer: W,
    faults: u64,
}

impl<W> Model for StdSink<W> {
    ghost use Rattle.std.specs.Prelude.{ℕ};

    ghost Value = { ℕ };

    ghost view = { λ s. s.faults };
}

impl<W> StdSink<W> {
    pub fn new(writer: W) -> StdSink<W>
        ensures faults { result ≡ 0 }
    {
        StdSink { writer, faults: 0 }
    }
}

impl<W: Write> Sink for StdSink<W> {
    ghost content = { λ _. None };

    ghost faults = { λ s. s };

    fn write(&mut self, piece: &[u8]) -> Result<usize, SinkError> {
        if self.faults == u64::MAX {
            return Ok(piece.len());
        }
        match write_outcome(self.writer.write(piece)) {
            WriteOutcome::Bytes(n) => Ok(n),
            WriteOutcome::Failed => {
                self.faults += 1;
                Err(SinkError::Failed)
            }
        }
    }
}
