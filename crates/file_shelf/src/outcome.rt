//! What the calls of std come to.

ghost use Rattle.std.specs.Prelude.{◌≡◌, ◌≤◌};
ghost use Rattle.file_shelf.specs.Outcomes.{call_outcome, fetch_outcome, length_outcome, lock_outcome};
ghost use Rattle.file_shelf.specs.Outcomes.{piece_outcome, GoesOnWithin};

use nsi_disk::ShelfError;
use std::fs::TryLockError;
use std::io::{self, ErrorKind};

/// What a call of a file came to.
#[derive(Clone, Copy, Debug, PartialEq, Eq)]
pub enum CallOutcome {
    Done,
    Failed,
}

/// What a read or a write of so many bytes came to.
#[derive(Clone, Copy, Debug, PartialEq, Eq)]
pub enum PieceOutcome {
    Whole,
    /// So many bytes are left, and may be tried.
    Left(usize),
    Failed,
}

/// What a call came to that does its work whole or not at all.
pub fn call_outcome<T: Drop>(given: io::Result<T>) -> CallOutcome
    ensures { result ≡ call_outcome given }
{
    match given {
        Ok(_) => CallOutcome::Done,
        Err(_) => CallOutcome::Failed,
    }
}

/// What a read or a write came to of which `left` bytes were asked. None where some were to come is a fault, and one that
/// was interrupted is tried again.
pub fn piece_outcome(left: usize, given: io::Result<usize>) -> PieceOutcome
    ensures value { result ≡ piece_outcome left given }
    ensures within { GoesOnWithin left result }
{
    match given {
        Ok(n) if left <= n => PieceOutcome::Whole,
        Ok(0) => PieceOutcome::Failed,
        Ok(n) => PieceOutcome::Left(left - n),
        Err(error) => match error.kind() {
            ErrorKind::Interrupted => PieceOutcome::Left(left),
            _ => PieceOutcome::Failed,
        },
    }
}

/// The length of a file in bytes, or zero where there is none.
pub fn length_outcome(given: io::Result<u64>) -> (CallOutcome, u64)
    ensures { result ≡ length_outcome given }
{
    match given {
        Ok(length) => (CallOutcome::Done, length),
        Err(_) => (CallOutcome::Failed, 0),
    }
}

/// What a call of std gave that has to succeed before a shelf hands out a disk.
pub fn fetch_outcome<T: Drop>(given: io::Result<T>) -> Result<T, ShelfError>
    ensures { result ≡ fetch_outcome given }
{
    match given {
        Ok(value) => Ok(value),
        Err(_) => Err(ShelfError::Failed),
    }
}

/// Whether a file may be used, by what its lock came to. It may not where another has it, and may where the file system has
/// no locks.
pub fn lock_outcome(given: Result<(), TryLockError>) -> Result<(), ShelfError>
    ensures { result ≡ lock_outcome given }
{
    match given {
        Ok(()) => Ok(()),
        Err(TryLockError::WouldBlock) => Err(ShelfError::Failed),
        Err(TryLockError::Error(error)) => match error.kind() {
            ErrorKind::Unsupported => Ok(()),
            _ => Err(ShelfError::Failed),
        },
    }
}
