//! A reader of lines over a source.

ghost use Rattle.std.specs.Prelude.{◌≡◌, ◌<◌, ◌≤◌, ◌+◌, ℕ, [], length, take, drop, suc, Some, None, Ok, OnOk, IfOk, IfSome, IsErrOf, true};
ghost use Rattle.nsi_base.specs.Lines.{feed_at, without_return};
ghost use Rattle.line_reader.specs.Given.{IsCutFrom, IsSame};

use crate::feed::feed_at;
use crate::fill::Filled;
use nsi_base::line::without_return;
use nsi_outside::Source;
use std::alloc::Global;
use std::marker::Model;

/// What comes next: a line without its end, the end of the input, or more bytes than are taken.
#[derive(Debug, Drop)]
pub enum Next {
    Line(Vec<u8>),
    End,
    Long,
}

/// Why nothing was taken.
#[derive(Clone, Copy, Debug, PartialEq, Eq)]
pub enum ReadError {
    Failed,
    NoMemory,
}

/// How many bytes are asked of the source at once.
const PIECE: usize = 8_192;

/// The bytes that were read and not yet handed out. Each byte is looked at once, also in a line that is as long as the
/// input may be.
#[derive(Drop)]
pub struct LineReader {
    kept: Vec<u8>,
    start: usize,
    scanned: usize,
    room: usize,
}

impl Model for LineReader {
    ghost use Rattle.line_reader.specs.Held.{Held};

    ghost Value = { Held };

    ghost use Rattle.line_reader.specs.Kept.{held, IsKept};

    ghost view = { held };

    ghost invariant = { IsKept };
}

impl LineReader {
    ghost use Rattle.line_reader.specs.Held.{budget, to_come, rest_of, Takes, Cuts, Fills};
    ghost use Rattle.line_reader.specs.Next.{is_line, TakesLast};

    /// A reader that takes that many bytes at most.
    pub fn new(alloc: Global, size: usize) -> LineReader
        ensures { result ≡ record { bytes = []; room = size } }
    {
        LineReader {
            kept: Vec::new(alloc),
            start: 0,
            scanned: 0,
            room: size,
        }
    }

    /// Takes the next line. What was read behind it is kept. After a failed read the next call reads on; after want of
    /// memory the reader is of no more use, since bytes may be lost.
    pub fn next<S: Source>(&mut self, alloc: Global, input: &mut S) -> Result<Next, ReadError>
        ensures next { IfOk result
            (Takes (to_come self.old (S.left input.old)) (to_come self.new (S.left input.new))) }
        ensures cut { IfOk result
            (Cuts (rest_of self.old (S.left input.old)) (rest_of self.new (S.left input.new))) }
        ensures shrinks { IfOk result (λ next.
            is_line next ≡ true → budget self.new < budget self.old) }
        ensures failed { IsErrOf result ReadError.Failed → S.faults input.old < S.faults input.new }
        ensures counted { S.faults input.old ≤ S.faults input.new }
        ensures quiet { OnOk result (S.faults input.new ≡ S.faults input.old) }
        ensures memory { IsErrOf result ReadError.NoMemory
            → S.faults input.new ≡ S.faults input.old }
        // After a failed read the reader has all that it was given, and no whole line.
        ensures reads_on { IsErrOf result ReadError.Failed
            → IsSame (to_come self.old (S.left input.old)) (to_come self.new (S.left input.new)) }
        ensures keeps { IsErrOf result ReadError.Failed
            → IsSame (rest_of self.old (S.left input.old)) (rest_of self.new (S.left input.new)) }
        ensures waits { IsErrOf result ReadError.Failed → feed_at self.new.bytes ≡ None }
    {
        'reading: loop {
            if let Some(line) = self.take_line(alloc)? {
                return Ok(Next::Line(line));
            }
            match self.fill(alloc, input)? {
                Filled::More => {}
                Filled::End => {
                    let last = self.take_last(alloc)?;
                    return Ok(last);
                }
                Filled::Full => return Ok(Next::Long),
            }
        }
    }

    /// Takes the first line that has an end.
    fn take_line(&mut self, alloc: Global) -> Result<Option<Vec<u8>>, ReadError>
        ensures none { result ≡ Ok None → (self.new ≡ self.old) × (feed_at self.old.bytes ≡ None) }
        ensures some { IfOk result (λ o.
            IfSome o (λ line. (i : ℕ) × (feed_at self.old.bytes ≡ Some i)
            × (line.items ≡ without_return (take i self.old.bytes))
            × (self.new ≡ record { bytes = drop (suc i) self.old.bytes; room = self.old.room }))) }
        ensures not_read { IsErrOf result ReadError.Failed → ⊥ }
    {
        let (_, fresh) = self.kept.split_at(self.scanned);
        let Some(behind) = feed_at(fresh) else {
            self.scanned = self.kept.len();
            return Ok(None);
        };
        let feed = self.scanned + behind;
        let Ok(line) = Vec::from_slice(alloc, without_return(&self.kept[self.start..feed])) else {
            return Err(ReadError::NoMemory);
        };
        self.start = feed + 1;
        self.scanned = feed + 1;
        Ok(Some(line))
    }

    /// Takes what is left without an end.
    fn take_last(&mut self, alloc: Global) -> Result<Next, ReadError>
        ensures last { IfOk result (TakesLast self.old self.new) }
        ensures not_read { IsErrOf result ReadError.Failed → ⊥ }
    {
        let (_, rest) = self.kept.split_at(self.start);
        if rest.is_empty() {
            return Ok(Next::End);
        }
        let Ok(line) = Vec::from_slice(alloc, rest) else {
            return Err(ReadError::NoMemory);
        };
        let end = self.kept.len();
        self.start = end;
        self.scanned = end;
        Ok(Next::Line(line))
    }

    /// Lets go of the bytes that were handed out.
    fn compact(&mut self) -> Result<(), ReadError>
        ensures same { OnOk result (self.new ≡ self.old) }
        ensures not_read { IsErrOf result ReadError.Failed → ⊥ }
    {
        if self.start == 0 {
            return Ok(());
        }
        let Ok(rest) = self.kept.split_off(self.start) else {
            return Err(ReadError::NoMemory);
        };
        self.kept = rest;
        self.scanned -= self.start;
        self.start = 0;
        Ok(())
    }

    /// Reads on.
    fn fill<S: Source>(&mut self, alloc: Global, input: &mut S) -> Result<Filled, ReadError>
        ensures filled { IfOk result
            (Fills self.old (S.left input.old) self.new (S.left input.new)) }
        ensures failed { IsErrOf result ReadError.Failed → S.faults input.old < S.faults input.new }
        ensures quiet { OnOk result (S.faults input.new ≡ S.faults input.old) }
        ensures memory { IsErrOf result ReadError.NoMemory
            → S.faults input.new ≡ S.faults input.old }
        ensures same { IsErrOf result ReadError.Failed → self.new ≡ self.old }
        ensures left { IsErrOf result ReadError.Failed
            → IsSame (S.left input.old) (S.left input.new) }
    {
        if self.room == 0 {
            return probe(input);
        }
        self.compact()?;
        let piece = read_piece(alloc, input, self.room)?;
        let count = piece.len();
        if count == 0 {
            return Ok(Filled::End);
        }
        let Ok(()) = self.kept.extend_from_slice(&piece) else {
            return Err(ReadError::NoMemory);
        };
        self.room -= count;
        Ok(Filled::More)
    }
}

/// Reads the next bytes, at most so many. None come only at the end.
pub(crate) fn read_piece<S: Source>(
    alloc: Global,
    input: &mut S,
    most: usize,
) -> Result<Vec<u8>, ReadError>
    requires { 0 < most }
    ensures few { IfOk result (λ piece. length piece.items ≤ most) }
    ensures piece { IfOk result (λ piece.
        IsCutFrom (S.left input.old) (S.left input.new) piece.items) }
    ensures failed { IsErrOf result ReadError.Failed → S.faults input.old < S.faults input.new }
    ensures quiet { OnOk result (S.faults input.new ≡ S.faults input.old) }
    ensures memory { IsErrOf result ReadError.NoMemory → S.faults input.new ≡ S.faults input.old }
    ensures left { IsErrOf result ReadError.Failed → IsSame (S.left input.old) (S.left input.new) }
{
    let mut buffer = [0u8; PIECE];
    let most = most.min(PIECE);
    let Ok(n) = input.read(&mut buffer[..most]) else {
        return Err(ReadError::Failed);
    };
    match Vec::from_slice(alloc, &buffer[..n]) {
        Ok(piece) => Ok(piece),
        Err(_) => Err(ReadError::NoMemory),
    }
}

/// Whether the input ends here.
fn probe<S: Source>(input: &mut S) -> Result<Filled, ReadError>
    ensures end { result ≡ Ok Filled.End → IfSome (S.left input.old) (λ bytes.
        (bytes ≡ []) × (S.left input.new ≡ Some [])) }
    ensures full { result ≡ Ok Filled.Full → IfSome (S.left input.old) (λ bytes. (bytes ≡ []) → ⊥) }
    ensures not_more { result ≡ Ok Filled.More → ⊥ }
    ensures failed { IsErrOf result ReadError.Failed → S.faults input.old < S.faults input.new }
    ensures quiet { OnOk result (S.faults input.new ≡ S.faults input.old) }
    ensures memory { IsErrOf result ReadError.NoMemory → S.faults input.new ≡ S.faults input.old }
    ensures left { IsErrOf result ReadError.Failed → IsSame (S.left input.old) (S.left input.new) }
{
    let mut buffer = [0u8; 1];
    match input.read(&mut buffer) {
        Ok(0) => Ok(Filled::End),
        Ok(_) => Ok(Filled::Full),
        Err(_) => Err(ReadError::Failed),
    }
}
