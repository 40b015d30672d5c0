//! The bytes of a journal are read, batch after batch.

ghost use Rattle.std.specs.Prelude.{◌≡◌, ◌<◌, ◌^◌, ℕ, length, slice_index, ◌≢◌, true, false, All, IfOk, IfErr, Ok};
ghost use Rattle.std.specs.Int.{w64, from_be_bytes};
ghost use Rattle.nsi_primitive.specs.Printable.{IsPrintableEntry};
ghost use Rattle.disk_journal.specs.Opening.{ReadsAs, Fails, all_of};

use journal_entry::{PayloadFault, read_batch};
use nsi_primitive::Entry;
use std::alloc::{AllocError, Global};

/// Why bytes are no journal.
#[derive(Clone, Copy, Debug, PartialEq, Eq)]
pub enum ReadFault {
    /// The batch whose gate stands at this place isn't one, or the next gate is missing.
    NotAJournal(u64),
    NoMemory,
}

impl From<AllocError> for ReadFault {
    ghost use Rattle.disk_journal.specs.declared.reading.ReadFault.TheVariants.{NoMemory as NoMemoryHere};
    ghost use Rattle.std.specs.Prelude.{◌≡◌};

    ghost from_gives = { λ _ e. e ≡ NoMemoryHere };

    fn from(_: AllocError) -> Self {
        ReadFault::NoMemory
    }
}

/// The entries of a journal, and the place of the closed gate behind them.
#[derive(Drop)]
pub struct Batches {
    pub gate: u64,
    pub entries: Vec<Entry>,
}

fn number(head: &[u8]) -> u64
    requires { length head.now ≡ 8 }
    ensures value { result ≡ from_be_bytes w64 head.now }
    ensures bytes { (i : ℕ) → slice_index head.now i < 256 }
{
    let mut eight = [0u8; 8];
    eight.copy_from_slice(head);
    u64::from_be_bytes(eight)
}

/// Whether the batch behind a gate counts.
fn is_open(gate: u8) -> bool
    ensures open { result ≡ true → gate ≡ 1 }
    ensures shut { result ≡ false → gate ≢ 1 }
{
    gate == 1
}

/// The entries of a file of batches, and the place of the closed gate behind them.
pub fn read_batches(alloc: Global, bytes: &[u8]) -> Result<Batches, ReadFault>
    requires { 0 < length bytes.now }
    ensures ok { IfOk result (λ b. ReadsAs bytes.now b.gate b.entries.items) }
    ensures printable { IfOk result (λ b. All IsPrintableEntry b.entries.items) }
    ensures err { IfErr result (λ e. Fails e (all_of bytes.now)) }
{
    let mut entries = Vec::new(alloc);
    let mut place = 0;
    let mut rest = bytes;
    loop {
        if !is_open(rest[0]) {
            return Ok(Batches {
                gate: place,
                entries,
            });
        }
        let (_, behind) = rest.split_at(1);
        if behind.len() < 8 {
            return Err(ReadFault::NotAJournal(place));
        }
        let (head, tail) = behind.split_at(8);
        let n = number(head);
        if tail.len() as u64 <= n {
            return Err(ReadFault::NotAJournal(place));
        }
        let (payload, more) = tail.split_at(n as usize);
        match read_batch(alloc, payload) {
            Ok(read) => {
                let mut read = read;
                entries.append(&mut read)?;
            }
            Err(PayloadFault::NotAPayload) => return Err(ReadFault::NotAJournal(place)),
            Err(PayloadFault::NoMemory) => return Err(ReadFault::NoMemory),
        }
        place += 9 + n;
        rest = more;
    }
}
