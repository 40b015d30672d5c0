//! A batch of entries, which are spelled as they come.

ghost use Rattle.std.specs.Prelude.{◌≡◌, ◌<◌, ◌++◌, ◌∷◌, [], length, All, IfOk, OnOk, Some};
ghost use Rattle.nsi_primitive.specs.Printable.{IsPrintableEntry};
ghost use Rattle.json_primitives.specs.Inputs.{input_spelling};
ghost use Rattle.journal_entry.specs.declared.form.Form.{Form};
ghost use Rattle.journal_entry.specs.Payloads.{payload_of, payload_spelling, batch_of};

use crate::form::Form;
use crate::writing::push_entry;
use nsi_primitive::Entry;
use std::alloc::{AllocError, Global};
use std::marker::Model;
use std::mem;

/// Entries that are to be appended together, as a payload of the second form.
#[derive(Drop)]
pub struct Batch {
    /// Empty where there are no entries.
    payload: Vec<u8>,
    count: usize,
}

impl Model for Batch {
    ghost use Rattle.std.specs.Prelude.{List};
    ghost use Rattle.nsi_primitive.specs.declared.entry.Entry.{Entry as AnEntry};
    ghost use Rattle.journal_entry.specs.Batches.{entries_of, IsBatch};

    ghost Value = { List AnEntry };

    ghost view = { λ b. entries_of b.payload.items };

    ghost invariant = { λ b. IsBatch b.payload.items b.count };
}

impl Batch {
    pub fn new(alloc: Global) -> Self
        ensures { result ≡ [] }
    {
        Batch {
            payload: Vec::new(alloc),
            count: 0,
        }
    }

    /// The entries of a list.
    pub fn of(alloc: Global, entries: &[Entry]) -> Result<Self, AllocError>
        requires { All IsPrintableEntry entries.now }
        ensures { IfOk result (λ batch. batch ≡ entries.now) }
    {
        let mut batch = Batch::new(alloc);
        for entry in entries {
            batch.push(alloc, entry)?;
        }
        Ok(batch)
    }

    /// Puts an entry behind, and gives the JSON of the parcel that it took, or nothing where it took none. Where memory is
    /// wanting no entry is left.
    pub fn push(&mut self, alloc: Global, entry: &Entry) -> Result<Vec<u8>, AllocError>
        requires { IsPrintableEntry entry.now }
        ensures more { OnOk result (self.new ≡ self.old ++ entry.now ∷ []) }
        ensures line { IfOk result (λ line. line.items ≡ input_spelling entry.now.input) }
    {
        let mut payload = mem::replace(&mut self.payload, Vec::new(alloc));
        let count = mem::replace(&mut self.count, 0);
        if count == 0 {
            payload.push(Form::Two.byte())?;
        }
        let line = push_entry(alloc, &mut payload, entry)?;
        let more = count.checked_add(1).ok_or(AllocError)?;
        self.payload = payload;
        self.count = more;
        Ok(line)
    }

    /// Drops all entries. It keeps the memory for as many.
    pub fn clear(&mut self)
        ensures { self.new ≡ [] }
    {
        self.payload.clear();
        self.count = 0;
    }

    pub fn len(&self) -> usize
        ensures { result ≡ length self.now }
    {
        self.count
    }

    /// The payload, which is nothing where there are no entries.
    pub fn payload(&self) -> &[u8]
        ensures spelled { 0 < length self.now →
            result.now ≡ payload_spelling Form.Two self.now }
        ensures again { 0 < length self.now → payload_of result.now ≡ Some self.now }
        ensures batch { 0 < length self.now → batch_of result.now ≡ Some self.now }
    {
        &self.payload
    }
}
