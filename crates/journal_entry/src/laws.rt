//! Laws of entries and their bytes, and what a journal of payloads of entries stands for.

ghost use Rattle.journal_entry.specs.Laws.{EntriesAreReadAgain, PayloadsAreReadAgain, EntriesAreSpelled, PayloadsAreSpelled, PayloadsAreEntries, OneMorePayload};

use ask_text::laws::asks_are_read_again;
use json_primitives::laws::lines_are_read_again;

/// The bytes of each entry that has a spelling in a form are read in it as the entry, whatever follows them.
pub fn entries_are_read_again()
    ensures { EntriesAreReadAgain }
{
    asks_are_read_again();
    lines_are_read_again();
}

/// The bytes of entries in a form, behind its byte, are read as them.
pub fn payloads_are_read_again()
    ensures { PayloadsAreReadAgain }
{
    asks_are_read_again();
    lines_are_read_again();
}

/// Bytes that are read as an entry of a form begin with its spelling in it, and bytes that are a payload are the
/// spelling of its entries in one of the forms.
pub fn what_is_read_is_spelled()
    ensures entries { EntriesAreSpelled }
    ensures payloads { PayloadsAreSpelled }
{}

/// A file that stands for payloads, each of which holds one entry or more, stands for these entries.
pub fn payloads_are_entries()
    ensures { PayloadsAreEntries }
{}

/// One more payload adds its entries at the end.
pub fn one_more_payload()
    ensures { OneMorePayload }
{}
