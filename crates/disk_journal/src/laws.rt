//! Laws of the bytes of journals.

ghost use Rattle.disk_journal.specs.Laws.{BatchesAreRead};

/// A file of open batches with a closed gate behind them is read as their entries, whatever follows.
pub fn batches_are_read()
    ensures { BatchesAreRead }
{}
