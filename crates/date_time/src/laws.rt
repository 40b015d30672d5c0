//! What is true of every text.

ghost use Rattle.date_time.specs.Laws.{IsPrintedAgain};

/// A text in the printed form that is read as a second is that second's text.
pub fn printed_again()
    ensures { IsPrintedAgain }
{}
