//! Asks and their texts.

ghost use Rattle.std.specs.Prelude.{◌≡◌, Some};
ghost use Rattle.nsi_primitive.specs.Ranges.{IsSpellableAsk};
ghost use Rattle.nsi_primitive.specs.declared.ask.Ask.{Ask};
ghost use Rattle.ask_text.specs.Asks.{ask_text};
ghost use Rattle.ask_text.specs.Reading.{ask_of};

/// The text of each ask is read again.
pub fn asks_are_read_again()
    ensures { (a : Ask) → IsSpellableAsk a → ask_of (ask_text a) ≡ Some a }
{}
