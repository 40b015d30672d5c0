//! Laws of histories. It costs nothing to call them.

ghost use Rattle.race_history.specs.Laws.{IsAnyNetworks, MayBeTakenAgain, EndsCapped, IsShort};

/// A book doesn't tell behind a lock which network it was made of, and for its history that is nothing.
pub fn histories()
    ensures alike { IsAnyNetworks }
    ensures again { MayBeTakenAgain }
    ensures capped { EndsCapped }
    ensures short { IsShort }
{}
