//! The rule of a mark, and what each step tells.

ghost use Rattle.std.specs.Prelude.{max};
ghost use Rattle.durable_mark.specs.Rising.{IsAtMost, Saw, Raised};

use atomic_table::{Join, Play, Split, TableRule};

/// No seat has seen more than the word.
pub(crate) struct Rises;

impl TableRule<(), u64, ()> for Rises {
    ghost holds = { λ _. IsAtMost };

    ghost first = { λ _. 0 };
}

/// A load.
pub(crate) struct Sees;

impl Play<(), u64> for Sees {
    ghost then = { Saw };
}

/// A fetch_max.
pub(crate) struct Raises;

impl Play<(), u64> for Raises {
    ghost then = { Raised };
}

/// Both seats have seen the same.
pub(crate) struct Same;

impl Split<u64> for Same {
    ghost left = { λ v. v };

    ghost right = { λ v. v };
}

/// One seat has seen what either had.
pub(crate) struct Both;

impl Join<u64> for Both {
    ghost both = { max };

    ghost spent = { 0 };
}
