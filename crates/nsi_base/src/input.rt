//! How much a program reads.

ghost use Rattle.std.specs.Prelude.{◌≡◌};
ghost use Rattle.nsi_base.specs.Range.{greatest_input};

/// How many bytes a program reads at most.
pub const GREATEST_INPUT: usize = 67_108_864;

/// `GREATEST_INPUT`, as contracts know it.
pub fn greatest_input() -> usize
    ensures { result ≡ greatest_input }
{
    GREATEST_INPUT
}
