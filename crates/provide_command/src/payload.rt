//! Why a line isn't taken, and the answer to it.

ghost use Rattle.std.specs.Prelude.{◌≡◌, IfOk};
ghost use Rattle.provide_command.specs.Lines.{payload};

use fault_lines::as_line;
use json_primitives::{Key, LineFault, print_payload};
use std::alloc::{AllocError, Global};

/// Why a line isn't taken.
#[derive(Clone, Copy, Debug, PartialEq, Eq)]
pub enum PayloadFault {
    /// It can't be read as a parcel.
    Line(LineFault),
    /// It begins with `tick` and isn't `tick N` with a second N that isn't before now.
    Tick,
}

impl PayloadFault {
    ghost use Rattle.provide_command.specs.Payload.{payload_name, payload_key};

    /// The name by which the fault is written.
    #[tactic(auto, unfolding(crate::specs::Payload::payload_name))]
    fn name(self) -> &'static str
        ensures { result.now ≡ payload_name self }
    {
        match self {
            PayloadFault::Line(fault) => fault.name(),
            PayloadFault::Tick => "Tick",
        }
    }

    /// The key that the fault is about.
    fn key(self) -> Option<Key>
        ensures { result ≡ payload_key self }
    {
        match self {
            PayloadFault::Line(fault) => fault.key(),
            PayloadFault::Tick => None,
        }
    }
}

/// The answer to a line that can't be read, or isn't served.
pub(crate) fn payload(
    alloc: Global,
    number: u64,
    fault: PayloadFault,
) -> Result<Vec<u8>, AllocError>
    ensures { IfOk result (λ text. text.items ≡ payload number fault) }
{
    let text = print_payload(alloc, fault.name(), fault.key(), number)?;
    as_line(text)
}
