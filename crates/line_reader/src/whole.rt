//! An input as a whole.

ghost use Rattle.std.specs.Prelude.{◌≡◌, ◌<◌, ◌≤◌, ◌+◌, ◌^◌, length, None, Ok, Some, IfOk, OnOk, IfSome, IsErrOf};
ghost use Rattle.line_reader.specs.Whole.{IsWhole};

use crate::reader::{ReadError, read_piece};
use nsi_outside::Source;
use std::alloc::Global;

/// All bytes of an input, or `None` where there are more than so many. It reads one more at most.
pub fn read_whole<S: Source>(
    alloc: Global,
    input: &mut S,
    size: usize,
) -> Result<Option<Vec<u8>>, ReadError>
    requires { size < 2 ^ 62 }
    ensures whole { IfOk result (λ o. IfSome o (λ v. IsWhole (S.left input.old) v.items)) }
    ensures few { IfOk result (λ o. IfSome o (λ v. length v.items ≤ size)) }
    ensures long { result ≡ Ok None → IfSome (S.left input.old) (λ bytes. size < length bytes) }
    ensures failed { IsErrOf result ReadError.Failed → S.faults input.old < S.faults input.new }
    ensures counted { S.faults input.old ≤ S.faults input.new }
    ensures quiet { OnOk result (S.faults input.new ≡ S.faults input.old) }
    ensures memory { IsErrOf result ReadError.NoMemory → S.faults input.new ≡ S.faults input.old }
{
    let mut bytes = Vec::new(alloc);
    'pieces: loop {
        let piece = read_piece(alloc, input, size + 1 - bytes.len())?;
        if piece.len() == 0 {
            return Ok(Some(bytes));
        }
        let Ok(()) = bytes.extend_from_slice(&piece) else {
            return Err(ReadError::NoMemory);
        };
        if size < bytes.len() {
            return Ok(None);
        }
    }
}
