//! The lines of a trace.

ghost use Rattle.std.specs.Prelude.{◌≡◌, ◌<◌, ◌+◌, ◌∷◌, length, IfOk};
ghost use Rattle.std.specs.Str.{bytes_eq};
ghost use Rattle.trace_verify.specs.Lines.{is_closing, settled_line, trace_lines};

use nsi_base::line::feed_at;
use std::alloc::{AllocError, Global};

/// The first line, without its line feed, and what stands behind it.
pub fn cut_at_feed(text: &[u8]) -> (&[u8], &[u8])
    requires { 0 < length text.now }
    ensures lines { trace_lines text.now ≡ result.0.now ∷ trace_lines result.1.now }
    ensures shorter { length result.1.now < length text.now }
{
    match feed_at(text) {
        Some(i) => {
            let (line, behind) = text.split_at(i);
            (line, behind.split_at(1).1)
        }
        None => text.split_at(text.len()),
    }
}

/// Whether the line is one that ends a trace, whatever number it tells.
pub fn is_closing(line: &[u8]) -> bool
    ensures { result ≡ is_closing line.now }
{
    line.starts_with(b"settled ")
}

/// Whether the line ends a trace of so many events.
pub fn is_settled(alloc: Global, line: &[u8], events: u64) -> Result<bool, AllocError>
    ensures { IfOk result (λ is. is ≡ bytes_eq (settled_line events) line.now) }
{
    let mut text = Vec::new(alloc);
    text.extend_from_slice(b"settled ")?;
    let digits = events.to_string(alloc)?;
    text.extend_from_slice(digits.as_bytes())?;
    Ok(text.as_slice() == line)
}
