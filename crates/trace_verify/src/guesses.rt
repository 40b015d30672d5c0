//! Which message a text seems to be of. Nothing is promised of a guess: whoever takes it compares what it leads to with
//! the text.

ghost use Rattle.std.specs.Prelude.{◌<◌, length, IfSome};

use nsi_base::{Name, NameFault};
use nsi_primitive::{Identity, Kind, read_id};
use std::alloc::{AllocError, Global};

/// The identity of the message or acknowledgement that a text in the usual spelling is, whose kind stands behind that
/// key.
pub fn identity_in(
    alloc: Global,
    text: &[u8],
    kind_key: &[u8],
) -> Result<Option<Identity>, AllocError> {
    let Some((correlation, rest)) = value_of(text, b"correlationId") else {
        return Ok(None);
    };
    let Some((kind, rest)) = value_of(rest, kind_key) else {
        return Ok(None);
    };
    let Some((provider, rest)) = value_of(rest, b"providerNSA") else {
        return Ok(None);
    };
    let Some((requester, _)) = value_of(rest, b"requesterNSA") else {
        return Ok(None);
    };
    let (Ok(correlation), Some(kind)) = (read_id(correlation), Kind::named(kind)) else {
        return Ok(None);
    };
    match (Name::of(alloc, requester), Name::of(alloc, provider)) {
        (Ok(requester), Ok(provider)) => Ok(Some(Identity {
            requester,
            provider,
            correlation,
            kind,
        })),
        (Err(NameFault::NoMemory), _) | (_, Err(NameFault::NoMemory)) => Err(AllocError),
        _ => Ok(None),
    }
}

/// What stands in quotes behind a key, and what behind that.
fn value_of<'a>(text: &'a [u8], key: &[u8]) -> Option<(&'a [u8], &'a [u8])> {
    let mut rest = text;
    'pieces: while let Some((piece, behind)) = cut_at_quote(rest) {
        rest = behind;
        if piece == key {
            let (_colon, value) = cut_at_quote(rest)?;
            return cut_at_quote(value);
        }
    }
    None
}

/// What stands before the first quote, and what behind it.
fn cut_at_quote(text: &[u8]) -> Option<(&[u8], &[u8])>
    ensures { IfSome result (λ cut. length cut.1.now < length text.now) }
{
    let place = text.iter().position(|byte| *byte == b'"')?;
    Some((&text[..place], &text[place + 1..]))
}
