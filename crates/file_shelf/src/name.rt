//! The name of an agent as the name of a file.

ghost use Rattle.std.specs.Prelude.{◌≡◌, IfOk, IsTrue, string_bytes};
ghost use Rattle.file_shelf.specs.FileNames.{file_name, HasDistinctFiles, StaysInFolder};

use nsi_base::Name;
use percent_encoding::{AsciiSet, NON_ALPHANUMERIC, ascii_set, percent_encode};
use std::alloc::{AllocError, Global};

/// All but letters, digits, `-` and `_`.
pub const ESCAPED: AsciiSet = ascii_set!(NON_ALPHANUMERIC.remove(b'-').remove(b'_'));

/// The name of the file of this agent: a letter, a digit, `-` and `_` stay, each other byte becomes `%` and two hexadecimal
/// digits, and `.journal` stands behind.
pub fn file_name(alloc: Global, name: &Name) -> Result<String, AllocError>
    ensures value { IfOk result (λ text. string_bytes text ≡ file_name name.now) }
{
    let mut text = String::new(alloc);
    percent_encode(name.bytes(), ESCAPED).append_to(&mut text)?;
    text.push_str(".journal")?;
    Ok(text)
}

/// Two agents have two files, and no file is outside the folder.
pub fn distinct_files()
    ensures distinct { HasDistinctFiles }
    ensures inside { StaysInFolder }
{}
