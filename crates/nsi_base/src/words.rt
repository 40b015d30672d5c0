//! The words of a text between single blanks.

ghost use Rattle.std.specs.Prelude.{◌≡◌, length, map, IfOk, IfSome, IfNone};
ghost use Rattle.nsi_base.specs.Words.{is_blank, words_of, HasNoBlank, IsFirstBlank, AreReadAgain};

use std::alloc::{AllocError, Global};

/// Which bytes part words.
#[derive(Clone, Copy, Debug, PartialEq, Eq)]
pub enum Blanks {
    Space,
    SpaceOrTab,
}

impl Blanks {
    fn has(self, b: u8) -> bool
        ensures { result ≡ is_blank self b }
    {
        match self {
            Blanks::Space => b == b' ',
            Blanks::SpaceOrTab => b == b' ' || b == b'\t',
        }
    }
}

fn first_blank(blanks: Blanks, bytes: &[u8]) -> Option<usize>
    ensures found { IfSome result (λ k. IsFirstBlank blanks bytes.now k) }
    ensures none { IfNone result (HasNoBlank blanks bytes.now (length bytes.now)) }
{
    for (i, b) in bytes.iter().enumerate() {
        if blanks.has(*b) {
            return Some(i);
        }
    }
    None
}

/// The words between single blanks. Where two blanks follow each other, or one ends the text, there is an empty word.
pub fn words(alloc: Global, blanks: Blanks, text: &[u8]) -> Result<Vec<&[u8]>, AllocError>
    ensures { IfOk result (λ v. map (λ w. w.now) v.items ≡ words_of blanks text.now) }
{
    let mut words = Vec::new(alloc);
    let mut rest = text;
    'words: loop {
        let Some(k) = first_blank(blanks, rest) else {
            words.push(rest)?;
            return Ok(words);
        };
        let (word, behind) = rest.split_at(k);
        words.push(word)?;
        rest = behind.split_at(1).1;
    }
}

/// Words that are written with a space between them are read again.
pub fn words_again(blanks: Blanks)
    ensures { AreReadAgain blanks }
{}
