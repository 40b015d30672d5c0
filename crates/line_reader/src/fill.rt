//! What reading on came to.

/// What reading on came to: more bytes, the end of the input, or bytes past the size that is taken.
#[derive(Clone, Copy, Debug, PartialEq, Eq)]
pub(crate) enum Filled {
    More,
    End,
    Full,
}
