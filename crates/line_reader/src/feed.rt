//! Where a line ends.

ghost use Rattle.std.specs.Prelude.{◌≡◌, ◌<◌, length, IfSome};
ghost use Rattle.nsi_base.specs.Lines.{feed_at};

use memchr::memchr;

/// Where the first line feed stands. Many bytes are looked at together.
pub(crate) fn feed_at(bytes: &[u8]) -> Option<usize>
    ensures value { result ≡ feed_at bytes.now }
    ensures within { IfSome result (λ i. i < length bytes.now) }
{
    memchr(b'\n', bytes)
}
