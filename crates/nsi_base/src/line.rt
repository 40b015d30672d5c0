//! The lines of a text.

ghost use Rattle.std.specs.Prelude.{◌≡◌, ◌<◌, ◌∷◌, length, IfSome};
ghost use Rattle.nsi_base.specs.Lines.{lines_of, feed_at, without_return, behind_feed};

/// Where the first line feed stands.
#[tactic(auto, unfolding(crate::specs::Lines::feed_at))]
pub fn feed_at(bytes: &[u8]) -> Option<usize>
    ensures value { result ≡ feed_at bytes.now }
    ensures within { IfSome result (λ i. i < length bytes.now) }
{
    for (i, b) in bytes.iter().enumerate() {
        if *b == b'\n' {
            return Some(i);
        }
    }
    None
}

/// A line without the carriage return that belongs to its end.
#[tactic(auto, unfolding(crate::specs::Lines::without_return))]
pub fn without_return(line: &[u8]) -> &[u8]
    ensures { result.now ≡ without_return line.now }
{
    match line.split_last() {
        Some((b'\r', front)) => front,
        _ => line,
    }
}

/// The first line without its end, and what stands behind it.
pub fn cut_line(text: &[u8]) -> (&[u8], &[u8])
    requires { 0 < length text.now }
    ensures lines { lines_of text.now ≡ result.0.now ∷ lines_of result.1.now }
    ensures behind { result.1.now ≡ behind_feed (feed_at text.now) text.now }
    ensures shorter { length result.1.now < length text.now }
{
    match feed_at(text) {
        Some(i) => {
            let (line, behind) = text.split_at(i);
            (without_return(line), behind.split_at(1).1)
        }
        None => text.split_at(text.len()),
    }
}
