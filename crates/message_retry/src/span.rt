//! Between which numbers the messages of a mark lie.

ghost use Rattle.std.specs.Prelude.{◌≡◌, ◌<◌, ◌≤◌, ℕ, Some, OnOk};
ghost use Rattle.std.specs.Prelude.{List as Sequence};
ghost use Rattle.std.specs.Map.{lookup};
ghost use Rattle.nsi_primitive.specs.Messages.{identity};
ghost use Rattle.nsi_primitive.specs.declared.message.Message.{Message as MessageValue};
ghost use Rattle.message_retry.specs.declared.span.Span.{Span as SpanValue};
ghost use Rattle.message_retry.specs.Marks.{mark_of};
ghost use Rattle.message_retry.specs.Spans.{is_same_mark, ends_at, IsCovered};

use crate::mark::Mark;
use indexmap::IndexMap;
use std::alloc::AllocError;

/// Between which numbers the messages of a mark lie. Others may lie between them.
#[derive(Clone, Copy, Debug, PartialEq, Eq)]
pub struct Span {
    pub first: u64,
    pub last: u64,
}

/// Widens the span of a mark up to a number.
pub fn widen(spans: &mut IndexMap<Mark, Span>, mark: Mark, number: u64) -> Result<(), AllocError>
    ensures kept { (names : Sequence (Sequence ℕ)) (e : ℕ × MessageValue) → e.0 ≤ number →
        IsCovered names spans.old.entries e → IsCovered names spans.new.entries e }
    ensures covered { (names : Sequence (Sequence ℕ)) (m : MessageValue) →
        mark_of names (identity m) ≡ Some mark →
        OnOk result (IsCovered names spans.new.entries (number, m)) }
{
    let first = first_for(spans, mark, number);
    let last = number;
    spans.insert(mark, Span { first, last })?;
    Ok(())
}

/// The first number of a span that is widened.
fn first_for(spans: &IndexMap<Mark, Span>, mark: Mark, number: u64) -> u64
    ensures old { (span : SpanValue) →
        lookup (is_same_mark mark) spans.now.entries ≡ Some span → result ≤ span.first }
    ensures new { result ≤ number }
{
    match spans.get(&mark) {
        Some(span) => span.first.min(number),
        None => number,
    }
}

/// Forgets a mark of which the message of a number was the last one: its others have higher numbers.
pub fn forget(spans: &mut IndexMap<Mark, Span>, mark: Mark, number: u64)
    ensures { (names : Sequence (Sequence ℕ)) (e : ℕ × MessageValue) →
        (mark_of names (identity e.1) ≡ Some mark → number < e.0) →
        IsCovered names spans.old.entries e → IsCovered names spans.new.entries e }
{
    if ends_at(spans, mark, number) {
        let _span = spans.swap_remove(&mark);
    }
}

/// Whether the span of a mark ends at a number.
fn ends_at(spans: &IndexMap<Mark, Span>, mark: Mark, number: u64) -> bool
    ensures { result ≡ ends_at (lookup (is_same_mark mark) spans.now.entries) number }
{
    match spans.get(&mark) {
        Some(span) => span.last == number,
        None => false,
    }
}
