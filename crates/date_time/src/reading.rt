//! From a text to its second.

ghost use Rattle.std.specs.Prelude.{◌≡◌, ◌≤◌, ◌<◌, ◌+ℤ◌, ◌-ℤ◌, ◌*ℤ◌, IfSome, pos, option_map, length};
ghost use Rattle.std.specs.List.{prefix_len};
ghost use Rattle.jiff_core.specs.Calendar.{IsBetween, IsEpochDay, IsWithin};
ghost use Rattle.nsi_base.specs.Digits.{is_digit};
ghost use Rattle.date_time.specs.Reading.{two_at, four_at, field_at, behind, behind_letter, days_to, date_at, minutes_at, time_at, behind_fraction, span_of, offset_of, on_time_line, second_of};

use jiff_core::civil::Date;
use nsi_base::Second;

/// The second of a date-time: four digits, `-`, two digits, `-`, two digits, `T` or `t`, hours, minutes and seconds
/// with `:` between, then perhaps a fraction, which is dropped, and perhaps `Z`, `z` or an offset.
#[tactic(auto, unfolding(crate::specs::Reading::second_of))]
pub fn read_second(text: &[u8]) -> Option<Second>
    ensures { result ≡ second_of text.now }
{
    let (days, text) = date_at(text)?;
    let text = behind_letter(text)?;
    let (time, text) = time_at(text)?;
    let text = behind_fraction(text)?;
    let offset = offset_of(text)?;
    second_at(days, time, offset)
}

/// When a clock that is so far ahead of UTC shows the day and the time, if that is on the time line.
fn second_at(days: i64, time: u32, offset: i64) -> Option<Second>
    requires days { IsEpochDay days }
    requires time { time < 86_400 }
    requires offset { IsWithin 86_340 offset }
    ensures { result ≡ on_time_line (days *ℤ pos 86400 +ℤ pos time -ℤ offset) }
{
    on_time_line(days * 86_400 + i64::from(time) - offset)
}

/// Two digits at the front, and what stands behind them.
#[tactic(auto, unfolding(crate::specs::Reading::two_at))]
#[inline(always)]
fn two_at(text: &[u8]) -> Option<(u8, &[u8])>
    ensures value { option_map (λ p. (p.0, p.1.now)) result ≡ two_at text.now }
    ensures bound { IfSome result (λ p. p.0 < 100) }
{
    match text {
        [a @ b'0'..=b'9', b @ b'0'..=b'9', rest @ ..] => {
            Some((10 * (*a - b'0') + (*b - b'0'), rest))
        }
        _ => None,
    }
}

#[tactic(auto, unfolding(crate::specs::Reading::four_at))]
#[inline(always)]
fn four_at(text: &[u8]) -> Option<(u16, &[u8])>
    ensures value { option_map (λ p. (p.0, p.1.now)) result ≡ four_at text.now }
    ensures bound { IfSome result (λ p. p.0 < 10_000) }
{
    let (century, text) = two_at(text)?;
    let (year, text) = two_at(text)?;
    Some((100 * u16::from(century) + u16::from(year), text))
}

#[tactic(auto, unfolding(crate::specs::Reading::field_at))]
#[inline(always)]
fn field_at(most: u8, text: &[u8]) -> Option<(u8, &[u8])>
    ensures value { option_map (λ p. (p.0, p.1.now)) result ≡ field_at most text.now }
    ensures bound { IfSome result (λ p. p.0 ≤ most) }
{
    let (n, text) = two_at(text)?;
    if n <= most { Some((n, text)) } else { None }
}

/// What stands behind a byte.
#[tactic(auto, unfolding(crate::specs::Reading::behind))]
#[inline(always)]
fn behind(byte: u8, text: &[u8]) -> Option<&[u8]>
    ensures { option_map (λ r. r.now) result ≡ behind byte text.now }
{
    match text {
        [b, rest @ ..] if *b == byte => Some(rest),
        _ => None,
    }
}

/// What stands behind a `T` or `t`.
#[tactic(auto, unfolding(crate::specs::Reading::behind_letter))]
#[inline(always)]
fn behind_letter(text: &[u8]) -> Option<&[u8]>
    ensures { option_map (λ r. r.now) result ≡ behind_letter text.now }
{
    match text {
        [b'T' | b't', rest @ ..] => Some(rest),
        _ => None,
    }
}

/// The days from 1970-01-01 to a date, where the calendar has it.
fn days_to(year: u16, month: u8, day: u8) -> Option<i64>
    requires year { year < 10_000 }
    requires month { month < 100 }
    requires day { day < 100 }
    ensures value { result ≡ days_to year month day }
    ensures bound { IfSome result IsEpochDay }
{
    match Date::new(year as i16, month as i8, day as i8) {
        Ok(date) => Some(i64::from(date.to_unix_epoch_day())),
        Err(_) => None,
    }
}

#[tactic(auto, unfolding(crate::specs::Reading::date_at))]
#[inline(always)]
fn date_at(text: &[u8]) -> Option<(i64, &[u8])>
    ensures value { option_map (λ p. (p.0, p.1.now)) result ≡ date_at text.now }
    ensures bound { IfSome result (λ p. IsEpochDay p.0) }
{
    let (year, text) = four_at(text)?;
    let text = behind(b'-', text)?;
    let (month, text) = two_at(text)?;
    let text = behind(b'-', text)?;
    let (day, text) = two_at(text)?;
    let days = days_to(year, month, day)?;
    Some((days, text))
}

/// Hours and minutes, in seconds.
#[tactic(auto, unfolding(crate::specs::Reading::minutes_at))]
#[inline(always)]
fn minutes_at(text: &[u8]) -> Option<(u32, &[u8])>
    ensures value { option_map (λ p. (p.0, p.1.now)) result ≡ minutes_at text.now }
    ensures bound { IfSome result (λ p. p.0 ≤ 86_340) }
{
    let (hour, text) = field_at(23, text)?;
    let text = behind(b':', text)?;
    let (minute, text) = field_at(59, text)?;
    Some((3600 * u32::from(hour) + 60 * u32::from(minute), text))
}

/// A time of day, in seconds since midnight.
#[tactic(auto, unfolding(crate::specs::Reading::time_at))]
#[inline(always)]
fn time_at(text: &[u8]) -> Option<(u32, &[u8])>
    ensures value { option_map (λ p. (p.0, p.1.now)) result ≡ time_at text.now }
    ensures bound { IfSome result (λ p. p.0 < 86_400) }
{
    let (minutes, text) = minutes_at(text)?;
    let text = behind(b':', text)?;
    let (second, text) = field_at(59, text)?;
    Some((minutes + u32::from(second), text))
}

fn is_digit(b: u8) -> bool
    ensures { result ≡ is_digit b }
{
    b'0' <= b && b <= b'9'
}

fn digits_len(text: &[u8]) -> usize
    ensures len { result ≡ prefix_len is_digit text.now }
    ensures within { result ≤ length text.now }
{
    text.iter().take_while(|b| is_digit(**b)).count()
}

/// What stands behind a fraction, if there is one.
#[tactic(auto, unfolding(crate::specs::Reading::behind_fraction))]
#[inline(always)]
fn behind_fraction(text: &[u8]) -> Option<&[u8]>
    ensures { option_map (λ r. r.now) result ≡ behind_fraction text.now }
{
    let [b'.', rest @ ..] = text else {
        return Some(text);
    };
    let count = digits_len(rest);
    if 1 <= count && count <= 9 {
        Some(&rest[count..])
    } else {
        None
    }
}

/// How far the clock is ahead of UTC, in seconds.
#[tactic(auto, unfolding(crate::specs::Reading::offset_of))]
#[inline(always)]
fn offset_of(text: &[u8]) -> Option<i64>
    ensures value { result ≡ offset_of text.now }
    ensures bound { IfSome result (IsWithin 86_340) }
{
    match text {
        [] | [b'Z' | b'z'] => Some(0),
        [b'+', rest @ ..] => span_of(rest),
        [b'-', rest @ ..] => Some(-span_of(rest)?),
        _ => None,
    }
}

/// Hours and minutes up to the end of the text.
#[tactic(auto, unfolding(crate::specs::Reading::span_of))]
fn span_of(text: &[u8]) -> Option<i64>
    ensures value { result ≡ option_map (λ n. pos n) (span_of text.now) }
    ensures bound { IfSome result (IsBetween (pos 0) (pos 86_340)) }
{
    let (span, rest) = minutes_at(text)?;
    if rest.is_empty() {
        Some(i64::from(span))
    } else {
        None
    }
}

/// The second, where it is one of the time line.
#[tactic(auto, unfolding(crate::specs::Reading::on_time_line))]
#[inline(always)]
fn on_time_line(second: i64) -> Option<Second>
    ensures { result ≡ on_time_line second }
{
    match u64::try_from(second) {
        Ok(second) => Second::new(second),
        Err(_) => None,
    }
}
