//! From a second to its text.

ghost use Rattle.std.specs.Prelude.{◌≡◌, ◌+◌, ◌/◌, ◌%◌, ◌<◌, ◌≤◌, Some, pos};
ghost use Rattle.std.specs.Str.{IsUtf8};
ghost use Rattle.nsi_base.specs.Range.{greatest_second};
ghost use Rattle.date_time.specs.Reading.{second_of};
ghost use Rattle.date_time.specs.Text.{date_time_text, year_of, month_of, day_of, text_of};

use jiff_core::civil::Date;
use nsi_base::Second;
use std::marker::Model;

/// The text of a second, as `2027-03-01T00:00:00Z`.
#[derive(Debug, Drop)]
pub struct SecondText {
    bytes: [u8; 20],
}

impl Model for SecondText {
    ghost use Rattle.std.specs.Prelude.{ℕ, List};
    ghost use Rattle.std.specs.Str.{IsUtf8};

    ghost Value = { List ℕ };

    ghost view = { λ t. t.bytes };

    ghost invariant = { λ t. IsUtf8 t.bytes };
}

impl SecondText {
    pub fn as_str(&self) -> &str
        ensures { result.now ≡ self.now }
    {
        // The invariant says that it is UTF-8, so the bytes aren't read once more.
        unsafe { str::from_utf8_unchecked(&self.bytes) }
    }
}

/// The text of a second: the date and the time of day in UTC.
pub fn print_second(second: Second) -> SecondText
    ensures value { result ≡ text_of second }
    ensures again { second_of (text_of second) ≡ Some second }
{
    SecondText {
        bytes: bytes_of(second.get()),
    }
}

#[tactic(auto, unfolding(crate::specs::Text::text_of))]
fn bytes_of(second: u64) -> [u8; 20]
    requires { second ≤ greatest_second }
    ensures value { result ≡ text_of second }
    ensures text { IsUtf8 result }
{
    let (year, month, day) = date_of((second / 86_400) as u32);
    let time = (second % 86_400) as u32;
    let (hour, minute) = ((time / 3600) as u8, (time % 3600 / 60) as u8);
    joined(year, month, day, hour, minute, (time % 60) as u8)
}

fn joined(year: u16, month: u8, day: u8, hour: u8, minute: u8, second: u8) -> [u8; 20]
    requires year { year < 10_000 }
    requires month { month < 100 }
    requires day { day < 100 }
    requires hour { hour < 100 }
    requires minute { minute < 100 }
    requires second { second < 100 }
    ensures value { result ≡ date_time_text year month day hour minute second }
    ensures text { IsUtf8 result }
{
    let (y1, y2) = two_digits((year / 100) as u8);
    let (y3, y4) = two_digits((year % 100) as u8);
    let (m1, m2) = two_digits(month);
    let (d1, d2) = two_digits(day);
    let (h1, h2) = two_digits(hour);
    let (n1, n2) = two_digits(minute);
    let (s1, s2) = two_digits(second);
    [
        y1, y2, y3, y4, b'-', m1, m2, b'-', d1, d2, b'T', h1, h2, b':', n1, n2, b':', s1, s2, b'Z',
    ]
}

/// The year, the month and the day of a number of days since 1970-01-01.
fn date_of(days: u32) -> (u16, u8, u8)
    requires { days ≤ 2_932_896 }
    ensures year { result.0 ≡ year_of (pos days) }
    ensures month { result.1 ≡ month_of (pos days) }
    ensures day { result.2 ≡ day_of (pos days) }
    ensures short_year { result.0 < 10_000 }
    ensures short_month { result.1 ≤ 12 }
    ensures short_day { result.2 ≤ 31 }
{
    let date = Date::from_days_since_min(DAYS_BEFORE_EPOCH + days);
    (date.year.unsigned_abs(), date.month, date.day)
}

// From the first date of the calendar to 1970-01-01.
const DAYS_BEFORE_EPOCH: u32 = 4_371_587;

fn two_digits(n: u8) -> (u8, u8)
    requires { n < 100 }
    ensures high { result.0 ≡ 48 + n / 10 }
    ensures low { result.1 ≡ 48 + n % 10 }
{
    (b'0' + n / 10, b'0' + n % 10)
}
