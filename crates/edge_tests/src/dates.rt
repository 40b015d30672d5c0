//! Texts of seconds: known dates, and texts that are none.

use date_time::{print_second, read_second};
use nsi_base::Second;
use std::test::Fail;

// Seconds by the calendar (`date -u -d @N`).
const PRINTED: [(u64, &str); 9] = [
    (0, "1970-01-01T00:00:00Z"),
    (951_782_399, "2000-02-28T23:59:59Z"),
    (951_782_400, "2000-02-29T00:00:00Z"),
    (1_709_251_199, "2024-02-29T23:59:59Z"),
    (1_803_859_200, "2027-03-01T00:00:00Z"),
    (1_835_438_400, "2028-02-29T12:00:00Z"),
    (4_107_542_400, "2100-03-01T00:00:00Z"),
    (253_370_764_799, "9998-12-31T23:59:59Z"),
    (100, "1970-01-01T00:01:40Z"),
];

const READ: [(u64, &str); 9] = [
    (100, "1970-01-01T01:01:40.500+01:00"),
    (0, "1969-12-31T00:01:00-23:59"),
    (1_800, "1969-12-31T23:30:00-01:00"),
    (253_370_764_799, "9999-01-01T00:59:59+01:00"),
    (1_803_859_200, "2027-03-01t00:00:00z"),
    (1_803_859_200, "2027-03-01T00:00:00"),
    (1_803_859_200, "2027-03-01T00:00:00.123456789"),
    (1_803_862_799, "2027-03-01T00:59:59.9-00:00"),
    (1_803_859_200, "2027-02-28T18:30:00-05:30"),
];

const UNREAD: [&str; 26] = [
    "",
    "1970-02-30T00:00:00Z",
    "2027-02-29T00:00:00Z",
    "2100-02-29T00:00:00Z",
    "2027-00-01T00:00:00Z",
    "2027-13-01T00:00:00Z",
    "2027-01-00T00:00:00Z",
    "2027-04-31T00:00:00Z",
    "2027-03-01T24:00:00Z",
    "2027-03-01T00:60:00Z",
    "2027-03-01T00:00:60Z",
    "2027-03-01T00:00:00+24:00",
    "2027-03-01T00:00:00+00:60",
    "2027-03-01T00:00:00+0000",
    "2027-03-01T00:00:00+00",
    "2027-03-01T00:00:00.Z",
    "2027-03-01T00:00:00.1234567890Z",
    "2027-03-01T00:00:00,5Z",
    "2027-03-01T00:00:00ZZ",
    "2027-03-01T00:00:00Z ",
    "2027-03-01 00:00:00Z",
    "2027-03-01",
    "227-03-01T00:00:00Z",
    "1969-12-31T23:59:59Z",
    "9999-01-01T00:00:00Z",
    "2027-3-01T00:00:00Z",
];

fn is_read(n: u64, text: &str) -> bool {
    match read_second(text.as_bytes()) {
        Some(second) => second.get() == n,
        None => false,
    }
}

fn is_printed(n: u64, text: &str) -> bool {
    match Second::new(n) {
        Some(second) => print_second(second).as_str() == text,
        None => false,
    }
}

#[test]
fn known_seconds_are_printed_and_read(rt: HostRuntime) -> Result<(), Fail> {
    for (n, text) in PRINTED {
        assert!(rt; is_printed(n, text), "printed {text}");
        assert!(rt; is_read(n, text), "read {text}");
    }
    Ok(())
}

#[test]
fn other_spellings_are_read(rt: HostRuntime) -> Result<(), Fail> {
    for (n, text) in READ {
        assert!(rt; is_read(n, text), "read {text}");
    }
    Ok(())
}

#[test]
fn other_texts_are_not(rt: HostRuntime) -> Result<(), Fail> {
    for text in UNREAD {
        assert!(rt; read_second(text.as_bytes()).is_none(), "read {text}");
    }
    Ok(())
}
