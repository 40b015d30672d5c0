//! Numbers in decimal digits, as words of a text have them.

ghost use Rattle.std.specs.Prelude.{◌≡◌, ◌≤◌, ◌<◌, ◌^◌, ◌↔◌, ◌++◌, ℕ, Some, IfSome, OnOk, decimal};
ghost use Rattle.std.specs.List.{list_all};
ghost use Rattle.nsi_base.specs.Digits.{is_digit, are_digits, number_of, has_leading_zero, number_written};

use std::alloc::{AllocError, Global};

fn is_digit(b: u8) -> bool
    ensures { result ≡ is_digit b }
{
    b'0' <= b && b <= b'9'
}

fn are_all_digits(bytes: &[u8]) -> bool
    ensures { result ≡ list_all is_digit bytes.now }
{
    bytes.iter().all(|b| is_digit(*b))
}

fn are_digits(word: &[u8]) -> bool
    ensures { result ≡ are_digits word.now }
{
    1 <= word.len() && word.len() <= 20 && are_all_digits(word)
}

/// The number that a word of 1 to 20 digits is, where it lies in the range. Leading zeros are taken.
pub fn number_of(low: u64, high: u64, word: &[u8]) -> Option<u64>
    ensures value { result ≡ number_of low high word.now }
    ensures in_range { IfSome result (λ n. (low ≤ n) × (n ≤ high)) }
{
    if !are_digits(word) {
        return None;
    }
    let mut n: u128 = 0;
    for b in word {
        if n > u128::from(high) {
            return None;
        }
        n = 10 * n + (*b as u128 - 48);
    }
    if u128::from(low) <= n && n <= u128::from(high) {
        Some(n as u64)
    } else {
        None
    }
}

/// Whether a word begins with a zero that a decimal text doesn't have.
fn has_leading_zero(word: &[u8]) -> bool
    ensures { result ≡ has_leading_zero word.now }
{
    1 < word.len() && word[0] == b'0'
}

/// The number that a word is the decimal text of: digits without leading zeros, up to 2^64 - 1.
pub fn number_written(word: &[u8]) -> Option<u64>
    ensures value { result ≡ number_written word.now }
    ensures exact { (n : ℕ) → (result ≡ Some n) ↔ ((n < 2 ^ 64) × (word.now ≡ decimal n)) }
{
    if has_leading_zero(word) {
        return None;
    }
    number_of(0, u64::MAX, word)
}

/// Appends the decimal text of a number.
pub fn push_number(alloc: Global, text: &mut Vec<u8>, n: u64) -> Result<(), AllocError>
    ensures written { OnOk result (text.new.items ≡ text.old.items ++ decimal n) }
    ensures again { (low high : ℕ) → low ≤ n → n ≤ high → number_of low high (decimal n) ≡ Some n }
{
    let digits = n.to_string(alloc)?;
    text.extend_from_slice(digits.as_bytes())?;
    Ok(())
}
