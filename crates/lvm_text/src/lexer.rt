//! Reading words.

ghost use Rattle.lvm_text.specs.Words.{
  Gives,
  below_64,
  digits_at,
  digits_value,
  integer_at,
  is_blank,
  is_digit,
  is_escapable,
  string_at,
  whole,
  with_digit,
  is_letter,
  is_line_end,
  is_name_byte,
  past_blanks,
};
ghost use Rattle.std.specs.List.{prefix_len};
ghost use Rattle.std.specs.Prelude.{◌<◌, ◌≡◌, ◌≤◌, IfOk, ℕ, false, length};

use crate::stop::Stop;
use rack::Name;
use std::alloc::Global;

/// The bytes from the next word on.
#[tactic(auto, unfolding(crate::specs::Words::past_blanks))]
pub(crate) fn past_blanks_of(bytes: &[u8]) -> &[u8]
    ensures rest { result.now ≡ past_blanks false bytes.now }
    ensures within { length result.now ≤ length bytes.now }
{
    let mut comment = false;
    let mut rest = bytes;
    while let Some((byte, after)) = rest.split_first() {
        if comment {
            if *byte == 0 {
                break;
            }
            comment = !ends_line(*byte);
        } else if *byte == b'#' {
            comment = true;
        } else if !blank(*byte) {
            break;
        }
        rest = after;
    }
    rest
}

/// Whether a comment ends there.
fn ends_line(byte: u8) -> bool
    ensures { result ≡ is_line_end byte }
{
    byte == b'\n' || byte == b'\r'
}

/// Whether it stands between words.
fn blank(byte: u8) -> bool
    ensures { result ≡ is_blank byte }
{
    byte == b' ' || byte == b'\t' || ends_line(byte)
}

/// Whether it is a letter.
fn letter(byte: u8) -> bool
    ensures { result ≡ is_letter byte }
{
    (b'A' <= byte && byte <= b'Z') || (b'a' <= byte && byte <= b'z')
}

/// Whether it is a name's byte.
pub(crate) fn in_name(byte: u8) -> bool
    ensures { result ≡ is_name_byte byte }
{
    letter(byte) || digit(byte) || byte == b'_' || byte == b'-' || byte == b'+' || byte == b'.'
}

/// How many bytes of a name stand at the front.
pub(crate) fn name_length(bytes: &[u8]) -> usize
    ensures count { result ≡ prefix_len is_name_byte bytes.now }
    ensures within { result ≤ length bytes.now }
{
    let mut count = 0;
    let mut rest = bytes;
    while let Some((byte, after)) = rest.split_first() {
        if !in_name(*byte) {
            break;
        }
        count += 1;
        rest = after;
    }
    count
}

/// Whether it is a digit.
pub(crate) fn digit(byte: u8) -> bool
    ensures { result ≡ is_digit byte }
{
    b'0' <= byte && byte <= b'9'
}

/// How many digits stand at the front.
fn digits_length(bytes: &[u8]) -> usize
    ensures count { result ≡ prefix_len is_digit bytes.now }
    ensures within { result ≤ length bytes.now }
{
    let mut count = 0;
    let mut rest = bytes;
    while let Some((byte, after)) = rest.split_first() {
        if !digit(*byte) {
            break;
        }
        count += 1;
        rest = after;
    }
    count
}

/// What a string says up to its closing quote, and the bytes behind it.
#[tactic(auto, unfolding(crate::specs::Words::string_at))]
pub(crate) fn string_of(alloc: Global, bytes: &[u8]) -> Result<(Name, &[u8]), Stop>
    ensures string { Gives (λ x. (x.0, x.1.now)) result (string_at false bytes.now) }
    ensures shorter { IfOk result (λ x. length x.1.now < length bytes.now) }
{
    let mut text = Vec::new(alloc);
    let mut escaped = false;
    let mut rest = bytes;
    while let Some((byte, after)) = rest.split_first() {
        if escaped {
            if !escapable(*byte) {
                return Err(Stop::Left(rest.len()));
            }
            text.push(*byte)?;
            escaped = false;
        } else if *byte == b'"' {
            return Ok((Name::of(alloc, text.as_slice())?, after));
        } else if *byte == 0 {
            return Err(Stop::Left(rest.len()));
        } else if *byte == b'\\' {
            escaped = true;
        } else {
            text.push(*byte)?;
        }
        rest = after;
    }
    Err(Stop::Left(0))
}

/// Whether a backslash may stand before it.
fn escapable(byte: u8) -> bool
    ensures { result ≡ is_escapable byte }
{
    byte == b'"' || byte == b'\\'
}

/// The integer at the front, where it is a whole number below 2^64, and the bytes behind it.
#[tactic(auto, unfolding(crate::specs::Words::integer_at))]
pub(crate) fn integer_of(bytes: &[u8]) -> Result<(Option<u64>, &[u8]), Stop>
    ensures integer { Gives (λ x. (x.0, x.1.now)) result (integer_at bytes.now) }
    ensures shorter { IfOk result (λ x. length x.1.now < length bytes.now) }
{
    match bytes {
        [] => Err(Stop::Left(0)),
        [b'-', after @ ..] => digits_of(true, after),
        [_, ..] => digits_of(false, bytes),
    }
}

/// The integer with this sign and the digits at the front.
fn digits_of(negative: bool, bytes: &[u8]) -> Result<(Option<u64>, &[u8]), Stop>
    ensures integer { Gives (λ x. (x.0, x.1.now)) result (digits_at negative bytes.now) }
    ensures shorter { IfOk result (λ x. length x.1.now < length bytes.now) }
{
    let count = digits_length(bytes);
    if count == 0 {
        return Err(Stop::Left(bytes.len()));
    }
    let (digits, rest) = bytes.split_at(count);
    Ok((whole_of(negative, value_of(digits)), rest))
}

/// The integer with this sign, where it is a whole number.
fn whole_of(negative: bool, value: Option<u64>) -> Option<u64>
    ensures { (n : ℕ) → value ≡ below_64 n → result ≡ whole negative n }
{
    if negative && value != Some(0) {
        None
    } else {
        value
    }
}

/// The number that digits say, where it is below 2^64.
pub(crate) fn value_of(digits: &[u8]) -> Option<u64>
    ensures { result ≡ below_64 (digits_value digits.now) }
{
    let mut value = Some(0);
    let mut rest = digits;
    while let Some((digit, after)) = rest.split_first() {
        value = value_with(value, *digit);
        rest = after;
    }
    value
}

/// The number with one digit more.
fn value_with(value: Option<u64>, digit: u8) -> Option<u64>
    ensures { (n : ℕ) → value ≡ below_64 n → result ≡ below_64 (with_digit n digit) }
{
    value?
        .checked_mul(10)?
        .checked_add(u64::from(digit.saturating_sub(b'0')))
}
