//! Blanks, numbers and names at the front of some bytes. Each reader answers a value and the bytes after it, or where no
//! text goes on.
ghost use Rattle.std.specs.Prelude.{◌≡◌, ◌+◌, ◌*◌, ◌≤◌, ◌<◌, ◌^◌, length, SomeIff, IfOk, pos, neg_ℤ};
ghost use Rattle.ca_text.specs.Text.{is_name_char};
ghost use Rattle.ca_text.specs.Grammar.{is_blank, skip};
ghost use Rattle.ca_text.specs.Inner.Reading.{Gives, expect, digits_after, number_at, integer_at, negative_at, positive_at, name_at, name_length};

use crate::atom::is_name_char;
use crate::fault::{Stop, Why, fault_at, syntax_at};

/// The bytes after the blanks at the front: spaces and tabs.
#[tactic(auto, unfolding(crate::specs::Grammar::skip))]
pub fn skip(bytes: &[u8]) -> &[u8]
    ensures value { result.now ≡ skip bytes.now }
    ensures within { length result.now ≤ length bytes.now }
{
    let mut rest = bytes;
    while let [b' ' | b'\t', after @ ..] = rest {
        rest = after;
    }
    rest
}

// The bytes after this one.
#[tactic(auto, unfolding(crate::specs::Inner::Reading::expect))]
pub(crate) fn expect(byte: u8, bytes: &[u8]) -> Result<&[u8], Stop>
    ensures { Gives (λ rest. rest.now) result (expect byte bytes.now) }
{
    match bytes {
        [first, rest @ ..] if *first == byte => Ok(rest),
        _ => Err(syntax_at(bytes)),
    }
}

// A number with one more digit, unless it is over `most`.
fn with_digit(number: u64, digit: u8, most: u64) -> Option<u64>
    ensures { SomeIff result (number * 10 + digit ≤ most) (number * 10 + digit) }
{
    let next = number.checked_mul(10)?.checked_add(u64::from(digit))?;
    if next <= most { Some(next) } else { None }
}

// The digits at the front as a number of at most `most`.
#[tactic(auto, unfolding(crate::specs::Inner::Reading::digits_after))]
fn digits(most: u64, bytes: &[u8]) -> Result<(u64, &[u8]), Stop>
    ensures read { Gives (λ x. (x.0, x.1.now)) result (digits_after most 0 bytes.now) }
    ensures bounded { IfOk result (λ x. x.0 ≤ most) }
{
    let mut number = 0;
    let mut rest = bytes;
    while let [digit @ b'0'..=b'9', after @ ..] = rest {
        let Some(next) = with_digit(number, *digit - b'0', most) else {
            return Err(syntax_at(rest));
        };
        number = next;
        rest = after;
    }
    Ok((number, rest))
}

// One digit or more, of a value of at most `most`.
#[tactic(auto, unfolding(crate::specs::Inner::Reading::number_at))]
pub(crate) fn number(most: u64, bytes: &[u8]) -> Result<(u64, &[u8]), Stop>
    ensures read { Gives (λ x. (x.0, x.1.now)) result (number_at most bytes.now) }
    ensures bounded { IfOk result (λ x. x.0 ≤ most) }
{
    match bytes {
        [b'0'..=b'9', ..] => digits(most, bytes),
        _ => Err(syntax_at(bytes)),
    }
}

// `-` or nothing, and digits, of a value within 64 bits.
#[tactic(auto, unfolding(crate::specs::Inner::Reading::integer_at, crate::specs::Inner::Reading::number_at))]
pub(crate) fn integer(bytes: &[u8]) -> Result<(i64, &[u8]), Stop>
    ensures { Gives (λ x. (x.0, x.1.now)) result (integer_at bytes.now) }
{
    match bytes {
        [b'-', digits @ ..] => negative(digits),
        _ => positive(bytes),
    }
}

fn negative(digits: &[u8]) -> Result<(i64, &[u8]), Stop>
    ensures { Gives (λ x. (x.0, x.1.now)) result (negative_at digits.now) }
{
    let (value, rest) = number(1 << 63, digits)?;
    Ok((negated(value), rest))
}

fn positive(digits: &[u8]) -> Result<(i64, &[u8]), Stop>
    ensures { Gives (λ x. (x.0, x.1.now)) result (positive_at digits.now) }
{
    let (value, rest) = number(i64::MAX as u64, digits)?;
    Ok((value as i64, rest))
}

fn negated(value: u64) -> i64
    requires { value ≤ 2 ^ 63 }
    ensures { result ≡ neg_ℤ (pos value) }
{
    if value == 1 << 63 {
        i64::MIN
    } else {
        -(value as i64)
    }
}

// How many characters of a name stand at the front.
#[tactic(auto, unfolding(crate::specs::Inner::Reading::name_length))]
fn name_length(bytes: &[u8]) -> usize
    ensures value { result ≡ name_length bytes.now }
    ensures within { result ≤ length bytes.now }
{
    let mut length = 0;
    let mut rest = bytes;
    while let [first, after @ ..] = rest {
        if !is_name_char(*first) {
            break;
        }
        length += 1;
        rest = after;
    }
    length
}

// A name of at most `most` characters.
#[tactic(auto, unfolding(crate::specs::Inner::Reading::name_at))]
pub(crate) fn name(most: usize, bytes: &[u8]) -> Result<(&[u8], &[u8]), Stop>
    ensures { Gives (λ x. (x.0.now, x.1.now)) result (name_at most bytes.now) }
{
    let length = name_length(bytes);
    if length > most {
        return Err(fault_at(Why::AtomTooLong, &bytes[most..]));
    }
    Ok(bytes.split_at(length))
}
