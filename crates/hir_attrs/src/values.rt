//! The values that parameters have by default.

ghost use Rattle.std.specs.Prelude.{◌≡◌, ◌≤◌, IfSome, Some, pos};
ghost use Rattle.hir_attrs.specs.Values.{default_of, written_integer, is_digit, most_integer};
ghost use Rattle.hir_attrs.specs.inside.Digits.{next_value, value_from};

use bridge_decl::Lit;

/// The value that a parameter has where none is passed. As `diplomat_core::hir::DefaultArgValue`, without floating numbers.
#[derive(Clone, Copy, Debug, PartialEq, Eq)]
pub enum DefaultArgValue {
    /// `true` or `false`.
    Bool(bool),
    /// A character.
    Char(char),
    /// A whole number.
    Integer(i128),
}

/// The greatest value of an `i128`.
const MOST: u128 = 170141183460469231731687303715884105727;

/// The greatest number that still has room for one more digit.
const TENTH: u128 = 17014118346046923173168730371588410572;

/// Whether a byte is a decimal digit.
fn is_digit(byte: u8) -> bool
    ensures { result ≡ is_digit byte }
{
    48 <= byte && byte <= 57
}

/// A number with one more digit after it. None where it is no digit, or the number is above the greatest.
fn next_value(value: u128, byte: u8) -> Option<u128>
    requires { value ≤ most_integer }
    ensures { result ≡ next_value value byte }
{
    if !is_digit(byte) || value > TENTH {
        return None;
    }
    let next = value * 10 + (byte - 48) as u128;
    if next > MOST { None } else { Some(next) }
}

/// The number that digits write. None where there is something else among them, or it is above the greatest.
#[tactic(auto, using(crate::proofs::DigitLemmas::none_stays))]
fn read_digits(text: &str) -> Option<u128>
    ensures value { result ≡ value_from (Some 0) text.now }
    ensures least { IfSome result (λ value. value ≤ most_integer) }
{
    let mut value = 0;
    for byte in text.as_bytes() {
        match next_value(value, *byte) {
            Some(next) => value = next,
            None => return None,
        }
    }
    Some(value)
}

/// The number that a text writes. None where it isn't one or more decimal digits, or the number is above the greatest.
#[tactic(auto, using(crate::proofs::DigitLemmas::reads_number))]
fn read_integer(text: &str) -> Option<u128>
    ensures value { result ≡ written_integer text.now }
    ensures least { IfSome result (λ value. value ≤ most_integer) }
{
    if text.is_empty() {
        None
    } else {
        read_digits(text)
    }
}

/// A number as a signed one.
fn signed(value: u128) -> i128
    requires { value ≤ most_integer }
    ensures { result ≡ pos value }
{
    value as i128
}

/// The value that a literal gives a parameter: `true` or `false`, a character, a byte as the character of that number, or a whole number
/// as one or more decimal digits. None for any other literal, and for a number above 170141183460469231731687303715884105727, the greatest
/// of an `i128`.
pub fn default_of(literal: &Lit) -> Option<DefaultArgValue>
    ensures { result ≡ default_of literal.now }
{
    match literal {
        Lit::Bool(value) => Some(DefaultArgValue::Bool(*value)),
        Lit::Char(value) => Some(DefaultArgValue::Char(*value)),
        Lit::Byte(value) => Some(DefaultArgValue::Char(char::from(*value))),
        Lit::Int(digits) => match read_integer(digits.as_str()) {
            Some(value) => Some(DefaultArgValue::Integer(signed(value))),
            None => None,
        },
        _ => None,
    }
}
