// The integer that a quoted literal stands for.
ghost use Rattle.std.specs.Prelude.{◌≡◌, ◌^◌, ◌-◌, ◌≤◌, ◌<◌, min, if◌then◌else◌, reverse};
ghost use Rattle.std.specs.List.{list_all};
ghost use Rattle.std.specs.Option.{option_map};
ghost use Rattle.typing_rules.specs.Literals as spec;

use cell_base::{SqlState, Text};

fn is_blank(byte: u8) -> bool
    ensures { result ≡ spec.is_blank byte }
{
    (9..=13).contains(&byte) || byte == b' '
}

fn after_blanks(mut bytes: &[u8]) -> &[u8]
    ensures { result.now ≡ spec.after_blanks bytes.entry.now }
{
    while let [first, rest @ ..] = bytes {
        if !is_blank(*first) {
            return bytes;
        }
        bytes = rest;
    }
    bytes
}

fn before_blanks(mut bytes: &[u8]) -> &[u8]
    ensures { result.now ≡ reverse (spec.after_blanks (reverse bytes.entry.now)) }
{
    while let [rest @ .., last] = bytes {
        if !is_blank(*last) {
            return bytes;
        }
        bytes = rest;
    }
    bytes
}

/// The number that the decimal digits spell, or the greatest one of 64 bits.
fn decimal(digits: &[u8]) -> u64
    ensures { result ≡ min (spec.decimal digits.now) (2 ^ 64 - 1) }
{
    let mut number: u64 = 0;
    for digit in digits {
        number = number
            .saturating_mul(10)
            .saturating_add(u64::from(digit.saturating_sub(b'0')));
    }
    number
}

/// The number that a sign, where one is written, and one or more digits spell: whether the sign is a minus, and the number,
/// or the greatest one of 64 bits.
fn signed(text: &[u8]) -> Option<(bool, u64)>
    ensures { result ≡ option_map (λ n. (n.0, min n.1 (2 ^ 64 - 1))) (spec.signed text.now) }
{
    match text {
        [b'-', digits @ ..] => Some((true, unsigned(digits)?)),
        [b'+', digits @ ..] => Some((false, unsigned(digits)?)),
        digits => Some((false, unsigned(digits)?)),
    }
}

fn unsigned(digits: &[u8]) -> Option<u64>
    ensures { result ≡ option_map (λ n. min n (2 ^ 64 - 1)) (spec.unsigned digits.now) }
{
    if digits.is_empty() {
        None
    } else if are_digits(digits) {
        Some(decimal(digits))
    } else {
        None
    }
}

fn are_digits(bytes: &[u8]) -> bool
    ensures { result ≡ list_all spec.is_digit bytes.now }
{
    bytes.iter().all(|b| is_digit(*b))
}

fn is_digit(byte: u8) -> bool
    ensures { result ≡ spec.is_digit byte }
{
    (48..=57).contains(&byte)
}

fn with_sign(minus: bool, number: u64) -> i64
    requires { number ≤ (if minus then 2 ^ 63 else 2 ^ 63 - 1) }
    ensures { result ≡ spec.with_sign minus number }
{
    if minus && number > 0 {
        -1 - (number - 1) as i64
    } else {
        number as i64
    }
}

/// The bytes without the blanks at both ends.
fn trimmed(bytes: &[u8]) -> &[u8]
    ensures { result.now ≡ spec.trimmed bytes.now }
{
    before_blanks(after_blanks(bytes))
}

/// The integer that a quoted literal stands for: whether its sign is a minus, and the number, or the greatest one of 64 bits.
fn integer_of(text: &Text) -> Option<(bool, u64)>
    ensures { result ≡ option_map (λ n. (n.0, min n.1 (2 ^ 64 - 1))) (spec.integer_of text.now) }
{
    signed(trimmed(text.bytes()))
}

/// The greatest number after a sign, for numbers from -half to half - 1.
fn most(half: u64, minus: bool) -> u64
    ensures { result ≡ (if minus then half else half - 1) }
{
    if minus { half } else { half.saturating_sub(1) }
}

/// The integer that a quoted literal stands for, within a signed type whose numbers are from -half to half - 1.
pub fn whole(text: &Text, half: u64) -> Result<i64, SqlState>
    requires { half ≤ 2 ^ 63 }
    ensures { result ≡ spec.whole half text.now }
{
    match integer_of(text) {
        None => Err(SqlState::S22P02),
        Some((minus, number)) if number <= most(half, minus) => Ok(with_sign(minus, number)),
        Some(_) => Err(SqlState::S22003),
    }
}
