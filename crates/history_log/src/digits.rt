// Numbers of few digits, read digit by digit.
ghost use Rattle.std.specs.Prelude.{◌≡◌, ◌<◌, ◌+◌, ◌++◌, ◌∷◌, [], decimal, IfSome};
ghost use Rattle.history_log.specs.Reading.{IsU32, IsNumber};

use crate::words::after_byte;

/// The digit that the byte is.
#[inline(always)]
fn digit_of(byte: u8) -> Option<u32>
    ensures { IfSome result (λ digit. (digit < 10) × (byte ≡ 48 + digit)) }
{
    if byte < b'0' {
        return None;
    }
    if byte > b'9' {
        return None;
    }
    Some((byte - b'0') as u32)
}

/// The number with one digit more, where it is below 429,496,729.
#[inline(always)]
fn with_digit(number: u32, digit: u32) -> Option<u32>
    requires positive { 0 < number }
    requires digit { digit < 10 }
    ensures more { IfSome result (λ more. (0 < more) × (more < 4294967296)) }
    ensures spelled { IfSome result (λ more. decimal more ≡ decimal number ++ (48 + digit) ∷ []) }
{
    if number >= 429_496_729 {
        return None;
    }
    Some(number * 10 + digit)
}

/// The number that the text begins with, and what stands after it. `None` says nothing of the text.
#[inline(always)]
pub fn leading_number(text: &[u8]) -> Option<(u32, &[u8])>
    ensures { IfSome result (λ x. IsU32 x.0 × (text.now ≡ decimal x.0 ++ x.1.now)) }
{
    if text.is_empty() {
        return None;
    }
    let mut number = digit_of(text[0])?;
    let mut rest = &text[1..];
    if number == 0 {
        return Some((number, rest));
    }
    while !rest.is_empty() {
        let Some(digit) = digit_of(rest[0]) else {
            return Some((number, rest));
        };
        number = with_digit(number, digit)?;
        rest = &rest[1..];
    }
    Some((number, rest))
}

/// The number and this byte after it that the text begins with, and what stands after them. `None` says nothing of the text.
#[inline(always)]
pub fn number_before(text: &[u8], byte: u8) -> Option<(u32, &[u8])>
    ensures { IfSome result (λ x. IsU32 x.0 × (text.now ≡ decimal x.0 ++ byte ∷ x.1.now)) }
{
    let (number, rest) = leading_number(text)?;
    Some((number, after_byte(rest, byte)?))
}

/// The number that the word is. `None` says nothing of the word.
pub fn few_digits(word: &[u8]) -> Option<u32>
    ensures { IfSome result (λ n. IsNumber n word.now) }
{
    let (number, rest) = leading_number(word)?;
    if rest.is_empty() { Some(number) } else { None }
}
