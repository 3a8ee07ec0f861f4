// Numbers and levels, read from words of the command line.
ghost use Rattle.std.specs.Prelude.{◌≡◌, ◌≢◌, ◌≤◌, ◌<◌, ◌+◌, ◌*◌, ◌-◌, ℕ, IfSome, IsNone};
ghost use Rattle.cell_base.specs.declared.level.Level.{Level as Served};
ghost use Rattle.command_line.specs.Numbers.{level_word, IsDigit, IsWord, IsLongWord, IsUpTo};

use cell_base::Level;

// The number with one more digit, where that fits 64 bits.
fn with_digit(number: u64, digit: u8) -> Option<u64>
    ensures digit { IfSome result (λ more. IsDigit digit) }
    ensures some { IfSome result (λ more. more ≡ 10 * number + (digit - 48)) }
    ensures bounded { IfSome result (λ more. more < 18446744073709551616) }
    ensures none { IsNone result → IsDigit digit → 18446744073709551616 ≤ 10 * number + (digit - 48) }
{
    if !digit.is_ascii_digit() {
        return None;
    }
    number.checked_mul(10)?.checked_add(u64::from(digit - b'0'))
}

/// The number that the digits spell, where it fits 64 bits.
pub fn number(part: &[u8]) -> Option<u64>
    ensures some { IfSome result (λ n. IsLongWord part.now n) }
    ensures none { IsNone result → (n : ℕ) → ¬ (IsLongWord part.now n) }
{
    if part.is_empty() {
        return None;
    }
    let mut number: u64 = 0;
    for digit in part {
        number = with_digit(number, *digit)?;
    }
    Some(number)
}

/// The number that the digits spell, where it fits 32 bits.
pub fn word(part: &[u8]) -> Option<u32>
    ensures some { IfSome result (λ n. IsWord part.now n) }
    ensures none { IsNone result → (n : ℕ) → ¬ (IsWord part.now n) }
{
    let number = number(part)?;
    u32::try_from(number).ok()
}

/// The number that the digits spell, where it is from 1 to this one.
pub fn up_to(most: u32, part: &[u8]) -> Option<u32>
    ensures some { IfSome result (λ n. IsUpTo most part.now n) }
    ensures none { IsNone result → (n : ℕ) → ¬ (IsUpTo most part.now n) }
{
    let number = word(part)?;
    if number == 0 || number > most {
        return None;
    }
    Some(number)
}

/// The level that the word names.
pub fn level_of(word: &str) -> Option<Level>
    ensures some { IfSome result (λ level. word.now ≡ level_word level) }
    ensures none { IsNone result → (level : Served) → word.now ≢ level_word level }
{
    if word == "rc" {
        Some(Level::Rc)
    } else if word == "ra" {
        Some(Level::Ra)
    } else if word == "cc" {
        Some(Level::Cc)
    } else {
        None
    }
}
