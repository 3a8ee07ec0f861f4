// What the text of an argument says.
ghost use Rattle.std.specs.Prelude.{ℕ, option_map, IfSome, IsNone, IsSomeAnd};
ghost use Rattle.cell_base.specs.declared.level.Level.{Level as Served};
ghost use Rattle.command_line.specs.Numbers.{IsLevelWord, IsLongWord, IsUpTo};
ghost use Rattle.command_line.specs.Commands.{IsOr};

use crate::numbers::{level_of, number, up_to};
use cell_base::Level;

/// The level that the text names.
pub fn level_given(given: Option<&str>) -> Option<Level>
    ensures some { IfSome result (λ level. IsSomeAnd (option_map (λ s. s.now) given.entry) (λ text. IsLevelWord text level)) }
    ensures none { IsNone result → (level : Served) → ¬ (IsSomeAnd (option_map (λ s. s.now) given.entry) (λ text. IsLevelWord text level)) }
{
    level_of(given?)
}

/// The number that the text spells, where it fits 64 bits.
pub fn number_given(given: Option<&str>) -> Option<u64>
    ensures some { IfSome result (λ n. IsSomeAnd (option_map (λ s. s.now) given.entry) (λ text. IsLongWord text n)) }
    ensures none { IsNone result → (n : ℕ) → ¬ (IsSomeAnd (option_map (λ s. s.now) given.entry) (λ text. IsLongWord text n)) }
{
    number(given?.as_bytes())
}

/// The number that the text spells, where it is from 1 to this one.
pub fn up_to_given(most: u32, given: Option<&str>) -> Option<u32>
    ensures some { IfSome result (λ n. IsSomeAnd (option_map (λ s. s.now) given.entry) (λ text. IsUpTo most text n)) }
    ensures none { IsNone result → (n : ℕ) → ¬ (IsSomeAnd (option_map (λ s. s.now) given.entry) (λ text. IsUpTo most text n)) }
{
    up_to(most, given?.as_bytes())
}

/// The level that the text names, and this one where there is no text.
pub fn level_or(default: Level, given: Option<&str>) -> Option<Level>
    ensures some { IfSome result (λ level. IsOr default IsLevelWord (option_map (λ s. s.now) given.entry) level) }
    ensures none { IsNone result → (level : Served) → ¬ (IsOr default IsLevelWord (option_map (λ s. s.now) given.entry) level) }
{
    match given {
        Some(text) => level_of(text),
        None => Some(default),
    }
}

/// The number that the text spells, where it fits 64 bits, and this one where there is no text.
pub fn number_or(default: u64, given: Option<&str>) -> Option<u64>
    ensures some { IfSome result (λ n. IsOr default IsLongWord (option_map (λ s. s.now) given.entry) n) }
    ensures none { IsNone result → (n : ℕ) → ¬ (IsOr default IsLongWord (option_map (λ s. s.now) given.entry) n) }
{
    match given {
        Some(text) => number(text.as_bytes()),
        None => Some(default),
    }
}

/// The number that the text spells, where it is from 1 to this one, and the default where there is no text.
pub fn up_to_or(default: u32, most: u32, given: Option<&str>) -> Option<u32>
    ensures some { IfSome result (λ n. IsOr default (IsUpTo most) (option_map (λ s. s.now) given.entry) n) }
    ensures none { IsNone result → (n : ℕ) → ¬ (IsOr default (IsUpTo most) (option_map (λ s. s.now) given.entry) n) }
{
    match given {
        Some(text) => up_to(most, text.as_bytes()),
        None => Some(default),
    }
}
