// Lists of numbers, read from a word of the command line.
ghost use Rattle.std.specs.Prelude.{◌≡◌, ◌++◌, ◌∷◌, ℕ, List, Contains, IfOk, IfSome, IsNone};
ghost use Rattle.command_line.specs.Numbers.{Lists};

use crate::numbers::word;
use cell_base::{Items, Memory};
use std::alloc::Global;

// What stands before the first comma, and what after it.
fn at_comma(text: &[u8]) -> Option<(&[u8], &[u8])>
    ensures some { IfSome result (λ x. text.now ≡ x.0.now ++ 44 ∷ x.1.now) }
    ensures no_comma { IfSome result (λ x. ¬ (Contains x.0.now 44)) }
    ensures none { IsNone result → ¬ (Contains text.now 44) }
{
    let end = text.iter().position(|byte| *byte == b',')?;
    Some((&text[..end], &text[end + 1..]))
}

/// The numbers of a list.
pub fn words_of(alloc: Global, text: &[u8]) -> Result<Option<Items<u32>>, Memory>
    ensures some { IfOk result (λ found. IfSome found (λ words. Lists text.now words)) }
    ensures none { IfOk result (λ found. IsNone found → (words : List ℕ) → ¬ (Lists text.now words)) }
{
    let mut words = Items::new(alloc);
    let mut rest = text;
    while let Some((front, after)) = at_comma(rest) {
        let Some(number) = word(front) else {
            return Ok(None);
        };
        words.push(number)?;
        rest = after;
    }
    let Some(number) = word(rest) else {
        return Ok(None);
    };
    words.push(number)?;
    Ok(Some(words))
}
