// A text cut at each place where one byte stands: lines at their line feeds, words at their blanks.
ghost use Rattle.std.specs.Prelude.{◌≡◌, ◌∷◌, ◌++◌, [], decimal, IfSome, IfNone, IsNone};
ghost use Rattle.history_log.specs.Cut.{Lacks, cut_at};
ghost use Rattle.history_log.specs.Spelling.{cell_word};
ghost use Rattle.history_log.specs.Reading.{IsU32, FitsCell};
ghost use Rattle.history_log.specs.Compact.{compact_cell};

use crate::cells::leading_cell;
use crate::compact::CompactCell;
use crate::digits::leading_number;
use std::marker::Model;

/// The parts of a text that are left. Contracts see the list of them; the last one ends where the text does.
#[derive(Debug, Drop)]
pub struct Parts<'a> {
    rest: Option<&'a [u8]>,
    separator: u8,
}

impl<'a> Model for Parts<'a> {
    ghost use Rattle.std.specs.Prelude.{List, ℕ, []};
    ghost use Rattle.std.specs.Option.{option_map_or};
    ghost use Rattle.history_log.specs.Cut.{cut_at};

    ghost Value = { List (List ℕ) };

    ghost view = { λ p. option_map_or (λ rest. cut_at p.separator rest.now) p.rest [] };
}

impl<'a> Parts<'a> {
    /// All parts of the text.
    pub fn new(text: &'a [u8], separator: u8) -> Parts<'a>
        ensures { result ≡ cut_at separator text.now }
    {
        Parts {
            rest: Some(text),
            separator,
        }
    }

    /// Takes the next part.
    pub fn next(&mut self) -> Option<&'a [u8]>
        ensures some { IfSome result (λ part. self.old ≡ part.now ∷ self.new) }
        ensures none { IfNone result (self.old ≡ []) }
    {
        let text = self.rest?;
        match first_part(text, self.separator) {
            Some((part, rest)) => {
                self.rest = Some(rest);
                Some(part)
            }
            None => {
                self.rest = None;
                Some(text)
            }
        }
    }

    /// Takes the next part, where it is a number of few digits. `None` takes nothing, and says nothing of the part.
    pub fn next_number(&mut self) -> Option<u32>
        ensures some { IfSome result (λ n. IsU32 n × (self.old ≡ decimal n ∷ self.new)) }
        ensures none { IsNone result → self.new ≡ self.old }
    {
        // (no digit is below 0)
        if self.separator >= b'0' {
            return None;
        }
        let text = self.rest?;
        let (number, rest) = leading_number(text)?;
        if rest.is_empty() {
            self.rest = None;
            return Some(number);
        }
        if rest[0] != self.separator {
            return None;
        }
        self.rest = Some(&rest[1..]);
        Some(number)
    }

    /// Takes the next part, where it is a cell with a key of few digits. `None` takes nothing, and says nothing of the part.
    pub fn next_cell(&mut self) -> Option<CompactCell>
        ensures some { IfSome result (λ cell. FitsCell (compact_cell cell) × (self.old ≡ cell_word (compact_cell cell) ∷ self.new)) }
        ensures none { IsNone result → self.new ≡ self.old }
    {
        if self.separator != b' ' {
            return None;
        }
        let text = self.rest?;
        let (cell, rest) = leading_cell(text)?;
        if rest.is_empty() {
            self.rest = None;
            return Some(cell);
        }
        if rest[0] != b' ' {
            return None;
        }
        self.rest = Some(&rest[1..]);
        Some(cell)
    }
}

/// What stands before the first place of the byte, and what after it.
pub fn first_part(text: &[u8], separator: u8) -> Option<(&[u8], &[u8])>
    ensures none { IsNone result → Lacks separator text.now }
    ensures some { IfSome result (λ x. text.now ≡ x.0.now ++ separator ∷ x.1.now) }
    ensures first { IfSome result (λ x. Lacks separator x.0.now) }
{
    let end = text.iter().position(|byte| *byte == separator)?;
    Some((&text[..end], &text[end + 1..]))
}
