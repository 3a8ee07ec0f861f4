// Reads cells.
ghost use Rattle.std.specs.Prelude.{◌≡◌, ◌∷◌, ◌++◌, IfSome};
ghost use Rattle.history_log.specs.Spelling.{kind_word, cell_word};
ghost use Rattle.history_log.specs.Reading.{FitsCell, IsCell, IsCellAfter, Finds, Reads};
ghost use Rattle.history_log.specs.Compact.{compact_cell};

use crate::compact::CompactCell;
use crate::digits::{leading_number, number_before};
use crate::fields::{take_end, take_key, take_number};
use crate::misread::Misread;
use crate::parts::Parts;
use crate::words::after_byte;
use cell_base::Cell;
use std::alloc::Global;

/// The kinds of cells.
#[derive(Clone, Copy, Debug, PartialEq, Eq)]
pub enum CellKind {
    Presence,
    Field,
}

/// The kind that the letter says.
fn kind_of(letter: &[u8]) -> Option<CellKind>
    ensures { Finds (λ kind written. written ≡ kind_word kind) result letter.now }
{
    match letter {
        b"p" => Some(CellKind::Presence),
        b"f" => Some(CellKind::Field),
        _ => None,
    }
}

/// The cell: a letter, its numbers and its key, with points between them.
pub fn cell_of(alloc: Global, word: &[u8]) -> Result<Cell, Misread>
    ensures { Reads IsCell result word.now }
{
    let mut parts = Parts::new(word, b'.');
    let Some(letter) = parts.next() else {
        return Err(Misread::Form);
    };
    match kind_of(letter) {
        Some(CellKind::Presence) => presence_of(alloc, &mut parts),
        Some(CellKind::Field) => field_of(alloc, &mut parts),
        None => Err(Misread::Form),
    }
}

/// The presence of this table and key.
fn presence_of(alloc: Global, parts: &mut Parts) -> Result<Cell, Misread>
    ensures { Reads (IsCellAfter CellKind.Presence) result parts.old }
{
    let table = take_number(parts)?;
    let key = take_key(alloc, parts)?;
    take_end(parts)?;
    Ok(Cell::Presence(table, key))
}

/// The field of this table, key and column.
fn field_of(alloc: Global, parts: &mut Parts) -> Result<Cell, Misread>
    ensures { Reads (IsCellAfter CellKind.Field) result parts.old }
{
    let table = take_number(parts)?;
    let key = take_key(alloc, parts)?;
    let column = take_number(parts)?;
    take_end(parts)?;
    Ok(Cell::Field(table, key, column))
}

/// The presence, of a key of few digits, that the text begins with, and what stands after it. `None` says nothing of the text.
#[inline(always)]
fn leading_presence(text: &[u8]) -> Option<(CompactCell, &[u8])>
    ensures { IfSome result (λ x. FitsCell (compact_cell x.0) × (112 ∷ 46 ∷ text.now ≡ cell_word (compact_cell x.0) ++ x.1.now)) }
{
    let (table, rest) = number_before(text, b'.')?;
    let (key, rest) = leading_number(rest)?;
    Some((CompactCell::Presence(table, key), rest))
}

/// The field, of a key of few digits, that the text begins with, and what stands after it. `None` says nothing of the text.
#[inline(always)]
fn leading_field(text: &[u8]) -> Option<(CompactCell, &[u8])>
    ensures { IfSome result (λ x. FitsCell (compact_cell x.0) × (102 ∷ 46 ∷ text.now ≡ cell_word (compact_cell x.0) ++ x.1.now)) }
{
    let (table, rest) = number_before(text, b'.')?;
    let (key, rest) = number_before(rest, b'.')?;
    let (column, rest) = leading_number(rest)?;
    Some((CompactCell::Field(table, key, column), rest))
}

/// The cell, of a key of few digits, that the text begins with, and what stands after it. `None` says nothing of the text.
#[inline(always)]
pub fn leading_cell(text: &[u8]) -> Option<(CompactCell, &[u8])>
    ensures { IfSome result (λ x. FitsCell (compact_cell x.0) × (text.now ≡ cell_word (compact_cell x.0) ++ x.1.now)) }
{
    if let Some(rest) = after_byte(text, b'f') {
        return leading_field(after_byte(rest, b'.')?);
    }
    leading_presence(after_byte(after_byte(text, b'p')?, b'.')?)
}
