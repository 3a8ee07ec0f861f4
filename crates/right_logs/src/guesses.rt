// Which number a cell most likely has.
ghost use Rattle.std.specs.Prelude.{◌≡◌, ◌≤◌, ◌<◌, Some, IsTrue, IfOk, length, slice_get};
ghost use Rattle.cell_writers.specs.Numbered.{TakesCell};

use cell_base::{Cell, Key, Memory};
use cell_writers::{CellNotes, take_cell};
use std::alloc::Global;

/// How many guesses are kept: four for each remainder of a key.
const GUESSES: usize = 4096;

/// For each remainder of a key and of a column the number of the cell that came last there. A guess is compared with the cell before it is taken,
/// so nothing rests on it.
#[derive(Debug, Drop)]
pub struct Guesses {
    numbers: Vec<u32>,
}

/// Guesses that say nothing.
pub fn no_guesses(alloc: Global) -> Result<Guesses, Memory> {
    let numbers = vec![in alloc; 0; GUESSES]?;
    Ok(Guesses { numbers })
}

/// Where the guesses of the cells of a key begin.
fn slot_of_key(key: &Key) -> usize
    ensures { result ≤ 4092 }
{
    match key {
        Key::Int(number) => (number.cast_unsigned() % 1024) as usize * 4,
        Key::Text(_) => 0,
    }
}

/// Where the guess of a cell stands.
fn slot_of(cell: &Cell) -> usize {
    match cell {
        Cell::Presence(_, key) => slot_of_key(key),
        Cell::Field(_, key, column) => slot_of_key(key) + (*column % 4) as usize,
    }
}

/// The guess that stands there.
fn guess_at(guesses: &Guesses, slot: usize) -> u32 {
    match guesses.numbers.get(slot) {
        Some(number) => *number,
        None => 0,
    }
}

/// Notes the number as the guess that stands there.
fn set_guess(guesses: &mut Guesses, slot: usize, number: u32) {
    if let Some(guess) = guesses.numbers.get_mut(slot) {
        *guess = number;
    }
}

/// Whether the number is that of the cell.
fn is_number_of(cells: &CellNotes, number: u32, cell: &Cell) -> bool
    ensures { IsTrue result → slice_get cells.now.numbers.cells.keys number ≡ Some cell.now }
{
    match cells.numbers.cells.get_index(number as usize) {
        Some(other) => other.is_same(cell),
        None => false,
    }
}

/// Numbers the cell of the next event, as `take_cell` does. Where the guess is right the cell isn't looked up.
pub fn number_cell(cells: &mut CellNotes, guesses: &mut Guesses, cell: &Cell) -> Result<u32, Memory>
    requires count { length cells.old.notes.items ≡ length cells.old.numbers.cells.keys }
    requires few { length cells.old.numbers.cells.keys < 4294967296 }
    ensures { IfOk result (λ number. TakesCell cells.old cell.now number cells.new) }
{
    let slot = slot_of(cell);
    let guess = guess_at(guesses, slot);
    if is_number_of(cells, guess, cell) {
        cells.numbers.of_events.push(guess)?;
        return Ok(guess);
    }
    let number = take_cell(cells, cell)?;
    set_guess(guesses, slot, number);
    Ok(number)
}
