//! The cells that are written.

use cell_base::{Cell, Key};

/// How many columns the table has.
pub(crate) const COLUMNS: u32 = 32;

/// The cell of the place: the columns of a row follow one another.
pub(crate) fn cell(place: u32) -> Cell {
    Cell::Field(0, Key::Int(i64::from(place / COLUMNS)), place % COLUMNS)
}
