// The initial state of a trace, with indexes of its cells and keys.
ghost use Rattle.std.specs.Prelude.{◌≡◌, ◌<◌, ◌↔◌, length, IsTrue, IfOk, OnOk, Any};
ghost use Rattle.cell_writers.specs.Writers.{AreAscending};
ghost use Rattle.history_check.specs.TableKeys.{AreKept};
ghost use Rattle.history_check.specs.Rows.{AreAtPlaces, GainsPlace, HasValueAt};

use crate::table_keys::{TableKeys, new_keys, note_keys};
use cell_base::{Cell, Memory, Value};
use cell_writers::{CellWriters, new_writers, note_writes, writers_at};
use std::alloc::Global;
use std::marker::Model;

/// The initial state of a trace, with the places of each cell in it, and the keys of each table. Contracts see the list of its cells with
/// their values.
#[derive(Debug, Drop)]
pub struct Rows<'a> {
    cells: &'a [(Cell, Value)],
    places: CellWriters,
    keys: TableKeys,
}

impl<'a> Model for Rows<'a> {
    ghost use Rattle.std.specs.Prelude.{List};
    ghost use Rattle.cell_base.specs.declared.cell.Cell.{Cell};
    ghost use Rattle.cell_base.specs.declared.value.Value.{Value as CellValue};
    ghost use Rattle.history_check.specs.TableKeys.{AreKept};
    ghost use Rattle.history_check.specs.Rows.{AreAtPlaces};

    ghost Value = { List (Cell × CellValue) };

    ghost view = { λ r. r.cells.now };

    ghost invariant = { λ r. AreAtPlaces r.cells.now r.places × AreKept r.keys r.cells.now };
}

impl<'a> Rows<'a> {
    /// The initial state of these cells. As many as 2 ^ 32 of them are refused as out of memory.
    pub fn new(alloc: Global, cells: &'a [(Cell, Value)]) -> Result<Rows<'a>, Memory>
        ensures { IfOk result (λ rows. rows ≡ cells.now) }
    {
        if cells.len() >= 4_294_967_296 {
            return Err(Memory);
        }
        let places = places_of(alloc, cells)?;
        let mut keys = new_keys(alloc);
        note_keys(&mut keys, cells)?;
        Ok(Rows {
            cells,
            places,
            keys,
        })
    }

    /// Whether it has the cell.
    pub fn has_cell(&self, cell: &Cell) -> bool
        ensures { IsTrue result ↔ Any (λ e. e.0 ≡ cell.now) self.now }
    {
        if writers_at(&self.places, cell).is_empty() {
            return false;
        }
        true
    }

    /// Whether it has the value at the cell.
    pub fn holds(&self, cell: &Cell, value: &Value) -> bool
        ensures { IsTrue result ↔ Any (λ e. (e.0 ≡ cell.now) × (e.1 ≡ value.now)) self.now }
    {
        any_value(self.cells, writers_at(&self.places, cell), value)
    }

    /// The keys of its rows.
    pub fn keys(&self) -> &TableKeys
        ensures { AreKept result.now self.now }
    {
        &self.keys
    }
}

/// Notes the place at the cell that stands there.
fn note_place(places: &mut CellWriters, cells: &[(Cell, Value)], at: usize) -> Result<(), Memory>
    requires ascending { AreAscending places.old }
    requires within { at < length cells.now }
    requires few { at < 4294967296 }
    ensures ascending { AreAscending places.new }
    ensures ok { OnOk result (GainsPlace cells.now at places.old places.new) }
{
    let piece = &cells[at..at + 1];
    note_writes(places, piece, at as u32)
}

/// Where each cell stands.
fn places_of(alloc: Global, cells: &[(Cell, Value)]) -> Result<CellWriters, Memory>
    requires { length cells.now < 4294967296 }
    ensures { IfOk result (AreAtPlaces cells.now) }
{
    let mut places = new_writers(alloc);
    for at in 0..cells.len() {
        note_place(&mut places, cells, at)?;
    }
    Ok(places)
}

/// Whether the value stands at the place.
fn has_value_at(cells: &[(Cell, Value)], place: u32, value: &Value) -> bool
    ensures { IsTrue result ↔ HasValueAt cells.now value.now place }
{
    let at = place as usize;
    if at >= cells.len() {
        return false;
    }
    let entry = &cells[at];
    entry.1.is_same(value)
}

/// Whether the value stands at one of the places.
fn any_value(cells: &[(Cell, Value)], places: &[u32], value: &Value) -> bool
    ensures { IsTrue result ↔ Any (HasValueAt cells.now value.now) places.now }
{
    places
        .iter()
        .any(|place| has_value_at(cells, *place, value))
}
