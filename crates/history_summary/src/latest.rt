// The committed writer of each cell with the latest Commit.
ghost use Rattle.std.specs.Prelude.{◌≡◌, IsTrue, ◌↔◌, OnOk};
ghost use Rattle.cell_base.specs.declared.cell.Cell.{Cell as CellData};
ghost use Rattle.history_summary.specs.Walk.{writer_at, SetsWriter, SetsWriters, IsStale, is_weak};

use cell_base::{Cell, Memory, Value};
use history_core::Event;
use indexmap::IndexMap;
use std::alloc::Global;

/// For each cell that a committed transaction wrote, the number of the one that committed last.
#[derive(Debug, Drop)]
pub struct Latest {
    pub alloc: Global,
    pub writers: IndexMap<Cell, u32>,
}

/// What an event is to the count of weak reads.
#[derive(Clone, Copy, Debug)]
pub enum Weakness {
    /// A read from another source than the latest writer of its cell.
    Weak,
    /// A read from that writer, or another event.
    Other,
}

/// No writer. Takes no memory.
pub fn new(alloc: Global) -> Latest
    ensures { (cell : CellData) → writer_at result cell ≡ 0 }
{
    Latest {
        alloc,
        writers: IndexMap::new(alloc),
    }
}

/// The latest writer of the cell, or 0 where none has committed.
fn writer_of(latest: &Latest, cell: &Cell) -> u32
    ensures { result ≡ writer_at latest.now cell.now }
{
    match latest.writers.get(cell) {
        Some(number) => *number,
        None => 0,
    }
}

/// Whether the event is a read from another source than the latest writer of its cell.
fn is_stale(latest: &Latest, event: &Event) -> bool
    ensures { IsTrue result ↔ IsStale latest.now event.now }
{
    match event {
        Event::Read { cell, source, .. } => *source != writer_of(latest, cell),
        _ => false,
    }
}

/// What the event is beside the latest writers.
pub fn weakness_of(latest: &Latest, event: &Event) -> Weakness
    ensures { IsTrue (is_weak result) ↔ IsStale latest.now event.now }
{
    if is_stale(latest, event) {
        Weakness::Weak
    } else {
        Weakness::Other
    }
}

/// Makes the transaction the latest writer of the cell.
fn set_writer(latest: &mut Latest, cell: &Cell, number: u32) -> Result<(), Memory>
    ensures { OnOk result (SetsWriter latest.old cell.now number latest.new) }
{
    match latest.writers.get_mut(cell) {
        Some(writer) => *writer = number,
        None => add_writer(latest, cell, number)?,
    }
    Ok(())
}

/// Puts in the first writer of the cell.
fn add_writer(latest: &mut Latest, cell: &Cell, number: u32) -> Result<(), Memory>
    ensures { OnOk result (SetsWriter latest.old cell.now number latest.new) }
{
    let key = cell.copy(latest.alloc)?;
    latest.writers.insert(key, number)?;
    Ok(())
}

/// Makes the transaction the latest writer of all cells that it wrote.
pub fn set_writers(latest: &mut Latest, writes: &[(Cell, Value)], number: u32) -> Result<(), Memory>
    ensures { OnOk result (SetsWriters latest.old writes.now number latest.new) }
{
    for entry in writes {
        set_writer(latest, &entry.0, number)?;
    }
    Ok(())
}
