// The initial state of a history: the rows that are there before any transaction.
ghost use Rattle.std.specs.Prelude.{◌≡◌, ◌<◌, ◌↔◌, [], Contains, IsSome, IfSome, IfNone};
ghost use Rattle.txn_buffer.specs.Buffer.{IsAbsent};
ghost use Rattle.history_core.specs.Initial.{IsInitialState, HoldsWholeRows, AreRowsOf, initial_load};

use crate::search::{place_of_cell, rows_of};
use crate::whole::{are_whole_rows, small_load};
use cell_base::{Cell, Value};
use sql_tree::Table;
use std::alloc::Global;
use std::marker::Model;

/// The initial state of a history: a map from cells to the values that the initial transaction has written. It has the presence of each row
/// that is there from the start, which is true, and each field of such a row but the key's, ascending as cells are ordered. Contracts see this list.
#[derive(Debug, Drop)]
pub struct InitialState {
    cells: Vec<(Cell, Value)>,
    load: u64,
}

impl Model for InitialState {
    ghost use Rattle.std.specs.Prelude.{◌≡◌, ◌<◌, List};
    ghost use Rattle.cell_base.specs.declared.cell.Cell.{Cell};
    ghost use Rattle.cell_base.specs.declared.value.Value.{Value as CellValue};
    ghost use Rattle.history_core.specs.Initial.{IsInitialState, initial_load};

    ghost Value = { List (Cell × CellValue) };

    ghost view = { λ s. s.cells.items };

    ghost invariant = { λ s. IsInitialState s.cells.items × (s.load ≡ initial_load s.cells.items) × (s.load < 1048576) };
}

impl InitialState {
    /// No row is there. Takes no memory.
    pub fn empty(alloc: Global) -> InitialState
        ensures { result ≡ [] }
    {
        InitialState {
            cells: Vec::new(alloc),
            load: 0,
        }
    }

    /// The initial state of these cells, ascending as cells are ordered, for these tables by their numbers. `None` comes exactly where they
    /// aren't one: the cells don't rise, a row isn't whole or no row of a table, a value can't be written, or the load is at least 1,048,576.
    pub fn new(tables: &[Table], cells: Vec<(Cell, Value)>) -> Option<InitialState>
        ensures some { IfSome result (λ initial. initial ≡ cells.items) }
        ensures exact { IsSome result ↔ (IsInitialState cells.items × HoldsWholeRows tables.now cells.items × (initial_load cells.items < 1048576)) }
    {
        if !are_whole_rows(tables, cells.as_slice()) {
            return None;
        }
        match small_load(cells.as_slice()) {
            Some(load) => Some(InitialState { cells, load }),
            None => None,
        }
    }

    /// The cells with their values, ascending as cells are ordered.
    pub fn cells(&self) -> &[(Cell, Value)]
        ensures items { result.now ≡ self.now }
        ensures is { IsInitialState self.now }
    {
        self.cells.as_slice()
    }

    /// The value of a cell, found by its place in the order. `None` where the initial state doesn't have the cell.
    pub fn value(&self, cell: &Cell) -> Option<&Value>
        ensures some { IfSome result (λ value. Contains self.now (cell.now, value.now)) }
        ensures none { IfNone result (IsAbsent self.now cell.now) }
    {
        match place_of_cell(self.cells.as_slice(), cell) {
            Some(at) => Some(&self.cells[at].1),
            None => None,
        }
    }

    /// The presences of a table's rows, ascending by key.
    pub fn rows(&self, table: u32) -> &[(Cell, Value)]
        ensures { AreRowsOf self.now table result.now }
    {
        rows_of(self.cells.as_slice(), table)
    }

    /// What it adds to the load.
    pub fn load(&self) -> u64
        ensures value { result ≡ initial_load self.now }
        ensures small { result < 1048576 }
        ensures is { IsInitialState self.now }
    {
        self.load
    }
}
