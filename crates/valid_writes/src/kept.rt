// The parts of a store.
ghost use Rattle.std.specs.Prelude.{◌≡◌, ◌≤◌, length};
ghost use Rattle.history_core.specs.Initial.{load_of};

use forced_rows::ForcedRows;
use indexed_history::IndexedHistory;
use sql_tree::Table;
use std::alloc::Global;

/// A history, the rows of its forced pairs, and how many sessions were opened.
#[derive(Debug, Drop)]
pub struct Kept {
    pub alloc: Global,
    pub history: IndexedHistory,
    pub rows: ForcedRows,
    pub sessions: u32,
}

/// What a read takes: the source that the word picks of the permitted list, and the length of that list.
#[derive(Clone, Copy, Debug)]
pub struct Choice {
    pub source: u32,
    pub count: u32,
}

/// The load of the history.
pub fn load(store: &Kept) -> u64
    ensures { result ≡ load_of store.now.history.initial store.now.history.events }
{
    store.history.history().load()
}

/// The tables, by their numbers from 0.
pub fn tables(store: &Kept) -> &[Table]
    ensures items { result.now ≡ store.now.history.tables }
    ensures few { length result.now ≤ 64 }
{
    store.history.history().tables()
}
