// The parts of an indexed history.
use crate::index::Index;
use crate::keys::KeyIndex;
use history_core::History;
use std::alloc::Global;

/// A history, for each cell the transactions that wrote it, and for each table the keys that stand in the initial state or were
/// written.
#[derive(Debug, Drop)]
pub struct Parts {
    pub alloc: Global,
    pub history: History,
    pub index: Index,
    pub keys: KeyIndex,
}
