// What is light of a history and of an order of it that is judged.
use crate::glance::Glance;
use crate::places::Places;
use crate::reaches::CellReaches;
use cell_writers::CellNotes;
use history_core::Event;

/// A history and an order of its transactions, and what is light of both: where each transaction stands in the order, the committed writers of
/// each cell, what one pass over the events finds, and how far the writers reach.
#[derive(Clone, Copy, Debug)]
pub struct Survey<'a> {
    pub events: &'a [Event],
    pub order: &'a [u32],
    pub places: &'a Places,
    pub cells: &'a CellNotes,
    pub glance: &'a Glance,
    pub reaches: &'a CellReaches,
}
