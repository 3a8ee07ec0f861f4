// A history that stands by itself, as its text tells it.
use cell_base::{Cell, Items, Level, Value};
use history_core::Event;

/// A history as its text tells it, with an order of its transactions. It is plain data: nothing says that the events may
/// follow one another, or that the order is one.
#[derive(Debug, Drop)]
pub struct Trace {
    /// The level that the head names: the one which was served.
    pub level: Level,
    /// What the initial transaction has written: cells with their values. It is empty where no row was there from the start.
    pub initial: Items<(Cell, Value)>,
    /// The events, in order.
    pub events: Items<Event>,
    /// The transactions in the order that the history is said to meet.
    pub order: Items<u32>,
}
