// What is judged of a history.
use cell_base::{Cell, Level};
use graph_base::Edge;

/// Why one transaction has to stand before another in each commit order. Events are numbered from 1.
#[derive(Debug, Drop)]
pub enum Reason {
    /// They are neighbours in a session, or the first is the initial transaction and the second the first of its session.
    SessionOrder,
    /// The second reads from the first by this event; a scan reads from the initial transaction.
    Read(u32),
    /// The event read the cell from the second, and saw the first, which writes the cell too.
    Axiom(u32, Cell),
}

/// Two transactions, the first of which has to stand before the second, and why.
#[derive(Debug, Drop)]
pub struct Step {
    pub edge: Edge,
    pub reason: Reason,
}

/// The strongest level that a history meets, whatever levels it names, with its least commit order, and a cycle that shows why it doesn't meet
/// the next level.
#[derive(Debug, Drop)]
pub enum Judgement {
    /// It meets Causal Consistency, with this order.
    Top(Vec<u32>),
    /// It meets this level with this order, and the cycle shows that it doesn't meet the next level.
    Upto(Level, Vec<u32>, Vec<Step>),
    /// It doesn't even meet Read Committed, as the cycle shows.
    Nothing(Vec<Step>),
}
