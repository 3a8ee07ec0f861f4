// What the records of transactions say: which have committed, and what the pending one of a session wrote.
ghost use Rattle.std.specs.Prelude.{◌≡◌, ◌↔◌, IsTrue, Contains, Any};
ghost use Rattle.cell_base.specs.declared.value.Value.{Value as CellValue};
ghost use Rattle.history_core.specs.Transactions.{IsCommitted};
ghost use Rattle.history_core.specs.Legal.{WroteItself};

use cell_base::Cell;
use history_core::{History, TxnState};
use txn_buffer::TxnBuffer;

/// Whether the transaction of the number has committed. The initial one never began, and a number that is still to begin hasn't.
pub fn has_committed(history: &History, number: u32) -> bool
    ensures { IsTrue result ↔ IsCommitted history.now.events number }
{
    if number == 0 {
        return false;
    }
    if number > history.begun() {
        return false;
    }
    is_committed(history.txn(number).state)
}

fn is_committed(state: TxnState) -> bool
    ensures { IsTrue result ↔ (state ≡ TxnState.Committed) }
{
    matches!(state, TxnState::Committed)
}

/// Whether one of the transactions has committed.
pub fn any_committed(history: &History, numbers: &[u32]) -> bool
    ensures { IsTrue result ↔ Any (λ n. IsCommitted history.now.events n) numbers.now }
{
    numbers.iter().any(|number| has_committed(history, *number))
}

/// Whether the buffer holds the cell.
fn writes_cell(buffer: &TxnBuffer, cell: &Cell) -> bool
    ensures { IsTrue result ↔ ((value : CellValue) × Contains buffer.now.writes (cell.now, value)) }
{
    match buffer.get(cell) {
        Some(_) => true,
        None => false,
    }
}

/// Whether the pending transaction of the session wrote the cell.
pub fn wrote_itself(history: &History, session: u32, cell: &Cell) -> bool
    ensures { IsTrue result ↔ WroteItself history.now.events session cell.now }
{
    let Some(number) = history.pending(session) else {
        return false;
    };
    writes_cell(&history.txn(number).buffer, cell)
}
