// What a runner does next.
ghost use Rattle.std.specs.Prelude.{◌≡◌, true};
ghost use Rattle.statement_course.specs.Course.{first_demand};
ghost use Rattle.cell_compile.specs.Plans.{rest_of};
ghost use Rattle.block_machine.specs.Calls.{asks_cells};

use crate::block::{Block, Pending};
use crate::ending::ReadyForQuery;
use crate::kept::Kept;
use crate::reply::{Fixed, StatementReply};
use cell_base::SqlState;
use cell_compile::Plan;
use outcome_replies::RowDescription;
use pg_framing::TransactionState;
use sql_tree::{Statement, Table};

/// A statement that runs in its transaction, and isn't done.
#[derive(Debug, Drop)]
pub struct Run {
    /// Its plan, which asks for a cell next.
    pub plan: Kept<Plan>,
    /// Whether its reply has its RowDescription.
    pub description: RowDescription,
    ghost asks: { asks_cells (first_demand (rest_of plan)) ≡ true },
}

/// The state in which a statement that failed leaves its session: no block is left open in it.
#[derive(Clone, Copy, Debug, PartialEq, Eq)]
pub enum ErrorState {
    /// Outside of a block.
    Idle,
    /// In a failed block.
    Failed,
}

/// The words of a statement that begins a block.
#[derive(Clone, Copy, Debug, PartialEq, Eq)]
pub enum StartWords {
    /// BEGIN.
    Begin,
    /// START TRANSACTION.
    StartTransaction,
}

/// What comes next. A block is the one in which the statement stands, or which it leaves.
#[derive(Debug, Drop)]
pub enum MessageStage {
    /// Nothing: the next statement stands in this block, in the same message or in another.
    Resting(Block),
    /// Nothing: a statement failed, and what follows in its message is skipped.
    Skipping(ErrorState),
    /// Nothing: the message is at its end. This is where it left the session.
    Over(TransactionState),
    /// A CREATE TABLE defines its table.
    Defining(Kept<Table>, Block),
    /// A statement looks at the tables.
    Looking(Kept<Statement>, RowDescription, Block),
    /// A look of its own brings the tables that are known up to date.
    Refreshing(Block),
    /// A statement that has its types begins the transaction of the implicit block.
    Beginning(Kept<Plan>, RowDescription),
    /// A statement asks for cells and writes them.
    Running(Run, Pending),
    /// A statement of these words begins a transaction.
    Starting(StartWords),
    /// SHOW monkey.history asks for its number.
    Showing(RowDescription, Block),
    /// COMMIT commits, and is then told this reply.
    Committing(Fixed),
    /// ROLLBACK rolls back, and is then told this reply.
    RollingBack(Fixed),
    /// The reply to a statement is held, which leaves this block.
    Telling(StatementReply, Block),
    /// The rollback of a statement that failed with this code.
    Undoing(SqlState, Pending),
    /// The ErrorResponse of a statement that failed with this code is held; the state in which it leaves its session.
    Failing(SqlState, ErrorState),
    /// The end of the message commits its own transaction.
    Finishing(ReadyForQuery),
    /// The ReadyForQuery that ends the message is held.
    Readying(TransactionState),
}
