// A pending transaction.
ghost use Rattle.std.specs.Prelude.{◌≡◌};
ghost use Rattle.history_core.specs.Transactions.{IsPending, HasPending};
ghost use Rattle.forced_rows.specs.Sights.{IsReader};

use cell_base::Level;
use history_core::History;

/// A pending transaction.
#[derive(Clone, Copy, Debug)]
pub struct Reader {
    /// Its number.
    pub number: u32,
    /// Its session.
    pub session: u32,
    /// Its level.
    pub level: Level,
}

/// The number of the session's pending transaction.
fn pending_of(history: &History, session: u32) -> u32
    requires { HasPending history.now.events session }
    ensures { IsPending history.now.events result session }
{
    let Some(number) = history.pending(session) else {
        unreachable!()
    };
    number
}

/// The session's pending transaction.
pub fn reader_of(history: &History, session: u32) -> Reader
    requires { HasPending history.now.events session }
    ensures reader { IsReader history.now.events result }
    ensures session { result.session ≡ session }
{
    let number = pending_of(history, session);
    let txn = history.txn(number);
    Reader {
        number,
        session,
        level: txn.level,
    }
}
