// The transaction of each session that began last.
ghost use Rattle.std.specs.Prelude.{◌≡◌, ℕ, OnOk};
ghost use Rattle.history_summary.specs.Walk.{number_at, SetsNumber};

use cell_base::Memory;
use std::alloc::Global;
use std::collections::HashMap;

/// For each session the number of its transaction that began last.
#[derive(Debug, Drop)]
pub struct Running {
    pub numbers: HashMap<u32, u32>,
}

/// No transaction. Takes no memory.
pub fn new(alloc: Global) -> Running
    ensures { (session : ℕ) → number_at result session ≡ 0 }
{
    Running {
        numbers: HashMap::new(alloc),
    }
}

/// The transaction of the session that began last, or 0.
pub fn number_of(running: &Running, session: u32) -> u32
    ensures { result ≡ number_at running.now session }
{
    match running.numbers.get(&session) {
        Some(number) => *number,
        None => 0,
    }
}

/// The transaction begins in the session.
pub fn set_number(running: &mut Running, session: u32, number: u32) -> Result<(), Memory>
    ensures { OnOk result (SetsNumber running.old session number running.new) }
{
    running.numbers.insert(session, number)?;
    Ok(())
}
