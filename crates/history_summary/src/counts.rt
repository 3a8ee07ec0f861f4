// What is counted of a history's events.
ghost use Rattle.std.specs.Prelude.{◌≡◌};
ghost use Rattle.history_summary.specs.Walk.{HasRoom, CountsNext, is_weak};

use crate::latest::Weakness;
use history_core::Event;

/// The numbers of the summary line.
#[derive(Clone, Copy, Debug)]
pub struct Counts {
    /// The Open events.
    pub sessions: u64,
    /// The Begin events.
    pub transactions: u32,
    /// All events.
    pub events: u64,
    /// The external reads.
    pub reads: u64,
    /// The sum of the counts of offered writes over the reads.
    pub offered: u64,
    /// The reads whose source isn't the latest writer of the cell.
    pub weak: u64,
}

/// Nothing was counted.
pub fn none() -> Counts
    ensures { result ≡ record { sessions = 0; transactions = 0; events = 0; reads = 0; offered = 0; weak = 0 } }
{
    Counts {
        sessions: 0,
        transactions: 0,
        events: 0,
        reads: 0,
        offered: 0,
        weak: 0,
    }
}

/// Counts one more event.
pub fn count(counts: &mut Counts, event: &Event, weakness: Weakness)
    requires { HasRoom counts.old }
    ensures { CountsNext counts.old event.now (is_weak weakness) counts.new }
{
    counts.events += 1;
    match weakness {
        Weakness::Weak => counts.weak += 1,
        Weakness::Other => {}
    }
    match event {
        Event::Open { .. } => counts.sessions += 1,
        Event::Begin { .. } => counts.transactions += 1,
        Event::Read { count, .. } => {
            counts.reads += 1;
            counts.offered += u64::from(*count);
        }
        _ => {}
    }
}
