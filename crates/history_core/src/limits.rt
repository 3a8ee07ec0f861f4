// The limits of a history: the load first, then the counts.
ghost use Rattle.std.specs.Prelude.{◌≡◌, if◌then◌else◌, nat_le, Some, None};
ghost use Rattle.history_core.specs.declared.event.Event.{Event};
ghost use Rattle.history_core.specs.declared.fault.Limit.{Limit};
ghost use Rattle.history_core.specs.Events.{defined};
ghost use Rattle.history_core.specs.Legal.{full_for, full_count};
ghost use Rattle.history_core.specs.Kept.{IsKept};

use crate::kept::{Kept, count_begun, count_defined, count_opened};
use crate::{Event, Limit};
use sql_tree::Table;

/// The greatest load that still takes an event is one below this.
const MOST_LOAD: u64 = 1_048_576;

/// The greatest number of sessions that a history opens.
const MOST_SESSIONS: u32 = 4_096;

/// The greatest number of transactions that a history begins.
const MOST_TRANSACTIONS: u32 = 65_535;

/// The greatest number of tables that a history defines.
const MOST_TABLES: usize = 64;

/// The limit that keeps the event out.
pub fn limit_for(kept: &Kept, event: &Event) -> Option<Limit>
    requires { IsKept kept.now }
    ensures { result ≡ full_for kept.now.initial kept.now.events.items event.now }
{
    match event {
        Event::Close { .. } | Event::Commit { .. } | Event::Rollback { .. } => None,
        _ => {
            if kept.load >= MOST_LOAD {
                Some(Limit::Load)
            } else {
                count_limit(kept, event)
            }
        }
    }
}

/// The limit that keeps a definition out.
pub fn define_limit(kept: &Kept, _session: u32, _table: &Table) -> Option<Limit>
    requires { IsKept kept.now }
    ensures { result ≡ full_for kept.now.initial kept.now.events.items (Event.Define _session _table.now.name) }
{
    if kept.load >= MOST_LOAD {
        return Some(Limit::Load);
    }
    table_limit(kept)
}

fn count_limit(kept: &Kept, event: &Event) -> Option<Limit>
    requires { IsKept kept.now }
    ensures { result ≡ full_count kept.now.events.items event.now }
{
    match event {
        Event::Open { .. } => {
            if count_opened(kept) >= MOST_SESSIONS {
                Some(Limit::Sessions)
            } else {
                None
            }
        }
        Event::Begin { .. } => {
            if count_begun(kept) >= MOST_TRANSACTIONS {
                Some(Limit::Transactions)
            } else {
                None
            }
        }
        Event::Define { .. } => table_limit(kept),
        _ => None,
    }
}

fn table_limit(kept: &Kept) -> Option<Limit>
    requires { IsKept kept.now }
    ensures { result ≡ (if nat_le 64 (defined kept.now.events.items) then Some Limit.Tables else None) }
{
    if count_defined(kept) >= MOST_TABLES {
        Some(Limit::Tables)
    } else {
        None
    }
}
