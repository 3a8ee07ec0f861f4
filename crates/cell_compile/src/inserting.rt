// The presence of the keys of an INSERT.
ghost use Rattle.std.specs.Prelude.{◌≡◌, ◌+◌, ◌^◌, ◌≤◌, length};
ghost use Rattle.cell_compile.specs.Plans.{insertion_course, left_of, rest_of};
ghost use Rattle.cell_compile.specs.Plans as spec;

use crate::Plan;
use crate::ending::{reply, writing};
use crate::next::{Insertion, Next};
use cell_base::{Cell, SqlState, Value};
use statement_course::{Demand, Outcome};
use std::alloc::Global;
use table_reading::is_true;

/// Goes on with the presence of a key.
pub fn after_presence(alloc: Global, insertion: Insertion, present: &Value) -> Plan
    ensures course { rest_of result ≡ spec.after_presence insertion present.now }
    ensures few { left_of result ≤ 2 ^ 64 + length insertion.keys }
{
    let mut known = insertion;
    if is_true(present) {
        known.found = true;
    }
    next_presence(alloc, known)
}

/// Asks for the presence of the next key, or goes on when all are known.
pub fn next_presence(alloc: Global, insertion: Insertion) -> Plan
    ensures course { rest_of result ≡ insertion_course insertion }
    ensures few { left_of result ≤ 2 ^ 64 + length insertion.keys }
{
    let Insertion {
        table,
        keys,
        found,
        writes,
        count,
    } = insertion;
    match keys.split() {
        Some((key, others)) => {
            Plan::of(
                alloc,
                Demand::Touch(Cell::Presence(table, key)),
                Next::Inserts(Insertion {
                    table,
                    keys: others,
                    found,
                    writes,
                    count,
                }),
            )
        }
        None if found => reply(alloc, Outcome::Failed(SqlState::S23505)),
        None => writing(alloc, writes, Outcome::Inserted(count)),
    }
}
