// Events of sessions outside of transactions.
ghost use Rattle.std.specs.Prelude.{◌<◌, ◌↔◌, IsTrue, IfOk, Contains, length};
ghost use Rattle.right_logs.specs.Passes.{Goes, Stands};

use crate::open_reads::SessionReads;
use crate::pass::Pass;
use crate::places::note_place;
use crate::seats::{is_idle, is_open};
use cell_base::{Memory, Text};
use history_check::{PendingWrites, SessionNote, close_session};
use history_core::Event;
use order_test::Places;

/// The most sessions of a history whose transactions have clocks: each clock has a number for each session.
const MOST_CLOCKED: u32 = 256;

/// Whether there are clocks, and still are once the session has opened.
fn keeps_clocks(clocked: bool, session: u32) -> bool
    ensures { IsTrue result → IsTrue clocked }
{
    clocked && session <= MOST_CLOCKED
}

/// Takes the event that opens a session.
pub fn take_open(pass: &mut Pass, places: &Places, session: u32) -> Result<bool, Memory>
    requires stands { Stands places.now.at.items pass.old }
    requires few { length pass.old.values < 2147483644 }
    ensures { IfOk result (λ goes. IsTrue goes → Goes places.now.at.items (Event.Open session) pass.old pass.new) }
{
    if session as usize != pass.session_notes.len() + 1 {
        return Ok(false);
    }
    pass.session_notes.push(SessionNote {
        is_open: true,
        pending: None,
    })?;
    pass.pending.push(PendingWrites {
        places: Vec::new(pass.alloc),
    })?;
    pass.last.push(0)?;
    pass.reads.push(SessionReads {
        notes: Vec::new(pass.alloc),
    })?;
    pass.clocked = keeps_clocks(pass.clocked, session);
    note_place(&mut pass.cells.numbers.of_events, &mut pass.values)?;
    Ok(true)
}

/// Takes the event that closes a session.
pub fn take_close(pass: &mut Pass, places: &Places, session: u32) -> Result<bool, Memory>
    requires stands { Stands places.now.at.items pass.old }
    requires few { length pass.old.values < 2147483644 }
    ensures { IfOk result (λ goes. IsTrue goes → Goes places.now.at.items (Event.Close session) pass.old pass.new) }
{
    if !is_idle(&pass.session_notes, session) {
        return Ok(false);
    }
    close_session(&mut pass.session_notes, session);
    note_place(&mut pass.cells.numbers.of_events, &mut pass.values)?;
    Ok(true)
}

/// Whether a table has the name.
fn has_name(names: &[Text], name: &Text) -> bool
    ensures { IsTrue result ↔ Contains names.now name.now }
{
    names.iter().any(|own| own.is_same(name))
}

/// Takes the event that defines a table.
pub fn take_define(
    pass: &mut Pass,
    places: &Places,
    session: u32,
    name: &Text,
) -> Result<bool, Memory>
    requires stands { Stands places.now.at.items pass.old }
    requires few { length pass.old.values < 2147483644 }
    ensures { IfOk result (λ goes. IsTrue goes → Goes places.now.at.items (Event.Define session name.now) pass.old pass.new) }
{
    if !is_open(&pass.session_notes, session) {
        return Ok(false);
    }
    if has_name(&pass.names, name) {
        return Ok(false);
    }
    pass.names.push(name.copy(pass.alloc)?)?;
    note_place(&mut pass.cells.numbers.of_events, &mut pass.values)?;
    Ok(true)
}

/// Takes a look at the number of tables.
pub fn take_look(
    pass: &mut Pass,
    places: &Places,
    session: u32,
    tables: u32,
) -> Result<bool, Memory>
    requires stands { Stands places.now.at.items pass.old }
    requires few { length pass.old.values < 2147483644 }
    ensures { IfOk result (λ goes. IsTrue goes → Goes places.now.at.items (Event.Look session tables) pass.old pass.new) }
{
    if !is_open(&pass.session_notes, session) {
        return Ok(false);
    }
    if tables as usize != pass.names.len() {
        return Ok(false);
    }
    note_place(&mut pass.cells.numbers.of_events, &mut pass.values)?;
    Ok(true)
}

/// Takes an event that shows its own number.
pub fn take_show(
    pass: &mut Pass,
    places: &Places,
    session: u32,
    number: u32,
) -> Result<bool, Memory>
    requires stands { Stands places.now.at.items pass.old }
    requires few { length pass.old.values < 2147483644 }
    ensures { IfOk result (λ goes. IsTrue goes → Goes places.now.at.items (Event.Show session number) pass.old pass.new) }
{
    if !is_open(&pass.session_notes, session) {
        return Ok(false);
    }
    if number as usize != pass.values.len() + 1 {
        return Ok(false);
    }
    note_place(&mut pass.cells.numbers.of_events, &mut pass.values)?;
    Ok(true)
}
