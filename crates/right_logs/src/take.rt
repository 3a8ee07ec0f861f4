// One event.
ghost use Rattle.std.specs.Prelude.{◌<◌, IsTrue, IfOk, length};
ghost use Rattle.history_log.specs.Compact.{compact_read, compact_write, compact_own};
ghost use Rattle.right_logs.specs.Passes.{Goes, Stands};

use crate::accesses::{take_own, take_read, take_write};
use crate::pass::Pass;
use crate::places::has_room;
use crate::sessions::{take_close, take_define, take_look, take_open, take_show};
use crate::txns::{take_begin, take_commit, take_rollback};
use cell_base::Memory;
use held_values::without;
use history_core::Event;
use history_log::{CompactAccess, CompactRead};
use order_test::Places;

/// Takes the next event, where the pass shows that it is right. A scan never is.
pub fn take(pass: &mut Pass, places: &Places, event: &Event) -> Result<bool, Memory>
    requires { Stands places.now.at.items pass.old }
    ensures { IfOk result (λ goes. IsTrue goes → Goes places.now.at.items event.now pass.old pass.new) }
{
    if !has_room(&pass.values) {
        return Ok(false);
    }
    match event {
        Event::Read {
            session,
            cell,
            source,
            count,
            word,
            value,
        } => take_read(pass, places, *session, cell, *source, *count, *word, value),
        Event::Write {
            session,
            cell,
            value,
        } => take_write(pass, places, *session, cell, value),
        Event::Own {
            session,
            cell,
            value,
        } => take_own(pass, places, *session, cell, value),
        Event::Begin { session, level } => take_begin(pass, places, *session, *level),
        Event::Commit { session } => take_commit(pass, places, *session),
        Event::Rollback { session } => take_rollback(pass, places, *session),
        Event::Open { session } => take_open(pass, places, *session),
        Event::Close { session } => take_close(pass, places, *session),
        Event::Define { session, name } => take_define(pass, places, *session, name),
        Event::Look { session, tables } => take_look(pass, places, *session, *tables),
        Event::Show { session, number } => take_show(pass, places, *session, *number),
        Event::Scan { .. } => Ok(false),
    }
}

/// Takes an external read of few digits.
pub fn take_compact_read(
    pass: &mut Pass,
    places: &Places,
    read: CompactRead,
) -> Result<bool, Memory>
    requires stands { Stands places.now.at.items pass.old }
    requires few { length pass.old.values < 2147483644 }
    ensures { IfOk result (λ goes. IsTrue goes → Goes places.now.at.items (compact_read read) pass.old pass.new) }
{
    let cell = read.cell.cell();
    let value = read.value.value();
    let goes = take_read(
        pass,
        places,
        read.session,
        &cell,
        read.source,
        read.count,
        read.word,
        &value,
    );
    without((cell, value), goes)
}

/// Takes a write of few digits.
pub fn take_compact_write(
    pass: &mut Pass,
    places: &Places,
    write: CompactAccess,
) -> Result<bool, Memory>
    requires stands { Stands places.now.at.items pass.old }
    requires few { length pass.old.values < 2147483644 }
    ensures { IfOk result (λ goes. IsTrue goes → Goes places.now.at.items (compact_write write) pass.old pass.new) }
{
    let cell = write.cell.cell();
    let value = write.value.value();
    let goes = take_write(pass, places, write.session, &cell, &value);
    without((cell, value), goes)
}

/// Takes an internal read of few digits.
pub fn take_compact_own(
    pass: &mut Pass,
    places: &Places,
    own: CompactAccess,
) -> Result<bool, Memory>
    requires stands { Stands places.now.at.items pass.old }
    requires few { length pass.old.values < 2147483644 }
    ensures { IfOk result (λ goes. IsTrue goes → Goes places.now.at.items (compact_own own) pass.old pass.new) }
{
    let cell = own.cell.cell();
    let value = own.value.value();
    let goes = take_own(pass, places, own.session, &cell, &value);
    without((cell, value), goes)
}
