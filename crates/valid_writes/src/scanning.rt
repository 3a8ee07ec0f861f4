// A scan of a table.
ghost use Rattle.std.specs.Prelude.{◌≡◌, ◌<◌, length, Some, Err, IfOk, OnErr};
ghost use Rattle.history_core.specs.declared.fault.Limit.{Limit};
ghost use Rattle.history_core.specs.Legal.{full_load};
ghost use Rattle.history_core.specs.Legal.{IsKeyList};
ghost use Rattle.valid_writes.specs.declared.desk.Stage.TheVariants as stages;
ghost use Rattle.valid_writes.specs.Desk.{IsDesk, GoesTo, Stays};

use crate::append::append;
use crate::desk::Desk;
use crate::kept::load;
use cell_base::{Items, Key};
use history_core::{BookFault, Event, Limit, copy_keys};

/// Lists the keys of a table whose rows are there from the start, or that a committed transaction or the pending one has made
/// or removed.
pub fn scan_table(desk: &mut Desk, table: u32) -> Result<Items<Key>, BookFault>
    requires kept { IsDesk desk.old }
    requires pending { desk.old.stage ≡ stages.Pending }
    requires defined { table < length desk.old.store.history.tables }
    ensures kept { IsDesk desk.new }
    ensures ok { IfOk result (λ keys. GoesTo desk.old (Event.Scan desk.old.session table keys) desk.old.session stages.Pending desk.new) }
    ensures listed { IfOk result IsKeyList }
    ensures full { (limit : Limit) → result ≡ Err (BookFault.Full limit) → full_load desk.new.store.history.initial desk.new.store.history.events ≡ Some limit }
    ensures err { OnErr result (Stays desk.old desk.new) }
{
    if load(&desk.store) >= 1_048_576 {
        return Err(BookFault::Full(Limit::Load));
    }
    let session = desk.session;
    let Ok(keys) = desk
        .store
        .history
        .listed_keys(desk.store.alloc, session, table)
    else {
        return Err(BookFault::Memory);
    };
    let Ok(told) = copy_keys(desk.store.alloc, keys.as_slice()) else {
        return Err(BookFault::Memory);
    };
    let event = Event::Scan {
        session,
        table,
        keys,
    };
    match append(&mut desk.store, event) {
        Ok(()) => Ok(told),
        Err(fault) => Err(fault),
    }
}
