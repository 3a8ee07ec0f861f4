// What no clause says: that the calls succeed with ample memory, and values found by hand.
ghost use Rattle.std.specs.Prelude.{◌≡◌, pos, [], ◌∷◌, take, codes, IfOk, OnOk};
ghost use Rattle.history_cases.specs.WorkedRow.{row_written, row_read};

use crate::buffer::find_all;
use crate::cells::{Found, Lit, Spot};
use crate::steps::right;
use cell_base::{Items, Key, Level, Memory, Value};
use held_values::without;
use history_core::{BookFault, Event, History, InitialState, Txn, TxnState};
use std::alloc::Global;
use std::test::Fail;
use table_samples::{field, presence, table};

fn was_written(history: &History) -> bool {
    history.load() == 9
        && history.begun() == 1
        && history.pending(1).is_none()
        && history.tables().len() == 1
}

fn was_read(history: &History) -> bool {
    history.events().len() == 16 && history.load() == 17 && history.begun() == 2
}

const WRITTEN: &[Found] = &[
    (Spot::Presence(1), Some(Lit::Flag(true))),
    (Spot::Field(1, 1), Some(Lit::Int(10))),
];

fn has_written(txn: &Txn) -> bool {
    txn.level == Level::Cc && txn.state == TxnState::Committed && txn.seen.len() == 1
}

fn is_first(txn: &Txn) -> Result<(), Fail> {
    right("first transaction", has_written(txn))?;
    find_all(&txn.buffer, "written", WRITTEN)
}

fn is_second(txn: &Txn) -> bool {
    txn.level == Level::Rc
        && txn.state == TxnState::RolledBack
        && txn.seen.len() == 3
        && txn.buffer.writes().len() == 0
}

/// A session writes a row in one transaction and reads it back in the next, at another level: `INSERT INTO t VALUES (1, 10)`, then
/// `SELECT v FROM t WHERE k = 1` with the words 1 and 7.
fn write_and_read(alloc: Global, history: &mut History) -> Result<(), Fail>
    requires events { history.old.events ≡ [] }
    requires initial { history.old.initial ≡ [] }
{
    write_row(alloc, history)?;
    right("written", was_written(history))?;
    read_row(alloc, history)?;
    right("read", was_read(history))?;
    is_first(history.txn(1))?;
    right("second transaction", is_second(history.txn(2)))
}

#[test]
fn a_row_is_written_and_read_back(rt: HostRuntime) -> Result<(), Fail> {
    let mut history = History::new(rt.alloc(), Level::Rc, InitialState::empty(rt.alloc()));
    let came = write_and_read(rt.alloc(), &mut history);
    without(history, came)
}

/// The first transaction, with the session and the table before it: nine events.
fn write_row(alloc: Global, history: &mut History) -> Result<(), BookFault>
    requires events { history.old.events ≡ [] }
    requires initial { history.old.initial ≡ [] }
    ensures events { OnOk result (history.new.events ≡ row_written (codes "t") (Key.Int (pos 1)) (Value.Int (pos 10))) }
    ensures initial { OnOk result (history.new.initial ≡ []) }
{
    start_session(alloc, history)?;
    make_row(history)?;
    fill_row(history)
}

/// Three of the events.
fn start_session(alloc: Global, history: &mut History) -> Result<(), BookFault>
    requires events { history.old.events ≡ [] }
    requires initial { history.old.initial ≡ [] }
    ensures events { OnOk result (history.new.events ≡ take 3 (row_written (codes "t") (Key.Int (pos 1)) (Value.Int (pos 10)))) }
    ensures initial { OnOk result (history.new.initial ≡ []) }
{
    history.push(Event::Open { session: 1 })?;
    history.push_define(1, table(alloc)?)?;
    history.push(Event::Look {
        session: 1,
        tables: 1,
    })
}

/// Three more.
fn make_row(history: &mut History) -> Result<(), BookFault>
    requires events { history.old.events ≡ take 3 (row_written (codes "t") (Key.Int (pos 1)) (Value.Int (pos 10))) }
    requires initial { history.old.initial ≡ [] }
    ensures events { OnOk result (history.new.events ≡ take 6 (row_written (codes "t") (Key.Int (pos 1)) (Value.Int (pos 10)))) }
    ensures initial { OnOk result (history.new.initial ≡ []) }
{
    history.push(Event::Begin {
        session: 1,
        level: Level::Cc,
    })?;
    history.push(Event::Read {
        session: 1,
        cell: presence(),
        source: 0,
        count: 1,
        word: 0,
        value: Value::Flag(false),
    })?;
    history.push(Event::Write {
        session: 1,
        cell: presence(),
        value: Value::Flag(true),
    })
}

/// The last three.
fn fill_row(history: &mut History) -> Result<(), BookFault>
    requires events { history.old.events ≡ take 6 (row_written (codes "t") (Key.Int (pos 1)) (Value.Int (pos 10))) }
    requires initial { history.old.initial ≡ [] }
    ensures events { OnOk result (history.new.events ≡ row_written (codes "t") (Key.Int (pos 1)) (Value.Int (pos 10))) }
    ensures initial { OnOk result (history.new.initial ≡ []) }
{
    history.push(Event::Write {
        session: 1,
        cell: field(),
        value: Value::Int(10),
    })?;
    history.push(Event::Own {
        session: 1,
        cell: field(),
        value: Value::Int(10),
    })?;
    history.end(Event::Commit { session: 1 });
    Ok(())
}

/// The second transaction, and the end of the session: seven events.
fn read_row(alloc: Global, history: &mut History) -> Result<(), BookFault>
    requires events { history.old.events ≡ row_written (codes "t") (Key.Int (pos 1)) (Value.Int (pos 10)) }
    requires initial { history.old.initial ≡ [] }
    ensures { OnOk result (history.new.events ≡ row_read (codes "t") (Key.Int (pos 1)) (Value.Int (pos 10))) }
{
    read_cells(history)?;
    end_session(alloc, history)
}

/// Three of the events.
fn read_cells(history: &mut History) -> Result<(), BookFault>
    requires events { history.old.events ≡ row_written (codes "t") (Key.Int (pos 1)) (Value.Int (pos 10)) }
    requires initial { history.old.initial ≡ [] }
    ensures events { OnOk result (history.new.events ≡ take 12 (row_read (codes "t") (Key.Int (pos 1)) (Value.Int (pos 10)))) }
    ensures initial { OnOk result (history.new.initial ≡ []) }
{
    history.push(Event::Begin {
        session: 1,
        level: Level::Rc,
    })?;
    history.push(Event::Read {
        session: 1,
        cell: presence(),
        source: 1,
        count: 2,
        word: 1,
        value: Value::Flag(true),
    })?;
    history.push(Event::Read {
        session: 1,
        cell: field(),
        source: 1,
        count: 1,
        word: 7,
        value: Value::Int(10),
    })
}

/// The last four.
fn end_session(alloc: Global, history: &mut History) -> Result<(), BookFault>
    requires events { history.old.events ≡ take 12 (row_read (codes "t") (Key.Int (pos 1)) (Value.Int (pos 10))) }
    requires initial { history.old.initial ≡ [] }
    ensures { OnOk result (history.new.events ≡ row_read (codes "t") (Key.Int (pos 1)) (Value.Int (pos 10))) }
{
    history.push(Event::Scan {
        session: 1,
        table: 0,
        keys: one_key(alloc)?,
    })?;
    history.push(Event::Rollback { session: 1 })?;
    history.push(Event::Show {
        session: 1,
        number: 15,
    })?;
    history.push(Event::Close { session: 1 })
}

fn one_key(alloc: Global) -> Result<Items<Key>, Memory>
    ensures { IfOk result (λ keys. keys ≡ Key.Int (pos 1) ∷ []) }
{
    let mut keys = Items::new(alloc);
    keys.push(Key::Int(1))?;
    Ok(keys)
}
