// Steps of several sessions, one after another, in one store.
ghost use Rattle.std.specs.Prelude.{◌≡◌, ◌↔◌, IsTrue};
ghost use Rattle.history_book.specs.Book.{IsIdle, IsInTransaction, HasTable};
ghost use Rattle.history_core.specs.Events.{table_of as table_in};
ghost use Rattle.history_core.specs.Initial.{IsStorable};

use cell_base::{Cell, Key, Level, Value};
use created_tables::table_of;
use held_values::{beside, kept, let_go, without};
use history_book::Book;
use history_core::{BookFault, History, InitialState};
use seat_samples::{Stop, busy_seat, idle_seat, misplaced, open_next, touch_by, with_table};
use std::alloc::Global;
use valid_writes::{SeatBook, Store};

/// A cell of one of the tables, each with the key k and the column v: the table's number and the key.
#[derive(Clone, Copy)]
pub enum Spot {
    /// Whether the row is there.
    Presence(u32, i64),
    /// Its column v.
    Field(u32, i64),
}

impl Spot {
    /// The cell.
    pub fn cell(self) -> Cell {
        match self {
            Spot::Presence(table, key) => Cell::Presence(table, Key::Int(key)),
            Spot::Field(table, key) => Cell::Field(table, Key::Int(key), 1),
        }
    }

    /// What a write writes to it.
    fn value(self) -> Value
        ensures { IsStorable result }
    {
        match self {
            Spot::Presence(_, _) => Value::Flag(true),
            Spot::Field(_, _) => Value::Int(10),
        }
    }
}

/// What a session does next.
#[derive(Clone, Copy)]
pub enum Step {
    /// It starts a transaction.
    Begin,
    /// It scans the table.
    Scan(u32),
    /// It reads the cell from the transaction.
    Read(Spot, u32),
    /// It writes the cell.
    Write(Spot),
    /// It commits.
    Commit,
    /// It rolls back.
    RollBack,
}

/// A store with two tables, in which these steps were made, each by its session. Its transactions run at the level.
pub fn play(alloc: Global, level: Level, steps: &[(u32, Step)]) -> Result<Store, Stop> {
    let mut store = stage(alloc)?;
    for (session, step) in steps {
        store = make(store, level, *session, *step)?;
    }
    Ok(store)
}

/// Makes the step.
pub fn make(store: Store, level: Level, session: u32, step: Step) -> Result<Store, Stop> {
    match step {
        Step::Begin => begin(store, session, level),
        _ => go_on(store, session, step),
    }
}

/// The writes that the pending transaction of the session may read next.
pub fn offer(store: &Store, session: u32, cell: &Cell) -> Result<Vec<u32>, Stop> {
    match store.history().pending(session) {
        Some(_) => Ok(store.offer(session, cell)?),
        None => Err(misplaced(store.history())),
    }
}

/// A store with the tables t and u and three open sessions.
fn stage(alloc: Global) -> Result<Store, Stop> {
    let store = Store::new(alloc, Level::Rc, InitialState::empty(alloc))?;
    let store = open_next(open_next(with_table(alloc, store)?)?)?;
    define(
        alloc,
        store,
        b"CREATE TABLE u (k bigint PRIMARY KEY, v bigint)",
    )
}

fn define(alloc: Global, store: Store, text: &[u8]) -> Result<Store, Stop> {
    let mut book = idle_seat(store, 1)?;
    let defined = define_in(alloc, &mut book, text);
    kept(book.into_store(), defined)
}

fn define_in(alloc: Global, book: &mut SeatBook, text: &[u8]) -> Result<(), Stop>
    requires { IsIdle book.old.state }
{
    let table = table_of(alloc, text)?;
    let answer = let_go(book.define(&table));
    Ok(without(table, answer)?)
}

fn begin(store: Store, session: u32, level: Level) -> Result<Store, Stop> {
    let mut book = idle_seat(store, session)?;
    let begun = let_go(book.begin(level));
    Ok(kept(book.into_store(), begun)?)
}

/// Makes a step in the pending transaction.
fn go_on(store: Store, session: u32, step: Step) -> Result<Store, Stop> {
    let word = word_of(&store, session, step);
    let (store, word) = beside(store, word)?;
    let mut book = busy_seat(store, session)?;
    let made = act(&mut book, step, word);
    kept(book.into_store(), made)
}

/// The word that a read's source is picked by, and 0 for another step.
fn word_of(store: &Store, session: u32, step: Step) -> Result<u32, Stop> {
    match step {
        Step::Read(spot, source) => word_for(store, session, spot, source),
        _ => Ok(0),
    }
}

/// The word that picks the source.
fn word_for(store: &Store, session: u32, spot: Spot, source: u32) -> Result<u32, Stop> {
    let offer = offer(store, session, &spot.cell())?;
    let word = place_of(store.history(), offer.as_slice(), source);
    without(offer, word)
}

/// The place of the source in what is offered.
fn place_of(history: &History, offer: &[u32], source: u32) -> Result<u32, Stop> {
    let mut word = 0u32;
    for number in offer {
        if *number == source {
            return Ok(word);
        }
        word = word.saturating_add(1);
    }
    Err(misplaced(history))
}

/// Makes the step, a read by the word. A transaction can't begin in another one.
fn act(book: &mut SeatBook, step: Step, word: u32) -> Result<(), Stop>
    requires { IsInTransaction book.old.state }
{
    match step {
        Step::Begin => Err(misplaced(book.history())),
        Step::Scan(table) => scan(book, table),
        Step::Read(spot, _) => read(book, spot, word),
        Step::Write(spot) => write(book, spot.cell(), spot.value()),
        Step::Commit => {
            book.commit();
            Ok(())
        }
        Step::RollBack => {
            book.rollback();
            Ok(())
        }
    }
}

/// What a call came to.
fn told(came: Result<(), BookFault>) -> Result<(), Stop> {
    Ok(came?)
}

fn scan(book: &mut SeatBook, table: u32) -> Result<(), Stop>
    requires { IsInTransaction book.old.state }
{
    if !has_table(book, table) {
        return Err(misplaced(book.history()));
    }
    told(let_go(book.scan(table)))
}

fn read(book: &mut SeatBook, spot: Spot, word: u32) -> Result<(), Stop>
    requires { IsInTransaction book.old.state }
{
    let cell = spot.cell();
    let found = read_cell(book, &cell, word);
    without(cell, found)
}

fn read_cell(book: &mut SeatBook, cell: &Cell, word: u32) -> Result<(), Stop>
    requires { IsInTransaction book.old.state }
{
    if !has_table(book, table(cell)) {
        return Err(misplaced(book.history()));
    }
    told(let_go(touch_by(book, cell, word)))
}

fn write(book: &mut SeatBook, cell: Cell, value: Value) -> Result<(), Stop>
    requires pending { IsInTransaction book.old.state }
    requires storable { IsStorable value }
{
    if !has_table(book, table(&cell)) {
        let stop = misplaced(book.history());
        return without((cell, value), Err(stop));
    }
    told(book.write(cell, value))
}

/// Whether the table is defined.
fn has_table(book: &SeatBook, table: u32) -> bool
    ensures { IsTrue result ↔ HasTable book.now table }
{
    (table as usize) < book.history().tables().len()
}

/// The table of the cell.
fn table(cell: &Cell) -> u32
    ensures { result ≡ table_in cell.now }
{
    match cell {
        Cell::Presence(table, _) => *table,
        Cell::Field(table, _, _) => *table,
    }
}
