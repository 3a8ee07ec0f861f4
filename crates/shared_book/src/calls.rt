// The calls of a book, as values that are taken into a turn.
use crate::place::Place;
use crate::seat::SeatCall;
use cell_base::{Cell, Items, Key, Level, Value};
use history_book::{Book, Words};
use history_core::{BookFault, DefineAnswer};
use sql_tree::Table;
use valid_writes::SeatBook;

/// Starts a session.
pub struct Open;

impl SeatCall<()> for Open {
    type Answer = Result<u32, BookFault>;

    ghost use Rattle.std.specs.Prelude.{◌≡◌};
    ghost use Rattle.history_book.specs.Book.{no_session};
    ghost use Rattle.shared_book.specs.Calls.{Opens};
    ghost use Rattle.shared_book.specs.Lifts.{opens_lift};

    ghost may = { λ _ tables state. state ≡ no_session };

    ghost does = { λ _ old _ answer new _. Opens old answer new };

    fn make(
        self,
        place: Place,
        book: &mut SeatBook,
        _: &mut (),
    ) -> (Place, Result<u32, BookFault>) {
        let Open = self;
        let answer = book.open();
        (place.opened(&answer), answer)
    }

    ghost may_later = { λ _ few many state le may. may };

    ghost lifts = { λ _ _ answer _ before x y own mine added state after lies does. opens_lift before x y own mine added state after lies answer does };
}

/// Ends the session.
pub struct Close;

impl SeatCall<()> for Close {
    type Answer = ();

    ghost use Rattle.history_book.specs.Book.{IsIdle};
    ghost use Rattle.shared_book.specs.Calls.{Closes};
    ghost use Rattle.shared_book.specs.Lifts.{closes_lift};

    ghost may = { λ _ tables state. IsIdle state };

    ghost does = { λ _ old _ answer new _. Closes old new };

    fn make(self, place: Place, book: &mut SeatBook, _: &mut ()) -> (Place, ()) {
        let Close = self;
        book.close();
        (Place::NoSession, ())
    }

    ghost may_later = { λ _ few many state le may. may };

    ghost lifts = { λ _ _ answer _ before x y own mine added state after lies does. closes_lift before x y own mine added state after lies does };
}

/// Looks at the tables from a number on.
pub struct Look {
    pub known: u32,
}

impl SeatCall<()> for Look {
    type Answer = Result<Items<Table>, BookFault>;

    ghost use Rattle.std.specs.Prelude.{◌≤◌};
    ghost use Rattle.history_book.specs.Book.{HasSession};
    ghost use Rattle.shared_book.specs.Calls.{Looks};
    ghost use Rattle.shared_book.specs.Lifts.{looks_lift, looks_later};

    ghost may = { λ call tables state. HasSession state × (call.known ≤ tables) };

    ghost does = { λ call old _ answer new _. Looks call.known old answer new };

    fn make(
        self,
        place: Place,
        book: &mut SeatBook,
        _: &mut (),
    ) -> (Place, Result<Items<Table>, BookFault>) {
        let Look { known } = self;
        (place, book.look(known))
    }

    ghost may_later = { λ call few many state le may. looks_later call.known few many state le may };

    ghost lifts = { λ call _ answer _ before x y own mine added state after lies does. looks_lift before x y own mine added state after lies call.known answer does };
}

/// Defines a table.
pub struct Define<'a> {
    pub table: &'a Table,
}

impl<'a> SeatCall<()> for Define<'a> {
    type Answer = Result<DefineAnswer, BookFault>;

    ghost use Rattle.sound_table.specs.Sound.{IsSound};
    ghost use Rattle.history_book.specs.Book.{HasSession};
    ghost use Rattle.shared_book.specs.Calls.{Defines};
    ghost use Rattle.shared_book.specs.Lifts.{defines_lift};

    ghost may = { λ call tables state. HasSession state × IsSound call.table.now };

    ghost does = { λ call old _ answer new _. Defines call.table.now old answer new };

    fn make(
        self,
        place: Place,
        book: &mut SeatBook,
        _: &mut (),
    ) -> (Place, Result<DefineAnswer, BookFault>) {
        let Define { table } = self;
        (place, book.define(table))
    }

    ghost may_later = { λ _ few many state le may. may };

    ghost lifts = { λ call _ answer _ before x y own mine added state after lies does. defines_lift before x y own mine added state after lies call.table.now answer does };
}

/// Starts a transaction at the level.
pub struct Begin {
    pub level: Level,
}

impl SeatCall<()> for Begin {
    type Answer = Result<u32, BookFault>;

    ghost use Rattle.history_book.specs.Book.{IsIdle};
    ghost use Rattle.shared_book.specs.Calls.{Begins};
    ghost use Rattle.shared_book.specs.Lifts.{begins_lift};

    ghost may = { λ _ tables state. IsIdle state };

    ghost does = { λ call old _ answer new _. Begins call.level old answer new };

    fn make(
        self,
        place: Place,
        book: &mut SeatBook,
        _: &mut (),
    ) -> (Place, Result<u32, BookFault>) {
        let Begin { level } = self;
        let answer = book.begin(level);
        (place.begun(&answer), answer)
    }

    ghost may_later = { λ _ few many state le may. may };

    ghost lifts = { λ call _ answer _ before x y own mine added state after lies does. begins_lift before x y own mine added state after lies call.level answer does };
}

/// Lists the keys of a table.
pub struct Scan {
    pub table: u32,
}

impl SeatCall<()> for Scan {
    type Answer = Result<Items<Key>, BookFault>;

    ghost use Rattle.std.specs.Prelude.{◌<◌};
    ghost use Rattle.history_book.specs.Book.{IsInTransaction};
    ghost use Rattle.shared_book.specs.Calls.{Scans};
    ghost use Rattle.shared_book.specs.Lifts.{scans_lift, in_table_later};

    ghost may = { λ call tables state. IsInTransaction state × (call.table < tables) };

    ghost does = { λ call old _ answer new _. Scans call.table old answer new };

    fn make(
        self,
        place: Place,
        book: &mut SeatBook,
        _: &mut (),
    ) -> (Place, Result<Items<Key>, BookFault>) {
        let Scan { table } = self;
        (place, book.scan(table))
    }

    ghost may_later = { λ call few many state le may. in_table_later call.table few many state le may };

    ghost lifts = { λ call _ answer _ before x y own mine added state after lies does. scans_lift before x y own mine added state after lies call.table answer does };
}

/// Reads a cell, by a word that is drawn in the turn where the pending transaction hasn't written it.
pub struct Touch<'a> {
    pub cell: &'a Cell,
}

impl<'a, W: Words> SeatCall<W> for Touch<'a> {
    type Answer = Result<Value, BookFault>;

    ghost use Rattle.std.specs.Prelude.{◌<◌};
    ghost use Rattle.history_core.specs.Events.{table_of};
    ghost use Rattle.history_book.specs.Book.{IsInTransaction};
    ghost use Rattle.shared_book.specs.Calls.{Touches};
    ghost use Rattle.shared_book.specs.Lifts.{touches_lift, touches_later};

    ghost may = { λ call tables state. IsInTransaction state × (table_of call.cell.now < tables) };

    ghost does = { λ call old before answer new after. Touches W.gives call.cell.now old before answer new after };

    fn make(
        self,
        place: Place,
        book: &mut SeatBook,
        words: &mut W,
    ) -> (Place, Result<Value, BookFault>) {
        let Touch { cell } = self;
        (place, book.touch(words, cell))
    }

    ghost may_later = { λ call few many state le may. touches_later call.cell.now few many state le may };

    ghost lifts = { λ call v answer w before x y own mine added state after lies does. touches_lift before x y own mine added state after lies W.gives call.cell.now v answer w does };
}

/// Writes a cell.
pub struct Write {
    pub cell: Cell,
    pub value: Value,
}

impl SeatCall<()> for Write {
    type Answer = Result<(), BookFault>;

    ghost use Rattle.std.specs.Prelude.{◌<◌};
    ghost use Rattle.history_core.specs.Events.{table_of};
    ghost use Rattle.history_core.specs.Initial.{IsStorable};
    ghost use Rattle.history_book.specs.Book.{IsInTransaction};
    ghost use Rattle.shared_book.specs.Calls.{Writes};
    ghost use Rattle.shared_book.specs.Lifts.{writes_lift, writes_later};

    ghost may = { λ call tables state. IsInTransaction state × IsStorable call.value × (table_of call.cell < tables) };

    ghost does = { λ call old _ answer new _. Writes call.cell call.value old answer new };

    fn make(self, place: Place, book: &mut SeatBook, _: &mut ()) -> (Place, Result<(), BookFault>) {
        let Write { cell, value } = self;
        (place, book.write(cell, value))
    }

    ghost may_later = { λ call few many state le may. writes_later call.cell call.value few many state le may };

    ghost lifts = { λ call _ answer _ before x y own mine added state after lies does. writes_lift before x y own mine added state after lies call.cell call.value answer does };
}

/// Commits the pending transaction.
pub struct Commit;

impl SeatCall<()> for Commit {
    type Answer = ();

    ghost use Rattle.history_book.specs.Book.{IsInTransaction};
    ghost use Rattle.shared_book.specs.Calls.{Commits};
    ghost use Rattle.shared_book.specs.Lifts.{commits_lift};

    ghost may = { λ _ tables state. IsInTransaction state };

    ghost does = { λ _ old _ answer new _. Commits old new };

    fn make(self, place: Place, book: &mut SeatBook, _: &mut ()) -> (Place, ()) {
        let Commit = self;
        book.commit();
        (place.ended(), ())
    }

    ghost may_later = { λ _ few many state le may. may };

    ghost lifts = { λ _ _ answer _ before x y own mine added state after lies does. commits_lift before x y own mine added state after lies does };
}

/// Rolls the pending transaction back.
pub struct Rollback;

impl SeatCall<()> for Rollback {
    type Answer = ();

    ghost use Rattle.history_book.specs.Book.{IsInTransaction};
    ghost use Rattle.shared_book.specs.Calls.{RollsBack};
    ghost use Rattle.shared_book.specs.Lifts.{rolls_back_lift};

    ghost may = { λ _ tables state. IsInTransaction state };

    ghost does = { λ _ old _ answer new _. RollsBack old new };

    fn make(self, place: Place, book: &mut SeatBook, _: &mut ()) -> (Place, ()) {
        let Rollback = self;
        book.rollback();
        (place.ended(), ())
    }

    ghost may_later = { λ _ few many state le may. may };

    ghost lifts = { λ _ _ answer _ before x y own mine added state after lies does. rolls_back_lift before x y own mine added state after lies does };
}

/// Tells the number of the event that tells it.
pub struct Show;

impl SeatCall<()> for Show {
    type Answer = Result<u32, BookFault>;

    ghost use Rattle.history_book.specs.Book.{HasSession};
    ghost use Rattle.shared_book.specs.Calls.{Shows};
    ghost use Rattle.shared_book.specs.Lifts.{shows_lift};

    ghost may = { λ _ tables state. HasSession state };

    ghost does = { λ _ old _ answer new _. Shows old answer new };

    fn make(
        self,
        place: Place,
        book: &mut SeatBook,
        _: &mut (),
    ) -> (Place, Result<u32, BookFault>) {
        let Show = self;
        (place, book.show())
    }

    ghost may_later = { λ _ few many state le may. may };

    ghost lifts = { λ _ _ answer _ before x y own mine added state after lies does. shows_lift before x y own mine added state after lies answer does };
}
