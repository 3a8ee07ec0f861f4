// The book of one session of a shared history.
ghost use Rattle.std.specs.Prelude.{◌≡◌, length};
ghost use Rattle.history_core.specs.Chronicle.{IsLegalChronicle};
ghost use Rattle.history_book.specs.Book.{no_session};
ghost use Rattle.shared_book.specs.Entries.{chronicle_of};
ghost use Rattle.shared_book.specs.Books.{StartsLegal, HasSeenLegal, fresh_book, past_of, Stays};

use crate::calls::{Begin, Close, Commit, Define, Look, Open, Rollback, Scan, Show, Touch, Write};
use crate::kept::Kept;
use crate::place::Place;
use crate::seat::{AtSeat, SeatCall};
use cell_base::{Cell, Items, Key, Level, Value};
use history_book::{Book, Words};
use history_core::{BookFault, DefineAnswer};
use sql_tree::Table;
use std::marker::Model;
use std::sync::Wait;
use turn_lock::{Pass, TurnLock};

/// The book of one session of a shared history. Each of its calls waits for a turn of the lock, and makes the call there. Contracts see its
/// pass, and where its session stands.
#[derive(Drop)]
pub struct SharedBook<'a, R: Wait> {
    lock: &'a TurnLock<Kept>,
    rt: &'a R,
    pass: Pass<Kept>,
    place: Place,
}

impl<'a, R: Wait> Model for SharedBook<'a, R> {
    ghost use Rattle.std.specs.Coded.{codes};
    ghost use Rattle.sql_tree.specs.contracts.typed_expr.TypedNode as typed_node;
    ghost use Rattle.shared_book.specs.Entries.{events_of};
    ghost use Rattle.shared_book.specs.Places.{state_at};
    ghost use Rattle.shared_book.specs.Books.{BookValue, IsBook};

    ghost Value = { BookValue };

    ghost coded = { Prim.hlevel (codes, typed_node.the_row.coded) };

    ghost view = { λ b. record { pass = b.pass; state = state_at b.place (events_of b.pass.seen) } };

    ghost invariant = { λ b. IsBook b.lock.now b.pass b.place };
}

impl<'a, R: Wait> SharedBook<'a, R> {
    // A book of the pass, in which no session is open.
    pub(crate) fn new(lock: &'a TurnLock<Kept>, rt: &'a R, pass: Pass<Kept>) -> SharedBook<'a, R>
        requires lock { pass.lock ≡ lock.now }
        requires start { StartsLegal lock.now.start }
        ensures is { result ≡ fresh_book pass }
    {
        // Only for its contract: the pass has seen the history that the lock was made with.
        pass.sees_start();
        SharedBook {
            lock,
            rt,
            pass,
            place: Place::NoSession,
        }
    }

    // Makes the call in one turn, with what is lent it.
    fn turn<B, C: SeatCall<B>>(&mut self, call: C, beside: &mut B) -> C::Answer
        requires { C.may call (length (chronicle_of self.old.pass.seen).tables) self.old.state }
        ensures does { C.does call (past_of self.old) beside.old result (past_of self.new) beside.new }
        ensures legal { HasSeenLegal self.new.pass }
        ensures stays { Stays self.old self.new }
    {
        let at = AtSeat {
            place: self.place,
            call,
        };
        let (place, answer) = self.lock.with_turn(self.rt, &mut self.pass, at, beside);
        self.place = place;
        answer
    }

    /// The pass, back.
    pub fn into_pass(self) -> Pass<Kept>
        requires { self.state ≡ no_session }
        ensures { result ≡ self.entry.pass }
    {
        self.pass
    }
}

impl<'a, R: Wait> Book for SharedBook<'a, R> {
    ghost use Rattle.shared_book.specs.Books.{past_of, Stays, stays_same, stays_both};

    ghost past = { past_of };

    ghost stays = { Stays };

    fn open(&mut self) -> Result<u32, BookFault> {
        self.turn(Open, &mut ())
    }

    fn close(&mut self) {
        self.turn(Close, &mut ());
    }

    fn look(&mut self, known: u32) -> Result<Items<Table>, BookFault> {
        self.turn(Look { known }, &mut ())
    }

    fn define(&mut self, table: &Table) -> Result<DefineAnswer, BookFault> {
        self.turn(Define { table }, &mut ())
    }

    fn begin(&mut self, level: Level) -> Result<u32, BookFault> {
        self.turn(Begin { level }, &mut ())
    }

    fn scan(&mut self, table: u32) -> Result<Items<Key>, BookFault> {
        self.turn(Scan { table }, &mut ())
    }

    fn touch<W: Words>(&mut self, words: &mut W, cell: &Cell) -> Result<Value, BookFault> {
        self.turn(Touch { cell }, words)
    }

    fn write(&mut self, cell: Cell, value: Value) -> Result<(), BookFault> {
        self.turn(Write { cell, value }, &mut ())
    }

    fn commit(&mut self) {
        self.turn(Commit, &mut ());
    }

    fn rollback(&mut self) {
        self.turn(Rollback, &mut ());
    }

    fn show(&mut self) -> Result<u32, BookFault> {
        self.turn(Show, &mut ())
    }

    ghost stays_same = { stays_same };

    ghost stays_trans = { stays_both };
}
