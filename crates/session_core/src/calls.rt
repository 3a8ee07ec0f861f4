// The calls that a session asks of its book.
ghost use Rattle.std.specs.Prelude.{◌≡◌, ◌≢◌, true};
ghost use Rattle.cell_base.specs.declared.cell.Cell as cells;
ghost use Rattle.cell_base.specs.declared.value.Value as values;
ghost use Rattle.statement_course.specs.declared.demand.Demand.TheVariants as demands;
ghost use Rattle.sound_table.specs.Sound.{IsSound};
ghost use Rattle.history_core.specs.declared.event.Event.{Event};
ghost use Rattle.history_core.specs.Chronicle.{IsLegalChronicle};
ghost use Rattle.history_book.specs.Book.{HasSession};
ghost use Rattle.block_machine.specs.Calls as calls;
ghost use Rattle.block_machine.specs.Calls.{asks_cells, call_for, call_of};
ghost use Rattle.block_machine.specs.Stages.{Fits};
ghost use Rattle.session_core.specs.Record.{StateAfter};
ghost use Rattle.session_core.specs.Plays.{MayAsk, Plays};

use block_machine::{Answer, Call};
use cell_base::Cell;
use history_book::{Book, Words};
use sql_tree::Table;
use statement_course::Demand;

/// Defines a table in the book.
pub fn define<B: Book, W: Words>(book: &mut B, words: &W, table: &Table) -> Answer
    requires may { HasSession (B.past book.old).state }
    requires sound { IsSound table.now }
    ensures fits { Fits (calls.Define table.now) result }
    ensures plays { (e : Event) × Plays W.gives (B.past book.old) words.now (calls.Define table.now) result e (B.past book.new) words.now }
    ensures state { StateAfter (calls.Define table.now) result (B.past book.old).state (B.past book.new).state }
    ensures legal { IsLegalChronicle (B.past book.old).seen → IsLegalChronicle (B.past book.new).seen }
    ensures stays { B.stays book.old book.new }
{
    match book.define(table) {
        Ok(answer) => Answer::Defined(answer),
        Err(why) => Answer::Refused(why),
    }
}

/// Makes another call of the book.
pub fn call<B: Book, W: Words>(book: &mut B, words: &W, c: Call) -> Answer
    requires may { MayAsk (call_of c) (B.past book.old) }
    ensures fits { Fits (call_of c) result }
    ensures plays { (e : Event) × Plays W.gives (B.past book.old) words.now (call_of c) result e (B.past book.new) words.now }
    ensures state { StateAfter (call_of c) result (B.past book.old).state (B.past book.new).state }
    ensures legal { IsLegalChronicle (B.past book.old).seen → IsLegalChronicle (B.past book.new).seen }
    ensures stays { B.stays book.old book.new }
{
    match c {
        Call::Open => match book.open() {
            Ok(session) => Answer::Opened(session),
            Err(why) => Answer::Refused(why),
        },
        Call::Close => {
            book.close();
            Answer::Closed
        }
        Call::Look(known) => match book.look(known) {
            Ok(tables) => Answer::Looked(tables),
            Err(why) => Answer::Refused(why),
        },
        Call::Begin(level) => match book.begin(level) {
            Ok(number) => Answer::Begun(number),
            Err(why) => Answer::Refused(why),
        },
        Call::Commit => {
            book.commit();
            Answer::Committed
        }
        Call::Rollback => {
            book.rollback();
            Answer::RolledBack
        }
        Call::Show => match book.show() {
            Ok(number) => Answer::Shown(number),
            Err(why) => Answer::Refused(why),
        },
    }
}

// Reads a cell: what the pending transaction wrote to it, or else from the history, by a word that the book draws.
fn touch<B: Book, W: Words>(book: &mut B, words: &mut W, cell: &Cell) -> Answer
    requires may { MayAsk (calls.Touch cell.now) (B.past book.old) }
    ensures fits { Fits (calls.Touch cell.now) result }
    ensures plays { (e : Event) × Plays W.gives (B.past book.old) words.old (calls.Touch cell.now) result e (B.past book.new) words.new }
    ensures state { StateAfter (calls.Touch cell.now) result (B.past book.old).state (B.past book.new).state }
    ensures legal { IsLegalChronicle (B.past book.old).seen → IsLegalChronicle (B.past book.new).seen }
    ensures stays { B.stays book.old book.new }
{
    match book.touch(words, cell) {
        Ok(value) => Answer::Found(value),
        Err(why) => Answer::Refused(why),
    }
}

/// Makes the call that a statement demands which reads.
pub fn ask<B: Book, W: Words>(book: &mut B, words: &mut W, demand: &Demand) -> Answer
    requires may { MayAsk (call_for demand.now) (B.past book.old) }
    requires asks { asks_cells demand.now ≡ true }
    requires reads { (cell : cells.Cell) (value : values.Value) → demand.now ≢ demands.Write cell value }
    ensures fits { Fits (call_for demand.now) result }
    ensures plays { (e : Event) × Plays W.gives (B.past book.old) words.old (call_for demand.now) result e (B.past book.new) words.new }
    ensures state { StateAfter (call_for demand.now) result (B.past book.old).state (B.past book.new).state }
    ensures legal { IsLegalChronicle (B.past book.old).seen → IsLegalChronicle (B.past book.new).seen }
    ensures stays { B.stays book.old book.new }
{
    match demand {
        Demand::Scan(table) => match book.scan(*table) {
            Ok(keys) => Answer::Listed(keys),
            Err(why) => Answer::Refused(why),
        },
        Demand::Touch(cell) => touch(book, words, cell),
        Demand::Write(_, _) | Demand::Reply(_) => unreachable!(),
    }
}
