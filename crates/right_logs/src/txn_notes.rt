// What is noted of each transaction: its session, its level, and its vector clock, which tells how far each session is in its causal past.
ghost use Rattle.std.specs.Prelude.{◌≡◌, ◌≢◌, ◌≤◌, ◌<◌, ◌∷◌, [], ℕ, Some, IfOk, OnOk, IsTrue, length, slice_get, slice_set, slice_index};
ghost use Rattle.right_logs.specs.declared.txn_notes.TxnNote.{TxnNote as NoteOf};
ghost use Rattle.right_logs.specs.Clocks.{AddsTxn, HasSource, NotesSource, Raises, RaisesAll, TakesClock, TakesIn};

use bumpalo::Bump;
use cell_base::{Level, Memory};
use std::alloc::Global;
use std::mem;

/// What is noted of a transaction.
#[derive(Debug, Drop)]
pub struct TxnNote<'b> {
    pub session: u32,
    pub level: Level,
    /// Its vector clock: of each session the transactions up to its number are those in the causal past. What isn't there is 0.
    pub clock: Vec<u32, &'b Bump>,
}

/// A note that says nothing. Takes no memory.
fn blank_note(clocks: &Bump) -> TxnNote<'_>
    ensures { result.clock.items ≡ [] }
{
    TxnNote {
        session: 0,
        level: Level::Rc,
        clock: Vec::new(clocks),
    }
}

/// The note of the initial transaction alone, and room for so many.
pub fn initial_txns<'b>(
    alloc: Global,
    clocks: &'b Bump,
    room: usize,
) -> Result<Vec<TxnNote<'b>>, Memory>
    ensures { IfOk result (λ notes. (note : NoteOf) × ((notes.items ≡ note ∷ []) × (note.clock.items ≡ []))) }
{
    let mut notes = Vec::with_capacity(alloc, room)?;
    notes.push(blank_note(clocks))?;
    Ok(notes)
}

/// The number at the place, 0 where there is none.
pub fn number_in(clock: &[u32], at: u32) -> u32
    ensures { result ≡ slice_index clock.now at }
{
    if at as usize >= clock.len() {
        return 0;
    }
    clock[at as usize]
}

/// Makes room for so many numbers. Where there was none it is 0.
fn widen(clock: &mut Vec<u32, &Bump>, width: usize) -> Result<(), Memory>
    ensures wide { OnOk result (width ≤ length clock.new.items) }
    ensures same { OnOk result ((i : ℕ) → slice_index clock.new.items i ≡ slice_index clock.old.items i) }
{
    if width <= clock.len() {
        return Ok(());
    }
    clock.resize(width, 0)?;
    Ok(())
}

/// Raises the number at the place to this one, where it is below.
fn raise(clock: &mut Vec<u32, &Bump>, at: u32, number: u32)
    requires { at < length clock.old.items }
    ensures { Raises at number clock.old.items clock.new.items }
{
    clock[at as usize] = clock[at as usize].max(number);
}

/// Raises each of the numbers to the other one at its place, where it is below.
fn raise_all(clock: &mut Vec<u32, &Bump>, others: &[u32])
    requires { length others.now ≤ length clock.old.items }
    ensures count { length clock.new.items ≡ length clock.old.items }
    ensures raises { RaisesAll others.now clock.old.items clock.new.items }
{
    for at in 0..others.len() {
        clock[at] = clock[at].max(others[at]);
    }
}

/// A copy of the numbers.
fn copy_of<'b>(clocks: &'b Bump, numbers: &[u32]) -> Result<Vec<u32, &'b Bump>, Memory>
    ensures { IfOk result (λ copy. copy.items ≡ numbers.now) }
{
    Ok(numbers.iter().copied().collect(clocks)?)
}

/// The clock of the transaction that comes after the one of this number and clock in its session.
fn clock_after<'b>(
    clocks: &'b Bump,
    clock: &[u32],
    session: u32,
    last: u32,
) -> Result<Vec<u32, &'b Bump>, Memory>
    ensures { IfOk result (λ next. Raises session last clock.now next.items) }
{
    let mut next = copy_of(clocks, clock)?;
    widen(&mut next, session as usize + 1)?;
    raise(&mut next, session, last);
    Ok(next)
}

/// The same, where there are clocks.
fn next_clock<'b>(
    clocks: &'b Bump,
    notes: &[TxnNote],
    clocked: bool,
    session: u32,
    last: u32,
) -> Result<Vec<u32, &'b Bump>, Memory>
    requires { last < length notes.now }
    ensures { IfOk result (λ next. IsTrue clocked → (before : NoteOf) → slice_get notes.now last ≡ Some before → Raises session last before.clock.items next.items) }
{
    if !clocked {
        return Ok(Vec::new(clocks));
    }
    clock_after(clocks, &notes[last as usize].clock, session, last)
}

/// Notes the transaction that begins in the session, after the last one there.
pub fn add_txn<'b>(
    clocks: &'b Bump,
    notes: &mut Vec<TxnNote<'b>>,
    clocked: bool,
    session: u32,
    level: Level,
    last: u32,
) -> Result<(), Memory>
    requires { last < length notes.old.items }
    ensures { OnOk result (AddsTxn clocked session level last notes.old.items notes.new.items) }
{
    let clock = next_clock(clocks, notes, clocked, session, last)?;
    notes.push(TxnNote {
        session,
        level,
        clock,
    })?;
    Ok(())
}

/// Takes into the clock of a reader the source that it reads from, and the clock of the source.
fn take_in(clock: &mut Vec<u32, &Bump>, source: &TxnNote, number: u32) -> Result<(), Memory>
    ensures { OnOk result (TakesClock number source.now clock.old.items clock.new.items) }
{
    widen(clock, source.clock.len().max(source.session as usize + 1))?;
    raise_all(clock, &source.clock);
    raise(clock, source.session, number);
    Ok(())
}

/// Puts the note in the place of another, which it answers.
fn replace_note<'b>(notes: &mut Vec<TxnNote<'b>>, at: usize, note: TxnNote<'b>) -> TxnNote<'b>
    requires { at < length notes.old.items }
    ensures was { slice_get notes.old.items at ≡ Some result }
    ensures now { notes.new.items ≡ slice_set notes.old.items at note.entry }
{
    mem::replace(&mut notes[at], note)
}

/// Takes the source into the clock of the reader.
fn take_source<'b>(
    clocks: &'b Bump,
    notes: &mut Vec<TxnNote<'b>>,
    reader: u32,
    source: u32,
) -> Result<(), Memory>
    requires reader { reader < length notes.old.items }
    requires source { source < length notes.old.items }
    requires apart { source ≢ reader }
    ensures { OnOk result (TakesIn reader source notes.old.items notes.new.items) }
{
    let mut own = replace_note(notes, reader as usize, blank_note(clocks));
    take_in(&mut own.clock, &notes[source as usize], source)?;
    let _blank = replace_note(notes, reader as usize, own);
    Ok(())
}

/// Whether the clock of the reader has the source.
fn has_source(notes: &[TxnNote], reader: u32, source: u32) -> bool
    requires reader { reader < length notes.now }
    requires source { source < length notes.now }
    ensures { IsTrue result → HasSource reader source notes.now }
{
    source
        <= number_in(
            &notes[reader as usize].clock,
            notes[source as usize].session,
        )
}

/// Notes that the reader reads from the source, where there are clocks. One that has the source has its past, too, and stays as it is.
pub fn note_source<'b>(
    clocks: &'b Bump,
    notes: &mut Vec<TxnNote<'b>>,
    clocked: bool,
    reader: u32,
    source: u32,
) -> Result<(), Memory>
    requires reader { reader < length notes.old.items }
    requires source { source < length notes.old.items }
    requires apart { source ≢ reader }
    ensures { OnOk result (NotesSource clocked reader source notes.old.items notes.new.items) }
{
    if !clocked {
        return Ok(());
    }
    if has_source(notes, reader, source) {
        return Ok(());
    }
    take_source(clocks, notes, reader, source)
}
