// The causal past of each transaction. It is closed under session order, so of each session it has the transactions up to some one.
ghost use Rattle.std.specs.Prelude.{◌≡◌, ◌≢◌, ◌≤◌, ◌<◌, ◌+◌, ◌↔◌, ◌⊎◌, ◌∷◌, ◌++◌, [], ℕ, Some, IfOk, OnOk, length, slice_get, slice_set, slice_index};
ghost use Rattle.history_core.specs.Events.{session_in};
ghost use Rattle.further_reads.specs.Begun.{IsLastBegun};
ghost use Rattle.cycle_report.specs.declared.pasts.Past.{Past as PastOf};
ghost use Rattle.order_test.specs.Settled.{ComesSettled, IsOrderly};
ghost use Rattle.order_test.specs.Glance.{AreWithin, AreOwners};
ghost use Rattle.cycle_report.specs.Pasts.{AreRows, ArePasts, TakesIn, AddsAfter, TakesFrom};

use cell_base::Memory;
use history_core::Event;
use std::alloc::Global;
use std::mem;

/// The causal past of a transaction.
#[derive(Debug, Drop)]
pub struct Past {
    /// The session of the transaction.
    pub session: u32,
    /// For each session the last of its transactions that precedes the transaction causally, 0 where none does.
    pub tops: Vec<u32>,
}

/// The causal past of each transaction, that of the initial one first.
#[derive(Debug, Drop)]
pub struct Pasts {
    /// A number above those of all sessions.
    pub width: usize,
    pub rows: Vec<Past>,
}

/// No event yet.
fn first_rows(alloc: Global, width: usize) -> Result<Vec<Past>, Memory>
    requires { 0 < width }
    ensures { IfOk result (λ rows. AreRows [] width rows.items) }
{
    let tops = vec![in alloc; 0; width]?;
    let mut rows = Vec::new(alloc);
    rows.push(Past { session: 0, tops })?;
    Ok(rows)
}

/// Raises each of the numbers to the other one at its place, where it is below.
fn raise_all(tops: &mut Vec<u32>, others: &[u32])
    requires { length others.now ≡ length tops.old.items }
    ensures count { length tops.new.items ≡ length tops.old.items }
    ensures exact { (at number : ℕ) → at < length tops.old.items →
        (number ≤ slice_index tops.new.items at) ↔ ((number ≤ slice_index tops.old.items at) ⊎ (number ≤ slice_index others.now at)) }
{
    for at in 0..others.len() {
        tops[at] = tops[at].max(others[at]);
    }
}

/// Raises one of the numbers to this one, where it is below.
fn raise(tops: &mut Vec<u32>, place: u32, number: u32)
    requires { place < length tops.old.items }
    ensures count { length tops.new.items ≡ length tops.old.items }
    ensures exact { (at other : ℕ) → at < length tops.old.items →
        (other ≤ slice_index tops.new.items at) ↔ ((other ≤ slice_index tops.old.items at) ⊎ ((at ≡ place) × (other ≤ number))) }
{
    if tops[place as usize] < number {
        tops[place as usize] = number;
    }
}

/// Takes into the past of a transaction the source that it reads from, which has this number, and the past of the source.
fn take_in(own: &mut Past, source: &Past, number: u32)
    requires count { length source.now.tops.items ≡ length own.old.tops.items }
    requires within { source.now.session < length own.old.tops.items }
    ensures { TakesIn number source.now own.old own.new }
{
    raise_all(&mut own.tops, &source.tops);
    raise(&mut own.tops, source.session, number);
}

/// Puts the past in the place of another, which it answers.
fn replace_past(rows: &mut Vec<Past>, at: usize, past: Past) -> Past
    requires { at < length rows.old.items }
    ensures was { slice_get rows.old.items at ≡ Some result }
    ensures now { rows.new.items ≡ slice_set rows.old.items at past }
{
    mem::replace(&mut rows[at], past)
}

/// No past, which stands where a past was taken out.
fn empty_past(alloc: Global) -> Past {
    Past {
        session: 0,
        tops: Vec::new(alloc),
    }
}

/// A copy of the numbers.
fn copy_of(alloc: Global, numbers: &[u32]) -> Result<Vec<u32>, Memory>
    ensures { IfOk result (λ copy. copy.items ≡ numbers.now) }
{
    Ok(numbers.iter().copied().collect(alloc)?)
}

/// Adds the past of a transaction that begins in the session, after the last one there.
fn begin_row(alloc: Global, rows: &mut Vec<Past>, last: u32, session: u32) -> Result<(), Memory>
    requires last { last < length rows.old.items }
    requires within { (past : PastOf) → slice_get rows.old.items last ≡ Some past → session < length past.tops.items }
    ensures { OnOk result (AddsAfter last session rows.old.items rows.new.items) }
{
    let before = &rows[last as usize];
    let mut tops = copy_of(alloc, &before.tops)?;
    tops[session as usize] = last;
    rows.push(Past { session, tops })?;
    Ok(())
}

/// Adds to the past of the reader the source and its past.
fn read_row(alloc: Global, rows: &mut Vec<Past>, reader: u32, source: u32)
    requires reader { reader < length rows.old.items }
    requires source { source < length rows.old.items }
    requires apart { source ≢ reader }
    requires one { (own from : PastOf) → slice_get rows.old.items reader ≡ Some own → slice_get rows.old.items source ≡ Some from → length from.tops.items ≡ length own.tops.items }
    requires within { (from : PastOf) → slice_get rows.old.items source ≡ Some from → from.session < length from.tops.items }
    ensures { TakesFrom reader source rows.old.items rows.new.items }
{
    let mut own = replace_past(rows, reader as usize, empty_past(alloc));
    take_in(&mut own, &rows[source as usize], source);
    let _empty = replace_past(rows, reader as usize, own);
}

/// Notes of the event what it changes in the pasts. `last` is the last transaction of its session.
fn note_row(
    alloc: Global,
    rows: &mut Vec<Past>,
    before: &[Event],
    event: &Event,
    last: u32,
    width: usize,
) -> Result<(), Memory>
    requires rows { AreRows before.now width rows.old.items }
    requires comes { ComesSettled before.now event.now }
    requires within { session_in event.now < width }
    requires last { IsLastBegun before.now (session_in event.now) last }
    ensures { OnOk result (AreRows (before.now ++ event.now ∷ []) width rows.new.items) }
{
    match event {
        Event::Begin { session, .. } => begin_row(alloc, rows, last, *session),
        Event::Read { source, .. } => {
            read_row(alloc, rows, last, *source);
            Ok(())
        }
        Event::Open { .. } => Ok(()),
        Event::Close { .. } => Ok(()),
        Event::Define { .. } => Ok(()),
        Event::Look { .. } => Ok(()),
        Event::Scan { .. } => Ok(()),
        Event::Own { .. } => Ok(()),
        Event::Write { .. } => Ok(()),
        Event::Commit { .. } => Ok(()),
        Event::Rollback { .. } => Ok(()),
        Event::Show { .. } => Ok(()),
    }
}

/// The causal past of each transaction. All sessions are below the width, and the owners are the last transactions of the sessions of the events.
pub fn pasts_of(
    alloc: Global,
    events: &[Event],
    owners: &[u32],
    width: usize,
) -> Result<Pasts, Memory>
    requires orderly { IsOrderly events.now }
    requires owners { AreOwners events.now owners.now }
    requires some { 0 < width }
    requires within { AreWithin width events.now }
    ensures { IfOk result (ArePasts events.now) }
{
    let mut rows = first_rows(alloc, width)?;
    for at in 0..events.len() {
        note_row(
            alloc,
            &mut rows,
            &events[..at],
            &events[at],
            owners[at],
            width,
        )?;
    }
    Ok(Pasts { width, rows })
}
