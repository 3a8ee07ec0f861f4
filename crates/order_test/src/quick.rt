// What is seen at once of a read: that it has no rival. Where that isn't seen, a search decides.
ghost use Rattle.std.specs.Prelude.{◌≡◌, ◌<◌, ◌+◌, ℕ, Some, IsTrue, length, slice_get, slice_index};
ghost use Rattle.history_core.specs.declared.txn.Seen.{Seen as SeenOf};
ghost use Rattle.history_core.specs.Relations.{IsSessionOrdered, ReadsBefore, ReadsFrom};
ghost use Rattle.saturation.specs.Views.{number_of, IsReadFrom};
ghost use Rattle.order_test.specs.Scenes.{IsSurvey, IsScene, IsReadIn, IsRivalOf, IsUnrivalled, HasNoDirectRival, IsHarmless, AreHarmless};
ghost use Rattle.order_test.specs.Listed.{AreAllAscending, HasNoLate, listed_at};
ghost use Rattle.order_test.specs.Firsts.{AreRisingInAll, PastIsListed};

use crate::firsts::{TableFirsts, session_is_listed};
use crate::listed::last_listed;
use crate::pasts::Past;
use crate::places::{Places, stands_before};
use crate::presences::table_lists_to;
use crate::reaches::cell_is_clear;
use crate::read_at::ReadAt;
use crate::scene::Scene;
use crate::sessions::txn_of;
use crate::sight::{number_in, past_of, top_of};
use crate::survey::Survey;
use crate::unmet::is_rival;
use cell_base::{Cell, Key, Level};
use cell_writers::CellWriters;
use history_core::{Event, Seen};

/// Whether the last writer of the cell in the session up to the limit is the source or stands before it.
fn session_has_none(
    places: &Places,
    lists: &[CellWriters],
    session: usize,
    cell: &Cell,
    limit: u32,
    from: u32,
) -> bool
    requires ascending { AreAllAscending lists.now }
    requires within { session < length lists.now }
    ensures { IsTrue result → HasNoLate places.now.at.items (listed_at lists.now session cell.now) limit from }
{
    match last_listed(lists, session, cell, limit) {
        Some(last) => last == from || stands_before(places, last, from),
        None => true,
    }
}

/// The same of all sessions, each up to its last transaction in the past.
fn past_has_none(
    places: &Places,
    lists: &[CellWriters],
    past: &Past,
    cell: &Cell,
    from: u32,
) -> bool
    requires ascending { AreAllAscending lists.now }
    ensures { IsTrue result → (session : ℕ) → session < length lists.now →
        HasNoLate places.now.at.items (listed_at lists.now session cell.now) (slice_index past.now.tops.items session) from }
{
    for session in 0..lists.len() {
        if !session_has_none(places, lists, session, cell, top_of(past, session), from) {
            return false;
        }
    }
    true
}

/// Whether none of the committed writers of the cell up to the limit of the reader's causal past stands after the source, or the scan lists each key
/// whose presence one up to this limit wrote.
pub fn is_reached(survey: &Survey<'_>, read: &ReadAt<'_>) -> bool
    requires survey { IsSurvey survey.now }
    requires read { IsReadIn survey.now read.now }
    ensures { IsTrue result → IsUnrivalled survey.now read.now }
{
    match read.event {
        Event::Read { source, .. } => {
            let limit = survey.glance.limits[read.reader as usize];
            let number = survey.cells.numbers.of_events[read.place] as usize;
            cell_is_clear(
                survey.places,
                survey.cells,
                survey.reaches,
                number,
                limit,
                *source,
            )
        }
        Event::Scan { table, keys, .. } => {
            let limit = survey.glance.limits[read.reader as usize];
            table_lists_to(&survey.reaches.firsts, *table, keys.as_slice(), limit)
        }
        _ => false,
    }
}

/// Whether a scan lists each key of the table whose presence a transaction in the past wrote.
fn past_is_listed(firsts: &[TableFirsts], past: &Past, table: u32, keys: &[Key]) -> bool
    requires { AreRisingInAll firsts.now }
    ensures { IsTrue result → PastIsListed firsts.now past.now.tops.items table keys.now }
{
    for session in 0..firsts.len() {
        if !session_is_listed(firsts, session, table, keys, top_of(past, session)) {
            return false;
        }
    }
    true
}

/// Whether in each session the last writer of the cell in the reader's causal past is the source or stands before it, or the scan lists each key
/// whose presence a transaction in this past wrote.
fn past_is_clear(survey: &Survey<'_>, scene: &Scene<'_>, read: &ReadAt<'_>) -> bool
    requires survey { IsSurvey survey.now }
    requires scene { IsScene survey.now scene.now }
    requires read { IsReadIn survey.now read.now }
    ensures { IsTrue result → IsUnrivalled survey.now read.now }
{
    match read.event {
        Event::Read { cell, source, .. } => {
            past_has_none(
                survey.places,
                &scene.lists.writers,
                past_of(scene.pasts, survey.events, read.reader),
                cell,
                *source,
            )
        }
        Event::Scan { table, keys, .. } => {
            past_is_listed(
                &scene.lists.firsts,
                past_of(scene.pasts, survey.events, read.reader),
                *table,
                keys.as_slice(),
            )
        }
        _ => false,
    }
}

/// Whether the last writer of the cell in the reader's session before the reader is the source or stands before it, or the scan lists each key whose
/// presence was written in this session before.
fn own_is_clear(survey: &Survey<'_>, scene: &Scene<'_>, read: &ReadAt<'_>) -> bool
    requires survey { IsSurvey survey.now }
    requires scene { IsScene survey.now scene.now }
    requires read { IsReadIn survey.now read.now }
    ensures { IsTrue result → (other : ℕ) → IsSessionOrdered survey.now.events.now other read.now.reader → ¬ IsRivalOf survey.now read.now other }
{
    let session = txn_of(survey, scene.txns, read.reader).session as usize;
    let limit = top_of(past_of(scene.pasts, survey.events, read.reader), session);
    match read.event {
        Event::Read { cell, source, .. } => {
            session_has_none(
                survey.places,
                &scene.lists.writers,
                session,
                cell,
                limit,
                *source,
            )
        }
        Event::Scan { table, keys, .. } => {
            session_is_listed(&scene.lists.firsts, session, *table, keys.as_slice(), limit)
        }
        _ => false,
    }
}

/// Whether the number is that of no rival.
fn is_no_rival(survey: &Survey<'_>, scene: &Scene<'_>, read: &ReadAt<'_>, number: u32) -> bool
    requires survey { IsSurvey survey.now }
    requires scene { IsScene survey.now scene.now }
    requires read { IsReadIn survey.now read.now }
    ensures { IsTrue result → ¬ IsRivalOf survey.now read.now number }
{
    if number == 0 {
        return true;
    }
    if number as usize > scene.txns.len() {
        return true;
    }
    !is_rival(survey, scene, read, number)
}

/// Whether this wasn't read from a rival.
fn is_harmless(survey: &Survey<'_>, scene: &Scene<'_>, read: &ReadAt<'_>, seen: &Seen) -> bool
    requires survey { IsSurvey survey.now }
    requires scene { IsScene survey.now scene.now }
    requires read { IsReadIn survey.now read.now }
    ensures { IsTrue result → IsHarmless survey.now read.now seen.now }
{
    match seen {
        Seen::Read { source, .. } => is_no_rival(survey, scene, read, *source),
        Seen::Scan { .. } => true,
    }
}

/// Whether none of these was read from a rival.
fn all_are_harmless(survey: &Survey<'_>, scene: &Scene<'_>, read: &ReadAt<'_>, all: &[Seen]) -> bool
    requires survey { IsSurvey survey.now }
    requires scene { IsScene survey.now scene.now }
    requires read { IsReadIn survey.now read.now }
    ensures { IsTrue result → AreHarmless survey.now read.now (length all.now) all.now }
{
    for at in 0..all.len() {
        if !is_harmless(survey, scene, read, &all[at]) {
            return false;
        }
    }
    true
}

/// Whether the reader has read from no rival.
fn sources_are_clear(survey: &Survey<'_>, scene: &Scene<'_>, read: &ReadAt<'_>) -> bool
    requires survey { IsSurvey survey.now }
    requires scene { IsScene survey.now scene.now }
    requires read { IsReadIn survey.now read.now }
    ensures { IsTrue result → (other : ℕ) → ReadsFrom survey.now.events.now other read.now.reader → ¬ IsRivalOf survey.now read.now other }
{
    let txn = txn_of(survey, scene.txns, read.reader);
    all_are_harmless(survey, scene, read, txn.seen.as_slice())
}

/// Whether this wasn't read from a rival before the read. Events are numbered from 1.
fn is_harmless_early(survey: &Survey<'_>, scene: &Scene<'_>, read: &ReadAt<'_>, seen: &Seen) -> bool
    requires survey { IsSurvey survey.now }
    requires scene { IsScene survey.now scene.now }
    requires read { IsReadIn survey.now read.now }
    ensures { IsTrue result → (other : ℕ) → number_of seen.now < read.now.place + 1 → IsReadFrom seen.now other → ¬ IsRivalOf survey.now read.now other }
{
    if number_in(seen) as usize > read.place {
        return true;
    }
    is_harmless(survey, scene, read, seen)
}

/// Whether none of these was read from a rival before the read.
fn all_are_harmless_early(
    survey: &Survey<'_>,
    scene: &Scene<'_>,
    read: &ReadAt<'_>,
    all: &[Seen],
) -> bool
    requires survey { IsSurvey survey.now }
    requires scene { IsScene survey.now scene.now }
    requires read { IsReadIn survey.now read.now }
    ensures { IsTrue result → (at : ℕ) (seen : SeenOf) (other : ℕ) → slice_get all.now at ≡ Some seen → number_of seen < read.now.place + 1 →
        IsReadFrom seen other → ¬ IsRivalOf survey.now read.now other }
{
    for at in 0..all.len() {
        if !is_harmless_early(survey, scene, read, &all[at]) {
            return false;
        }
    }
    true
}

/// Whether the reader has read from no rival before the read.
fn earlier_sources_are_clear(survey: &Survey<'_>, scene: &Scene<'_>, read: &ReadAt<'_>) -> bool
    requires survey { IsSurvey survey.now }
    requires scene { IsScene survey.now scene.now }
    requires read { IsReadIn survey.now read.now }
    ensures { IsTrue result → (other : ℕ) → ReadsBefore survey.now.events.now read.now.reader read.now.place other → ¬ IsRivalOf survey.now read.now other }
{
    let txn = txn_of(survey, scene.txns, read.reader);
    all_are_harmless_early(survey, scene, read, txn.seen.as_slice())
}

/// Whether none that directly precedes the reader, in its session or as a source, is a rival.
fn is_clear_directly(survey: &Survey<'_>, scene: &Scene<'_>, read: &ReadAt<'_>) -> bool
    requires survey { IsSurvey survey.now }
    requires scene { IsScene survey.now scene.now }
    requires read { IsReadIn survey.now read.now }
    ensures { IsTrue result → HasNoDirectRival survey.now read.now }
{
    if !own_is_clear(survey, scene, read) {
        return false;
    }
    sources_are_clear(survey, scene, read)
}

/// Whether it is seen at once that the read has no rival, whatever its level: no writer of the cell up to the limit of its causal past
/// stands after its source, or its causal past has none that is late, or at Read Atomic neither its sources nor its session have one, or at Read
/// Committed none of its earlier sources is one.
pub fn is_clear(survey: &Survey<'_>, scene: &Scene<'_>, read: &ReadAt<'_>) -> bool
    requires survey { IsSurvey survey.now }
    requires scene { IsScene survey.now scene.now }
    requires read { IsReadIn survey.now read.now }
    ensures { IsTrue result → IsUnrivalled survey.now read.now }
{
    if is_reached(survey, read) {
        return true;
    }
    if past_is_clear(survey, scene, read) {
        return true;
    }
    match txn_of(survey, scene.txns, read.reader).level {
        Level::Rc => earlier_sources_are_clear(survey, scene, read),
        Level::Ra => is_clear_directly(survey, scene, read),
        Level::Cc => false,
    }
}
