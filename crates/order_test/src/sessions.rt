// Whether an order extends the order of each session.
ghost use Rattle.std.specs.Prelude.{◌≤◌, ◌↔◌, ℕ, IsTrue, IfSome, IfNone};
ghost use Rattle.history_core.specs.Events.{begun};
ghost use Rattle.history_core.specs.Kept.{StandsForTxns};
ghost use Rattle.history_core.specs.Records.{IsRecordOf};
ghost use Rattle.history_core.specs.Relations.{IsSessionOrdered};
ghost use Rattle.order_test.specs.Unkept.{IsOutOfSession, IsFirstOutOfSession, KeepsSessions, StandsBefore};
ghost use Rattle.order_test.specs.Sights.{IsNumber};
ghost use Rattle.order_test.specs.Scenes.{IsSurvey};

use crate::survey::Survey;
use history_core::Txn;

/// The record of the transaction.
pub fn txn_of<'a>(survey: &Survey<'_>, txns: &'a [Txn], number: u32) -> &'a Txn
    requires txns { StandsForTxns survey.now.events.now txns.now }
    requires number { IsNumber survey.now.events.now number }
    ensures { IsRecordOf survey.now.events.now number result.now }
{
    &txns[number as usize - 1]
}

/// Whether the first doesn't stand before the second.
pub fn is_late(survey: &Survey<'_>, first: u32, second: u32) -> bool
    requires survey { IsSurvey survey.now }
    requires first { first ≤ begun survey.now.events.now }
    requires second { second ≤ begun survey.now.events.now }
    ensures { IsTrue result ↔ (¬ StandsBefore survey.now.order.now first second) }
{
    survey.places.at[second as usize] <= survey.places.at[first as usize]
}

/// Whether session order has the first before the second.
pub fn is_session_ordered(survey: &Survey<'_>, txns: &[Txn], first: u32, second: u32) -> bool
    requires txns { StandsForTxns survey.now.events.now txns.now }
    requires first { IsNumber survey.now.events.now first }
    requires second { IsNumber survey.now.events.now second }
    ensures { IsTrue result ↔ IsSessionOrdered survey.now.events.now first second }
{
    let earlier = txn_of(survey, txns, first);
    let later = txn_of(survey, txns, second);
    first < second && earlier.session == later.session
}

/// Whether session order has the first before the second, and the order hasn't.
fn is_out(survey: &Survey<'_>, txns: &[Txn], first: u32, second: u32) -> bool
    requires survey { IsSurvey survey.now }
    requires txns { StandsForTxns survey.now.events.now txns.now }
    requires first { IsNumber survey.now.events.now first }
    requires second { IsNumber survey.now.events.now second }
    ensures { IsTrue result ↔ IsOutOfSession survey.now.events.now survey.now.order.now first second }
{
    is_session_ordered(survey, txns, first, second) && is_late(survey, first, second)
}

/// The first transaction that comes after this one in its session, and doesn't in the order.
fn first_late(survey: &Survey<'_>, txns: &[Txn], earlier: u32) -> Option<u32>
    requires survey { IsSurvey survey.now }
    requires txns { StandsForTxns survey.now.events.now txns.now }
    requires earlier { IsNumber survey.now.events.now earlier }
    ensures is { IfSome result (λ later. IsOutOfSession survey.now.events.now survey.now.order.now earlier later) }
    ensures least { IfSome result (λ later. (other : ℕ) → IsOutOfSession survey.now.events.now survey.now.order.now earlier other → later ≤ other) }
    ensures none { IfNone result ((other : ℕ) → ¬ IsOutOfSession survey.now.events.now survey.now.order.now earlier other) }
{
    for at in 0..txns.len() {
        let later = at as u32 + 1;
        if is_out(survey, txns, earlier, later) {
            return Some(later);
        }
    }
    None
}

/// The least pair that session order has, and the order hasn't.
pub fn first_out_of_session(survey: &Survey<'_>, txns: &[Txn]) -> Option<(u32, u32)>
    requires survey { IsSurvey survey.now }
    requires txns { StandsForTxns survey.now.events.now txns.now }
    ensures some { IfSome result (λ pair. IsFirstOutOfSession survey.now.events.now survey.now.order.now pair.0 pair.1) }
    ensures none { IfNone result (KeepsSessions survey.now.events.now survey.now.order.now) }
{
    for at in 0..txns.len() {
        let earlier = at as u32 + 1;
        if let Some(later) = first_late(survey, txns, earlier) {
            return Some((earlier, later));
        }
    }
    None
}
