// What an aggregate keeps of the values that it has seen.
ghost use Rattle.std.specs.Prelude.{◌≡◌, ◌+ℤ◌, IfOk, unwrap_or, option_map, false};
ghost use Rattle.expr_eval.specs.Lent.{owned};
ghost use Rattle.expr_eval.specs.Operators as operators;
ghost use Rattle.row_meaning.specs.Groups as groups;
ghost use Rattle.row_totals.specs.Tallies as tallies;

use cell_base::{Memory, SqlState, SqlType, Value};
use expr_eval::{Datum, is_null, to_value};
use sql_tree::Aggregate;
use std::alloc::Global;
use std::cmp::Ordering;

/// A sum so far.
#[derive(Debug, Drop)]
pub enum Partial {
    /// Of no value.
    Nothing,
    /// A number of the sum's type.
    Number(i128),
    /// A partial sum left the type.
    Outside,
}

/// Which value of several is looked for.
#[derive(Clone, Copy, Debug)]
pub enum Extreme {
    /// The least one, for min.
    Least,
    /// The greatest one, for max.
    Greatest,
}

/// What an aggregate keeps of the values that it has seen.
#[derive(Debug, Drop)]
pub enum Tally {
    /// Of count: how many.
    Count(u64),
    /// Of sum, with its type.
    Sum(SqlType, Partial),
    /// Of min and max: the value that no other one wins over.
    Best(Extreme, Option<Value>),
}

/// Before the first value.
pub fn started(kind: SqlType, function: Aggregate) -> Tally
    ensures { result ≡ tallies.started kind function }
{
    match function {
        Aggregate::Count => Tally::Count(0),
        Aggregate::Sum => Tally::Sum(kind, Partial::Nothing),
        Aggregate::Min => Tally::Best(Extreme::Least, None),
        Aggregate::Max => Tally::Best(Extreme::Greatest, None),
    }
}

/// The tally with one value more, or none where it stays as it is.
pub fn changed(alloc: Global, tally: &Tally, value: Datum<'_>) -> Result<Option<Tally>, Memory>
    ensures { IfOk result (λ new. unwrap_or new tally.now ≡ tallies.with_value tally.now (owned value.entry)) }
{
    if is_null(value) {
        return Ok(None);
    }
    match tally {
        Tally::Count(count) => Ok(Some(Tally::Count(count.saturating_add(1)))),
        Tally::Sum(kind, so_far) => Ok(Some(Tally::Sum(*kind, summed(*kind, so_far, value)))),
        Tally::Best(extreme, found) => best(alloc, *extreme, found, value),
    }
}

fn best(
    alloc: Global,
    extreme: Extreme,
    found: &Option<Value>,
    value: Datum<'_>,
) -> Result<Option<Tally>, Memory>
    ensures { IfOk result (λ new. unwrap_or new (Tally.Best extreme found.now)
        ≡ Tally.Best extreme (tallies.preferred extreme found.now (owned value.entry))) }
{
    let stays = match found {
        Some(found) => !wins(extreme, value, found),
        None => false,
    };
    if stays {
        Ok(None)
    } else {
        Ok(Some(Tally::Best(extreme, Some(to_value(alloc, value)?))))
    }
}

/// Whether a value comes before the one that was found: above it for max, below it for min.
fn wins(extreme: Extreme, value: Datum<'_>, found: &Value) -> bool
    ensures { result ≡ unwrap_or (option_map (tallies.wins extreme) (operators.order_of (owned value.entry) found.now)) false }
{
    match order_of(value, found) {
        Some(order) => match extreme {
            Extreme::Greatest => order.is_gt(),
            Extreme::Least => order.is_lt(),
        },
        None => false,
    }
}

fn order_of(value: Datum<'_>, found: &Value) -> Option<Ordering>
    ensures { result ≡ operators.order_of (owned value.entry) found.now }
{
    match (value, found) {
        (Datum::Int(a), Value::Int(b)) => Some(a.cmp(b)),
        (Datum::Text(a), Value::Text(b)) => Some(a.cmp(b)),
        (Datum::Flag(a), Value::Flag(b)) => Some(a.cmp(b)),
        _ => None,
    }
}

fn summed(kind: SqlType, so_far: &Partial, value: Datum<'_>) -> Partial
    ensures { result ≡ tallies.summed kind so_far.now (owned value.entry) }
{
    match so_far {
        Partial::Nothing => added(kind, 0, integer(value)),
        Partial::Number(n) => added(kind, *n, integer(value)),
        Partial::Outside => Partial::Outside,
    }
}

fn integer(value: Datum<'_>) -> i64
    ensures { result ≡ groups.integer (owned value.entry) }
{
    match value {
        Datum::Int(n) => n,
        _ => 0,
    }
}

fn added(kind: SqlType, so_far: i128, n: i64) -> Partial
    ensures { result ≡ tallies.kept kind (so_far +ℤ n) }
{
    match so_far.checked_add(n as i128) {
        Some(sum) => kept(kind, sum),
        None => Partial::Outside,
    }
}

fn kept(kind: SqlType, sum: i128) -> Partial
    ensures { result ≡ tallies.kept kind sum }
{
    match number_in(kind, sum) {
        Ok(_) => Partial::Number(sum),
        Err(_) => Partial::Outside,
    }
}

/// The number as a value of the type: numeric has all of 128 bits, and every other sum is a bigint.
fn number_in(kind: SqlType, n: i128) -> Result<Value, SqlState>
    ensures { result ≡ groups.number_in kind n }
{
    match kind {
        SqlType::Numeric => Ok(Value::Wide(n)),
        _ => match i64::try_from(n) {
            Ok(n) => Ok(Value::Int(n)),
            Err(_) => Err(SqlState::S22003),
        },
    }
}

/// The value of the aggregate. What min or max found is taken out.
pub fn told(tally: &mut Tally) -> Result<Value, SqlState>
    ensures { result ≡ tallies.told tally.old }
{
    match tally {
        Tally::Count(count) => number_in(SqlType::Bigint, *count as i128),
        Tally::Sum(kind, so_far) => told_sum(*kind, so_far),
        Tally::Best(_, found) => Ok(found.take().unwrap_or(Value::Null)),
    }
}

fn told_sum(kind: SqlType, so_far: &Partial) -> Result<Value, SqlState>
    ensures { result ≡ tallies.told_sum kind so_far.now }
{
    match so_far {
        Partial::Nothing => Ok(Value::Null),
        Partial::Number(n) => number_in(kind, *n),
        Partial::Outside => Err(SqlState::S22003),
    }
}
