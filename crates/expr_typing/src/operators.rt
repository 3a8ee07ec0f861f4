// Which types an operator and an aggregate take, and the type of what they give.
ghost use Rattle.std.specs.Prelude.{◌≡◌};
ghost use Rattle.typing_rules.specs.Kinds as kinds;
ghost use Rattle.typing_rules.specs.Operators.{aggregate_named};
ghost use Rattle.typing_rules.specs.WellTyped as typed;

use cell_base::{SqlType, Text};
use sql_tree::{Aggregate, Op};

pub fn is_boolean(kind: SqlType) -> bool
    ensures { result ≡ kinds.is_boolean kind }
{
    matches!(kind, SqlType::Boolean)
}

pub fn is_number(kind: SqlType) -> bool
    ensures { result ≡ kinds.is_number kind }
{
    matches!(kind, SqlType::Integer | SqlType::Bigint)
}

fn is_text(kind: SqlType) -> bool
    ensures { result ≡ kinds.is_text kind }
{
    matches!(kind, SqlType::Text | SqlType::Varchar(_))
}

pub fn is_numeric(kind: SqlType) -> bool
    ensures { result ≡ kinds.is_numeric kind }
{
    matches!(kind, SqlType::Numeric)
}

pub fn are_comparable(a: SqlType, b: SqlType) -> bool
    ensures { result ≡ kinds.are_comparable a b }
{
    (is_number(a) && is_number(b))
        || ((is_text(a) && is_text(b)) || (is_boolean(a) && is_boolean(b)))
}

pub fn wider(a: SqlType, b: SqlType) -> SqlType
    ensures { result ≡ kinds.wider a b }
{
    match (a, b) {
        (SqlType::Integer, SqlType::Integer) => SqlType::Integer,
        _ => SqlType::Bigint,
    }
}

pub fn is_arithmetic(op: Op) -> bool
    ensures { result ≡ typed.is_arithmetic op }
{
    matches!(op, Op::Add | Op::Sub | Op::Mul | Op::Div | Op::Rem)
}

pub fn is_connective(op: Op) -> bool
    ensures { result ≡ typed.is_connective op }
{
    matches!(op, Op::And | Op::Or)
}

/// The aggregate of a name.
pub fn aggregate_named(name: &Text) -> Option<Aggregate>
    ensures { result ≡ aggregate_named name.now }
{
    let name = name.as_str();
    if name == "count" {
        Some(Aggregate::Count)
    } else if name == "sum" {
        Some(Aggregate::Sum)
    } else if name == "min" {
        Some(Aggregate::Min)
    } else if name == "max" {
        Some(Aggregate::Max)
    } else {
        None
    }
}

/// The type of an aggregate over values of a type, where it takes them.
pub fn aggregate_type(function: Aggregate, kind: SqlType) -> Option<SqlType>
    ensures { result ≡ typed.aggregate_type function kind }
{
    match function {
        Aggregate::Count => match kind {
            SqlType::Numeric => None,
            _ => Some(SqlType::Bigint),
        },
        Aggregate::Sum => match kind {
            SqlType::Integer => Some(SqlType::Bigint),
            SqlType::Bigint => Some(SqlType::Numeric),
            _ => None,
        },
        Aggregate::Min | Aggregate::Max => match kind {
            SqlType::Integer | SqlType::Bigint | SqlType::Text => Some(kind),
            SqlType::Varchar(_) => Some(SqlType::Text),
            _ => None,
        },
    }
}
