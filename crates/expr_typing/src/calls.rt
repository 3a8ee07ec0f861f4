// The types of aggregates.
ghost use Rattle.std.specs.Prelude.{◌≡◌};
ghost use Rattle.typing_rules.specs.Expressions as spec;
ghost use Rattle.typing_rules.specs.Gives.{Gives};

use crate::operands::settled;
use crate::operators::aggregate_type;
use cell_base::{Boxed, SqlFault, SqlState, SqlType};
use sql_tree::{Aggregate, TypedExpr, TypedNode};
use std::alloc::Global;
use typing_rules::{Form, Place};

/// Where the argument of a call stands.
pub fn inside(function: Option<Aggregate>, place: Place) -> Place
    ensures { result ≡ spec.inside function place }
{
    match function {
        None => place,
        Some(_) => Place::Row,
    }
}

/// A call with `*`.
pub fn starred(place: Place, function: Option<Aggregate>) -> Result<Form, SqlFault>
    ensures { Gives (spec.starred place function) result }
{
    match function {
        None => Err(SqlFault::State(SqlState::S0A000)),
        Some(Aggregate::Count) => match place {
            Place::Row => Err(SqlFault::State(SqlState::S42803)),
            Place::Group => Ok(Form::Typed(TypedExpr {
                kind: SqlType::Bigint,
                node: TypedNode::Aggregate(Aggregate::Count, None),
            })),
        },
        Some(_) => Err(SqlFault::State(SqlState::S42883)),
    }
}

fn aggregate(alloc: Global, function: Aggregate, argument: Form) -> Result<Form, SqlFault>
    ensures { Gives (spec.aggregate function argument) result }
{
    let argument = settled(SqlType::Text, argument)?;
    match aggregate_type(function, argument.kind) {
        Some(kind) => Ok(Form::Typed(TypedExpr {
            kind,
            node: TypedNode::Aggregate(function, Some(Boxed::new(alloc, argument)?)),
        })),
        None => {
            drop(argument);
            Err(SqlFault::State(SqlState::S42883))
        }
    }
}

/// A call with an argument.
pub fn aggregated(
    alloc: Global,
    place: Place,
    function: Option<Aggregate>,
    argument: Form,
) -> Result<Form, SqlFault>
    ensures { Gives (spec.aggregated place function argument) result }
{
    match function {
        None => {
            drop(argument);
            Err(SqlFault::State(SqlState::S0A000))
        }
        Some(function) => match place {
            Place::Row => {
                drop(argument);
                Err(SqlFault::State(SqlState::S42803))
            }
            Place::Group => aggregate(alloc, function, argument),
        },
    }
}
