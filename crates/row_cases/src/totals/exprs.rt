// The typed expressions of the cases.
use crate::totals::cases::Shape;
use case_lines::boxed;
use cell_base::{Boxed, Items, Memory, SqlType, Value};
use held_values::{both, kept};
use sql_tree::{Aggregate, Op, TypedExpr, TypedNode};
use std::alloc::Global;

fn column(kind: SqlType) -> TypedExpr {
    TypedExpr {
        kind,
        node: TypedNode::Column(0, 0),
    }
}

fn number(kind: SqlType, n: i64) -> TypedExpr {
    TypedExpr {
        kind,
        node: TypedNode::Constant(Value::Int(n)),
    }
}

fn count_rows() -> TypedExpr {
    TypedExpr {
        kind: SqlType::Bigint,
        node: TypedNode::Aggregate(Aggregate::Count, None),
    }
}

fn call(
    alloc: Global,
    kind: SqlType,
    function: Aggregate,
    operand: TypedExpr,
) -> Result<TypedExpr, Memory> {
    let operand = Boxed::new(alloc, operand)?;
    Ok(TypedExpr {
        kind,
        node: TypedNode::Aggregate(function, Some(operand)),
    })
}

fn binary(
    alloc: Global,
    kind: SqlType,
    op: Op,
    left: TypedExpr,
    right: TypedExpr,
) -> Result<TypedExpr, Memory> {
    let (left, right) = boxed(alloc, left, right)?;
    Ok(TypedExpr {
        kind,
        node: TypedNode::Binary(op, left, right),
    })
}

/// The type of an aggregate of x.
fn result_type(kind: SqlType, function: Aggregate) -> SqlType {
    match (function, kind) {
        (Aggregate::Count, _) => SqlType::Bigint,
        (Aggregate::Sum, SqlType::Bigint) => SqlType::Numeric,
        (Aggregate::Sum, _) => SqlType::Bigint,
        (_, SqlType::Varchar(_)) => SqlType::Text,
        (_, kind) => kind,
    }
}

fn sum(alloc: Global, operand: TypedExpr) -> Result<TypedExpr, Memory> {
    call(alloc, SqlType::Bigint, Aggregate::Sum, operand)
}

fn sum_of_quotients(alloc: Global) -> Result<TypedExpr, Memory> {
    sum(
        alloc,
        quotient(alloc, SqlType::Integer, column(SqlType::Integer))?,
    )
}

/// `1 / x`
fn quotient(alloc: Global, kind: SqlType, divisor: TypedExpr) -> Result<TypedExpr, Memory> {
    binary(alloc, kind, Op::Div, number(kind, 1), divisor)
}

fn plus(alloc: Global, left: TypedExpr, n: i64) -> Result<TypedExpr, Memory> {
    binary(
        alloc,
        SqlType::Integer,
        Op::Add,
        left,
        number(SqlType::Integer, n),
    )
}

fn sum_above(alloc: Global) -> Result<TypedExpr, Memory> {
    let next = plus(alloc, column(SqlType::Integer), 1)?;
    sum(alloc, plus(alloc, next, 2147483647)?)
}

fn rows_less(alloc: Global, n: i64) -> Result<TypedExpr, Memory> {
    let kind = SqlType::Bigint;
    binary(alloc, kind, Op::Sub, count_rows(), number(kind, n))
}

fn quotient_of_rows(alloc: Global, n: i64) -> Result<TypedExpr, Memory> {
    quotient(alloc, SqlType::Bigint, rows_less(alloc, n)?)
}

fn mean(alloc: Global) -> Result<TypedExpr, Memory> {
    let total = sum(alloc, column(SqlType::Integer))?;
    binary(alloc, SqlType::Bigint, Op::Div, total, count_rows())
}

fn among(
    alloc: Global,
    left: TypedExpr,
    members: Result<Items<TypedExpr>, Memory>,
) -> Result<TypedExpr, Memory> {
    let (left, members) = both(Boxed::new(alloc, left), members)?;
    Ok(TypedExpr {
        kind: SqlType::Boolean,
        node: TypedNode::In(left, members, false),
    })
}

fn push_rows_or_six(members: &mut Items<TypedExpr>) -> Result<(), Memory> {
    members.push(count_rows())?;
    members.push(number(SqlType::Bigint, 6))
}

fn rows_or_six(alloc: Global) -> Result<Items<TypedExpr>, Memory> {
    let mut members = Items::new(alloc);
    let pushed = push_rows_or_six(&mut members);
    kept(members, pushed)
}

fn sum_in(alloc: Global) -> Result<TypedExpr, Memory> {
    let total = sum(alloc, column(SqlType::Integer))?;
    among(alloc, total, rows_or_six(alloc))
}

fn lacks(alloc: Global, operand: TypedExpr) -> Result<TypedExpr, Memory> {
    let operand = Boxed::new(alloc, operand)?;
    Ok(TypedExpr {
        kind: SqlType::Boolean,
        node: TypedNode::IsNull(operand, false),
    })
}

fn denied(alloc: Global, operand: TypedExpr) -> Result<TypedExpr, Memory> {
    let operand = Boxed::new(alloc, operand)?;
    Ok(TypedExpr {
        kind: SqlType::Boolean,
        node: TypedNode::Not(operand),
    })
}

fn has_sum(alloc: Global) -> Result<TypedExpr, Memory> {
    let total = sum(alloc, column(SqlType::Integer))?;
    denied(alloc, lacks(alloc, total)?)
}

fn negated(alloc: Global, operand: TypedExpr) -> Result<TypedExpr, Memory> {
    let operand = Boxed::new(alloc, operand)?;
    Ok(TypedExpr {
        kind: SqlType::Integer,
        node: TypedNode::Neg(operand),
    })
}

fn negated_max(alloc: Global) -> Result<TypedExpr, Memory> {
    let kind = SqlType::Integer;
    negated(alloc, call(alloc, kind, Aggregate::Max, column(kind))?)
}

fn expr_of(alloc: Global, kind: SqlType, shape: Shape) -> Result<TypedExpr, Memory> {
    match shape {
        Shape::CountRows => Ok(count_rows()),
        Shape::Call(function) => {
            call(alloc, result_type(kind, function), function, column(kind))
        }
        Shape::NarrowSum => sum(alloc, column(kind)),
        Shape::SumOfQuotients => sum_of_quotients(alloc),
        Shape::SumAbove => sum_above(alloc),
        Shape::QuotientOfRows(n) => quotient_of_rows(alloc, n),
        Shape::Mean => mean(alloc),
        Shape::SumIn => sum_in(alloc),
        Shape::HasSum => has_sum(alloc),
        Shape::NegatedMax => negated_max(alloc),
    }
}

fn push_exprs(
    exprs: &mut Items<TypedExpr>,
    alloc: Global,
    kind: SqlType,
    shapes: &[Shape],
) -> Result<(), Memory> {
    for shape in shapes {
        exprs.push(expr_of(alloc, kind, *shape)?)?;
    }
    Ok(())
}

/// The expressions over a column of this type.
pub fn exprs_of(
    alloc: Global,
    kind: SqlType,
    shapes: &[Shape],
) -> Result<Items<TypedExpr>, Memory> {
    let mut exprs = Items::new(alloc);
    let pushed = push_exprs(&mut exprs, alloc, kind, shapes);
    kept(exprs, pushed)
}
