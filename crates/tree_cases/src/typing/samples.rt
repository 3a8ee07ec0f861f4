// What several tests look for in typed trees.
use cell_base::{Key, SqlFault, SqlState, Value};
use sql_tree::{TypedExpr, TypedNode};

/// The code of a fault, if it has one.
pub fn code_of(fault: SqlFault) -> Option<SqlState> {
    match fault {
        SqlFault::State(code) => Some(code),
        SqlFault::Memory => None,
    }
}

pub fn is_column(expr: &TypedExpr, entry: u32, column: u32) -> bool {
    match &expr.node {
        TypedNode::Column(e, c) => *e == entry && *c == column,
        _ => false,
    }
}

/// Whether it is this number, or null where no number is given.
pub fn is_constant(expr: &TypedExpr, expected: Option<i64>) -> bool {
    match (&expr.node, expected) {
        (TypedNode::Constant(Value::Int(number)), Some(expected)) => *number == expected,
        (TypedNode::Constant(Value::Null), None) => true,
        _ => false,
    }
}

pub fn is_key(key: &Option<Key>, expected: i64) -> bool {
    match key {
        Some(Key::Int(number)) => *number == expected,
        _ => false,
    }
}
