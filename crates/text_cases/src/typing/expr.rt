// Typed expressions as text: the type stands after each node, and operands stand in parentheses after their operator.
//
// Types are `b` boolean, `i` integer, `l` bigint, `t` text, `v` varchar, `v3` varchar(3) and `n` numeric. A column is the number
// of its entry, a point and its number in its table: `=(0.0:l 1:i):b` is k = 1 with a bigint k.
use crate::typing::shown::WithTypes;
use case_lines::{Line, Shown};
use cell_base::{SqlType, Text, Value};
use sql_tree::{Aggregate, Op, TypedExpr, TypedNode};

fn push_varchar(line: &mut Line, length: u32) {
    line.word(":v");
    if length > 0 {
        line.number(i64::from(length));
    }
}

/// The type, after a colon.
pub fn push_kind(line: &mut Line, kind: SqlType) {
    match kind {
        SqlType::Boolean => line.word(":b"),
        SqlType::Integer => line.word(":i"),
        SqlType::Bigint => line.word(":l"),
        SqlType::Text => line.word(":t"),
        SqlType::Varchar(length) => push_varchar(line, length),
        SqlType::Numeric => line.word(":n"),
    }
}

fn sign(op: Op) -> &'static str {
    match op {
        Op::Add => "+",
        Op::Sub => "-",
        Op::Mul => "*",
        Op::Div => "/",
        Op::Rem => "%",
        Op::Eq => "=",
        Op::Ne => "<>",
        Op::Lt => "<",
        Op::Le => "<=",
        Op::Gt => ">",
        Op::Ge => ">=",
        Op::And => "and",
        Op::Or => "or",
    }
}

fn word(function: Aggregate) -> &'static str {
    match function {
        Aggregate::Count => "count",
        Aggregate::Sum => "sum",
        Aggregate::Min => "min",
        Aggregate::Max => "max",
    }
}

/// The text between quotes.
pub fn push_quoted(line: &mut Line, text: &Text) {
    line.word("'");
    line.word(text.as_str());
    line.word("'");
}

/// The value.
pub fn push_value(line: &mut Line, value: &Value) {
    match value {
        Value::Unset => line.word("unset"),
        Value::Null => line.word("null"),
        Value::Flag(flag) => line.word(if *flag { "true" } else { "false" }),
        Value::Int(number) => line.number(*number),
        Value::Wide(_) => line.word("wide"),
        Value::Text(text) => push_quoted(line, text),
    }
}

/// The expression with its type.
#[cycle(show)]
pub fn push_expr(line: &mut Line, expr: &TypedExpr) {
    push_node(line, &expr.node);
    push_kind(line, expr.kind);
}

fn push_column(line: &mut Line, entry: u32, column: u32) {
    line.number(i64::from(entry));
    line.word(".");
    line.number(i64::from(column));
}

/// A node that holds no other one.
fn push_leaf(line: &mut Line, node: &TypedNode) {
    match node {
        TypedNode::Constant(value) => push_value(line, value),
        TypedNode::Column(entry, column) => push_column(line, *entry, *column),
        TypedNode::Aggregate(function, None) => {
            line.word(word(*function));
            line.word("(*)");
        }
        _ => (),
    }
}

#[cycle(show)]
fn push_node(line: &mut Line, node: &TypedNode) {
    match node {
        TypedNode::Aggregate(function, Some(operand)) => {
            push_one(line, word(*function), operand.get())
        }
        TypedNode::Neg(operand) => push_one(line, "neg", operand.get()),
        TypedNode::Not(operand) => push_one(line, "not", operand.get()),
        TypedNode::IsNull(operand, negated) => {
            push_one(
                line,
                if *negated { "isnotnull" } else { "isnull" },
                operand.get(),
            )
        }
        TypedNode::Binary(op, left, right) => {
            line.word(sign(*op));
            line.word("(");
            push_expr(line, left.get());
            line.word(" ");
            push_expr(line, right.get());
            line.word(")");
        }
        TypedNode::In(left, members, negated) => {
            line.word(if *negated { "notin(" } else { "in(" });
            push_expr(line, left.get());
            push_each(line, members.as_slice());
            line.word(")");
        }
        _ => push_leaf(line, node),
    }
}

#[cycle(show)]
fn push_one(line: &mut Line, word: &str, operand: &TypedExpr) {
    line.word(word);
    line.word("(");
    push_expr(line, operand);
    line.word(")");
}

/// The expressions, each after a blank.
#[cycle(show)]
fn push_each(line: &mut Line, exprs: &[TypedExpr]) {
    for expr in exprs {
        line.word(" ");
        push_expr(line, expr);
    }
}

impl Shown<WithTypes> for TypedExpr {
    fn push(&self, line: &mut Line) {
        push_expr(line, self);
    }
}
