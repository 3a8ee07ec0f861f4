// The key at which a table is read.
ghost use Rattle.std.specs.Prelude.{◌≡◌, ℕ, IfOk};
ghost use Rattle.std.specs.Option.{option_map};
ghost use Rattle.typing_rules.specs.Points as spec;
ghost use Rattle.typing_parts.specs.Readings.{reading};

use cell_base::{Key, Memory, Value};
use sql_tree::{Op, TypedExpr, TypedNode};
use std::alloc::Global;

/// The key that the first of the condition's conjuncts of the form `key = constant` or `constant = key` asks, where this
/// column of this entry is the key. A constant is a literal of the key's types, also an integer after one minus sign.
pub fn point_of(
    alloc: Global,
    filter: Option<&TypedExpr>,
    entry: u32,
    column: u32,
) -> Result<Option<Key>, Memory>
    ensures { IfOk result (λ key. key ≡ spec.point_of entry column (option_map (λ f. f.now) filter.entry)) }
{
    match filter {
        None => Ok(None),
        Some(expr) => point_in(alloc, expr, entry, column),
    }
}

#[cycle(points)]
fn point_in(alloc: Global, expr: &TypedExpr, entry: u32, column: u32) -> Result<Option<Key>, Memory>
    ensures { IfOk result (λ key. key ≡ (reading entry column expr.now).point) }
{
    match &expr.node {
        TypedNode::Binary(Op::And, left, right) => {
            match point_in(alloc, left.get(), entry, column)? {
                Some(key) => Ok(Some(key)),
                None => point_in(alloc, right.get(), entry, column),
            }
        }
        TypedNode::Binary(Op::Eq, left, right) => {
            asked(alloc, left.get(), right.get(), entry, column)
        }
        _ => Ok(None),
    }
}

/// The key that an equation asks.
fn asked(
    alloc: Global,
    left: &TypedExpr,
    right: &TypedExpr,
    entry: u32,
    column: u32,
) -> Result<Option<Key>, Memory>
    ensures { IfOk result (λ key. key ≡ spec.asked (reading entry column left.now) (reading entry column right.now)) }
{
    if is_column(left, entry, column) {
        constant_key(alloc, right)
    } else if is_column(right, entry, column) {
        constant_key(alloc, left)
    } else {
        Ok(None)
    }
}

fn is_column(expr: &TypedExpr, entry: u32, column: u32) -> bool
    ensures { result ≡ (reading entry column expr.now).is_key }
{
    match &expr.node {
        TypedNode::Column(e, c) => *e == entry && *c == column,
        _ => false,
    }
}

/// A literal, also an integer after one minus sign, as a key.
fn constant_key(alloc: Global, expr: &TypedExpr) -> Result<Option<Key>, Memory>
    ensures { IfOk result (λ key. (e c : ℕ) → key ≡ (reading e c expr.now).constant) }
{
    match &expr.node {
        TypedNode::Constant(value) => literal_key(alloc, value),
        TypedNode::Neg(operand) => Ok(negative_key(operand.get())),
        _ => Ok(None),
    }
}

fn literal_key(alloc: Global, value: &Value) -> Result<Option<Key>, Memory>
    ensures { IfOk result (λ key. key ≡ spec.literal_key value.now) }
{
    match value {
        Value::Int(number) => Ok(Some(Key::Int(*number))),
        Value::Text(text) => Ok(Some(Key::Text(text.copy(alloc)?))),
        _ => Ok(None),
    }
}

/// The opposite of an integer literal.
fn negative_key(operand: &TypedExpr) -> Option<Key>
    ensures { (e c : ℕ) → result ≡ spec.negative_key (reading e c operand.now).literal }
{
    match &operand.node {
        TypedNode::Constant(Value::Int(number)) => number.checked_neg().map(Key::Int),
        _ => None,
    }
}
