// Which of two rows stands first.
ghost use Rattle.std.specs.Prelude.{◌≡◌};
ghost use Rattle.row_meaning.specs.Ordering as ordering;

use cell_base::Value;
use std::cmp::Ordering;

/// By the first term in which they differ; true stands for DESC.
pub fn by_terms(directions: &[bool], left: &[Value], right: &[Value]) -> Ordering
    ensures { result ≡ ordering.order_by directions.now left.now right.now }
{
    for (place, descending) in directions.iter().enumerate() {
        match (left.get(place), right.get(place)) {
            (Some(a), Some(b)) => {
                let order = directed(*descending, a, b);
                if order.is_ne() {
                    return order;
                }
            }
            (None, None) => return Ordering::Equal,
            (None, Some(_)) => return Ordering::Less,
            (Some(_), None) => return Ordering::Greater,
        }
    }
    Ordering::Equal
}

fn directed(descending: bool, left: &Value, right: &Value) -> Ordering
    ensures { result ≡ ordering.order_directed descending left.now right.now }
{
    if descending {
        ascending(right, left)
    } else {
        ascending(left, right)
    }
}

/// Integers by value, text by bytes, false below true, and null above every value.
fn ascending(left: &Value, right: &Value) -> Ordering
    ensures { result ≡ ordering.order_ascending left.now right.now }
{
    match (left, right) {
        (Value::Flag(a), Value::Flag(b)) => a.cmp(b),
        (Value::Int(a), Value::Int(b)) => a.cmp(b),
        (Value::Wide(a), Value::Wide(b)) => a.cmp(b),
        (Value::Text(a), Value::Text(b)) => a.cmp(b),
        _ => rank(left).cmp(&rank(right)),
    }
}

/// Where the value's type stands among the others.
fn rank(value: &Value) -> u8
    ensures { result ≡ ordering.rank value.now }
{
    match value {
        Value::Unset => 0,
        Value::Flag(_) => 1,
        Value::Int(_) => 2,
        Value::Wide(_) => 3,
        Value::Text(_) => 4,
        Value::Null => 5,
    }
}
