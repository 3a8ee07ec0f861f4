// Whether a SELECT calls an aggregate, whether or not the call has a type.
ghost use Rattle.std.specs.Prelude.{◌≡◌};
ghost use Rattle.std.specs.List.{list_any};
ghost use Rattle.sql_tree.specs.declared.statement.OrderTerm.{OrderTerm};
ghost use Rattle.typing_rules.specs.Select as spec;

use expr_typing::aggregate_named;
use sql_tree::{Expr, Item, OrderTerm, Select};

#[cycle(calls)]
fn calls_aggregate(expr: &Expr) -> bool
    ensures { result ≡ spec.calls_aggregate expr.now }
{
    match expr {
        Expr::Int(_) | Expr::Str(_) | Expr::Flag(_) | Expr::Null | Expr::Column(_, _) => false,
        Expr::Call(name, None) => aggregate_named(name).is_some(),
        Expr::Call(name, Some(argument)) => {
            aggregate_named(name).is_some() || calls_aggregate(argument.get())
        }
        Expr::Neg(operand) => calls_aggregate(operand.get()),
        Expr::Not(operand) => calls_aggregate(operand.get()),
        Expr::IsNull(operand, _) => calls_aggregate(operand.get()),
        Expr::Binary(_, left, right) => calls_aggregate(left.get()) || calls_aggregate(right.get()),
        Expr::In(left, members, _) => {
            calls_aggregate(left.get()) || any_calls(members.as_slice())
        }
    }
}

#[cycle(calls)]
fn any_calls(exprs: &[Expr]) -> bool
    ensures { result ≡ list_any spec.calls_aggregate exprs.now }
{
    for expr in exprs {
        if calls_aggregate(expr) {
            return true;
        }
    }
    false
}

fn item_calls(item: &Item) -> bool
    ensures { result ≡ spec.item_calls item.now }
{
    match item {
        Item::Star => false,
        Item::Expr(expr, _) => calls_aggregate(expr),
    }
}

fn items_call(items: &[Item]) -> bool
    ensures { result ≡ list_any spec.item_calls items.now }
{
    for item in items {
        if item_calls(item) {
            return true;
        }
    }
    false
}

fn terms_call(terms: &[OrderTerm]) -> bool
    ensures { result ≡ list_any (λ (t : OrderTerm). spec.calls_aggregate t.expr) terms.now }
{
    for term in terms {
        if calls_aggregate(&term.expr) {
            return true;
        }
    }
    false
}

/// Whether an aggregate is called in the items or in ORDER BY.
pub fn has_aggregate(select: &Select) -> bool
    ensures { result ≡ spec.has_aggregate select.now }
{
    items_call(select.items.as_slice()) || terms_call(select.order.as_slice())
}
