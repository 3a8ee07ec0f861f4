// The columns of a SELECT's result: their names and values.
ghost use Rattle.std.specs.Prelude.{◌≡◌, ◌++◌, [], ◌∷◌, IfOk, OnOk, map};
ghost use Rattle.std.specs.Option.{option_map};
ghost use Rattle.typing_rules.specs.Select as spec;
ghost use Rattle.select_typing.specs.Outputs.{output, outputs};

use crate::kept::beside;
use cell_base::{Items, Memory, Text};
use sql_tree::{OutField, TypedExpr};
use std::alloc::Global;

/// A column of the result: its name and its value.
#[derive(Debug, Drop)]
pub struct Output {
    pub name: Text,
    pub expr: TypedExpr,
}

/// The columns of the result and the values of a row, apart.
#[derive(Debug, Drop)]
pub struct Columns {
    pub fields: Items<OutField>,
    pub items: Items<TypedExpr>,
}

/// The columns with one more after them.
pub fn with_output(before: Items<Output>, last: Output) -> Result<Items<Output>, Memory>
    ensures { IfOk result (λ all. all ≡ before ++ last ∷ []) }
{
    let mut all = before;
    all.push(last)?;
    Ok(all)
}

/// The first column of the result of this name.
pub fn output_named<'a>(all: &'a [Output], name: &Text) -> Option<&'a Output>
    ensures { option_map (λ o. output o.now) result ≡ spec.output_named name.now (outputs all.now) }
{
    for output in all {
        if output.name.as_str() == name.as_str() {
            return Some(output);
        }
    }
    None
}

/// The field and the value of one column more.
fn add_column(
    fields: &mut Items<OutField>,
    items: &mut Items<TypedExpr>,
    last: Output,
) -> Result<(), Memory>
    ensures field { OnOk result (fields.new ≡ fields.old ++ spec.field_of (output last) ∷ []) }
    ensures item { OnOk result (items.new ≡ items.old ++ (output last).expr ∷ []) }
{
    let Output { name, expr } = last;
    let kind = expr.kind;
    let pushed = fields.push(OutField { name, kind });
    let (expr, ()) = beside(expr, pushed)?;
    items.push(expr)
}

/// The fields and the values of the columns.
pub fn columns_of(alloc: Global, all: Items<Output>) -> Result<Columns, Memory>
    ensures fields { IfOk result (λ columns. columns.fields ≡ map spec.field_of (outputs all)) }
    ensures items { IfOk result (λ columns. columns.items ≡ map (λ (o : spec.Output). o.expr) (outputs all)) }
{
    let mut fields = Items::new(alloc);
    let mut items = Items::new(alloc);
    for output in all.into_vec() {
        add_column(&mut fields, &mut items, output)?;
    }
    Ok(Columns { fields, items })
}
