// What an expression means in one row.
ghost use Rattle.std.specs.Prelude.{◌≡◌};
ghost use Rattle.sql_tree.specs.declared.typed_expr.TypedExpr.{TypedExpr};
ghost use Rattle.expr_eval.specs.Values.{value_of};
ghost use Rattle.row_meaning.specs.Groups.{meaning};

/// In one row an expression means its value there, also where it is the operand of an aggregate.
pub fn one_meaning()
    ensures { (e : TypedExpr) → (meaning e).in_row ≡ value_of e }
{}
