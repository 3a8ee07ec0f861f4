// Aggregates over a group of rows, row by row.
ghost use Rattle.std.specs.Prelude.{List, [], map, Ok, IfOk};
ghost use Rattle.sql_tree.specs.declared.typed_expr.TypedExpr as tree;
ghost use Rattle.expr_eval.specs.Lent.{seen};
ghost use Rattle.expr_eval.specs.Values.{Row};
ghost use Rattle.row_meaning.specs.Groups.{group_values};
ghost use Rattle.typing_rules.specs.Gives.{Gives};
ghost use Rattle.typing_rules.specs.Outcome.{and_then, all_of};
ghost use Rattle.row_totals.specs.Tallies.{told};
ghost use Rattle.row_totals.specs.Filling.{all_filled};
ghost use Rattle.row_totals.specs.Standing.{Stands, Adds};

use crate::calls::{Call, add_row, collect_each, totals};
use crate::filling::fill_all;
use cell_base::{Items, Memory, SqlFault, Value};
use sql_tree::TypedExpr;
use std::alloc::Global;

/// What the aggregates of some expressions keep of the rows that were added so far.
#[derive(Debug, Drop)]
pub struct Totals {
    alloc: Global,
    calls: Vec<Call>,
}

impl Totals {
    /// Of no row.
    pub fn new(alloc: Global, exprs: &[TypedExpr]) -> Result<Totals, Memory>
        ensures { IfOk result (λ totals. Stands totals exprs.now []) }
    {
        let mut calls = Vec::new(alloc);
        collect_each(alloc, exprs, &mut calls)?;
        Ok(Totals { alloc, calls })
    }

    /// Evaluates the operands of all aggregates over one more row, in text order. After a fault the totals aren't used any
    /// more.
    pub fn add(&mut self, row: &[&[Value]]) -> Result<(), SqlFault>
        ensures { (exprs : List tree.TypedExpr) (rows : List Row) → Stands self.old exprs rows → Adds result self.new exprs rows (seen row.now) }
    {
        add_row(self.alloc, &mut self.calls, row)
    }

    /// The values of the expressions over the rows that were added. The expressions are those of `new`.
    pub fn finish(self, exprs: &[TypedExpr]) -> Result<Items<Value>, SqlFault>
        ensures { (rows : List Row) → Stands self exprs.now rows → Gives (group_values exprs.now rows) result }
    {
        let Totals { alloc, calls } = self;
        values_of(alloc, calls, exprs)
    }
}

fn values_of(alloc: Global, calls: Vec<Call>, exprs: &[TypedExpr]) -> Result<Items<Value>, SqlFault>
    ensures { Gives (and_then (all_of (map (λ call. told call.tally) calls.items)) (λ values. all_filled exprs.now (map Ok values))) result }
{
    let values = totals(alloc, calls)?;
    fill_all(alloc, exprs, values.as_slice())
}
