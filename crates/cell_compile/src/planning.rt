// The calls of a plan.
use crate::Plan;
use crate::answers::{replied, take_write, with_keys, with_value, with_written};
use crate::beginning::{change_plan, insert_plan, select_plan};
use crate::handing::{put, without};
use crate::next::Next;
use cell_base::{Cell, Memory, SqlState, Value};
use sql_tree::{Table, Typed};
use statement_course::{Demand, Outcome, PlanAnswer};
use std::alloc::Global;
use std::mem;

impl Plan {
    ghost use Rattle.std.specs.Prelude.{◌≡◌, ◌<◌, true, IfOk, OnOk};
    ghost use Rattle.cell_base.specs.declared.cell.Cell as cells;
    ghost use Rattle.cell_base.specs.declared.value.Value as values;
    ghost use Rattle.statement_course.specs.declared.demand.Demand.TheVariants as demands;
    ghost use Rattle.statement_course.specs.declared.demand.Outcome as outcomes;
    ghost use Rattle.statement_course.specs.declared.demand.PlanAnswer.TheVariants as answers;
    ghost use Rattle.statement_course.specs.Course.{FitsDemand, following, done, first_demand};
    ghost use Rattle.statement_course.specs.Statements.{course_of};
    ghost use Rattle.cell_compile.specs.Narrow.{AreNarrow};
    ghost use Rattle.cell_compile.specs.Plans.{left_of, next_answers, next_course, rest_of};
    ghost use Rattle.cell_compile.specs.Together.{go_together};

    /// The plan of a statement over these tables. It copies of them only what the statement needs later.
    #[tactic(auto, unfolding(statement_course::specs::Statements::course_of))]
    pub fn new(alloc: Global, typed: Typed, tables: &[Table]) -> Result<Plan, Memory>
        requires { AreNarrow tables.now }
        ensures { IfOk result (λ plan. rest_of plan ≡ course_of tables.now typed) }
    {
        match typed {
            Typed::Select(select) => select_plan(alloc, select, tables),
            Typed::Insert(insert) => insert_plan(alloc, insert, tables),
            Typed::Change(change) => change_plan(alloc, change, tables),
        }
    }

    /// What the statement demands.
    pub fn demand(&self) -> &Demand
        ensures { result.now ≡ first_demand (rest_of self.now) }
    {
        &self.demand
    }

    /// Goes on with the answer to the demand. Out of memory, the plan is spent.
    pub fn answer(&mut self, answer: PlanAnswer) -> Result<(), Memory>
        requires { FitsDemand (rest_of self.old) answer }
        ensures course { OnOk result (rest_of self.new ≡ following (rest_of self.old) answer) }
        ensures less { OnOk result (left_of self.new < left_of self.old) }
    {
        let plan = self.taken();
        put(self, plan.answered(answer)?);
        Ok(())
    }

    /// Takes the cell and the value out that are to be written. The plan goes on as when they are.
    pub fn take_write(&mut self) -> (Cell, Value)
        requires { (cell : cells.Cell) × (value : values.Value) × (first_demand (rest_of self.old) ≡ demands.Write cell value) }
        ensures write { first_demand (rest_of self.old) ≡ demands.Write result.0 result.1 }
        ensures course { rest_of self.new ≡ following (rest_of self.old) answers.Written }
        ensures less { left_of self.new < left_of self.old }
    {
        let (cell, value, plan) = self.taken().without_write();
        put(self, plan);
        (cell, value)
    }

    /// What the statement comes to, where it demands nothing more.
    pub fn into_outcome(self) -> Outcome
        requires { (outcome : outcomes.Outcome) × (rest_of self ≡ done outcome) }
        ensures { rest_of self ≡ done result }
    {
        let Plan {
            alloc: _,
            demand,
            next,
        } = self;
        without(next, replied(demand))
    }

    #[tactic(auto, unfolding(crate::specs::Plans::rest_of, crate::specs::Plans::left_of))]
    pub(crate) fn of(alloc: Global, demand: Demand, next: Next) -> Plan
        requires { go_together demand next ≡ true }
        ensures course { rest_of result ≡ next_course demand next }
        ensures left { left_of result ≡ next_answers demand next }
    {
        Plan {
            alloc,
            demand,
            next,
        }
    }

    /// Takes the plan out; a spent one stands in its place.
    fn taken(&mut self) -> Plan
        ensures { result ≡ self.old }
    {
        let spent = Plan::of(
            self.alloc,
            Demand::Reply(Outcome::Failed(SqlState::S53200)),
            Next::Nothing,
        );
        mem::replace(self, spent)
    }

    #[tactic(auto, unfolding(crate::specs::Plans::rest_of, crate::specs::Plans::left_of))]
    fn without_write(self) -> (Cell, Value, Plan)
        requires { (cell : cells.Cell) × (value : values.Value) × (first_demand (rest_of self) ≡ demands.Write cell value) }
        ensures write { first_demand (rest_of self) ≡ demands.Write result.0 result.1 }
        ensures course { rest_of result.2 ≡ following (rest_of self) answers.Written }
        ensures less { left_of result.2 < left_of self }
    {
        let Plan {
            alloc,
            demand,
            next,
        } = self;
        take_write(alloc, demand, next)
    }

    #[tactic(auto, unfolding(crate::specs::Plans::rest_of, crate::specs::Plans::left_of))]
    fn answered(self, answer: PlanAnswer) -> Result<Plan, Memory>
        requires { FitsDemand (rest_of self) answer }
        ensures course { IfOk result (λ plan. rest_of plan ≡ following (rest_of self) answer) }
        ensures less { IfOk result (λ plan. left_of plan < left_of self) }
    {
        let Plan {
            alloc,
            demand,
            next,
        } = self;
        match answer {
            PlanAnswer::Keys(keys) => with_keys(alloc, demand, next, keys),
            PlanAnswer::Value(value) => with_value(alloc, demand, next, value),
            PlanAnswer::Written => with_written(alloc, demand, next),
        }
    }
}
