// The columns that expressions mention.
ghost use Rattle.std.specs.Prelude.{◌≡◌, ◌==◌, ◌&&◌, ◌<◌, ◌^◌, Bool, false, not, length, get_or, replicate, IfOk};
ghost use Rattle.std.specs.List.{list_any};
ghost use Rattle.typing_rules.specs.Mentions.{kept, mentions, numbers_from};
ghost use Rattle.typing_parts.specs.Marked.{IsMarked};

use cell_base::{Items, Memory};
use sql_tree::{TypedExpr, TypedNode};
use std::alloc::Global;
use std::marker::Model;

/// A mark for each column of a table.
#[derive(Debug, Drop)]
pub struct Marks {
    marks: Vec<bool>,
}

impl Model for Marks {
    ghost use Rattle.std.specs.Prelude.{Bool, List};
    ghost use Rattle.std.specs.Coded.{codes};

    ghost Value = { List Bool };

    ghost coded = { Prim.hlevel codes };

    ghost view = { λ m. m.marks.items };
}

impl Marks {
    /// No column of so many is marked.
    pub fn new(alloc: Global, columns: usize) -> Result<Marks, Memory>
        ensures { IfOk result (λ marks. marks ≡ replicate {A = Bool} columns false) }
    {
        Ok(Marks {
            marks: vec![in alloc; false; columns]?,
        })
    }

    /// Marks each column that stands in the expression as one of this entry of FROM, in one walk.
    pub fn add(&mut self, expr: &TypedExpr, entry: u32)
        ensures { IsMarked self.old self.new (λ c. mentions entry c expr.now) }
    {
        mark(expr, entry, self.marks.as_mut_slice());
    }

    /// Whether a column is marked; one that the table doesn't have isn't.
    pub fn has(&self, column: u32) -> bool
        ensures { result ≡ get_or self.now column false }
    {
        match self.marks.get(column as usize) {
            Some(is_marked) => *is_marked,
            None => false,
        }
    }

    /// The numbers of the columns that are marked, but for the key, ascending.
    pub fn columns(&self, alloc: Global, key: u32) -> Result<Items<u32>, Memory>
        requires { length self.now < 2 ^ 32 }
        ensures { IfOk result (λ columns. columns
            ≡ kept (λ c. not (c == key) && get_or self.now c false) (numbers_from 0 (length self.now))) }
    {
        marked_columns(alloc, self.marks.as_slice(), key)
    }
}

fn marked_columns(alloc: Global, marks: &[bool], key: u32) -> Result<Items<u32>, Memory>
    requires { length marks.now < 2 ^ 32 }
    ensures { IfOk result (λ columns. columns
        ≡ kept (λ c. not (c == key) && get_or marks.now c false) (numbers_from 0 (length marks.now))) }
{
    let mut columns = Items::new(alloc);
    for (i, is_marked) in marks.iter().enumerate() {
        let column = i as u32;
        if is_wanted(column, key, *is_marked) {
            columns.push(column)?;
        }
    }
    Ok(columns)
}

fn is_wanted(column: u32, key: u32, is_marked: bool) -> bool
    ensures { result ≡ (not (column == key) && is_marked) }
{
    column != key && is_marked
}

#[cycle(marks)]
fn mark(expr: &TypedExpr, entry: u32, marks: &mut [bool])
    ensures { IsMarked marks.old marks.new (λ c. mentions entry c expr.now) }
{
    match &expr.node {
        TypedNode::Constant(_) | TypedNode::Aggregate(_, None) => {}
        TypedNode::Column(e, c) => {
            if *e == entry {
                mark_column(*c, marks);
            }
        }
        TypedNode::Aggregate(_, Some(operand))
        | TypedNode::Neg(operand)
        | TypedNode::Not(operand)
        | TypedNode::IsNull(operand, _) => mark(operand.get(), entry, marks),
        TypedNode::Binary(_, left, right) => {
            mark(left.get(), entry, marks);
            mark(right.get(), entry, marks);
        }
        TypedNode::In(left, members, _) => {
            mark(left.get(), entry, marks);
            mark_each(members.as_slice(), entry, marks);
        }
    }
}

#[cycle(marks)]
fn mark_each(exprs: &[TypedExpr], entry: u32, marks: &mut [bool])
    ensures { IsMarked marks.old marks.new (λ c. list_any (mentions entry c) exprs.now) }
{
    for expr in exprs {
        mark(expr, entry, marks);
    }
}

fn mark_column(column: u32, marks: &mut [bool])
    ensures { IsMarked marks.old marks.new (λ c. column == c) }
{
    if (column as usize) < marks.len() {
        marks[column as usize] = true;
    }
}
