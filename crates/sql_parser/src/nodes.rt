//! Trees from their parts, no deeper than there is room for.

ghost use Rattle.std.specs.Prelude.{◌≡◌, ◌+◌, ◌≤◌, max, IfOk};
ghost use Rattle.std.specs.Option.{option_copied};
ghost use Rattle.sql_grammar.specs.Grammar.{negation, within};
ghost use Rattle.sql_grammar.specs.Reading as spec;
ghost use Rattle.sql_parser.specs.Levels.{level_of_chain};
ghost use Rattle.sql_parser.specs.Reads.{Makes};

use crate::error::Refusal;
use crate::kept::beside;
use crate::levels::Chain;
use cell_base::{Boxed, Items, Memory, Text};
use sql_grammar::{Keyword, Mark, Node};
use sql_tree::{Expr, Op, Sign};
use std::alloc::Global;

/// The tree, whose spelling is by levels deeper than the given depth.
#[tactic(auto, unfolding(sql_grammar::specs::Reading::made))]
pub fn made(room: u32, tree: Expr, by: u32, depth: u32) -> Result<Node, Refusal>
    ensures { Makes (spec.made room tree (by + depth)) result }
{
    if by <= room && depth <= room - by {
        Ok(Node {
            tree,
            depth: by + depth,
        })
    } else {
        drop(tree);
        Err(Refusal::NotInGrammar)
    }
}

pub fn leaf(tree: Expr) -> Node
    ensures { result ≡ spec.node tree 1 }
{
    Node { tree, depth: 1 }
}

pub fn link(chain: Chain, mark: Option<&Mark>) -> Option<Op>
    ensures { result ≡ spec.link_at (level_of_chain chain) (option_copied mark.entry) }
{
    match (chain, mark?) {
        (Chain::Or, Mark::Key(Keyword::Or)) => Some(Op::Or),
        (Chain::And, Mark::Key(Keyword::And)) => Some(Op::And),
        (Chain::Sum, Mark::Sign(Sign::Plus)) => Some(Op::Add),
        (Chain::Sum, Mark::Sign(Sign::Minus)) => Some(Op::Sub),
        (Chain::Product, Mark::Sign(Sign::Star)) => Some(Op::Mul),
        (Chain::Product, Mark::Sign(Sign::Slash)) => Some(Op::Div),
        (Chain::Product, Mark::Sign(Sign::Percent)) => Some(Op::Rem),
        _ => None,
    }
}

pub fn comparison(mark: Option<&Mark>) -> Option<Op>
    ensures { result ≡ spec.comparison_at (option_copied mark.entry) }
{
    match mark? {
        Mark::Sign(Sign::Eq) => Some(Op::Eq),
        Mark::Sign(Sign::Ne) => Some(Op::Ne),
        Mark::Sign(Sign::Lt) => Some(Op::Lt),
        Mark::Sign(Sign::Le) => Some(Op::Le),
        Mark::Sign(Sign::Gt) => Some(Op::Gt),
        Mark::Sign(Sign::Ge) => Some(Op::Ge),
        _ => None,
    }
}

/// Both in boxes. Where memory runs out, they are let go here, and not wherever two trees become one.
fn boxed<T: Drop>(alloc: Global, a: T, b: T) -> Result<(Boxed<T>, Boxed<T>), Memory>
    ensures left { IfOk result (λ both. both.0 ≡ a) }
    ensures right { IfOk result (λ both. both.1 ≡ b) }
{
    let a = Boxed::new(alloc, a)?;
    let b = Boxed::new(alloc, b)?;
    Ok((a, b))
}

pub fn binary(alloc: Global, room: u32, op: Op, a: Node, b: Node) -> Result<Node, Refusal>
    ensures { Makes (spec.made room (Expr.Binary op a.tree b.tree) (1 + max a.depth b.depth)) result }
{
    let depth = a.depth.max(b.depth);
    let (left, right) = boxed(alloc, a.tree, b.tree)?;
    made(room, Expr::Binary(op, left, right), 1, depth)
}

pub fn negative(alloc: Global, room: u32, a: Node) -> Result<Node, Refusal>
    ensures { Makes (spec.made room (Expr.Neg a.tree) (1 + a.depth)) result }
{
    made(room, Expr::Neg(Boxed::new(alloc, a.tree)?), 1, a.depth)
}

pub fn not(alloc: Global, room: u32, a: Node) -> Result<Node, Refusal>
    ensures { Makes (spec.made room (Expr.Not a.tree) (1 + a.depth)) result }
{
    made(room, Expr::Not(Boxed::new(alloc, a.tree)?), 1, a.depth)
}

pub fn null_test(alloc: Global, room: u32, a: Node, negated: bool) -> Result<Node, Refusal>
    ensures { Makes (spec.made room (Expr.IsNull a.tree negated) (1 + a.depth)) result }
{
    made(
        room,
        Expr::IsNull(Boxed::new(alloc, a.tree)?, negated),
        1,
        a.depth,
    )
}

pub fn call(alloc: Global, room: u32, name: Text, a: Node) -> Result<Node, Refusal>
    ensures { Makes (spec.made room (Expr.Call name (Some a.tree)) (1 + a.depth)) result }
{
    made(
        room,
        Expr::Call(name, Some(Boxed::new(alloc, a.tree)?)),
        1,
        a.depth,
    )
}

pub fn one_of(
    alloc: Global,
    room: u32,
    a: Node,
    among: Items<Expr>,
    depth: u32,
    negated: bool,
) -> Result<Node, Refusal>
    ensures { Makes (spec.made room (Expr.In a.tree among negated) (1 + max a.depth depth)) result }
{
    let depth = a.depth.max(depth);
    made(
        room,
        Expr::In(Boxed::new(alloc, a.tree)?, among, negated),
        1,
        depth,
    )
}

fn pair(alloc: Global, op: Op, a: Expr, b: Expr) -> Result<Boxed<Expr>, Memory>
    ensures { IfOk result (λ x. x ≡ Expr.Binary op a b) }
{
    let (left, right) = boxed(alloc, a, b)?;
    Boxed::new(alloc, Expr::Binary(op, left, right))
}

fn at_least(alloc: Global, a: &Expr, low: Expr) -> Result<Boxed<Expr>, Memory>
    ensures { IfOk result (λ x. x ≡ Expr.Binary Op.Ge a.now low) }
{
    let (low, a) = beside(low, a.copy(alloc))?;
    pair(alloc, Op::Ge, a, low)
}

fn at_most(alloc: Global, above: Boxed<Expr>, a: Expr, high: Expr) -> Result<Expr, Memory>
    ensures { IfOk result (λ x. x ≡ Expr.Binary Op.And above (Expr.Binary Op.Le a high)) }
{
    let under = pair(alloc, Op::Le, a, high)?;
    Ok(Expr::Binary(Op::And, above, under))
}

fn within(alloc: Global, a: Expr, low: Expr, high: Expr) -> Result<Expr, Memory>
    ensures { IfOk result (λ x. x ≡ within a low high) }
{
    let above = at_least(alloc, &a, low);
    let ((a, high), above) = beside((a, high), above)?;
    at_most(alloc, above, a, high)
}

fn negation(alloc: Global, negated: bool, a: Expr) -> Result<Expr, Memory>
    ensures { IfOk result (λ x. x ≡ negation negated a) }
{
    if negated {
        Ok(Expr::Not(Boxed::new(alloc, a)?))
    } else {
        Ok(a)
    }
}

pub fn between(
    alloc: Global,
    room: u32,
    negated: bool,
    a: Node,
    low: Node,
    high: Node,
) -> Result<Node, Refusal>
    ensures { Makes (spec.made room (negation negated (within a.tree low.tree high.tree)) (16 + max a.depth (max low.depth high.depth))) result }
{
    let depth = a.depth.max(low.depth.max(high.depth));
    let tree = within(alloc, a.tree, low.tree, high.tree)?;
    made(room, negation(alloc, negated, tree)?, 16, depth)
}
