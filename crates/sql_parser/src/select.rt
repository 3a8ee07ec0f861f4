// SELECT.
ghost use Rattle.sql_grammar.specs.Reading.{front};
ghost use Rattle.sql_grammar.specs.Statements as st;
ghost use Rattle.sql_grammar.specs.Syntax as syntax;
ghost use Rattle.sql_grammar.specs.Syntax.{kind, ◌⨟◌};
ghost use Rattle.sql_grammar.specs.Steps.{any, begins, reading};
ghost use Rattle.sql_grammar.specs.Limited.{max_depth};
ghost use Rattle.sql_parser.specs.Reads.{Reads};
ghost use Rattle.std.specs.Prelude.{◌≡◌, [], ◌∷◌, IfOk};

use crate::error::Refusal;
use crate::expression::expression;
use crate::kept::{beside, kept};
use crate::parts::{Next, Part, listed, repeat};
use crate::tokens::Tokens;
use cell_base::{Items, Memory, Text};
use sql_grammar::Word;
use sql_tree::{Expr, Item, OrderTerm, Select, Sign, Statement, TableRef};
use std::alloc::Global;

#[tactic(auto, unfolding(sql_grammar::specs::Statements::name))]
pub fn name(alloc: Global, tokens: &mut Tokens<'_>) -> Result<Text, Refusal>
    ensures { Reads (reading st.name tokens.old) result tokens.new }
{
    tokens.name_but(alloc, &[])
}

#[tactic(auto, unfolding(sql_grammar::specs::Statements::name))]
pub fn at_name(tokens: &Tokens<'_>) -> bool
    ensures { result ≡ any (begins st.name) (kind (front tokens.now)) }
{
    tokens.at_name(&[])
}

#[tactic(auto, unfolding(sql_grammar::specs::Statements::alias, sql_grammar::specs::Statements::name))]
fn alias(alloc: Global, tokens: &mut Tokens<'_>) -> Result<Option<Text>, Refusal>
    ensures { Reads (reading st.alias tokens.old) result tokens.new }
{
    if tokens.takes_reserved(Word::As) {
        Ok(Some(name(alloc, tokens)?))
    } else if at_name(tokens) {
        Ok(Some(name(alloc, tokens)?))
    } else {
        Ok(None)
    }
}

/// [WHERE expr]
#[tactic(auto, unfolding(sql_grammar::specs::Statements::filter))]
pub fn filter(alloc: Global, tokens: &mut Tokens<'_>) -> Result<Option<Expr>, Refusal>
    ensures { Reads (reading (st.filter max_depth) tokens.old) result tokens.new }
{
    if tokens.takes_reserved(Word::Where) {
        Ok(Some(expression(alloc, tokens)?))
    } else {
        Ok(None)
    }
}

#[derive(Clone, Copy)]
struct ItemPart;

impl Part for ItemPart {
    type Out = Item;

    ghost reading = { reading (st.item max_depth) };

    #[tactic(auto, unfolding(sql_grammar::specs::Statements::item))]
    fn read(&self, alloc: Global, tokens: &mut Tokens<'_>) -> Result<Item, Refusal> {
        if tokens.takes_sign(Sign::Star) {
            return Ok(Item::Star);
        }
        let expr = expression(alloc, tokens)?;
        let (expr, alias) = beside(expr, alias(alloc, tokens))?;
        Ok(Item::Expr(expr, alias))
    }
}

/// A name, and its alias, where one is written.
fn named(alloc: Global, tokens: &mut Tokens<'_>) -> Result<(Text, Option<Text>), Refusal>
    ensures { Reads (reading (st.name ⨟ st.alias) tokens.old) result tokens.new }
{
    let name = name(alloc, tokens)?;
    Ok((name, alias(alloc, tokens)?))
}

#[tactic(auto, unfolding(sql_grammar::specs::Statements::tab))]
fn tab(alloc: Global, tokens: &mut Tokens<'_>) -> Result<TableRef, Refusal>
    ensures { Reads (reading st.tab tokens.old) result tokens.new }
{
    let (name, alias) = named(alloc, tokens)?;
    Ok(TableRef {
        name,
        alias,
        on: None,
    })
}

#[tactic(auto, unfolding(sql_grammar::specs::Statements::join, sql_grammar::specs::Statements::tab))]
fn join(alloc: Global, tokens: &mut Tokens<'_>) -> Result<TableRef, Refusal>
    ensures { Reads (reading (st.join max_depth) tokens.old) result tokens.new }
{
    if tokens.takes_reserved(Word::Cross) {
        tokens.reserved(Word::Join)?;
        return tab(alloc, tokens);
    }
    if tokens.at_reserved(Word::Inner) {
        tokens.reserved(Word::Inner)?;
    }
    tokens.reserved(Word::Join)?;
    let entry = named(alloc, tokens)?;
    let entry = kept(entry, tokens.reserved(Word::On))?;
    let ((name, alias), on) = beside(entry, expression(alloc, tokens))?;
    Ok(TableRef {
        name,
        alias,
        on: Some(on),
    })
}

#[derive(Clone, Copy)]
struct NextTab;

impl Next for NextTab {
    type Out = TableRef;

    ghost begins = { any (begins st.next_tabs) };

    ghost reading = { reading st.next_tabs };

    #[tactic(auto, unfolding(sql_grammar::specs::Statements::next_tabs))]
    fn is_next(&self, tokens: &Tokens<'_>) -> bool {
        tokens.at_sign(Sign::Comma)
    }

    #[tactic(auto, unfolding(sql_grammar::specs::Statements::next_tabs))]
    fn read(
        &self,
        alloc: Global,
        tokens: &mut Tokens<'_>,
        found: &mut Items<TableRef>,
    ) -> Result<(), Refusal> {
        tokens.sign(Sign::Comma)?;
        let next = tab(alloc, tokens)?;
        found.push(next)?;
        Ok(())
    }
}

#[derive(Clone, Copy)]
struct NextJoin;

impl Next for NextJoin {
    type Out = TableRef;

    ghost begins = { any (begins (st.next_joins max_depth)) };

    ghost reading = { reading (st.next_joins max_depth) };

    #[tactic(auto, unfolding(sql_grammar::specs::Statements::next_joins, sql_grammar::specs::Statements::join))]
    fn is_next(&self, tokens: &Tokens<'_>) -> bool {
        tokens.at_reserved(Word::Cross)
            || tokens.at_reserved(Word::Inner)
            || tokens.at_reserved(Word::Join)
    }

    #[tactic(auto, unfolding(sql_grammar::specs::Statements::next_joins))]
    fn read(
        &self,
        alloc: Global,
        tokens: &mut Tokens<'_>,
        found: &mut Items<TableRef>,
    ) -> Result<(), Refusal> {
        let next = join(alloc, tokens)?;
        found.push(next)?;
        Ok(())
    }
}

/// The entry in front of the others.
fn in_front(first: TableRef, rest: Items<TableRef>) -> Result<Items<TableRef>, Memory>
    ensures { IfOk result (λ all. all ≡ first ∷ rest) }
{
    let mut all = rest.into_vec();
    all.insert(0, first)?;
    Ok(Items::from_vec(all))
}

/// Further tables, each after a comma.
#[tactic(auto, unfolding(sql_grammar::specs::Statements::next_tabs))]
fn more_tabs(alloc: Global, tokens: &mut Tokens<'_>) -> Result<Items<TableRef>, Refusal>
    ensures { Reads (reading (syntax.repeat st.next_tabs st.next_tabs) tokens.old) result tokens.new }
{
    tokens.sign(Sign::Comma)?;
    let mut found = Items::new(alloc);
    let next = tab(alloc, tokens)?;
    found.push(next)?;
    repeat(&NextTab, alloc, tokens, &mut found)?;
    Ok(found)
}

/// Joins, or none.
fn more_joins(alloc: Global, tokens: &mut Tokens<'_>) -> Result<Items<TableRef>, Refusal>
    ensures { Reads (reading (syntax.repeat (syntax.gives []) (st.next_joins max_depth)) tokens.old) result tokens.new }
{
    let mut found = Items::new(alloc);
    repeat(&NextJoin, alloc, tokens, &mut found)?;
    Ok(found)
}

/// What follows the first table.
#[tactic(auto, unfolding(sql_grammar::specs::Statements::more_from, sql_grammar::specs::Statements::next_tabs))]
fn more_from(alloc: Global, tokens: &mut Tokens<'_>) -> Result<Items<TableRef>, Refusal>
    ensures { Reads (reading (st.more_from max_depth) tokens.old) result tokens.new }
{
    if tokens.at_sign(Sign::Comma) {
        more_tabs(alloc, tokens)
    } else {
        more_joins(alloc, tokens)
    }
}

#[tactic(auto, unfolding(sql_grammar::specs::Statements::from))]
fn from(alloc: Global, tokens: &mut Tokens<'_>) -> Result<Items<TableRef>, Refusal>
    ensures { Reads (reading (st.from max_depth) tokens.old) result tokens.new }
{
    let first = tab(alloc, tokens)?;
    let (first, rest) = beside(first, more_from(alloc, tokens))?;
    Ok(in_front(first, rest)?)
}

/// [ FROM from [WHERE expr] ]
#[tactic(auto, unfolding(sql_grammar::specs::Statements::source))]
fn source(
    alloc: Global,
    tokens: &mut Tokens<'_>,
) -> Result<Option<(Items<TableRef>, Option<Expr>)>, Refusal>
    ensures { Reads (reading (st.source max_depth) tokens.old) result tokens.new }
{
    if !tokens.takes_reserved(Word::From) {
        return Ok(None);
    }
    let entries = from(alloc, tokens)?;
    Ok(Some((entries, filter(alloc, tokens)?)))
}

#[tactic(auto, unfolding(sql_grammar::specs::Statements::direction))]
fn direction(tokens: &mut Tokens<'_>) -> Result<bool, Refusal>
    ensures { Reads (reading st.direction tokens.old) result tokens.new }
{
    if tokens.takes_reserved(Word::Asc) {
        Ok(false)
    } else if tokens.takes_reserved(Word::Desc) {
        Ok(true)
    } else {
        Ok(false)
    }
}

#[derive(Clone, Copy)]
struct TermPart;

impl Part for TermPart {
    type Out = OrderTerm;

    ghost reading = { reading (st.term max_depth) };

    #[tactic(auto, unfolding(sql_grammar::specs::Statements::term))]
    fn read(&self, alloc: Global, tokens: &mut Tokens<'_>) -> Result<OrderTerm, Refusal> {
        let expr = expression(alloc, tokens)?;
        let (expr, descending) = beside(expr, direction(tokens))?;
        Ok(OrderTerm { expr, descending })
    }
}

#[tactic(auto, unfolding(sql_grammar::specs::Statements::order))]
fn order(alloc: Global, tokens: &mut Tokens<'_>) -> Result<Items<OrderTerm>, Refusal>
    ensures { Reads (reading (st.order max_depth) tokens.old) result tokens.new }
{
    if !tokens.takes_reserved(Word::Order) {
        return Ok(Items::new(alloc));
    }
    tokens.word(Word::By)?;
    listed(&TermPart, alloc, tokens)
}

/// [LIMIT number], [OFFSET number]
#[tactic(auto, unfolding(sql_grammar::specs::Statements::limit))]
fn limit(tokens: &mut Tokens<'_>, word: Word) -> Result<Option<i64>, Refusal>
    ensures { Reads (reading (st.limit word) tokens.old) result tokens.new }
{
    if !tokens.takes_reserved(word) {
        return Ok(None);
    }
    Ok(Some(tokens.integer()?))
}

#[tactic(auto, unfolding(sql_grammar::specs::Statements::select))]
pub fn select(alloc: Global, tokens: &mut Tokens<'_>) -> Result<Statement, Refusal>
    ensures { Reads (reading (st.select max_depth) tokens.old) result tokens.new }
{
    tokens.reserved(Word::Select)?;
    let items = listed(&ItemPart, alloc, tokens)?;
    let read = beside(items, source(alloc, tokens))?;
    let read = beside(read, order(alloc, tokens))?;
    let read = beside(read, limit(tokens, Word::Limit))?;
    let ((((items, source), order), limit), offset) = beside(read, limit(tokens, Word::Offset))?;
    let (from, filter) = match source {
        Some((entries, filter)) => (entries, filter),
        None => (Items::new(alloc), None),
    };
    Ok(Statement::Select(Select {
        items,
        from,
        filter,
        order,
        limit,
        offset,
    }))
}
