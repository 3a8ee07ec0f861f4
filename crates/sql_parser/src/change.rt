// INSERT, UPDATE and DELETE.
ghost use Rattle.sql_grammar.specs.Statements as st;
ghost use Rattle.sql_grammar.specs.Steps.{reading};
ghost use Rattle.sql_grammar.specs.Limited.{max_depth, max_rows};
ghost use Rattle.sql_parser.specs.Reads.{Reads};

use crate::error::Refusal;
use crate::expression::expression;
use crate::parts::{Part, braced, listed};
use crate::select::{filter, name};
use crate::tokens::Tokens;
use cell_base::{Items, Text};
use sql_grammar::Word;
use sql_tree::{Delete, Expr, Insert, Sign, Statement, Update};
use std::alloc::Global;

/// How many rows an INSERT may have.
const MAX_ROWS: usize = 1000;

#[derive(Clone, Copy)]
pub struct NamePart;

impl Part for NamePart {
    type Out = Text;

    ghost reading = { reading st.name };

    fn read(&self, alloc: Global, tokens: &mut Tokens<'_>) -> Result<Text, Refusal> {
        name(alloc, tokens)
    }
}

#[tactic(auto, unfolding(sql_grammar::specs::Statements::cell))]
fn cell(alloc: Global, tokens: &mut Tokens<'_>) -> Result<Option<Expr>, Refusal>
    ensures { Reads (reading (st.cell max_depth) tokens.old) result tokens.new }
{
    if tokens.takes_reserved(Word::Default) {
        Ok(None)
    } else {
        Ok(Some(expression(alloc, tokens)?))
    }
}

#[derive(Clone, Copy)]
struct CellPart;

impl Part for CellPart {
    type Out = Option<Expr>;

    ghost reading = { reading (st.cell max_depth) };

    fn read(&self, alloc: Global, tokens: &mut Tokens<'_>) -> Result<Option<Expr>, Refusal> {
        cell(alloc, tokens)
    }
}

#[derive(Clone, Copy)]
struct RowPart;

impl Part for RowPart {
    type Out = Items<Option<Expr>>;

    ghost reading = { reading (st.row max_depth) };

    #[tactic(auto, unfolding(sql_grammar::specs::Statements::row))]
    fn read(&self, alloc: Global, tokens: &mut Tokens<'_>) -> Result<Items<Option<Expr>>, Refusal> {
        braced(&CellPart, alloc, tokens)
    }
}

#[tactic(auto, unfolding(sql_grammar::specs::Statements::columns))]
fn columns(alloc: Global, tokens: &mut Tokens<'_>) -> Result<Items<Text>, Refusal>
    ensures { Reads (reading st.columns tokens.old) result tokens.new }
{
    if !tokens.at_sign(Sign::Open) {
        return Ok(Items::new(alloc));
    }
    braced(&NamePart, alloc, tokens)
}

#[tactic(auto, unfolding(sql_grammar::specs::Statements::insert))]
pub fn insert(alloc: Global, tokens: &mut Tokens<'_>) -> Result<Statement, Refusal>
    ensures { Reads (reading (st.insert max_depth max_rows) tokens.old) result tokens.new }
{
    tokens.word(Word::Insert)?;
    tokens.reserved(Word::Into)?;
    let table = name(alloc, tokens)?;
    let columns = columns(alloc, tokens)?;
    tokens.word(Word::Values)?;
    let rows = listed(&RowPart, alloc, tokens)?;
    if rows.len() <= MAX_ROWS {
        Ok(Statement::Insert(Insert {
            table,
            columns,
            rows,
        }))
    } else {
        Err(Refusal::NotInGrammar)
    }
}

#[derive(Clone, Copy)]
struct AssignmentPart;

impl Part for AssignmentPart {
    type Out = (Text, Option<Expr>);

    ghost reading = { reading (st.assignment max_depth) };

    #[tactic(auto, unfolding(sql_grammar::specs::Statements::assignment))]
    fn read(
        &self,
        alloc: Global,
        tokens: &mut Tokens<'_>,
    ) -> Result<(Text, Option<Expr>), Refusal> {
        let column = name(alloc, tokens)?;
        tokens.sign(Sign::Eq)?;
        Ok((column, cell(alloc, tokens)?))
    }
}

#[tactic(auto, unfolding(sql_grammar::specs::Statements::update))]
pub fn update(alloc: Global, tokens: &mut Tokens<'_>) -> Result<Statement, Refusal>
    ensures { Reads (reading (st.update max_depth) tokens.old) result tokens.new }
{
    tokens.word(Word::Update)?;
    let table = name(alloc, tokens)?;
    tokens.word(Word::Set)?;
    let set = listed(&AssignmentPart, alloc, tokens)?;
    Ok(Statement::Update(Update {
        table,
        set,
        filter: filter(alloc, tokens)?,
    }))
}

#[tactic(auto, unfolding(sql_grammar::specs::Statements::delete))]
pub fn delete(alloc: Global, tokens: &mut Tokens<'_>) -> Result<Statement, Refusal>
    ensures { Reads (reading (st.delete max_depth) tokens.old) result tokens.new }
{
    tokens.word(Word::Delete)?;
    tokens.reserved(Word::From)?;
    let table = name(alloc, tokens)?;
    Ok(Statement::Delete(Delete {
        table,
        filter: filter(alloc, tokens)?,
    }))
}
