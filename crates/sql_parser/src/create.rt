// CREATE TABLE.
ghost use Rattle.std.specs.Prelude.{◌≡◌};
ghost use Rattle.sql_grammar.specs.Reading.{front};
ghost use Rattle.sql_grammar.specs.Statements as st;
ghost use Rattle.sql_grammar.specs.Steps.{any, begins, reading};
ghost use Rattle.sql_grammar.specs.Syntax.{kind};
ghost use Rattle.sql_grammar.specs.Limited.{max_depth};
ghost use Rattle.sql_parser.specs.Reads.{Reads};

use crate::change::NamePart;
use crate::error::Refusal;
use crate::expression::expression;
use crate::kept::kept;
use crate::parts::{Next, Part, braced, repeat};
use crate::select::{at_name, name};
use crate::table::table_of;
use crate::tokens::Tokens;
use cell_base::{Boxed, Items, SqlType, Text};
use sql_grammar::{Constraint, Element, Keyword, Word};
use sql_tree::{Expr, Sign, Statement};
use std::alloc::Global;

/// The words of the constants TRUE, FALSE and NULL.
#[tactic(auto, unfolding(sql_grammar::specs::Statements::constant_word))]
fn constant_word(tokens: &mut Tokens<'_>) -> Result<Expr, Refusal>
    ensures { Reads (reading st.constant_word tokens.old) result tokens.new }
{
    if tokens.takes_key(Keyword::True) {
        return Ok(Expr::Flag(true));
    }
    if tokens.takes_key(Keyword::False) {
        return Ok(Expr::Flag(false));
    }
    tokens.key(Keyword::Null)?;
    Ok(Expr::Null)
}

/// A DEFAULT's constant.
#[tactic(auto, unfolding(sql_grammar::specs::Statements::constant))]
fn constant(alloc: Global, tokens: &mut Tokens<'_>) -> Result<Expr, Refusal>
    ensures { Reads (reading st.constant tokens.old) result tokens.new }
{
    if tokens.takes_sign(Sign::Minus) {
        let number = tokens.integer()?;
        return Ok(Expr::Neg(Boxed::new(alloc, Expr::Int(number))?));
    }
    if tokens.at_integer() {
        return Ok(Expr::Int(tokens.integer()?));
    }
    if tokens.at_text() {
        return Ok(Expr::Str(tokens.text(alloc)?));
    }
    constant_word(tokens)
}

/// CHECK '(' expr ')'
#[tactic(auto, unfolding(sql_grammar::specs::Statements::check))]
fn check(alloc: Global, tokens: &mut Tokens<'_>) -> Result<Expr, Refusal>
    ensures { Reads (reading (st.check max_depth) tokens.old) result tokens.new }
{
    tokens.reserved(Word::Check)?;
    tokens.sign(Sign::Open)?;
    let condition = expression(alloc, tokens)?;
    kept(condition, tokens.sign(Sign::Close))
}

/// [CONSTRAINT name]
#[tactic(auto, unfolding(sql_grammar::specs::Statements::label))]
fn label(alloc: Global, tokens: &mut Tokens<'_>) -> Result<(), Refusal>
    ensures { Reads (reading st.label tokens.old) result tokens.new }
{
    if tokens.takes_reserved(Word::Constraint) {
        name(alloc, tokens)?;
    }
    Ok(())
}

#[tactic(auto, unfolding(sql_grammar::specs::Statements::constraint_body))]
fn constraint_body(alloc: Global, tokens: &mut Tokens<'_>) -> Result<Constraint, Refusal>
    ensures { Reads (reading (st.constraint_body max_depth) tokens.old) result tokens.new }
{
    if tokens.takes_reserved(Word::Primary) {
        tokens.word(Word::Key)?;
        return Ok(Constraint::Primary);
    }
    if tokens.takes_key(Keyword::Not) {
        tokens.key(Keyword::Null)?;
        return Ok(Constraint::NotNull);
    }
    if tokens.takes_key(Keyword::Null) {
        return Ok(Constraint::Null);
    }
    if tokens.takes_reserved(Word::Default) {
        return Ok(Constraint::Default(constant(alloc, tokens)?));
    }
    Ok(Constraint::Check(check(alloc, tokens)?))
}

#[tactic(auto, unfolding(sql_grammar::specs::Statements::constraint_body, sql_grammar::specs::Statements::check))]
fn at_constraint_body(tokens: &Tokens<'_>) -> bool
    ensures { result ≡ any (begins (st.constraint_body max_depth)) (kind (front tokens.now)) }
{
    tokens.at_reserved(Word::Primary)
        || tokens.at_key(Keyword::Not)
        || tokens.at_key(Keyword::Null)
        || tokens.at_reserved(Word::Default)
        || tokens.at_reserved(Word::Check)
}

#[derive(Clone, Copy)]
struct NextConstraint;

impl Next for NextConstraint {
    type Out = Constraint;

    ghost begins = { any (begins (st.next_constraint max_depth)) };

    ghost reading = { reading (st.next_constraint max_depth) };

    #[tactic(auto, unfolding(sql_grammar::specs::Statements::next_constraint, sql_grammar::specs::Statements::label, sql_grammar::specs::Statements::constraint_body, sql_grammar::specs::Statements::check))]
    fn is_next(&self, tokens: &Tokens<'_>) -> bool {
        tokens.at_reserved(Word::Constraint) || at_constraint_body(tokens)
    }

    #[tactic(auto, unfolding(sql_grammar::specs::Statements::next_constraint))]
    fn read(
        &self,
        alloc: Global,
        tokens: &mut Tokens<'_>,
        found: &mut Items<Constraint>,
    ) -> Result<(), Refusal> {
        label(alloc, tokens)?;
        let next = constraint_body(alloc, tokens)?;
        found.push(next)?;
        Ok(())
    }
}

/// [ '(' number ')' ]
#[tactic(auto, unfolding(sql_grammar::specs::Statements::size))]
fn size(tokens: &mut Tokens<'_>) -> Result<Option<i64>, Refusal>
    ensures { Reads (reading st.size tokens.old) result tokens.new }
{
    if !tokens.takes_sign(Sign::Open) {
        return Ok(None);
    }
    let number = tokens.integer()?;
    tokens.sign(Sign::Close)?;
    Ok(Some(number))
}

/// The longest varchar that a table may have.
const MAX_VARCHAR: u32 = 65536;

/// A length outside 1 to 65,536 stands as one that no table may have.
fn varchar(size: Option<i64>) -> SqlType
    ensures { result ≡ st.varchar size }
{
    let Some(size) = size else {
        return SqlType::Varchar(0);
    };
    match u32::try_from(size) {
        Ok(length) if 1 <= length && length <= MAX_VARCHAR => SqlType::Varchar(length),
        _ => SqlType::Varchar(u32::MAX),
    }
}

#[tactic(auto, unfolding(sql_grammar::specs::Statements::sized))]
fn sized(tokens: &mut Tokens<'_>) -> Result<SqlType, Refusal>
    ensures { Reads (reading st.sized tokens.old) result tokens.new }
{
    if !tokens.takes_word(Word::Varchar) {
        tokens.word(Word::Character)?;
        tokens.word(Word::Varying)?;
    }
    let length = size(tokens)?;
    Ok(varchar(length))
}

/// A type that is one word.
fn one_word(tokens: &mut Tokens<'_>, word: Word, kind: SqlType) -> Result<SqlType, Refusal>
    ensures { Reads (reading (st.for kind (st.word word)) tokens.old) result tokens.new }
{
    tokens.word(word)?;
    Ok(kind)
}

#[tactic(auto, unfolding(sql_grammar::specs::Statements::type_name))]
fn type_name(tokens: &mut Tokens<'_>) -> Result<SqlType, Refusal>
    ensures { Reads (reading st.type_name tokens.old) result tokens.new }
{
    if tokens.at_word(Word::Boolean) {
        return one_word(tokens, Word::Boolean, SqlType::Boolean);
    }
    if tokens.at_word(Word::Bool) {
        return one_word(tokens, Word::Bool, SqlType::Boolean);
    }
    if tokens.at_word(Word::Integer) {
        return one_word(tokens, Word::Integer, SqlType::Integer);
    }
    if tokens.at_word(Word::Int) {
        return one_word(tokens, Word::Int, SqlType::Integer);
    }
    if tokens.at_word(Word::Int4) {
        return one_word(tokens, Word::Int4, SqlType::Integer);
    }
    if tokens.at_word(Word::Bigint) {
        return one_word(tokens, Word::Bigint, SqlType::Bigint);
    }
    if tokens.at_word(Word::Int8) {
        return one_word(tokens, Word::Int8, SqlType::Bigint);
    }
    if tokens.at_word(Word::Text) {
        return one_word(tokens, Word::Text, SqlType::Text);
    }
    sized(tokens)
}

#[tactic(auto, unfolding(sql_grammar::specs::Statements::constraints))]
fn constraints(alloc: Global, tokens: &mut Tokens<'_>) -> Result<Items<Constraint>, Refusal>
    ensures { Reads (reading (st.constraints max_depth) tokens.old) result tokens.new }
{
    let mut found = Items::new(alloc);
    repeat(&NextConstraint, alloc, tokens, &mut found)?;
    Ok(found)
}

#[tactic(auto, unfolding(sql_grammar::specs::Statements::column))]
fn column(alloc: Global, tokens: &mut Tokens<'_>) -> Result<Element, Refusal>
    ensures { Reads (reading (st.column max_depth) tokens.old) result tokens.new }
{
    let column = name(alloc, tokens)?;
    let kind = type_name(tokens)?;
    Ok(Element::Column(column, kind, constraints(alloc, tokens)?))
}

#[tactic(auto, unfolding(sql_grammar::specs::Statements::key_list))]
fn key_list(alloc: Global, tokens: &mut Tokens<'_>) -> Result<Items<Text>, Refusal>
    ensures { Reads (reading st.key_list tokens.old) result tokens.new }
{
    tokens.reserved(Word::Primary)?;
    tokens.word(Word::Key)?;
    braced(&NamePart, alloc, tokens)
}

#[tactic(auto, unfolding(sql_grammar::specs::Statements::table_constraint, sql_grammar::specs::Statements::key_list))]
fn table_constraint(alloc: Global, tokens: &mut Tokens<'_>) -> Result<Element, Refusal>
    ensures { Reads (reading (st.table_constraint max_depth) tokens.old) result tokens.new }
{
    label(alloc, tokens)?;
    if tokens.at_reserved(Word::Primary) {
        Ok(Element::Primary(key_list(alloc, tokens)?))
    } else {
        Ok(Element::Check(check(alloc, tokens)?))
    }
}

#[derive(Clone, Copy)]
struct ElementPart;

impl Part for ElementPart {
    type Out = Element;

    ghost reading = { reading (st.element max_depth) };

    #[tactic(auto, unfolding(sql_grammar::specs::Statements::element, sql_grammar::specs::Statements::column, sql_grammar::specs::Statements::name))]
    fn read(&self, alloc: Global, tokens: &mut Tokens<'_>) -> Result<Element, Refusal> {
        if at_name(tokens) {
            column(alloc, tokens)
        } else {
            table_constraint(alloc, tokens)
        }
    }
}

#[tactic(auto, unfolding(sql_grammar::specs::Statements::create))]
pub fn create(alloc: Global, tokens: &mut Tokens<'_>) -> Result<Statement, Refusal>
    ensures { Reads (reading (st.create max_depth) tokens.old) result tokens.new }
{
    tokens.reserved(Word::Create)?;
    tokens.reserved(Word::Table)?;
    let table = name(alloc, tokens)?;
    let elements = braced(&ElementPart, alloc, tokens)?;
    Ok(Statement::Create(table_of(alloc, table, elements.as_slice())?))
}
