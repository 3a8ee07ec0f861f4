// Statements, and messages of several.
ghost use Rattle.std.specs.Prelude.{◌≡◌};
ghost use Rattle.sql_grammar.specs.Reading.{front};
ghost use Rattle.sql_grammar.specs.Statements as st;
ghost use Rattle.sql_grammar.specs.Steps.{any, begins, reading};
ghost use Rattle.sql_grammar.specs.Syntax as syntax;
ghost use Rattle.sql_grammar.specs.Syntax.{kind};
ghost use Rattle.sql_grammar.specs.Limited.{max_depth, max_rows, max_statements};
ghost use Rattle.sql_parser.specs.Reads.{Reads};

use crate::change::{delete, insert, update};
use crate::create::create;
use crate::error::Refusal;
use crate::parts::{Next, repeat};
use crate::select::select;
use crate::setting::{set, show};
use crate::tokens::Tokens;
use crate::transaction::{begin, commit, rollback};
use cell_base::Items;
use sql_grammar::Word;
use sql_tree::{Sign, Statement};
use std::alloc::Global;

/// How many statements a message may have.
const MAX_STATEMENTS: usize = 256;

#[tactic(auto, unfolding(sql_grammar::specs::Statements::begin, sql_grammar::specs::Statements::beginning))]
fn at_begin(tokens: &Tokens<'_>) -> bool
    ensures { result ≡ any (begins st.begin) (kind (front tokens.now)) }
{
    tokens.at_word(Word::Begin) || tokens.at_word(Word::Start)
}

#[tactic(auto, unfolding(sql_grammar::specs::Statements::commit))]
fn at_commit(tokens: &Tokens<'_>) -> bool
    ensures { result ≡ any (begins st.commit) (kind (front tokens.now)) }
{
    tokens.at_word(Word::Commit) || tokens.at_reserved(Word::End)
}

#[tactic(auto, unfolding(sql_grammar::specs::Statements::rollback))]
fn at_rollback(tokens: &Tokens<'_>) -> bool
    ensures { result ≡ any (begins st.rollback) (kind (front tokens.now)) }
{
    tokens.at_word(Word::Rollback) || tokens.at_word(Word::Abort)
}

#[tactic(auto, unfolding(sql_grammar::specs::Statements::set))]
fn at_set(tokens: &Tokens<'_>) -> bool
    ensures { result ≡ any (begins st.set) (kind (front tokens.now)) }
{
    tokens.at_word(Word::Set)
}

#[tactic(auto, unfolding(sql_grammar::specs::Statements::show))]
fn at_show(tokens: &Tokens<'_>) -> bool
    ensures { result ≡ any (begins st.show) (kind (front tokens.now)) }
{
    tokens.at_word(Word::Show)
}

#[tactic(auto, unfolding(sql_grammar::specs::Statements::select))]
fn at_select(tokens: &Tokens<'_>) -> bool
    ensures { result ≡ any (begins (st.select max_depth)) (kind (front tokens.now)) }
{
    tokens.at_reserved(Word::Select)
}

#[tactic(auto, unfolding(sql_grammar::specs::Statements::insert))]
fn at_insert(tokens: &Tokens<'_>) -> bool
    ensures { result ≡ any (begins (st.insert max_depth max_rows)) (kind (front tokens.now)) }
{
    tokens.at_word(Word::Insert)
}

#[tactic(auto, unfolding(sql_grammar::specs::Statements::update))]
fn at_update(tokens: &Tokens<'_>) -> bool
    ensures { result ≡ any (begins (st.update max_depth)) (kind (front tokens.now)) }
{
    tokens.at_word(Word::Update)
}

#[tactic(auto, unfolding(sql_grammar::specs::Statements::delete))]
fn at_delete(tokens: &Tokens<'_>) -> bool
    ensures { result ≡ any (begins (st.delete max_depth)) (kind (front tokens.now)) }
{
    tokens.at_word(Word::Delete)
}

#[tactic(auto, unfolding(sql_grammar::specs::Statements::create))]
fn at_create(tokens: &Tokens<'_>) -> bool
    ensures { result ≡ any (begins (st.create max_depth)) (kind (front tokens.now)) }
{
    tokens.at_reserved(Word::Create)
}

/// BEGIN, COMMIT, ROLLBACK, SET and SHOW.
#[tactic(auto, unfolding(sql_grammar::specs::Statements::control))]
fn control(alloc: Global, tokens: &mut Tokens<'_>) -> Result<Statement, Refusal>
    ensures { Reads (reading st.control tokens.old) result tokens.new }
{
    if at_begin(tokens) {
        return begin(alloc, tokens);
    }
    if at_commit(tokens) {
        return commit(tokens);
    }
    if at_rollback(tokens) {
        return rollback(tokens);
    }
    if at_set(tokens) {
        return set(alloc, tokens);
    }
    show(alloc, tokens)
}

#[tactic(auto, unfolding(sql_grammar::specs::Statements::control, sql_grammar::specs::Statements::begin, sql_grammar::specs::Statements::beginning, sql_grammar::specs::Statements::commit, sql_grammar::specs::Statements::rollback, sql_grammar::specs::Statements::set, sql_grammar::specs::Statements::show))]
fn at_control(tokens: &Tokens<'_>) -> bool
    ensures { result ≡ any (begins st.control) (kind (front tokens.now)) }
{
    at_begin(tokens)
        || at_commit(tokens)
        || at_rollback(tokens)
        || at_set(tokens)
        || at_show(tokens)
}

#[tactic(auto, unfolding(sql_grammar::specs::Statements::statement))]
fn statement(alloc: Global, tokens: &mut Tokens<'_>) -> Result<Statement, Refusal>
    ensures { Reads (reading (st.statement max_depth max_rows) tokens.old) result tokens.new }
{
    if at_select(tokens) {
        return select(alloc, tokens);
    }
    if at_insert(tokens) {
        return insert(alloc, tokens);
    }
    if at_update(tokens) {
        return update(alloc, tokens);
    }
    if at_delete(tokens) {
        return delete(alloc, tokens);
    }
    if at_create(tokens) {
        return create(alloc, tokens);
    }
    control(alloc, tokens)
}

#[tactic(auto, unfolding(sql_grammar::specs::Statements::statement, sql_grammar::specs::Statements::select, sql_grammar::specs::Statements::insert, sql_grammar::specs::Statements::update, sql_grammar::specs::Statements::delete, sql_grammar::specs::Statements::create, sql_grammar::specs::Statements::control, sql_grammar::specs::Statements::begin, sql_grammar::specs::Statements::beginning, sql_grammar::specs::Statements::commit, sql_grammar::specs::Statements::rollback, sql_grammar::specs::Statements::set, sql_grammar::specs::Statements::show))]
fn at_statement(tokens: &Tokens<'_>) -> bool
    ensures { result ≡ any (begins (st.statement max_depth max_rows)) (kind (front tokens.now)) }
{
    at_select(tokens)
        || at_insert(tokens)
        || at_update(tokens)
        || at_delete(tokens)
        || at_create(tokens)
        || at_control(tokens)
}

/// [stmt]
#[tactic(auto, unfolding(sql_grammar::specs::Statements::piece))]
fn piece(alloc: Global, tokens: &mut Tokens<'_>) -> Result<Option<Statement>, Refusal>
    ensures { Reads (reading (st.piece max_depth max_rows) tokens.old) result tokens.new }
{
    if at_statement(tokens) {
        Ok(Some(statement(alloc, tokens)?))
    } else {
        Ok(None)
    }
}

#[derive(Clone, Copy)]
struct NextPiece;

impl Next for NextPiece {
    type Out = Statement;

    ghost begins = { any (begins (st.next_piece max_depth max_rows)) };

    ghost reading = { reading (st.next_piece max_depth max_rows) };

    #[tactic(auto, unfolding(sql_grammar::specs::Statements::next_piece))]
    fn is_next(&self, tokens: &Tokens<'_>) -> bool {
        tokens.at_sign(Sign::Semi)
    }

    #[tactic(auto, unfolding(sql_grammar::specs::Statements::next_piece))]
    fn read(
        &self,
        alloc: Global,
        tokens: &mut Tokens<'_>,
        found: &mut Items<Statement>,
    ) -> Result<(), Refusal> {
        tokens.sign(Sign::Semi)?;
        match piece(alloc, tokens)? {
            Some(next) => Ok(found.push(next)?),
            None => Ok(()),
        }
    }
}

/// The first piece as a list.
fn first_piece(alloc: Global, tokens: &mut Tokens<'_>) -> Result<Items<Statement>, Refusal>
    ensures { Reads (reading (syntax.map st.as_list (st.piece max_depth max_rows)) tokens.old) result tokens.new }
{
    let mut found = Items::new(alloc);
    match piece(alloc, tokens)? {
        Some(first) => {
            found.push(first)?;
            Ok(found)
        }
        None => Ok(found),
    }
}

/// The statements of a message.
#[tactic(auto, unfolding(sql_grammar::specs::Statements::message))]
pub fn message(alloc: Global, tokens: &mut Tokens<'_>) -> Result<Items<Statement>, Refusal>
    ensures { Reads (reading (st.message max_depth max_rows max_statements) tokens.old) result tokens.new }
{
    let mut found = first_piece(alloc, tokens)?;
    repeat(&NextPiece, alloc, tokens, &mut found)?;
    if found.len() <= MAX_STATEMENTS {
        Ok(found)
    } else {
        Err(Refusal::NotInGrammar)
    }
}
