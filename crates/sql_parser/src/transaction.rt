// BEGIN, COMMIT, ROLLBACK and their modes.
ghost use Rattle.std.specs.Prelude.{◌≡◌};
ghost use Rattle.sql_grammar.specs.Reading.{front};
ghost use Rattle.sql_grammar.specs.Statements as st;
ghost use Rattle.sql_grammar.specs.Syntax.{kind};
ghost use Rattle.sql_grammar.specs.Steps.{any, begins, reading};
ghost use Rattle.sql_parser.specs.Reads.{Reads};

use crate::error::Refusal;
use crate::parts::{Next, repeat};
use crate::tokens::Tokens;
use cell_base::Items;
use sql_grammar::{Keyword, Word};
use sql_tree::{Sign, Statement};
use std::alloc::Global;

/// [WORK | TRANSACTION]
#[tactic(auto, unfolding(sql_grammar::specs::Statements::work))]
fn work(tokens: &mut Tokens<'_>) -> Result<(), Refusal>
    ensures { Reads (reading st.work tokens.old) result tokens.new }
{
    if tokens.at_word(Word::Work) {
        tokens.word(Word::Work)?;
    } else if tokens.at_word(Word::Transaction) {
        tokens.word(Word::Transaction)?;
    }
    Ok(())
}

#[tactic(auto, unfolding(sql_grammar::specs::Statements::level))]
fn level(tokens: &mut Tokens<'_>) -> Result<(), Refusal>
    ensures { Reads (reading st.level tokens.old) result tokens.new }
{
    if tokens.takes_word(Word::Serializable) {
        return Ok(());
    }
    if tokens.takes_word(Word::Repeatable) {
        return tokens.word(Word::Read);
    }
    tokens.word(Word::Read)?;
    if tokens.takes_word(Word::Committed) {
        Ok(())
    } else {
        tokens.word(Word::Uncommitted)
    }
}

#[tactic(auto, unfolding(sql_grammar::specs::Statements::mode))]
fn mode(tokens: &mut Tokens<'_>) -> Result<(), Refusal>
    ensures { Reads (reading st.mode tokens.old) result tokens.new }
{
    if tokens.takes_word(Word::Isolation) {
        tokens.word(Word::Level)?;
        return level(tokens);
    }
    if tokens.takes_word(Word::Read) {
        if tokens.takes_word(Word::Write) {
            return Ok(());
        }
        return tokens.word(Word::Only);
    }
    if tokens.at_key(Keyword::Not) {
        tokens.key(Keyword::Not)?;
    }
    tokens.word(Word::Deferrable)
}

#[tactic(auto, unfolding(sql_grammar::specs::Statements::mode))]
fn at_mode(tokens: &Tokens<'_>) -> bool
    ensures { result ≡ any (begins st.mode) (kind (front tokens.now)) }
{
    tokens.at_word(Word::Isolation)
        || tokens.at_word(Word::Read)
        || tokens.at_key(Keyword::Not)
        || tokens.at_word(Word::Deferrable)
}

#[derive(Clone, Copy)]
struct NextMode;

impl Next for NextMode {
    type Out = bool;

    ghost begins = { any (begins st.next_mode) };

    ghost reading = { reading st.next_mode };

    #[tactic(auto, unfolding(sql_grammar::specs::Statements::next_mode, sql_grammar::specs::Statements::mode))]
    fn is_next(&self, tokens: &Tokens<'_>) -> bool {
        tokens.at_sign(Sign::Comma) || at_mode(tokens)
    }

    #[tactic(auto, unfolding(sql_grammar::specs::Statements::next_mode))]
    fn read(
        &self,
        _alloc: Global,
        tokens: &mut Tokens<'_>,
        _found: &mut Items<bool>,
    ) -> Result<(), Refusal> {
        if tokens.at_sign(Sign::Comma) {
            tokens.sign(Sign::Comma)?;
        }
        mode(tokens)
    }
}

/// What is read gives no item.
#[tactic(auto, unfolding(sql_grammar::specs::Statements::modes))]
pub fn modes(alloc: Global, tokens: &mut Tokens<'_>) -> Result<Items<bool>, Refusal>
    ensures { Reads (reading st.modes tokens.old) result tokens.new }
{
    mode(tokens)?;
    let mut found = Items::new(alloc);
    repeat(&NextMode, alloc, tokens, &mut found)?;
    Ok(found)
}

#[tactic(auto, unfolding(sql_grammar::specs::Statements::modes, sql_grammar::specs::Statements::mode))]
fn at_modes(tokens: &Tokens<'_>) -> bool
    ensures { result ≡ any (begins st.modes) (kind (front tokens.now)) }
{
    at_mode(tokens)
}

/// BEGIN [WORK | TRANSACTION], or START TRANSACTION, for which the answer is true.
#[tactic(auto, unfolding(sql_grammar::specs::Statements::beginning))]
fn beginning(tokens: &mut Tokens<'_>) -> Result<bool, Refusal>
    ensures { Reads (reading st.beginning tokens.old) result tokens.new }
{
    if tokens.takes_word(Word::Begin) {
        work(tokens)?;
        return Ok(false);
    }
    tokens.word(Word::Start)?;
    tokens.word(Word::Transaction)?;
    Ok(true)
}

#[tactic(auto, unfolding(sql_grammar::specs::Statements::begin))]
pub fn begin(alloc: Global, tokens: &mut Tokens<'_>) -> Result<Statement, Refusal>
    ensures { Reads (reading st.begin tokens.old) result tokens.new }
{
    let start = beginning(tokens)?;
    if at_modes(tokens) {
        modes(alloc, tokens)?;
    }
    Ok(Statement::Begin(start))
}

#[tactic(auto, unfolding(sql_grammar::specs::Statements::commit))]
pub fn commit(tokens: &mut Tokens<'_>) -> Result<Statement, Refusal>
    ensures { Reads (reading st.commit tokens.old) result tokens.new }
{
    if !tokens.takes_word(Word::Commit) {
        tokens.reserved(Word::End)?;
    }
    work(tokens)?;
    Ok(Statement::Commit)
}

#[tactic(auto, unfolding(sql_grammar::specs::Statements::rollback))]
pub fn rollback(tokens: &mut Tokens<'_>) -> Result<Statement, Refusal>
    ensures { Reads (reading st.rollback tokens.old) result tokens.new }
{
    if !tokens.takes_word(Word::Rollback) {
        tokens.word(Word::Abort)?;
    }
    work(tokens)?;
    Ok(Statement::Rollback)
}
