// SET and SHOW.
ghost use Rattle.std.specs.Prelude.{◌≡◌, ◌++◌, codes, IfOk};
ghost use Rattle.std.specs.Fmt.{signed_decimal};
ghost use Rattle.sql_grammar.specs.Statements as st;
ghost use Rattle.sql_grammar.specs.Steps.{reading};
ghost use Rattle.sql_parser.specs.Reads.{Reads};

use crate::error::Refusal;
use crate::kept::beside;
use crate::parts::{Part, listed};
use crate::select::{at_name, name};
use crate::tokens::Tokens;
use crate::transaction::modes;
use cell_base::{Items, Memory, Text, TextFault};
use sql_grammar::{Keyword, Word};
use sql_tree::{Sign, Statement};
use std::alloc::Global;

/// The text of bytes that are UTF-8.
fn text_of(alloc: Global, text: &str) -> Result<Text, Memory>
    ensures { IfOk result (λ made. made ≡ text.now) }
{
    match Text::from_bytes(alloc, text.as_bytes()) {
        Ok(made) => Ok(made),
        Err(_) => Err(Memory),
    }
}

/// The names joined by a point.
fn joined(alloc: Global, first: Text, second: Option<Text>) -> Result<Text, Memory>
    ensures { IfOk result (λ name. name ≡ st.join_names first second) }
{
    match second {
        None => Ok(first),
        Some(second) => {
            let mut name = String::from_str(alloc, first.as_str())?;
            name.push_str(".")?;
            name.push_str(second.as_str())?;
            text_of(alloc, name.as_str())
        }
    }
}

/// [ '.' name ]
#[tactic(auto, unfolding(sql_grammar::specs::Statements::suffix))]
fn suffix(alloc: Global, tokens: &mut Tokens<'_>) -> Result<Option<Text>, Refusal>
    ensures { Reads (reading st.suffix tokens.old) result tokens.new }
{
    if tokens.takes_sign(Sign::Dot) {
        Ok(Some(name(alloc, tokens)?))
    } else {
        Ok(None)
    }
}

/// A setting's name, whose first part is none of the words.
#[tactic(auto, unfolding(sql_grammar::specs::Statements::dotted))]
fn dotted(alloc: Global, tokens: &mut Tokens<'_>, but: &[Word]) -> Result<Text, Refusal>
    ensures { Reads (reading (st.dotted but.now) tokens.old) result tokens.new }
{
    let first = tokens.name_but(alloc, but)?;
    let second = suffix(alloc, tokens)?;
    Ok(joined(alloc, first, second)?)
}

fn decimal(alloc: Global, number: i64) -> Result<Text, Memory>
    ensures { IfOk result (λ text. text ≡ signed_decimal number) }
{
    let digits = format!(in alloc; "{number}")?;
    text_of(alloc, digits.as_str())
}

fn negative(alloc: Global, number: i64) -> Result<Text, Memory>
    ensures { IfOk result (λ text. text ≡ codes "-" ++ signed_decimal number) }
{
    let digits = format!(in alloc; "-{number}")?;
    text_of(alloc, digits.as_str())
}

/// The values that are words.
#[tactic(auto, unfolding(sql_grammar::specs::Statements::value_word))]
fn value_word(alloc: Global, tokens: &mut Tokens<'_>) -> Result<Text, Refusal>
    ensures { Reads (reading st.value_word tokens.old) result tokens.new }
{
    if tokens.takes_key(Keyword::True) {
        return Ok(text_of(alloc, "true")?);
    }
    if tokens.takes_key(Keyword::False) {
        return Ok(text_of(alloc, "false")?);
    }
    if tokens.takes_reserved(Word::On) {
        return Ok(text_of(alloc, "on")?);
    }
    tokens.reserved(Word::Default)?;
    Ok(text_of(alloc, "default")?)
}

#[derive(Clone, Copy)]
struct ValuePart;

impl Part for ValuePart {
    type Out = Text;

    ghost reading = { reading st.setting_value };

    #[tactic(auto, unfolding(sql_grammar::specs::Statements::setting_value))]
    fn read(&self, alloc: Global, tokens: &mut Tokens<'_>) -> Result<Text, Refusal> {
        if tokens.at_text() {
            return tokens.text(alloc);
        }
        if tokens.takes_sign(Sign::Minus) {
            let number = tokens.integer()?;
            return Ok(negative(alloc, number)?);
        }
        if tokens.at_integer() {
            let number = tokens.integer()?;
            return Ok(decimal(alloc, number)?);
        }
        if at_name(tokens) {
            return name(alloc, tokens);
        }
        value_word(alloc, tokens)
    }
}

/// ( TO | '=' ) sval { ',' sval }
#[tactic(auto, unfolding(sql_grammar::specs::Statements::setting_values))]
fn setting_values(alloc: Global, tokens: &mut Tokens<'_>) -> Result<Items<Text>, Refusal>
    ensures { Reads (reading st.setting_values tokens.old) result tokens.new }
{
    if !tokens.takes_reserved(Word::To) {
        tokens.sign(Sign::Eq)?;
    }
    listed(&ValuePart, alloc, tokens)
}

#[tactic(auto, unfolding(sql_grammar::specs::Statements::assigned))]
fn assigned(alloc: Global, tokens: &mut Tokens<'_>, but: &[Word]) -> Result<Statement, Refusal>
    ensures { Reads (reading (st.assigned but.now) tokens.old) result tokens.new }
{
    let setting = dotted(alloc, tokens, but)?;
    Ok(Statement::Set(setting, setting_values(alloc, tokens)?))
}

/// TRANSACTION modes
#[tactic(auto, unfolding(sql_grammar::specs::Statements::transaction_modes))]
fn transaction_modes(alloc: Global, tokens: &mut Tokens<'_>) -> Result<Statement, Refusal>
    ensures { Reads (reading st.transaction_modes tokens.old) result tokens.new }
{
    tokens.word(Word::Transaction)?;
    modes(alloc, tokens)?;
    Ok(Statement::SetModes)
}

/// The name of a setting whose first part is the word CHARACTERISTICS.
fn after_characteristics(alloc: Global, second: Option<Text>) -> Result<Text, Memory>
    ensures { IfOk result (λ name. name ≡ st.join_names (codes "characteristics") second) }
{
    let first = text_of(alloc, "characteristics");
    let (second, first) = beside(second, first)?;
    joined(alloc, first, second)
}

#[tactic(auto, unfolding(sql_grammar::specs::Statements::characteristics))]
fn characteristics(alloc: Global, tokens: &mut Tokens<'_>) -> Result<Statement, Refusal>
    ensures { Reads (reading st.characteristics tokens.old) result tokens.new }
{
    tokens.word(Word::Characteristics)?;
    if tokens.takes_reserved(Word::As) {
        return transaction_modes(alloc, tokens);
    }
    let second = suffix(alloc, tokens)?;
    let (second, values) = beside(second, setting_values(alloc, tokens))?;
    Ok(Statement::Set(after_characteristics(alloc, second)?, values))
}

/// After SET SESSION.
#[tactic(auto, unfolding(sql_grammar::specs::Statements::session_setting, sql_grammar::specs::Statements::characteristics))]
fn session_setting(alloc: Global, tokens: &mut Tokens<'_>) -> Result<Statement, Refusal>
    ensures { Reads (reading st.session_setting tokens.old) result tokens.new }
{
    if tokens.at_word(Word::Characteristics) {
        return characteristics(alloc, tokens);
    }
    assigned(alloc, tokens, &[Word::Characteristics])
}

#[tactic(auto, unfolding(sql_grammar::specs::Statements::set, sql_grammar::specs::Statements::transaction_modes))]
pub fn set(alloc: Global, tokens: &mut Tokens<'_>) -> Result<Statement, Refusal>
    ensures { Reads (reading st.set tokens.old) result tokens.new }
{
    tokens.word(Word::Set)?;
    if tokens.at_word(Word::Transaction) {
        return transaction_modes(alloc, tokens);
    }
    if tokens.takes_word(Word::Session) {
        return session_setting(alloc, tokens);
    }
    if tokens.takes_word(Word::Local) {
        return assigned(alloc, tokens, &[]);
    }
    assigned(
        alloc,
        tokens,
        &[Word::Transaction, Word::Session, Word::Local],
    )
}

#[tactic(auto, unfolding(sql_grammar::specs::Statements::show))]
pub fn show(alloc: Global, tokens: &mut Tokens<'_>) -> Result<Statement, Refusal>
    ensures { Reads (reading st.show tokens.old) result tokens.new }
{
    tokens.word(Word::Show)?;
    Ok(Statement::Show(dotted(alloc, tokens, &[])?))
}
