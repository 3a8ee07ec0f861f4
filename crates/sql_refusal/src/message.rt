// Whether marks are a message of the unlimited or of the wide grammar.
ghost use Rattle.std.specs.Prelude.{◌≡◌, ◌↔◌, IsTrue, ◌+◌, ◌*◌, [], length};
ghost use Rattle.std.specs.Option.{option_copied};
ghost use Rattle.sql_grammar.specs.Reading.{front};
ghost use Rattle.sql_grammar.specs.Syntax.{kind};
ghost use Rattle.sql_refusal.specs.Forms as spec;
ghost use Rattle.sql_refusal.specs.MessageForms.{control_form, create_form, message_form, next_form, piece_form, statement_form};
ghost use Rattle.sql_refusal.specs.Tables.{form_of, Leaves};
ghost use Rattle.sql_refusal.specs.Wide.{IsUnlimited, IsWide};

use crate::pass::{first, may_begin, over};
use crate::rule::Rule;
use crate::statement::{
    begin, commit, create, delete, insert, rollback, select, set, show, update, wide_create,
};
use sql_grammar::Mark;
use sql_tree::Sign;

fn create_rule(wide: bool) -> &'static Rule
    ensures { form_of result.now ≡ create_form wide }
{
    if wide { wide_create() } else { create() }
}

#[tactic(auto, unfolding(crate::specs::MessageForms::control_form))]
fn begins_control(next: Option<&Mark>) -> bool
    ensures { result ≡ spec.may_begin control_form (kind (option_copied next.entry)) }
{
    may_begin(begin(), next)
        || may_begin(commit(), next)
        || may_begin(rollback(), next)
        || may_begin(set(), next)
        || may_begin(show(), next)
}

/// BEGIN, COMMIT, ROLLBACK, SET and SHOW.
#[tactic(auto, unfolding(crate::specs::MessageForms::control_form, crate::specs::Forms::passes))]
fn control(ahead: &[Mark], room: usize) -> Option<&[Mark]>
    ensures { Leaves (spec.passes (spec.at room) control_form ahead.now) result }
{
    let next = first(ahead);
    if may_begin(begin(), next) {
        return over(begin(), ahead, room);
    }
    if may_begin(commit(), next) {
        return over(commit(), ahead, room);
    }
    if may_begin(rollback(), next) {
        return over(rollback(), ahead, room);
    }
    if may_begin(set(), next) {
        return over(set(), ahead, room);
    }
    over(show(), ahead, room)
}

#[tactic(auto, unfolding(crate::specs::MessageForms::statement_form))]
fn begins_statement(wide: bool, next: Option<&Mark>) -> bool
    ensures { result ≡ spec.may_begin (statement_form wide) (kind (option_copied next.entry)) }
{
    may_begin(select(), next)
        || may_begin(insert(), next)
        || may_begin(update(), next)
        || may_begin(delete(), next)
        || may_begin(create_rule(wide), next)
        || begins_control(next)
}

#[tactic(auto, unfolding(crate::specs::MessageForms::statement_form, crate::specs::Forms::passes))]
fn statement(wide: bool, ahead: &[Mark], room: usize) -> Option<&[Mark]>
    ensures { Leaves (spec.passes (spec.at room) (statement_form wide) ahead.now) result }
{
    let next = first(ahead);
    if may_begin(select(), next) {
        return over(select(), ahead, room);
    }
    if may_begin(insert(), next) {
        return over(insert(), ahead, room);
    }
    if may_begin(update(), next) {
        return over(update(), ahead, room);
    }
    if may_begin(delete(), next) {
        return over(delete(), ahead, room);
    }
    if may_begin(create_rule(wide), next) {
        return over(create_rule(wide), ahead, room);
    }
    control(ahead, room)
}

/// [stmt]
#[tactic(auto, unfolding(crate::specs::Forms::passes))]
fn piece(wide: bool, ahead: &[Mark], room: usize) -> Option<&[Mark]>
    ensures { Leaves (spec.passes (spec.at room) (piece_form wide) ahead.now) result }
{
    if begins_statement(wide, first(ahead)) {
        statement(wide, ahead, room)
    } else {
        Some(ahead)
    }
}

fn at_semi(ahead: &[Mark]) -> bool
    ensures { result ≡ spec.may_begin (spec.sign Sign.Semi) (kind (front ahead.now)) }
{
    matches!(ahead, [Mark::Sign(Sign::Semi), ..])
}

/// ';' [stmt]
#[tactic(auto, unfolding(crate::specs::Forms::passes))]
fn next_piece(wide: bool, ahead: &[Mark], room: usize) -> Option<&[Mark]>
    ensures { Leaves (spec.passes (spec.at room) (next_form wide) ahead.now) result }
{
    match ahead {
        [Mark::Sign(Sign::Semi), rest @ ..] => piece(wide, rest, room),
        _ => None,
    }
}

/// The pieces of a message, of the wide grammar where `wide` is true.
#[tactic(auto, unfolding(crate::specs::MessageForms::message_form, crate::specs::Forms::passes, crate::specs::Forms::many_from))]
fn message(wide: bool, ahead: &[Mark], room: usize) -> Option<&[Mark]>
    ensures { Leaves (spec.passes (spec.at room) (message_form wide) ahead.now) result }
{
    let mut following = piece(wide, ahead, room)?;
    for _turn in 0..following.len() + 1 {
        if !at_semi(following) {
            return Some(following);
        }
        following = next_piece(wide, following, room)?;
    }
    None
}

/// How many steps from level to level a list of so many marks may want.
fn room(marks: &[Mark]) -> usize
    ensures { result ≡ 11 * length marks.now + 10 }
{
    11 * marks.len() + 10
}

/// Whether the message's form is passed over as a whole.
fn is_message(wide: bool, marks: &[Mark]) -> bool
    ensures { IsTrue result ↔ (spec.passes (spec.at (11 * length marks.now + 10)) (message_form wide) marks.now ≡ Some []) }
{
    match message(wide, marks, room(marks)) {
        Some([]) => true,
        _ => false,
    }
}

/// Whether the marks, all of them, are a message of the grammar without its limits.
#[tactic(auto, using(crate::proofs::Messages::to_unlimited, crate::proofs::Messages::from_unlimited))]
pub fn is_unlimited(marks: &[Mark]) -> bool
    ensures { IsTrue result ↔ IsUnlimited marks.now }
{
    is_message(false, marks)
}

/// Whether the marks, all of them, are a message of the wide grammar.
#[tactic(auto, using(crate::proofs::Messages::to_wide, crate::proofs::Messages::from_wide))]
pub fn is_wide(marks: &[Mark]) -> bool
    ensures { IsTrue result ↔ IsWide marks.now }
{
    is_message(true, marks)
}
