// Passing over what a rule spells, without making a tree.
ghost use Rattle.std.specs.Prelude.{◌≡◌, ℕ, map};
ghost use Rattle.std.specs.Option.{option_copied};
ghost use Rattle.sql_grammar.specs.Reading.{front};
ghost use Rattle.sql_grammar.specs.Steps.{any, fit};
ghost use Rattle.sql_grammar.specs.Syntax.{kind, among, place};
ghost use Rattle.sql_refusal.specs.Deeper.{Deeper};
ghost use Rattle.sql_refusal.specs.Forms as spec;
ghost use Rattle.sql_refusal.specs.Tables.{form_of, level_of, pattern_of, fits_one, single, Leaves};

use crate::expression::{begins, rule_of};
use crate::rule::{Level, Pattern, Rule};
use sql_grammar::{Mark, Word};

/// The next mark.
pub fn first(ahead: &[Mark]) -> Option<&Mark>
    ensures { option_copied result ≡ front ahead.now }
{
    match ahead {
        [] => None,
        [first, ..] => Some(first),
    }
}

fn is_among(mut but: &[Word], word: Word) -> bool
    ensures { result ≡ among but.entry.now (place word) }
{
    while let [first, rest @ ..] = but {
        if word == *first {
            return true;
        }
        but = rest;
    }
    false
}

fn is_pattern(pattern: Pattern, next: Option<&Mark>) -> bool
    ensures { result ≡ fit (pattern_of pattern) (kind (option_copied next.entry)) }
{
    match (pattern, next) {
        (Pattern::Key(key), Some(Mark::Key(other))) => *other == key,
        (Pattern::Sign(sign), Some(Mark::Sign(other))) => *other == sign,
        (Pattern::Name, Some(Mark::Plain(_, _))) => true,
        (Pattern::Name, Some(Mark::Quoted(_))) => true,
        (Pattern::Number, Some(Mark::Number(_))) => true,
        (Pattern::Text, Some(Mark::Str(_))) => true,
        _ => false,
    }
}

#[tactic(auto, using(crate::proofs::Marks::any_step, crate::proofs::Marks::any_here))]
fn is_any(mut patterns: &[Pattern], next: Option<&Mark>) -> bool
    ensures { result ≡ any (map pattern_of patterns.entry.now) (kind (option_copied next.entry)) }
{
    while let [first, rest @ ..] = patterns {
        if is_pattern(*first, next) {
            return true;
        }
        patterns = rest;
    }
    false
}

/// Whether the rule is one mark and this one is as it asks for.
fn fits(rule: &Rule, next: Option<&Mark>) -> bool
    ensures { result ≡ fits_one (form_of rule.now) (kind (option_copied next.entry)) }
{
    match (rule, next) {
        (Rule::Plain(word), Some(Mark::Plain(other, _))) => *other == *word,
        (Rule::Reserved(word), Some(Mark::Reserved(other))) => *other == *word,
        (Rule::Key(key), Some(Mark::Key(other))) => *other == *key,
        (Rule::Sign(sign), Some(Mark::Sign(other))) => *other == *sign,
        (Rule::Name(but), Some(Mark::Plain(word, _))) => !is_among(but, *word),
        (Rule::Name(_), Some(Mark::Quoted(_))) => true,
        (Rule::Number, Some(Mark::Number(_))) => true,
        (Rule::Text, Some(Mark::Str(_))) => true,
        (Rule::Any(patterns), _) => is_any(patterns, next),
        _ => false,
    }
}

/// Whether the rule may spell no mark at all.
fn is_empty(rule: &Rule) -> bool
    ensures { result ≡ spec.empty (form_of rule.now) }
{
    match rule {
        Rule::Nothing => true,
        Rule::Then(a, b) => is_empty(a) && is_empty(b),
        Rule::Either(a, b) => is_empty(a) || is_empty(b),
        Rule::Many(_) => true,
        _ => false,
    }
}

/// Whether the next mark may begin the rule.
pub fn may_begin(rule: &Rule, next: Option<&Mark>) -> bool
    ensures { result ≡ spec.may_begin (form_of rule.now) (kind (option_copied next.entry)) }
{
    match rule {
        Rule::Nothing => false,
        Rule::Part(level) => is_any(begins(*level), next),
        Rule::Then(a, b) => may_begin(a, next) || (is_empty(a) && may_begin(b, next)),
        Rule::Either(a, b) => may_begin(a, next) || may_begin(b, next),
        Rule::Many(a) => may_begin(a, next),
        _ => fits(rule, next),
    }
}

/// Passes over one mark.
#[tactic(auto, using(crate::proofs::Marks::single_is, crate::proofs::Marks::single_none))]
fn one<'a>(rule: &Rule, ahead: &'a [Mark]) -> Option<&'a [Mark]>
    ensures { Leaves (single (form_of rule.now) ahead.now) result }
{
    match ahead {
        [] => None,
        [next, rest @ ..] => {
            if fits(rule, Some(next)) {
                Some(rest)
            } else {
                None
            }
        }
    }
}

/// Passes over what the rule spells. What passes over a level of expressions is a parameter, so that this function is
/// proved by itself.
#[tactic(auto, unfolding(crate::specs::Forms::passes, crate::specs::Forms::many_from))]
fn pass<'a, F: Fn(&[Mark], usize, Level) -> Option<&[Mark]>>(
    rule: &'static Rule,
    ahead: &'a [Mark],
    room: usize,
    deep: &F,
) -> Option<&'a [Mark]>
    requires { Deeper room (F.pre deep.now) (F.post deep.now) }
    ensures { Leaves (spec.passes (spec.at room) (form_of rule.now) ahead.now) result }
{
    match rule {
        Rule::Nothing => Some(ahead),
        Rule::Part(level) => deep(ahead, room, *level),
        Rule::Then(a, b) => {
            let following = pass(a, ahead, room, deep)?;
            pass(b, following, room, deep)
        }
        Rule::Either(a, b) => {
            if may_begin(a, first(ahead)) {
                pass(a, ahead, room, deep)
            } else {
                pass(b, ahead, room, deep)
            }
        }
        Rule::Many(item) => {
            let mut following = ahead;
            for _turn in 0..ahead.len() + 1 {
                if !may_begin(item, first(following)) {
                    return Some(following);
                }
                following = pass(item, following, room, deep)?;
            }
            None
        }
        _ => one(rule, ahead),
    }
}

/// Passes over a level of expressions, in at most so many steps from level to level.
fn part<'a>(ahead: &'a [Mark], room: usize, level: Level) -> Option<&'a [Mark]>
    ensures { Leaves (spec.at room (level_of level) ahead.now) result }
{
    if room == 0 {
        return None;
    }
    pass(rule_of(level), ahead, room - 1, &part)
}

/// Passes over what the rule spells, in at most so many steps from level to level.
pub fn over<'a>(rule: &'static Rule, ahead: &'a [Mark], room: usize) -> Option<&'a [Mark]>
    ensures { Leaves (spec.passes (spec.at room) (form_of rule.now) ahead.now) result }
{
    pass(rule, ahead, room, &part)
}
