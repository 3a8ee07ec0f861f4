// The rules of the levels of expressions.
ghost use Rattle.std.specs.Prelude.{◌≡◌, map};
ghost use Rattle.sql_refusal.specs.Forms.{begins_at, rule_at};
ghost use Rattle.sql_refusal.specs.Tables.{form_of, level_of, pattern_of};

use crate::rule::Rule::{Any, Either, Key, Many, Nothing, Part, Sign as One, Then};
use crate::rule::{Level, Pattern, Rule};
use sql_grammar::Keyword;
use sql_tree::Sign;

const EXPRESSION: Rule = Part(Level::Or);

const CLOSE: Rule = One(Sign::Close);

const OPTIONAL_NOT: Rule = Either(&Key(Keyword::Not), &Nothing);

static OR: Rule = Then(
    &Part(Level::And),
    &Many(&Then(&Any(&[Pattern::Key(Keyword::Or)]), &Part(Level::And))),
);

static AND: Rule = Then(
    &Part(Level::Not),
    &Many(&Then(&Any(&[Pattern::Key(Keyword::And)]), &Part(Level::Not))),
);

static NOT: Rule = Then(&Many(&Key(Keyword::Not)), &Part(Level::Is));

static IS: Rule = Then(
    &Part(Level::Comparison),
    &Many(&Then(&Key(Keyword::Is), &Then(&OPTIONAL_NOT, &Key(Keyword::Null)))),
);

const COMPARISONS: Rule = Any(&[
    Pattern::Sign(Sign::Eq),
    Pattern::Sign(Sign::Ne),
    Pattern::Sign(Sign::Lt),
    Pattern::Sign(Sign::Le),
    Pattern::Sign(Sign::Gt),
    Pattern::Sign(Sign::Ge),
]);

static COMPARISON: Rule = Then(
    &Part(Level::Range),
    &Either(&Then(&COMPARISONS, &Part(Level::Range)), &Nothing),
);

/// '(' expr { ',' expr } ')'
const LIST: Rule = Then(
    &One(Sign::Open),
    &Then(
        &EXPRESSION,
        &Then(&Many(&Then(&One(Sign::Comma), &EXPRESSION)), &CLOSE),
    ),
);

const AMONG: Rule = Then(&Key(Keyword::In), &LIST);

const BETWEEN: Rule = Then(
    &Key(Keyword::Between),
    &Then(
        &Part(Level::Sum),
        &Then(&Key(Keyword::And), &Part(Level::Sum)),
    ),
);

static RANGE: Rule = Then(
    &Part(Level::Sum),
    &Either(&Then(&OPTIONAL_NOT, &Either(&AMONG, &BETWEEN)), &Nothing),
);

const SIGNS: Rule = Any(&[Pattern::Sign(Sign::Plus), Pattern::Sign(Sign::Minus)]);

static SUM: Rule = Then(
    &Part(Level::Product),
    &Many(&Then(&SIGNS, &Part(Level::Product))),
);

const PRODUCTS: Rule = Any(&[
    Pattern::Sign(Sign::Star),
    Pattern::Sign(Sign::Slash),
    Pattern::Sign(Sign::Percent),
]);

static PRODUCT: Rule = Then(
    &Part(Level::Signed),
    &Many(&Then(&PRODUCTS, &Part(Level::Signed))),
);

static SIGNED: Rule = Then(&Many(&SIGNS), &Part(Level::Atom));

const LEAF: Rule = Any(&[
    Pattern::Number,
    Pattern::Text,
    Pattern::Key(Keyword::True),
    Pattern::Key(Keyword::False),
    Pattern::Key(Keyword::Null),
]);

const NAME: Rule = Any(&[Pattern::Name]);

/// '(' ( '*' | expr ) ')'
const ARGUMENT: Rule = Then(
    &One(Sign::Open),
    &Then(&Either(&One(Sign::Star), &EXPRESSION), &CLOSE),
);

const NAMED: Rule = Then(
    &NAME,
    &Either(&Then(&One(Sign::Dot), &NAME), &Either(&ARGUMENT, &Nothing)),
);

const PARENTHESES: Rule = Then(&One(Sign::Open), &Then(&EXPRESSION, &CLOSE));

static ATOM: Rule = Either(&LEAF, &Either(&NAMED, &PARENTHESES));

/// The rule of the level.
pub fn rule_of(level: Level) -> &'static Rule
    ensures { form_of result.now ≡ rule_at (level_of level) }
{
    match level {
        Level::Or => &OR,
        Level::And => &AND,
        Level::Not => &NOT,
        Level::Is => &IS,
        Level::Comparison => &COMPARISON,
        Level::Range => &RANGE,
        Level::Sum => &SUM,
        Level::Product => &PRODUCT,
        Level::Signed => &SIGNED,
        Level::Atom => &ATOM,
    }
}

const BEGINS_ATOM: &[Pattern] = &[
    Pattern::Number,
    Pattern::Text,
    Pattern::Name,
    Pattern::Key(Keyword::True),
    Pattern::Key(Keyword::False),
    Pattern::Key(Keyword::Null),
    Pattern::Sign(Sign::Open),
];

const BEGINS_SIGNED: &[Pattern] = &[
    Pattern::Sign(Sign::Plus),
    Pattern::Sign(Sign::Minus),
    Pattern::Number,
    Pattern::Text,
    Pattern::Name,
    Pattern::Key(Keyword::True),
    Pattern::Key(Keyword::False),
    Pattern::Key(Keyword::Null),
    Pattern::Sign(Sign::Open),
];

const BEGINS_NOT: &[Pattern] = &[
    Pattern::Key(Keyword::Not),
    Pattern::Sign(Sign::Plus),
    Pattern::Sign(Sign::Minus),
    Pattern::Number,
    Pattern::Text,
    Pattern::Name,
    Pattern::Key(Keyword::True),
    Pattern::Key(Keyword::False),
    Pattern::Key(Keyword::Null),
    Pattern::Sign(Sign::Open),
];

/// What a spelling of the level begins with.
pub fn begins(level: Level) -> &'static [Pattern]
    ensures { map pattern_of result.now ≡ begins_at (level_of level) }
{
    match level {
        Level::Or | Level::And | Level::Not => BEGINS_NOT,
        Level::Atom => BEGINS_ATOM,
        _ => BEGINS_SIGNED,
    }
}
