// The rules of statements.
ghost use Rattle.std.specs.Prelude.{◌≡◌};
ghost use Rattle.sql_grammar.specs.Statements as st;
ghost use Rattle.sql_refusal.specs.Forms.{form};
ghost use Rattle.sql_refusal.specs.Tables.{form_of};
ghost use Rattle.sql_refusal.specs.WideForms.{create_with, wide_form};

use crate::rule::Rule::{
    Either, Key, Many, Name, Nothing, Number, Part, Plain, Reserved, Sign as One, Text, Then,
};
use crate::rule::{Level, Rule};
use sql_grammar::{Keyword, Word};
use sql_tree::Sign;

const EXPRESSION: Rule = Part(Level::Or);

const NAME: Rule = Name(&[]);

/// name { ',' name }
const NAMES: Rule = Then(&NAME, &Many(&Then(&One(Sign::Comma), &NAME)));

/// '(' name { ',' name } ')'
const NAME_LIST: Rule = Then(&One(Sign::Open), &Then(&NAMES, &One(Sign::Close)));

const ALIAS: Rule = Either(&Either(&Then(&Reserved(Word::As), &NAME), &NAME), &Nothing);

const FILTER: Rule = Either(&Then(&Reserved(Word::Where), &EXPRESSION), &Nothing);

// ---- SELECT

const ITEM: Rule = Either(&One(Sign::Star), &Then(&EXPRESSION, &ALIAS));

const ITEMS: Rule = Then(&ITEM, &Many(&Then(&One(Sign::Comma), &ITEM)));

const TAB: Rule = Then(&NAME, &ALIAS);

const CROSS_JOIN: Rule = Then(&Reserved(Word::Cross), &Then(&Reserved(Word::Join), &TAB));

const INNER_JOIN: Rule = Then(
    &Either(&Reserved(Word::Inner), &Nothing),
    &Then(
        &Reserved(Word::Join),
        &Then(&TAB, &Then(&Reserved(Word::On), &EXPRESSION)),
    ),
);

const JOIN: Rule = Either(&CROSS_JOIN, &INNER_JOIN);

const NEXT_TAB: Rule = Then(&One(Sign::Comma), &TAB);

const MORE_FROM: Rule = Either(
    &Then(&NEXT_TAB, &Many(&NEXT_TAB)),
    &Then(&Nothing, &Many(&JOIN)),
);

const SOURCE: Rule = Either(
    &Then(
        &Reserved(Word::From),
        &Then(&Then(&TAB, &MORE_FROM), &FILTER),
    ),
    &Nothing,
);

const DIRECTION: Rule = Either(
    &Reserved(Word::Asc),
    &Either(&Reserved(Word::Desc), &Nothing),
);

const TERM: Rule = Then(&EXPRESSION, &DIRECTION);

const TERMS: Rule = Then(&TERM, &Many(&Then(&One(Sign::Comma), &TERM)));

const ORDER: Rule = Either(
    &Then(&Reserved(Word::Order), &Then(&Plain(Word::By), &TERMS)),
    &Nothing,
);

const LIMIT: Rule = Either(&Then(&Reserved(Word::Limit), &Number), &Nothing);

const OFFSET: Rule = Either(&Then(&Reserved(Word::Offset), &Number), &Nothing);

static SELECT: Rule = Then(
    &Reserved(Word::Select),
    &Then(
        &ITEMS,
        &Then(&SOURCE, &Then(&ORDER, &Then(&LIMIT, &OFFSET))),
    ),
);

// ---- INSERT, UPDATE, DELETE

const CELL: Rule = Either(&Reserved(Word::Default), &EXPRESSION);

const CELLS: Rule = Then(&CELL, &Many(&Then(&One(Sign::Comma), &CELL)));

const ROW: Rule = Then(&One(Sign::Open), &Then(&CELLS, &One(Sign::Close)));

const ROWS: Rule = Then(&ROW, &Many(&Then(&One(Sign::Comma), &ROW)));

const COLUMNS: Rule = Either(&NAME_LIST, &Nothing);

static INSERT: Rule = Then(
    &Plain(Word::Insert),
    &Then(
        &Reserved(Word::Into),
        &Then(&NAME, &Then(&COLUMNS, &Then(&Plain(Word::Values), &ROWS))),
    ),
);

const ASSIGNMENT: Rule = Then(&NAME, &Then(&One(Sign::Eq), &CELL));

const ASSIGNMENTS: Rule = Then(&ASSIGNMENT, &Many(&Then(&One(Sign::Comma), &ASSIGNMENT)));

static UPDATE: Rule = Then(
    &Plain(Word::Update),
    &Then(
        &NAME,
        &Then(&Plain(Word::Set), &Then(&ASSIGNMENTS, &FILTER)),
    ),
);

static DELETE: Rule = Then(
    &Plain(Word::Delete),
    &Then(&Reserved(Word::From), &Then(&NAME, &FILTER)),
);

// ---- transactions and settings

const WORK: Rule = Either(
    &Either(&Plain(Word::Work), &Plain(Word::Transaction)),
    &Nothing,
);

const ISOLATION: Rule = Either(
    &Plain(Word::Serializable),
    &Either(
        &Then(&Plain(Word::Repeatable), &Plain(Word::Read)),
        &Then(
            &Plain(Word::Read),
            &Either(&Plain(Word::Committed), &Plain(Word::Uncommitted)),
        ),
    ),
);

const ACCESS: Rule = Then(
    &Plain(Word::Read),
    &Either(&Plain(Word::Write), &Plain(Word::Only)),
);

const DEFERRABLE: Rule = Then(
    &Either(&Key(Keyword::Not), &Nothing),
    &Plain(Word::Deferrable),
);

const MODE: Rule = Either(
    &Then(
        &Plain(Word::Isolation),
        &Then(&Plain(Word::Level), &ISOLATION),
    ),
    &Either(&ACCESS, &DEFERRABLE),
);

const MODES: Rule = Then(
    &MODE,
    &Many(&Then(&Either(&One(Sign::Comma), &Nothing), &MODE)),
);

static BEGIN: Rule = Then(
    &Either(
        &Then(&Plain(Word::Begin), &WORK),
        &Then(&Plain(Word::Start), &Plain(Word::Transaction)),
    ),
    &Either(&MODES, &Nothing),
);

static COMMIT: Rule = Then(&Either(&Plain(Word::Commit), &Reserved(Word::End)), &WORK);

static ROLLBACK: Rule = Then(&Either(&Plain(Word::Rollback), &Plain(Word::Abort)), &WORK);

const SUFFIX: Rule = Either(&Then(&One(Sign::Dot), &NAME), &Nothing);

const VALUE_WORD: Rule = Either(
    &Key(Keyword::True),
    &Either(
        &Key(Keyword::False),
        &Either(&Reserved(Word::On), &Reserved(Word::Default)),
    ),
);

const SETTING_VALUE: Rule = Either(
    &Text,
    &Either(
        &Then(&One(Sign::Minus), &Number),
        &Either(&Number, &Either(&NAME, &VALUE_WORD)),
    ),
);

const SETTING_VALUES: Rule = Then(
    &Either(&Reserved(Word::To), &One(Sign::Eq)),
    &Then(
        &SETTING_VALUE,
        &Many(&Then(&One(Sign::Comma), &SETTING_VALUE)),
    ),
);

const TRANSACTION_MODES: Rule = Then(&Plain(Word::Transaction), &MODES);

const CHARACTERISTICS: Rule = Then(
    &Plain(Word::Characteristics),
    &Either(
        &Then(&Reserved(Word::As), &TRANSACTION_MODES),
        &Then(&SUFFIX, &SETTING_VALUES),
    ),
);

const SESSION_SETTING: Rule = Either(
    &CHARACTERISTICS,
    &Then(
        &Then(&Name(&[Word::Characteristics]), &SUFFIX),
        &SETTING_VALUES,
    ),
);

const LOCAL_SETTING: Rule = Then(&Then(&NAME, &SUFFIX), &SETTING_VALUES);

const SETTING: Rule = Then(
    &Then(
        &Name(&[Word::Transaction, Word::Session, Word::Local]),
        &SUFFIX,
    ),
    &SETTING_VALUES,
);

static SET: Rule = Then(
    &Plain(Word::Set),
    &Either(
        &TRANSACTION_MODES,
        &Either(
            &Then(&Plain(Word::Session), &SESSION_SETTING),
            &Either(&Then(&Plain(Word::Local), &LOCAL_SETTING), &SETTING),
        ),
    ),
);

static SHOW: Rule = Then(&Plain(Word::Show), &Then(&NAME, &SUFFIX));

// ---- CREATE TABLE

const CONSTANT: Rule = Either(
    &Then(&One(Sign::Minus), &Number),
    &Either(
        &Number,
        &Either(
            &Text,
            &Either(
                &Key(Keyword::True),
                &Either(&Key(Keyword::False), &Key(Keyword::Null)),
            ),
        ),
    ),
);

const CHECK: Rule = Then(
    &Reserved(Word::Check),
    &Then(&One(Sign::Open), &Then(&EXPRESSION, &One(Sign::Close))),
);

const LABEL: Rule = Either(&Then(&Reserved(Word::Constraint), &NAME), &Nothing);

const CONSTRAINT: Rule = Either(
    &Then(&Reserved(Word::Primary), &Plain(Word::Key)),
    &Either(
        &Then(&Key(Keyword::Not), &Key(Keyword::Null)),
        &Either(
            &Key(Keyword::Null),
            &Either(&Then(&Reserved(Word::Default), &CONSTANT), &CHECK),
        ),
    ),
);

const CONSTRAINTS: Rule = Then(&Nothing, &Many(&Then(&LABEL, &CONSTRAINT)));

const SIZE: Rule = Either(
    &Then(&One(Sign::Open), &Then(&Number, &One(Sign::Close))),
    &Nothing,
);

const SIZED: Rule = Then(
    &Either(
        &Plain(Word::Varchar),
        &Then(&Plain(Word::Character), &Plain(Word::Varying)),
    ),
    &SIZE,
);

const TYPE: Rule = Either(
    &Plain(Word::Boolean),
    &Either(
        &Plain(Word::Bool),
        &Either(
            &Plain(Word::Integer),
            &Either(
                &Plain(Word::Int),
                &Either(
                    &Plain(Word::Int4),
                    &Either(
                        &Plain(Word::Bigint),
                        &Either(&Plain(Word::Int8), &Either(&Plain(Word::Text), &SIZED)),
                    ),
                ),
            ),
        ),
    ),
);

/// [ '(' number { ',' number } ')' ]
const NUMBERS: Rule = Either(
    &Then(
        &One(Sign::Open),
        &Then(
            &Then(&Number, &Many(&Then(&One(Sign::Comma), &Number))),
            &One(Sign::Close),
        ),
    ),
    &Nothing,
);

/// Any name, of which CHARACTER may also be the first word of two.
const WIDE_TYPE: Rule = Either(
    &Then(
        &Plain(Word::Character),
        &Either(&Then(&Plain(Word::Varying), &SIZE), &NUMBERS),
    ),
    &Then(&Name(&[Word::Character]), &NUMBERS),
);

const TABLE_CONSTRAINT: Rule = Then(
    &LABEL,
    &Either(
        &Then(
            &Reserved(Word::Primary),
            &Then(&Plain(Word::Key), &NAME_LIST),
        ),
        &CHECK,
    ),
);

const ELEMENT: Rule = Either(&Then(&NAME, &Then(&TYPE, &CONSTRAINTS)), &TABLE_CONSTRAINT);

const WIDE_ELEMENT: Rule = Either(
    &Then(&NAME, &Then(&WIDE_TYPE, &CONSTRAINTS)),
    &TABLE_CONSTRAINT,
);

const ELEMENTS: Rule = Then(&ELEMENT, &Many(&Then(&One(Sign::Comma), &ELEMENT)));

const WIDE_ELEMENTS: Rule = Then(
    &WIDE_ELEMENT,
    &Many(&Then(&One(Sign::Comma), &WIDE_ELEMENT)),
);

static CREATE: Rule = Then(
    &Reserved(Word::Create),
    &Then(
        &Reserved(Word::Table),
        &Then(
            &NAME,
            &Then(&One(Sign::Open), &Then(&ELEMENTS, &One(Sign::Close))),
        ),
    ),
);

static WIDE_CREATE: Rule = Then(
    &Reserved(Word::Create),
    &Then(
        &Reserved(Word::Table),
        &Then(
            &NAME,
            &Then(&One(Sign::Open), &Then(&WIDE_ELEMENTS, &One(Sign::Close))),
        ),
    ),
);

/// The rule of a SELECT.
#[tactic(auto, unfolding(sql_grammar::specs::Statements::name, sql_grammar::specs::Statements::alias, sql_grammar::specs::Statements::filter, sql_grammar::specs::Statements::item, sql_grammar::specs::Statements::tab, sql_grammar::specs::Statements::join, sql_grammar::specs::Statements::next_tabs, sql_grammar::specs::Statements::next_joins, sql_grammar::specs::Statements::more_from, sql_grammar::specs::Statements::from, sql_grammar::specs::Statements::source, sql_grammar::specs::Statements::direction, sql_grammar::specs::Statements::term, sql_grammar::specs::Statements::order, sql_grammar::specs::Statements::limit, sql_grammar::specs::Statements::select))]
pub fn select() -> &'static Rule
    ensures { form_of result.now ≡ form (st.select 0) }
{
    &SELECT
}

/// The rule of an INSERT.
#[tactic(auto, unfolding(sql_grammar::specs::Statements::name, sql_grammar::specs::Statements::cell, sql_grammar::specs::Statements::row, sql_grammar::specs::Statements::columns, sql_grammar::specs::Statements::insert))]
pub fn insert() -> &'static Rule
    ensures { form_of result.now ≡ form (st.insert 0 0) }
{
    &INSERT
}

/// The rule of an UPDATE.
#[tactic(auto, unfolding(sql_grammar::specs::Statements::name, sql_grammar::specs::Statements::filter, sql_grammar::specs::Statements::cell, sql_grammar::specs::Statements::assignment, sql_grammar::specs::Statements::update))]
pub fn update() -> &'static Rule
    ensures { form_of result.now ≡ form (st.update 0) }
{
    &UPDATE
}

/// The rule of a DELETE.
#[tactic(auto, unfolding(sql_grammar::specs::Statements::name, sql_grammar::specs::Statements::filter, sql_grammar::specs::Statements::delete))]
pub fn delete() -> &'static Rule
    ensures { form_of result.now ≡ form (st.delete 0) }
{
    &DELETE
}

/// The rule of a BEGIN or START TRANSACTION.
#[tactic(auto, unfolding(sql_grammar::specs::Statements::work, sql_grammar::specs::Statements::level, sql_grammar::specs::Statements::mode, sql_grammar::specs::Statements::next_mode, sql_grammar::specs::Statements::modes, sql_grammar::specs::Statements::beginning, sql_grammar::specs::Statements::begin))]
pub fn begin() -> &'static Rule
    ensures { form_of result.now ≡ form st.begin }
{
    &BEGIN
}

/// The rule of a COMMIT.
#[tactic(auto, unfolding(sql_grammar::specs::Statements::work, sql_grammar::specs::Statements::commit))]
pub fn commit() -> &'static Rule
    ensures { form_of result.now ≡ form st.commit }
{
    &COMMIT
}

/// The rule of a ROLLBACK.
#[tactic(auto, unfolding(sql_grammar::specs::Statements::work, sql_grammar::specs::Statements::rollback))]
pub fn rollback() -> &'static Rule
    ensures { form_of result.now ≡ form st.rollback }
{
    &ROLLBACK
}

/// The rule of a SET.
#[tactic(auto, unfolding(sql_grammar::specs::Statements::name, sql_grammar::specs::Statements::level, sql_grammar::specs::Statements::mode, sql_grammar::specs::Statements::next_mode, sql_grammar::specs::Statements::modes, sql_grammar::specs::Statements::suffix, sql_grammar::specs::Statements::dotted, sql_grammar::specs::Statements::value_word, sql_grammar::specs::Statements::setting_value, sql_grammar::specs::Statements::setting_values, sql_grammar::specs::Statements::assigned, sql_grammar::specs::Statements::transaction_modes, sql_grammar::specs::Statements::characteristics, sql_grammar::specs::Statements::session_setting, sql_grammar::specs::Statements::set))]
pub fn set() -> &'static Rule
    ensures { form_of result.now ≡ form st.set }
{
    &SET
}

/// The rule of a SHOW.
#[tactic(auto, unfolding(sql_grammar::specs::Statements::name, sql_grammar::specs::Statements::suffix, sql_grammar::specs::Statements::dotted, sql_grammar::specs::Statements::show))]
pub fn show() -> &'static Rule
    ensures { form_of result.now ≡ form st.show }
{
    &SHOW
}

/// The rule of a CREATE TABLE.
#[tactic(auto, unfolding(sql_grammar::specs::Statements::name, sql_grammar::specs::Statements::constant_word, sql_grammar::specs::Statements::constant, sql_grammar::specs::Statements::check, sql_grammar::specs::Statements::label, sql_grammar::specs::Statements::constraint_body, sql_grammar::specs::Statements::next_constraint, sql_grammar::specs::Statements::constraints, sql_grammar::specs::Statements::size, sql_grammar::specs::Statements::sized, sql_grammar::specs::Statements::type_name, sql_grammar::specs::Statements::column, sql_grammar::specs::Statements::key_list, sql_grammar::specs::Statements::table_constraint, sql_grammar::specs::Statements::element, sql_grammar::specs::Statements::create))]
pub fn create() -> &'static Rule
    ensures { form_of result.now ≡ form (st.create 0) }
{
    &CREATE
}

/// The rule of a CREATE TABLE of the wide grammar.
#[tactic(auto, unfolding(sql_grammar::specs::Statements::name, sql_grammar::specs::Statements::constant_word, sql_grammar::specs::Statements::constant, sql_grammar::specs::Statements::check, sql_grammar::specs::Statements::label, sql_grammar::specs::Statements::constraint_body, sql_grammar::specs::Statements::next_constraint, sql_grammar::specs::Statements::constraints, sql_grammar::specs::Statements::key_list, sql_grammar::specs::Statements::table_constraint, crate::specs::WideForms::wide_form))]
pub fn wide_create() -> &'static Rule
    ensures { form_of result.now ≡ create_with wide_form }
{
    &WIDE_CREATE
}
