// Marks: tokens without their places, with the words of the grammar told apart.

use cell_base::{Items, SqlType, Text};
use sql_tree::{Expr, Sign};

/// A reserved word of expressions.
#[derive(Clone, Copy, Debug, PartialEq, Eq)]
pub enum Keyword {
    Or,
    And,
    Not,
    Is,
    Null,
    In,
    Between,
    True,
    False,
}

/// A word of statements, or any other word.
#[derive(Clone, Copy, Debug, PartialEq, Eq)]
pub enum Word {
    As,
    Asc,
    Check,
    Constraint,
    Create,
    Cross,
    Default,
    Desc,
    End,
    From,
    Inner,
    Into,
    Join,
    Limit,
    Offset,
    On,
    Order,
    Primary,
    Select,
    Table,
    To,
    Where,
    Insert,
    Values,
    Update,
    Set,
    Delete,
    By,
    Key,
    Boolean,
    Bool,
    Integer,
    Int,
    Int4,
    Bigint,
    Int8,
    Text,
    Varchar,
    Character,
    Varying,
    Begin,
    Work,
    Transaction,
    Start,
    Isolation,
    Level,
    Serializable,
    Repeatable,
    Read,
    Committed,
    Uncommitted,
    Write,
    Only,
    Deferrable,
    Commit,
    Rollback,
    Abort,
    Session,
    Characteristics,
    Local,
    Show,
    Other,
}

/// What a word is to the grammar.
#[derive(Clone, Copy, Debug, PartialEq, Eq)]
pub enum Class {
    /// A reserved word that expressions use.
    Key(Keyword),
    /// Another reserved word.
    Reserved(Word),
    /// A word that may be a name.
    Plain(Word),
}

/// A token as the grammar sees it.
#[derive(Debug, Drop)]
pub enum Mark {
    /// A reserved word of expressions.
    Key(Keyword),
    /// Another reserved word.
    Reserved(Word),
    /// A word that isn't reserved, and its text.
    Plain(Word, Text),
    /// The content of a quoted name.
    Quoted(Text),
    Number(i64),
    /// The content of a string.
    Str(Text),
    /// A parameter, as `$1`.
    Param(u32),
    Sign(Sign),
}

/// A tree that was read, and the depth of its spelling.
#[derive(Debug, Drop)]
pub struct Node {
    pub tree: Expr,
    pub depth: u32,
}

/// A word or a sign that a rule asks for.
#[derive(Clone, Copy, Debug, PartialEq, Eq)]
pub enum Sought {
    /// A word of statements that isn't reserved.
    Plain(Word),
    /// A reserved word of statements.
    Reserved(Word),
    Key(Keyword),
    Sign(Sign),
}

/// What may stand with a column of a CREATE TABLE.
#[derive(Debug, Drop)]
pub enum Constraint {
    Primary,
    NotNull,
    Null,
    Default(Expr),
    Check(Expr),
}

/// What stands between the parentheses of a CREATE TABLE.
#[derive(Debug, Drop)]
pub enum Element {
    Column(Text, SqlType, Items<Constraint>),
    Primary(Items<Text>),
    Check(Expr),
}
