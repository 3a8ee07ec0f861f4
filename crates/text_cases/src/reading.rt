// Tests of what the reader of SQL makes of texts: a table of some 350 texts, each with its statements or its fault, and one of
// 117 texts with their tokens.
//
// The statements are shown as text, with all parentheses, so that text is compared with text. The contracts of
// `sql_statements` say that it reads just what the grammar says; the table shows by cases read by hand that the grammar is the
// one that `docs/sql.md` describes. The crate has nothing but tests.

mod answers;
mod cases;
mod compared;
mod expr;
mod lexemes;
mod long_texts;
mod statement;
mod tables;
mod tests;
mod texts;
mod tokens;
