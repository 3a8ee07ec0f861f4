// Tests of typing from texts: a table of more than four hundred statements over tables that CREATE TABLE texts define, each with its
// typed statement or its code.
//
// The typed statements are shown as text, so that text is compared with text. The contracts of `sql_types` and `table_schema` say
// that they give what the rules of `typing_rules` give; this table shows by cases typed by hand that the rules are SQL's. The crate
// has nothing but tests.

mod cases;
mod expr;
mod shown;
mod statement;
mod table;
mod tests;
