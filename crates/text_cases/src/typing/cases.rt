// The tables: texts of one statement each, with the typed statement or the code that stands for them, found by hand from the rules.
//
// A table is one text, which is checked much faster than a list of them. A line has a statement, ` => ` and what it comes to. A line
// that begins with `#` tells what those after it show.

mod changes;
mod conditions;
mod definitions;
mod inserts;
mod names;
mod operators;
mod points;
mod queries;

pub(crate) use changes::CHANGES;
pub(crate) use conditions::CONDITIONS;
pub(crate) use definitions::{DEFINITIONS, LONG, Long};
pub(crate) use inserts::INSERTS;
pub(crate) use names::NAMES;
pub(crate) use operators::OPERATORS;
pub(crate) use points::POINTS;
pub(crate) use queries::{ORDERS, QUERIES};

/// The tables that all cases stand over, in the order of their numbers, from 0.
pub(crate) const TABLES: &[&str] = &[
    "CREATE TABLE t (k bigint PRIMARY KEY, v bigint)",
    "CREATE TABLE u (id integer PRIMARY KEY, name text NOT NULL, code varchar(3) DEFAULT 'ab', ok boolean DEFAULT true, CHECK (id > 0))",
    "CREATE TABLE w (name text PRIMARY KEY, n integer DEFAULT 7)",
    "CREATE TABLE s (k varchar(3) PRIMARY KEY, b boolean DEFAULT true NOT NULL, CHECK (k <> 'no'))",
    "CREATE TABLE p (k integer DEFAULT 5 PRIMARY KEY, a integer, b integer CHECK (b > a), d integer, CHECK (d > 0))",
    // 32 columns, the most that a table may have.
    "CREATE TABLE m (a1 int PRIMARY KEY, a2 int, a3 int, a4 int, a5 int, a6 int, a7 int, a8 int, b1 int, b2 int, b3 int, b4 int, \
     b5 int, b6 int, b7 int, b8 int, c1 int, c2 int, c3 int, c4 int, c5 int, c6 int, c7 int, c8 int, d1 int, d2 int, d3 int, d4 int, \
     d5 int, d6 int, d7 int, d8 int)",
];

/// Texts with tabs and ends of lines in them.
pub(crate) const SPACED: &[(&str, &str)] = &[
    (
        "SELECT 1 = ' +007 ', 1 = '-2147483648', 2147483648 = '\t8\n'",
        "?column?:b ?column?:b ?column?:b <- =(1:i 7:i):b =(1:i -2147483648:i):b =(2147483648:l 8:l):b",
    ),
    ("INSERT INTO s VALUES ('abc\t')", "S22001"),
];
