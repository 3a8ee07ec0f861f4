// Aggregates over a column x, with the values that they give, worked out by hand from PostgreSQL's documentation.
use case_lines::Lit;
use case_lines::Lit::{Flag, Int, Null, Str};
use cell_base::SqlType;
use cell_base::SqlType::{Bigint, Boolean, Integer, Text, Varchar};
use sql_tree::Aggregate;
use sql_tree::Aggregate::{Count, Max, Min, Sum};

/// An expression over x.
#[derive(Clone, Copy)]
pub enum Shape {
    /// `count(*)`
    CountRows,
    /// An aggregate of x.
    Call(Aggregate),
    /// `sum(x)` of type bigint, also where x is a bigint.
    NarrowSum,
    /// `sum(1 / x)`
    SumOfQuotients,
    /// `sum((x + 1) + 2147483647)`
    SumAbove,
    /// `1 / (count(*) - n)`
    QuotientOfRows(i64),
    /// `sum(x) / count(*)`
    Mean,
    /// `sum(x) IN (count(*), 6)`
    SumIn,
    /// `NOT (sum(x) IS NULL)`
    HasSum,
    /// `- max(x)`
    NegatedMax,
}

use Shape::{
    Call, CountRows, HasSum, Mean, NarrowSum, NegatedMax, QuotientOfRows, SumAbove, SumIn,
    SumOfQuotients,
};

/// The type of x, expressions, the values of x row by row, and what is given.
pub type Case = (SqlType, &'static [Shape], &'static [Lit], &'static str);

const ALL: [Shape; 5] = [CountRows, Call(Count), Call(Sum), Call(Min), Call(Max)];

/// One row for all rows.
pub const OF_NUMBERS: [Case; 11] = [
    (Integer, &ALL, &[Int(1), Null, Int(3), Int(2)], "4 3 6 1 3"),
    (Integer, &ALL, &[], "0 0 null null null"),
    (Integer, &ALL, &[Null, Null], "2 0 null null null"),
    (Integer, &ALL, &[Int(-2), Int(-2)], "2 2 -4 -2 -2"),
    (
        Bigint,
        &[Call(Sum)],
        &[Int(9223372036854775807), Int(1)],
        "9223372036854775808",
    ),
    (
        Bigint,
        &[NarrowSum],
        &[Int(9223372036854775807), Int(-1), Int(1)],
        "9223372036854775807",
    ),
    (
        Bigint,
        &[NarrowSum],
        &[Int(9223372036854775807), Int(1), Int(-1)],
        "S22003",
    ),
    (Integer, &[Mean], &[Int(1), Int(2), Int(4)], "2"),
    (Integer, &[Mean], &[], "null"),
    (Integer, &[NegatedMax], &[Int(1), Int(5)], "-5"),
    (Integer, &[HasSum, Call(Max)], &[Null], "f null"),
];

/// Types that have no sum.
pub const OF_OTHERS: [Case; 3] = [
    (
        Text,
        &[Call(Min), Call(Max), Call(Count)],
        &[Str("b"), Null, Str("abc"), Str("ab")],
        "ab b 3",
    ),
    (Varchar(3), &[Call(Max)], &[Str(""), Str("é")], "é"),
    (
        Boolean,
        &[Call(Count), CountRows],
        &[Flag(true), Null, Flag(false)],
        "2 3",
    ),
];

/// Several aggregates in one expression.
pub const OF_EXPRESSIONS: [Case; 4] = [
    (Integer, &[SumIn], &[Int(1), Int(2), Int(3)], "t"),
    (Integer, &[SumIn], &[Int(1), Int(1), Int(1)], "t"),
    (Integer, &[SumIn, CountRows], &[Int(1), Int(2)], "f 2"),
    (
        Integer,
        &[QuotientOfRows(1)],
        &[Int(5), Int(6), Int(7)],
        "0",
    ),
];

/// Which fault comes first: row by row, in a row in text order, before the aggregates' own, before the expressions'.
pub const OF_FAULTS: [Case; 9] = [
    (Integer, &[SumOfQuotients], &[Int(2), Int(1), Null], "1"),
    (Integer, &[SumOfQuotients], &[Int(1), Int(0)], "S22012"),
    (Integer, &[SumOfQuotients, SumAbove], &[Int(0)], "S22012"),
    (Integer, &[SumAbove, SumOfQuotients], &[Int(0)], "S22003"),
    (
        Integer,
        &[SumOfQuotients, SumAbove],
        &[Int(1), Int(0)],
        "S22003",
    ),
    (
        Integer,
        &[SumOfQuotients, SumAbove],
        &[Int(-1), Int(0)],
        "S22012",
    ),
    (Integer, &[QuotientOfRows(1)], &[Int(5)], "S22012"),
    (Integer, &[QuotientOfRows(1), SumAbove], &[Int(0)], "S22003"),
    (
        Bigint,
        &[QuotientOfRows(2), NarrowSum],
        &[Int(9223372036854775807), Int(1)],
        "S22003",
    ),
];
