// Rows with terms, and the order that they are put in: by the number of each row, from 0. True stands for DESC.
use case_lines::Lit;
use case_lines::Lit::{Flag, Int, Null, Str};

/// The terms of each row, the directions, and the rows' numbers in order.
pub type Order = (&'static [&'static [Lit]], &'static [bool], &'static str);

pub const ORDERS: [Order; 9] = [
    (&[&[Int(2)], &[Null], &[Int(1)]], &[false], "2 0 1"),
    (&[&[Int(2)], &[Null], &[Int(1)]], &[true], "1 0 2"),
    (
        &[&[Int(1)], &[Int(0)], &[Int(1)], &[Int(0)]],
        &[false],
        "1 3 0 2",
    ),
    (
        &[&[Int(1)], &[Int(0)], &[Int(1)], &[Int(0)]],
        &[true],
        "0 2 1 3",
    ),
    (
        &[
            &[Int(1), Str("b")],
            &[Int(0), Str("z")],
            &[Int(1), Str("a")],
        ],
        &[false, false],
        "1 2 0",
    ),
    (
        &[&[Int(1), Str("b")], &[Int(0), Str("z")], &[Int(1), Null]],
        &[false, true],
        "1 2 0",
    ),
    (
        &[&[Str("b")], &[Str("ab")], &[Str("")], &[Str("abc")]],
        &[false],
        "2 1 3 0",
    ),
    (&[&[Flag(true)], &[Flag(false)], &[Null]], &[false], "1 0 2"),
    (&[&[], &[], &[]], &[], "0 1 2"),
];

/// OFFSET, LIMIT, and what they leave of 0, 1, 2, 3.
pub const CUTS: [(i64, Option<i64>, &str); 9] = [
    (0, None, "0 1 2 3"),
    (1, None, "1 2 3"),
    (4, None, ""),
    (9223372036854775807, None, ""),
    (-1, None, "0 1 2 3"),
    (1, Some(2), "1 2"),
    (3, Some(2), "3"),
    (0, Some(0), ""),
    (0, Some(-1), ""),
];
