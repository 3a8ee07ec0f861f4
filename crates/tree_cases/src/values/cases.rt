// Operators with the values that they give, worked out by hand from PostgreSQL's documentation.
use case_lines::Lit;
use cell_base::SqlType;
use cell_base::SqlType::{Bigint, Boolean, Integer, Text, Varchar};
use sql_tree::Op;
use sql_tree::Op::{Add, And, Div, Eq, Ge, Gt, Le, Lt, Mul, Ne, Or, Rem, Sub};

/// An operator, the type of its operands, and its operands.
pub type Operation = (Op, SqlType, Lit, Lit);

/// An operator, the type of its operands, its operands, and what is given.
pub type Case = (Op, SqlType, Lit, Lit, &'static str);

/// What is asked of one operand.
#[derive(Clone, Copy)]
pub enum Form {
    Neg,
    Not,
    /// True for IS NOT NULL.
    IsNull(bool),
}

/// A form with one operand, the type of the operand, the operand, and what is given.
pub type OneCase = (Form, SqlType, Lit, &'static str);

const NULL: Lit = Lit::Null;

const YES: Lit = Lit::Flag(true);

const NO: Lit = Lit::Flag(false);

/// Arithmetic of 32 bits.
pub const OF_INTEGER: &[Case] = &[
    (Add, Integer, Lit::Int(1), Lit::Int(2), "3"),
    (Add, Integer, Lit::Int(2147483647), Lit::Int(1), "S22003"),
    (
        Add,
        Integer,
        Lit::Int(2147483647),
        Lit::Int(-1),
        "2147483646",
    ),
    (Sub, Integer, Lit::Int(-2147483648), Lit::Int(1), "S22003"),
    (
        Sub,
        Integer,
        Lit::Int(-2147483647),
        Lit::Int(1),
        "-2147483648",
    ),
    (Mul, Integer, Lit::Int(65536), Lit::Int(32768), "S22003"),
    (
        Mul,
        Integer,
        Lit::Int(65536),
        Lit::Int(-32768),
        "-2147483648",
    ),
    (Div, Integer, Lit::Int(-7), Lit::Int(2), "-3"),
    (Rem, Integer, Lit::Int(-7), Lit::Int(2), "-1"),
    (Div, Integer, Lit::Int(7), Lit::Int(-2), "-3"),
    (Rem, Integer, Lit::Int(7), Lit::Int(-2), "1"),
    (Rem, Integer, Lit::Int(-7), Lit::Int(-2), "-1"),
    (Div, Integer, Lit::Int(7), Lit::Int(0), "S22012"),
    (Rem, Integer, Lit::Int(7), Lit::Int(0), "S22012"),
    (Div, Integer, Lit::Int(-2147483648), Lit::Int(-1), "S22003"),
    (Rem, Integer, Lit::Int(-2147483648), Lit::Int(-1), "0"),
    (Div, Integer, Lit::Int(0), Lit::Int(5), "0"),
];

/// Arithmetic of 64 bits.
pub const OF_BIGINT: &[Case] = &[
    (Add, Bigint, Lit::Int(2147483648), Lit::Int(1), "2147483649"),
    (Add, Bigint, Lit::Int(2147483647), Lit::Int(1), "2147483648"),
    (
        Add,
        Bigint,
        Lit::Int(9223372036854775807),
        Lit::Int(1),
        "S22003",
    ),
    (
        Sub,
        Bigint,
        Lit::Int(-9223372036854775807),
        Lit::Int(2),
        "S22003",
    ),
    (
        Mul,
        Bigint,
        Lit::Int(4294967296),
        Lit::Int(2147483648),
        "S22003",
    ),
    (
        Mul,
        Bigint,
        Lit::Int(-4294967296),
        Lit::Int(2147483648),
        "-9223372036854775808",
    ),
    (
        Div,
        Bigint,
        Lit::Int(9223372036854775807),
        Lit::Int(-1),
        "-9223372036854775807",
    ),
    (Div, Bigint, Lit::Int(i64::MIN), Lit::Int(-1), "S22003"),
    (Rem, Bigint, Lit::Int(i64::MIN), Lit::Int(-1), "0"),
    (Rem, Bigint, Lit::Int(i64::MIN), Lit::Int(10), "-8"),
];

/// An operand that is null.
pub const OF_NULL: &[Case] = &[
    (Add, Integer, NULL, Lit::Int(1), "null"),
    (Sub, Integer, Lit::Int(1), NULL, "null"),
    (Mul, Integer, NULL, NULL, "null"),
    (Div, Integer, NULL, Lit::Int(0), "null"),
    (Rem, Integer, NULL, Lit::Int(0), "null"),
    (Div, Integer, Lit::Int(1), NULL, "null"),
    (Eq, Integer, NULL, NULL, "null"),
    (Ne, Integer, NULL, Lit::Int(1), "null"),
    (Lt, Integer, NULL, Lit::Int(1), "null"),
    (Ge, Integer, Lit::Int(1), NULL, "null"),
    (Eq, Text, Lit::Str("a"), NULL, "null"),
    (Eq, Boolean, YES, NULL, "null"),
];

/// Comparisons of numbers.
pub const OF_NUMBERS: &[Case] = &[
    (Eq, Integer, Lit::Int(1), Lit::Int(1), "t"),
    (Eq, Integer, Lit::Int(1), Lit::Int(2), "f"),
    (Ne, Integer, Lit::Int(1), Lit::Int(2), "t"),
    (Ne, Integer, Lit::Int(1), Lit::Int(1), "f"),
    (Lt, Integer, Lit::Int(1), Lit::Int(2), "t"),
    (Lt, Integer, Lit::Int(2), Lit::Int(2), "f"),
    (Le, Integer, Lit::Int(2), Lit::Int(2), "t"),
    (Le, Integer, Lit::Int(3), Lit::Int(2), "f"),
    (Gt, Integer, Lit::Int(2), Lit::Int(1), "t"),
    (Gt, Integer, Lit::Int(1), Lit::Int(1), "f"),
    (Ge, Integer, Lit::Int(1), Lit::Int(1), "t"),
    (Ge, Integer, Lit::Int(1), Lit::Int(2), "f"),
    (Lt, Integer, Lit::Int(-1), Lit::Int(0), "t"),
];

/// Comparisons of texts, by bytes.
pub const OF_TEXTS: &[Case] = &[
    (Eq, Text, Lit::Str("a"), Lit::Str("a"), "t"),
    (Eq, Text, Lit::Str("a"), Lit::Str("A"), "f"),
    (Lt, Text, Lit::Str("Z"), Lit::Str("a"), "t"),
    (Lt, Text, Lit::Str("b"), Lit::Str("aa"), "f"),
    (Lt, Text, Lit::Str("a"), Lit::Str("aa"), "t"),
    (Lt, Text, Lit::Str(""), Lit::Str("a"), "t"),
    (Lt, Text, Lit::Str("z"), Lit::Str("é"), "t"),
    (Gt, Text, Lit::Str("ab"), Lit::Str("aB"), "t"),
    (Eq, Text, Lit::Str("a"), Lit::Str("a "), "f"),
    (Ge, Text, Lit::Str(""), Lit::Str(""), "t"),
];

/// Comparisons of booleans: false is below true.
pub const OF_FLAGS: &[Case] = &[
    (Lt, Boolean, NO, YES, "t"),
    (Gt, Boolean, NO, YES, "f"),
    (Eq, Boolean, YES, YES, "t"),
    (Ne, Boolean, YES, NO, "t"),
    (Le, Boolean, YES, YES, "t"),
];

/// AND.
pub const CONJUNCTIONS: &[Case] = &[
    (And, Boolean, YES, YES, "t"),
    (And, Boolean, YES, NO, "f"),
    (And, Boolean, YES, NULL, "null"),
    (And, Boolean, NO, YES, "f"),
    (And, Boolean, NO, NO, "f"),
    (And, Boolean, NO, NULL, "f"),
    (And, Boolean, NULL, YES, "null"),
    (And, Boolean, NULL, NO, "f"),
    (And, Boolean, NULL, NULL, "null"),
];

/// OR.
pub const DISJUNCTIONS: &[Case] = &[
    (Or, Boolean, YES, YES, "t"),
    (Or, Boolean, YES, NO, "t"),
    (Or, Boolean, YES, NULL, "t"),
    (Or, Boolean, NO, YES, "t"),
    (Or, Boolean, NO, NO, "f"),
    (Or, Boolean, NO, NULL, "null"),
    (Or, Boolean, NULL, YES, "t"),
    (Or, Boolean, NULL, NO, "null"),
    (Or, Boolean, NULL, NULL, "null"),
];

/// A column's type, a value that is assigned to it, and what is given.
pub const ASSIGNED: &[(SqlType, Lit, &str)] = &[
    (Integer, Lit::Int(2147483647), "2147483647"),
    (Integer, Lit::Int(2147483648), "S22003"),
    (Integer, Lit::Int(-2147483648), "-2147483648"),
    (Integer, Lit::Int(-2147483649), "S22003"),
    (Bigint, Lit::Int(2147483648), "2147483648"),
    (Integer, NULL, "null"),
    (Text, NULL, "null"),
    (Boolean, NULL, "null"),
    (Boolean, YES, "t"),
    (Boolean, NO, "f"),
    (Text, Lit::Str("abc"), "abc"),
    (Varchar(3), Lit::Str("abc"), "abc"),
    (Varchar(3), Lit::Str("abc  "), "abc"),
    (Varchar(3), Lit::Str("ab   "), "ab "),
    (Varchar(3), Lit::Str("abcd"), "S22001"),
    (Varchar(3), Lit::Str("abc d"), "S22001"),
    (Varchar(3), Lit::Str("abc\t"), "S22001"),
    (Varchar(0), Lit::Str("abcdefgh"), "abcdefgh"),
    (Varchar(3), Lit::Str("äöü"), "äöü"),
    (Varchar(3), Lit::Str("äöü  "), "äöü"),
    (Varchar(3), Lit::Str("äöüx"), "S22001"),
    (Varchar(1), Lit::Str(""), ""),
    (Varchar(1), Lit::Str("   "), " "),
    (Varchar(3), NULL, "null"),
    (Text, Lit::Str(""), ""),
];

/// A type, the text of so many pieces and an end, and how many bytes of it are stored, or the code.
pub type LongCase = (SqlType, &'static str, u32, &'static str, &'static str);

/// The bytes of a text.
pub const OF_BYTES: &[LongCase] = &[
    (Text, "a", 65_536, "", "65536"),
    (Text, "a", 65_537, "", "S54000"),
];

/// What is left without spaces.
pub const WITHOUT_SPACES: &[LongCase] = &[
    (Varchar(65_536), "a", 65_536, " ", "65536"),
    (Varchar(65_536), "é", 40_000, "", "S54000"),
    (Varchar(40_000), "é", 40_000, "  ", "S54000"),
    (Varchar(30_000), "é", 40_000, "", "S22001"),
];

/// `FLAG AND 1 / 0 = 1`, and the same with OR.
pub const GUARDED: &[(bool, Op, &str)] = &[(false, And, "S22012"), (true, Or, "S22012")];

/// Two operations of which each fails, compared.
pub const OF_FAULTS: &[(Operation, Operation, &str)] = &[
    // `1 / 0 = 2147483647 + 1`
    (
        (Div, Integer, Lit::Int(1), Lit::Int(0)),
        (Add, Integer, Lit::Int(2147483647), Lit::Int(1)),
        "S22012",
    ),
    // `2147483647 + 1 = 1 / 0`
    (
        (Add, Integer, Lit::Int(2147483647), Lit::Int(1)),
        (Div, Integer, Lit::Int(1), Lit::Int(0)),
        "S22003",
    ),
];

/// Numbers with a sign.
pub const SIGNED: &[OneCase] = &[
    (Form::Neg, Integer, Lit::Int(7), "-7"),
    (Form::Neg, Integer, Lit::Int(-2147483648), "S22003"),
    (Form::Neg, Bigint, Lit::Int(-2147483648), "2147483648"),
    (Form::Neg, Bigint, Lit::Int(i64::MIN), "S22003"),
    (Form::Neg, Integer, NULL, "null"),
];

/// NOT.
pub const DENIED: &[OneCase] = &[
    (Form::Not, Boolean, YES, "f"),
    (Form::Not, Boolean, NO, "t"),
    (Form::Not, Boolean, NULL, "null"),
];

/// IS NULL and IS NOT NULL.
pub const NULL_TESTS: &[OneCase] = &[
    (Form::IsNull(false), Text, NULL, "t"),
    (Form::IsNull(true), Text, NULL, "f"),
    (Form::IsNull(false), Text, Lit::Str(""), "f"),
    (Form::IsNull(true), Text, Lit::Str(""), "t"),
];

/// An integer, members, whether it is NOT IN, and what is given.
pub const AMONG: &[(Lit, &[Lit], bool, &str)] = &[
    (Lit::Int(1), &[Lit::Int(1), Lit::Int(2)], false, "t"),
    (Lit::Int(1), &[Lit::Int(2), Lit::Int(1)], false, "t"),
    (Lit::Int(1), &[Lit::Int(2), Lit::Int(3)], false, "f"),
    (Lit::Int(1), &[Lit::Int(2), NULL], false, "null"),
    (Lit::Int(1), &[NULL, Lit::Int(1)], false, "t"),
    (NULL, &[Lit::Int(1), NULL], false, "null"),
    (Lit::Int(1), &[Lit::Int(2), Lit::Int(1)], true, "f"),
    (Lit::Int(1), &[Lit::Int(2), Lit::Int(3)], true, "t"),
    (Lit::Int(1), &[NULL, Lit::Int(3)], true, "null"),
    (Lit::Int(1), &[NULL, Lit::Int(1)], true, "f"),
];

/// A column's type, the number of its entry and its number in it, and what is given.
pub const COLUMNS: &[(SqlType, u32, u32, &str)] = &[
    (Integer, 0, 0, "7"),
    (Bigint, 0, 0, "7"),
    (Text, 0, 1, "ab"),
    (Varchar(1), 0, 1, "ab"),
    (Boolean, 1, 1, "t"),
    (Bigint, 1, 0, "3000000000"),
    (Integer, 1, 0, "null"),
    (Integer, 0, 1, "null"),
    (Text, 0, 0, "null"),
    (Text, 0, 2, "null"),
    (Text, 0, 3, "null"),
    (Text, 2, 0, "null"),
];
