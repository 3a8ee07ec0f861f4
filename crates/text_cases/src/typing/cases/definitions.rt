// CREATE TABLE, and the limits on columns, texts and depth.

/// CREATE TABLEs.
pub(crate) const DEFINITIONS: &str = r#"
CREATE TABLE t (k bigint PRIMARY KEY, v bigint) => t: k:l! v:l key 0
CREATE TABLE u (id integer PRIMARY KEY, name text NOT NULL, code varchar(3) DEFAULT 'ab', ok boolean DEFAULT true, CHECK (id > 0)) => u: id:i! name:t! code:v3='ab' ok:b=true key 0 check >(0.0:i 0:i):b
CREATE TABLE s (k varchar(3) PRIMARY KEY, b boolean DEFAULT true NOT NULL, CHECK (k <> 'no')) => s: k:v3! b:b!=true key 0 check <>(0.0:v3 'no':v3):b
# Types.
CREATE TABLE z (a varchar, b character varying(65536), c int8, d bool, k int4, PRIMARY KEY (k)) => z: a:v b:v65536 c:l d:b k:i! key 4
# Lengths from 1 to 65,536. PostgreSQL answers 22023 for 0, allows lengths up to 10,485,760, and answers 42601 above
# 2147483647.
CREATE TABLE z (a varchar(0), k int PRIMARY KEY) => S54000
CREATE TABLE z (a varchar(65537), k int PRIMARY KEY) => S54000
CREATE TABLE z (a varchar(4294967296), k int PRIMARY KEY) => S54000
# A column's name, then its length, then its default; columns from left to right, and all of them before the key.
CREATE TABLE z (k int PRIMARY KEY, k text) => S42701
CREATE TABLE z (a int, A varchar(0)) => S42701
CREATE TABLE z (a varchar(0), a int) => S54000
CREATE TABLE z (a int DEFAULT 'x', a int) => S22P02
CREATE TABLE z (a int, a int DEFAULT 'x') => S42701
CREATE TABLE z (a varchar(0) DEFAULT 1) => S54000
CREATE TABLE z (a int DEFAULT true) => S42804
CREATE TABLE z (a int, "A" int PRIMARY KEY) => z: a:i A:i! key 1
# Defaults are converted to the column's type. PostgreSQL takes 1 for a text, and 'true' for a boolean. It refuses an integer
# out of range and a text too long only when the default is used.
CREATE TABLE z (k int PRIMARY KEY, a int DEFAULT ' 12 ', b int DEFAULT -2147483648, c bigint DEFAULT -5, d text DEFAULT NULL) => z: k:i! a:i=12 b:i=-2147483648 c:l=-5 d:t key 0
CREATE TABLE z (k text DEFAULT 'x' PRIMARY KEY, a varchar(2) DEFAULT 'ab  ', b boolean DEFAULT false) => z: k:t!='x' a:v2='ab' b:b=false key 0
CREATE TABLE z (k int PRIMARY KEY, a int DEFAULT 2147483648) => S22003
CREATE TABLE z (k int PRIMARY KEY, a int DEFAULT -2147483649) => S22003
CREATE TABLE z (k int PRIMARY KEY, a int DEFAULT 'x') => S22P02
CREATE TABLE z (k int PRIMARY KEY, a text DEFAULT 1) => S42804
CREATE TABLE z (k int PRIMARY KEY, a boolean DEFAULT 1) => S42804
CREATE TABLE z (k int PRIMARY KEY, a boolean DEFAULT 'true') => S0A000
CREATE TABLE z (k int PRIMARY KEY, a varchar(2) DEFAULT 'abc') => S22001
# Of several defaults the last counts, and so of NULL and NOT NULL. PostgreSQL refuses several with 42601.
CREATE TABLE z (k int PRIMARY KEY, a int DEFAULT 'x' DEFAULT 3, b int NOT NULL NULL) => z: k:i! a:i=3 b:i key 0
CREATE TABLE z (k int PRIMARY KEY, a int DEFAULT 3 DEFAULT 'x') => S22P02
# One key. PostgreSQL allows none, and several columns of one key.
CREATE TABLE z (k bigint) => S0A000
CREATE TABLE z (k int PRIMARY KEY, a int PRIMARY KEY) => S0A000
CREATE TABLE z (k int, a int, PRIMARY KEY (k, a)) => S0A000
CREATE TABLE z (k int PRIMARY KEY, PRIMARY KEY (k)) => S0A000
CREATE TABLE z (k int, PRIMARY KEY (k, k)) => S0A000
CREATE TABLE z (k int, PRIMARY KEY (q, r)) => S0A000
CREATE TABLE z (k int, PRIMARY KEY (q)) => S42703
CREATE TABLE z (k boolean PRIMARY KEY) => S0A000
CREATE TABLE z (k boolean, PRIMARY KEY (k)) => S0A000
# A column that is marked twice counts once, and the key is never null. PostgreSQL refuses two marks with 42P16.
CREATE TABLE z (k int PRIMARY KEY CONSTRAINT c PRIMARY KEY NULL) => z: k:i! key 0
CREATE TABLE z (a int, k bigint NULL, CONSTRAINT c PRIMARY KEY (k)) => z: a:i k:l! key 1
# CHECKs in text order, as conditions over all columns, after the key.
CREATE TABLE z (k int PRIMARY KEY CHECK (k < b), b int CONSTRAINT c CHECK (z.b > 0), CHECK (NULL)) => z: k:i! b:i key 0 check <(0.0:i 0.1:i):b check >(0.1:i 0:i):b check null:b
CREATE TABLE z (a int, CHECK (1)) => S0A000
CREATE TABLE z (k int PRIMARY KEY, CHECK (1)) => S42804
CREATE TABLE z (k int PRIMARY KEY, CHECK ('x')) => S0A000
CREATE TABLE z (k int PRIMARY KEY, CHECK (q > 0)) => S42703
CREATE TABLE z (k int PRIMARY KEY, CHECK (t.k > 0)) => S42P01
CREATE TABLE z (k int PRIMARY KEY, CHECK (count(*) = 1)) => S42803
CREATE TABLE z (k int PRIMARY KEY, CHECK (k = 'x')) => S22P02
CREATE TABLE z (k int PRIMARY KEY, CHECK (k), CHECK (q)) => S42804
"#;

/// The first part of a text, a part that is repeated, how many times, the last part, and what the text comes to.
pub(crate) type Long = (&'static str, &'static str, u32, &'static str, &'static str);

/// Long texts. Where the code is that of a name after the part, the part is accepted.
pub(crate) const LONG: &[Long] = &[
    // 32 columns and no more, before their names.
    ("CREATE TABLE z (", "a int, ", 31, "a int)", "S42701"),
    ("CREATE TABLE z (", "a int, ", 32, "a int)", "S54000"),
    // 1,664 columns of a result: 13 times four entries of 32 columns. Each item is counted before it is typed.
    (
        "SELECT *",
        ", *",
        12,
        " FROM m a, m b, m c, m d ORDER BY nosuch",
        "S42703",
    ),
    ("SELECT *", ", *", 13, " FROM m a, m b, m c, m d", "S54000"),
    (
        "SELECT ",
        "*, ",
        13,
        "nosuch FROM m a, m b, m c, m d",
        "S54000",
    ),
    (
        "SELECT ",
        "*, ",
        12,
        "nosuch FROM m a, m b, m c, m d",
        "S42703",
    ),
    // A text that is stored has at most 65,536 bytes, when it has lost its blanks.
    (
        "INSERT INTO w VALUES ('",
        "a",
        65_536,
        "', nosuch)",
        "S42703",
    ),
    (
        "INSERT INTO w VALUES ('",
        "a",
        65_537,
        "', nosuch)",
        "S54000",
    ),
    (
        "INSERT INTO w VALUES ('",
        "é",
        32_769,
        "', nosuch)",
        "S54000",
    ),
    (
        "INSERT INTO s VALUES ('abc",
        " ",
        70_000,
        "', nosuch)",
        "S42703",
    ),
    (
        "CREATE TABLE z (k text DEFAULT '",
        "a",
        65_536,
        "')",
        "S0A000",
    ),
    (
        "CREATE TABLE z (k text DEFAULT '",
        "a",
        65_537,
        "')",
        "S54000",
    ),
    // One that isn't stored has no limit.
    ("SELECT '", "a", 70_000, "', nosuch", "S42703"),
    (
        "SELECT 1 FROM w WHERE name = '",
        "a",
        70_000,
        "' AND nosuch",
        "S42703",
    ),
    // Depth 64: a literal inside 63 pairs of parentheses, and not inside 64.
    (
        "SELECT ",
        "(",
        63,
        "1)))))))))))))))))))))))))))))))))))))))))))))))))))))))))))))))",
        "?column?:i <- 1:i",
    ),
    (
        "SELECT ",
        "(",
        64,
        "1))))))))))))))))))))))))))))))))))))))))))))))))))))))))))))))))",
        "S54000",
    ),
];
