// Faults: those of the lexer, which come before all others, those of the tokens, and long texts; and the words with a rule
// of their own.

/// Each text with its fault, or its statements where it is just not at fault.
pub(crate) const FAULTS: &str = r#"
SELECT 'a => Lex(UnclosedString(7))
' => Lex(UnclosedString(0))
SELECT 'a'' => Lex(UnclosedString(7))
/* => Lex(UnclosedComment(0))
SELECT 1 /* a /* b */ => Lex(UnclosedComment(9))
SELECT 1 /*/ => Lex(UnclosedComment(9))
SELECT /* a /* b */ c */ 1 => select 1;
SELECT "a => Lex(UnclosedName(7))
" => Lex(UnclosedName(0))
SELECT "a"" => Lex(UnclosedName(7))
SELECT "" => Lex(EmptyName(7))
"" => Lex(EmptyName(0))
SELECT a."" => Lex(EmptyName(9))
SELECT a & b => Lex(BadCharacter(9))
SELECT ! => Lex(BadCharacter(7))
SELECT $ => Lex(BadCharacter(7))
SELECT a : b => Lex(BadCharacter(9))
SELECT 1a => Lex(Junk(7))
SELECT 12_3 => Lex(Junk(7))
SELECT 1é => Lex(Junk(7))
SELECT 1e+5 => Lex(Junk(7))
SELECT 99999999999999999999a => Lex(Junk(7))
SELECT 9223372036854775808 => Lex(TooWide(7))
SELECT 99999999999999999999.5 => Lex(TooWide(7))
SHOW 18446744073709551616 => Lex(TooWide(5))
SELECT aaaaaaaaaaaaaaaaaaaaaaaaaaaaaaaaaaaaaaaaaaaaaaaaaaaaaaaaaaaaaaab => Lex(NameTooLong(7))
SELECT "aaaaaaaaaaaaaaaaaaaaaaaaaaaaaaaaaaaaaaaaaaaaaaaaaaaaaaaaaaaaaaab" => Lex(NameTooLong(7))
éééééééééééééééééééééééééééééééé => Lex(NameTooLong(0))
SELECT 1.5 => Lex(Unsupported(7))
SELECT 1. => Lex(Unsupported(7))
SELECT 1e5 => Lex(Unsupported(7))
SELECT a .5 => Lex(Unsupported(9))
SELECT e'a' => Lex(Unsupported(7))
SELECT 1, X'1F' => Lex(Unsupported(10))
SELECT DISTINCT 'a => Lex(UnclosedString(16))
SELECT ; FOO 1.5 => Lex(Unsupported(13))
SELECT 'a'.5 => Lex(Unsupported(10))
SELECT a.5 => Syntax
SELECT "a".5 => Syntax
SELECT (a).5 => Syntax
SELECT ae'x' => Syntax
SELECT "aaaaaaaaaaaaaaaaaaaaaaaaaaaaaaaaaaaaaaaaaaaaaaaaaaaaaaaaaaaaaa""" => select aaaaaaaaaaaaaaaaaaaaaaaaaaaaaaaaaaaaaaaaaaaaaaaaaaaaaaaaaaaaaa";
SELECT "aaaaaaaaaaaaaaaaaaaaaaaaaaaaaaaaaaaaaaaaaaaaaaaaaaaaaaaaaaaaaaaaaaaaaa => Lex(UnclosedName(7))
SELECT 1 /* -- */ => select 1;
SELECT $123456 => Unsupported
SELECT $1abc => Unsupported
# unsupported words and signs, which count only unquoted, and only where the limited grammar doesn't read them
SELECT DISTINCT FROM => Unsupported
SELECT "distinct" FROM => Syntax
SELECT 'union' FROM => Syntax
FOO $1 => Unsupported
FOO :: BAR => Unsupported
FOO || BAR => Unsupported
FOO; VACUUM => Unsupported
FOO; SELECT 1 => Syntax
FOO SELECT => Unsupported
FOO VALUES => Syntax
CREATE ; TABLE t => Unsupported
CREATE TABLE TABLE => Unsupported
FOO ON CONFLICT => Unsupported
FOO ON; CONFLICT => Syntax
FOO CONFLICT => Syntax
SELECT 1; SELEC 2 => Syntax
"#;

/// Long texts on both sides of each limit: how a text begins, what opens so many times, what stands inside, what closes as
/// often, and the fault, or `read` where there is none.
pub(crate) const LONG: &[(&str, &str, u32, &str, &str, &str)] = &[
    // 256 statements
    ("", "COMMIT;", 256, ";;", "", "read"),
    ("", "COMMIT;", 257, "", "", "TooMany"),
    ("", "SELECT 1;", 257, "", "", "TooMany"),
    ("", "FOO;", 257, "", "", "TooMany"),
    ("", "FOO;", 256, "", "", "Syntax"),
    // 1,000 rows
    ("INSERT INTO t VALUES (1)", ", (1)", 999, "", "", "read"),
    ("INSERT INTO t VALUES (1)", ", (1)", 1000, "", "", "TooMany"),
    ("INSERT ", ",", 999, "", "", "Syntax"),
    ("INSERT ", ",", 1000, "", "", "TooMany"),
    ("INSERT INTO t VALUES (1", ", 1", 1000, ")", "", "read"),
    ("SELECT 1", ", 1", 1000, "", "", "read"),
    ("UPDATE ", ",", 1000, "", "", "Syntax"),
    // depth 64
    ("SELECT ", "1 + ", 63, "1", "", "read"),
    ("SELECT ", "1 + ", 64, "1", "", "TooDeep"),
    ("SELECT ", "NOT ", 63, "a", "", "read"),
    ("SELECT ", "NOT ", 64, "a", "", "TooDeep"),
    ("SELECT ", "- ", 63, "1", "", "read"),
    ("SELECT ", "- ", 64, "1", "", "TooDeep"),
    ("SELECT ", "+ ", 64, "1", "", "TooDeep"),
    ("SELECT ", "(", 63, "1", ")", "read"),
    ("SELECT ", "(", 64, "1", ")", "TooDeep"),
    ("SELECT ", "f(", 63, "1", ")", "read"),
    ("SELECT ", "f(", 64, "1", ")", "TooDeep"),
    ("SELECT ", "a IN (", 63, "1", ")", "read"),
    ("SELECT ", "a IN (", 64, "1", ")", "TooDeep"),
    ("SELECT ", "a BETWEEN 1 AND (", 3, "2", ")", "read"),
    ("SELECT ", "a BETWEEN 1 AND (", 4, "2", ")", "TooDeep"),
    (
        "CREATE TABLE t (a uuid CHECK (",
        "NOT ",
        64,
        "a))",
        "",
        "Unsupported",
    ),
    (
        "CREATE TABLE t (a int CHECK (",
        "NOT ",
        64,
        "a))",
        "",
        "TooDeep",
    ),
    // level 66
    ("SELECT ", "(", 66, "1", ")", "TooDeep"),
    ("SELECT ", "(", 66, "1", "", "Syntax"),
    ("SELECT ", "(", 67, "1", "", "TooDeep"),
    ("SELECT ", "(", 66, "::", "", "Unsupported"),
    ("SELECT DISTINCT ", "(", 67, "1", "", "TooDeep"),
    // long texts at once
    ("", "(", 100_000, "", "", "TooDeep"),
    ("", "- ", 100_000, "", "", "Syntax"),
    ("SELECT ", "- ", 100_000, "1", "", "TooDeep"),
    ("SELECT ", "NOT ", 100_000, "a", "", "TooDeep"),
    ("SELECT ", "-", 100_000, "1", "", "Syntax"),
    ("", "/*", 100_000, "", "", "Lex(UnclosedComment(0))"),
    ("SELECT ", "a", 100_000, "", "", "Lex(NameTooLong(7))"),
];

/// The reserved words: names only in double quotes.
pub(crate) const RESERVED: &[&str] = &[
    "all",
    "and",
    "any",
    "array",
    "as",
    "asc",
    "between",
    "case",
    "cast",
    "check",
    "collate",
    "constraint",
    "create",
    "cross",
    "default",
    "desc",
    "distinct",
    "else",
    "end",
    "except",
    "exists",
    "false",
    "fetch",
    "for",
    "foreign",
    "from",
    "full",
    "group",
    "having",
    "ilike",
    "in",
    "inner",
    "intersect",
    "into",
    "is",
    "join",
    "left",
    "like",
    "limit",
    "natural",
    "not",
    "null",
    "offset",
    "on",
    "or",
    "order",
    "primary",
    "references",
    "returning",
    "right",
    "select",
    "similar",
    "some",
    "table",
    "then",
    "to",
    "true",
    "union",
    "unique",
    "using",
    "when",
    "where",
    "window",
    "with",
];

/// The words that make a text one that isn't supported.
pub(crate) const UNSUPPORTED: &[&str] = &[
    "all",
    "alter",
    "analyze",
    "any",
    "array",
    "call",
    "case",
    "cast",
    "collate",
    "copy",
    "deallocate",
    "declare",
    "discard",
    "distinct",
    "do",
    "double",
    "drop",
    "except",
    "execute",
    "exists",
    "explain",
    "fetch",
    "for",
    "foreign",
    "full",
    "generated",
    "grant",
    "group",
    "having",
    "if",
    "ilike",
    "index",
    "intersect",
    "left",
    "like",
    "listen",
    "lock",
    "merge",
    "natural",
    "notify",
    "nulls",
    "over",
    "prepare",
    "references",
    "release",
    "reset",
    "returning",
    "revoke",
    "right",
    "savepoint",
    "schema",
    "sequence",
    "similar",
    "some",
    "temp",
    "temporary",
    "truncate",
    "union",
    "unique",
    "using",
    "vacuum",
    "view",
    "window",
    "with",
    "without",
];

/// Such texts that aren't plain lines.
pub(crate) const SPACED_FAULTS: &[(&str, &str)] = &[
    ("SELECT \0", "Lex(BadCharacter(7))"),
    ("SELECT 1 -- /*\n", "select 1;"),
];
