// Expressions, from the weakest operator to the strongest, and what stands alone.

/// Each text with its statements, or its fault.
pub(crate) const EXPRESSIONS: &str = r#"
# OR
SELECT a or b or c => select ((a OR b) OR c);
SELECT a OR b AND c => select (a OR (b AND c));
SELECT (a OR b) AND c => select ((a OR b) AND c);
SELECT a OR => Syntax
SELECT OR a => Syntax
# AND
SELECT a AND b AND c => select ((a AND b) AND c);
SELECT a AND (b AND c) => select (a AND (b AND c));
SELECT not a and b => select ((NOT a) AND b);
SELECT a AND AND b => Syntax
# NOT
SELECT NOT a = b => select (NOT (a = b));
SELECT NOT NOT a => select (NOT (NOT a));
SELECT NOT a IS NULL => select (NOT (a IS NULL));
SELECT a = NOT b => Syntax
SELECT a NOT b => Syntax
# IS
SELECT a IS NULL => select (a IS NULL);
SELECT a IS NOT NULL IS NULL => select ((a IS NOT NULL) IS NULL);
SELECT a = b IS NULL => select ((a = b) IS NULL);
SELECT a IS TRUE => Syntax
SELECT a IS NOT b => Syntax
# comparisons
SELECT a = b => select (a = b);
SELECT a != b, a <> b => select (a <> b) (a <> b);
SELECT a < b OR a <= b + 1 => select ((a < b) OR (a <= (b + 1)));
SELECT a > b AND a >= b => select ((a > b) AND (a >= b));
SELECT (a = b) = c => select ((a = b) = c);
SELECT a = b = c => Syntax
SELECT a < b > c => Syntax
SELECT a == b => Syntax
# IN and BETWEEN
SELECT a IN (1, 2, 3) => select (a IN 1 2 3);
SELECT a NOT IN (b) => select (a NOT IN b);
SELECT a + 1 IN (b OR c) = d => select (((a + 1) IN (b OR c)) = d);
SELECT a BETWEEN 1 AND 2 => select ((a >= 1) AND (a <= 2));
SELECT a NOT BETWEEN 1 AND 2 => select (NOT ((a >= 1) AND (a <= 2)));
SELECT a BETWEEN 1 AND 2 AND b => select (((a >= 1) AND (a <= 2)) AND b);
SELECT a BETWEEN b + 1 AND c * 2 => select ((a >= (b + 1)) AND (a <= (c * 2)));
SELECT a IN () => Syntax
SELECT a IN 1 => Syntax
SELECT a IN (SELECT b FROM t) => Unsupported
SELECT a BETWEEN 1 => Syntax
SELECT a BETWEEN 1 AND 2 BETWEEN 3 AND 4 => Syntax
SELECT a LIKE 'b' => Unsupported
# sums
SELECT a - b - c => select ((a - b) - c);
SELECT a - (b - c) => select (a - (b - c));
SELECT a + b * c => select (a + (b * c));
SELECT a + => Syntax
# products
SELECT a * b + c % d => select ((a * b) + (c % d));
SELECT a / b * c => select ((a / b) * c);
SELECT a * (b + c) => select (a * (b + c));
SELECT a * / b => Syntax
SELECT a ^ b => Lex(BadCharacter(9))
# signs
SELECT - - a => select (-(-a));
SELECT +a, + + a, +-a => select a a (-a);
SELECT -a * b, a * -b, a - -b => select ((-a) * b) (a * (-b)) (a - (-b));
SELECT - => Syntax
# atoms
SELECT 1, 007, 9223372036854775807 => select 1 7 9223372036854775807;
SELECT '', 'it''s', 'a\b' => select '' 'it's' 'a\b';
SELECT TRUE = FALSE, null => select (TRUE = FALSE) NULL;
SELECT "true", "NULL" => select true NULL;
SELECT t.a, "T"."A", Tab.Col => select t.a T.A tab.col;
SELECT t . a => select t.a;
SELECT count(*), SUM(a + 1), "F" (b) => select count(*) sum((a + 1)) F(b);
SELECT (1), ((a)), (a + b) * c => select 1 a ((a + b) * c);
SELECT values, first, index => select values first index;
SELECT f() => Syntax
SELECT f(a, b) => Syntax
SELECT t.f(a) => Syntax
SELECT a.b.c => Syntax
SELECT t.* => Syntax
SELECT (a => Syntax
SELECT a) => Syntax
SELECT () => Syntax
SELECT 'a' 'b' => Syntax
SELECT asc => Syntax
SELECT $1 => Unsupported
SELECT a::int => Unsupported
SELECT a || b => Unsupported
SELECT CASE WHEN a THEN b END => Unsupported
SELECT CAST(a AS int) => Unsupported
SELECT EXISTS (SELECT 1) => Unsupported
"#;

/// Such texts that aren't plain lines.
pub(crate) const SPACED_EXPRESSIONS: &[(&str, &str)] = &[("SELECT --a\n1", "select 1;")];
