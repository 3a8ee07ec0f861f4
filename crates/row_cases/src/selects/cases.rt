// The cases: texts of one SELECT each, with the rows or the code that stand for them, found by hand.
//
// A table is one text, which is checked much faster than a list of them. A line has a SELECT, ` => ` and what it comes to. A line that
// begins with `#` tells what those after it show.
//
// The rows are: t (1, 10), (2, null), (3, 0), (4, 10); u (1, 'ab', 5), (2, 'b', null), (4, 'a', 2); none in e.

/// Which rows are kept.
pub const FILTERS: &str = r"
SELECT * FROM t => 1,10;2,null;3,0;4,10
SELECT k FROM t WHERE v = 10 => 1;4
# Unknown isn't true, and NOT of it isn't either.
SELECT k FROM t WHERE v <> 10 => 3
SELECT k FROM t WHERE NOT v = 10 => 3
SELECT k FROM t WHERE v IS NULL => 2
SELECT k FROM t WHERE v IS NULL OR v = 0 => 2;3
SELECT k FROM t WHERE v = NULL => none
SELECT k FROM t WHERE v NOT IN (0, NULL) => none
SELECT k FROM t WHERE v IN (0, NULL) => 3
SELECT k + 1, v FROM t WHERE k > 2 => 4,0;5,10
SELECT v + 1, v IS NULL FROM t => 11,f;null,t;1,f;11,f
SELECT name, id FROM u WHERE name < 'b' => ab,1;a,4
SELECT k FROM e => none
# Without FROM there is one row.
SELECT 1, 'x' => 1,x
SELECT 1 + 2, NULL => 3,null
";

/// Which combinations there are, and in which order.
pub const JOINS: &str = r"
SELECT t.k, u.name FROM t JOIN u ON t.k = u.id => 1,ab;2,b;4,a
SELECT t.k, u.id FROM t JOIN u ON t.k >= u.id => 1,1;2,1;2,2;3,1;3,2;4,1;4,2;4,4
SELECT t.k, u.id FROM u JOIN t ON t.k >= u.id => 1,1;2,1;3,1;4,1;2,2;3,2;4,2;4,4
SELECT a.k, b.k FROM t a JOIN t b ON a.v = b.v WHERE a.k < b.k => 1,4
SELECT a.k, b.k FROM t a CROSS JOIN t b WHERE a.v = b.v => 1,1;1,4;3,3;4,1;4,4
SELECT a.k, b.id, c.k FROM t a JOIN u b ON a.k = b.id JOIN t c ON c.k = b.n OR c.k > 3 => 1,1,4;2,2,4;4,4,2;4,4,4
SELECT t.k FROM t JOIN e ON t.k = e.k => none
SELECT t.k FROM e CROSS JOIN t => none
";

/// One row for all.
pub const AGGREGATES: &str = r"
SELECT count(*), count(v), sum(v), min(v), max(v) FROM t => 4,3,20,0,10
SELECT count(*), count(k), sum(k), min(k), max(k) FROM e => 0,0,null,null,null
SELECT count(*), sum(v) FROM t WHERE k > 9 => 0,null
SELECT sum(v), count(v), count(*) FROM t WHERE v IS NULL => null,0,1
SELECT min(name), max(name), sum(n), count(n) FROM u => a,b,7,2
SELECT count(*) + 1, count(v) * 2 FROM t WHERE v = 10 => 3,4
SELECT max(v) - min(v), 7 FROM t => 10,7
SELECT count(*) FROM t a CROSS JOIN t b => 16
SELECT count(*) => 1
SELECT count(*) FROM t OFFSET 1 => none
SELECT count(*) FROM t LIMIT 0 => none
# 4 times 9223372036854775803, and 10: a sum of bigint is no bigint.
SELECT sum(9223372036854775803 + k) FROM t => 36893488147419103222
";

/// The order of the rows, and which of them are left.
pub const ORDERS: &str = r"
# Null stands last, and first where the order is descending; ties stay as they stood.
SELECT k FROM t ORDER BY v => 3;1;4;2
SELECT k FROM t ORDER BY v DESC => 2;1;4;3
SELECT k FROM t ORDER BY v, k DESC => 3;4;1;2
SELECT k FROM t ORDER BY v DESC, k DESC => 2;4;1;3
SELECT k FROM t ORDER BY 1 DESC => 4;3;2;1
SELECT name FROM u ORDER BY name => a;ab;b
SELECT name FROM u ORDER BY n DESC => b;ab;a
SELECT k FROM t ORDER BY v = 10 DESC, k DESC => 2;4;1;3
SELECT k FROM t ORDER BY v IS NULL, v => 3;1;4;2
SELECT k FROM t OFFSET 1 => 2;3;4
SELECT k FROM t LIMIT 2 => 1;2
SELECT k FROM t LIMIT 2 OFFSET 1 => 2;3
SELECT k FROM t LIMIT 3 OFFSET 3 => 4
SELECT k FROM t OFFSET 9 => none
SELECT k FROM t LIMIT 0 => none
SELECT k FROM t ORDER BY k DESC LIMIT 2 OFFSET 1 => 3;2
";

/// Which fault is told.
pub const FAULTS: &str = r"
SELECT k FROM t WHERE 10 / v = 1 => S22012
# What stands after a condition that isn't true is evaluated too.
SELECT k FROM t WHERE k = 1 AND 10 / v = 1 => S22012
SELECT a.k FROM t a JOIN u b ON a.k = b.id WHERE 1 / a.v = 1 => S22012
SELECT 10 / v FROM t => S22012
SELECT 10 / v FROM t WHERE v <> 0 => 1;1
# All rows that are kept are evaluated, also those that LIMIT leaves out.
SELECT 10 / v FROM t LIMIT 1 => S22012
# The third row's condition comes before the first row's item.
SELECT 9223372036854775807 + k FROM t WHERE 10 / v = 1 => S22012
SELECT 9223372036854775807 + k FROM t WHERE 10 / v = 1 OR v <> 0 => S22012
# A row's items come before its terms of ORDER BY, and these before the next row's items.
SELECT 9223372036854775807 + k FROM t ORDER BY 1 / (k - 1) => S22003
SELECT 10 / v FROM t ORDER BY 9223372036854775807 + k => S22003
SELECT sum(10 / v) FROM t => S22012
# The third row's condition comes before the first row's operand, and the fourth combination's before the first one's.
SELECT sum(9223372036854775807 + k) FROM t WHERE 10 / v = 1 => S22012
SELECT count(9223372036854775807 + a.k) FROM t a CROSS JOIN t b WHERE 1 / (b.k - 4) <> 9 => S22012
# Over rows that aren't kept nothing but the conditions is evaluated.
SELECT sum(9223372036854775807 + k) FROM t WHERE v <> 10 AND k > 9 => null
# The first row's operands come before the second row's.
SELECT sum(10 / (k - 2)), sum(9223372036854775807 + k) FROM t => S22003
SELECT sum(9223372036854775805 + k), sum(10 / (k - 2)) FROM t => S22012
SELECT count(*) / 0, sum(9223372036854775807 + k) FROM t => S22003
SELECT count(*) / count(k) FROM e => S22012
SELECT 1 / 0 => S22012
";
