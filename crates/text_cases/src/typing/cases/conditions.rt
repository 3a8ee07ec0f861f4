// Conditions, the connectives, IS NULL, BETWEEN and IN.

/// Conditions of WHERE, and items of type boolean.
pub(crate) const CONDITIONS: &str = r"
# WHERE is a boolean.
SELECT id FROM u WHERE ok => id:i <- 0.0:i from 1 reads (3) at - where 0.3:b
SELECT id FROM u WHERE NULL => id:i <- 0.0:i from 1 reads () at - where null:b
SELECT id FROM u WHERE 1 => S42804
SELECT id FROM u WHERE name => S42804
SELECT id FROM u WHERE 'true' => S0A000
SELECT id FROM u WHERE nosuch => S42703
# No aggregate in WHERE; its argument, its name and a star are looked at first.
SELECT v FROM t WHERE count(*) = 1 => S42803
SELECT v FROM t WHERE sum(true) = 1 => S42803
SELECT v FROM t WHERE count(nosuch) = 1 => S42703
SELECT v FROM t WHERE foo(v) = 1 => S0A000
SELECT v FROM t WHERE sum(*) = 1 => S42883
# AND, OR, NOT: both operands are typed, then the left one is judged, then the right one. PostgreSQL reads a quoted literal as a
# boolean, with 22P02 where it is none.
SELECT true OR NULL, NULL AND false => ?column?:b ?column?:b <- or(true:b null:b):b and(null:b false:b):b
SELECT NOT ok, NOT NULL FROM u => ?column?:b ?column?:b <- not(0.3:b):b not(null:b):b from 1 reads (3) at -
SELECT 1 AND nosuch => S42703
SELECT 1 AND 'x' => S42804
SELECT 'x' AND 1 => S0A000
SELECT true AND 1 => S42804
SELECT true OR 'x' => S0A000
SELECT NOT 1 => S42804
SELECT NOT 'x' => S0A000
SELECT NOT name FROM u => S42804
# IS NULL takes any type.
SELECT v IS NOT NULL, 'x' IS NULL, NULL IS NULL, true IS NULL FROM t => ?column?:b ?column?:b ?column?:b ?column?:b <- isnotnull(0.1:l):b isnull('x':t):b isnull(null:t):b isnull(true:b):b from 0 reads (1) at -
SELECT nosuch IS NULL FROM t => S42703
# BETWEEN is two comparisons.
SELECT 2 BETWEEN 1 AND '3' => ?column?:b <- and(>=(2:i 1:i):b <=(2:i 3:i):b):b
SELECT 2 NOT BETWEEN 1 AND 3 => ?column?:b <- not(and(>=(2:i 1:i):b <=(2:i 3:i):b):b):b
SELECT 2 BETWEEN true AND nosuch => S42883
# IN: a literal on the left takes the type of the first typed member, and each literal member that of the left.
SELECT v IN (1, '2', NULL) FROM t => ?column?:b <- in(0.1:l 1:i 2:l null:l):b from 0 reads (1) at -
SELECT 1 NOT IN (2) => ?column?:b <- notin(1:i 2:i):b
SELECT 'x' IN ('y', NULL) => ?column?:b <- in('x':t 'y':t null:t):b
SELECT '1' IN (NULL, n, 2147483648) FROM w => ?column?:b <- in(1:i null:i 0.1:i 2147483648:l):b from 2 reads (1) at -
SELECT NULL IN (ok, true) FROM u => ?column?:b <- in(null:b 0.3:b true:b):b from 1 reads (3) at -
SELECT code IN ('abcdef', name) FROM u => ?column?:b <- in(0.2:v3 'abcdef':v3 0.1:t):b from 1 reads (1,2) at -
SELECT k IN ('x', true) FROM t => S22P02
SELECT k IN (true, 'x') FROM t => S42883
SELECT '3000000000' IN (n, 1) FROM w => S22003
SELECT '3000000000' IN (k, 1) FROM t => ?column?:b <- in(3000000000:l 0.0:l 1:i):b from 0 reads () at -
SELECT 'x' IN (true) => S0A000
SELECT ok IN (true, 'x') FROM u => S0A000
SELECT k IN ('x', nosuch) FROM t => S42703
SELECT nosuch IN (q.k) FROM t => S42703
SELECT k IN (count(*)) FROM t => S42803
";
