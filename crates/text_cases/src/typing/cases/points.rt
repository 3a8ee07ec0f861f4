// At which key a statement reads its table, where it doesn't scan it.

/// WHERE, and the point that comes of it.
pub(crate) const POINTS: &str = r"
# The first of the conjuncts `key = constant` and `constant = key`, also inside parentheses.
SELECT 1 FROM t WHERE 2 = k => ?column?:i <- 1:i from 0 reads () at 2 where =(2:i 0.0:l):b
SELECT 1 FROM t WHERE (k = 1 AND v = 2) AND true => ?column?:i <- 1:i from 0 reads (1) at 1 where and(and(=(0.0:l 1:i):b =(0.1:l 2:i):b):b true:b):b
SELECT 1 FROM t WHERE k = 1 AND k = 2 => ?column?:i <- 1:i from 0 reads () at 1 where and(=(0.0:l 1:i):b =(0.0:l 2:i):b):b
SELECT 1 FROM t WHERE true AND (k > 0 AND k = 2) => ?column?:i <- 1:i from 0 reads () at 2 where and(true:b and(>(0.0:l 0:i):b =(0.0:l 2:i):b):b):b
# Constants are integers, also after one minus sign, and quoted literals.
SELECT 1 FROM t WHERE k = -1 => ?column?:i <- 1:i from 0 reads () at -1 where =(0.0:l neg(1:i):i):b
SELECT 1 FROM t WHERE k = '007' => ?column?:i <- 1:i from 0 reads () at 7 where =(0.0:l 7:l):b
SELECT 1 FROM t WHERE ' -7 ' = k => ?column?:i <- 1:i from 0 reads () at -7 where =(-7:l 0.0:l):b
SELECT 1 FROM w WHERE name = 'ab  ' => ?column?:i <- 1:i from 2 reads () at 'ab  ' where =(0.0:t 'ab  ':t):b
SELECT 1 FROM s WHERE k = 'abcdef' => ?column?:i <- 1:i from 3 reads () at 'abcdef' where =(0.0:v3 'abcdef':v3):b
# An integer may lie outside the key's type.
SELECT 1 FROM u WHERE id = 3000000000 => ?column?:i <- 1:i from 1 reads () at 3000000000 where =(0.0:i 3000000000:l):b
SELECT 1 FROM u WHERE id = '3000000000' => S22003
SELECT 1 FROM t WHERE k = 'x' => S22P02
SELECT 1 FROM t WHERE k = -'7' => S42883
# No constants: two signs, NULL, a sum, a column.
SELECT 1 FROM t WHERE k = - -1 => ?column?:i <- 1:i from 0 reads () at - where =(0.0:l neg(neg(1:i):i):i):b
SELECT 1 FROM t WHERE k = NULL => ?column?:i <- 1:i from 0 reads () at - where =(0.0:l null:l):b
SELECT 1 FROM t WHERE k = 1 + 0 => ?column?:i <- 1:i from 0 reads () at - where =(0.0:l +(1:i 0:i):i):b
SELECT 1 FROM t WHERE k = v AND k = k => ?column?:i <- 1:i from 0 reads (1) at - where and(=(0.0:l 0.1:l):b =(0.0:l 0.0:l):b):b
# No such conjunct: another column, another operator, or below OR and NOT.
SELECT 1 FROM t WHERE v = 1 => ?column?:i <- 1:i from 0 reads (1) at - where =(0.1:l 1:i):b
SELECT 1 FROM t WHERE k >= 1 => ?column?:i <- 1:i from 0 reads () at - where >=(0.0:l 1:i):b
SELECT 1 FROM t WHERE k = 1 OR k = 1 => ?column?:i <- 1:i from 0 reads () at - where or(=(0.0:l 1:i):b =(0.0:l 1:i):b):b
SELECT 1 FROM t WHERE NOT k = 1 => ?column?:i <- 1:i from 0 reads () at - where not(=(0.0:l 1:i):b):b
SELECT 1 FROM t WHERE k IN (1) => ?column?:i <- 1:i from 0 reads () at - where in(0.0:l 1:i):b
SELECT 1 FROM t WHERE k BETWEEN 1 AND 1 => ?column?:i <- 1:i from 0 reads () at - where and(>=(0.0:l 1:i):b <=(0.0:l 1:i):b):b
# Each table has its own point, but none that stands twice in FROM. An ON gives none.
SELECT 1 FROM t, w WHERE name = 'a' AND k = 1 => ?column?:i <- 1:i from 0 2 reads () () at 1 'a' where and(=(1.0:t 'a':t):b =(0.0:l 1:i):b):b
SELECT 1 FROM t, w WHERE k = 1 => ?column?:i <- 1:i from 0 2 reads () () at 1 - where =(0.0:l 1:i):b
SELECT 1 FROM t a, w, t b WHERE a.k = 1 AND name = '' => ?column?:i <- 1:i from 0 2 0 reads () () () at - '' - where and(=(0.0:l 1:i):b =(1.0:t '':t):b):b
SELECT 1 FROM t JOIN w ON k = 1 => ?column?:i <- 1:i from 0 2 reads () () at - - where =(0.0:l 1:i):b
# With an aggregate too.
SELECT sum(n) FROM w WHERE name = 'a' => sum:l <- sum(0.1:i):l from 2 reads (1) at 'a' where =(0.0:t 'a':t):b grouped
";
