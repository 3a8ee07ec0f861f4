// Literals, arithmetic and comparisons.

/// Items that are one expression each.
pub(crate) const OPERATORS: &str = r"
# An integer literal is an integer up to 2147483647. A sign is an operator: PostgreSQL makes it a part of the literal, so its
# -2147483648 is an integer, and it takes 9223372036854775808 for a numeric.
SELECT 2147483647, 2147483648 => ?column?:i ?column?:l <- 2147483647:i 2147483648:l
SELECT -2147483648 => ?column?:l <- neg(2147483648:l):l
SELECT 9223372036854775808 => S22003
# Arithmetic. Results out of range are found when the statement runs.
SELECT -7 / 2, -7 % 2 => ?column?:i ?column?:i <- /(neg(7:i):i 2:i):i %(neg(7:i):i 2:i):i
SELECT 2147483647 + 1 => ?column?:i <- +(2147483647:i 1:i):i
SELECT 2147483648 + 1 => ?column?:l <- +(2147483648:l 1:i):l
SELECT n - k FROM w, t => ?column?:l <- -(0.1:i 1.0:l):l from 2 0 reads (1) () at - -
SELECT -v FROM t => ?column?:l <- neg(0.1:l):l from 0 reads (1) at -
SELECT k + 1 FROM s => S42883
SELECT 1 + true => S42883
SELECT name * 2 FROM u => S42883
SELECT -true => S42883
SELECT -name FROM u => S42883
# A quoted literal or NULL takes the other operand's type.
SELECT 1 + '2' => ?column?:i <- +(1:i 2:i):i
SELECT '2' % 2147483648 => ?column?:l <- %(2:l 2147483648:l):l
SELECT NULL * 1 => ?column?:i <- *(null:i 1:i):i
SELECT 1 + 'x' => S22P02
SELECT 1 + '2147483648' => S22003
# Without a typed operand there is no operator. PostgreSQL answers 42725, an ambiguous operator. A lone `+` gives its operand;
# PostgreSQL makes it a double precision.
SELECT '1' + '2' => S42883
SELECT NULL - NULL => S42883
SELECT '1' / NULL => S42883
SELECT -'1' => S42883
SELECT -NULL => S42883
SELECT +'1' => ?column?:t <- '1':t
# No boolean is wanted in arithmetic, so the literal isn't read as one.
SELECT true + 'x' => S42883
SELECT 'x' + name FROM u => S42883
# Operands from left to right, before their node.
SELECT nosuch + q.k FROM t => S42703
SELECT (true + 1) + nosuch FROM t => S42883
SELECT true + nosuch FROM t => S42703
# Comparisons: numbers, texts, booleans.
SELECT k >= n FROM t, w => ?column?:b <- >=(0.0:l 1.1:i):b from 0 2 reads () (1) at - -
SELECT name <> code FROM u => ?column?:b <- <>(0.1:t 0.2:v3):b from 1 reads (1,2) at -
SELECT ok < true FROM u => ?column?:b <- <(0.3:b true:b):b from 1 reads (3) at -
SELECT k = name FROM t, w => S42883
SELECT ok = 1 FROM u => S42883
SELECT ok > name FROM u => S42883
# Two literals compare as text.
SELECT 'a' <= 'b' => ?column?:b <- <=('a':t 'b':t):b
SELECT NULL = NULL => ?column?:b <- =(null:t null:t):b
SELECT '1' = NULL => ?column?:b <- =('1':t null:t):b
SELECT v = NULL FROM t => ?column?:b <- =(0.1:l null:l):b from 0 reads (1) at -
# A literal beside a varchar isn't cut.
SELECT code = 'abcdef' FROM u => ?column?:b <- =(0.2:v3 'abcdef':v3):b from 1 reads (2) at -
# PostgreSQL reads 'true' and others as booleans; here no quoted literal is one.
SELECT true = 'x' => S0A000
SELECT 'true' = ok FROM u => S0A000
# The form of an integer in quotes: blanks, a sign, digits, blanks.
SELECT 1 = '' => S22P02
SELECT 1 = ' ' => S22P02
SELECT 1 = '+' => S22P02
SELECT 1 = '- 7' => S22P02
SELECT 1 = '1.0' => S22P02
SELECT 1 = '0x1' => S22P02
SELECT 1 = '2147483648' => S22003
SELECT 1 = '-2147483649' => S22003
SELECT 2147483648 = '9223372036854775808' => S22003
SELECT 2147483648 = '-9223372036854775808' => ?column?:b <- =(2147483648:l -9223372036854775808:l):b
SELECT 1 = '99999999999999999999999' => S22003
";
