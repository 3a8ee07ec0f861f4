// SELECT: items and the columns of the result, aggregates, and ORDER BY, LIMIT and OFFSET.

/// Items, and SELECTs with aggregates.
pub(crate) const QUERIES: &str = r#"
# The name is the alias, else the column's, else the function's, else `?column?`.
SELECT 1 => ?column?:i <- 1:i
SELECT 1 AS one, 'a' b => one:i b:t <- 1:i 'a':t
SELECT v FROM t WHERE k = 1 => v:l <- 0.1:l from 0 reads (1) at 1 where =(0.0:l 1:i):b
SELECT v AS k, v + 1, t.v FROM t => k:l ?column?:l v:l <- 0.1:l +(0.1:l 1:i):l 0.1:l from 0 reads (1) at -
SELECT code FROM u => code:v3 <- 0.2:v3 from 1 reads (2) at -
# A literal or NULL as an item is text.
SELECT 'a', NULL, true => ?column?:t ?column?:t ?column?:b <- 'a':t null:t true:b
# `*` is all columns of all entries. The key is never among the columns that are read.
SELECT * FROM t => k:l v:l <- 0.0:l 0.1:l from 0 reads (1) at -
SELECT *, k AS again FROM t => k:l v:l again:l <- 0.0:l 0.1:l 0.0:l from 0 reads (1) at -
SELECT * FROM w, t => name:t n:i k:l v:l <- 0.0:t 0.1:i 1.0:l 1.1:l from 2 0 reads (1) (1) at - -
SELECT k FROM t => k:l <- 0.0:l from 0 reads () at -
SELECT * => S42601
SELECT 1, * => S42601
SELECT nosuch, * => S42703
# Aggregates and their types.
SELECT count(*), count(n), sum(n), min(n) FROM w => count:l count:l sum:l min:i <- count(*):l count(0.1:i):l sum(0.1:i):l min(0.1:i):i from 2 reads (1) at - grouped
SELECT sum(k), max(k) FROM t => sum:n max:l <- sum(0.0:l):n max(0.0:l):l from 0 reads () at - grouped
SELECT min(code), max(name) FROM u => min:t max:t <- min(0.2:v3):t max(0.1:t):t from 1 reads (1,2) at - grouped
SELECT count(ok) AS c FROM u => c:l <- count(0.3:b):l from 1 reads (3) at - grouped
SELECT max(ok) FROM u => S42883
SELECT min(true) => S42883
SELECT sum(name) FROM u => S42883
SELECT sum(true) => S42883
# Without FROM there is one combination, with no columns.
SELECT count(*), sum(2) => count:l sum:l <- count(*):l sum(2:i):l grouped
SELECT sum(2147483648) => sum:n <- sum(2147483648:l):n grouped
# A quoted literal or NULL in an aggregate is text. PostgreSQL answers 42725 where there is no sum of it.
SELECT min(NULL), max('a'), count(NULL) => min:t max:t count:l <- min(null:t):t max('a':t):t count(null:t):l grouped
SELECT sum(NULL) => S42883
SELECT sum('1') => S42883
# An aggregate may stand in an expression, but a numeric is an item or nothing. PostgreSQL calculates with it.
SELECT count(*) + 1 FROM t => ?column?:l <- +(count(*):l 1:i):l from 0 reads () at - grouped
SELECT sum(n + 1) * 2 FROM w => ?column?:l <- *(sum(+(0.1:i 1:i):i):l 2:i):l from 2 reads (1) at - grouped
SELECT sum(v) + 1 FROM t => S0A000
SELECT 1 + sum(v) FROM t => S0A000
SELECT sum(v) + 'x' FROM t => S0A000
SELECT sum(v) = 'x' FROM t => S0A000
SELECT -sum(v) FROM t => S0A000
SELECT sum(v) AND true FROM t => S0A000
SELECT NOT sum(v) FROM t => S0A000
SELECT 1 AND sum(v) FROM t => S42804
SELECT sum(v) IS NULL FROM t => S0A000
SELECT sum(v) IN (1) FROM t => S0A000
SELECT 1 IN (sum(v)) FROM t => S0A000
# Operands come before the node that is at fault.
SELECT sum(v) + nosuch FROM t => S42703
# Function names are folded. PostgreSQL has more functions; here they aren't supported.
SELECT COUNT(*) FROM t => count:l <- count(*):l from 0 reads () at - grouped
SELECT "COUNT"(*) FROM t => S0A000
SELECT upper(name) FROM u => S0A000
SELECT foo(*) => S0A000
SELECT foo(nosuch) => S42703
SELECT sum(*) FROM t => S42883
SELECT max(*) FROM t => S42883
# An aggregate inside another; its argument's names are looked up first.
SELECT sum(count(*)) FROM t => S42803
SELECT count(1 + max(k)) FROM t => S42803
SELECT sum(count(nosuch)) FROM t => S42703
SELECT count(foo(k)) FROM t => S0A000
# Beside an aggregate a column stands in one, and is refused at its place. PostgreSQL looks at it after all items.
SELECT v, count(*) FROM t => S42803
SELECT count(*), v + 1 FROM t => S42803
SELECT *, count(*) FROM t => S42803
SELECT *, count(*) => S42601
SELECT v, sum(nosuch) FROM t => S42803
SELECT v, sum(*) FROM t => S42803
SELECT nosuch, count(*) FROM t => S42703
SELECT q.v, count(*) FROM t => S42P01
SELECT 1, max(v) FROM t WHERE v > 2 => ?column?:i max:l <- 1:i max(0.1:l):l from 0 reads (1) at - where >(0.1:l 2:i):b grouped
"#;

/// ORDER BY, LIMIT and OFFSET.
pub(crate) const ORDERS: &str = r"
# A bare integer is a position, from 1. PostgreSQL answers 42P10 for one that isn't there, and 42601 for a bigint.
SELECT v FROM t ORDER BY 1 => v:l <- 0.1:l from 0 reads (1) at - by 0.1:l
SELECT * FROM t ORDER BY 2 DESC, 1 ASC => k:l v:l <- 0.0:l 0.1:l from 0 reads (1) at - by 0.1:l desc 0.0:l
SELECT v FROM t ORDER BY 0 => S42601
SELECT v FROM t ORDER BY 2 => S42601
SELECT v FROM t ORDER BY 9223372036854775807 => S42601
SELECT 1 ORDER BY 1 => ?column?:i <- 1:i by 1:i
# Other constants are expressions. PostgreSQL takes -1 for a position, and refuses a quoted literal and NULL with 42601.
SELECT v FROM t ORDER BY -1 => v:l <- 0.1:l from 0 reads (1) at - by neg(1:i):i
SELECT 1 ORDER BY 'x', NULL => ?column?:i <- 1:i by 'x':t null:t
# A bare name is the first output column of that name, also before a column of FROM. PostgreSQL answers 42702 where two output
# columns of that name differ.
SELECT 1 AS a ORDER BY a => a:i <- 1:i by 1:i
SELECT k AS v, v AS k FROM t ORDER BY v => v:l k:l <- 0.0:l 0.1:l from 0 reads (1) at - by 0.0:l
SELECT k AS x, v AS x FROM t ORDER BY x => x:l x:l <- 0.0:l 0.1:l from 0 reads (1) at - by 0.0:l
SELECT *, v AS k FROM t ORDER BY k => k:l v:l k:l <- 0.0:l 0.1:l 0.1:l from 0 reads (1) at - by 0.0:l
SELECT u.name FROM u, w ORDER BY name => name:t <- 0.1:t from 1 2 reads (1) () at - - by 0.1:t
# Everything else is an expression over the columns of FROM.
SELECT k AS v FROM t ORDER BY t.v => v:l <- 0.0:l from 0 reads (1) at - by 0.1:l
SELECT k AS v FROM t ORDER BY v + 1 => v:l <- 0.0:l from 0 reads (1) at - by +(0.1:l 1:i):l
SELECT k FROM t ORDER BY v, k DESC => k:l <- 0.0:l from 0 reads (1) at - by 0.1:l 0.0:l desc
SELECT k AS v FROM t ORDER BY x + 1 => S42703
SELECT 1 AS a ORDER BY a + 1 => S42703
SELECT v FROM t ORDER BY nosuch => S42703
SELECT v FROM t ORDER BY q.v => S42P01
SELECT id FROM u, w ORDER BY name => S42702
SELECT v FROM t ORDER BY true + 1, nosuch => S42883
# With an aggregate there is no ORDER BY. PostgreSQL allows it.
SELECT count(*) FROM t ORDER BY 1 => S0A000
SELECT count(*) FROM t ORDER BY nosuch => S0A000
SELECT v FROM t ORDER BY count(*) => S42803
SELECT 1 FROM t ORDER BY count(*) => S0A000
SELECT 1 FROM t ORDER BY v, 1 + sum(nosuch) => S0A000
# LIMIT and OFFSET.
SELECT 1 LIMIT 0 => ?column?:i <- 1:i limit 0
SELECT 1 OFFSET 2 => ?column?:i <- 1:i offset 2
SELECT k FROM t ORDER BY k LIMIT 3 OFFSET 4 => k:l <- 0.0:l from 0 reads () at - by 0.0:l limit 3 offset 4
SELECT count(*) FROM t LIMIT 1 => count:l <- count(*):l from 0 reads () at - limit 1 grouped
";
