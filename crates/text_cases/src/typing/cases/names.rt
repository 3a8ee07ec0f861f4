// FROM, JOIN, and which table and column a name stands for.

/// FROM, ON and names.
pub(crate) const NAMES: &str = r#"
# Entries from left to right: at most four, known tables, and no visible name twice. PostgreSQL has no such limit.
SELECT 1 FROM t a, t b, t c, t d => ?column?:i <- 1:i from 0 0 0 0 reads () () () () at - - - -
SELECT 1 FROM t a, t b, t c, t d, t e => S54000
SELECT 1 FROM nosuch, t a, t b, t c, t d => S54000
SELECT 1 FROM q => S42P01
SELECT 1 FROM "T" => S42P01
SELECT K FROM T => k:l <- 0.0:l from 0 reads () at -
SELECT 1 FROM t, t => S42712
SELECT 1 FROM t a, u a => S42712
SELECT 1 FROM t u, u => S42712
SELECT 1 FROM t, q, t => S42P01
SELECT 1 FROM t, t, q => S42712
SELECT 1 FROM t, t x => ?column?:i <- 1:i from 0 0 reads () () at - -
SELECT 1 FROM t u, u t => ?column?:i <- 1:i from 0 1 reads () () at - -
# Names of columns.
SELECT q FROM s => S42703
SELECT k => S42703
SELECT "K" FROM t => S42703
SELECT name FROM u, w => S42702
SELECT k FROM t a, t b => S42702
SELECT n FROM u, w => n:i <- 1.1:i from 1 2 reads () (1) at - -
# Names with a qualifier.
SELECT u.name FROM u, w => name:t <- 0.1:t from 1 2 reads (1) () at - -
SELECT w.name FROM u, w => name:t <- 1.0:t from 1 2 reads () () at - -
SELECT t.k => S42P01
SELECT q.k FROM t => S42P01
SELECT q.nosuch FROM t => S42P01
SELECT t.q FROM t => S42703
SELECT u.n FROM u, w => S42703
# An alias hides the table's name.
SELECT x.k FROM t x => k:l <- 0.0:l from 0 reads () at -
SELECT t.k FROM t x => S42P01
# Conditions of JOIN stand before WHERE. All entries of one table read the same columns.
SELECT a.k, b.v FROM t a JOIN t b ON a.k = b.k WHERE b.v = 5 => k:l v:l <- 0.0:l 1.1:l from 0 0 reads (1) (1) at - - where =(0.0:l 1.0:l):b =(1.1:l 5:i):b
SELECT 1 FROM t INNER JOIN w ON n = v CROSS JOIN u => ?column?:i <- 1:i from 0 2 1 reads (1) (1) () at - - - where =(1.1:i 0.1:l):b
# An ON sees the entries up to its own.
SELECT 1 FROM t a JOIN t b ON b.k = 1 CROSS JOIN w => ?column?:i <- 1:i from 0 0 2 reads () () () at - - - where =(1.0:l 1:i):b
SELECT 1 FROM t a JOIN w ON b.k = 1 JOIN t b ON true => S42P01
SELECT 1 FROM t JOIN w ON ok JOIN u ON true => S42703
SELECT 1 FROM t JOIN w ON k = 1 JOIN s ON b => ?column?:i <- 1:i from 0 2 3 reads () () (1) at - - - where =(0.0:l 1:i):b 2.1:b
SELECT 1 FROM t JOIN w ON k = 1 JOIN s ON k = 'a' => S42702
# ON is a condition.
SELECT 1 FROM t JOIN w ON NULL => ?column?:i <- 1:i from 0 2 reads () () at - - where null:b
SELECT 1 FROM t JOIN w ON 1 => S42804
SELECT 1 FROM t JOIN w ON 'x' => S0A000
SELECT 1 FROM t JOIN w ON count(*) = 1 => S42803
# FROM, then the ONs, then WHERE, then items, then ORDER BY.
SELECT nosuch FROM t JOIN w ON 1 WHERE foo(1) => S42804
SELECT nosuch FROM t JOIN q ON 1 => S42P01
SELECT nosuch FROM t WHERE 'x' ORDER BY q.q => S0A000
SELECT foo(1) FROM t ORDER BY q.q => S0A000
SELECT nosuch FROM q WHERE 1 => S42P01
SELECT 1 FROM t WHERE nosuch ORDER BY 5 => S42703
# Only statements over rows have types.
COMMIT => S0A000
SHOW monkey.history => S0A000
"#;
