// Sessions whose subject is the SQL of their texts.

const STATEMENTS: &str = r"
# arithmetic on both sides of its limits, and 63 and 64 pairs of parentheses
> StartupMessage user=a
+ started
> Query SELECT -7 / 2, -7 % 2
< RowDescription ?column? integer, ?column? integer
< DataRow -3|-1
< CommandComplete SELECT 1
< ReadyForQuery I
> Query SELECT 2147483647 + 1
< ErrorResponse ERROR 22003 value out of range
< ReadyForQuery I
> Query SELECT 2147483648 + 1
< RowDescription ?column? bigint
< DataRow 2147483649
< CommandComplete SELECT 1
< ReadyForQuery I
> Query SELECT 9223372036854775808
< ErrorResponse ERROR 22003 value out of range
< ReadyForQuery I
> Query SELECT (((((((((((((((((((((((((((((((((((((((((((((((((((((((((((((((1)))))))))))))))))))))))))))))))))))))))))))))))))))))))))))))))
< RowDescription ?column? integer
< DataRow 1
< CommandComplete SELECT 1
< ReadyForQuery I
> Query SELECT ((((((((((((((((((((((((((((((((((((((((((((((((((((((((((((((((1))))))))))))))))))))))))))))))))))))))))))))))))))))))))))))))))
< ErrorResponse ERROR 54000 program limit exceeded
< ReadyForQuery I
> Terminate
* close 1
= session 1: Terminated

# order, aggregates and a join
> StartupMessage user=a
+ started
> Query CREATE TABLE w (k bigint PRIMARY KEY, n integer)
* define 1 x77
< CommandComplete CREATE TABLE
< ReadyForQuery I
> Query INSERT INTO w VALUES (1, NULL), (2, 5), (3, NULL)
words 1 1 1
* look 1 1
* begin 1 rc
* read 1 p.0.1 0 1 1 false
* read 1 p.0.2 0 1 1 false
* read 1 p.0.3 0 1 1 false
* write 1 p.0.1 true
* write 1 f.0.1.1 null
* write 1 p.0.2 true
* write 1 f.0.2.1 5
* write 1 p.0.3 true
* write 1 f.0.3.1 null
* commit 1
< CommandComplete INSERT 0 3
< ReadyForQuery I
> Query SELECT k FROM w ORDER BY n
words 1 1 1 1 1 1
* look 1 1
* begin 1 rc
* scan 1 0 1 2 3
* read 1 p.0.1 1 2 1 true
* read 1 f.0.1.1 1 1 1 null
* read 1 p.0.2 1 1 1 true
* read 1 f.0.2.1 1 1 1 5
* read 1 p.0.3 1 1 1 true
* read 1 f.0.3.1 1 1 1 null
* commit 1
< RowDescription k bigint
< DataRow 2
< DataRow 1
< DataRow 3
< CommandComplete SELECT 3
< ReadyForQuery I
> Query SELECT k FROM w ORDER BY n DESC
words 1 1 1 1 1 1
* look 1 1
* begin 1 rc
* scan 1 0 1 2 3
* read 1 p.0.1 1 2 1 true
* read 1 f.0.1.1 1 1 1 null
* read 1 p.0.2 1 1 1 true
* read 1 f.0.2.1 1 1 1 5
* read 1 p.0.3 1 1 1 true
* read 1 f.0.3.1 1 1 1 null
* commit 1
< RowDescription k bigint
< DataRow 1
< DataRow 3
< DataRow 2
< CommandComplete SELECT 3
< ReadyForQuery I
> Query SELECT count(*), count(n), sum(n), min(n) FROM w
words 1 1 1 1 1 1
* look 1 1
* begin 1 rc
* scan 1 0 1 2 3
* read 1 p.0.1 1 2 1 true
* read 1 f.0.1.1 1 1 1 null
* read 1 p.0.2 1 1 1 true
* read 1 f.0.2.1 1 1 1 5
* read 1 p.0.3 1 1 1 true
* read 1 f.0.3.1 1 1 1 null
* commit 1
< RowDescription count bigint, count bigint, sum bigint, min integer
< DataRow 3|1|5|5
< CommandComplete SELECT 1
< ReadyForQuery I
> Query SELECT sum(k) FROM w
words 1 1 1
* look 1 1
* begin 1 rc
* scan 1 0 1 2 3
* read 1 p.0.1 1 2 1 true
* read 1 p.0.2 1 1 1 true
* read 1 p.0.3 1 1 1 true
* commit 1
< RowDescription sum numeric
< DataRow 6
< CommandComplete SELECT 1
< ReadyForQuery I
> Query SELECT a.k, b.n FROM w a JOIN w b ON a.k = b.k WHERE b.n = 5
words 1 1 1 1 1 1
* look 1 1
* begin 1 rc
* scan 1 0 1 2 3
* read 1 p.0.1 1 2 1 true
* read 1 f.0.1.1 1 1 1 null
* read 1 p.0.2 1 1 1 true
* read 1 f.0.2.1 1 1 1 5
* read 1 p.0.3 1 1 1 true
* read 1 f.0.3.1 1 1 1 null
* commit 1
< RowDescription k bigint, n integer
< DataRow 2|5
< CommandComplete SELECT 1
< ReadyForQuery I
> Query SELECT sum(n) FROM w WHERE k = 9
words 1
* look 1 1
* begin 1 rc
* read 1 p.0.9 0 1 1 false
* commit 1
< RowDescription sum bigint
< DataRow NULL
< CommandComplete SELECT 1
< ReadyForQuery I
> Terminate
* close 1
= session 1: Terminated

# definitions and conversions
> StartupMessage user=a
+ started
> Query CREATE TABLE s (k varchar(3) PRIMARY KEY, b boolean DEFAULT true NOT NULL, CHECK (k <> 'no'))
* define 1 x73
< CommandComplete CREATE TABLE
< ReadyForQuery I
> Query INSERT INTO s (k) VALUES ('abc  ')
words 0
* look 1 1
* begin 1 rc
* read 1 p.0.x616263 0 1 0 false
* write 1 p.0.x616263 true
* write 1 f.0.x616263.1 true
* commit 1
< CommandComplete INSERT 0 1
< ReadyForQuery I
> Query INSERT INTO s (k) VALUES ('abcd')
* look 1 1
< ErrorResponse ERROR 22001 value too long for type
< ReadyForQuery I
> Query INSERT INTO s (k) VALUES ('no')
* look 1 1
* begin 1 rc
* rollback 1
< ErrorResponse ERROR 23514 new row violates check constraint
< ReadyForQuery I
> Query INSERT INTO s (k) VALUES (NULL)
* look 1 1
* begin 1 rc
* rollback 1
< ErrorResponse ERROR 23502 null value violates not-null constraint
< ReadyForQuery I
> Query INSERT INTO s VALUES ('ab', 'true')
* look 1 1
< ErrorResponse ERROR 0A000 feature not supported
< ReadyForQuery I
> Query CREATE TABLE s (k bigint PRIMARY KEY)
* look 1 1
< ErrorResponse ERROR 42P07 relation already exists
< ReadyForQuery I
> Query CREATE TABLE z (k bigint)
< ErrorResponse ERROR 0A000 feature not supported
< ReadyForQuery I
> Query SELECT q FROM s
* look 1 1
< ErrorResponse ERROR 42703 column does not exist
< ReadyForQuery I
> Query SELECT 1 FROM q
* look 1 1
< ErrorResponse ERROR 42P01 relation does not exist
< ReadyForQuery I
> Query SELECT k + 1 FROM s
* look 1 1
< ErrorResponse ERROR 42883 operator or function does not exist
< ReadyForQuery I
> Terminate
* close 1
= session 1: Terminated

# texts outside of the subset
> StartupMessage user=a
+ started
+ table t
> Query SELECT DISTINCT v FROM t
< ErrorResponse ERROR 0A000 feature not supported
< ReadyForQuery I
> Query SAVEPOINT a
< ErrorResponse ERROR 0A000 feature not supported
< ReadyForQuery I
> Query SELECT 'a
< ErrorResponse ERROR 42601 syntax error
< ReadyForQuery I
> Query SELECT 1.5
< ErrorResponse ERROR 0A000 feature not supported
< ReadyForQuery I
> RepeatedQuery 257 SELECT 1;
< ErrorResponse ERROR 54000 program limit exceeded
< ReadyForQuery I
> Query \xff
< ErrorResponse ERROR 22021 invalid byte sequence for encoding UTF8
< ReadyForQuery I
> bytes Q\0\x10\0\x01
* close 1
< ErrorResponse FATAL 08P01 protocol violation
= session 1: Protocol(TooLong(1048577))

# a SELECT spelled in another way before its table is there, and three texts that aren't read
> StartupMessage user=a
+ started
> Query select V from T where K = (1) ; -- one
* look 1 0
< ErrorResponse ERROR 42P01 relation does not exist
< ReadyForQuery I
> Query SELECT 1; SELEC 2
< ErrorResponse ERROR 42601 syntax error
< ReadyForQuery I
> Query SELECT \xff
< ErrorResponse ERROR 22021 invalid byte sequence for encoding UTF8
< ReadyForQuery I
> Query SELECT 9223372036854775808
< ErrorResponse ERROR 22003 value out of range
< ReadyForQuery I
> Terminate
* close 1
= session 1: Terminated

# statements that have no types, and an update that finds no row
> StartupMessage user=a
+ started
> Query CREATE TABLE s (k varchar(3) PRIMARY KEY, b boolean DEFAULT true NOT NULL, CHECK (k <> 'no'))
* define 1 x73
< CommandComplete CREATE TABLE
< ReadyForQuery I
> Query INSERT INTO s VALUES ('ab', 'true')
* look 1 1
< ErrorResponse ERROR 0A000 feature not supported
< ReadyForQuery I
> Query CREATE TABLE s (k bigint PRIMARY KEY)
* look 1 1
< ErrorResponse ERROR 42P07 relation already exists
< ReadyForQuery I
> Query CREATE TABLE z (k bigint)
< ErrorResponse ERROR 0A000 feature not supported
< ReadyForQuery I
> Query SELECT q FROM s
* look 1 1
< ErrorResponse ERROR 42703 column does not exist
< ReadyForQuery I
> Query SELECT 1 FROM q
* look 1 1
< ErrorResponse ERROR 42P01 relation does not exist
< ReadyForQuery I
> Query SELECT k + 1 FROM s
* look 1 1
< ErrorResponse ERROR 42883 operator or function does not exist
< ReadyForQuery I
> Query INSERT INTO s VALUES ('abcd', true)
* look 1 1
< ErrorResponse ERROR 22001 value too long for type
< ReadyForQuery I
> Query SELECT 1 + true
< ErrorResponse ERROR 42883 operator or function does not exist
< ReadyForQuery I
> Query UPDATE s SET b = false
* look 1 1
* begin 1 rc
* scan 1 0
* commit 1
< CommandComplete UPDATE 0
< ReadyForQuery I
> Terminate
* close 1
= session 1: Terminated
";

/// Sessions whose subject is the SQL of their texts.
pub fn statement_sessions() -> &'static str {
    STATEMENTS
}
