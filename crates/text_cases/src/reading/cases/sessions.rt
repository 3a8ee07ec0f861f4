// Transactions and settings.

/// Each text with its statements, or its fault.
pub(crate) const SESSIONS: &str = r#"
# BEGIN, START and their modes
BEGIN => begin;
BEGIN WORK => begin;
begin transaction => begin;
begin transaction isolation level serializable, read only => begin;
BEGIN READ WRITE READ ONLY => begin;
START TRANSACTION => start;
START TRANSACTION READ WRITE NOT DEFERRABLE => start;
START TRANSACTION ISOLATION LEVEL READ COMMITTED DEFERRABLE => start;
START TRANSACTION ISOLATION LEVEL READ UNCOMMITTED => start;
START => Syntax
START WORK => Syntax
BEGIN WORK TRANSACTION => Syntax
BEGIN ISOLATION LEVEL => Syntax
BEGIN ISOLATION LEVEL SNAPSHOT => Syntax
BEGIN ,READ ONLY => Syntax
BEGIN READ ONLY, => Syntax
BEGIN NOT READ ONLY => Syntax
# COMMIT and ROLLBACK
COMMIT => commit;
END TRANSACTION => commit;
COMMIT WORK; END => commit;commit;
COMMIT AND CHAIN => Syntax
COMMIT 1 => Syntax
END WORK WORK => Syntax
ROLLBACK => rollback;
ABORT WORK => rollback;
ROLLBACK TRANSACTION; ABORT => rollback;rollback;
ROLLBACK TO a => Syntax
ROLLBACK TO SAVEPOINT a => Unsupported
SAVEPOINT a => Unsupported
RELEASE a => Unsupported
# SET
SET TRANSACTION ISOLATION LEVEL REPEATABLE READ => modes;
SET SESSION CHARACTERISTICS AS TRANSACTION READ ONLY => modes;
SET TRANSACTION READ ONLY, NOT DEFERRABLE => modes;
SET TRANSACTION = 1 => Syntax
SET TRANSACTION => Syntax
SET SESSION CHARACTERISTICS AS TRANSACTION => Syntax
SET a = 1 => set a = 1;
SET SESSION a.b TO 'x', -5, y, TRUE, FALSE, ON, DEFAULT => set a.b = x -5 y true false on default;
SET LOCAL transaction = Abc => set transaction = abc;
SET SESSION characteristics = 1 => set characteristics = 1;
SET SESSION characteristics.x TO 007 => set characteristics.x = 7;
SET "session" = 1 => set session = 1;
SET a TO "On", 'On', On => set a = On On on;
SET DateStyle TO ISO, MDY => set datestyle = iso mdy;
SET SESSION = 1 => Syntax
SET LOCAL TO 1 => Syntax
SET a 1 => Syntax
SET a = => Syntax
SET a = +1 => Syntax
SET a = NULL => Syntax
SET a = 1 2 => Syntax
SET a.b.c = 1 => Syntax
RESET a => Unsupported
# SHOW
SHOW a => show a;
SHOW monkey.history => show monkey.history;
SHOW "a.b" => show a.b;
show "A".b => show A.b;
SHOW a.b.c => Syntax
SHOW 'a' => Syntax
SHOW => Syntax
SHOW ALL => Unsupported
# other statements of PostgreSQL
EXPLAIN SELECT 1 => Unsupported
PREPARE p AS SELECT 1 => Unsupported
LOCK TABLE t => Unsupported
WITH x AS (SELECT 1) SELECT 1 => Unsupported
TABLE t => Unsupported
COPY t FROM stdin => Unsupported
GRANT a TO b => Unsupported
"#;
