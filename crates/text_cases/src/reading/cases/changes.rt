// INSERT, UPDATE, DELETE and CREATE TABLE.

/// Each text with its statements, or its fault.
pub(crate) const CHANGES: &str = r#"
# INSERT, its rows and cells
INSERT INTO t VALUES (1, 'a', NULL) => insert t row 1 'a' NULL;
INSERT INTO t (k, v) VALUES (1, DEFAULT), (2, -3) => insert t k v row 1 default row 2 (-3);
insert into "T" values (a + 1) => insert T row (a + 1);
INSERT INTO t ("K") VALUES (DEFAULT) => insert t K row default;
INSERT INTO t VALUES (1), (2, 3), (4) => insert t row 1 row 2 3 row 4;
INSERT INTO t () VALUES (1) => Syntax
INSERT INTO t (k,) VALUES (1) => Syntax
INSERT INTO t VALUES () => Syntax
INSERT INTO t VALUES 1 => Syntax
INSERT INTO t VALUES (1), => Syntax
INSERT INTO t VALUES (DEFAULT + 1) => Syntax
INSERT t VALUES (1) => Syntax
INSERT INTO t AS x VALUES (1) => Syntax
INSERT INTO t DEFAULT VALUES => Syntax
INSERT INTO t SELECT 1 => Unsupported
INSERT INTO t VALUES (1) RETURNING k => Unsupported
INSERT INTO t VALUES (1) ON CONFLICT DO NOTHING => Unsupported
VALUES (1) => Unsupported
# UPDATE and its assignments
UPDATE t SET v = v + 1 WHERE k = 1 => update t set v = (v + 1) where (k = 1);
UPDATE t SET a = 1, b = DEFAULT => update t set a = 1 set b = default;
update "T" set "A" = NOT a => update T set A = (NOT a);
UPDATE t SET a = b = c => update t set a = (b = c);
UPDATE t SET t.a = 1 => Syntax
UPDATE t SET (a) = (1) => Syntax
UPDATE t SET a => Syntax
UPDATE t x SET a = 1 => Syntax
UPDATE t SET a = 1, => Syntax
UPDATE t WHERE a => Syntax
UPDATE t SET a = 1 FROM u => Syntax
# DELETE
DELETE FROM t => delete t;
DELETE FROM t WHERE NOT a => delete t where (NOT a);
delete from "From" where a.b => delete From where a.b;
DELETE t => Syntax
DELETE FROM t x => Syntax
DELETE FROM t USING u => Unsupported
TRUNCATE t => Unsupported
# CREATE TABLE: its elements
CREATE TABLE t (k int PRIMARY KEY, v bigint) => create t column k integer key column v bigint;
CREATE TABLE t (a int, PRIMARY KEY (a), CONSTRAINT c CHECK (a > 0)) => create t column a integer key a check (a > 0);
CREATE TABLE t (a int CHECK (a > 0), CHECK (a < b), b int CONSTRAINT c CHECK (b = 1), CONSTRAINT d PRIMARY KEY (a, b)) => create t column a integer column b integer key a key b check (a > 0) check (a < b) check (b = 1);
CREATE TABLE t (PRIMARY KEY (a)) => create t key a;
create table "T" ("A" int) => create T column A integer;
CREATE TABLE t () => Syntax
CREATE TABLE t => Syntax
CREATE TABLE t (a int,) => Syntax
CREATE TABLE t (a) => Syntax
CREATE TABLE t (PRIMARY KEY a) => Syntax
CREATE TABLE t (CHECK a > 0) => Syntax
CREATE TABLE t (primary int) => Syntax
CREATE TABLE t (CONSTRAINT c a int) => Syntax
CREATE TABLE IF NOT EXISTS t (a int) => Unsupported
CREATE TEMP TABLE t (a int) => Unsupported
CREATE INDEX i ON t (a) => Unsupported
CREATE TABLE t (a int, UNIQUE (a)) => Unsupported
CREATE TABLE t (a int REFERENCES u) => Unsupported
CREATE TABLE t (select int) => Unsupported
DROP TABLE t => Unsupported
ALTER TABLE t ADD a int => Unsupported
# types
CREATE TABLE t (a BOOL, b BOOLEAN, c INTEGER, d INT4, e INT8, f TEXT) => create t column a boolean column b boolean column c integer column d integer column e bigint column f text;
CREATE TABLE t (a varchar, b varchar(5), c character varying(65536), d varchar(0), e varchar(65537)) => create t column a varchar 0 column b varchar 5 column c varchar 65536 column d varchar 4294967295 column e varchar 4294967295;
CREATE TABLE t (a character varying) => create t column a varchar 0;
CREATE TABLE t (a varchar()) => Syntax
CREATE TABLE t (a varchar(-1)) => Syntax
CREATE TABLE t (a character varying(1, 2)) => Syntax
CREATE TABLE t (a "int") => Unsupported
CREATE TABLE t (a int(5)) => Unsupported
CREATE TABLE t (a text(3), b numeric(10, 2)) => Unsupported
CREATE TABLE t (a varchar(1, 2)) => Unsupported
CREATE TABLE t (a double) => Unsupported
CREATE TABLE t (a character(3)) => Unsupported
CREATE TABLE t (a uuid DEFAULT 1 PRIMARY KEY) => Unsupported
CREATE TABLE t (a int[]) => Lex(BadCharacter(21))
# constraints and constants
CREATE TABLE t (a int NOT NULL NULL, b int NULL NOT NULL) => create t column a integer column b integer not null;
CREATE TABLE t (a int DEFAULT 1 DEFAULT -2, b text DEFAULT 'x', c bool DEFAULT TRUE NOT NULL) => create t column a integer default (-2) column b text default 'x' column c boolean not null default TRUE;
CREATE TABLE t (a int DEFAULT NULL NULL) => create t column a integer default NULL;
CREATE TABLE t (a bool CONSTRAINT n NOT NULL CONSTRAINT d DEFAULT FALSE PRIMARY KEY) => create t column a boolean not null default FALSE key;
CREATE TABLE t (a int DEFAULT 1 + 2) => Syntax
CREATE TABLE t (a int DEFAULT +1) => Syntax
CREATE TABLE t (a int DEFAULT (1)) => Syntax
CREATE TABLE t (a int DEFAULT b) => Syntax
CREATE TABLE t (a int NOT) => Syntax
CREATE TABLE t (a int CHECK a) => Syntax
CREATE TABLE t (a int PRIMARY) => Syntax
CREATE TABLE t (a int CONSTRAINT PRIMARY KEY) => Syntax
"#;
