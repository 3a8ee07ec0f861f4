// INSERT: names, numbers of values, and the conversion of each value.

/// INSERTs.
pub(crate) const INSERTS: &str = r"
# Without a list, values go to the first columns, and the others take their defaults.
INSERT INTO t VALUES (1, 10) => into 0 row 1:l 10:l
INSERT INTO t VALUES (1, 10), (2, 20) => into 0 row 1:l 10:l row 2:l 20:l
INSERT INTO t VALUES (1) => into 0 row 1:l null:l
INSERT INTO u VALUES (1, 'n') => into 1 row 1:i 'n':t 'ab':v3 true:b
# With a list they go to its columns.
INSERT INTO t (v, k) VALUES (10, 1) => into 0 row 1:l 10:l
INSERT INTO t (v) VALUES (10) => into 0 row null:l 10:l
INSERT INTO u (ok, id) VALUES (false, 1), (NULL, 2) => into 1 row 1:i null:t 'ab':v3 false:b row 2:i null:t 'ab':v3 null:b
# DEFAULT is the column's default, also the key's.
INSERT INTO w VALUES ('a', DEFAULT) => into 2 row 'a':t 7:i
INSERT INTO p VALUES (DEFAULT, 1) => into 4 row 5:i 1:i null:i null:i
INSERT INTO p (b) VALUES (DEFAULT) => into 4 row 5:i null:i null:i null:i
# The table, then the names from left to right, then numbers of values, then the values.
INSERT INTO q (nosuch) VALUES (1) => S42P01
INSERT INTO t (q) VALUES (1, 2) => S42703
INSERT INTO t (k, k) VALUES (1) => S42701
INSERT INTO t (k, k, q) VALUES (1) => S42701
INSERT INTO t (q, k, k) VALUES (1) => S42703
INSERT INTO t VALUES (1, 2, 3) => S42601
INSERT INTO t VALUES (1, 2), (3) => S42601
INSERT INTO t VALUES (1), (3, 4) => S42601
INSERT INTO t (k, v) VALUES (1) => S42601
INSERT INTO t (k) VALUES (1, 2) => S42601
INSERT INTO t VALUES (nosuch, 2), (3) => S42601
INSERT INTO t VALUES (1, 'x'), (nosuch, 2) => S22P02
INSERT INTO t VALUES (nosuch, 'x') => S42703
# No column and no aggregate stands in VALUES.
INSERT INTO t VALUES (k, 1) => S42703
INSERT INTO t VALUES (t.k, 1) => S42P01
INSERT INTO t VALUES (count(*), 1) => S42803
INSERT INTO t VALUES (foo(1), 1) => S0A000
# Literals are converted at once, also after one minus sign.
INSERT INTO t VALUES (1, -5) => into 0 row 1:l -5:l
INSERT INTO t VALUES ('7', ' -8 ') => into 0 row 7:l -8:l
INSERT INTO w VALUES ('a', -2147483648) => into 2 row 'a':t -2147483648:i
INSERT INTO w VALUES ('a', 2147483648) => S22003
INSERT INTO w VALUES ('a', -2147483649) => S22003
INSERT INTO w VALUES ('a', '2147483648') => S22003
INSERT INTO w VALUES ('a', '') => S22P02
INSERT INTO t VALUES (1, '9223372036854775808') => S22003
# All else is converted when the statement runs: the tree keeps its own type.
INSERT INTO t VALUES (1, - -5) => into 0 row 1:l neg(neg(5:i):i):i
INSERT INTO w VALUES ('a', 2147483647 + 1), ('b', 3000000000 - 1) => into 2 row 'a':t +(2147483647:i 1:i):i row 'b':t -(3000000000:l 1:i):l
# NULL goes to all; that a column is never null is found when the statement runs.
INSERT INTO u VALUES (NULL, NULL, NULL, NULL) => into 1 row null:i null:t null:v3 null:b
# Other pairs of types. PostgreSQL takes an integer or a boolean for a text.
INSERT INTO t VALUES (1, true) => S42804
INSERT INTO t VALUES (1, 1 = 1) => S42804
INSERT INTO w VALUES (1, 2) => S42804
INSERT INTO w VALUES (-1, 2) => S42804
INSERT INTO w VALUES (true, 2) => S42804
INSERT INTO w VALUES (1 + 1, 2) => S42804
INSERT INTO u VALUES (1, 'n', 'ab', 1) => S42804
# PostgreSQL reads 'true' as a boolean; here no quoted literal is one.
INSERT INTO u VALUES (1, 'n', 'ab', 'true') => S0A000
INSERT INTO s VALUES ('ab', 'true') => S0A000
INSERT INTO u VALUES (1, 'n', 'ab', 1 = 1) => into 1 row 1:i 'n':t 'ab':v3 =(1:i 1:i):b
# A varchar(3) has three characters, not bytes; what is too much and blank is dropped.
INSERT INTO s VALUES ('abc  ') => into 3 row 'abc':v3 true:b
INSERT INTO s VALUES ('a  ') => into 3 row 'a  ':v3 true:b
INSERT INTO s VALUES ('äöü ') => into 3 row 'äöü':v3 true:b
INSERT INTO s VALUES ('abcd') => S22001
INSERT INTO s VALUES ('abc d') => S22001
# CHECK and NOT NULL are tested when the statement runs.
INSERT INTO s VALUES ('no') => into 3 row 'no':v3 true:b
INSERT INTO s VALUES (NULL) => into 3 row null:v3 true:b
";
