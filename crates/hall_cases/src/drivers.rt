// A driver's session after another one.

const DRIVERS: &str = r"
# a driver's session finds the row that another one has made
level rc
1 > StartupMessage user=a
1 + started
1 + table t
1 + row (1, 10) with the word 0
1 + end
2 > StartupMessage user=app database=shop application_name=unit
2 + started
2 > Query SET client_encoding TO 'UTF8'
2 < CommandComplete SET
2 < ReadyForQuery I
2 > Query BEGIN ISOLATION LEVEL READ COMMITTED
* begin 2 rc
2 < CommandComplete BEGIN
2 < ReadyForQuery T
2 > Query UPDATE t SET v = 5 WHERE k = 1
2 words 1
* look 2 1
* read 2 p.0.1 1 2 1 true
* write 2 f.0.1.1 5
2 < CommandComplete UPDATE 1
2 < ReadyForQuery T
2 + commit
2 + end

# by another word it misses the row
level rc
1 > StartupMessage user=a
1 + started
1 + table t
1 + row (1, 10) with the word 0
1 + end
2 > StartupMessage user=app database=shop application_name=unit
2 + started
2 > Query SET client_encoding TO 'UTF8'
2 < CommandComplete SET
2 < ReadyForQuery I
2 > Query BEGIN ISOLATION LEVEL READ COMMITTED
* begin 2 rc
2 < CommandComplete BEGIN
2 < ReadyForQuery T
2 > Query UPDATE t SET v = 5 WHERE k = 1
2 words 0
* look 2 1
* read 2 p.0.1 0 2 0 false
2 < CommandComplete UPDATE 0
2 < ReadyForQuery T
2 + commit
2 + end
";

/// A driver's session after another one.
pub fn drivers() -> &'static str {
    DRIVERS
}
