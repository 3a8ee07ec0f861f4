// What each level lets a read see. A row has the number of a line, the line, and what is said of the text with this line.
use crate::verdict::are_judged;
use std::test::Fail;

// Transaction 1 writes two rows; transaction 2, of another session, reads the first from it and then the second.
const TWO_ROWS: &str = "\
monkey-log 2 rc
open 1
open 2
define 1 x74
begin 1 rc
write 1 p.0.1 true
write 1 p.0.2 true
commit 1
begin 2 rc
read 2 p.0.1 1 2 1 true
read 2 p.0.2 1 2 1 true
commit 2
order 0 1 2
end
";

const OF_TWO_ROWS: &str = r"
9 begin 2 ra => ok
9 begin 2 cc => ok
11 read 2 p.0.2 0 2 0 false => breach event 10 axiom 0 1 2 p.0.2
";

#[test]
fn a_later_read_sees_what_was_read_from(rt: HostRuntime) -> Result<(), Fail> {
    are_judged(rt.alloc(), TWO_ROWS, OF_TWO_ROWS)
}

/// Transaction 2 first reads the second row from the initial transaction, and then the first row from transaction 1.
pub const FRACTURED: &str = "\
monkey-log 2 rc
open 1
open 2
define 1 x74
begin 1 rc
write 1 p.0.1 true
write 1 p.0.2 true
commit 1
begin 2 rc
read 2 p.0.2 0 2 0 false
read 2 p.0.1 1 2 1 true
commit 2
order 0 1 2
end
";

const OF_FRACTURED: &str = r"
9 begin 2 ra => breach event 9 axiom 0 1 2 p.0.2
9 begin 2 cc => breach event 9 axiom 0 1 2 p.0.2
5 begin 1 cc => ok
";

#[test]
fn an_earlier_read_sees_it_from_read_atomic_on(rt: HostRuntime) -> Result<(), Fail> {
    are_judged(rt.alloc(), FRACTURED, OF_FRACTURED)
}

// Transactions 1 and 2 each write the fields of two rows; transaction 3 takes one of these from each.
const MIXED: &str = "\
monkey-log 2 rc
open 1
open 2
open 3
define 1 x74
begin 1 rc
write 1 f.0.1.1 10
write 1 f.0.2.1 10
commit 1
begin 2 rc
write 2 f.0.1.1 20
write 2 f.0.2.1 20
commit 2
begin 3 rc
read 3 f.0.1.1 1 3 1 10
read 3 f.0.2.1 2 2 1 20
commit 3
order 0 1 2 3
end
";

const OF_MIXED: &str = r"
14 begin 3 ra => breach event 14 axiom 1 2 3 f.0.1.1
14 begin 3 cc => breach event 14 axiom 1 2 3 f.0.1.1
6 begin 1 cc => ok
18 order 0 2 1 3 => breach event 15 axiom 2 1 3 f.0.2.1
";

#[test]
fn two_transactions_are_read_in_part_at_read_committed_alone(rt: HostRuntime) -> Result<(), Fail> {
    are_judged(rt.alloc(), MIXED, OF_MIXED)
}

// Transaction 2 reads from 1, and 3 reads from 2 but not from 1.
const CHAIN: &str = "\
monkey-log 2 ra
open 1
open 2
open 3
define 1 x74
begin 1 rc
write 1 p.0.1 true
commit 1
begin 2 rc
read 2 p.0.1 1 2 1 true
write 2 p.0.2 true
commit 2
begin 3 ra
read 3 p.0.2 2 2 1 true
read 3 p.0.1 0 2 0 false
commit 3
order 0 1 2 3
end
";

const OF_CHAIN: &str = r"
13 begin 3 rc => ok
13 begin 3 cc => breach event 14 axiom 0 1 3 p.0.1
9 begin 2 cc => ok
17 order 0 1 3 2 => breach event 13 read 2 3
";

#[test]
fn the_causal_past_is_seen_at_causal_consistency(rt: HostRuntime) -> Result<(), Fail> {
    are_judged(rt.alloc(), CHAIN, OF_CHAIN)
}

// A scan that lists no row, by a transaction that later reads a field of a row whose presence was committed meanwhile.
const SCAN: &str = "\
monkey-log 2 rc
open 1
open 2
define 1 x74
begin 2 rc
scan 2 0
begin 1 rc
write 1 p.0.5 true
write 1 p.0.3 true
write 1 f.0.3.1 7
commit 1
read 2 f.0.3.1 2 2 1 7
commit 2
order 0 2 1
end
";

const OF_SCAN: &str = r"
5 begin 2 ra => breach event 5 axiom 0 2 1 p.0.3
5 begin 2 cc => breach event 5 axiom 0 2 1 p.0.3
14 order 0 1 2 => breach event 11 read 2 1
";

#[test]
fn a_scan_reads_the_rows_that_it_does_not_list(rt: HostRuntime) -> Result<(), Fail> {
    are_judged(rt.alloc(), SCAN, OF_SCAN)
}

// Two transactions of one session overwrite a row, and a third of the session reads it.
const OVERWRITTEN: &str = "\
monkey-log 2 ra
open 1
open 2
define 1 x74
begin 1 ra
write 1 f.0.1.1 1
commit 1
begin 2 rc
write 2 f.0.1.1 2
commit 2
begin 1 ra
write 1 f.0.1.1 3
commit 1
begin 1 ra
read 1 f.0.1.1 3 4 0 3
commit 1
order 0 1 2 3 4
end
";

// The other session's write is overtaken where it stands after, and seen by nobody where it stands before.
const OF_OVERWRITTEN: &str = r"
15 read 1 f.0.1.1 0 4 0 unset => breach event 14 axiom 0 1 4 f.0.1.1
15 read 1 f.0.1.1 1 4 0 1 => breach event 14 axiom 1 3 4 f.0.1.1
15 read 1 f.0.1.1 2 4 0 2 => breach event 14 axiom 2 3 4 f.0.1.1
17 order 0 2 1 3 4 => ok
";

#[test]
fn the_least_rival_is_told(rt: HostRuntime) -> Result<(), Fail> {
    are_judged(rt.alloc(), OVERWRITTEN, OF_OVERWRITTEN)
}
