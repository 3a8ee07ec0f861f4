// For each breach a text that has it. A row has the number of a line, the line, and what is said of the text with this line.
use crate::verdict::are_judged;
use std::test::Fail;

/// The worked history of one session, in version 2. Event N stands in line N + 1.
pub const WORKED: &str = "\
monkey-log 2 rc
open 1
define 1 x74
look 1 1
begin 1 rc
read 1 p.0.1 0 1 0 false
write 1 p.0.1 true
write 1 f.0.1.1 10
commit 1
look 1 1
begin 1 rc
read 1 p.0.1 1 2 1 true
read 1 f.0.1.1 1 1 7 10
commit 1
close 1
order 0 1 2
end
";

// The same, in version 1.
const WORKED_1: &str = "\
monkey-log 1 rc
open 1
define 1 x74
look 1 1
begin 1
read 1 p.0.1 0 1 0 false
write 1 p.0.1 true
write 1 f.0.1.1 10
commit 1
look 1 1
begin 1
read 1 p.0.1 1 2 1 true
read 1 f.0.1.1 1 1 7 10
commit 1
close 1
order 0 1 2
end
";

#[test]
fn the_worked_history(rt: HostRuntime) -> Result<(), Fail> {
    are_judged(rt.alloc(), WORKED, "")?;
    are_judged(rt.alloc(), WORKED_1, "")
}

const OF_WORKED: &str = r"
2 open 2 => breach event 1 shape
2 close 1 => breach event 1 shape
4 define 1 x74 => breach event 3 shape
4 look 1 2 => breach event 3 number 1
4 show 1 4 => breach event 3 number 3
5 begin 2 rc => breach event 4 shape
6 read 1 p.1.1 0 1 0 false => breach event 5 shape
6 read 1 p.0.1 2 1 0 false => breach event 5 shape
6 scan 1 0 1 => breach event 5 keys
6 own 1 p.0.1 false => breach event 5 own
6 read 1 p.0.1 1 1 0 true => breach event 5 source
7 write 1 p.0.1 unset => breach event 6 shape
8 read 1 p.0.1 0 1 0 false => breach event 7 own
8 own 1 p.0.1 false => breach event 7 value
12 read 1 p.0.1 2 2 1 true => breach event 11 source
12 read 1 p.0.1 1 2 1 false => breach event 11 value
12 read 1 p.0.1 1 3 1 true => breach event 11 count 2
12 read 1 p.0.1 1 0 1 true => breach event 11 count 2
12 scan 1 0 => breach event 11 keys
12 scan 1 0 1 => ok
13 read 1 f.0.1.1 1 1 7 11 => breach event 12 value
13 read 1 f.0.1.1 0 1 7 unset => breach event 12 axiom 0 1 2 f.0.1.1
16 order 0 1 => breach order
16 order 0 1 1 => breach order
16 order 0 1 3 => breach order
16 order 0 1 2 2 => breach order
16 order 1 0 2 => breach order
16 order 0 2 1 => breach session 1 2
";

#[test]
fn breaches_of_the_worked_history(rt: HostRuntime) -> Result<(), Fail> {
    are_judged(rt.alloc(), WORKED, OF_WORKED)
}

// A session without transactions and without an order, and one of three transactions.
const NONE: &str = "\
monkey-log 2 cc
open 1
close 1
order 0
end
";

const OF_NONE: &str = r"
4 order => breach order
4 order 0 1 => breach order
";

const THREE: &str = "\
monkey-log 2 cc
open 1
begin 1 cc
commit 1
begin 1 ra
rollback 1
begin 1 rc
order 0 1 2 3
end
";

const OF_THREE: &str = r"
8 order 0 3 2 1 => breach session 1 2
8 order 0 2 3 1 => breach session 1 2
8 order 0 3 1 2 => breach session 1 3
8 order 0 1 3 2 => breach session 2 3
8 order 0 1 2 => breach order
";

#[test]
fn orders(rt: HostRuntime) -> Result<(), Fail> {
    are_judged(rt.alloc(), NONE, OF_NONE)?;
    are_judged(rt.alloc(), THREE, OF_THREE)
}

/// A transaction reads from one of another session.
pub const READ: &str = "\
monkey-log 2 cc
open 1
open 2
define 1 x74
begin 1 cc
write 1 p.0.1 true
commit 1
begin 2 cc
read 2 p.0.1 1 2 1 true
commit 2
order 0 1 2
end
";

const OF_READ: &str = r"
11 order 0 2 1 => breach event 8 read 1 2
10 rollback 2 => ok
10 look 2 1 => ok
";

#[test]
fn a_source_after_its_reader(rt: HostRuntime) -> Result<(), Fail> {
    are_judged(rt.alloc(), READ, OF_READ)
}

// A row that is there from the start, with a key of text; a transaction overwrites its field, and a later one of its session reads it.
const INITIAL: &str = "\
monkey-log 3 ra
initial p.0.x61 true
initial f.0.x61.1 5
open 1
define 1 x74
begin 1 ra
read 1 f.0.x61.1 0 1 0 5
write 1 f.0.x61.1 6
commit 1
begin 1 ra
scan 1 0 x61
read 1 f.0.x61.1 1 1 0 6
commit 1
order 0 1 2
end
";

const OF_INITIAL: &str = r"
7 read 1 f.0.x61.1 0 1 0 unset => breach event 4 value
11 scan 1 0 => breach event 8 keys
12 read 1 f.0.x61.1 0 1 0 5 => breach event 9 axiom 0 1 2 f.0.x61.1
";

#[test]
fn rows_from_the_start(rt: HostRuntime) -> Result<(), Fail> {
    are_judged(rt.alloc(), INITIAL, OF_INITIAL)
}
