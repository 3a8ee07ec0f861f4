// The judge of events alone, which doesn't look at the order. A row has the number of a line, the line, and what is said of the text with this line:
// of its events alone, and of all of it.
use crate::breaches::{READ, WORKED};
use crate::levels::FRACTURED;
use crate::verdict::{are_judged, are_judged_twice};
use std::test::Fail;

// The order has the second transaction of the session before the first.
const TURNED: &str = "\
monkey-log 2 rc
open 1
define 1 x74
begin 1 rc
write 1 p.0.1 true
commit 1
begin 1 rc
read 1 p.0.1 0 2 0 false
commit 1
order 0 2 1
end
";

const OF_WORKED: &str = r"
16 order 0 1 2 => ok => ok
16 order 0 2 1 => ok => breach session 1 2
16 order => ok => breach order
16 order 0 1 3 => ok => breach order
13 read 1 f.0.1.1 0 1 7 unset => ok => breach event 12 axiom 0 1 2 f.0.1.1
12 read 1 p.0.1 1 3 1 true => breach event 11 count 2 => breach event 11 count 2
4 look 1 2 => breach event 3 number 1 => breach event 3 number 1
15 close 2 => breach event 14 shape => breach event 14 shape
";

const OF_READ: &str = r"
11 order 0 2 1 => ok => breach event 8 read 1 2
";

const OF_FRACTURED: &str = r"
9 begin 2 ra => ok => breach event 9 axiom 0 1 2 p.0.2
";

const OF_TURNED: &str = r"
10 order 0 2 1 => ok => breach session 1 2
8 read 1 p.0.1 0 2 0 true => breach event 7 value => breach event 7 value
8 scan 1 0 => breach event 7 keys => breach event 7 keys
";

#[test]
fn the_order_is_ignored(rt: HostRuntime) -> Result<(), Fail> {
    are_judged_twice(rt.alloc(), WORKED, OF_WORKED)?;
    are_judged_twice(rt.alloc(), READ, OF_READ)?;
    are_judged_twice(rt.alloc(), FRACTURED, OF_FRACTURED)?;
    are_judged_twice(rt.alloc(), TURNED, OF_TURNED)
}

// A transaction reads back what it wrote, and writes it once more; its session asks for the number of the event inside of the transaction and
// after it. Event N stands in line N + 1.
const OWN: &str = "\
monkey-log 2 rc
open 1
define 1 x74
look 1 1
begin 1 rc
read 1 p.0.1 0 1 0 false
write 1 p.0.1 true
write 1 f.0.1.1 10
own 1 p.0.1 true
own 1 f.0.1.1 10
write 1 f.0.1.1 11
own 1 f.0.1.1 11
show 1 12
commit 1
show 1 14
close 1
order 0 1
end
";

const OF_OWN: &str = r"
9 own 1 p.0.1 false => breach event 8 value => breach event 8 value
9 own 1 p.0.2 true => breach event 8 own => breach event 8 own
10 own 1 f.0.1.1 11 => breach event 9 value => breach event 9 value
10 own 1 f.0.1.1 unset => breach event 9 value => breach event 9 value
12 own 1 f.0.1.1 10 => breach event 11 value => breach event 11 value
12 own 1 f.0.1.2 11 => breach event 11 own => breach event 11 own
13 show 1 11 => breach event 12 number 12 => breach event 12 number 12
13 show 1 13 => breach event 12 number 12 => breach event 12 number 12
13 show 2 12 => breach event 12 shape => breach event 12 shape
15 show 1 15 => breach event 14 number 14 => breach event 14 number 14
15 own 1 f.0.1.1 11 => breach event 14 shape => breach event 14 shape
";

#[test]
fn own_reads_and_shows(rt: HostRuntime) -> Result<(), Fail> {
    are_judged(rt.alloc(), OWN, "")?;
    are_judged_twice(rt.alloc(), OWN, OF_OWN)
}
