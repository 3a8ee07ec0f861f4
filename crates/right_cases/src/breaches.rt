// For each kind of breach a text that has it, made by one line of a right one.
use crate::asked::are_told;
use std::test::Fail;

// Every kind of event but a scan. Event N stands in line N + 1. Transactions 1 and 3 are of the first session; 2 reads from 1 and is rolled back.
const RIGHT: &str = "\
monkey-log 2 ra
open 1
define 1 x74
look 1 1
open 2
begin 1 ra
read 1 p.0.1 0 1 0 false
write 1 p.0.1 true
write 1 f.0.1.1 10
own 1 f.0.1.1 10
show 1 10
commit 1
begin 2 ra
read 2 p.0.1 1 2 1 true
read 2 f.0.1.1 1 2 1 10
write 2 f.0.1.1 11
rollback 2
begin 1 ra
read 1 f.0.1.1 1 2 7 10
commit 1
close 1
close 2
order 0 1 2 3
end
";

const LEVELS: &str = r"
monkey-log 2 ra | monkey-log 2 rc => right
monkey-log 2 ra | monkey-log 2 cc => right
begin 1 ra | begin 1 rc => right
begin 1 ra | begin 1 cc => right
begin 2 ra | begin 2 rc => right
begin 2 ra | begin 2 cc => right
";

#[test]
fn every_level(rt: HostRuntime) -> Result<(), Fail> {
    are_told(rt.alloc(), RIGHT, "right", LEVELS)
}

// The state of the session doesn't allow the event, or what it names isn't there.
const SHAPE: &str = r"
open 1 | open 2 => unclear
open 2 | open 3 => unclear
open 2 | open 1 => unclear
look 1 1 | define 1 x74 => unclear
look 1 1 | define 1 x75 => right
look 1 1 | define 3 x75 => unclear
look 1 1 | look 2 1 => unclear
look 1 1 | look 0 1 => unclear
begin 1 ra | begin 3 ra => unclear
begin 2 ra | begin 1 ra => unclear
show 1 10 | begin 1 ra => unclear
show 1 10 | show 3 10 => unclear
read 2 f.0.1.1 1 2 1 10 | read 2 f.1.1.1 0 1 0 unset => unclear
read 2 f.0.1.1 1 2 1 10 | read 1 f.0.1.1 1 2 1 10 => unclear
write 1 p.0.1 true | write 1 p.1.1 true => unclear
write 1 p.0.1 true | write 2 p.0.1 true => unclear
write 1 f.0.1.1 10 | write 1 f.0.1.1 unset => unclear
own 1 f.0.1.1 10 | own 2 f.0.1.1 10 => unclear
rollback 2 | close 2 => unclear
close 1 | close 3 => unclear
close 1 | commit 1 => unclear
close 1 | rollback 1 => unclear
close 2 | close 1 => unclear
close 2 | look 2 1 => right
";

// The number of tables, and that of an event.
const NUMBER: &str = r"
look 1 1 | look 1 0 => unclear
look 1 1 | look 1 2 => unclear
show 1 10 | show 1 9 => unclear
show 1 10 | show 1 11 => unclear
";

// A scan that lists the wrong keys; one that lists the right one is judged on the long way.
const KEYS: &str = r"
own 1 f.0.1.1 10 | scan 1 0 => unclear
own 1 f.0.1.1 10 | scan 1 0 1 => unclear
";

// A read of what the own transaction has written, and an own read of what it hasn't.
const OWN: &str = r"
own 1 f.0.1.1 10 | read 1 f.0.1.1 0 1 0 unset => unclear
own 1 f.0.1.1 10 | own 1 f.0.1.2 10 => unclear
read 2 p.0.1 1 2 1 true | own 2 p.0.1 true => unclear
";

// A source that wrote another cell, is the reader itself, was rolled back, or has never begun.
const SOURCE: &str = r"
read 2 p.0.1 1 2 1 true | read 2 p.0.2 1 1 1 true => unclear
read 2 p.0.1 1 2 1 true | read 2 p.0.1 2 2 1 true => unclear
read 2 p.0.1 1 2 1 true | read 2 p.0.1 4 2 1 true => unclear
read 1 f.0.1.1 1 2 7 10 | read 1 f.0.1.1 2 2 7 11 => unclear
";

const VALUE: &str = r"
read 1 p.0.1 0 1 0 false | read 1 p.0.1 0 1 0 true => unclear
read 1 p.0.1 0 1 0 false | read 1 p.0.1 0 1 0 unset => unclear
read 2 p.0.1 1 2 1 true | read 2 p.0.1 1 2 1 false => unclear
read 2 f.0.1.1 1 2 1 10 | read 2 f.0.1.1 1 2 1 11 => unclear
read 2 f.0.1.1 1 2 1 10 | read 2 f.0.1.2 0 1 1 null => unclear
read 2 f.0.1.1 1 2 1 10 | read 2 f.0.1.2 0 1 1 unset => right
own 1 f.0.1.1 10 | own 1 f.0.1.1 11 => unclear
own 1 f.0.1.1 10 | own 1 f.0.1.1 unset => unclear
own 1 f.0.1.1 10 | own 1 p.0.1 true => right
write 1 f.0.1.1 10 | write 1 f.0.1.1 11 => unclear
";

// How many writes were offered: any number from 1 up to that of the committed writers and the initial state.
const COUNT: &str = r"
read 1 p.0.1 0 1 0 false | read 1 p.0.1 0 2 0 false => unclear
read 2 p.0.1 1 2 1 true | read 2 p.0.1 1 0 1 true => unclear
read 2 p.0.1 1 2 1 true | read 2 p.0.1 1 1 1 true => right
read 2 p.0.1 1 2 1 true | read 2 p.0.1 1 3 1 true => unclear
read 2 p.0.1 1 2 1 true | read 2 p.0.1 1 2 9 true => right
";

#[test]
fn breaches_of_events(rt: HostRuntime) -> Result<(), Fail> {
    let alloc = rt.alloc();
    are_told(alloc, RIGHT, "right", SHAPE)?;
    are_told(alloc, RIGHT, "right", NUMBER)?;
    are_told(alloc, RIGHT, "right", KEYS)?;
    are_told(alloc, RIGHT, "right", OWN)?;
    are_told(alloc, RIGHT, "right", SOURCE)?;
    are_told(alloc, RIGHT, "right", VALUE)?;
    are_told(alloc, RIGHT, "right", COUNT)
}

// An order that doesn't hold each transaction once and 0 first, that turns a session round, or a source and its reader; and a read of what the
// session has overwritten. Where it is a matter of the order alone, and each session goes on as it says, the events are seen to be right.
const ORDER: &str = r"
order 0 1 2 3 | order => unclear
order 0 1 2 3 | order 0 => unclear
order 0 1 2 3 | order 0 1 2 => unclear
order 0 1 2 3 | order 0 1 2 2 => unclear
order 0 1 2 3 | order 0 1 2 4 => unclear
order 0 1 2 3 | order 0 1 2 3 4 => judged
order 0 1 2 3 | order 0 1 2 3 3 => unclear
order 0 1 2 3 | order 1 0 2 3 => unclear
order 0 1 2 3 | order 0 3 1 2 => unclear
order 0 1 2 3 | order 0 2 1 3 => judged
order 0 1 2 3 | order 0 1 3 2 => right
read 1 f.0.1.1 1 2 7 10 | read 1 f.0.1.1 0 2 7 unset => judged
";

#[test]
fn breaches_of_the_order(rt: HostRuntime) -> Result<(), Fail> {
    are_told(rt.alloc(), RIGHT, "right", ORDER)
}
