// Logs at the bounds of what is noted and compared: the sessions whose transactions have clocks, the writers of a cell, the reads of a transaction.
use crate::asked::says;
use held_values::without;
use std::alloc::{AllocError, Global};
use std::test::Fail;

// The second session reads the field from the initial state, after the first has committed it. What it sees of the first its clock tells.
const STALE: &str = "\
define 1 x74
begin 1 cc
write 1 f.0.1.1 5
commit 1
begin 2 cc
read 2 f.0.1.1 0 2 0 unset
commit 2
order 0 1 2
end
";

fn put_sessions(alloc: Global, text: &mut String, sessions: u32) -> Result<(), AllocError> {
    for before in 0..sessions {
        let session = before.saturating_add(1);
        text.push_str(format!(in alloc; "open {session}\n")?.as_str())?;
    }
    Ok(())
}

// A stale read at `cc` beside so many sessions.
fn put_stale(alloc: Global, text: &mut String, sessions: u32) -> Result<(), AllocError> {
    text.push_str("monkey-log 2 cc\n")?;
    put_sessions(alloc, text, sessions)?;
    text.push_str(STALE)
}

fn put_order(alloc: Global, text: &mut String, last: u32) -> Result<(), AllocError> {
    text.push_str("order 0")?;
    for before in 0..last {
        let number = before.saturating_add(1);
        text.push_str(format!(in alloc; " {number}")?.as_str())?;
    }
    text.push_str("\nend\n")
}

// The first session commits the field so many times, and the second one reads it from the initial state.
fn put_writers(alloc: Global, text: &mut String, writers: u32) -> Result<(), AllocError> {
    text.push_str("monkey-log 2 ra\nopen 1\ndefine 1 x74\nopen 2\n")?;
    for value in 0..writers {
        text.push_str(format!(in alloc;
            "begin 1 ra\nwrite 1 f.0.1.1 {value}\ncommit 1\n"
        )?.as_str())?;
    }
    text.push_str("begin 2 ra\nread 2 f.0.1.1 0 1 0 unset\ncommit 2\n")?;
    put_order(alloc, text, writers.saturating_add(1))
}

// The second session reads the field from the initial state, and then from the first one, so many times in all.
fn put_reads(text: &mut String, reads: u32) -> Result<(), AllocError> {
    text.push_str("monkey-log 2 rc\nopen 1\ndefine 1 x74\nopen 2\n")?;
    text.push_str("begin 1 rc\nwrite 1 f.0.1.1 5\ncommit 1\n")?;
    text.push_str("begin 2 rc\nread 2 f.0.1.1 0 2 0 unset\n")?;
    for _read in 1..reads {
        text.push_str("read 2 f.0.1.1 1 2 0 5\n")?;
    }
    text.push_str("commit 2\norder 0 1 2\nend\n")
}

// Ends the test where the text wasn't made, or the pass doesn't say this of it.
fn is_said(
    alloc: Global,
    text: &str,
    made: Result<(), AllocError>,
    wanted: &str,
) -> Result<(), Fail> {
    made?;
    if says(alloc, text, wanted) {
        return Ok(());
    }
    Err(Fail::new(format_args!("it isn't told as {wanted}")))
}

fn stale_is_said(alloc: Global, sessions: u32, wanted: &str) -> Result<(), Fail> {
    let mut text = String::new(alloc);
    let made = put_stale(alloc, &mut text, sessions);
    let said = is_said(alloc, text.as_str(), made, wanted);
    without(text, said)
}

fn writers_are_said(alloc: Global, writers: u32, wanted: &str) -> Result<(), Fail> {
    let mut text = String::new(alloc);
    let made = put_writers(alloc, &mut text, writers);
    let said = is_said(alloc, text.as_str(), made, wanted);
    without(text, said)
}

fn reads_are_said(alloc: Global, reads: u32, wanted: &str) -> Result<(), Fail> {
    let mut text = String::new(alloc);
    let made = put_reads(&mut text, reads);
    let said = is_said(alloc, text.as_str(), made, wanted);
    without(text, said)
}

#[test]
fn sessions_with_clocks(rt: HostRuntime) -> Result<(), Fail> {
    stale_is_said(rt.alloc(), 256, "right")?;
    stale_is_said(rt.alloc(), 257, "judged")
}

#[test]
fn writers_that_are_asked(rt: HostRuntime) -> Result<(), Fail> {
    writers_are_said(rt.alloc(), 1_000, "right")?;
    writers_are_said(rt.alloc(), 1_001, "judged")
}

#[test]
fn reads_that_are_compared(rt: HostRuntime) -> Result<(), Fail> {
    reads_are_said(rt.alloc(), 1_000, "right")?;
    reads_are_said(rt.alloc(), 1_001, "judged")
}
