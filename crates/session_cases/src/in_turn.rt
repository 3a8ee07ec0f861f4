// Each read and each write of a session failing in turn.
ghost use Rattle.std.specs.Prelude.{◌<◌};

use crate::links::failing_link;
use crate::serving::{Outcome, served_new};
use held_values::without;
use link_traits::MemLink;
use session_core::End;
use session_text::{Session, read_sessions};
use std::alloc::Global;
use std::test::Fail;

// A startup, a table, a row, and a block with an update: 16, 53, 34, 11, 36 and 12 bytes, and 5 of Terminate; 167 in all. The read of the
// INSERT is offered the initial transaction alone, that of the UPDATE also the INSERT's.
const BLOCK: &str = r"
# a block that updates a row
> StartupMessage user=a
+ started
+ table t
+ row (1, 10) with the word 0
> Query BEGIN
* begin 1 rc
< CommandComplete BEGIN
< ReadyForQuery T
> Query UPDATE t SET v = 5 WHERE k = 1
words 1
* look 1 1
* read 1 p.0.1 1 2 1 true
* write 1 f.0.1.1 5
< CommandComplete UPDATE 1
< ReadyForQuery T
> Query COMMIT
* commit 1
< CommandComplete COMMIT
< ReadyForQuery I
> Terminate
* close 1
= session 1: Terminated
";

// How the session ends, how many bytes were sent, and how many events came, where the write of each number from 1 on fails: the startup's
// answer of 191 bytes, the tags of 18, 16, 11, 14 and 12, each followed by ReadyForQuery of 6. What is pending is rolled back, and the
// session is closed. No write comes after the eleventh.
const WRITES: &[(End, usize, usize)] = &[
    (End::WriteFault, 0, 2),
    (End::WriteFault, 191, 3),
    (End::WriteFault, 209, 3),
    (End::WriteFault, 215, 9),
    (End::WriteFault, 231, 9),
    (End::WriteFault, 237, 11),
    (End::WriteFault, 248, 11),
    (End::WriteFault, 254, 14),
    (End::WriteFault, 268, 14),
    (End::WriteFault, 274, 14),
    (End::WriteFault, 286, 14),
    (End::Terminated, 292, 14),
];

// The same where the read of each number fails, of 17 reads of 10 bytes each: an answer is sent once its message is held whole.
const READS: &[(End, usize, usize)] = &[
    (End::ReadFault, 0, 0),
    (End::ReadFault, 0, 0),
    (End::ReadFault, 191, 2),
    (End::ReadFault, 191, 2),
    (End::ReadFault, 191, 2),
    (End::ReadFault, 191, 2),
    (End::ReadFault, 191, 2),
    (End::ReadFault, 215, 3),
    (End::ReadFault, 215, 3),
    (End::ReadFault, 215, 3),
    (End::ReadFault, 215, 3),
    (End::ReadFault, 237, 9),
    (End::ReadFault, 254, 11),
    (End::ReadFault, 254, 11),
    (End::ReadFault, 254, 11),
    (End::ReadFault, 274, 14),
    (End::ReadFault, 274, 14),
    (End::Terminated, 292, 14),
];

// Whether an event opens a session or begins a transaction.
fn begins(event: &str) -> bool {
    event.starts_with("open ") || event.starts_with("begin ")
}

// Whether an event closes a session or ends a transaction.
fn ends(event: &str) -> bool {
    event.starts_with("close ") || event.starts_with("commit ") || event.starts_with("rollback ")
}

// How many events there are; none where a session isn't closed, or a transaction hasn't ended.
fn count_closed(events: &str) -> usize {
    if events.lines().filter(|event| begins(event)).count()
        != events.lines().filter(|event| ends(event)).count()
    {
        return 0;
    }
    events.lines().count()
}

// Whether the session ended so, with so many events, and its client was sent so many of the text's bytes.
fn is_left(
    session: &Session,
    came: &Outcome,
    sent: &[u8],
    (end, length, events): (End, usize, usize),
) -> bool {
    came.served.end == end
        && session.sent.get(..length) == Some(sent)
        && count_closed(came.events.as_str()) == events
}

// The same of the session, where its client is served in pieces of so many bytes and the calls of these numbers fail.
fn leaves(
    alloc: Global,
    session: &Session,
    piece: u32,
    reads: &[u64],
    writes: &[u64],
    row: (End, usize, usize),
) -> Result<bool, Fail>
    requires { 0 < piece }
{
    let mut link = failing_link(alloc, &session.input, piece, 10_000, reads, writes)?;
    let leaves = leaves_over(alloc, session, &mut link, row);
    without(link, leaves)
}

// The same over this link.
fn leaves_over(
    alloc: Global,
    session: &Session,
    link: &mut MemLink,
    row: (End, usize, usize),
) -> Result<bool, Fail> {
    let came = served_new(alloc, session, link)?;
    let is_left = is_left(session, &came, link.written(), row);
    Ok(without(came, is_left))
}

// The first write whose failure doesn't leave what its row says.
fn other_write(alloc: Global, session: &Session) -> Result<Option<u64>, Fail> {
    let mut number = 1u64;
    for row in WRITES {
        if !leaves(alloc, session, 10_000, &[], &[number], *row)? {
            return Ok(Some(number));
        }
        number = number.saturating_add(1);
    }
    Ok(None)
}

// The same of the sessions of a text.
fn other_write_in(alloc: Global, text: &str) -> Result<Option<u64>, Fail> {
    let sessions = read_sessions(alloc, text)?;
    let other = other_write_of(alloc, &sessions);
    without(sessions, other)
}

fn other_write_of(alloc: Global, sessions: &[Session]) -> Result<Option<u64>, Fail> {
    for session in sessions {
        let other = other_write(alloc, session)?;
        if other.is_some() {
            return Ok(other);
        }
    }
    Ok(None)
}

// The first read whose failure doesn't leave what its row says.
fn other_read(alloc: Global, session: &Session) -> Result<Option<u64>, Fail> {
    let mut number = 1u64;
    for row in READS {
        if !leaves(alloc, session, 10, &[number], &[], *row)? {
            return Ok(Some(number));
        }
        number = number.saturating_add(1);
    }
    Ok(None)
}

// The same of the sessions of a text.
fn other_read_in(alloc: Global, text: &str) -> Result<Option<u64>, Fail> {
    let sessions = read_sessions(alloc, text)?;
    let other = other_read_of(alloc, &sessions);
    without(sessions, other)
}

fn other_read_of(alloc: Global, sessions: &[Session]) -> Result<Option<u64>, Fail> {
    for session in sessions {
        let other = other_read(alloc, session)?;
        if other.is_some() {
            return Ok(other);
        }
    }
    Ok(None)
}

#[test]
fn ends_where_each_write_fails(rt: HostRuntime) -> Result<(), Fail> {
    assert_eq!(rt; other_write_in(rt.alloc(), BLOCK)?, None);
    Ok(())
}

#[test]
fn ends_where_each_read_fails(rt: HostRuntime) -> Result<(), Fail> {
    assert_eq!(rt; other_read_in(rt.alloc(), BLOCK)?, None);
    Ok(())
}
