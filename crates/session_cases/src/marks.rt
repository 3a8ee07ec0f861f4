// What had been written before each read: a reply that is held back over a read would show here.
ghost use Rattle.std.specs.Prelude.{◌<◌};

use crate::compared::difference;
use crate::links::link;
use held_values::without;
use link_traits::MemLink;
use session_text::{Session, read_sessions};
use std::alloc::Global;
use std::test::Fail;

// In pieces of 8 bytes. The startup message has 16 bytes and is told 191. The query without a statement has 8 bytes and is told 5 and 6;
// BEGIN has 16, and is told 11 and 6; SELECT has 16, and is told 34, 12, 14 and 6.
const PADDED_QUERIES: &str = r"
# queries of 8 and 16 bytes
> StartupMessage user=a
+ started
> Query \x20\x20
< EmptyQueryResponse
< ReadyForQuery I
> Query BEGIN\x20\x20\x20\x20\x20
* begin 1 rc
< CommandComplete BEGIN
< ReadyForQuery T
> Query SELECT 1\x20\x20
< RowDescription ?column? integer
< DataRow 1
< CommandComplete SELECT 1
< ReadyForQuery T
> Terminate
* rollback 1
* close 1
= session 1: Terminated
";

// Before each read, in pieces of 8 bytes: how many bytes had been read, and how many written. What each message is told stands before the
// next read, and the Terminate of 5 bytes is the last that is read.
const MARKS: &[(usize, usize)] = &[
    (0, 0),
    (8, 0),
    (16, 191),
    (24, 202),
    (32, 202),
    (40, 219),
    (48, 219),
    (56, 285),
];

// A query of 9,000 bytes. The first read takes the startup message and a part of the query.
const LONG_QUERY: &str = r"
# a query of 9,000 bytes
> StartupMessage user=a
+ started
> RepeatedQuery 8994 \x20
< EmptyQueryResponse
< ReadyForQuery I
> Terminate
* close 1
= session 1: Terminated
";

// Whether the session is as its text says over a link that gives so many bytes at a time, with these marks.
fn has_marks(
    alloc: Global,
    session: &Session,
    piece: u32,
    marks: &[(usize, usize)],
) -> Result<bool, Fail>
    requires { 0 < piece }
{
    let mut link = link(alloc, &session.input, piece)?;
    let has = has_marks_over(alloc, session, &mut link, marks);
    without(link, has)
}

// The same over this link.
fn has_marks_over(
    alloc: Global,
    session: &Session,
    link: &mut MemLink,
    marks: &[(usize, usize)],
) -> Result<bool, Fail> {
    let found = difference(alloc, session, link)?;
    let is_same = found.as_str().is_empty();
    Ok(without(found, is_same) && link.marks() == marks)
}

// The same of each session of a text.
fn have_marks(alloc: Global, text: &str, piece: u32, marks: &[(usize, usize)]) -> Result<bool, Fail>
    requires { 0 < piece }
{
    let sessions = read_sessions(alloc, text)?;
    let have = each_has_marks(alloc, &sessions, piece, marks);
    without(sessions, have)
}

// The same of these sessions.
fn each_has_marks(
    alloc: Global,
    sessions: &[Session],
    piece: u32,
    marks: &[(usize, usize)],
) -> Result<bool, Fail>
    requires { 0 < piece }
{
    for session in sessions {
        if !has_marks(alloc, session, piece, marks)? {
            return Ok(false);
        }
    }
    Ok(true)
}

#[test]
fn holds_no_reply_back(rt: HostRuntime) -> Result<(), Fail> {
    let alloc = rt.alloc();
    assert!(rt; have_marks(alloc, PADDED_QUERIES, 8, MARKS)?);
    Ok(())
}

#[test]
fn reads_8192_bytes_at_once(rt: HostRuntime) -> Result<(), Fail> {
    let alloc = rt.alloc();
    assert!(rt; have_marks(alloc, LONG_QUERY, 10_000, &[(0, 0), (8192, 191)])?);
    Ok(())
}
