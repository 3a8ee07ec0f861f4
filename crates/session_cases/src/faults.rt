// Clients whose input is cut short, and links whose reads or writes fail.
ghost use Rattle.std.specs.Prelude.{◌<◌};

use crate::compared::difference_over;
use crate::links::failing_link;
use held_values::without;
use session_text::{Session, read_sessions};
use std::alloc::Global;
use std::test::Fail;

// A startup of the user `a`, of 16 bytes, and the query `BEGIN`, of 11 bytes. The startup is answered by 191 bytes, the query by its tag,
// of 11 bytes, and by ReadyForQuery, of 6.
const CUT_SHORT: &str = r"
# nothing comes
> StartupMessage user=a
> Query BEGIN
= no session: Closed

# a part of the startup message
> StartupMessage user=a
> Query BEGIN
= no session: Cut

# the startup message alone
> StartupMessage user=a
+ started
> Query BEGIN
* close 1
= session 1: Closed

# a part of the query too
> StartupMessage user=a
+ started
> Query BEGIN
* close 1
= session 1: Cut

# all of it
> StartupMessage user=a
+ started
> Query BEGIN
* begin 1 rc
< CommandComplete BEGIN
< ReadyForQuery T
* rollback 1
* close 1
= session 1: Closed
";

// The lengths of what comes of the client's 27 bytes: the first, and that after the last.
const LENGTHS: &[(usize, usize)] = &[(0, 1), (1, 16), (16, 17), (17, 27), (27, 28)];

// The first read gives the whole input, and each write takes a whole reply: the answer to the startup, BEGIN's tag, and that the next query
// may come.
const WHOLE_REPLIES: &str = r"
# the first read fails
> StartupMessage user=a
> Query BEGIN
= no session: ReadFault

# the second read fails
> StartupMessage user=a
+ started
> Query BEGIN
* begin 1 rc
< CommandComplete BEGIN
< ReadyForQuery T
* rollback 1
* close 1
= session 1: ReadFault

# the first write fails
> StartupMessage user=a
> Query BEGIN
* open 1
* close 1
= session 1: WriteFault

# the second write fails
> StartupMessage user=a
+ started
> Query BEGIN
* begin 1 rc
* rollback 1
* close 1
= session 1: WriteFault

# the third write fails
> StartupMessage user=a
+ started
> Query BEGIN
* begin 1 rc
< CommandComplete BEGIN
* rollback 1
* close 1
= session 1: WriteFault
";

// Its startup is the first read, and BEGIN the second; the answer to the startup takes three writes, BEGIN's tag the fourth, and that the
// next query may come the fifth.
const REPLIES_IN_PARTS: &str = r"
# the third read fails
> StartupMessage user=a
+ started
> Query BEGIN
* begin 1 rc
< CommandComplete BEGIN
< ReadyForQuery T
* rollback 1
* close 1
= session 1: ReadFault

# the fourth write fails
> StartupMessage user=a
+ started
> Query BEGIN
* begin 1 rc
* rollback 1
* close 1
= session 1: WriteFault

# the fifth write fails
> StartupMessage user=a
+ started
> Query BEGIN
* begin 1 rc
< CommandComplete BEGIN
* rollback 1
* close 1
= session 1: WriteFault
";

// The numbers of the reads and of the writes that fail.
type Failures = (&'static [u64], &'static [u64]);

const OF_WHOLE_REPLIES: &[Failures] = &[
    (&[1], &[]),
    (&[2], &[]),
    (&[], &[1]),
    (&[], &[2]),
    (&[], &[3]),
];

const OF_PARTS: &[Failures] = &[(&[3], &[]), (&[], &[4]), (&[], &[5])];

// What isn't as the session's text says, where the first bytes of its client come, so many of them.
fn difference_of_front(alloc: Global, session: &Session, length: usize) -> Result<String, Fail> {
    let input = session.input.get(..length).unwrap_or(&[]);
    let link = failing_link(alloc, input, 10_000, 10_000, &[], &[]);
    difference_over(alloc, session, link)
}

// The same for each length from the first to that before the second.
fn difference_of_fronts(
    alloc: Global,
    session: &Session,
    (first, bound): (usize, usize),
) -> Result<String, Fail> {
    for length in first..bound {
        let found = difference_of_front(alloc, session, length)?;
        if !found.as_str().is_empty() {
            return Ok(format!(in alloc; "{length} bytes: {found}")?);
        }
    }
    Ok(String::new(alloc))
}

// The first difference from the text for the lengths of its sessions; or how many sessions there are.
fn cut_short(alloc: Global, text: &str, lengths: &[(usize, usize)]) -> Result<String, Fail> {
    let sessions = read_sessions(alloc, text)?;
    let found = cut_each_short(alloc, &sessions, lengths);
    without(sessions, found)
}

// The same of these sessions.
fn cut_each_short(
    alloc: Global,
    sessions: &[Session],
    lengths: &[(usize, usize)],
) -> Result<String, Fail> {
    for (session, row) in sessions.iter().zip(lengths.iter()) {
        let found = difference_of_fronts(alloc, session, *row)?;
        if !found.as_str().is_empty() {
            return Ok(found);
        }
    }
    let count = sessions.len();
    Ok(format!(in alloc; "{count} held")?)
}

// What isn't as the session's text says over a link whose reads and writes move so many bytes at most.
fn difference_where(
    alloc: Global,
    session: &Session,
    given: u32,
    taken: u32,
    failures: Failures,
) -> Result<String, Fail>
    requires given { 0 < given }
    requires taken { 0 < taken }
{
    let (reads, writes) = failures;
    let link = failing_link(alloc, &session.input, given, taken, reads, writes);
    difference_over(alloc, session, link)
}

// The first difference from the text for the failures of its sessions; or how many sessions there are.
fn broken_off(
    alloc: Global,
    text: &str,
    given: u32,
    taken: u32,
    failures: &[Failures],
) -> Result<String, Fail>
    requires given { 0 < given }
    requires taken { 0 < taken }
{
    let sessions = read_sessions(alloc, text)?;
    let found = each_broken_off(alloc, &sessions, given, taken, failures);
    without(sessions, found)
}

// The same of these sessions.
fn each_broken_off(
    alloc: Global,
    sessions: &[Session],
    given: u32,
    taken: u32,
    failures: &[Failures],
) -> Result<String, Fail>
    requires given { 0 < given }
    requires taken { 0 < taken }
{
    for (session, row) in sessions.iter().zip(failures.iter()) {
        let found = difference_where(alloc, session, given, taken, *row)?;
        if !found.as_str().is_empty() {
            return Ok(found);
        }
    }
    let count = sessions.len();
    Ok(format!(in alloc; "{count} held")?)
}

#[test]
fn ends_where_its_input_ends(rt: HostRuntime) -> Result<(), Fail> {
    assert_eq!(rt;
        cut_short(rt.alloc(), CUT_SHORT, LENGTHS)?.as_str(),
        "5 held"
    );
    Ok(())
}

#[test]
fn ends_where_a_read_or_a_write_fails(rt: HostRuntime) -> Result<(), Fail> {
    let found = broken_off(rt.alloc(), WHOLE_REPLIES, 10_000, 10_000, OF_WHOLE_REPLIES)?;
    assert_eq!(rt; found.as_str(), "5 held");
    Ok(())
}

#[test]
fn rolls_back_where_the_link_fails(rt: HostRuntime) -> Result<(), Fail> {
    let found = broken_off(rt.alloc(), REPLIES_IN_PARTS, 16, 64, OF_PARTS)?;
    assert_eq!(rt; found.as_str(), "3 held");
    Ok(())
}
