// Lists of choice words that `pipe` may have, told by what a session reads with them.
use crate::hosts::{answers, client_of};
use session_text::{Session, read_sessions};
use std::alloc::Global;
use std::sync::Wait;
use std::test::Fail;
use std::thread::Threads;

// The second word is drawn where the second INSERT asks whether the key is there: an even one finds the state before all transactions.
// The third is drawn where the SELECT asks the same, and picks among that state and the two INSERTs; the fourth is drawn for the value, and
// picks among the writes from there on.
const TWO_ROWS: &str = r"
# the SELECT finds no row
> StartupMessage user=a
+ started
+ table t
+ row (1, 10) with the word 0
> Query INSERT INTO t VALUES (1, 11)
< CommandComplete INSERT 0 1
< ReadyForQuery I
> Query SELECT v FROM t WHERE k = 1
< RowDescription v bigint
< CommandComplete SELECT 0
< ReadyForQuery I
> Terminate

# it finds the first
> StartupMessage user=a
+ started
+ table t
+ row (1, 10) with the word 0
> Query INSERT INTO t VALUES (1, 11)
< CommandComplete INSERT 0 1
< ReadyForQuery I
> Query SELECT v FROM t WHERE k = 1
< RowDescription v bigint
< DataRow 10
< CommandComplete SELECT 1
< ReadyForQuery I
> Terminate

# it finds the second
> StartupMessage user=a
+ started
+ table t
+ row (1, 10) with the word 0
> Query INSERT INTO t VALUES (1, 11)
< CommandComplete INSERT 0 1
< ReadyForQuery I
> Query SELECT v FROM t WHERE k = 1
< RowDescription v bigint
< DataRow 11
< CommandComplete SELECT 1
< ReadyForQuery I
> Terminate

# the second INSERT finds the first, and so does the SELECT
> StartupMessage user=a
+ started
+ table t
+ row (1, 10) with the word 0
> Query INSERT INTO t VALUES (1, 11)
< ErrorResponse ERROR 23505 duplicate key value violates unique constraint
< ReadyForQuery I
> Query SELECT v FROM t WHERE k = 1
< RowDescription v bigint
< DataRow 10
< CommandComplete SELECT 1
< ReadyForQuery I
> Terminate
";

// The places of these sessions.
const NONE: usize = 0;

const TEN: usize = 1;

const ELEVEN: usize = 2;

const TAKEN: usize = 3;

// Lines of `pipe`, with a slash between each two words, and the place of the session that each serves. At the levels above, a session that is
// alone finds what it wrote last, whatever the words are: the first INSERT of the key 1 is found by the second, which fails.
const LINES: [(&str, usize); 10] = [
    // 7, and then 0
    ("pipe/rc/7", NONE),
    // 7 and 8, and then 0
    ("pipe/rc/007,8", NONE),
    // the third word is 1
    ("pipe/rc/4294967295,0,1", TEN),
    // 7 is 1 modulo 3, and 8 is 2
    ("pipe/rc/0,0,7", TEN),
    ("pipe/rc/0,0,008", ELEVEN),
    // 4294967295 is 0 modulo 3, and 1 modulo 2
    ("pipe/rc/0,0,4294967295", NONE),
    ("pipe/rc/0,0,1,4294967295", ELEVEN),
    ("pipe/ra/0", TAKEN),
    ("pipe/cc/7,8,9", TAKEN),
    ("pipe/rc/7", NONE),
];

// Whether the line serves the session.
fn serves<R: Threads + Wait + Eprint + Sync>(
    rt: &R,
    alloc: Global,
    line: &str,
    session: &Session,
) -> Result<bool, Fail> {
    let client = client_of(&session.input, 64);
    Ok(answers(rt, alloc, line, client, 0, &session.sent)?)
}

// Whether the line serves the session at this place.
fn takes<R: Threads + Wait + Eprint + Sync>(
    rt: &R,
    alloc: Global,
    line: &str,
    place: usize,
) -> Result<bool, Fail> {
    let sessions = read_sessions(alloc, TWO_ROWS)?;
    match sessions.get(place) {
        Some(session) => serves(rt, alloc, line, session),
        None => Ok(false),
    }
}

#[test]
fn takes_levels_and_numbers_with_commas(rt: HostRuntime) -> Result<(), Fail> {
    let alloc = rt.alloc();
    for (line, place) in LINES {
        assert!(rt; takes(&rt, alloc, line, place)?);
    }
    Ok(())
}
