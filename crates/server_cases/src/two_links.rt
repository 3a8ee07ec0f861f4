// A server of one worker: what its two links are sent, and what it prints.
use crate::entries::{Entry, Replies, Visit};
use crate::servers::{ONE_WORKER, Server, first_wrong};
use std::test::Fail;

// A client makes a table. Another one finds the table of the first.
const MADE: &str = r"
> StartupMessage user=a
+ started
> Query CREATE TABLE s (k bigint PRIMARY KEY)
< CommandComplete CREATE TABLE
< ReadyForQuery I
> Terminate
";

const TAKEN: &str = r"
> StartupMessage user=a
+ started as session 2
> Query CREATE TABLE s (k bigint PRIMARY KEY)
< ErrorResponse ERROR 42P07 relation already exists
< ReadyForQuery I
> Terminate
";

const VISITS: &[Visit<'static>] = &[
    Visit {
        session: MADE,
        failing: &[],
        replies: Replies::AsWritten,
    },
    Visit {
        session: TAKEN,
        failing: &[],
        replies: Replies::AsWritten,
    },
];

// Each session opens, defines the table or looks at it, and closes.
const SERVERS: &[Server<'static>] = &[Server {
    name: "two links over one history",
    line: "serve/--quiet/--level/cc/--seed/7/--listen/here/--workers/1/--accept/2",
    entries: &[Entry {
        visits: VISITS,
        failing: &[],
    }],
    printed: "served 2 sessions 0 transactions 6 events\n",
    ..ONE_WORKER
}];

#[test]
fn serves_two_links_over_one_history(rt: HostRuntime) -> Result<(), Fail> {
    assert_eq!(rt; first_wrong(&rt, rt.alloc(), SERVERS)?, "");
    Ok(())
}
