// Servers with a setup: their clients find the rows that it left, or no door is opened.
use crate::entries::{Entry, Replies, Visit};
use crate::servers::{ONE_WORKER, Server, first_wrong};
use std::test::Fail;

// The row of the fixture, as it is changed last.
const FIXTURE: &str =
    "CREATE TABLE s (k bigint PRIMARY KEY, v bigint); INSERT INTO s VALUES (7, 1); UPDATE s SET v = 8;";

// Its third statement fails.
const FAILS: &str =
    "CREATE TABLE s (k bigint PRIMARY KEY); INSERT INTO s VALUES (7); INSERT INTO s VALUES (7);";

// Two clients that read the row.
const FIRST: &str = r"
> StartupMessage user=a
+ started as session 2
> Query SELECT v FROM s
< RowDescription v bigint
< DataRow 8
< CommandComplete SELECT 1
< ReadyForQuery I
> Terminate
";

const SECOND: &str = r"
> StartupMessage user=a
+ started as session 3
> Query SELECT v FROM s
< RowDescription v bigint
< DataRow 8
< CommandComplete SELECT 1
< ReadyForQuery I
> Terminate
";

// The links of the one door: two clients that read the row.
const VISITS: &[Visit<'static>] = &[
    Visit {
        session: FIRST,
        failing: &[],
        replies: Replies::AsWritten,
    },
    Visit {
        session: SECOND,
        failing: &[],
        replies: Replies::AsWritten,
    },
];

// Session 1 opens, defines the table and closes; each client opens, looks, begins, scans, reads the presence and the field, commits and closes.
const FOUND: Server<'static> = Server {
    file: FIXTURE,
    entries: &[Entry {
        visits: VISITS,
        failing: &[],
    }],
    printed: "served 3 sessions 2 transactions 19 events\n",
    ..ONE_WORKER
};

const SERVERS: &[Server<'static>] = &[
    Server {
        name: "clients find the rows at Read Committed",
        line: "serve/--quiet/--level/rc/--seed/7/--listen/here/--workers/1/--accept/2/--setup/setup",
        ..FOUND
    },
    Server {
        name: "clients find the rows at Read Atomic",
        line: "serve/--quiet/--level/ra/--seed/7/--listen/here/--workers/1/--accept/2/--setup/setup",
        ..FOUND
    },
    Server {
        name: "clients find the rows at Causal Consistency",
        line: "serve/--quiet/--level/cc/--seed/7/--listen/here/--workers/1/--accept/2/--setup/setup",
        ..FOUND
    },
    Server {
        name: "a statement of the setup fails",
        line: "serve/--quiet/--level/rc/--seed/7/--listen/here/--workers/1/--accept/2/--setup/setup",
        file: FAILS,
        opens: false,
        code: 1,
        printed: "",
        ..FOUND
    },
    Server {
        name: "the setup isn't there",
        line: "serve/--quiet/--level/rc/--seed/7/--listen/here/--workers/1/--accept/2/--setup/missing",
        opens: false,
        code: 6,
        printed: "",
        ..FOUND
    },
];

#[test]
fn opens_its_doors_after_a_setup_that_went_well(rt: HostRuntime) -> Result<(), Fail> {
    assert_eq!(rt; first_wrong(&rt, rt.alloc(), SERVERS)?, "");
    Ok(())
}
