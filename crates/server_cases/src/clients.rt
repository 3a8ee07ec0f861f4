// The clients of a simulation. The first words of the streams 0 and 1 of the seed 7 are known from another program that has the cipher from its
// description: 3118702321, 1150829157, 816813796 and 231462414, and 4149969449, 4234461783, 1222979498 and 1102806579.
use session_hall::Client;
use session_text::request_bytes;
use sim_clients::sim_clients;
use std::alloc::Global;
use std::test::Fail;

// The client that makes the table.
const MAKER: &str = r"
> StartupMessage user=sim
> Query CREATE TABLE t (k bigint PRIMARY KEY, v bigint)
> Terminate
";

// 3118702321 is 1 more than a multiple of 8, so the first key is 2; 1150829157 is 1 more than a multiple of 4, so one is added. 816813796 is 4
// more than a multiple of 8, so the second key is 5; 231462414 is 2 more than a multiple of 4, so it is read.
const ASKER: &str = r"
> StartupMessage user=sim
> Query UPDATE t SET v = v + 1 WHERE k = 2
> Query SELECT v FROM t WHERE k = 5
> Terminate
";

// Whether the client sends the table's query and no other, and draws no words.
fn makes_the_table(alloc: Global, client: &Client) -> Result<bool, Fail> {
    let maker = request_bytes(alloc, MAKER)?;
    Ok(client.stream.as_slice() == maker.as_slice() && client.words.is_empty())
}

// Whether the client sends the two queries, and has eight words, of which these are the first.
fn asks_twice(alloc: Global, client: &Client) -> Result<bool, Fail> {
    let asker = request_bytes(alloc, ASKER)?;
    let words = client.words.as_slice();
    Ok(
        client.stream.as_slice() == asker.as_slice()
            && words.len() == 8
            && words.starts_with(&[4_149_969_449, 4_234_461_783, 1_222_979_498, 1_102_806_579]),
    )
}

// Whether these are the two.
fn are_right(alloc: Global, clients: &[Client]) -> Result<bool, Fail> {
    match clients {
        [maker, asker] => Ok(makes_the_table(alloc, maker)? && asks_twice(alloc, asker)?),
        _ => Ok(false),
    }
}

#[test]
fn makes_clients_of_a_seed(rt: HostRuntime) -> Result<(), Fail> {
    let alloc = rt.alloc();
    let clients = sim_clients(alloc, 7, 1, 2)?;
    assert!(rt; are_right(alloc, clients.as_slice())?);
    Ok(())
}
