// The clients of a simulation.
ghost use Rattle.std.specs.Prelude.{◌≡◌, ◌≤◌, ◌<◌, length, IfOk, OnOk};
ghost use Rattle.choice_stream.specs.Seeds.{stream_front};
ghost use Rattle.sim_clients.specs.Streams.{DrawsQuery, PutsQueries, AreFirst};
ghost use Rattle.sim_clients.specs.Clients.{IsMaker, IsAsker, AreClients};

use crate::query::{Query, drawn};
use crate::streams::{put_create_table, put_query_message, put_startup, put_terminate};
use cell_base::Memory;
use choice_stream::SeedWords;
use history_book::Words;
use session_hall::Client;
use std::alloc::Global;

// Draws the next query.
fn draw_query(words: &mut SeedWords) -> Query
    ensures { DrawsQuery words.old result words.new }
{
    let first = words.next();
    let second = words.next();
    drawn(first, second)
}

// Draws so many queries and writes their messages.
fn put_queries(
    alloc: Global,
    out: &mut Vec<u8>,
    words: &mut SeedWords,
    queries: u32,
) -> Result<(), Memory>
    ensures { OnOk result (PutsQueries queries words.old out.old.items words.new out.new.items) }
{
    for _ in 0..queries {
        let query = draw_query(words);
        put_query_message(alloc, out, query)?;
    }
    Ok(())
}

// The first so many words of a stream.
fn first_words(alloc: Global, seed: u64, stream: u64, many: u32) -> Result<Vec<u32>, Memory>
    ensures { IfOk result (λ words. AreFirst (stream_front seed stream) many words.items) }
{
    let mut generator = SeedWords::new(seed, stream);
    let mut words = Vec::with_capacity(alloc, many as usize)?;
    for _ in 0..many {
        words.push(generator.next())?;
    }
    Ok(words)
}

// A client that sends these bytes as one piece.
fn client_of(stream: Vec<u8>, words: Vec<u32>) -> Client
    requires { length stream.items < 4294967296 }
    ensures stream { result.stream ≡ stream }
    ensures piece { result.piece ≡ length stream.items }
    ensures words { result.words ≡ words }
{
    Client {
        piece: stream.len() as u32,
        stream,
        words,
    }
}

// The client that makes the table.
fn maker(alloc: Global) -> Result<Client, Memory>
    ensures { IfOk result IsMaker }
{
    let mut stream = Vec::new(alloc);
    put_startup(&mut stream)?;
    put_create_table(&mut stream)?;
    put_terminate(&mut stream)?;
    Ok(client_of(stream, Vec::new(alloc)))
}

// The client of this number, whose queries the generator says next.
fn asker(
    alloc: Global,
    seed: u64,
    number: u32,
    queries: u32,
    generator: &mut SeedWords,
) -> Result<Client, Memory>
    requires { queries ≤ 200 }
    ensures { IfOk result (λ client. IsAsker seed queries number generator.old client generator.new) }
{
    let mut stream = Vec::new(alloc);
    put_startup(&mut stream)?;
    put_queries(alloc, &mut stream, generator, queries)?;
    put_terminate(&mut stream)?;
    let words = first_words(alloc, seed, u64::from(number), 4 * queries)?;
    Ok(client_of(stream, words))
}

/// The clients of a simulation: one that makes the table, and `sessions` others that send `queries` queries each, at most 200. An error is out
/// of memory.
pub fn sim_clients(
    alloc: Global,
    seed: u64,
    sessions: u32,
    queries: u32,
) -> Result<Vec<Client>, Memory>
    requires { queries ≤ 200 }
    ensures { IfOk result (λ clients. AreClients seed sessions queries clients.items) }
{
    let mut generator = SeedWords::new(seed, 0);
    let mut clients = Vec::new(alloc);
    clients.push(maker(alloc)?)?;
    for at in 0..sessions {
        clients.push(asker(alloc, seed, at + 1, queries, &mut generator)?)?;
    }
    Ok(clients)
}
