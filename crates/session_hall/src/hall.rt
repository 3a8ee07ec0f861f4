// The hall.
ghost use Rattle.std.specs.Prelude.{◌≡◌, ◌≢◌, ◌<◌, ◌++◌, ℕ, List, All, Some, None, Ok, IfOk, IfSome, IsNone, length, slice_get};
ghost use Rattle.cell_base.specs.declared.level.Level.{Level as Served};
ghost use Rattle.history_core.specs.Chronicle.{Chronicle, IsLegalChronicle};
ghost use Rattle.block_machine.specs.Script.{has_short};
ghost use Rattle.session_core.specs.Serve.{Account};
ghost use Rattle.session_hall.specs.declared.client.Client.{Client as Known};
ghost use Rattle.session_hall.specs.declared.client.Stepped.TheVariants.{Ended};
ghost use Rattle.session_hall.specs.declared.seat.Seat.{Seat as Kept};
ghost use Rattle.session_hall.specs.Accounts.{nothing};
ghost use Rattle.valid_writes.specs.Beginnings.{empty_history};
ghost use Rattle.session_hall.specs.Halls.{AreSeated, IsSeated, StandsFor, IsHall, IsStep, HasEnded, clients_of};

use crate::asking;
use crate::client::{Client, Stepped};
use crate::seat::Seat;
use block_machine::End;
use cell_base::{Items, Level, Memory};
use choice_stream::ListWords;
use history_core::{History, InitialState};
use session_core::Session;
use std::alloc::Global;
use valid_writes::Store;

/// Many sessions over one history, one call at a time.
#[derive(Debug, Drop)]
pub struct Hall {
    // Away only while a session makes a call.
    store: Option<Store>,
    seats: Vec<Seat>,
}

// A client's seat, of which nothing was heard yet.
fn seat_for(alloc: Global, level: Level, client: Client) -> Result<Seat, Memory>
    requires { 0 < client.piece }
    ensures { IfOk result (λ seat. IsSeated level (empty_history level) client nothing seat) }
{
    let Client {
        stream,
        piece,
        words,
    } = client;
    Ok(Seat {
        session: Session::new(alloc, level)?,
        words: ListWords::new(Items::from_vec(words)),
        stream,
        at: 0,
        piece: piece as usize,
        sent: Vec::new(alloc),
        end: None,
    })
}

// The seats of clients, in order.
fn seats_for(alloc: Global, level: Level, clients: Vec<Client>) -> Result<Vec<Seat>, Memory>
    requires pieces { All (λ (c : Known). 0 < c.piece) clients.items }
    ensures { IfOk result (λ seats. AreSeated level clients.items seats.items) }
{
    let mut seats = Vec::new(alloc);
    for client in clients {
        seats.push(seat_for(alloc, level, client)?)?;
    }
    Ok(seats)
}

impl Hall {
    /// A hall at a level, over a history without a row at first and without an event. Nothing was heard of any client yet. Clients have
    /// numbers from 0. An error is out of memory.
    pub fn new(alloc: Global, level: Level, clients: Vec<Client>) -> Result<Hall, Memory>
        requires pieces { All (λ (c : Known). 0 < c.piece) clients.items }
        ensures stands { IfOk result (λ hall. StandsFor level (empty_history level) clients.items (λ k. nothing) hall) }
        ensures hall { IfOk result IsHall }
        ensures range { IfOk result (λ hall. clients_of hall ≡ length clients.items) }
    {
        let store = Store::new(alloc, level, InitialState::empty(alloc))?;
        // Only for its contract: the history is legal.
        let _ = store.history();
        Ok(Hall {
            store: Some(store),
            seats: seats_for(alloc, level, clients)?,
        })
    }

    /// Lets a client go on until its session has made one call of its book, or has ended; all that is then due is sent. `Ended` comes exactly where the client has ended. Where room for a reply can't be had the answer is an error: that
    /// client's session is stopped as by a failed write, leaves its book, and its end is `Memory`.
    pub fn step(&mut self, client: u32) -> Result<Stepped, Memory>
        requires hall { IsHall self.old }
        requires range { client < clients_of self.old }
        ensures step { (level : Served) (history : Chronicle) (clients : List Known) (accounts : ℕ → Account) →
            StandsFor level history clients accounts self.old → IsStep clients accounts history client result level self.new }
        ensures others { (k : ℕ) → k ≢ client → slice_get self.new.seats.items k ≡ slice_get self.old.seats.items k }
        ensures ended { HasEnded self.old client → (result ≡ Ok Ended) × (self.new ≡ self.old) }
        ensures hall { IsHall self.new }
        ensures range { clients_of self.new ≡ clients_of self.old }
    {
        if self.seats[client as usize].end.is_some() {
            return Ok(Stepped::Ended);
        }
        asking::step(&mut self.store, &mut self.seats[client as usize])
    }

    /// What a client was sent.
    pub fn sent(&self, client: u32) -> &[u8]
        requires { client < clients_of self.now }
        ensures { (level : Served) (history : Chronicle) (clients : List Known) (accounts : ℕ → Account) →
            StandsFor level history clients accounts self.now → (accounts client).sent ≡ result.now ++ (accounts client).lost }
    {
        self.seats[client as usize].sent.as_slice()
    }

    /// How a client's session ended, if it has.
    pub fn end(&self, client: u32) -> Option<&End>
        requires { client < clients_of self.now }
        ensures some { IfSome result (λ end. (seat : Kept) → slice_get self.now.seats.items client ≡ Some seat → seat.end ≡ Some end.now) }
        ensures none { IsNone result → (seat : Kept) → slice_get self.now.seats.items client ≡ Some seat → seat.end ≡ None }
    {
        self.seats[client as usize].end.as_ref()
    }

    /// Whether memory ran out in a client's session.
    pub fn short(&self, client: u32) -> bool
        requires { client < clients_of self.now }
        ensures { (level : Served) (history : Chronicle) (clients : List Known) (accounts : ℕ → Account) →
            StandsFor level history clients accounts self.now → result ≡ has_short (accounts client).entries }
    {
        self.seats[client as usize].session.is_short()
    }

    /// The one history, which is legal.
    pub fn history(&self) -> &History
        requires { IsHall self.now }
        ensures is { self.now.store ≡ Some result.now }
        ensures legal { IsLegalChronicle result.now }
    {
        self.store().history()
    }

    /// The store of the one history, which tells the order of its transactions too.
    pub fn store(&self) -> &Store
        requires { IsHall self.now }
        ensures is { self.now.store ≡ Some result.now }
    {
        match &self.store {
            Some(store) => store,
            None => unreachable!(),
        }
    }
}
