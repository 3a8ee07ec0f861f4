// Plays a hall, step by step.
ghost use Rattle.std.specs.Prelude.{◌≡◌, ◌<◌, ◌≤◌, ◌+◌, [], ℕ, All, length, IfOk, IfErr, OnOk};
ghost use Rattle.session_hall.specs.Halls.{IsHall, clients_of};
ghost use Rattle.sim_command.specs.Simulations.{GoesOn, GoesToEnd, AreDrawn, AreDrawnFirst};
ghost use Rattle.sim_command.specs.Playing.{Goes, IsStepOf, IsPicked, AreNone};

use cell_base::Memory;
use choice_stream::SeedWords;
use history_book::Words;
use session_hall::{Hall, Stepped};
use thiserror::Error;

/// Why a simulation doesn't come to its end.
#[derive(Clone, Copy, Debug, PartialEq, Eq, Error)]
pub enum SimFault {
    /// As many steps were made as are made at most.
    #[error("4,294,967,295 steps were made, which is the limit")]
    Steps,
    /// Out of memory, in the simulation or in one of its sessions.
    #[error("out of memory")]
    Memory,
}

impl From<Memory> for SimFault {
    ghost use Rattle.std.specs.Prelude.{◌≡◌};
    ghost use Rattle.sim_command.specs.declared.playing.SimFault.TheVariants as faults;

    ghost from_gives = { λ _ e. e ≡ faults.Memory };

    fn from(_: Memory) -> Self {
        SimFault::Memory
    }
}

// A step of a client, where one is left.
fn step(hall: &mut Hall, client: u32, left: &mut u32) -> Result<Stepped, SimFault>
    requires hall { IsHall hall.old }
    requires range { client < clients_of hall.old }
    ensures ok { IfOk result (λ stepped. Goes (IsStepOf client stepped) left.old hall.old left.new hall.new) }
    ensures fewer { OnOk result (left.new < left.old) }
    ensures hall { IsHall hall.new }
    ensures range { clients_of hall.new ≡ clients_of hall.old }
    ensures cut { IfErr result (λ e. e ≡ SimFault.Steps → (left.new ≡ 0) × Goes AreNone left.old hall.old left.new hall.new) }
{
    if *left == 0 {
        return Err(SimFault::Steps);
    }
    *left -= 1;
    let stepped = hall.step(client)?;
    Ok(stepped)
}

/// Lets a client go on to its end.
pub fn go_to_end(hall: &mut Hall, client: u32, left: &mut u32) -> Result<(), SimFault>
    requires hall { IsHall hall.old }
    requires range { client < clients_of hall.old }
    ensures ok { OnOk result (Goes (GoesToEnd client) left.old hall.old left.new hall.new) }
    ensures hall { IsHall hall.new }
    ensures range { clients_of hall.new ≡ clients_of hall.old }
    ensures cut { IfErr result (λ e. e ≡ SimFault.Steps → (left.new ≡ 0) × Goes (GoesOn client) left.old hall.old left.new hall.new) }
{
    loop {
        match step(hall, client, left) {
            Ok(Stepped::Called) => {}
            Ok(Stepped::Ended) => return Ok(()),
            Err(fault) => return Err(fault),
        }
    }
}

// A step of the client that the word picks of those that go on, who are not none. Where it has ended it is taken out.
fn step_picked(
    hall: &mut Hall,
    going: &mut Vec<u32>,
    word: u32,
    left: &mut u32,
) -> Result<(), SimFault>
    requires hall { IsHall hall.old }
    requires some { 0 < length going.old.items }
    requires range { All (λ k. k < clients_of hall.old) going.old.items }
    ensures ok { OnOk result (Goes (IsPicked word going.old.items going.new.items) left.old hall.old left.new hall.new) }
    ensures fewer { OnOk result (left.new < left.old) }
    ensures going { OnOk result (All (λ k. k < clients_of hall.new) going.new.items) }
    ensures hall { IsHall hall.new }
    ensures range { clients_of hall.new ≡ clients_of hall.old }
    ensures cut { IfErr result (λ e. e ≡ SimFault.Steps → (left.new ≡ 0) × Goes AreNone left.old hall.old left.new hall.new) }
{
    let at = word as usize % going.len();
    match step(hall, going[at], left)? {
        Stepped::Called => {}
        Stepped::Ended => {
            going.remove(at);
        }
    }
    Ok(())
}

/// Lets the clients go on until all have ended, each time the one that the next word picks.
pub fn play(
    hall: &mut Hall,
    going: &mut Vec<u32>,
    words: &mut SeedWords,
    left: &mut u32,
) -> Result<(), SimFault>
    requires hall { IsHall hall.old }
    requires range { All (λ k. k < clients_of hall.old) going.old.items }
    ensures ok { OnOk result (Goes (AreDrawn words.old going.old.items) left.old hall.old left.new hall.new) }
    ensures hall { IsHall hall.new }
    ensures range { clients_of hall.new ≡ clients_of hall.old }
    ensures cut { IfErr result (λ e. e ≡ SimFault.Steps → (left.new ≡ 0) × Goes (AreDrawnFirst words.old going.old.items) left.old hall.old left.new hall.new) }
{
    while !going.is_empty() {
        match step_picked(hall, going, words.next(), left) {
            Ok(()) => {}
            Err(fault) => return Err(fault),
        }
    }
    Ok(())
}
