// The command `sim LEVEL SEED SESSIONS QUERIES`.
ghost use Rattle.std.specs.Prelude.{◌≡◌, ◌<◌, ◌≤◌, ◌+◌, ℕ, List, true, false, Some, IfOk, IfErr, OnOk};
ghost use Rattle.cell_base.specs.declared.level.Level.{Level as Served};
ghost use Rattle.link_traits.specs.Host.{objects_out};
ghost use Rattle.history_core.specs.Chronicle.{Chronicle};
ghost use Rattle.block_machine.specs.Script.{has_short};
ghost use Rattle.session_hall.specs.Halls.{IsHall, clients_of};
ghost use Rattle.session_hall.specs.declared.client.Client.{Client};
ghost use Rattle.sim_command.specs.Runs.{Moment};
ghost use Rattle.sim_command.specs.Simulations.{numbers_from, IsSchedule, IsFront, IsSimulation, IsCutOff, Simulates};
ghost use Rattle.sim_command.specs.Playing.{StandsAt, Goes, IsNewHall};

use crate::playing::{SimFault, go_to_end, play};
use cell_base::{Level, Memory, Text};
use choice_stream::SeedWords;
use held_values::{kept, without};
use history_summary::summary;
use host_calls::Status;
use link_traits::Host;
use log_file::log_and_print;
use session_hall::Hall;
use sim_clients::sim_clients;
use std::alloc::Global;

/// The stream of the seed that says whose step it is.
const SCHEDULE: u64 = 65;

/// What is simulated.
#[derive(Clone, Copy, Debug, PartialEq, Eq)]
pub struct Plan {
    pub level: Level,
    pub seed: u64,
    /// How many sessions there are beside the one that makes the table, from 1 to 64.
    pub sessions: u32,
    /// How many queries each sends, from 1 to 200.
    pub queries: u32,
}

// The numbers from 1 to this one.
fn numbers_to(alloc: Global, many: u32) -> Result<Vec<u32>, Memory>
    requires { many < 4294967295 }
    ensures { IfOk result (λ numbers. numbers.items ≡ numbers_from 1 many) }
{
    let mut numbers = Vec::with_capacity(alloc, many as usize)?;
    for number in 0..many {
        numbers.push(number + 1)?;
    }
    Ok(numbers)
}

// Whether memory ran out in none of the first so many clients' sessions.
fn are_at_rest(hall: &Hall, many: u32) -> bool
    requires { many ≤ clients_of hall.now }
    ensures { result ≡ true → (level : Served) (clients : List Client) (moment : Moment) → StandsAt level clients moment hall.now → (k : ℕ) → k < many →
        has_short (moment.accounts k).entries ≡ false }
{
    for client in 0..many {
        if hall.short(client) {
            return false;
        }
    }
    true
}

// A hall of the clients of the seed, of which nothing was heard yet.
fn new_hall(alloc: Global, plan: Plan) -> Result<Hall, Memory>
    requires { plan.queries ≤ 200 }
    ensures new { IfOk result (IsNewHall plan.level plan.seed plan.sessions plan.queries) }
    ensures hall { IfOk result IsHall }
    ensures count { IfOk result (λ hall. clients_of hall ≡ plan.sessions + 1) }
{
    let clients = sim_clients(alloc, plan.seed, plan.sessions, plan.queries)?;
    Hall::new(alloc, plan.level, clients)
}

// Lets all clients go on to their ends, in the order of the seed.
fn play_all(alloc: Global, hall: &mut Hall, plan: Plan, left: &mut u32) -> Result<(), SimFault>
    requires hall { IsHall hall.old }
    requires count { clients_of hall.old ≡ plan.sessions + 1 }
    requires sessions { plan.sessions ≤ 64 }
    ensures ok { OnOk result (Goes (IsSchedule plan.seed plan.sessions) left.old hall.old left.new hall.new) }
    ensures hall { IsHall hall.new }
    ensures range { clients_of hall.new ≡ clients_of hall.old }
    ensures cut { IfErr result (λ e. e ≡ SimFault.Steps → (left.new ≡ 0) × Goes (IsFront plan.seed plan.sessions) left.old hall.old left.new hall.new) }
{
    match go_to_end(hall, 0, left) {
        Ok(()) => {}
        Err(fault) => return Err(fault),
    }
    let Ok(mut going) = numbers_to(alloc, plan.sessions) else {
        return Err(SimFault::Memory);
    };
    let mut words = SeedWords::new(plan.seed, SCHEDULE);
    match play(hall, &mut going, &mut words, left) {
        Ok(()) => Ok(()),
        Err(fault) => Err(fault),
    }
}

// Lets all clients of a new hall go on to their ends, in as many steps as are made at most.
fn play_out(alloc: Global, hall: &mut Hall, plan: Plan) -> Result<(), SimFault>
    requires hall { IsHall hall.old }
    requires count { clients_of hall.old ≡ plan.sessions + 1 }
    requires sessions { plan.sessions ≤ 64 }
    requires new { IsNewHall plan.level plan.seed plan.sessions plan.queries hall.old }
    ensures ok { OnOk result ((history : Chronicle) → hall.new.store ≡ Some history → IsSimulation plan.level plan.seed plan.sessions plan.queries history) }
    ensures hall { IsHall hall.new }
    ensures cut { IfErr result (λ e. e ≡ SimFault.Steps → IsCutOff plan.level plan.seed plan.sessions plan.queries) }
{
    let mut left = u32::MAX;
    match play_all(alloc, hall, plan, &mut left) {
        Ok(()) => {}
        Err(fault) => return Err(fault),
    }
    if are_at_rest(hall, plan.sessions + 1) {
        Ok(())
    } else {
        Err(SimFault::Memory)
    }
}

// The hall after all its clients have ended.
fn played(alloc: Global, plan: Plan) -> Result<Hall, SimFault>
    requires queries { plan.queries ≤ 200 }
    requires sessions { plan.sessions ≤ 64 }
    ensures ok { IfOk result (λ hall. (history : Chronicle) → hall.store ≡ Some history → IsSimulation plan.level plan.seed plan.sessions plan.queries history) }
    ensures hall { IfOk result IsHall }
    ensures cut { IfErr result (λ e. e ≡ SimFault.Steps → IsCutOff plan.level plan.seed plan.sessions plan.queries) }
{
    let mut hall = new_hall(alloc, plan)?;
    let step = play_out(alloc, &mut hall, plan);
    kept(hall, step)
}

// Writes the log of a hall's history to the file of a path, where one is given, and prints its summary.
fn tell<H: Host>(alloc: Global, host: &mut H, plan: Plan, log: &Option<Text>, hall: &Hall) -> Status
    requires hall { IsHall hall.now }
    requires simulation { (history : Chronicle) → hall.now.store ≡ Some history → IsSimulation plan.level plan.seed plan.sessions plan.queries history }
    requires none_out { objects_out (H.hosted host.old) ≡ 0 }
    ensures simulates { Simulates plan.level plan.seed plan.sessions plan.queries log.now (H.hosted host.old) result.code (H.hosted host.new) }
    ensures none_out { objects_out (H.hosted host.new) ≡ 0 }
{
    match summary(alloc, plan.level, plan.seed, hall.history()) {
        Ok(line) => log_and_print(alloc, host, log, hall.store(), &line),
        Err(Memory) => Status { code: 5 },
    }
}

/// Simulates many sessions over one history, writes its log to the file of a path, where one is given, and prints its summary.
///
/// The status is 0 where all was written whole; 1 where 4,294,967,295 steps were made; 4 where a write failed; 5 where memory ran out,
/// also inside a session: then no summary is printed; and 6 where the file couldn't be made. What is wrong with the log stands before what is
/// wrong with the summary, which is printed all the same.
pub fn simulate<H: Host>(alloc: Global, host: &mut H, plan: Plan, log: &Option<Text>) -> Status
    requires queries { plan.queries ≤ 200 }
    requires sessions { plan.sessions ≤ 64 }
    requires none_out { objects_out (H.hosted host.old) ≡ 0 }
    ensures simulates { Simulates plan.level plan.seed plan.sessions plan.queries log.now (H.hosted host.old) result.code (H.hosted host.new) }
    ensures none_out { objects_out (H.hosted host.new) ≡ 0 }
{
    match played(alloc, plan) {
        Ok(hall) => {
            let status = tell(alloc, host, plan, log, &hall);
            without(hall, status)
        }
        Err(SimFault::Steps) => Status { code: 1 },
        Err(SimFault::Memory) => Status { code: 5 },
    }
}
