//! Threads that take turns at a turn lock.
ghost use Rattle.std.specs.Prelude.{◌≡◌, ◌<◌};
ghost use Rattle.turn_lock.specs.Passes.{PassValue};

use std::alloc::Global;
use std::sync::Wait;
use std::thread::{Threads, join};
use turn_lock::{Logged, Pass, Turn, TurnLock};

// A number that threads count up. It stands for no entries.
#[derive(Drop)]
struct Tally {
    count: u64,
}

impl Logged for Tally {
    type Entry = ();

    ghost use Rattle.std.specs.Prelude.{[]};

    ghost entries = { λ _. [] };

    ghost key = { λ _. 0 };
}

// The call that is measured: it counts one.
struct Tick;

impl Turn<Tally, ()> for Tick {
    type Answer = ();

    ghost use Rattle.std.specs.Prelude.{◌≡◌, ◌+◌, ◌%◌, ◌^◌};

    ghost needs = { λ _ _. Unit {0} };

    ghost does = { λ _ x _ _ y _. y.count ≡ (x.count + 1) % 2 ^ 64 };

    fn run(self, state: &mut Tally, _: &mut ()) {
        let Tick = self;
        state.count = state.count.wrapping_add(1);
    }
}

fn in_one<R: Wait>(rt: &R, lock: &TurnLock<Tally>, mut pass: Pass<Tally>, turns: u32) -> Pass<Tally>
    requires { pass.lock ≡ lock.now }
    ensures { (result.lock ≡ pass.lock) × (result.parts ≡ pass.parts) }
{
    for _ in 0..turns {
        lock.with_turn(rt, &mut pass, Tick, &mut ());
    }
    pass
}

// So many further threads, and this one.
#[cycle(turning)]
fn in_many<R: Threads + Wait + Sync>(
    rt: &R,
    lock: &TurnLock<Tally>,
    mut pass: Pass<Tally>,
    further: u32,
    turns: u32,
) -> Pass<Tally>
    requires { (pass.lock ≡ lock.now) × (further < pass.parts) }
    ensures { (result.lock ≡ pass.lock) × (result.parts ≡ pass.parts) }
{
    if further == 0 {
        return in_one(rt, lock, pass, turns);
    }
    let rest = further - 1;
    let other = lock.split(&mut pass);
    let (mut pass, other) = join(
        rt,
        ||
            requires { (pass.lock ≡ lock.now) × (rest < pass.parts) }
            ensures { (result.lock ≡ pass.lock) × (result.parts ≡ pass.parts) }
        { in_many(rt, lock, pass, rest, turns) },
        || in_one(rt, lock, other, turns),
    );
    lock.join(&mut pass, other);
    pass
}

/// Each thread takes that many turns, and the answer is how many were counted. `None` when out of memory.
pub fn count_turns<R: Threads + Wait + Sync>(
    rt: &R,
    alloc: Global,
    threads: u32,
    turns: u32,
) -> Option<u64> {
    let (lock, pass) = TurnLock::new(alloc, Tally { count: 0 }).ok()?;
    let further = threads.saturating_sub(1);
    let pass = in_many(rt, &lock, pass, further, turns);
    Some(lock.close(pass).count)
}
