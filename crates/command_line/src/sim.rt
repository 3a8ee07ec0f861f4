// `sim LEVEL SEED SESSIONS QUERIES`.
ghost use Rattle.std.specs.Prelude.{◌≡◌, ℕ, List, Option, IfOk, IfSome, IsNone, codes};
ghost use Rattle.cell_base.specs.declared.level.Level.{Level as Served};
ghost use Rattle.clap.specs.Words.{first_of};
ghost use Rattle.command_line.specs.Commands.{GivesSim};

use crate::given::{level_given, number_given, up_to_given};
use crate::said::{Said, text_or_none};
use cell_base::{Level, Memory, Text};
use std::alloc::Global;

/// What `sim LEVEL SEED SESSIONS QUERIES` simulates.
#[derive(Debug, Drop)]
pub struct SimPlan {
    pub level: Level,
    pub seed: u64,
    /// How many sessions there are, from 1 to 64.
    pub sessions: u32,
    /// How many queries each sends, from 1 to 200.
    pub queries: u32,
    /// The path of the log, where one is asked for.
    pub log: Option<Text>,
}

// What the words give for the places of `sim`.
#[derive(Clone, Copy)]
struct Places {
    level: Level,
    seed: u64,
    sessions: u32,
    queries: u32,
}

// The places of `sim`. `None` comes exactly where one says something else.
fn places_of(said: &Said) -> Option<Places>
    ensures some { IfSome result (λ x. (log : Option (List ℕ)) → log ≡ first_of (codes "log") said.now →
        GivesSim said.now x.level x.seed x.sessions x.queries log) }
    ensures none { IsNone result → (level : Served) (seed sessions queries : ℕ) (log : Option (List ℕ)) →
        ¬ (GivesSim said.now level seed sessions queries log) }
{
    Some(Places {
        level: level_given(said.value("level"))?,
        seed: number_given(said.value("seed"))?,
        sessions: up_to_given(64, said.value("sessions"))?,
        queries: up_to_given(200, said.value("queries"))?,
    })
}

/// What the words give for `sim`. `None` comes exactly where they don't give each of its places.
pub fn sim_of(alloc: Global, said: &Said) -> Result<Option<SimPlan>, Memory>
    ensures some { IfOk result (λ found. IfSome found (λ plan. GivesSim said.now plan.level plan.seed plan.sessions plan.queries plan.log)) }
    ensures none { IfOk result (λ found. IsNone found → (level : Served) (seed sessions queries : ℕ) (log : Option (List ℕ)) →
        ¬ (GivesSim said.now level seed sessions queries log)) }
{
    let Some(places) = places_of(said) else {
        return Ok(None);
    };
    let log = text_or_none(alloc, said.value("log"))?;
    Ok(Some(SimPlan {
        level: places.level,
        seed: places.seed,
        sessions: places.sessions,
        queries: places.queries,
        log,
    }))
}
