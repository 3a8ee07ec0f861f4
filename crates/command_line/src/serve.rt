// `serve` with its options.
ghost use Rattle.std.specs.Prelude.{ℕ, IfOk, IfSome, IsNone, codes};
ghost use Rattle.cell_base.specs.declared.level.Level.{Level as Served};
ghost use Rattle.clap.specs.Words.{first_of};
ghost use Rattle.command_line.specs.Commands.{GivesNumbers, IsProgress, GivesServe};
ghost use Rattle.command_line.specs.declared.serve.ServeOptions.{ServeOptions as Options};

use crate::given::{level_or, number_or, up_to_or};
use crate::said::{Said, text_or_none};
use crate::stop::address_or;
use cell_base::{Level, Memory, Text};
use std::alloc::Global;

/// Whether `serve` tells how it goes on.
#[derive(Clone, Copy, Debug, PartialEq, Eq)]
pub enum Progress {
    Told,
    /// As `--quiet` asks.
    Quiet,
}

/// The options of `serve`.
#[derive(Debug, Drop)]
pub struct ServeOptions {
    /// The level of sessions that set none.
    pub level: Level,
    /// The seed of the choice words.
    pub seed: u64,
    /// The address to listen at.
    pub listen: Text,
    /// How many workers there are, from 1 to 64.
    pub workers: u32,
    /// How many links each worker serves, from 1 to 4,096.
    pub accept: u32,
    /// The path of the log, where one is asked for.
    pub log: Option<Text>,
    /// The path of the statements that set up what the server holds, where one is given.
    pub setup: Option<Text>,
    pub progress: Progress,
}

// The level and the numbers that the words give for `serve`.
#[derive(Clone, Copy)]
struct Numbers {
    level: Level,
    seed: u64,
    workers: u32,
    accept: u32,
}

// The level and the numbers of `serve`. `None` comes exactly where one says something else.
fn numbers_of(said: &Said) -> Option<Numbers>
    ensures some { IfSome result (λ x. GivesNumbers said.now x.level x.seed x.workers x.accept) }
    ensures none { IsNone result → (level : Served) (seed workers accept : ℕ) → ¬ (GivesNumbers said.now level seed workers accept) }
{
    Some(Numbers {
        level: level_or(Level::Rc, said.value("level"))?,
        seed: number_or(0, said.value("seed"))?,
        workers: up_to_or(16, 64, said.value("workers"))?,
        accept: up_to_or(64, 4096, said.value("accept"))?,
    })
}

// Whether `serve` tells how it goes on.
fn progress_of(said: &Said) -> Progress
    ensures { IsProgress (first_of (codes "quiet") said.now) result }
{
    if said.value("quiet") == Some("true") {
        Progress::Quiet
    } else {
        Progress::Told
    }
}

/// What the words give for `serve`. `None` comes exactly where the text of an option says no level, or no number inside its range.
pub fn serve_of(alloc: Global, said: &Said) -> Result<Option<ServeOptions>, Memory>
    ensures some { IfOk result (λ found. IfSome found (λ options. GivesServe said.now options)) }
    ensures none { IfOk result (λ found. IsNone found → (options : Options) → ¬ (GivesServe said.now options)) }
{
    let Some(numbers) = numbers_of(said) else {
        return Ok(None);
    };
    let listen = address_or(alloc, said.value("listen"))?;
    let log = text_or_none(alloc, said.value("log"))?;
    let setup = text_or_none(alloc, said.value("setup"))?;
    Ok(Some(ServeOptions {
        level: numbers.level,
        seed: numbers.seed,
        listen,
        workers: numbers.workers,
        accept: numbers.accept,
        log,
        setup,
        progress: progress_of(said),
    }))
}
