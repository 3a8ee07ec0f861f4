// `pipe LEVEL WORDS`.
ghost use Rattle.std.specs.Prelude.{◌≡◌, ℕ, List, option_map, IfOk, IfSome, IsNone, IsSomeAnd};
ghost use Rattle.cell_base.specs.declared.level.Level.{Level as Served};
ghost use Rattle.command_line.specs.Numbers.{Lists};
ghost use Rattle.command_line.specs.Commands.{GivesPipe};

use crate::given::level_given;
use crate::number_lists::words_of;
use crate::said::Said;
use cell_base::{Items, Level, Memory};
use std::alloc::Global;

/// The command `pipe LEVEL WORDS`.
#[derive(Debug, Drop)]
pub struct PipeCommand {
    pub level: Level,
    /// The choice words of the session.
    pub words: Items<u32>,
}

// The numbers that the text lists.
fn words_given(alloc: Global, given: Option<&str>) -> Result<Option<Items<u32>>, Memory>
    ensures some { IfOk result (λ found. IfSome found (λ words. IsSomeAnd (option_map (λ s. s.now) given.entry) (λ text. Lists text words))) }
    ensures none { IfOk result (λ found. IsNone found → (words : List ℕ) → ¬ (IsSomeAnd (option_map (λ s. s.now) given.entry) (λ text. Lists text words))) }
{
    match given {
        Some(text) => words_of(alloc, text.as_bytes()),
        None => Ok(None),
    }
}

/// What the words give for `pipe`. `None` comes exactly where they give no level or no list of numbers.
pub fn pipe_of(alloc: Global, said: &Said) -> Result<Option<PipeCommand>, Memory>
    ensures some { IfOk result (λ found. IfSome found (λ pipe. GivesPipe said.now pipe.level pipe.words)) }
    ensures none { IfOk result (λ found. IsNone found → (level : Served) (words : List ℕ) → ¬ (GivesPipe said.now level words)) }
{
    let Some(level) = level_given(said.value("level")) else {
        return Ok(None);
    };
    match words_given(alloc, said.value("words"))? {
        Some(words) => Ok(Some(PipeCommand { level, words })),
        None => Ok(None),
    }
}
