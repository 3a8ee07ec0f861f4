// `check [--wide] PATH` and `judge PATH`.
ghost use Rattle.std.specs.Prelude.{◌≡◌, ℕ, List, option_map, Some, IfOk, IfSome, IsNone, codes};
ghost use Rattle.clap.specs.Words.{first_of};
ghost use Rattle.command_line.specs.Commands.{IsFlag};

use crate::said::{Said, text_or_none};
use cell_base::{Memory, Text};
use std::alloc::Global;

/// The path that the words give.
pub fn path_of(alloc: Global, said: &Said) -> Result<Option<Text>, Memory>
    ensures some { IfOk result (λ found. IfSome found (λ path. first_of (codes "path") said.now ≡ Some path)) }
    ensures none { IfOk result (λ found. IsNone found → (path : List ℕ) → ¬ (first_of (codes "path") said.now ≡ Some path)) }
{
    text_or_none(alloc, said.value("path"))
}

/// Whether the flag `--wide` stands among the words.
pub fn is_wide(said: &Said) -> bool
    ensures { IsFlag (first_of (codes "wide") said.now) result }
{
    if said.value("wide") == Some("true") {
        true
    } else {
        false
    }
}
