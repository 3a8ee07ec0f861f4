// `stop [ADDRESS]`.
ghost use Rattle.std.specs.Prelude.{◌≡◌, option_map, unwrap_or, IfOk};
ghost use Rattle.command_line.specs.Commands.{default_address, GivesStop};

use crate::said::{Said, text_of};
use cell_base::{Memory, Text};
use std::alloc::Global;

/// The text that an argument is given for an address, and where it isn't given, the address that `serve` listens at by itself.
pub fn address_or(alloc: Global, given: Option<&str>) -> Result<Text, Memory>
    ensures { IfOk result (λ address. address ≡ unwrap_or (option_map (λ s. s.now) given.entry) default_address) }
{
    match given {
        Some(text) => text_of(alloc, text),
        None => text_of(alloc, "127.0.0.1:5433"),
    }
}

/// The address that the words give for `stop`.
pub fn stop_of(alloc: Global, said: &Said) -> Result<Text, Memory>
    ensures { IfOk result (λ address. GivesStop said.now address) }
{
    address_or(alloc, said.value("address"))
}
