//! A mock SQL server that shows what weak isolation permits.
#![tactic(auto)]

ghost use Rattle.std.specs.Prelude.{◌≡◌, ◌≢◌};
ghost use Rattle.std.specs.IoError.{error_kind};

use cell_base::{Text, TextFault};
use doors::TcpNetwork;
use link_traits::StdHost;
use monkey_server::{Status, monkey_main};
use std::io::ErrorKind;
use std::process::ExitCode;
use std::{env, io};

/// The status where memory runs out before the program begins.
const NO_MEMORY: Status = Status { code: 5 };

/// Why the words of the command line can't be had.
#[derive(Clone, Copy, Debug, PartialEq, Eq)]
enum WordsFault {
    /// They aren't text.
    NotText,
    /// Out of memory.
    Memory,
}

// What a fault of the system means for the words.
fn fault_of(fault: &io::Error) -> WordsFault
    ensures memory { error_kind fault.now ≡ ErrorKind.OutOfMemory → result ≡ WordsFault.Memory }
    ensures other { error_kind fault.now ≢ ErrorKind.OutOfMemory → result ≡ WordsFault.NotText }
{
    match fault.kind() {
        ErrorKind::OutOfMemory => WordsFault::Memory,
        _ => WordsFault::NotText,
    }
}

// The words of the command line after the program's own name.
fn words_of(rt: &HostRuntime) -> Result<Vec<Text>, WordsFault> {
    let mut words = Vec::new(rt.alloc());
    let args = match env::args(rt) {
        Ok(args) => args,
        Err(fault) => return Err(fault_of(&fault)),
    };
    for arg in args.skip(1) {
        match Text::from_bytes(rt.alloc(), arg.as_bytes()) {
            Ok(word) => {
                if words.push(word).is_err() {
                    return Err(WordsFault::Memory);
                }
            }
            Err(TextFault::NotUtf8) => return Err(WordsFault::NotText),
            Err(TextFault::Memory) => return Err(WordsFault::Memory),
        }
    }
    Ok(words)
}

fn main(rt: HostRuntime) -> ExitCode {
    let alloc = rt.alloc();
    let mut host = StdHost::new(alloc, &rt, rt.stdin(), rt.stdout());
    let mut network = TcpNetwork::new(&rt, alloc);
    let status = match words_of(&rt) {
        Ok(words) => monkey_main(&rt, alloc, &mut host, &mut network, &words),
        // Words that aren't text are none that the program knows.
        Err(WordsFault::NotText) => monkey_main(&rt, alloc, &mut host, &mut network, &[]),
        Err(WordsFault::Memory) => {
            let _ = eprintln!(rt; "monkeydb: out of memory");
            NO_MEMORY
        }
    };
    ExitCode::from(status.code)
}
