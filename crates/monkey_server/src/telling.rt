// Lines on standard error that name the cause of a status. They are for people, and no clause says which words stand in them.
use cell_base::Text;
use command_help::complaint;
use command_line::CommandLine;
use host_calls::{Object, Objects, Status, tell_fault, tell_memory, tell_status};
use session_core::{End, Served};
use std::alloc::Global;
use std::io;

// The output, as a line names it.
fn output<'a>() -> Object<'a> {
    Object::named("standard output")
}

/// Tells why a command that reads a file and prints its line ended with its status.
pub fn tell_file<R: Eprint>(
    rt: &R,
    alloc: Global,
    command: &str,
    path: &Text,
    reason: Option<io::Error>,
    status: Status,
) {
    let file = Object::named(path.as_str());
    let objects = Objects {
        read: file,
        written: output(),
        asked: file,
    };
    tell_status(rt, alloc, command, objects, reason, status.code);
}

/// Tells why a text that the program says of itself wasn't printed whole.
pub fn tell_output<R: Eprint>(rt: &R, alloc: Global, reason: Option<io::Error>, status: Status) {
    if status.code == 4 {
        tell_fault(rt, alloc, "monkeydb", output(), reason, "a write failed");
    }
}

/// Tells why a simulation ended with its status.
pub fn tell_sim<R: Eprint>(
    rt: &R,
    alloc: Global,
    log: &Option<Text>,
    reason: Option<io::Error>,
    status: Status,
) {
    let (asked, written) = match log {
        Some(path) => {
            let file = Object::of_option("--log ", path.as_str());
            let either = Object {
                after: ", or standard output",
                ..file
            };
            (file, either)
        }
        None => (output(), output()),
    };
    let objects = Objects {
        read: output(),
        written,
        asked,
    };
    if status.code == 1 {
        let _ = eprintln!(rt; "sim: more steps were wanted than are made");
    } else {
        tell_status(rt, alloc, "sim", objects, reason, status.code);
    }
}

// Tells what a client did wrong.
fn tell_input<R: Eprint>(rt: &R, what: &str) {
    let _ = eprintln!(rt; "pipe: {what}");
}

/// Tells why the session of `pipe` didn't end well.
pub fn tell_end<R: Eprint>(rt: &R, alloc: Global, reason: Option<io::Error>, served: Served) {
    if served.short {
        return tell_memory(rt, "pipe");
    }
    match served.end {
        End::Terminated | End::Closed | End::Cancelled => {}
        End::Cut => tell_input(rt, "the input was cut short"),
        End::Protocol(_) => tell_input(rt, "the input is no messages of the protocol"),
        End::Refused(_) => tell_input(rt, "the start was refused"),
        End::Spent => tell_input(rt, "the input has more bytes than are read"),
        End::ReadFault => {
            let input = Object::named("standard input");
            tell_fault(rt, alloc, "pipe", input, reason, "a read failed");
        }
        End::WriteFault => tell_fault(rt, alloc, "pipe", output(), reason, "a write failed"),
        End::Memory => tell_memory(rt, "pipe"),
    }
}

/// Tells what is wrong with words that are no command.
pub fn tell_words<R: Eprint>(rt: &R, alloc: Global, line: &CommandLine, words: &[Text]) {
    if let CommandLine::Unknown = line {
        let _ = match complaint(alloc, words) {
            Ok(line) => eprintln!(rt; "{}", line.as_str()),
            Err(_) => eprintln!(rt; "monkeydb: the words are no command; try monkeydb --help"),
        };
    }
}
