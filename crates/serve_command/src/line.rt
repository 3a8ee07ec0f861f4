// The line that a server prints at its end.
ghost use Rattle.std.specs.Prelude.{◌≡◌, ◌++◌, codes, decimal, IfOk, OnOk};
ghost use Rattle.history_core.specs.Events.{opened};
ghost use Rattle.serve_command.specs.Line.{served_line};

use cell_base::Memory;
use history_core::{Event, History};
use itoa::Buffer;
use std::alloc::Global;

// How many sessions were opened.
fn sessions_of(events: &[Event]) -> u64
    ensures { result ≡ opened events.now }
{
    let mut sessions = 0u64;
    for event in events {
        if let Event::Open { session: _ } = event {
            sessions += 1;
        }
    }
    sessions
}

// Writes a number, and a word that begins with a blank.
fn put_named(out: &mut Vec<u8>, number: u64, name: &[u8]) -> Result<(), Memory>
    ensures { OnOk result (out.new.items ≡ out.old.items ++ (decimal number ++ name.now)) }
{
    out.extend_from_slice(Buffer::new().format(number).as_bytes())?;
    out.extend_from_slice(name)?;
    Ok(())
}

/// The line `served S sessions T transactions E events` of a history: the numbers of its Open, Begin and all events. An error is out of memory.
pub fn line_of(alloc: Global, history: &History) -> Result<Vec<u8>, Memory>
    ensures { IfOk result (λ line. line.items ≡ served_line history.now.events) }
{
    let events = history.events();
    let mut line = Vec::new(alloc);
    line.extend_from_slice(b"served ")?;
    put_named(&mut line, sessions_of(events), b" sessions ")?;
    put_named(&mut line, u64::from(history.begun()), b" transactions ")?;
    put_named(&mut line, events.len() as u64, b" events\n")?;
    Ok(line)
}
