// The lines that a check prints.
ghost use Rattle.std.specs.Prelude.{◌≡◌, ◌++◌, ◌∷◌, codes, IfOk, OnOk};
ghost use Rattle.history_log.specs.declared.log_fault.LogFault.TheVariants as faults;
ghost use Rattle.check_command.specs.Lines.{and_number, event_words, breach_words, fault_words, line_of};

use cell_base::Memory;
use history_check::Breach;
use history_log::{LogFault, put, put_cell, put_number};
use std::alloc::Global;

/// Writes a number after a blank.
pub fn put_and_number(out: &mut Vec<u8>, n: u32) -> Result<(), Memory>
    ensures { OnOk result (out.new.items ≡ out.old.items ++ and_number n) }
{
    put(out, b" ")?;
    put_number(out, n)
}

/// Writes which event breaks a rule.
fn put_event_words(out: &mut Vec<u8>, event: u32) -> Result<(), Memory>
    ensures { OnOk result (out.new.items ≡ out.old.items ++ event_words event) }
{
    put(out, b"breach event")?;
    put_and_number(out, event)
}

/// Writes which event breaks a rule, and what follows.
fn put_event(out: &mut Vec<u8>, event: u32, rule: &[u8]) -> Result<(), Memory>
    ensures { OnOk result (out.new.items ≡ out.old.items ++ (event_words event ++ rule.now)) }
{
    put_event_words(out, event)?;
    put(out, rule)
}

/// The same, and the number that is right.
fn put_event_number(out: &mut Vec<u8>, event: u32, rule: &[u8], right: u32) -> Result<(), Memory>
    ensures { OnOk result (out.new.items ≡ out.old.items ++ ((event_words event ++ rule.now) ++ and_number right)) }
{
    put_event(out, event, rule)?;
    put_and_number(out, right)
}

/// Writes two numbers after words.
fn put_pair(out: &mut Vec<u8>, first: u32, second: u32) -> Result<(), Memory>
    ensures { OnOk result (out.new.items ≡ (out.old.items ++ and_number first) ++ and_number second) }
{
    put_and_number(out, first)?;
    put_and_number(out, second)
}

/// The line of a log without a breach.
pub fn ok_line(alloc: Global) -> Result<Vec<u8>, Memory>
    ensures { IfOk result (λ line. line.items ≡ line_of (codes "ok")) }
{
    let mut out = Vec::new(alloc);
    put(&mut out, b"ok\n")?;
    Ok(out)
}

/// The words of a breach, and a line feed.
pub fn breach_line(alloc: Global, breach: &Breach) -> Result<Vec<u8>, Memory>
    ensures { IfOk result (λ line. line.items ≡ line_of (breach_words breach.now)) }
{
    let mut out = Vec::new(alloc);
    put_breach(alloc, &mut out, breach)?;
    put(&mut out, b"\n")?;
    Ok(out)
}

/// Writes the words of a breach.
fn put_breach(alloc: Global, out: &mut Vec<u8>, breach: &Breach) -> Result<(), Memory>
    ensures { OnOk result (out.new.items ≡ out.old.items ++ breach_words breach.now) }
{
    match breach {
        Breach::Shape { event } => put_event(out, *event, b" shape"),
        Breach::Number { event, expected } => put_event_number(out, *event, b" number", *expected),
        Breach::Keys { event } => put_event(out, *event, b" keys"),
        Breach::Own { event } => put_event(out, *event, b" own"),
        Breach::Source { event } => put_event(out, *event, b" source"),
        Breach::Value { event } => put_event(out, *event, b" value"),
        Breach::Count { event, candidates } => {
            put_event_number(out, *event, b" count", *candidates)
        }
        Breach::Order => put(out, b"breach order"),
        Breach::Session { earlier, later } => put_session(out, *earlier, *later),
        Breach::Read {
            event,
            origin,
            reader,
        } => put_read(out, *event, *origin, *reader),
        Breach::Axiom {
            event,
            origin,
            rival,
            reader,
            cell,
        } => {
            put_axiom(out, *event, *origin, *rival, *reader)?;
            put(out, b" ")?;
            put_cell(alloc, out, cell)
        }
    }
}

/// Writes the words of transactions that stand against session order.
fn put_session(out: &mut Vec<u8>, earlier: u32, later: u32) -> Result<(), Memory>
    ensures { OnOk result (out.new.items ≡ out.old.items ++ ((codes "breach session" ++ and_number earlier) ++ and_number later)) }
{
    put(out, b"breach session")?;
    put_pair(out, earlier, later)
}

/// Writes the words of a read from a transaction that comes later.
fn put_read(out: &mut Vec<u8>, event: u32, origin: u32, reader: u32) -> Result<(), Memory>
    ensures { OnOk result (out.new.items ≡ out.old.items ++ (((event_words event ++ codes " read") ++ and_number origin) ++ and_number reader)) }
{
    put_event(out, event, b" read")?;
    put_pair(out, origin, reader)
}

/// Writes the words of a read that saw a rival, but for its cell.
fn put_axiom(
    out: &mut Vec<u8>,
    event: u32,
    origin: u32,
    rival: u32,
    reader: u32,
) -> Result<(), Memory>
    ensures { OnOk result (out.new.items ≡ out.old.items ++ ((((event_words event ++ codes " axiom") ++ and_number origin) ++ and_number rival) ++ and_number reader)) }
{
    put_event(out, event, b" axiom")?;
    put_pair(out, origin, rival)?;
    put_and_number(out, reader)
}

/// The words of what is wrong with a text, and a line feed.
pub fn fault_line(alloc: Global, fault: LogFault) -> Result<Vec<u8>, Memory>
    requires { ¬ (fault ≡ LogFault.Memory) }
    ensures { IfOk result (λ line. line.items ≡ line_of (fault_words fault)) }
{
    let mut out = Vec::new(alloc);
    put_fault(&mut out, fault)?;
    put(&mut out, b"\n")?;
    Ok(out)
}

/// Writes what is wrong with a text.
fn put_fault(out: &mut Vec<u8>, fault: LogFault) -> Result<(), Memory>
    requires { ¬ (fault ≡ LogFault.Memory) }
    ensures { OnOk result (out.new.items ≡ out.old.items ++ fault_words fault) }
{
    match fault {
        LogFault::Version => put(out, b"log fault: version"),
        LogFault::Line(number) => {
            put(out, b"log fault: line")?;
            put_and_number(out, number)
        }
        LogFault::Cut => put(out, b"log fault: cut"),
        LogFault::TooLong => put(out, b"log fault: too long"),
        LogFault::Memory => unreachable!(),
    }
}
