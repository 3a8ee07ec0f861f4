// The lines that a judge prints.
ghost use Rattle.std.specs.Prelude.{◌≡◌, ◌++◌, ◌∷◌, codes, decimal, map, IfOk, OnOk};
ghost use Rattle.history_log.specs.Spelling.{whole_lines, words_after};
ghost use Rattle.check_command.specs.Lines.{and_number, line_of};
ghost use Rattle.check_command.specs.JudgeLines.{level_word, next_word, reason_words, step_words, cycle_lines, order_lines, judgement_lines};

use crate::lines::put_and_number;
use cell_base::{Level, Memory};
use cycle_report::{Judgement, Reason, Step};
use history_log::{put, put_cell, put_number};
use std::alloc::Global;

/// Writes the level.
fn put_level(out: &mut Vec<u8>, level: Level) -> Result<(), Memory>
    ensures { OnOk result (out.new.items ≡ out.old.items ++ level_word level) }
{
    match level {
        Level::Rc => put(out, b"rc"),
        Level::Ra => put(out, b"ra"),
        Level::Cc => put(out, b"cc"),
    }
}

/// Writes the level that is stronger than this one.
fn put_next(out: &mut Vec<u8>, level: Level) -> Result<(), Memory>
    ensures { OnOk result (out.new.items ≡ out.old.items ++ next_word level) }
{
    match level {
        Level::Rc => put(out, b"ra"),
        Level::Ra => put(out, b"cc"),
        Level::Cc => put(out, b"cc"),
    }
}

/// Writes why a pair must be kept.
fn put_reason(alloc: Global, out: &mut Vec<u8>, reason: &Reason) -> Result<(), Memory>
    ensures { OnOk result (out.new.items ≡ out.old.items ++ reason_words reason.now) }
{
    match reason {
        Reason::SessionOrder => put(out, b" so"),
        Reason::Read(event) => {
            put(out, b" read")?;
            put_and_number(out, *event)
        }
        Reason::Axiom(event, cell) => {
            put(out, b" axiom")?;
            put_and_number(out, *event)?;
            put(out, b" ")?;
            put_cell(alloc, out, cell)
        }
    }
}

/// Writes a pair of a cycle.
fn put_step(alloc: Global, out: &mut Vec<u8>, step: &Step) -> Result<(), Memory>
    ensures { OnOk result (out.new.items ≡ out.old.items ++ step_words step.now) }
{
    put_number(out, step.edge.before)?;
    put_and_number(out, step.edge.after)?;
    put_reason(alloc, out, &step.reason)
}

/// Writes a line for each pair of a cycle.
fn put_steps(alloc: Global, out: &mut Vec<u8>, steps: &[Step]) -> Result<(), Memory>
    ensures { OnOk result (out.new.items ≡ out.old.items ++ whole_lines (map step_words steps.now)) }
{
    for step in steps {
        put_step(alloc, out, step)?;
        put(out, b"\n")?;
    }
    Ok(())
}

/// Writes numbers, each after a blank.
fn put_numbers(out: &mut Vec<u8>, numbers: &[u32]) -> Result<(), Memory>
    ensures { OnOk result (out.new.items ≡ out.old.items ++ words_after (map decimal numbers.now)) }
{
    for n in numbers {
        put(out, b" ")?;
        put_number(out, *n)?;
    }
    Ok(())
}

/// Writes the line of the order.
fn put_order(out: &mut Vec<u8>, order: &[u32]) -> Result<(), Memory>
    ensures { OnOk result (out.new.items ≡ out.old.items ++ order_lines order.now) }
{
    put(out, b"order")?;
    put_numbers(out, order)?;
    put(out, b"\n")
}

/// Writes the level that isn't met, which is the next one after this, and the lines of the cycle.
fn put_next_cycle(
    alloc: Global,
    out: &mut Vec<u8>,
    level: Level,
    steps: &[Step],
) -> Result<(), Memory>
    ensures { OnOk result (out.new.items ≡ out.old.items ++ cycle_lines (next_word level) steps.now) }
{
    put(out, b"cycle ")?;
    put_next(out, level)?;
    put(out, b"\n")?;
    put_steps(alloc, out, steps)
}

/// Writes the lines of a history that meets a level, but not the next one.
fn put_upto(
    alloc: Global,
    out: &mut Vec<u8>,
    level: Level,
    order: &[u32],
    steps: &[Step],
) -> Result<(), Memory>
    ensures { OnOk result (out.new.items ≡ out.old.items ++ ((line_of (codes "judge " ++ level_word level) ++ order_lines order.now) ++ cycle_lines (next_word level) steps.now)) }
{
    put(out, b"judge ")?;
    put_level(out, level)?;
    put(out, b"\n")?;
    put_order(out, order)?;
    put_next_cycle(alloc, out, level, steps)
}

/// Writes what is judged.
fn put_judgement(alloc: Global, out: &mut Vec<u8>, judgement: &Judgement) -> Result<(), Memory>
    ensures { OnOk result (out.new.items ≡ out.old.items ++ judgement_lines judgement.now) }
{
    match judgement {
        Judgement::Top(order) => {
            put(out, b"judge cc\n")?;
            put_order(out, order)
        }
        Judgement::Upto(level, order, cycle) => put_upto(alloc, out, *level, order, cycle),
        Judgement::Nothing(cycle) => {
            put(out, b"judge none\ncycle rc\n")?;
            put_steps(alloc, out, cycle)
        }
    }
}

/// The lines of what is judged.
pub fn judgement_lines(alloc: Global, judgement: &Judgement) -> Result<Vec<u8>, Memory>
    ensures { IfOk result (λ lines. lines.items ≡ judgement_lines judgement.now) }
{
    let mut out = Vec::new(alloc);
    put_judgement(alloc, &mut out, judgement)?;
    Ok(out)
}
