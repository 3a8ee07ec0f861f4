// The statements of a query message one after another, by a runner of single statements.
ghost use Rattle.std.specs.Prelude.{◌≡◌, ◌+◌, ◌*◌, ◌<◌, ◌≤◌, List, length, All, true};
ghost use Rattle.std.specs.Vec.Iter.{into_iter_items};
ghost use Rattle.block_machine.specs.Script.{Said, Entry};
ghost use Rattle.block_machine.specs.Messages.{Outside, message as told, opens, owed_between, statements};
ghost use Rattle.block_machine.specs.StatementRunners.{knowledge_of, tables_of};
ghost use Rattle.block_machine.specs.Stages.{IsBetween, IsBusy, IsHolding, IsReady, IsRunning, IsSameButLevel, IsSoundMessage, IsSoundStage, IsSoundStatement, KnowsTables, HasReply, TurnsTo, after_reply, block_in, goes_on, is_driven, length_of, owed_at, work_at};

use crate::ending::ReadyForQuery;
use crate::message::Message;
use crate::runner::Runner;
use cell_base::SqlState;
use outcome_replies::RowDescription;
use pg_framing::TransactionState;
use sql_tree::Statement;
use std::alloc::Global;
use std::vec::IntoIter;

/// Begins with a message that finds the session in this state and fails before its first statement, with this code.
#[tactic(auto, using(crate::proofs::Succeeding::busy_driven))]
pub fn refuse(
    alloc: Global,
    runner: &mut Runner,
    rest: &mut IntoIter<Statement>,
    code: SqlState,
    state: TransactionState,
)
    ensures goes { (outside : Outside) (said : Said) (es : List Entry) →
        told (Message.Unread code) state (knowledge_of runner.old) outside said es
        ≡ goes_on runner.new.stage runner.new.built.items (knowledge_of runner.new) (into_iter_items rest.new) outside said es }
    ensures known { knowledge_of runner.new ≡ knowledge_of runner.old }
    ensures rest { All IsSoundStatement (into_iter_items rest.new) }
    ensures owed { owed_at runner.new.stage ≡ owed_between state }
    ensures work { work_at runner.new.stage + 8 * length (into_iter_items rest.new) ≤ 8 }
    ensures knows { KnowsTables runner.new.stage (tables_of runner.new) }
    ensures silent { IsRunning runner.new.stage → ⊥ }
    ensures sound { IsSoundStage runner.new.stage }
    ensures busy { IsBusy runner.new.stage }
    ensures driven { is_driven runner.new.stage ≡ true }
    ensures some { HasReply runner.new.stage runner.new.built.items }
{
    *rest = Vec::new(alloc).into_iter();
    runner.stand(state);
    runner.fail(code);
}

// Begins with the first of these statements, or with the reply of none. Answers whether the session was out of memory.
fn open(runner: &mut Runner, rest: &mut IntoIter<Statement>) -> bool
    requires ready { IsReady runner.old.stage }
    requires rest { All IsSoundStatement (into_iter_items rest.old) }
    ensures goes { TurnsTo (opens (into_iter_items rest.old) (block_in runner.old.stage) (knowledge_of runner.old))
        runner.new.stage result runner.new.built.items (knowledge_of runner.new) (into_iter_items rest.new) }
    ensures known { IsSameButLevel (knowledge_of runner.old) (knowledge_of runner.new) }
    ensures rest { All IsSoundStatement (into_iter_items rest.new) }
    ensures owed { owed_at runner.new.stage ≡ owed_at runner.old.stage }
    ensures work { work_at runner.new.stage + 8 * length (into_iter_items rest.new) ≤ 3 + 8 * length (into_iter_items rest.old) }
    ensures knows { KnowsTables runner.new.stage (tables_of runner.new) }
    ensures silent { IsRunning runner.new.stage → ⊥ }
    ensures sound { IsSoundStage runner.new.stage }
    ensures busy { IsBusy runner.new.stage }
    ensures some { HasReply runner.new.stage runner.new.built.items }
{
    match rest.next() {
        Some(statement) => runner.start(statement, RowDescription::Told),
        None => {
            runner.answer_empty();
            false
        }
    }
}

/// Begins with a message that finds the session in this state. Answers whether the session was out of memory.
#[tactic(auto, using(crate::proofs::Succeeding::busy_driven))]
pub fn begin(
    alloc: Global,
    runner: &mut Runner,
    rest: &mut IntoIter<Statement>,
    message: Message,
    state: TransactionState,
) -> bool
    requires { IsSoundMessage message }
    ensures goes { TurnsTo (told message state (knowledge_of runner.old))
        runner.new.stage result runner.new.built.items (knowledge_of runner.new) (into_iter_items rest.new) }
    ensures known { IsSameButLevel (knowledge_of runner.old) (knowledge_of runner.new) }
    ensures rest { All IsSoundStatement (into_iter_items rest.new) }
    ensures owed { owed_at runner.new.stage ≡ owed_between state }
    ensures work { work_at runner.new.stage + 8 * length (into_iter_items rest.new) ≤ 8 + 8 * length_of message }
    ensures knows { KnowsTables runner.new.stage (tables_of runner.new) }
    ensures silent { IsRunning runner.new.stage → ⊥ }
    ensures sound { IsSoundStage runner.new.stage }
    ensures busy { IsBusy runner.new.stage }
    ensures driven { is_driven runner.new.stage ≡ true }
    ensures some { HasReply runner.new.stage runner.new.built.items }
{
    match message {
        Message::Unread(code) => {
            refuse(alloc, runner, rest, code, state);
            false
        }
        Message::Statements(statements) => {
            runner.stand(state);
            *rest = statements.into_vec().into_iter();
            open(runner, rest)
        }
    }
}

// Goes on with the next statement, or with the end of the message. Answers whether the session was out of memory.
fn next(runner: &mut Runner, rest: &mut IntoIter<Statement>) -> bool
    requires ready { IsReady runner.old.stage }
    requires rest { All IsSoundStatement (into_iter_items rest.old) }
    ensures goes { TurnsTo (statements (into_iter_items rest.old) (block_in runner.old.stage) (knowledge_of runner.old))
        runner.new.stage result runner.new.built.items (knowledge_of runner.new) (into_iter_items rest.new) }
    ensures known { IsSameButLevel (knowledge_of runner.old) (knowledge_of runner.new) }
    ensures rest { All IsSoundStatement (into_iter_items rest.new) }
    ensures owed { owed_at runner.new.stage ≡ owed_at runner.old.stage }
    ensures work { work_at runner.new.stage + 8 * length (into_iter_items rest.new) ≤ 2 + 8 * length (into_iter_items rest.old) }
    ensures knows { KnowsTables runner.new.stage (tables_of runner.new) }
    ensures silent { IsRunning runner.new.stage → ⊥ }
    ensures sound { IsSoundStage runner.new.stage }
    ensures busy { IsBusy runner.new.stage }
    ensures some { HasReply runner.new.stage runner.new.built.items }
{
    match rest.next() {
        Some(statement) => runner.start(statement, RowDescription::Told),
        None => {
            runner.finish(ReadyForQuery::Told);
            false
        }
    }
}

// Goes on after a statement: after one that failed with the end of the message. Answers whether the session was out of memory.
fn after_statement(runner: &mut Runner, rest: &mut IntoIter<Statement>) -> bool
    requires between { IsBetween runner.old.stage }
    requires rest { All IsSoundStatement (into_iter_items rest.old) }
    ensures goes { TurnsTo (goes_on runner.old.stage runner.old.built.items (knowledge_of runner.old) (into_iter_items rest.old))
        runner.new.stage result runner.new.built.items (knowledge_of runner.new) (into_iter_items rest.new) }
    ensures known { IsSameButLevel (knowledge_of runner.old) (knowledge_of runner.new) }
    ensures rest { All IsSoundStatement (into_iter_items rest.new) }
    ensures owed { owed_at runner.new.stage ≡ owed_at runner.old.stage }
    ensures work { work_at runner.new.stage + 8 * length (into_iter_items rest.new)
        ≤ work_at runner.old.stage + 8 * length (into_iter_items rest.old) }
    ensures knows { KnowsTables runner.new.stage (tables_of runner.new) }
    ensures silent { IsRunning runner.new.stage → ⊥ }
    ensures sound { IsSoundStage runner.new.stage }
    ensures busy { IsBusy runner.new.stage }
    ensures some { HasReply runner.new.stage runner.new.built.items }
{
    if runner.skipping() {
        runner.finish(ReadyForQuery::Told);
        return false;
    }
    next(runner, rest)
}

/// Goes on after a reply that was sent. Answers whether the session was out of memory for what follows it.
#[tactic(auto, using(crate::proofs::Succeeding::busy_driven))]
pub fn go_on(runner: &mut Runner, rest: &mut IntoIter<Statement>) -> bool
    requires holding { IsHolding runner.old.stage }
    requires rest { All IsSoundStatement (into_iter_items rest.old) }
    ensures goes { TurnsTo (after_reply runner.old.stage (knowledge_of runner.old) (into_iter_items rest.old))
        runner.new.stage result runner.new.built.items (knowledge_of runner.new) (into_iter_items rest.new) }
    ensures known { IsSameButLevel (knowledge_of runner.old) (knowledge_of runner.new) }
    ensures rest { All IsSoundStatement (into_iter_items rest.new) }
    ensures owed { owed_at runner.new.stage ≡ owed_at runner.old.stage }
    ensures work { work_at runner.new.stage + 8 * length (into_iter_items rest.new)
        < work_at runner.old.stage + 8 * length (into_iter_items rest.old) }
    ensures knows { KnowsTables runner.new.stage (tables_of runner.new) }
    ensures silent { IsRunning runner.new.stage → ⊥ }
    ensures sound { IsSoundStage runner.new.stage }
    ensures driven { is_driven runner.new.stage ≡ true }
    ensures some { HasReply runner.new.stage runner.new.built.items }
{
    runner.sent();
    match runner.left() {
        Some(_) => false,
        None => after_statement(runner, rest),
    }
}
