// What holds of sessions in which nothing fails.
ghost use Rattle.session_laws.specs.Sessions.{SessionsAreComplete};
ghost use Rattle.session_laws.specs.Conversations.{MessagesAreAnswered, ServedMessagesAreAnswered};
ghost use Rattle.session_laws.specs.Blocks.{BlocksFailByErrors};
ghost use Rattle.session_laws.specs.Statements.{StatementsAreTold};

use history_book::Words;

/// A link that tells its bytes and counts no fault, whose bytes are all that a client has to say and fewer than the most that is read: its
/// session ends Terminated where they hold a Terminate and Closed where they don't, it has heard each message up to there, and all that it was
/// told was written. Or memory ran out; or the session was turned away, since the history had no room for one.
pub fn sessions_are_complete<W: Words>()
    ensures { SessionsAreComplete W.gives }
{}

/// Each statement that a session ran came to its outcome and was told it, where the session has ended and its record has no lack of memory and no
/// refusal by a full history.
pub fn statements_are_told()
    ensures { StatementsAreTold }
{}

/// What is asked, met and told in a session that ends as its client said, message by message, whatever becomes of its calls and of memory: its acts
/// hold the whole record, in order. Of a query that isn't discarded each statement is told its reply, its rows and its tag; or one is told a code that
/// it is given, and those after it are skipped. A statement's tables are those that the looks of the record showed, its outcome is that of the answers
/// there, and which reply or code it is given depends on the block in which it stands. 53200 stands where the record has a lack of memory, and 54000
/// where the history was full for a call, or where the statement comes to it. So it is of a session that was served over a link that tells its bytes
/// and counts no fault, where these are all that its client has to say: it ends as the client said, and all of that was written; or memory ran out
/// where no session goes on, or the history had no room for a session.
pub fn messages_are_answered<W: Words>()
    ensures told { MessagesAreAnswered }
    ensures served { ServedMessagesAreAnswered W.gives }
{}

/// Of each such conversation: where a statement is told 25P02, a BEGIN succeeded before it, something was told an error after that, and no COMMIT or
/// ROLLBACK succeeded since; unless 25P02 is a code that its types, its rows or the definition of its table give.
pub fn blocks_fail_by_errors()
    ensures { BlocksFailByErrors }
{}
