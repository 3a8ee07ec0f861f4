// What holds of the ends of sessions.
ghost use Rattle.session_laws.specs.Causes.{EndsHaveCauses, WholeStreamsEndWell};

/// Each end that a session is told has its cause: in what was heard of its client, or in an entry of its record. And where all was heard that
/// a client has to say, up to its Terminate or to the end of its input between two messages, the session ends as the client says; or the
/// record has a failed read or write, a lack of memory, as many bytes as are read, or a refusal by a full history.
pub fn ends_have_causes()
    ensures causes { EndsHaveCauses }
    ensures whole { WholeStreamsEndWell }
{}
