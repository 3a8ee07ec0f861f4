// Writes the messages of the server, but for the rows and their columns.
#![tactic(auto, unfolding(crate::specs::Spelling::four_bytes, crate::specs::Replies::two_bytes, crate::specs::Replies::framed, crate::specs::Replies::auth_ok, crate::specs::Replies::parameter, crate::specs::Replies::key_data, crate::specs::Replies::ready, crate::specs::Replies::command_complete, crate::specs::Replies::empty_query, crate::specs::Replies::error_response, crate::specs::Replies::notice_response))]

ghost use Rattle.std.specs.Prelude.{◌≡◌, ◌+◌, ◌∷◌, ◌++◌, [], length, codes, IfOk, OnOk, OnErr};
ghost use Rattle.cell_base.specs.Texts.{HasNoZero};
ghost use Rattle.pg_framing.specs.Spelling.{four_bytes};
ghost use Rattle.pg_framing.specs.Replies.{two_bytes, framed, FitsMessage, ended, auth_ok, parameter, key_data, ready, state_byte, command_complete, empty_query, report, severity_word, error_response, notice_response};

use byteorder::{BigEndian, ByteOrder};
use cell_base::{Memory, SqlState};
use std::alloc::Global;

/// How severe an error is.
#[derive(Clone, Copy, Debug, PartialEq, Eq)]
pub enum Severity {
    /// A statement is refused, and the session goes on.
    Error,
    /// The session ends.
    Fatal,
}

/// What ReadyForQuery says of the session's transaction block.
#[derive(Clone, Copy, Debug, PartialEq, Eq)]
pub enum TransactionState {
    /// No block is open.
    Idle,
    /// A block is open.
    Block,
    /// A block is open, and a statement in it has failed.
    Failed,
}

// A whole message, after what stands in `out`.
pub(crate) fn append_framed(
    alloc: Global,
    out: &mut Vec<u8>,
    kind: u8,
    body: &[u8],
) -> Result<(), Memory>
    requires { FitsMessage body.now }
    ensures ok { OnOk result (out.new.items ≡ out.old.items ++ framed kind body.now) }
    ensures err { OnErr result (out.new.items ≡ out.old.items) }
{
    let mut message = Vec::new(alloc);
    message.push(kind)?;
    append_four(&mut message, (4 + body.len()) as u32)?;
    message.extend_from_slice(body)?;
    out.extend_from_slice(&message)?;
    Ok(())
}

// A number in four bytes, the greatest first.
pub(crate) fn append_four(out: &mut Vec<u8>, number: u32) -> Result<(), Memory>
    ensures { OnOk result (out.new.items ≡ out.old.items ++ four_bytes number) }
{
    let mut bytes = [0; 4];
    BigEndian::write_u32(&mut bytes, number);
    out.extend_from_slice(&bytes)?;
    Ok(())
}

// A number in two bytes, the greater first.
pub(crate) fn append_two(out: &mut Vec<u8>, number: u16) -> Result<(), Memory>
    ensures { OnOk result (out.new.items ≡ out.old.items ++ two_bytes number) }
{
    let mut bytes = [0; 2];
    BigEndian::write_u16(&mut bytes, number);
    out.extend_from_slice(&bytes)?;
    Ok(())
}

// A text and the zero byte that ends it.
pub(crate) fn append_ended(out: &mut Vec<u8>, text: &[u8]) -> Result<(), Memory>
    ensures { OnOk result (out.new.items ≡ out.old.items ++ ended text.now) }
{
    out.extend_from_slice(text)?;
    out.push(0)?;
    Ok(())
}

/// AuthenticationOk: the user is accepted without a password. Out of memory, `out` stays as it was.
pub fn append_authentication_ok(alloc: Global, out: &mut Vec<u8>) -> Result<(), Memory>
    ensures ok { OnOk result (out.new.items ≡ out.old.items ++ auth_ok) }
    ensures err { OnErr result (out.new.items ≡ out.old.items) }
{
    let mut body = Vec::new(alloc);
    append_four(&mut body, 0)?;
    append_framed(alloc, out, b'R', &body)
}

/// ParameterStatus: the name of a setting and its value. Out of memory, `out` stays as it was.
pub fn append_parameter_status(
    alloc: Global,
    out: &mut Vec<u8>,
    name: &[u8],
    value: &[u8],
) -> Result<(), Memory>
    requires name { HasNoZero name.now }
    requires value { HasNoZero value.now }
    requires fits { FitsMessage (ended name.now ++ ended value.now) }
    ensures ok { OnOk result (out.new.items ≡ out.old.items ++ parameter name.now value.now) }
    ensures err { OnErr result (out.new.items ≡ out.old.items) }
{
    let mut body = Vec::new(alloc);
    append_ended(&mut body, name)?;
    append_ended(&mut body, value)?;
    append_framed(alloc, out, b'S', &body)
}

/// BackendKeyData: the session's number, and a secret word. Out of memory, `out` stays as it was.
pub fn append_backend_key_data(
    alloc: Global,
    out: &mut Vec<u8>,
    pid: u32,
    secret: u32,
) -> Result<(), Memory>
    ensures ok { OnOk result (out.new.items ≡ out.old.items ++ key_data pid secret) }
    ensures err { OnErr result (out.new.items ≡ out.old.items) }
{
    let mut body = Vec::new(alloc);
    append_four(&mut body, pid)?;
    append_four(&mut body, secret)?;
    append_framed(alloc, out, b'K', &body)
}

/// ReadyForQuery: the next query may come. Out of memory, `out` stays as it was.
pub fn append_ready_for_query(
    alloc: Global,
    out: &mut Vec<u8>,
    state: TransactionState,
) -> Result<(), Memory>
    ensures ok { OnOk result (out.new.items ≡ out.old.items ++ ready state) }
    ensures err { OnErr result (out.new.items ≡ out.old.items) }
{
    append_framed(alloc, out, b'Z', &[byte_of(state)])
}

fn byte_of(state: TransactionState) -> u8
    ensures { result ≡ state_byte state }
{
    match state {
        TransactionState::Idle => b'I',
        TransactionState::Block => b'T',
        TransactionState::Failed => b'E',
    }
}

/// CommandComplete: a statement is done, by its tag. Out of memory, `out` stays as it was.
pub fn append_command_complete(alloc: Global, out: &mut Vec<u8>, tag: &[u8]) -> Result<(), Memory>
    requires tag { HasNoZero tag.now }
    requires fits { FitsMessage (ended tag.now) }
    ensures ok { OnOk result (out.new.items ≡ out.old.items ++ command_complete tag.now) }
    ensures err { OnErr result (out.new.items ≡ out.old.items) }
{
    let mut body = Vec::new(alloc);
    append_ended(&mut body, tag)?;
    append_framed(alloc, out, b'C', &body)
}

/// EmptyQueryResponse: a query without a statement is done. Out of memory, `out` stays as it was.
pub fn append_empty_query_response(alloc: Global, out: &mut Vec<u8>) -> Result<(), Memory>
    ensures ok { OnOk result (out.new.items ≡ out.old.items ++ empty_query) }
    ensures err { OnErr result (out.new.items ≡ out.old.items) }
{
    append_framed(alloc, out, b'I', &[])
}

/// ErrorResponse: an error with this code; a fatal one ends the session. Out of memory, `out` stays as
/// it was.
pub fn append_error_response(
    alloc: Global,
    out: &mut Vec<u8>,
    severity: Severity,
    state: SqlState,
) -> Result<(), Memory>
    ensures ok { OnOk result (out.new.items ≡ out.old.items ++ error_response severity state) }
    ensures err { OnErr result (out.new.items ≡ out.old.items) }
{
    let body = report_of(alloc, word_of(severity), state)?;
    append_framed(alloc, out, b'E', &body)
}

fn word_of(severity: Severity) -> &'static [u8]
    ensures { result.now ≡ severity_word severity }
{
    match severity {
        Severity::Error => b"ERROR",
        Severity::Fatal => b"FATAL",
    }
}

/// NoticeResponse: a warning with this code. Out of memory, `out` stays as it was.
pub fn append_notice_response(
    alloc: Global,
    out: &mut Vec<u8>,
    state: SqlState,
) -> Result<(), Memory>
    ensures ok { OnOk result (out.new.items ≡ out.old.items ++ notice_response state) }
    ensures err { OnErr result (out.new.items ≡ out.old.items) }
{
    let body = report_of(alloc, b"WARNING", state)?;
    append_framed(alloc, out, b'N', &body)
}

// The fields of an error or a notice.
fn report_of(alloc: Global, severity: &[u8], state: SqlState) -> Result<Vec<u8>, Memory>
    ensures { IfOk result (λ body. body.items ≡ report severity.now state) }
{
    let mut body = Vec::new(alloc);
    append_tagged(&mut body, b'S', severity)?;
    append_tagged(&mut body, b'V', severity)?;
    append_tagged(&mut body, b'C', &state.code())?;
    append_tagged(&mut body, b'M', state.message().as_bytes())?;
    body.push(0)?;
    Ok(body)
}

// A field of an error: its type byte and its text.
fn append_tagged(body: &mut Vec<u8>, kind: u8, text: &[u8]) -> Result<(), Memory>
    ensures { OnOk result (body.new.items ≡ body.old.items ++ kind ∷ ended text.now) }
{
    body.push(kind)?;
    append_ended(body, text)
}
