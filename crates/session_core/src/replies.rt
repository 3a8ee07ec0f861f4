// The replies of a session as bytes.
ghost use Rattle.std.specs.Prelude.{◌≡◌, ◌++◌, IfOk, OnOk, OnErr};
ghost use Rattle.cell_base.specs.Texts.{HasNoZero};
ghost use Rattle.pg_framing.specs.Replies.{FitsMessage, ended, parameter};
ghost use Rattle.session_core.specs.Replies.{startup_reply, fatal_reply};

use block_machine::parameters::{
    CLIENT_ENCODING, DATE_STYLE, INTEGER_DATETIMES, Parameter, SERVER_ENCODING, SERVER_VERSION,
    STANDARD_CONFORMING_STRINGS,
};
use cell_base::{Memory, SqlState};
use pg_framing::{
    Severity, TransactionState, append_authentication_ok, append_backend_key_data,
    append_error_response, append_parameter_status, append_ready_for_query,
};
use std::alloc::Global;

/// The error that ends a session.
#[tactic(auto, unfolding(crate::specs::Replies::fatal_reply))]
pub fn fatal(alloc: Global, state: SqlState) -> Result<Vec<u8>, Memory>
    ensures { IfOk result (λ reply. reply.items ≡ fatal_reply state) }
{
    let mut reply = Vec::new(alloc);
    append_error_response(alloc, &mut reply, Severity::Fatal, state)?;
    Ok(reply)
}

// Adds the ParameterStatus of a setting. Out of memory, `reply` stays as it was.
fn append_parameter(alloc: Global, reply: &mut Vec<u8>, setting: Parameter) -> Result<(), Memory>
    requires name { HasNoZero setting.name.now }
    requires value { HasNoZero setting.value.now }
    requires fits { FitsMessage (ended setting.name.now ++ ended setting.value.now) }
    ensures ok { OnOk result (reply.new.items ≡ reply.old.items ++ parameter setting.name.now setting.value.now) }
    ensures err { OnErr result (reply.new.items ≡ reply.old.items) }
{
    append_parameter_status(
        alloc,
        reply,
        setting.name.as_bytes(),
        setting.value.as_bytes(),
    )
}

/// What a session is told at its start.
#[tactic(auto, unfolding(crate::specs::Replies::startup_reply))]
pub fn startup(alloc: Global, session: u32) -> Result<Vec<u8>, Memory>
    ensures { IfOk result (λ reply. reply.items ≡ startup_reply session) }
{
    let mut reply = Vec::new(alloc);
    append_authentication_ok(alloc, &mut reply)?;
    append_parameter(alloc, &mut reply, SERVER_VERSION)?;
    append_parameter(alloc, &mut reply, SERVER_ENCODING)?;
    append_parameter(alloc, &mut reply, CLIENT_ENCODING)?;
    append_parameter(alloc, &mut reply, DATE_STYLE)?;
    append_parameter(alloc, &mut reply, INTEGER_DATETIMES)?;
    append_parameter(alloc, &mut reply, STANDARD_CONFORMING_STRINGS)?;
    append_backend_key_data(alloc, &mut reply, session, 0)?;
    append_ready_for_query(alloc, &mut reply, TransactionState::Idle)?;
    Ok(reply)
}
