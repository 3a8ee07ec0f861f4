// Whether a session was told that it stands inside a block.
ghost use Rattle.std.specs.Prelude.{◌≡◌, ◌==◌, if◌then◌else◌, true, false};
ghost use Rattle.setup_client.specs.Blocks.{is_in_block as has_block_status, tells_block as tells_of};

use crate::errors::size_of;

// The type byte of a ReadyForQuery, and its status inside a block.
const READY: u8 = b'Z';

const IN_BLOCK: u8 = b'T';

// Whether the body of a ReadyForQuery has the status of a block.
fn is_in_block(body: &[u8]) -> bool
    ensures { result ≡ has_block_status body.now }
{
    match body {
        [status, ..] => *status == IN_BLOCK,
        [] => false,
    }
}

// Whether a message of this type and body is a ReadyForQuery that says that the session stands inside a block.
fn says_block(kind: u8, body: &[u8]) -> bool
    ensures { result ≡ (if kind == 90 then has_block_status body.now else false) }
{
    kind == READY && is_in_block(body)
}

/// Whether one of the messages that these bytes of a server tell is a ReadyForQuery that says that the session stands inside a block.
pub fn tells_block(told: &[u8]) -> bool
    ensures { result ≡ tells_of told.now }
{
    let mut at = 0;
    for _ in 0..told.len() {
        let bytes = &told[at..];
        let Some(size) = size_of(bytes) else {
            return false;
        };
        if says_block(bytes[0], &bytes[5..size]) {
            return true;
        }
        at += size;
    }
    false
}
