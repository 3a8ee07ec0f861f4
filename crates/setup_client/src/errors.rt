// The first error that a session was told.
ghost use Rattle.std.specs.Prelude.{◌≡◌, ◌≤◌, ◌<◌, ◌+◌, ◌∷◌, ◌++◌, length, true, false, IfOk, IfSome, IsNone, IfNone};
ghost use Rattle.cell_base.specs.Texts.{HasNoZero};
ghost use Rattle.client_framing.specs.Fronts.{number_at};
ghost use Rattle.setup_client.specs.Errors.{text_at as text_before, is_field as begins_field, field as field_of, fault_of as fault, has_message, number_after as next_number, first_error as first_of};

use byteorder::{BigEndian, ByteOrder};
use cell_base::{Items, Memory};
use std::alloc::Global;
use std::error::Error;
use std::{fmt, str};

/// The error of a statement.
#[derive(Debug, Drop)]
pub struct StatementFault {
    /// The number of the statement in the text, from 1. A text that can't be read fails at the first.
    pub number: u64,
    /// Its code, of five letters and digits.
    pub code: Items<u8>,
    /// Its text.
    pub message: Items<u8>,
}

// Bytes as text; a question mark where they are none.
fn shown(bytes: &[u8]) -> &str {
    str::from_utf8(bytes).unwrap_or("?")
}

impl fmt::Display for StatementFault {
    fn fmt<W: fmt::Write>(&self, f: &mut fmt::Formatter<W>) -> fmt::Result {
        let number = self.number;
        let code = shown(self.code.as_slice());
        let message = shown(self.message.as_slice());
        write!(f, "statement {number} failed: {code} {message}")
    }
}

impl Error for StatementFault {}

// The letters of messages and of fields.
const ERROR: u8 = b'E';

const COMPLETE: u8 = b'C';

const EMPTY: u8 = b'I';

const CODE: u8 = b'C';

const MESSAGE: u8 = b'M';

// What stands before the first zero byte, and what after it.
fn cut(bytes: &[u8]) -> Option<(&[u8], &[u8])>
    ensures none { IsNone result → HasNoZero bytes.now }
    ensures some { IfSome result (λ x. bytes.now ≡ x.0.now ++ 0 ∷ x.1.now) }
    ensures no_zero { IfSome result (λ x. HasNoZero x.0.now) }
{
    let end = bytes.iter().position(|b| *b == 0)?;
    Some((&bytes[..end], &bytes[end + 1..]))
}

// What stands before the first zero byte.
fn text_at(bytes: &[u8]) -> &[u8]
    ensures { result.now ≡ text_before bytes.now }
{
    match cut(bytes) {
        Some((text, _)) => text,
        None => bytes,
    }
}

// Whether a field of a letter begins with this byte, given whether a field begins here.
fn is_field(begins: bool, letter: u8, byte: u8) -> bool
    ensures { result ≡ begins_field begins letter byte }
{
    begins && byte == letter
}

// The value of the first field of a letter.
fn field(letter: u8, body: &[u8]) -> &[u8]
    ensures { result.now ≡ field_of letter body.now }
{
    let mut begins = true;
    for at in 0..body.len() {
        let byte = body[at];
        if is_field(begins, letter, byte) {
            return text_at(&body[at + 1..]);
        }
        begins = byte == 0;
    }
    &body[body.len()..]
}

// The error that the body of a message tells.
fn fault_of(alloc: Global, number: u64, body: &[u8]) -> Result<StatementFault, Memory>
    ensures { IfOk result (λ error. error ≡ fault number body.now) }
{
    Ok(StatementFault {
        number,
        code: Items::from_slice(alloc, field(CODE, body))?,
        message: Items::from_slice(alloc, field(MESSAGE, body))?,
    })
}

// The number of four bytes after the first one.
#[tactic(auto, unfolding(client_framing::specs::Spelling::number_of))]
fn number_after_kind(bytes: &[u8]) -> usize
    requires { 5 ≤ length bytes.now }
    ensures value { result ≡ number_at 1 bytes.now }
    ensures small { result < 4294967296 }
{
    BigEndian::read_u32(&bytes[1..5]) as usize
}

// How many bytes the message at the front has. `None` comes where none stands there whole.
pub(crate) fn size_of(bytes: &[u8]) -> Option<usize>
    ensures some { IfSome result (λ size. (has_message bytes.now ≡ true) × (size ≡ 1 + number_at 1 bytes.now)) }
    ensures within { IfSome result (λ size. (5 ≤ size) × (size ≤ length bytes.now)) }
    ensures none { IfNone result (has_message bytes.now ≡ false) }
{
    if bytes.len() < 5 {
        return None;
    }
    let counted = number_after_kind(bytes);
    if counted < 4 {
        return None;
    }
    if counted < bytes.len() {
        Some(1 + counted)
    } else {
        None
    }
}

// The number of the statement that goes on after a message of this kind.
fn number_after(kind: u8, number: u64) -> u64
    requires { number < 18446744073709551615 }
    ensures value { result ≡ next_number kind number }
    ensures little { result ≤ number + 1 }
{
    if kind == COMPLETE || kind == EMPTY {
        number + 1
    } else {
        number
    }
}

/// The first error that these bytes of a server tell, with the number of its statement: one more than the statements that were done before it. An
/// error is out of memory.
pub fn first_error(alloc: Global, told: &[u8]) -> Result<Option<StatementFault>, Memory>
    ensures { IfOk result (λ error. error ≡ first_of told.now) }
{
    let mut at = 0;
    let mut number = 1;
    for _ in 0..told.len() {
        let bytes = &told[at..];
        let Some(size) = size_of(bytes) else {
            return Ok(None);
        };
        let kind = bytes[0];
        if kind == ERROR {
            let fault = fault_of(alloc, number, &bytes[5..size])?;
            return Ok(Some(fault));
        }
        number = number_after(kind, number);
        at += size;
    }
    Ok(None)
}
