// The parts of which messages are made: numbers of four bytes, and texts that a zero byte ends.
ghost use Rattle.std.specs.Prelude.{◌≡◌, ◌≤◌, ◌+◌, ◌∷◌, ◌++◌, length, IfSome, IsNone};
ghost use Rattle.cell_base.specs.Texts.{HasNoZero};
ghost use Rattle.client_framing.specs.Fronts.{number_at};

use byteorder::{BigEndian, ByteOrder};

// The number that four bytes at this place are, the greatest first.
#[tactic(auto, unfolding(crate::specs::Spelling::number_of))]
pub fn number_at(bytes: &[u8], place: usize) -> u32
    requires { place + 4 ≤ length bytes.now }
    ensures { result ≡ number_at place bytes.now }
{
    BigEndian::read_u32(&bytes[place..place + 4])
}

// What stands before the first zero byte, and what after it.
pub fn text_of(bytes: &[u8]) -> Option<(&[u8], &[u8])>
    ensures none { IsNone result → HasNoZero bytes.now }
    ensures some { IfSome result (λ x. bytes.now ≡ x.0.now ++ 0 ∷ x.1.now) }
    ensures no_zero { IfSome result (λ x. HasNoZero x.0.now) }
{
    let end = bytes.iter().position(|b| *b == 0)?;
    Some((&bytes[..end], &bytes[end + 1..]))
}
