// The names and values of a startup message.
ghost use Rattle.std.specs.Prelude.{◌≡◌, ◌≤◌, ◌↔◌, ◌⊎◌, ◌++◌, length, IfOk, IfErr, IfSome, IsNone, IsTrue};
ghost use Rattle.std.specs.List.{AllByRecursion};
ghost use Rattle.client_framing.specs.Spelling.{pair_bytes, pairs_bytes, IsPair};
ghost use Rattle.client_framing.specs.Reading.{HasNoPair, ArePairs, CanBePairs};

use crate::parts::text_of;
use cell_base::{Items, Memory};
use std::alloc::Global;

// Whether the bytes can go on to be pairs and their end, so many bytes in all.
pub fn can_be_pairs(held: &[u8], size: usize) -> bool
    requires { length held.now ≤ size }
    ensures { IsTrue result ↔ CanBePairs size held.now }
{
    let mut rest = held;
    let mut room = size;
    while let Some((name, after)) = text_of(rest) {
        if name.is_empty() {
            return room == 1;
        }
        let Some((_, following)) = text_of(after) else {
            return room - rest.len() >= 2;
        };
        room -= rest.len() - following.len();
        rest = following;
    }
    if rest.is_empty() {
        return has_room_for_end(room);
    }
    room - rest.len() >= 3
}

// Whether the end alone fits, or the shortest pair and the end.
fn has_room_for_end(room: usize) -> bool
    ensures { IsTrue result ↔ ((room ≡ 1) ⊎ (4 ≤ room)) }
{
    room == 1 || room >= 4
}

// The first pair, as its name and its value, and what stands after it.
fn pair_at(bytes: &[u8]) -> Option<(&[u8], &[u8], &[u8])>
    ensures some { IfSome result (λ x. bytes.now ≡ pair_bytes (x.0.now, x.1.now) ++ x.2.now) }
    ensures is_pair { IfSome result (λ x. IsPair (x.0.now, x.1.now)) }
    ensures none { IsNone result → HasNoPair bytes.now }
{
    let (name, after) = text_of(bytes)?;
    if name.is_empty() {
        return None;
    }
    let (value, after) = text_of(after)?;
    Some((name, value, after))
}

fn owned_pair(alloc: Global, name: &[u8], value: &[u8]) -> Result<(Items<u8>, Items<u8>), Memory>
    ensures { IfOk result (λ pair. pair ≡ (name.now, value.now)) }
{
    Ok((
        Items::from_slice(alloc, name)?,
        Items::from_slice(alloc, value)?,
    ))
}

// The pairs that the bytes are.
pub fn pairs_of(alloc: Global, body: &[u8]) -> Result<Items<(Items<u8>, Items<u8>)>, Memory>
    requires { ArePairs body.now }
    ensures whole { IfOk result (λ pairs. body.now ≡ pairs_bytes pairs) }
    ensures each { IfOk result (λ pairs. AllByRecursion IsPair pairs) }
{
    let mut pairs = Items::new(alloc);
    let mut rest = body;
    while let Some((name, value, after)) = pair_at(rest) {
        pairs.push(owned_pair(alloc, name, value)?)?;
        rest = after;
    }
    Ok(pairs)
}
