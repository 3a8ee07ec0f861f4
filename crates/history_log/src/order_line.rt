// Reads the line of the order.
ghost use Rattle.std.specs.Prelude.{◌≡◌, ◌↔◌, IsTrue, codes};
ghost use Rattle.history_log.specs.Reading.{IsOrderLine, Reads};

use crate::misread::Misread;
use crate::parts::Parts;
use crate::shapes::numbers_of;
use cell_base::Items;
use std::alloc::Global;

/// Whether the word is the one that the line of an order begins with.
fn is_order(word: &[u8]) -> bool
    ensures { IsTrue result ↔ (word.now ≡ codes "order") }
{
    matches!(word, b"order")
}

/// The order whose line this is, without its line feed. `Form` comes exactly where it is no order's.
pub fn read_order(alloc: Global, line: &[u8]) -> Result<Items<u32>, Misread>
    ensures { Reads IsOrderLine result line.now }
{
    let mut words = Parts::new(line, b' ');
    let Some(word) = words.next() else {
        return Err(Misread::Form);
    };
    if is_order(word) {
        numbers_of(alloc, &mut words)
    } else {
        Err(Misread::Form)
    }
}
