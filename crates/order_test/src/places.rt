// Where each transaction stands in an order.
ghost use Rattle.std.specs.Prelude.{◌≡◌, ◌<◌, ◌↔◌, IsTrue, IfOk, Some, length, slice_get, slice_index};
ghost use Rattle.order_test.specs.Unkept.{HoldsAll};
ghost use Rattle.order_test.specs.Places.{AreBelow, ArePlaces, StandOnce, StandsAt, IsPlaced};

use cell_base::Memory;
use std::alloc::Global;

/// Where each transaction stands in an order: transaction k at the k-th place.
#[derive(Debug, Drop)]
pub struct Places {
    pub at: Vec<usize>,
}

/// Whether each number is below the size.
fn are_below(order: &[u32], size: usize) -> bool
    ensures { IsTrue result ↔ AreBelow size order.now }
{
    order.iter().all(|number| (*number as usize) < size)
}

/// The first place of each number below the size; the length of the order, where it has no place.
fn first_places(alloc: Global, order: &[u32], size: usize) -> Result<Vec<usize>, Memory>
    requires { AreBelow size order.now }
    ensures { IfOk result (λ places. ArePlaces size order.now places.items) }
{
    let mut places = vec![in alloc; order.len(); size]?;
    let mut at = order.len();
    while at > 0 {
        at -= 1;
        places[order[at] as usize] = at;
    }
    Ok(places)
}

/// Whether each number stands where it stands first.
fn stand_once(order: &[u32], places: &[usize], size: usize) -> bool
    requires below { AreBelow size order.now }
    requires places { ArePlaces size order.now places.now }
    ensures { IsTrue result ↔ StandOnce order.now }
{
    for at in 0..order.len() {
        if places[order[at] as usize] != at {
            return false;
        }
    }
    true
}

/// Whether the order begins with 0.
fn begins_with_first(order: &[u32]) -> bool
    ensures { IsTrue result ↔ (slice_get order.now 0 ≡ Some 0) }
{
    match order.first() {
        Some(first) => *first == 0,
        None => false,
    }
}

/// Whether all numbers of the order are below its length, and 0 is the first.
fn fits(order: &[u32]) -> bool
    ensures { IsTrue result ↔ (AreBelow (length order.now) order.now × (slice_get order.now 0 ≡ Some 0)) }
{
    are_below(order, order.len()) && begins_with_first(order)
}

/// The place of each number below the length of the order, where the order holds each of them once, and 0 first.
pub fn places_of(alloc: Global, order: &[u32]) -> Result<Option<Places>, Memory>
    ensures { IfOk result (IsPlaced (length order.now) order.now) }
{
    if !fits(order) {
        return Ok(None);
    }
    let at = first_places(alloc, order, order.len())?;
    if !stand_once(order, &at, order.len()) {
        return Ok(None);
    }
    Ok(Some(Places { at }))
}

/// The place of the number, 0 where it has none.
pub fn place_at(places: &Places, number: u32) -> usize
    ensures { result ≡ slice_index places.now.at.items number }
{
    if number as usize >= places.at.len() {
        return 0;
    }
    places.at[number as usize]
}

/// Whether both have places, and the first stands before the second.
pub fn stands_before(places: &Places, first: u32, second: u32) -> bool
    ensures { IsTrue result → StandsAt places.now.at.items first second }
{
    if first as usize >= places.at.len() {
        return false;
    }
    if second as usize >= places.at.len() {
        return false;
    }
    places.at[first as usize] < places.at[second as usize]
}
