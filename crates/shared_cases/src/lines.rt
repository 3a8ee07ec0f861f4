// Events as the tests write them down.
use history_core::Event;

/// An event's kind by a letter, its session, and two numbers: of a look and of a scan the table or their number and 0, of a read its source
/// and its count.
pub type Line = (u8, u32, u32, u32);

/// What the event says.
pub fn line(event: &Event) -> Line {
    match event {
        Event::Open { session } => (b'o', *session, 0, 0),
        Event::Close { session } => (b'x', *session, 0, 0),
        Event::Define { session, .. } => (b'd', *session, 0, 0),
        Event::Look { session, tables } => (b'l', *session, *tables, 0),
        Event::Begin { session, .. } => (b'b', *session, 0, 0),
        Event::Scan { session, table, .. } => (b's', *session, *table, 0),
        Event::Read {
            session,
            source,
            count,
            ..
        } => (b'r', *session, *source, *count),
        Event::Own { session, .. } => (b'i', *session, 0, 0),
        Event::Write { session, .. } => (b'w', *session, 0, 0),
        Event::Commit { session } => (b'c', *session, 0, 0),
        Event::Rollback { session } => (b'a', *session, 0, 0),
        Event::Show { session, number } => (b'n', *session, *number, 0),
    }
}

/// Whether these are the events, in this order.
pub fn are_lines(events: &[Event], want: &[Line]) -> bool {
    events.len() == want.len()
        && events
            .iter()
            .zip(want)
            .all(|(event, wanted)| line(event) == *wanted)
}

/// The kind of an event of a session that opens, looks, writes in so many transactions and closes, by its place among the session's own.
fn wanted(place: u32, count: u32) -> u8 {
    if place == 0 {
        return b'o';
    }
    if place == 1 {
        return b'l';
    }
    let step = place.wrapping_sub(2);
    if step / 3 >= count {
        return b'x';
    }
    match step % 3 {
        0 => b'b',
        1 => b'w',
        _ => b'c',
    }
}

/// Whether the events of the session are those of one that opens, looks, writes in so many transactions and closes, in order.
pub fn is_whole(events: &[Event], session: u32, count: u32) -> bool {
    let mut place = 0u32;
    for event in events {
        let said = line(event);
        if said.1 == session {
            if said.0 != wanted(place, count) {
                return false;
            }
            place = place.wrapping_add(1);
        }
    }
    place == count.wrapping_mul(3).wrapping_add(3)
}
