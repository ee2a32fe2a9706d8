//! Compares the two ends of a link, by the records of two journals.

ghost use Rattle.std.specs.Prelude.{◌≡◌, ◌↔◌, map, IfOk, IsTrue};
ghost use Rattle.std.specs.Option.{option_copied};
ghost use Rattle.dac_workers.specs.Compared.{found, sent_one, event_one};
ghost use Rattle.dac_workers.specs.Links.{ships_to};

use crate::links::SHIPS;
use dac_base::{NoMemory, NodeId};
use dac_messages::{Event, Message, Reply};
use dac_sites::Record;
use std::alloc::Global;

/// The ships of a shipper in a phase, with the one in the serial round after it.
pub const SHIPS_OF_PHASE: u64 = SHIPS + 1;

/// The message that this record ships, if it is a record of this seat.
fn sent_one(one: &Record, seat: u16) -> Option<&Message>
    ensures { option_copied result ≡ sent_one seat one.now }
{
    if one.seat != seat {
        return None;
    }
    match &one.answer {
        Ok(Reply::Shipped(message)) => Some(message),
        _ => None,
    }
}

/// The event of this record, if it is a record of this seat.
pub fn event_of(one: &Record, seat: u16) -> Option<&Event>
    ensures { option_copied result ≡ event_one seat one.now }
{
    if one.seat == seat {
        Some(&one.event)
    } else {
        None
    }
}

fn is_heard(message: &Message, event: &Event) -> bool
    ensures { IsTrue result ↔ (event.now ≡ Event.Hear message.now) }
{
    match event {
        Event::Hear(heard) => message.equal(heard),
        _ => false,
    }
}

fn is_ship(event: &Event, to: NodeId) -> bool
    ensures { IsTrue result ↔ (event.now ≡ Event.Ship to) }
{
    match event {
        Event::Ship { to: other } => *other == to,
        _ => false,
    }
}

/// The messages that this seat's records ship, in order.
pub fn sent_by(alloc: Global, records: &[Record], seat: u16) -> Result<Vec<&Message>, NoMemory>
    ensures { IfOk result (λ all. map (λ m. m.now) all.items ≡ found (sent_one seat) records.now) }
{
    let mut all = Vec::new(alloc);
    for i in 0..records.len() {
        let one = &records[i];
        match sent_one(one, seat) {
            Some(message) => all.push(message)?,
            None => {}
        }
    }
    Ok(all)
}

/// Returns whether this seat's records are this many ships to this node, and nothing else.
pub fn are_ships(wanted: u128, records: &[Record], seat: u16, to: NodeId) -> bool
    ensures { IsTrue result ↔ (found (event_one seat) records.now ≡ ships_to to wanted) }
{
    let mut count = 0usize;
    for i in 0..records.len() {
        let one = &records[i];
        match event_of(one, seat) {
            Some(event) => {
                if !is_ship(event, to) {
                    return false;
                }
                count += 1;
            }
            None => {}
        }
    }
    count as u128 == wanted
}

/// Returns whether this seat's records hear these messages, in order, and nothing else.
pub fn are_heard(sent: &[&Message], records: &[Record], seat: u16) -> bool
    ensures { IsTrue result
        ↔ (found (event_one seat) records.now ≡ map (λ m. Event.Hear m.now) sent.now) }
{
    let mut next = 0;
    for i in 0..records.len() {
        let one = &records[i];
        match event_of(one, seat) {
            Some(event) => {
                if next >= sent.len() {
                    return false;
                }
                if !is_heard(sent[next], event) {
                    return false;
                }
                next += 1;
            }
            None => {}
        }
    }
    next == sent.len()
}
