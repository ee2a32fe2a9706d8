//! Equal messages, and which of them a delivery names.
use crate::journals::{ask, close_all, example, journal};
use dac_base::NodeId;
use dac_events::{What, WorldEvent};
use dac_journal::{Closed, Journal};
use dac_messages::{Event, Message, Reply};
use dac_weave::weave;
use std::alloc::Global;
use std::test::Fail;

/// The message that a node ships to another one.
pub(crate) fn shipped(from: &mut Journal, to: u8) -> Option<Message> {
    let answer = ask(from, Event::Ship { to: NodeId(to) })?;
    match &answer {
        Ok(Reply::Shipped(message)) => message.copy().ok(),
        _ => None,
    }
}

pub(crate) fn hear(to: &mut Journal, message: &Message) -> Option<()> {
    let copied = message.copy().ok()?;
    let _heard = ask(to, Event::Hear(copied))?.ok()?;
    Some(())
}

/// The numbers of the messages delivered at a node, in order, if there are four at most. A place without one is 0.
pub(crate) fn delivered(events: &[WorldEvent], node: u8) -> Option<[u64; 4]> {
    let mut numbers = [0u64; 4];
    let mut count = 0usize;
    for event in events {
        if event.node != NodeId(node) {
            continue;
        }
        if let What::Deliver(number) = event.what {
            *numbers.get_mut(count)? = number;
            count = count.saturating_add(1);
        }
    }
    Some(numbers)
}

/// The numbers that are delivered at the second node in the woven run.
fn woven(alloc: Global, journals: &[Closed]) -> Option<[u64; 4]> {
    let config = example(alloc)?;
    let events = weave(alloc, &config, journals).ok()?;
    delivered(&events, 1)
}

/// A node ships `ships` equal messages, and another one hears the first of them `hears` times.
fn equal_ones(alloc: Global, ships: u32, hears: u32) -> Option<[u64; 4]> {
    let mut p = journal(alloc, 0, 0)?;
    let mut q = journal(alloc, 1, 0)?;
    let _up = ask(&mut p, Event::Boot { now: 0 })?;
    let _up = ask(&mut q, Event::Boot { now: 0 })?;
    let first = shipped(&mut p, 1)?;
    for _time in 1..ships {
        if !shipped(&mut p, 1)?.equal(&first) {
            return None;
        }
    }
    for _time in 0..hears {
        hear(&mut q, &first)?;
    }
    let journals = close_all(alloc, [p, q])?;
    woven(alloc, journals.as_slice())
}

/// The first node ships two equal messages to the second, which hears each before the next is shipped. Between them a
/// message goes from the second node to the third, and one from there to the first.
fn between(alloc: Global) -> Option<[u64; 4]> {
    let mut p = journal(alloc, 0, 0)?;
    let mut q = journal(alloc, 1, 0)?;
    let mut r = journal(alloc, 2, 0)?;
    let _up = ask(&mut p, Event::Boot { now: 0 })?;
    let _up = ask(&mut q, Event::Boot { now: 0 })?;
    let _up = ask(&mut r, Event::Boot { now: 0 })?;
    let early = shipped(&mut q, 2)?;
    hear(&mut r, &early)?;
    let known = shipped(&mut r, 0)?;
    hear(&mut p, &known)?;
    let first = shipped(&mut p, 1)?;
    hear(&mut q, &first)?;
    let late = shipped(&mut q, 2)?;
    hear(&mut r, &late)?;
    let again = shipped(&mut r, 0)?;
    hear(&mut p, &again)?;
    let second = shipped(&mut p, 1)?;
    hear(&mut q, &second)?;
    if !second.equal(&first) {
        return None;
    }
    let journals = close_all(alloc, [p, q, r])?;
    woven(alloc, journals.as_slice())
}

#[test]
fn equal_messages_are_delivered_in_order(rt: HostRuntime) -> Result<(), Fail> {
    assert_eq!(rt; equal_ones(rt.alloc(), 4, 4), Some([1, 2, 3, 4]));
    assert_eq!(rt; equal_ones(rt.alloc(), 3, 2), Some([1, 2, 0, 0]));
    Ok(())
}

#[test]
fn a_message_is_delivered_again_if_no_equal_one_is_left(rt: HostRuntime) -> Result<(), Fail> {
    assert_eq!(rt; equal_ones(rt.alloc(), 2, 4), Some([1, 2, 1, 1]));
    Ok(())
}

/// The messages are numbered in the order of the events: the two equal ones are 3 and 6.
#[test]
fn a_delivery_waits_for_its_own_message(rt: HostRuntime) -> Result<(), Fail> {
    assert_eq!(rt; between(rt.alloc()), Some([3, 6, 0, 0]));
    Ok(())
}
