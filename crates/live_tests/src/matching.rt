//! The first difference between a seat's calls and its records.
use dac_events::Refusal;
use dac_messages::{Event, Reply};
use dac_sites::laws::same_calls;
use dac_sites::{Answer, Call, Record};
use std::alloc::Global;
use std::test::Fail;

/// A boot and a crash of the first seat, with a tick of the second between them.
fn three_records(alloc: Global) -> Option<Vec<Record>> {
    let mut records = Vec::new(alloc);
    records
        .push(record(1, Event::Boot { now: 7 }, Ok(Reply::Held)))
        .ok()?;
    records
        .push(record(2, Event::Tick { now: 8 }, Err(Refusal::MomentBack)))
        .ok()?;
    records
        .push(record(1, Event::Crash, Ok(Reply::Crashed)))
        .ok()?;
    Some(records)
}

fn record(seat: u16, event: Event, answer: Answer) -> Record {
    Record {
        seat,
        event,
        answer,
    }
}

fn call(place: u64, event: Event, answer: Answer) -> Call {
    Call {
        place,
        event,
        answer,
    }
}

/// A seat's list of calls.
#[derive(Clone, Copy, Debug, PartialEq, Eq)]
enum Calls {
    /// Those of the first seat's records.
    Both,
    /// Only the boot.
    Boot,
    /// Only the boot, at another time.
    LaterBoot,
    /// Both, with a tick in place of the crash.
    Tick,
    /// Both, with another reply to the crash.
    OtherReply,
    /// Both, with the crash refused.
    Refused,
    /// Both, with the crash at this place.
    At(u64),
    /// Both, and a crash at place 7.
    Third,
    /// No calls.
    None,
}

fn first_call(calls: Calls) -> Option<Call> {
    match calls {
        Calls::None => None,
        Calls::LaterBoot => Some(call(1, Event::Boot { now: 8 }, Ok(Reply::Held))),
        _ => Some(call(1, Event::Boot { now: 7 }, Ok(Reply::Held))),
    }
}

fn second_call(calls: Calls) -> Option<Call> {
    match calls {
        Calls::None | Calls::Boot | Calls::LaterBoot => None,
        Calls::Tick => Some(call(3, Event::Tick { now: 7 }, Ok(Reply::Crashed))),
        Calls::OtherReply => Some(call(3, Event::Crash, Ok(Reply::GaveUp))),
        Calls::Refused => Some(call(3, Event::Crash, Err(Refusal::Off))),
        Calls::At(place) => Some(call(place, Event::Crash, Ok(Reply::Crashed))),
        Calls::Both | Calls::Third => Some(call(3, Event::Crash, Ok(Reply::Crashed))),
    }
}

/// The first place where these calls and the seat's records differ. The outer option is `None` if an allocation fails.
fn differ(alloc: Global, seat: u16, calls: Calls) -> Option<Option<u64>> {
    let records = three_records(alloc)?;
    let mut list = Vec::new(alloc);
    if let Some(first) = first_call(calls) {
        list.push(first).ok()?;
    }
    if let Some(second) = second_call(calls) {
        list.push(second).ok()?;
    }
    if calls == Calls::Third {
        list.push(call(7, Event::Crash, Ok(Reply::Crashed))).ok()?;
    }
    Some(same_calls(records.as_slice(), seat, list.as_slice()))
}

/// Seat, calls, and the first place where they differ from its records.
const ROWS: [(u16, Calls, Option<u64>); 14] = [
    (1, Calls::Both, None),
    (1, Calls::Boot, Some(3)),
    (1, Calls::LaterBoot, Some(1)),
    (1, Calls::Tick, Some(3)),
    (1, Calls::OtherReply, Some(3)),
    (1, Calls::Refused, Some(3)),
    (1, Calls::At(2), Some(2)),
    (1, Calls::At(9), Some(3)),
    (1, Calls::Third, Some(7)),
    (1, Calls::None, Some(1)),
    (2, Calls::None, Some(2)),
    (2, Calls::Both, Some(1)),
    (3, Calls::None, None),
    (3, Calls::Both, Some(1)),
];

/// The index of the first row with another result.
fn wrong_row(alloc: Global) -> Option<usize> {
    for i in 0..ROWS.len() {
        let (seat, calls, place) = ROWS[i];
        if differ(alloc, seat, calls) != Some(place) {
            return Some(i);
        }
    }
    None
}

#[test]
fn calls_and_records(rt: HostRuntime) -> Result<(), Fail> {
    assert_eq!(rt; wrong_row(rt.alloc()), None);
    Ok(())
}
