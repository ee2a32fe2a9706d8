//! Records of a borrowed journal.
use dac_base::NodeId;
use dac_config::read_config;
use dac_events::Refusal;
use dac_messages::{Event, Reply};
use dac_sites::laws::add_record;
use dac_sites::{LiveFault, blank_site};
use std::alloc::Global;
use std::sync::Wait;
use std::test::Fail;

/// True if two boots, one refused, are recorded at the first two places with their seats.
fn are_recorded<R: Wait>(rt: &R, alloc: Global) -> Option<bool> {
    let config = read_config(alloc, b"[{kernel,[{distributed,[{a,[b@h]}]}]}].").ok()?;
    let blank = blank_site(rt, alloc, &config, NodeId(0), 4, 2, 0).ok()?;
    let mut paged = blank.into_paged_journal();
    let first = add_record(rt, &mut paged, 2, Event::Boot { now: 0 });
    let second = add_record(rt, &mut paged, 1, Event::Boot { now: 1 });
    let (journal, page) = paged.end(rt);
    let boot = first.ok()?;
    let is_refused = matches!(
        second,
        Err(LiveFault::Refused {
            place: 2,
            why: Refusal::AlreadyOn
        })
    );
    let records = journal.records();
    let both = records.len() == 2;
    Some(
        boot.place == 1
            && matches!(boot.reply, Reply::Booted(_))
            && is_refused
            && both
            && records[0].seat == 2
            && records[1].seat == 1
            && page.place == 2,
    )
}

#[test]
fn boots_are_recorded(rt: HostRuntime) -> Result<(), Fail> {
    assert_eq!(rt; are_recorded(&rt, rt.alloc()), Some(true));
    Ok(())
}
