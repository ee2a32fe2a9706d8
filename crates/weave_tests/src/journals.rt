//! Journals recorded by calls.
use dac_base::NodeId;
use dac_config::{Config, read_config};
use dac_journal::{Answer, Closed, Journal};
use dac_messages::{Event, Reply};
use std::alloc::Global;

/// The documented example: three nodes, two of them mandatory.
const EXAMPLE: &[u8] =
    b"[{kernel, [{distributed, [{myapp, 5000, [cp1@cave, {cp2@cave, cp3@cave}]}]}, {sync_nodes_mandatory, [cp2@cave, cp3@cave]}, {sync_nodes_timeout, 5000}]}].";

pub(crate) fn example(alloc: Global) -> Option<Config> {
    read_config(alloc, EXAMPLE).ok()
}

/// An empty journal of a node after `last` incarnations.
pub(crate) fn journal(alloc: Global, node: u8, last: u64) -> Option<Journal> {
    let config = example(alloc)?;
    Some(Journal::new(alloc, config, NodeId(node), last))
}

/// Runs an event at a node through a seat.
pub(crate) fn ask_as(journal: &mut Journal, seat: u16, event: Event) -> Option<Answer> {
    if journal.is_full() {
        return None;
    }
    let next = journal.prepare(seat, event).ok()?;
    let (_, answer) = journal.commit(next).ok()?;
    Some(answer)
}

/// Runs an event at a node through its first seat.
pub(crate) fn ask(journal: &mut Journal, event: Event) -> Option<Answer> {
    ask_as(journal, 1, event)
}

/// Ships from one node to another, which receives the message. Nothing happens if the receiver is up to date.
pub(crate) fn tell(from: &mut Journal, to: &mut Journal, to_node: u8) -> Option<()> {
    let answer = ask(
        from,
        Event::Ship {
            to: NodeId(to_node),
        },
    )?;
    if let Ok(Reply::Shipped(message)) = &answer {
        let copied = message.copy().ok()?;
        let _heard = ask(to, Event::Hear(copied))?;
    }
    Some(())
}

pub(crate) fn close_all<const N: usize>(
    alloc: Global,
    journals: [Journal; N],
) -> Option<Vec<Closed>> {
    let mut closed = Vec::new(alloc);
    for journal in Vec::from_array(alloc, journals).ok()? {
        closed.push(journal.close()).ok()?;
    }
    Some(closed)
}
