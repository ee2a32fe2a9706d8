//! Copies of messages, events, replies and their lists.
use crate::sample::{APP, Does, ME, message, operation};
use crate::trial::{Fixture, Said, of_any};
use dac_lattice::Bottom;
use dac_messages::{AppList, Body, Event, Message, OpList, Reply};
use dac_state::State;
use std::alloc::Global;

/// A call of a message.
#[derive(Clone, Copy, Debug, PartialEq, Eq)]
pub enum OfMessage {
    Copy,
    CopyBody,
    CopyEvent,
    CopyReply,
}

/// A message with a state, its delivery, and a reply.
#[derive(Drop)]
pub struct MessageFixture {
    asked: OfMessage,
    message: Message,
    event: Event,
    reply: Reply,
}

/// A message with the only state whose copy allocates.
fn whole(alloc: Global) -> Message {
    message(Body::Whole(State::bottom(alloc)), 1)
}

/// The fixture of messages.
pub fn messages(alloc: Global, asked: OfMessage) -> Option<MessageFixture> {
    Some(MessageFixture {
        asked,
        reply: Reply::Issued(operation(alloc, ME, Does::Stop)?),
        message: whole(alloc),
        event: Event::Hear(whole(alloc)),
    })
}

impl Fixture for MessageFixture {
    fn call(&mut self) -> Said {
        match self.asked {
            OfMessage::Copy => of_any(self.message.copy()),
            OfMessage::CopyBody => of_any(self.message.body.copy()),
            OfMessage::CopyEvent => of_any(self.event.copy()),
            OfMessage::CopyReply => of_any(self.reply.copy()),
        }
    }

    fn is_as_before(&self) -> bool {
        true
    }
}

/// A call of a reply's lists.
#[derive(Clone, Copy, Debug, PartialEq, Eq)]
pub enum OfList {
    CopyOps,
    CopyApps,
}

/// The operations and applications of a tick's reply.
#[derive(Drop)]
pub struct ListFixture {
    asked: OfList,
    ops: OpList,
    apps: AppList,
}

/// The operations of a tick.
fn ops(alloc: Global) -> Option<OpList> {
    let mut ops = Vec::new(alloc);
    ops.push(operation(alloc, ME, Does::Claim)?).ok()?;
    ops.push(operation(alloc, ME, Does::Stop)?).ok()?;
    Some(OpList::new(ops))
}

/// The fixture of a reply's lists.
pub fn lists(alloc: Global, asked: OfList) -> Option<ListFixture> {
    let apps = Vec::from_slice(alloc, &[APP]).ok()?;
    Some(ListFixture {
        asked,
        ops: ops(alloc)?,
        apps: AppList::new(apps),
    })
}

impl Fixture for ListFixture {
    fn call(&mut self) -> Said {
        match self.asked {
            OfList::CopyOps => of_any(self.ops.copy()),
            OfList::CopyApps => of_any(self.apps.copy()),
        }
    }

    fn is_as_before(&self) -> bool {
        true
    }
}
