//! Events of a cluster of controllers as plain values: those that a script names and the world runs, and why one has no
//! effect: a [`Refusal`] of a controller, or a [`WorldFault`] of the world.
//!
//! The rules that refuse events and give them effect are those of the crates above. Nothing here allocates.
#![tactic(auto)]

pub use refusal::Refusal;
pub use world_fault::WorldFault;

mod refusal;
mod world_fault;

use dac_base::{AppId, NodeId};

/// A command of an operator to a controller. A takeover is given at the node that takes over. Any other command can be
/// given at any controller, and holds for the live incarnation of the node that it names, so that a reboot returns to
/// the configuration. Permits, starts and stops are after `application:permit/2`, `application:start/1` and
/// `application:stop/1` of Erlang/OTP, which hold for the node where they run. A drain is this project's own.
#[derive(Clone, Copy, Debug, PartialEq, Eq)]
pub enum Command {
    /// The node is down: its live incarnation has ended. (OTP learns this from its distribution; here a failure
    /// detector or an operator reports it.)
    Down {
        /// The node that ended.
        node: NodeId,
    },
    /// The application is permitted at the node, or forbidden there.
    Permit {
        /// The application's number.
        app: AppId,
        /// The node that the permission is about.
        node: NodeId,
        /// True permits, false forbids.
        value: bool,
    },
    /// The application is wished at the node.
    Start {
        /// The application's number.
        app: AppId,
        /// The node that should be able to run it.
        node: NodeId,
    },
    /// The application's start wishes at the node end.
    Stop {
        /// The application's number.
        app: AppId,
        /// The node that must no longer run it.
        node: NodeId,
    },
    /// The node is drained, so that it must run no application, or its drain ends.
    Drain {
        /// The node that the drain is about.
        node: NodeId,
        /// True drains, false ends the drain.
        value: bool,
    },
    /// The node that receives the command takes over the application from the node where it runs (after
    /// `application:takeover/2`). The receiver must be of the same group or an earlier one.
    Takeover {
        /// The application's number.
        app: AppId,
    },
}

/// An event at a node of the world.
#[derive(Clone, Copy, Debug, PartialEq, Eq)]
pub enum What {
    /// The node comes up, under the next incarnation number.
    Boot {
        /// The present moment, in milliseconds.
        now: u64,
    },
    /// The node goes down and loses everything but its incarnation number.
    Crash,
    /// The node receives an operator's command.
    Command(Command),
    /// A timer event: the node re-evaluates placement and claims the applications that it should run.
    Tick {
        /// The present moment, in milliseconds.
        now: u64,
    },
    /// The node sends another node the deltas which that one hasn't acknowledged, or the whole state.
    Ship {
        /// The receiver.
        to: NodeId,
    },
    /// The node receives the message of this number; messages count from 1 in the order in which they were shipped. It
    /// can come late, twice or never.
    Deliver(u64),
    /// The node receives a single operation by its number; operations count from 1 in the order in which they were
    /// issued. It can come late, twice or never, and before those that its issuer had heard.
    Hand(u64),
}

/// One event of the world.
#[derive(Clone, Copy, Debug, PartialEq, Eq)]
pub struct WorldEvent {
    /// The node at which it happens.
    pub node: NodeId,
    /// The event itself.
    pub what: What,
}
