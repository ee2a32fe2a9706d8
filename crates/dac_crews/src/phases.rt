//! The input and the outcome of a run.

ghost use Rattle.std.specs.Prelude.{◌≡◌, ◌↔◌, IsTrue};
ghost use Rattle.dac_crews.specs.Callers.{event_of};

use dac_base::NodeId;
use dac_events::Command;
use dac_messages::Event;
use dac_workers::{Closed, Page, Reading};

/// An event that a caller asks for. Callers neither ship nor hear, because the links do.
///
/// It is a type of its own because an [`Event`] has room for a message, and a run has as many lines as its script.
#[derive(Clone, Copy, Debug, PartialEq, Eq)]
pub enum CallerEvent {
    /// The node comes up, under the next incarnation number.
    Boot {
        /// The present moment, in milliseconds.
        now: u64,
    },
    /// The node goes down and loses everything but its incarnation number.
    Crash,
    /// The node receives an operator's command.
    Command(Command),
    /// The node re-evaluates placement and claims the applications that it should run.
    Tick {
        /// The present moment, in milliseconds.
        now: u64,
    },
}

impl CallerEvent {
    /// The event of the node.
    pub fn event(self) -> Event
        ensures { result ≡ event_of self }
    {
        match self {
            CallerEvent::Boot { now } => Event::Boot { now },
            CallerEvent::Crash => Event::Crash,
            CallerEvent::Command(command) => Event::Command(command),
            CallerEvent::Tick { now } => Event::Tick { now },
        }
    }

    /// Returns whether the event is that of the node.
    pub fn is(self, event: &Event) -> bool
        ensures { IsTrue result ↔ (event.now ≡ event_of self) }
    {
        match (self, event) {
            (CallerEvent::Boot { now }, Event::Boot { now: other }) => now == *other,
            (CallerEvent::Crash, Event::Crash) => true,
            (CallerEvent::Command(command), Event::Command(other)) => command == *other,
            (CallerEvent::Tick { now }, Event::Tick { now: other }) => now == *other,
            _ => false,
        }
    }
}

/// The request of a caller's line.
#[derive(Clone, Copy, Debug, PartialEq, Eq)]
pub enum Ask {
    /// Call the node with this event.
    Do(CallerEvent),
    /// Read the node's page.
    Read,
}

/// A line of a caller.
#[derive(Clone, Copy, Debug, PartialEq, Eq)]
pub struct Line {
    /// The node that it is for.
    pub node: NodeId,
    /// The caller's number at the node, from 1 to 4.
    pub caller: u8,
    /// The request.
    pub what: Ask,
}

/// The callers' lines for one phase.
#[derive(Drop)]
pub struct Phase {
    /// The lines, in order for each caller.
    pub lines: Vec<Line>,
}

/// The reads of one caller.
#[derive(Drop)]
pub struct Seen {
    /// The caller's node.
    pub node: NodeId,
    /// The caller's number at its node, from 1 to 4.
    pub caller: u16,
    /// For each of its lines that reads, in order, the page and whether it is fresh.
    pub reads: Vec<Reading>,
}

/// The outcome of a run: journals, final pages, and the callers' reads.
#[derive(Drop)]
pub struct Outcome {
    /// The closed journal of each node, in order of name.
    pub closed: Vec<Closed>,
    /// The final page of each node, in order of name.
    pub pages: Vec<Page>,
    /// The reads of each caller.
    pub seen: Vec<Seen>,
}
