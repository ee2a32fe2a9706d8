//! One controller, and the world of all controllers of a cluster.
//!
//! A [`Node`] is one controller: off with the number of its last incarnation, or running with a state. It changes by
//! [`Node::step`], or by the second half of a step, one [`Event`] at a time. A [`World`] has all controllers of a
//! configuration, every operation that they issued and every message that they shipped. Messages and single operations
//! can be lost, repeated and reordered, and controllers can crash.
//!
//! The contract of [`World::run`] promises convergence and settling. After any list of events each running controller's
//! state is the meaning of the set of operations that it has heard, so that controllers that heard the same set hold equal
//! states, and merging two states gives their least upper bound. If the events end in enough rounds, begun in a ready
//! world, each application is settled at each running controller.
//!
//! Functions that don't return `NoMemory` or [`WorldFault`] allocate nothing. A call that fails leaves its arguments
//! unchanged, except for caches that contracts don't see.
//!
//! This caller runs one application on two nodes, and returns the holder that the second node names after it received
//! the first one's claim. The module `callers` of `controller_tests` runs it.
//!
//! ```
//! let (main, spare, app) = (NodeId(0), NodeId(1), AppId(0));
//! let start = Command::Start { app, node: main };
//! let script = [
//!     (main, What::Boot { now: 0 }),
//!     (spare, What::Boot { now: 0 }),
//!     (main, What::Command(start)),
//!     (main, What::Tick { now: 10 }),
//!     (main, What::Ship { to: spare }),
//!     (spare, What::Deliver(1)),
//! ];
//! let mut events = Vec::new(alloc);
//! for (node, what) in script {
//!     events.push(WorldEvent { node, what }).ok()?;
//! }
//! let (world, answers) = World::run(alloc, &config, &events).ok()?;
//! if config.nodes() <= spare.0 || answers.iter().any(|answer| answer.is_err()) {
//!     return None;
//! }
//! let state = world.node(spare).state()?;
//! Some(holder(state, app)?.node)
//! ```
#![tactic(auto)]

pub use dac_events::{Command, What, WorldEvent, WorldFault};
pub use dac_messages::{AppList, Body, Event, Message, OpList, Reply};
pub use dac_node::{Node, Refusal};
pub use world::World;

mod cluster;
mod world;
