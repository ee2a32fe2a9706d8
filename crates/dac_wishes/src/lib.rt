//! Permits, start wishes and drains: the writes of a set of operations that stand.
//!
//! A permit or start wish is at a [`Key`], an application at one incarnation of a node; a drain is at an incarnation.
//! It stands until an operation replaces its dot. [`Wishes`], [`Permissions`] and [`Drains`] store the standing writes
//! with the known dots, so that replicas that join them agree, whatever the order. A write that stands on one side only
//! is removed if the other side knows its dot, because it was replaced there. All three are lattices and pieces of a
//! controller's state. The joined deltas of operations are exactly the writes that none of them replaces, and the dots
//! that they name.
//!
//! A controller's state stores all three with one context, as [`StandingWrites`], so that it can change in place. It
//! shows them as [`PermissionsRef`], [`WishesRef`] and [`DrainsRef`], which borrow a store and the context, and answer
//! the same questions.
//!
//! A start concurrent with a stop wins, because a stop replaces only the starts that it names. Of concurrent permits
//! false wins ([`Permissions::permitted`]), and of concurrent drains true ([`Drains::drained`]).
//!
//! Functions that don't return `Result<_, NoMemory>` allocate nothing. `NoMemory` is the only error, and leaves
//! borrowed arguments unchanged.
#![tactic(auto)]

pub use dot_list::DotList;
pub use drain_act::DrainAct;
pub use drains::Drains;
pub use drains_ref::DrainsRef;
pub use key::Key;
pub use permissions::Permissions;
pub use permissions_ref::PermissionsRef;
pub use permit_act::PermitAct;
pub use standing::{AbsorbStanding, StandingWrites};
pub use wish_act::WishAct;
pub use wishes::Wishes;
pub use wishes_ref::WishesRef;

mod covering;
mod delta;
mod dot_list;
mod drain_act;
mod drains;
mod drains_ref;
mod key;
mod permissions;
mod permissions_ref;
mod permit_act;
mod standing;
mod votes;
mod wish_act;
mod wishes;
mod wishes_ref;
