//! The part of an operation that concerns drains.
ghost use Rattle.std.specs.Prelude.{◌≡◌};
ghost use Rattle.dac_wishes.specs.DrainMeaning.{over_of, vote_of};
ghost use Rattle.dac_wishes.specs.DrainsValue.{flag_of};

use crate::dot_list::DotList;
use dac_lattice::Flag;
use dac_origins::{Dot, Origin};

/// The part of an operation that concerns drains: it can drain or undrain an incarnation of a node, and replaces dots.
#[derive(Debug, Drop)]
pub enum DrainAct {
    /// Drains or undrains an incarnation, and replaces dots.
    Drain {
        /// The incarnation of a node.
        at: Origin,
        /// True to drain it, false to undrain it.
        value: bool,
        /// The dots that it replaces.
        over: DotList,
    },
    /// Only replaces dots.
    Other {
        /// The dots that it replaces.
        over: DotList,
    },
}

impl DrainAct {
    /// The dots that the operation replaces.
    pub fn over(&self) -> &[Dot]
        ensures { result.now ≡ over_of self.now }
    {
        match self {
            DrainAct::Drain {
                at: _,
                value: _,
                over,
            }
            | DrainAct::Other { over } => over.as_slice(),
        }
    }

    /// The incarnation and the flag that it writes, if any.
    pub(crate) fn vote(&self) -> Option<(Origin, Flag)>
        ensures { result ≡ vote_of self.now }
    {
        match self {
            DrainAct::Drain { at, value, over: _ } => Some((*at, flag_of(*value))),
            DrainAct::Other { over: _ } => None,
        }
    }
}

/// The flag of a drain: true is Down.
pub(crate) fn flag_of(value: bool) -> Flag
    ensures { result ≡ flag_of value }
{
    if value { Flag::Down } else { Flag::Up }
}
