//! The part of an operation that concerns permissions.
ghost use Rattle.std.specs.Prelude.{◌≡◌};
ghost use Rattle.dac_wishes.specs.PermitMeaning.{over_of, vote_of};
ghost use Rattle.dac_wishes.specs.PermissionsValue.{flag_of};

use crate::dot_list::DotList;
use crate::key::Key;
use dac_lattice::Flag;
use dac_origins::Dot;

/// The part of an operation that concerns permissions: it can permit or forbid a key, and replaces dots.
#[derive(Debug, Drop)]
pub enum PermitAct {
    /// Permits or forbids a key, and replaces dots.
    Permit {
        /// The application, and the incarnation where it is permitted or not.
        key: Key,
        /// True to permit it, false to forbid it.
        value: bool,
        /// The dots that it replaces.
        over: DotList,
    },
    /// Only replaces dots.
    Other {
        /// The dots that it replaces.
        over: DotList,
    },
}

impl PermitAct {
    /// The dots that the operation replaces.
    pub fn over(&self) -> &[Dot]
        ensures { result.now ≡ over_of self.now }
    {
        match self {
            PermitAct::Permit {
                key: _,
                value: _,
                over,
            }
            | PermitAct::Other { over } => over.as_slice(),
        }
    }

    /// The key and the flag that it writes, if any.
    pub(crate) fn vote(&self) -> Option<(Key, Flag)>
        ensures { result ≡ vote_of self.now }
    {
        match self {
            PermitAct::Permit {
                key,
                value,
                over: _,
            } => Some((*key, flag_of(*value))),
            PermitAct::Other { over: _ } => None,
        }
    }
}

/// The flag of a permit: true is Up.
pub(crate) fn flag_of(value: bool) -> Flag
    ensures { result ≡ flag_of value }
{
    if value { Flag::Up } else { Flag::Down }
}
