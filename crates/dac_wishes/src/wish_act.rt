//! The part of an operation that concerns start wishes.
ghost use Rattle.std.specs.Prelude.{◌≡◌};
ghost use Rattle.dac_wishes.specs.WishMeaning.{over_of};

use crate::dot_list::DotList;
use crate::key::Key;
use dac_origins::Dot;

/// The part of an operation that concerns start wishes: it can start a key, and replaces dots.
#[derive(Debug, Drop)]
pub enum WishAct {
    /// Starts a key, and replaces dots.
    Start {
        /// The application, and the incarnation where it is wished to run.
        key: Key,
        /// The dots that it replaces.
        over: DotList,
    },
    /// Only replaces dots: a stop, or an operation of another kind.
    Other {
        /// The dots that it replaces.
        over: DotList,
    },
}

impl WishAct {
    /// The dots that the operation replaces.
    pub fn over(&self) -> &[Dot]
        ensures { result.now ≡ over_of self.now }
    {
        match self {
            WishAct::Start { key: _, over } | WishAct::Other { over } => over.as_slice(),
        }
    }
}
