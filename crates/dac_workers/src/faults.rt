//! Why a run of sites fails.

ghost use Rattle.std.specs.Prelude.{◌≡◌};
ghost use Rattle.dac_workers.specs.RunFaults.{number_of, name_of};

use dac_base::{NoMemory, NodeId};
use dac_sites::{CloseFault, LiveFault, OpenFault};
use std::alloc::AllocFailed;
use thiserror::Error;

/// Why a run of sites fails. The numbers and names of these faults are part of the program's output (docs/FORMATS.md).
#[derive(Clone, Copy, Debug, PartialEq, Eq, Error)]
pub enum RunFault {
    /// The configuration has more than four nodes.
    #[error("more than four nodes")]
    TooManyNodes,
    /// A thread couldn't be spawned.
    #[error("no thread")]
    NoThread,
    /// A letter can't be encoded, sent or received, or doesn't decode to its message, or the link's ends don't match.
    #[error("a link is lost")]
    LinkLost {
        /// The node that ships.
        from: NodeId,
        /// The node that hears.
        to: NodeId,
    },
    /// A site couldn't be opened.
    #[error("a site is not opened")]
    Open(OpenFault),
    /// A call of a site failed without a record.
    #[error("a call of a site is not recorded")]
    Site {
        /// The node of the site.
        node: NodeId,
        /// The fault of the call.
        why: LiveFault,
    },
    /// Closing a site failed, or its journal doesn't match the run.
    #[error("a site is not closed")]
    Close {
        /// The node of the site.
        node: NodeId,
        /// The fault of the closing.
        why: CloseFault,
    },
    /// A node's journal or final page is missing or wrong, or a page read by a caller is wrong.
    #[error("no final page")]
    NoPage {
        /// The node of the journal and the page.
        node: NodeId,
    },
    /// An allocation failed.
    #[error("out of memory")]
    NoMemory,
}

impl From<NoMemory> for RunFault {
    ghost use Rattle.dac_workers.specs.declared.faults.RunFault.TheVariants.{NoMemory as WantOfMemory};

    ghost from_gives = { λ _ fault. fault ≡ WantOfMemory };

    fn from(_refused: NoMemory) -> Self {
        RunFault::NoMemory
    }
}

impl<T: Drop> From<AllocFailed<T>> for RunFault {
    ghost use Rattle.dac_workers.specs.declared.faults.RunFault.TheVariants.{NoMemory as WantOfMemory};

    ghost from_gives = { λ _ fault. fault ≡ WantOfMemory };

    fn from(_failed: AllocFailed<T>) -> Self {
        RunFault::NoMemory
    }
}

impl RunFault {
    /// The fault's number in the program's output.
    pub fn number(self) -> u8
        ensures { result ≡ number_of self }
    {
        match self {
            RunFault::TooManyNodes => 1,
            RunFault::NoThread => 2,
            RunFault::LinkLost { from: _, to: _ } => 3,
            RunFault::Open(_) => 4,
            RunFault::Site { node: _, why: _ } => 5,
            RunFault::Close { node: _, why: _ } => 6,
            RunFault::NoPage { node: _ } => 7,
            RunFault::NoMemory => 8,
        }
    }

    /// The fault's name in the program's output.
    pub fn name(self) -> &'static str
        ensures { result.now ≡ name_of self }
    {
        match self {
            RunFault::TooManyNodes => "TooManyNodes",
            RunFault::NoThread => "NoThread",
            RunFault::LinkLost { from: _, to: _ } => "LinkLost",
            RunFault::Open(_) => "Open",
            RunFault::Site { node: _, why: _ } => "Site",
            RunFault::Close { node: _, why: _ } => "Close",
            RunFault::NoPage { node: _ } => "NoPage",
            RunFault::NoMemory => "NoMemory",
        }
    }
}
