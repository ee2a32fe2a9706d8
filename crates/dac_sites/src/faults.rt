//! Faults of sites and of their calls.

ghost use Rattle.std.specs.Prelude.{◌≡◌};

use dac_base::NoMemory;
use dac_events::Refusal;
use std::alloc::AllocFailed;
use thiserror::Error;

/// Why a site can't be opened.
#[derive(Clone, Copy, Debug, PartialEq, Eq, Error)]
pub enum OpenFault {
    /// The page structure refused a reader.
    #[error("no place for a reader")]
    NoReader,
    /// An allocation failed.
    #[error("out of memory")]
    NoMemory,
}

impl From<NoMemory> for OpenFault {
    ghost use Rattle.dac_sites.specs.declared.faults.OpenFault.TheVariants.{NoMemory as WantOfMemory};

    ghost from_gives = { λ _ fault. fault ≡ WantOfMemory };

    fn from(_refused: NoMemory) -> Self {
        OpenFault::NoMemory
    }
}

impl<T: Drop> From<AllocFailed<T>> for OpenFault {
    ghost use Rattle.dac_sites.specs.declared.faults.OpenFault.TheVariants.{NoMemory as WantOfMemory};

    ghost from_gives = { λ _ fault. fault ≡ WantOfMemory };

    fn from(_failed: AllocFailed<T>) -> Self {
        OpenFault::NoMemory
    }
}

/// Why a call of a site returns no receipt.
#[derive(Clone, Copy, Debug, PartialEq, Eq, Error)]
pub enum LiveFault {
    /// The journal has its maximum number of records. Nothing changes.
    #[error("the journal is full")]
    JournalFull,
    /// The node refuses the event. The journal records the refusal.
    #[error("the node refuses the event")]
    Refused {
        /// The place of the refusal's record in the journal, from 1.
        place: u64,
        /// The node's refusal.
        why: Refusal,
    },
    /// An allocation failed. Nothing changes.
    #[error("out of memory")]
    NoMemory,
}

impl From<NoMemory> for LiveFault {
    ghost use Rattle.dac_sites.specs.declared.faults.LiveFault.TheVariants.{NoMemory as WantOfMemory};

    ghost from_gives = { λ _ fault. fault ≡ WantOfMemory };

    fn from(_refused: NoMemory) -> Self {
        LiveFault::NoMemory
    }
}

/// Why closing a site returns no journal.
#[derive(Clone, Copy, Debug, PartialEq, Eq, Error)]
pub enum CloseFault {
    /// The number of seats isn't the one that the site was opened with.
    #[error("a seat is missing")]
    SeatMissing,
    /// A seat's calls differ from its records in the journal, or a record belongs to none of the seats.
    #[error("the calls of a seat differ from its records")]
    Mismatch {
        /// The place of the first difference, or of that record, from 1.
        place: u64,
    },
}
