//! The faults of a configuration text.

ghost use Rattle.std.specs.Prelude.{◌≡◌};
ghost use Rattle.dac_tokens.specs.declared.fault.FaultKind.TheVariants.{NoMemory};

use std::alloc::{AllocError, AllocFailed};
use thiserror::Error;

/// A kind of fault. Its number is its position in this list, from 1. Number and name are part of the program's output.
#[derive(Clone, Copy, Debug, PartialEq, Eq, Error)]
pub enum FaultKind {
    /// The text has more than 65,536 bytes.
    #[error("TooLong")]
    TooLong = 1,
    /// No token begins with this byte, or the token is incomplete, for example an atom whose quote is never closed.
    #[error("BadToken")]
    BadToken,
    /// An Erlang token, or a byte of one, that configurations can't contain here.
    #[error("Unsupported")]
    Unsupported,
    /// A different token is required here.
    #[error("BadShape")]
    BadShape,
    /// The parameter `distributed` is missing or lists no application.
    #[error("NoDistributed")]
    NoDistributed,
    /// `distributed` lists an application twice.
    #[error("TwiceApp")]
    TwiceApp,
    /// A list contains a node twice.
    #[error("TwiceInList")]
    TwiceInList,
    /// A list of nodes is empty.
    #[error("EmptyList")]
    EmptyList,
    /// A tuple of nodes is empty.
    #[error("EmptyTuple")]
    EmptyTuple,
    /// The text names more nodes than a cluster can have.
    #[error("TooManyNodes")]
    TooManyNodes,
    /// The text lists more applications than a cluster can have.
    #[error("TooManyApps")]
    TooManyApps,
    /// A number is above 4,294,967,295.
    #[error("NumberTooLarge")]
    NumberTooLarge,
    /// A name of an application or node has more than 255 bytes.
    #[error("NameTooLong")]
    NameTooLong,
    /// Out of memory. It carries no information about the text.
    #[error("NoMemory")]
    NoMemory,
}

impl FaultKind {
    ghost use Rattle.dac_tokens.specs.Faults.{number_of, name_of};

    /// The kind's number in the program's output, 1 to 14.
    pub fn number(self) -> u8
        ensures { result ≡ number_of self }
    {
        self as u8
    }

    /// The kind's name in the program's output, which `Display` prints too.
    pub fn name(self) -> &'static str
        ensures { result.now ≡ name_of self }
    {
        match self {
            FaultKind::TooLong => "TooLong",
            FaultKind::BadToken => "BadToken",
            FaultKind::Unsupported => "Unsupported",
            FaultKind::BadShape => "BadShape",
            FaultKind::NoDistributed => "NoDistributed",
            FaultKind::TwiceApp => "TwiceApp",
            FaultKind::TwiceInList => "TwiceInList",
            FaultKind::EmptyList => "EmptyList",
            FaultKind::EmptyTuple => "EmptyTuple",
            FaultKind::TooManyNodes => "TooManyNodes",
            FaultKind::TooManyApps => "TooManyApps",
            FaultKind::NumberTooLarge => "NumberTooLarge",
            FaultKind::NameTooLong => "NameTooLong",
            FaultKind::NoMemory => "NoMemory",
        }
    }
}

/// The first fault of a text, in text order. `Display` prints it as `NAME at P`.
#[derive(Clone, Copy, Debug, PartialEq, Eq, Error)]
#[error("{kind} at {at}")]
pub struct ConfigFault {
    /// The kind of fault.
    pub kind: FaultKind,
    /// Its offset, in bytes from the start of the text; 0 for `NoMemory`.
    pub at: usize,
}

fn no_memory() -> ConfigFault
    ensures { (result.kind ≡ NoMemory) × (result.at ≡ 0) }
{
    ConfigFault {
        kind: FaultKind::NoMemory,
        at: 0,
    }
}

impl From<AllocError> for ConfigFault {
    ghost from_gives = { λ _ e. (e.kind ≡ NoMemory) × (e.at ≡ 0) };

    fn from(_error: AllocError) -> ConfigFault {
        no_memory()
    }
}

impl<T: Drop> From<AllocFailed<T>> for ConfigFault {
    ghost from_gives = { λ _ e. (e.kind ≡ NoMemory) × (e.at ≡ 0) };

    fn from(_failed: AllocFailed<T>) -> ConfigFault {
        no_memory()
    }
}

impl From<dac_base::NoMemory> for ConfigFault {
    ghost from_gives = { λ _ e. (e.kind ≡ NoMemory) × (e.at ≡ 0) };

    fn from(_refused: dac_base::NoMemory) -> ConfigFault {
        no_memory()
    }
}
