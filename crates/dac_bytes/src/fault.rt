//! The faults of bytes.

ghost use Rattle.std.specs.Prelude.{◌≡◌};
ghost use Rattle.dac_bytes.specs.declared.fault.ReadFaultKind.TheVariants.{NoMemory};

use std::alloc::{AllocError, AllocFailed};
use std::error::Error;
use std::fmt;

/// A kind of fault. Its number is its position in this list, from 1. Number and name are part of the program's output.
///
/// The readers of this crate return the first four and the last. The others are for readers of data that is made of
/// such fields.
#[derive(Clone, Copy, Debug, PartialEq, Eq, Hash)]
pub enum ReadFaultKind {
    /// The bytes end within this field.
    Short = 1,
    /// A number is out of its range.
    BadNumber,
    /// An item isn't greater than the one before it.
    BadOrder,
    /// No node or application has this number.
    BadName,
    /// A node isn't in the application's list.
    NotInList,
    /// A heard dot, or the dot of an entry, isn't among the known dots.
    NotKnown,
    /// Bytes follow the last field.
    Trailing,
    /// Out of memory. It carries no information about the bytes.
    NoMemory,
}

impl ReadFaultKind {
    ghost use Rattle.dac_bytes.specs.Faults.{name_of, number_of};

    /// The kind's number in the program's output, 1 to 8.
    pub fn number(self) -> u8
        ensures { result ≡ number_of self }
    {
        self as u8
    }

    /// The kind's name in the program's output, which `Display` prints too.
    pub fn name(self) -> &'static str
        ensures { result.now ≡ name_of self }
    {
        match self {
            ReadFaultKind::Short => "Short",
            ReadFaultKind::BadNumber => "BadNumber",
            ReadFaultKind::BadOrder => "BadOrder",
            ReadFaultKind::BadName => "BadName",
            ReadFaultKind::NotInList => "NotInList",
            ReadFaultKind::NotKnown => "NotKnown",
            ReadFaultKind::Trailing => "Trailing",
            ReadFaultKind::NoMemory => "NoMemory",
        }
    }
}

impl fmt::Display for ReadFaultKind {
    ghost use Rattle.std.specs.Prelude.{Some};
    ghost use Rattle.dac_bytes.specs.Faults.{name_of};

    ghost output = { λ kind. Some (name_of kind) };

    fn fmt<W: fmt::Write>(&self, f: &mut fmt::Formatter<W>) -> fmt::Result {
        f.write_str(self.name())
    }
}

impl Error for ReadFaultKind {}

/// The first fault of a sequence of bytes, from left to right. `Display` prints it as `NAME at P`.
#[derive(Clone, Copy, Debug, PartialEq, Eq, Hash)]
pub struct ReadFault {
    /// The kind of fault.
    pub kind: ReadFaultKind,
    /// The offset of a byte, from 0; 0 for `NoMemory`.
    pub at: usize,
}

impl ReadFault {
    /// A fault of this kind at this offset.
    pub fn new(kind: ReadFaultKind, at: usize) -> Self
        ensures { (result.kind ≡ kind) × (result.at ≡ at) }
    {
        ReadFault { kind, at }
    }
}

impl fmt::Display for ReadFault {
    ghost use Rattle.std.specs.Prelude.{◌++◌, Some, codes};
    ghost use Rattle.std.specs.Fmt.{decimal};
    ghost use Rattle.dac_bytes.specs.Faults.{name_of};

    ghost output = { λ fault. Some (name_of fault.kind ++ (codes " at " ++ decimal fault.at)) };

    fn fmt<W: fmt::Write>(&self, f: &mut fmt::Formatter<W>) -> fmt::Result {
        write!(f, "{} at {}", self.kind, self.at)
    }
}

impl Error for ReadFault {}

fn no_memory() -> ReadFault
    ensures { (result.kind ≡ NoMemory) × (result.at ≡ 0) }
{
    ReadFault::new(ReadFaultKind::NoMemory, 0)
}

impl From<AllocError> for ReadFault {
    ghost from_gives = { λ _ e. (e.kind ≡ NoMemory) × (e.at ≡ 0) };

    fn from(_error: AllocError) -> ReadFault {
        no_memory()
    }
}

impl<T: Drop> From<AllocFailed<T>> for ReadFault {
    ghost from_gives = { λ _ e. (e.kind ≡ NoMemory) × (e.at ≡ 0) };

    fn from(_failed: AllocFailed<T>) -> ReadFault {
        no_memory()
    }
}

impl From<dac_base::NoMemory> for ReadFault {
    ghost from_gives = { λ _ e. (e.kind ≡ NoMemory) × (e.at ≡ 0) };

    fn from(_refused: dac_base::NoMemory) -> ReadFault {
        no_memory()
    }
}
