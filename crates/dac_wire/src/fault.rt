//! The faults of a packet's bytes.
ghost use Rattle.std.specs.Prelude.{◌≡◌};
ghost use Rattle.dac_wire.specs.Faults.{fault_of_field, kind_of_field};

use dac_bytes::{ReadFault, ReadFaultKind};
use std::error::Error;
use std::fmt;

/// A kind of fault. Its number is its position in this list, from 1. Number and name are part of the program's output.
#[derive(Clone, Copy, Debug, PartialEq, Eq, Hash)]
pub enum WireFaultKind {
    /// There are more than 4,194,304 bytes.
    TooLong = 1,
    /// The bytes don't begin with the format's name, `DAC`.
    BadMagic,
    /// The version is neither 1 nor 2.
    BadVersion,
    /// The mark is that of another configuration.
    OtherConfig,
    /// The bytes end within this field.
    Short,
    /// A number is out of its range, or a dot and an act make no operation.
    BadNumber,
    /// An item isn't greater than the one before it.
    BadOrder,
    /// No node or application has this number.
    BadName,
    /// A node isn't in the application's list.
    NotInList,
    /// A heard dot, or the dot of an entry, isn't among the known dots.
    NotKnown,
    /// Bytes follow the last field.
    Trailing,
    /// Out of memory. It carries no information about the bytes.
    NoMemory,
}

impl WireFaultKind {
    ghost use Rattle.dac_wire.specs.Faults.{name_of, number_of};

    /// The kind's number in the program's output, 1 to 12.
    pub fn number(self) -> u8
        ensures { result ≡ number_of self }
    {
        self as u8
    }

    /// The kind's name in the program's output, which `Display` prints too.
    pub fn name(self) -> &'static str
        ensures { result.now ≡ name_of self }
    {
        match self {
            WireFaultKind::TooLong => "TooLong",
            WireFaultKind::BadMagic => "BadMagic",
            WireFaultKind::BadVersion => "BadVersion",
            WireFaultKind::OtherConfig => "OtherConfig",
            WireFaultKind::Short => "Short",
            WireFaultKind::BadNumber => "BadNumber",
            WireFaultKind::BadOrder => "BadOrder",
            WireFaultKind::BadName => "BadName",
            WireFaultKind::NotInList => "NotInList",
            WireFaultKind::NotKnown => "NotKnown",
            WireFaultKind::Trailing => "Trailing",
            WireFaultKind::NoMemory => "NoMemory",
        }
    }
}

impl fmt::Display for WireFaultKind {
    ghost use Rattle.std.specs.Prelude.{Some};
    ghost use Rattle.dac_wire.specs.Faults.{name_of};

    ghost output = { λ kind. Some (name_of kind) };

    fn fmt<W: fmt::Write>(&self, f: &mut fmt::Formatter<W>) -> fmt::Result {
        f.write_str(self.name())
    }
}

impl Error for WireFaultKind {}

/// The first fault of a sequence of bytes, from left to right. `Display` prints it as `NAME at P`.
#[derive(Clone, Copy, Debug, PartialEq, Eq, Hash)]
pub struct WireFault {
    /// The kind of fault.
    pub kind: WireFaultKind,
    /// The offset of a byte, from 0; 0 for `NoMemory`.
    pub at: usize,
}

impl fmt::Display for WireFault {
    ghost use Rattle.std.specs.Prelude.{◌++◌, Some, codes};
    ghost use Rattle.std.specs.Fmt.{decimal};
    ghost use Rattle.dac_wire.specs.Faults.{name_of};

    ghost output = { λ fault. Some (name_of fault.kind ++ (codes " at " ++ decimal fault.at)) };

    fn fmt<W: fmt::Write>(&self, f: &mut fmt::Formatter<W>) -> fmt::Result {
        write!(f, "{} at {}", self.kind, self.at)
    }
}

impl Error for WireFault {}

/// The kind of packet fault with the same name as this kind of field fault.
fn kind_of_field(kind: ReadFaultKind) -> WireFaultKind
    ensures { result ≡ kind_of_field kind }
{
    match kind {
        ReadFaultKind::Short => WireFaultKind::Short,
        ReadFaultKind::BadNumber => WireFaultKind::BadNumber,
        ReadFaultKind::BadOrder => WireFaultKind::BadOrder,
        ReadFaultKind::BadName => WireFaultKind::BadName,
        ReadFaultKind::NotInList => WireFaultKind::NotInList,
        ReadFaultKind::NotKnown => WireFaultKind::NotKnown,
        ReadFaultKind::Trailing => WireFaultKind::Trailing,
        ReadFaultKind::NoMemory => WireFaultKind::NoMemory,
    }
}

impl WireFault {
    /// A fault of this kind at this offset.
    pub(crate) fn new(kind: WireFaultKind, at: usize) -> Self
        ensures { result ≡ record { kind = kind; at = at } }
    {
        WireFault { kind, at }
    }

    /// The packet fault of a field fault.
    pub(crate) fn of_field(fault: ReadFault) -> Self
        ensures { result ≡ fault_of_field fault }
    {
        WireFault {
            kind: kind_of_field(fault.kind),
            at: fault.at,
        }
    }
}
