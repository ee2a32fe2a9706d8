//! Faults of an input and of script lines.

ghost use Rattle.std.specs.Prelude.{◌≡◌};

/// What is wrong with the input as a whole. Numbers and names are part of the program's output.
#[derive(Clone, Copy, Debug, PartialEq, Eq, Hash)]
pub enum InputFault {
    /// The input has more than 2,097,152 bytes.
    TooLong = 1,
    /// No line is `--`, so there is no script.
    NoScript,
    /// A read failed, or the input didn't end within 4,194,304 reads.
    Read,
}

impl InputFault {
    ghost use Rattle.dac_script.specs.Faults.{input_number, input_name};

    /// The number printed for this fault.
    pub fn number(self) -> u8
        ensures { result ≡ input_number self }
    {
        self as u8
    }

    /// The name printed for this fault.
    pub fn name(self) -> &'static str
        ensures { result.now ≡ input_name self }
    {
        match self {
            InputFault::TooLong => "TooLong",
            InputFault::NoScript => "NoScript",
            InputFault::Read => "Read",
        }
    }
}

/// What is wrong with a script line. If a line has several faults, the first in this list is reported. Numbers and
/// names are part of the program's output.
#[derive(Clone, Copy, Debug, PartialEq, Eq, Hash)]
pub enum ScriptFaultKind {
    /// The first word is unknown, or the word after a caller's number is.
    BadWord = 1,
    /// The line has too few or too many words.
    BadCount,
    /// A name isn't an atom, or a flag is neither `true` nor `false`.
    BadName,
    /// A number isn't decimal, has a leading zero or exceeds 2^62, or a caller isn't 1 to 4.
    BadNumber,
    /// A node that must be configured isn't: the one at which the line acts, or one of the two that `same` compares.
    UnknownActor,
    /// Hexadecimal bytes have an odd number of digits, or a character other than 0 to 9 and a to f.
    BadHex,
}

impl ScriptFaultKind {
    ghost use Rattle.dac_script.specs.Faults.{script_number, script_name};

    /// The number printed for this fault.
    pub fn number(self) -> u8
        ensures { result ≡ script_number self }
    {
        self as u8
    }

    /// The name printed for this fault.
    pub fn name(self) -> &'static str
        ensures { result.now ≡ script_name self }
    {
        match self {
            ScriptFaultKind::BadWord => "BadWord",
            ScriptFaultKind::BadCount => "BadCount",
            ScriptFaultKind::BadName => "BadName",
            ScriptFaultKind::BadNumber => "BadNumber",
            ScriptFaultKind::UnknownActor => "UnknownActor",
            ScriptFaultKind::BadHex => "BadHex",
        }
    }
}

/// The fault of a script: that of its first faulty line.
#[derive(Clone, Copy, Debug, PartialEq, Eq, Hash)]
pub struct ScriptFault {
    /// The number of the line, from 1.
    pub line: usize,
    /// The least fault of that line.
    pub kind: ScriptFaultKind,
}
