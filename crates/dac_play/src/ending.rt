//! The endings of a command.

ghost use Rattle.std.specs.Prelude.{◌≡◌, true};
ghost use Rattle.std.specs.Io.KnownBytes.{Appends};
ghost use Rattle.dac_play.specs.Endings.{status_of, IsRefusal};

use crate::texts::{OUT_OF_MEMORY, failure_line};
use dac_script::Failure;
use std::alloc::Global;
use std::io::Write;

/// How a command ended that reads an input and writes an output.
#[derive(Clone, Copy, Debug, PartialEq, Eq)]
pub enum Ending {
    /// It succeeded, and its whole output was written.
    Done,
    /// The input failed, so nothing was run, and only the failure's line was printed.
    Refused(Failure),
    /// An allocation or a write failed, so the output can be anything.
    Stopped,
}

impl Ending {
    /// The program's exit status: 0 if it succeeded, else 1.
    pub fn status(self) -> u8
        ensures { result ≡ status_of self }
    {
        match self {
            Ending::Done => 0,
            Ending::Refused(_) | Ending::Stopped => 1,
        }
    }
}

/// Writes and flushes a text. Returns whether the output accepted it.
pub fn print<W: Write>(text: &[u8], output: &mut W) -> bool
    ensures { result ≡ true → Appends (W.contents output.old) (W.contents output.new) text.now }
{
    if output.write_all(text).is_err() {
        return false;
    }
    output.flush().is_ok()
}

/// Prints the line of a failure. Without memory for that line it prints [`OUT_OF_MEMORY`] and stops.
pub fn refuse<W: Write>(alloc: Global, failure: Failure, output: &mut W) -> Ending
    ensures { IsRefusal failure result (W.contents output.old) (W.contents output.new) }
{
    let Ok(line) = failure_line(alloc, failure) else {
        let _printed = print(OUT_OF_MEMORY.as_bytes(), output);
        return Ending::Stopped;
    };
    if !print(&line, output) {
        return Ending::Stopped;
    }
    Ending::Refused(failure)
}
