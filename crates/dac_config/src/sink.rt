//! Destinations of a text that is written in pieces.

ghost use Rattle.std.specs.Prelude.{ℕ, List, IfOk};
ghost use Rattle.dac_config.specs.Sinks.{Gains, IsWritten, HasText};

use dac_base::NoMemory;
use std::alloc::Global;

/// A destination of a text that is written in pieces.
pub(crate) trait Sink {
    ghost holds: { Self → List ℕ → Type 0 };

    /// Appends the bytes.
    fn put(&mut self, bytes: &[u8])
        ensures { Gains holds self.old self.new bytes.now };
}

/// A text that is written in pieces. Once memory runs out it ignores further pieces, and [`Text::finish`] fails.
#[derive(Drop)]
pub(crate) struct Text {
    bytes: Vec<u8>,
    is_short: bool,
}

impl Text {
    ghost use Rattle.std.specs.Prelude.{[]};

    pub fn new(alloc: Global) -> Self
        ensures { IsWritten result [] }
    {
        Text {
            bytes: Vec::new(alloc),
            is_short: false,
        }
    }

    /// Returns the text if it is complete.
    pub fn finish(self) -> Result<Vec<u8>, NoMemory>
        ensures { IfOk result (HasText self) }
    {
        let Text { bytes, is_short } = self;
        if is_short {
            return Err(NoMemory);
        }
        Ok(bytes)
    }
}

impl Sink for Text {
    ghost holds = { IsWritten };

    fn put(&mut self, bytes: &[u8]) {
        if !self.is_short {
            self.is_short = self.bytes.extend_from_slice(bytes).is_err();
        }
    }
}
