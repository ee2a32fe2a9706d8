//! A reader whose reads are counted.

ghost use Rattle.std.specs.Prelude.{◌≡◌, ◌≢◌, ◌+◌, ◌<◌, ◌≤◌, length, IfOk, IfErr, IsTrue, ◌↔◌};
ghost use Rattle.std.specs.IoError.{error_kind};
ghost use Rattle.std.specs.Io.{ReadsAtMost};
ghost use Rattle.std.specs.Io.KnownBytes.{ReadConsumes, IsAtEnd};
ghost use Rattle.dac_script.specs.Sources.{unread, IsOpen};

use std::io;
use std::io::{ErrorKind, Read};
use std::marker::Model;

/// The most reads of one input. It bounds the time that a source which never ends can take.
pub const MAX_READS: u32 = 4_194_304;

/// The outcome of the reads so far.
#[derive(Clone, Copy, Debug, PartialEq, Eq)]
pub enum Progress {
    /// Each read returned bytes or was interrupted.
    Open,
    /// The last read returned the end.
    Ended,
    /// The last read failed, other than by an interrupt.
    Failed,
}

/// A reader with the number and outcome of its reads.
#[derive(Drop)]
pub struct Source<'a, R: Read> {
    reader: &'a mut R,
    reads: u32,
    progress: Progress,
}

impl<'a, R: Read> Model for Source<'a, R> {
    ghost use Rattle.std.specs.Prelude.{◌≡◌, ◌≤◌};
    ghost use Rattle.std.specs.Io.KnownBytes.{IsAtEnd};
    ghost use Rattle.dac_script.specs.Sources.{Sourced};
    ghost use Rattle.dac_script.specs.declared.source.TheConstants.{MAX_READS};
    ghost use Rattle.dac_script.specs.declared.source.Progress.TheVariants.{Ended};

    ghost Value = { Sourced };

    ghost view = { λ s. record {
      reader = s.reader.ghost_name;
      left = R.remaining s.reader.now;
      reads = s.reads;
      progress = s.progress;
    } };

    ghost invariant = { λ s. (s.reads ≤ MAX_READS)
        × (s.progress ≡ Ended → IsAtEnd (R.remaining s.reader.now)) };
}

impl<'a, R: Read> Source<'a, R> {
    /// A source without reads so far.
    pub fn new(reader: &'a mut R) -> Self
        ensures { result ≡ unread reader.entry.ghost_name (R.remaining reader.old) }
    {
        Source {
            reader,
            reads: 0,
            progress: Progress::Open,
        }
    }

    /// Returns the reader, positioned after the last read.
    pub fn into_reader(self) -> &'a mut R
        ensures same_reader { result.ghost_name ≡ self.entry.reader }
        ensures left { R.remaining result.now ≡ self.entry.left }
    {
        let Source {
            reader,
            reads: _reads,
            progress: _progress,
        } = self;
        reader
    }

    /// Returns whether another read is allowed: none met the end or failed, and there were fewer than [`MAX_READS`].
    pub(crate) fn is_open(&self) -> bool
        ensures value { IsTrue result ↔ IsOpen self.now }
        ensures most { self.now.reads ≤ MAX_READS }
    {
        self.progress == Progress::Open && self.reads < MAX_READS
    }

    /// The outcome of the reads so far.
    pub fn progress(&self) -> Progress
        ensures value { result ≡ self.now.progress }
        ensures end { self.now.progress ≡ Progress.Ended → IsAtEnd self.now.left }
    {
        self.progress
    }

    /// Reads once and counts it. An interrupted read leaves the source open.
    pub(crate) fn read(&mut self, buffer: &mut [u8]) -> io::Result<usize>
        requires is_open { IsOpen self.old }
        requires room { 0 < length buffer.old }
        ensures same_reader { self.new.reader ≡ self.old.reader }
        ensures bound { ReadsAtMost result buffer.new }
        ensures bytes { ReadConsumes self.old.left self.new.left result buffer.new }
        ensures counted { self.new.reads ≡ self.old.reads + 1 }
        ensures ended { IfOk result (λ n. n ≡ 0 → self.new.progress ≡ Progress.Ended) }
        ensures more { IfOk result (λ n. 0 < n → self.new.progress ≡ Progress.Open) }
        ensures interrupted { IfErr result
            (λ e. error_kind e ≡ ErrorKind.Interrupted → self.new.progress ≡ Progress.Open) }
        ensures failed { IfErr result
            (λ e. error_kind e ≢ ErrorKind.Interrupted → self.new.progress ≡ Progress.Failed) }
    {
        let result = self.reader.read(buffer);
        self.reads += 1;
        self.progress = match &result {
            Ok(0) => Progress::Ended,
            Ok(_) => Progress::Open,
            Err(error) => match error.kind() {
                ErrorKind::Interrupted => Progress::Open,
                _ => Progress::Failed,
            },
        };
        result
    }
}
