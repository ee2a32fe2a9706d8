//! Reads an input, and splits it into configuration and script.

ghost use Rattle.std.specs.Prelude.{◌≡◌, ◌≢◌, [], ◌∷◌, ◌++◌, ◌+◌, ◌<◌, ◌≤◌, length, All, IfOk, IfErr, OnErr, IfSome, IfNone, MatchOption};
ghost use Rattle.dac_script.specs.Script.{lines_of};
ghost use Rattle.dac_script.specs.Input.{IsTaken, divider, line_len, IsParted, IsReadFailure, Takes, TakesAtMost};
ghost use Rattle.dac_script.specs.Sources.{IsOpen, IsReadBy};
ghost use Rattle.dac_script.specs.declared.source.Progress.TheVariants.{Open};

use crate::failure::Failure;
use crate::fault::InputFault;
use crate::source::{Progress, Source};
use dac_base::NoMemory;
use std::alloc::Global;
use std::io::Read;

/// The maximum size of an input, in bytes.
pub const MAX_INPUT: usize = 2_097_152;

const MARK: &[u8] = b"--";

/// The length of the first line, without its line feed.
fn line_len(text: &[u8]) -> usize
    ensures length { result ≡ line_len text.now }
    ensures within { result ≤ length text.now }
{
    text.iter().take_while(|byte| **byte != b'\n').count()
}

/// Returns the first line, and the text after its line feed if it has one.
pub(crate) fn first_line(text: &[u8]) -> (&[u8], Option<&[u8]>)
    ensures last { IfNone result.1 (lines_of text.now ≡ result.0.now ∷ []) }
    ensures whole { IfSome result.1 (λ behind. text.now ≡ result.0.now ++ 10 ∷ behind.now) }
    ensures more { IfSome result.1
        (λ behind. lines_of text.now ≡ result.0.now ∷ lines_of behind.now) }
{
    let (line, behind) = text.split_at(line_len(text));
    match behind {
        [] => (line, None),
        [_, behind @ ..] => (line, Some(behind)),
    }
}

/// Splits an input at its first line `--`. Returns the lines before it, with their line feeds, and the text after it,
/// or `None` if no line is `--`.
pub fn split_input(text: &[u8]) -> Option<(&[u8], &[u8])>
    ensures { MatchOption result (All (λ line. line ≢ divider) (lines_of text.now))
        (λ parts. IsParted text.now parts.0.now parts.1.now) }
{
    let mut rest = text;
    loop {
        let (line, behind) = first_line(rest);
        if line == MARK {
            let (config, _) = text.split_at(text.len() - rest.len());
            return Some((config, behind.unwrap_or(&[])));
        }
        rest = behind?;
    }
}

/// Reads at most `room` bytes and appends them to `text`.
fn read_on<R: Read>(
    source: &mut Source<'_, R>,
    room: usize,
    text: &mut Vec<u8>,
) -> Result<(), NoMemory>
    requires is_open { IsOpen source.old }
    requires room { 0 < room }
    ensures same_reader { source.new.reader ≡ source.old.reader }
    ensures taken { Takes source.old.left source.new.left room text.old.items text.new.items
        result }
    ensures counted { source.new.reads ≡ source.old.reads + 1 }
    ensures more { length text.old.items < length text.new.items → source.new.progress ≡ Open }
    ensures lacked { OnErr result (source.new.progress ≡ Open) }
{
    let mut buffer = [0u8; 4096];
    let room = room.min(buffer.len());
    let Ok(count) = source.read(&mut buffer[..room]) else {
        return Ok(());
    };
    if count > 0 {
        text.extend_from_slice(&buffer[..count])?;
    }
    Ok(())
}

/// Reads an input to its end.
///
/// Fails with `TooLong` if it has more than [`MAX_INPUT`] bytes, with `Read` if a read fails or the input doesn't end
/// within [`MAX_READS`] reads, and with `NoMemory`.
pub fn read_input<R: Read>(alloc: Global, source: &mut Source<'_, R>) -> Result<Vec<u8>, Failure>
    ensures whole { IfOk result (λ text. IfSome source.old.left (λ bytes. text.items ≡ bytes)) }
    ensures short { IfOk result (λ text. IsTaken text.items) }
    ensures stops { TakesAtMost source.old.left source.new.left (MAX_INPUT + 1) }
    ensures same_reader { source.new.reader ≡ source.old.reader }
    ensures failed { IfErr result (IsReadFailure MAX_INPUT source.old.left) }
    ensures reads { IsReadBy result source.new }
{
    let mut text = Vec::new(alloc);
    // Interrupted reads are repeated.
    while source.is_open() {
        let room = MAX_INPUT + 1 - text.len();
        read_on(source, room, &mut text)?;
        if text.len() > MAX_INPUT {
            return Err(Failure::Input(InputFault::TooLong));
        }
    }
    match source.progress() {
        Progress::Ended => Ok(text),
        Progress::Open | Progress::Failed => Err(Failure::Input(InputFault::Read)),
    }
}
