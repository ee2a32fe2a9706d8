//! `distac check`: checks a configuration and prints its canonical text.

ghost use Rattle.std.specs.Prelude.{◌≡◌, IfOk, IfErr, IfSome};
ghost use Rattle.dac_script.specs.Input.{IsReadWithinBound};
ghost use Rattle.dac_script.specs.Sources.{IsReadBy};
ghost use Rattle.dac_play.specs.Checks.{IsCanonicalOf, IsUnchecked, EndsCheck};
ghost use Rattle.dac_play.specs.Endings.{IsLeftAt};

use crate::ending::{Ending, print, refuse};
use dac_config::read_config;
use dac_script::{Failure, Source, read_input};
use std::alloc::Global;
use std::io::{Read, Write};

/// Reads a configuration and returns its canonical text. Size and reading are checked first, then the configuration.
/// Fails with `NoMemory` only if an allocation fails before a fault is found.
pub fn canonical<R: Read>(alloc: Global, source: &mut Source<'_, R>) -> Result<Vec<u8>, Failure>
    ensures says { IfOk result
        (λ text. IfSome source.old.left (λ bytes. IsCanonicalOf bytes text.items)) }
    ensures fails { IfErr result (λ why. IfSome source.old.left (λ bytes. IsUnchecked bytes why)) }
    ensures reads { IsReadBy result source.new }
    ensures bound { IsReadWithinBound source.old.left source.new.left }
    ensures same_reader { source.new.reader ≡ source.old.reader }
{
    let text = read_input(alloc, source)?;
    let config = read_config(alloc, &text)?;
    let canonical = config.canonical_text()?;
    Ok(canonical)
}

/// Reads a configuration and prints its canonical text, or the line of its fault.
pub fn check_source<R: Read, W: Write>(
    alloc: Global,
    source: &mut Source<'_, R>,
    output: &mut W,
) -> Ending
    ensures ends { IfSome source.old.left
        (λ bytes. EndsCheck bytes result (W.contents output.old) (W.contents output.new)) }
    ensures reads { IsLeftAt result source.new }
    // Whatever the result, at most one byte beyond the bound was read.
    ensures bound { IsReadWithinBound source.old.left source.new.left }
    ensures same_reader { source.new.reader ≡ source.old.reader }
{
    let text = match canonical(alloc, source) {
        Ok(text) => text,
        Err(failure) => return refuse(alloc, failure, output),
    };
    if !print(&text, output) {
        return Ending::Stopped;
    }
    Ending::Done
}

/// Like [`check_source`], with an unread reader.
pub fn check<R: Read, W: Write>(alloc: Global, input: &mut R, output: &mut W) -> Ending
    ensures ends { IfSome (R.remaining input.old)
        (λ bytes. EndsCheck bytes result (W.contents output.old) (W.contents output.new)) }
    ensures bound { IsReadWithinBound (R.remaining input.old) (R.remaining input.new) }
{
    let mut source = Source::new(input);
    let ending = check_source(alloc, &mut source, output);
    let _reader = source.into_reader();
    ending
}
