//! Scripts of any kind of lines.

ghost use Rattle.std.specs.Prelude.{◌≡◌, ℕ, true, List, [], ◌∷◌, ◌++◌, IfOk, IfErr, OnOk, All, map};
ghost use Rattle.dac_config.specs.Table.{Table, node_count};
ghost use Rattle.dac_script.specs.declared.fault.ScriptFaultKind.{ScriptFaultKind as FaultKind};
ghost use Rattle.dac_script.specs.LineFaults.{IsFaultless};
ghost use Rattle.dac_script.specs.Words.{words_of as split_words};
ghost use Rattle.dac_script.specs.Script.{lines_of, is_said, IsReading, ReadsAs, IsScriptFailure, IsLineFailure};

use crate::failure::Failure;
use crate::fault::{ScriptFault, ScriptFaultKind};
use crate::input::first_line;
use crate::words::words_of;
use dac_base::NoMemory;
use dac_config::Config;
use std::alloc::Global;

/// A kind of script lines: those of `sim` or those of `live`.
pub trait ReadsLine: Drop {
    /// The words spell the line.
    ghost spells: { Table → Self → List (List ℕ) → Type 0 };

    /// The kinds of fault that words have.
    ghost has_fault: { Table → List (List ℕ) → FaultKind → Type 0 };

    /// The nodes at which the line acts are below this number.
    ghost has_actors: { ℕ → Self → Type 0 };

    /// Parses the words of a line, or returns their least fault.
    fn read_words(
        alloc: Global,
        config: &Config,
        words: &[&[u8]],
    ) -> Result<Result<Self, ScriptFaultKind>, NoMemory>
        ensures read { IfOk result
            (IsReading spells has_fault config.now (map (λ word. word.now) words.now)) }
        ensures actors { IfOk result (λ said. IfOk said (has_actors (node_count config.now))) };
}

/// Returns false for empty lines and for comments, which begin with `%`.
pub fn is_said(line: &[u8]) -> bool
    ensures { result ≡ is_said line.now }
{
    match line {
        [] => false,
        [first, ..] => *first != b'%',
    }
}

/// Reads the line with this number.
fn read_line<L: ReadsLine>(
    alloc: Global,
    config: &Config,
    number: usize,
    line: &[u8],
) -> Result<L, Failure>
    ensures ok { IfOk result
        (λ said. L.spells config.now said (split_words line.now)
        × IsFaultless (L.has_fault config.now (split_words line.now))) }
    ensures actors { IfOk result (L.has_actors (node_count config.now)) }
    ensures fault { IfErr result (IsLineFailure L.spells L.has_fault config.now number line.now) }
{
    let words = words_of(alloc, line)?;
    match L::read_words(alloc, config, &words)? {
        Ok(said) => Ok(said),
        Err(kind) => Err(Failure::Script(ScriptFault { line: number, kind })),
    }
}

/// Appends the line with this number to the script, unless it's empty or a comment.
fn read_next<L: ReadsLine>(
    alloc: Global,
    config: &Config,
    number: usize,
    line: &[u8],
    script: &mut Vec<L>,
) -> Result<(), Failure>
    ensures ok { OnOk result ((before : List (List ℕ))
        → ReadsAs L.spells L.has_fault config.now before script.old.items
        → ReadsAs L.spells L.has_fault config.now (before ++ line.now ∷ []) script.new.items) }
    ensures actors { OnOk result (All (L.has_actors (node_count config.now)) script.old.items
        → All (L.has_actors (node_count config.now)) script.new.items) }
    ensures fault { IfErr result (λ why. (is_said line.now ≡ true)
        × IsLineFailure L.spells L.has_fault config.now number line.now why) }
{
    if is_said(line) {
        script.push(read_line(alloc, config, number, line)?)?;
    }
    Ok(())
}

/// Reads a script. Lines end at a line feed or at the end of the text, and are counted from 1. Empty lines and lines
/// that begin with `%` are skipped.
///
/// Fails with the least fault of the first faulty line.
pub fn read_lines<L: ReadsLine>(
    alloc: Global,
    config: &Config,
    text: &[u8],
) -> Result<Vec<L>, Failure>
    ensures ok { IfOk result
        (λ script. ReadsAs L.spells L.has_fault config.now (lines_of text.now) script.items) }
    ensures actors { IfOk result (λ script. All (L.has_actors (node_count config.now)) script.items) }
    ensures fault { IfErr result
        (IsScriptFailure L.spells L.has_fault config.now (lines_of text.now)) }
{
    let mut script = Vec::new(alloc);
    let mut rest = text;
    let mut number = 1;
    loop {
        let (line, behind) = first_line(rest);
        read_next(alloc, config, number, line, &mut script)?;
        let Some(behind) = behind else {
            return Ok(script);
        };
        rest = behind;
        number += 1;
    }
}
