//! Inputs of `live`: scripts and their lines.

ghost use Rattle.std.specs.Prelude.{◌≡◌, IfOk, IfErr, IfSome, MatchResult, All, map};
ghost use Rattle.dac_config.specs.Table.{node_count};
ghost use Rattle.dac_script.specs.Forms.{AllTell};
ghost use Rattle.dac_script.specs.Input.{IsReadWithinBound};
ghost use Rattle.dac_script.specs.LineFaults.{IsLeast};
ghost use Rattle.dac_script.specs.LiveCallers.{caller_of, with_caller, HasActors};
ghost use Rattle.dac_script.specs.LiveFaults.{IsAskedWrong, HasFault};
ghost use Rattle.dac_script.specs.LiveForms.{asked_form, SpellsLive};
ghost use Rattle.dac_script.specs.LiveInputs.{SaysLiveScript, IsLiveFailureOf};
ghost use Rattle.dac_script.specs.Script.{lines_of, IsReading, ReadsAs, IsScriptFailure};
ghost use Rattle.dac_script.specs.Sources.{IsReadBy};

use crate::byte_list::ByteList;
use crate::failure::Failure;
use crate::fault::ScriptFaultKind;
use crate::line::{Request, request_for};
use crate::lines::{ReadsLine, read_lines};
use crate::preparing::prepare_lines;
use crate::source::Source;
use crate::values::{Values, least_of, values_of};
use crate::verb::{Role, ask_of, ask_roles};
use crate::words::all_digits;
use dac_base::{NoMemory, NodeId};
use dac_config::Config;
use std::alloc::Global;
use std::io::Read;

/// A line of a live script, other than empty lines and comments.
#[derive(Drop)]
pub enum LiveLine {
    /// A caller sends a request to its node.
    Do {
        /// The node, one of the configuration.
        node: NodeId,
        /// The caller's number, from 1 to 4.
        caller: u8,
        /// The request.
        request: Request,
    },
    /// A caller reads its node's page.
    Read {
        /// The node, one of the configuration.
        node: NodeId,
        /// The caller's number, from 1 to 4.
        caller: u8,
    },
    /// Parses these bytes as a message or an operation, which no node receives.
    Feed(ByteList),
    /// Ends a phase.
    Phase,
}

/// The caller's number, from 1 to 4, without leading zeros.
fn caller_of(word: &[u8]) -> Option<u8>
    ensures { result ≡ caller_of word.now }
{
    match word {
        b"1" => Some(1),
        b"2" => Some(2),
        b"3" => Some(3),
        b"4" => Some(4),
        _ => None,
    }
}

/// Parses the words after a caller's number: its node and request, or `None` for `read`.
#[tactic(auto, using(crate::proofs::LiveLines::asked_fails, crate::proofs::LiveLines::nothing_asked))]
fn asked(
    alloc: Global,
    config: &Config,
    words: &[&[u8]],
) -> Result<Result<(NodeId, Option<Request>), ScriptFaultKind>, NoMemory>
    ensures { IfOk result
        (λ said. MatchResult said
        (λ both. AllTell config.now (asked_form both) (map (λ word. word.now) words.now))
        (IsLeast (IsAskedWrong config.now (map (λ word. word.now) words.now)))) }
{
    let Some((first, rest)) = words.split_first() else {
        return Ok(Err(ScriptFaultKind::BadCount));
    };
    if *first == b"read".as_slice() {
        return match values_of(alloc, config, &[Role::Actor], rest)? {
            Ok(values) => Ok(Ok((values.actor, None))),
            Err(kind) => Ok(Err(kind)),
        };
    }
    let Some(ask) = ask_of(first) else {
        return Ok(Err(ScriptFaultKind::BadWord));
    };
    match values_of(alloc, config, ask_roles(ask), rest)? {
        Ok(values) => Ok(Ok((values.actor, Some(request_for(ask, &values))))),
        Err(kind) => Ok(Err(kind)),
    }
}

/// Combines a caller's number with its request. The lesser of their faults is returned.
fn with_caller(
    caller: Option<u8>,
    said: Result<(NodeId, Option<Request>), ScriptFaultKind>,
) -> Result<LiveLine, ScriptFaultKind>
    ensures { result ≡ with_caller caller said }
{
    match (caller, said) {
        (Some(caller), Ok((node, Some(request)))) => Ok(LiveLine::Do {
            node,
            caller,
            request,
        }),
        (Some(caller), Ok((node, None))) => Ok(LiveLine::Read { node, caller }),
        (Some(_), Err(kind)) => Err(kind),
        (None, Ok(_)) => Err(ScriptFaultKind::BadNumber),
        (None, Err(kind)) => Err(least_of(ScriptFaultKind::BadNumber, kind)),
    }
}

/// Parses the words of a line, or returns their least fault.
#[tactic(auto, using(crate::proofs::LiveLines::read_actors))]
pub fn live_line_of(
    alloc: Global,
    config: &Config,
    words: &[&[u8]],
) -> Result<Result<LiveLine, ScriptFaultKind>, NoMemory>
    ensures read { IfOk result
        (IsReading SpellsLive HasFault config.now (map (λ word. word.now) words.now)) }
    ensures actors { IfOk result (λ said. IfOk said (HasActors (node_count config.now))) }
{
    let Some((first, rest)) = words.split_first() else {
        return Ok(Err(ScriptFaultKind::BadWord));
    };
    if *first == b"phase".as_slice() {
        return match values_of(alloc, config, &[], rest)? {
            Ok(_) => Ok(Ok(LiveLine::Phase)),
            Err(kind) => Ok(Err(kind)),
        };
    }
    if *first == b"feed".as_slice() {
        return match values_of(alloc, config, &[Role::Hex], rest)? {
            Ok(Values { bytes, .. }) => Ok(Ok(LiveLine::Feed(bytes))),
            Err(kind) => Ok(Err(kind)),
        };
    }
    // A word in the place of a caller's number has only digits.
    if !all_digits(first) {
        return Ok(Err(ScriptFaultKind::BadWord));
    }
    let said = asked(alloc, config, rest)?;
    Ok(with_caller(caller_of(first), said))
}

impl ReadsLine for LiveLine {
    ghost spells = { SpellsLive };

    ghost has_fault = { HasFault };

    ghost has_actors = { HasActors };

    fn read_words(
        alloc: Global,
        config: &Config,
        words: &[&[u8]],
    ) -> Result<Result<LiveLine, ScriptFaultKind>, NoMemory> {
        live_line_of(alloc, config, words)
    }
}

/// Reads a script of `distac live`. Lines end at a line feed or at the end of the text, and are counted from 1. Empty
/// lines and lines that begin with `%` are skipped.
///
/// Fails with the least fault of the first faulty line.
pub fn read_live_script(
    alloc: Global,
    config: &Config,
    text: &[u8],
) -> Result<Vec<LiveLine>, Failure>
    ensures ok { IfOk result
        (λ script. ReadsAs SpellsLive HasFault config.now (lines_of text.now) script.items) }
    ensures actors { IfOk result (λ script. All (HasActors (node_count config.now)) script.items) }
    ensures fault { IfErr result
        (IsScriptFailure SpellsLive HasFault config.now (lines_of text.now)) }
{
    read_lines(alloc, config, text)
}

/// Reads and checks a whole input of `distac live`: its size, its configuration, then its script. Fails with the first
/// fault.
pub fn prepare_live<R: Read>(
    alloc: Global,
    source: &mut Source<'_, R>,
) -> Result<(Config, Vec<LiveLine>), Failure>
    ensures says { IfOk result
        (λ both. IfSome source.old.left (λ bytes. SaysLiveScript bytes both.0 both.1.items)) }
    ensures actors { IfOk result (λ both. All (HasActors (node_count both.0)) both.1.items) }
    ensures fails { IfErr result
        (λ why. IfSome source.old.left (λ bytes. IsLiveFailureOf bytes why)) }
    ensures reads { IsReadBy result source.new }
    // Whatever the result, at most one byte beyond the bound was read.
    ensures bound { IsReadWithinBound source.old.left source.new.left }
    ensures same_reader { source.new.reader ≡ source.old.reader }
{
    prepare_lines(alloc, source)
}
