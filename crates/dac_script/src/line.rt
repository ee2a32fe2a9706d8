//! Scripts of `sim` and their lines.

ghost use Rattle.std.specs.Prelude.{◌≡◌, ◌∷◌, IfOk, IfErr, All, map};
ghost use Rattle.dac_config.specs.Table.{node_count};
ghost use Rattle.dac_script.specs.Forms.{event_form, form_of, Spells};
ghost use Rattle.dac_script.specs.Forms.Slot.{Word};
ghost use Rattle.dac_script.specs.Actors.{HasActors};
ghost use Rattle.dac_script.specs.Requests.{what_of};
ghost use Rattle.dac_script.specs.LineFaults.{ask_roles, roles_of, HasFault};
ghost use Rattle.dac_script.specs.Script.{lines_of, IsReading, ReadsAs, IsScriptFailure};
ghost use Rattle.dac_script.specs.Values.{slot_of};
ghost use Rattle.dac_script.specs.Verbs.{ask_text, text_of};

use crate::byte_list::ByteList;
use crate::failure::Failure;
use crate::fault::ScriptFaultKind;
use crate::lines::{ReadsLine, read_lines};
use crate::values::{Values, values_of};
use crate::verb::{Ask, Verb, roles_of, verb_of};
use dac_base::{NoMemory, NodeId};
use dac_config::Config;
use dac_events::{Command, What, WorldEvent};
use std::alloc::Global;

/// A request to a node, by an operator in `sim` or a caller in `live`.
#[derive(Clone, Copy, Debug, PartialEq, Eq)]
pub enum Request {
    /// The node boots.
    Boot {
        /// The time in ms.
        now: u64,
    },
    /// The node crashes.
    Crash,
    /// The node receives a command.
    Command(Command),
    /// The node re-evaluates placement.
    Tick {
        /// The time in ms.
        now: u64,
    },
}

/// A line of a script, other than empty lines and comments.
#[derive(Drop)]
pub enum ScriptLine {
    /// An event at a node.
    Event(WorldEvent),
    /// An anti-entropy round: every running node ships to every other one, and each message is delivered at once.
    Share,
    /// Prints a node's page.
    Page(NodeId),
    /// Prints the bytes of a node's state.
    State(NodeId),
    /// Compares the bytes of two nodes' states.
    Same(NodeId, NodeId),
    /// Prints the bytes of the message with this number.
    Bytes(u64),
    /// Parses these bytes as a message or an operation, which no node receives.
    Feed(ByteList),
}

/// Builds a request from the values of its words.
pub(crate) fn request_for(ask: Ask, values: &Values) -> Request
    ensures { event_form values.now.actor (what_of result)
        ≡ Word (ask_text ask) ∷ map (slot_of values.now) (ask_roles ask) }
{
    let app = values.app;
    let node = values.about;
    match ask {
        Ask::Boot => Request::Boot { now: values.number },
        Ask::Crash => Request::Crash,
        Ask::Tick => Request::Tick { now: values.number },
        Ask::Down => Request::Command(Command::Down { node }),
        Ask::Permit => Request::Command(Command::Permit {
            app,
            node,
            value: values.flag,
        }),
        Ask::Start => Request::Command(Command::Start { app, node }),
        Ask::Stop => Request::Command(Command::Stop { app, node }),
        Ask::Drain => Request::Command(Command::Drain {
            node,
            value: values.flag,
        }),
        Ask::Takeover => Request::Command(Command::Takeover { app }),
    }
}

/// The request as a world event.
fn what_of(request: Request) -> What
    ensures { result ≡ what_of request }
{
    match request {
        Request::Boot { now } => What::Boot { now },
        Request::Crash => What::Crash,
        Request::Command(command) => What::Command(command),
        Request::Tick { now } => What::Tick { now },
    }
}

fn event(node: NodeId, what: What) -> ScriptLine
    ensures { form_of result ≡ event_form node what }
{
    ScriptLine::Event(WorldEvent { node, what })
}

/// Builds a line from the values of its words.
fn line(verb: Verb, values: Values) -> ScriptLine
    ensures { form_of result ≡ Word (text_of verb) ∷ map (slot_of values) (roles_of verb) }
{
    let node = values.actor;
    match verb {
        Verb::Ask(ask) => event(node, what_of(request_for(ask, &values))),
        Verb::Ship => event(node, What::Ship { to: values.about }),
        Verb::Hear => event(node, What::Deliver(values.number)),
        Verb::Hand => event(node, What::Hand(values.number)),
        Verb::Share => ScriptLine::Share,
        Verb::Page => ScriptLine::Page(node),
        Verb::State => ScriptLine::State(node),
        Verb::Same => ScriptLine::Same(node, values.other),
        Verb::Bytes => ScriptLine::Bytes(values.number),
        Verb::Feed => {
            let Values { bytes, .. } = values;
            ScriptLine::Feed(bytes)
        }
    }
}

/// Parses the words of a line, or returns their least fault.
#[tactic(auto, using(crate::proofs::SpelledLines::no_verb))]
pub fn line_of(
    alloc: Global,
    config: &Config,
    words: &[&[u8]],
) -> Result<Result<ScriptLine, ScriptFaultKind>, NoMemory>
    ensures read { IfOk result
        (IsReading Spells HasFault config.now (map (λ word. word.now) words.now)) }
    ensures actors { IfOk result (λ said. IfOk said (HasActors (node_count config.now))) }
{
    let Some((first, rest)) = words.split_first() else {
        return Ok(Err(ScriptFaultKind::BadWord));
    };
    let Some(verb) = verb_of(first) else {
        return Ok(Err(ScriptFaultKind::BadWord));
    };
    match values_of(alloc, config, roles_of(verb), rest)? {
        Ok(values) => Ok(Ok(line(verb, values))),
        Err(kind) => Ok(Err(kind)),
    }
}

impl ReadsLine for ScriptLine {
    ghost spells = { Spells };

    ghost has_fault = { HasFault };

    ghost has_actors = { HasActors };

    fn read_words(
        alloc: Global,
        config: &Config,
        words: &[&[u8]],
    ) -> Result<Result<ScriptLine, ScriptFaultKind>, NoMemory> {
        line_of(alloc, config, words)
    }
}

/// Reads a script of `distac sim`. Lines end at a line feed or at the end of the text, and are counted from 1. Empty
/// lines and lines that begin with `%` are skipped.
///
/// Fails with the least fault of the first faulty line.
pub fn read_script(alloc: Global, config: &Config, text: &[u8]) -> Result<Vec<ScriptLine>, Failure>
    ensures ok { IfOk result
        (λ script. ReadsAs Spells HasFault config.now (lines_of text.now) script.items) }
    ensures actors { IfOk result (λ script. All (HasActors (node_count config.now)) script.items) }
    ensures fault { IfErr result (IsScriptFailure Spells HasFault config.now (lines_of text.now)) }
{
    read_lines(alloc, config, text)
}
