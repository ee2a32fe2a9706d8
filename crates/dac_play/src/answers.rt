//! The lines printed for the result of an event.

ghost use Rattle.std.specs.Prelude.{◌≡◌, ◌≢◌, ◌<◌, IfOk, OnOk};
ghost use Rattle.dac_core.specs.ModelWorld.{out_of_memory};
ghost use Rattle.dac_config.specs.Table.{node_count, node_name};
ghost use Rattle.dac_play.specs.Answers.{reply_text, asked_number, fault_text, answer_text};

use crate::texts::{
    booted_line, crashed_line, gave_up_line, heard_line, held_line, issued_line, no_message_line,
    no_operation_line, refused_line, shipped_line,
};
use crate::ticks::ticked_lines;
use dac_base::{NoMemory, NodeId};
use dac_config::Config;
use dac_core::{Refusal, Reply, What, WorldEvent, WorldFault};
use std::alloc::Global;

/// The world's totals, including the event just printed.
#[derive(Clone, Copy, Debug, PartialEq, Eq)]
pub struct Counts {
    /// Operations issued so far.
    pub operations: usize,
    /// Messages shipped so far.
    pub messages: usize,
}

/// The lines for a node's reply.
fn reply_line(
    alloc: Global,
    config: &Config,
    node: NodeId,
    reply: &Reply,
    counts: Counts,
) -> Result<Vec<u8>, NoMemory>
    requires { node.0 < node_count config.now }
    ensures { IfOk result
        (λ line. line.items ≡ reply_text config.now (node_name config.now node) reply.now counts) }
{
    match reply {
        Reply::Booted(operation) => {
            let dot = operation.dot();
            booted_line(alloc, dot.origin.inc, counts.operations)
        }
        Reply::Crashed => {
            let line = Vec::from_slice(alloc, crashed_line().as_bytes())?;
            Ok(line)
        }
        Reply::Issued(operation) => {
            let dot = operation.dot();
            let name = config.node_name(node);
            issued_line(alloc, counts.operations, name, dot.origin.inc, dot.n)
        }
        Reply::Ticked { ops, passed } => ticked_lines(
            alloc,
            config,
            counts.operations,
            ops.as_slice(),
            passed.as_slice(),
        ),
        Reply::Held => {
            let line = Vec::from_slice(alloc, held_line().as_bytes())?;
            Ok(line)
        }
        Reply::GaveUp => {
            let line = Vec::from_slice(alloc, gave_up_line().as_bytes())?;
            Ok(line)
        }
        Reply::Shipped(message) => shipped_line(alloc, counts.messages, &message.body),
        Reply::Heard(fresh) => {
            let line = Vec::from_slice(alloc, heard_line(*fresh).as_bytes())?;
            Ok(line)
        }
    }
}

/// The number of the message or operation to deliver; 0 for other events.
fn asked_number(what: What) -> u64
    ensures { result ≡ asked_number what }
{
    match what {
        What::Deliver(message) => message,
        What::Hand(operation) => operation,
        _ => 0,
    }
}

/// The line for a fault. `NoMemory` has no line, because it ends the run.
fn fault_line(alloc: Global, what: What, fault: WorldFault) -> Result<Vec<u8>, NoMemory>
    ensures text { IfOk result (λ line. line.items ≡ fault_text what fault) }
    ensures enough { OnOk result (fault ≢ WorldFault.Refused Refusal.NoMemory) }
{
    match fault {
        WorldFault::NoSuchNode => {
            let line = Vec::from_slice(alloc, b"no such node\n")?;
            Ok(line)
        }
        WorldFault::NoSuchMessage => no_message_line(alloc, asked_number(what)),
        WorldFault::NoSuchOperation => no_operation_line(alloc, asked_number(what)),
        WorldFault::Refused(Refusal::NoMemory) => Err(NoMemory),
        WorldFault::Refused(why) => refused_line(alloc, why.number(), why.name()),
    }
}

/// The lines for the result of an event, with the counts after it.
///
/// Also fails with [`NoMemory`] if that is the event's result: such an event didn't happen, and the run ends.
pub fn answer_line(
    alloc: Global,
    config: &Config,
    event: &WorldEvent,
    answer: &Result<Reply, WorldFault>,
    counts: Counts,
) -> Result<Vec<u8>, NoMemory>
    requires { event.now.node.0 < node_count config.now }
    ensures text { IfOk result
        (λ line. line.items ≡ answer_text config.now event.now answer.now counts) }
    ensures enough { OnOk result (answer.now ≢ out_of_memory) }
{
    match answer {
        Ok(reply) => reply_line(alloc, config, event.node, reply, counts),
        Err(fault) => fault_line(alloc, event.what, *fault),
    }
}
