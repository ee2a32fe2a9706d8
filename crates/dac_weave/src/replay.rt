//! Replays one journal alone.

ghost use Rattle.std.specs.Prelude.{◌≡◌, ◌↔◌, IfOk, IsTrue, Ok, Err};
ghost use Rattle.dac_weave.specs.Replay.{IsLongest, Repeats};

use dac_base::{NoMemory, NodeId};
use dac_config::Config;
use dac_events::Refusal;
use dac_journal::{Answer, Closed, Node, Record, is_no_memory};
use dac_messages::Reply;
use std::alloc::Global;

fn is_reply(reply: &Reply, answer: &Answer) -> bool
    ensures { IsTrue result ↔ (answer.now ≡ Ok reply.now) }
{
    match answer {
        Ok(other) => other.equal(reply),
        Err(_) => false,
    }
}

fn is_refusal(why: Refusal, answer: &Answer) -> bool
    ensures { IsTrue result ↔ (answer.now ≡ Err why) }
{
    match answer {
        Ok(_) => false,
        Err(other) => *other == why,
    }
}

/// Repeats a record's event, and returns whether the result is the record's.
fn repeat(config: &Config, me: NodeId, node: &mut Node, entry: &Record) -> Result<bool, NoMemory>
    ensures { IfOk result (λ same. Repeats config.now me node.old entry.now node.new same) }
{
    node.warm(&entry.event);
    match node.prepare(config, me, &entry.event) {
        Ok(change) => {
            let reply = node.apply(change)?;
            Ok(is_reply(&reply, &entry.answer))
        }
        Err(why) => {
            if is_no_memory(why) {
                return Err(NoMemory);
            }
            Ok(is_refusal(why, &entry.answer))
        }
    }
}

/// How many records, from the first on, agree with a replay from a node that was never booted.
pub(crate) fn valid_prefix(
    alloc: Global,
    config: &Config,
    journal: &Closed,
) -> Result<usize, NoMemory>
    ensures { IfOk result (IsLongest config.now journal.now) }
{
    let me = journal.node();
    if me.0 >= config.nodes() {
        return Ok(0);
    }
    let records = journal.records();
    let mut node = Node::off(alloc, 0);
    for i in 0..records.len() {
        let same = repeat(config, me, &mut node, &records[i])?;
        if !same {
            return Ok(i);
        }
    }
    Ok(records.len())
}
