//! An anti-entropy round: every running node ships to every other one.

ghost use Rattle.std.specs.Prelude.{◌≡◌, ◌≢◌, ◌<◌, IfOk, OnOk, Err, length};
ghost use Rattle.std.specs.Option.{is_some};
ghost use Rattle.std.specs.Result.{is_ok};
ghost use Rattle.dac_config.specs.Table.{node_count};
ghost use Rattle.dac_play.specs.Play.{state_at, IsShared};
ghost use Rattle.dac_play.specs.Sharing.{having_state, after_telling, shared, Leads, IsAnswered};

use crate::pairs::all_pairs;
use crate::states::state_at;
use dac_base::{NoMemory, NodeId};
use dac_config::Config;
use dac_core::{Refusal, What, World, WorldEvent, WorldFault};
use std::alloc::Global;

fn runs(world: &World, node: NodeId) -> bool
    requires { node.0 < length world.now.nodes }
    ensures { result ≡ is_some (state_at world.now node) }
{
    state_at(world, node).is_some()
}

/// The running nodes, by name.
fn running(alloc: Global, config: &Config, world: &World) -> Result<Vec<NodeId>, NoMemory>
    requires { length world.now.nodes ≡ node_count config.now }
    ensures { IfOk result
        (λ nodes. nodes.items ≡ having_state (state_at world.now) (node_count config.now)) }
{
    let mut nodes = Vec::new(alloc);
    for number in 0..config.nodes() {
        let node = NodeId(number);
        if runs(world, node) {
            nodes.push(node)?;
        }
    }
    Ok(nodes)
}

/// Returns whether an event was accepted. An event that failed with `NoMemory` didn't happen, so that stays an error.
fn was_accepted(answer: &Result<(), WorldFault>) -> Result<bool, NoMemory>
    ensures known { IfOk result (λ accepted. accepted ≡ is_ok answer.now) }
    ensures enough { OnOk result (answer.now ≢ Err (WorldFault.Refused Refusal.NoMemory)) }
{
    match answer {
        Ok(()) => Ok(true),
        Err(WorldFault::Refused(Refusal::NoMemory)) => Err(NoMemory),
        Err(_fault) => Ok(false),
    }
}

/// Runs one event and returns whether it was accepted. A refused event doesn't change the world.
#[inline(always)]
fn accepts(config: &Config, world: &mut World, event: &WorldEvent) -> Result<bool, NoMemory>
    ensures count { length world.new.nodes ≡ length world.old.nodes }
    ensures answers { IfOk result
        (λ accepted. IsAnswered config.now world.old event.now accepted world.new) }
{
    let answer = world.pass(config, event);
    was_accepted(&answer)
}

/// Ships from one node to another, and delivers the message at once.
fn tell(config: &Config, world: &mut World, pair: (NodeId, NodeId)) -> Result<(), NoMemory>
    ensures count { length world.new.nodes ≡ length world.old.nodes }
    ensures leads { OnOk result
        (Leads config.now world.old (λ w. after_telling config.now w pair) world.new) }
{
    let (from, to) = pair;
    let ship = WorldEvent {
        node: from,
        what: What::Ship { to },
    };
    let shipped = accepts(config, world, &ship)?;
    if !shipped {
        return Ok(());
    }
    let delivery = WorldEvent {
        node: to,
        what: What::Deliver(world.messages().len() as u64),
    };
    let _heard = accepts(config, world, &delivery)?;
    Ok(())
}

/// Every running node ships to every other one, in the order of names, and each message is delivered at once. A refusal
/// skips to the next pair.
///
/// After [`NoMemory`] some pairs are done and others aren't.
pub fn share(alloc: Global, config: &Config, world: &mut World) -> Result<(), NoMemory>
    requires { length world.old.nodes ≡ node_count config.now }
    ensures count { length world.new.nodes ≡ length world.old.nodes }
    ensures tells { OnOk result (IsShared config.now world.old world.new) }
    ensures leads { OnOk result (Leads config.now world.old (shared config.now) world.new) }
{
    let nodes = running(alloc, config, world)?;
    let pairs = all_pairs(alloc, &nodes)?;
    for pair in &pairs {
        tell(config, world, *pair)?;
    }
    Ok(())
}
