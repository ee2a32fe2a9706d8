//! The operations that a controller issues, for accepted commands and for claims.

ghost use Rattle.std.specs.Prelude.{◌≡◌, IfOk, map, false, None};
ghost use Rattle.dac_origins.specs.declared.dot.Origin.{Origin as Incarnation};
ghost use Rattle.dac_operations.specs.Operations.{operation, fault_of};
ghost use Rattle.dac_commands.specs.Commands.{KnowsOwnBoot, next_operation, standing_starts as starts_standing, standing_permits as permits_standing, standing_drains as drains_standing, claim_act, act_of as said_by};
ghost use Rattle.dac_wishes.specs.DrainsValue.{origin};
ghost use Rattle.dac_commands.specs.Causes.{refusal_of_command, terms_used_up, used_up};
ghost use Rattle.dac_commands.specs.Written.{IsWritten};

use crate::counters::next_term;
use crate::keys::{key_of, live_of};
use dac_base::{AppId, NoMemory, NodeId};
use dac_chains::How;
use dac_config::Config;
use dac_events::Command;
use dac_lattice::{Flag, Lattice};
use dac_operations::{Act, Op};
use dac_origins::{Dot, Origin};
use dac_placement::{State, runner};
use dac_wishes::{DotList, Key};
use std::alloc::{AllocError, Global};

/// The operation that an accepted command issues at the incarnation `own` with this state, under the next counter. A
/// takeover claims the application for the controller's node, under the next term, from the node where it runs (after
/// `application:takeover/2` of Erlang/OTP).
pub fn operation_of(
    alloc: Global,
    config: &Config,
    own: Origin,
    state: &State,
    command: Command,
) -> Result<Op, NoMemory>
    requires knows { KnowsOwnBoot own state.now }
    requires accepted { refusal_of_command config.now own state.now command ≡ None }
    ensures next { IfOk result (λ operation. operation
        ≡ next_operation state.now own (said_by config.now state.now command)) }
    // The operation has the next dot and the command's act, which replaces what stands at the live incarnation, or
    // claims the application from where it runs.
    ensures written { IfOk result (IsWritten config.now own state.now command) }
{
    // Standing dots are known, so that the next dot isn't one of them.
    Lattice::tells_invariant(state);
    let act = act_of(alloc, config, state, command)?;
    Ok(issue(own, state, act))
}

/// The operation by which an incarnation claims an application, under the application's next term and its own next
/// counter. `from` is the node from which a failover or takeover takes the application, and `None` for a start or a
/// move. [`terms_used_up`](crate::terms_used_up) and [`dots_used_up`](crate::dots_used_up) return whether a term and a
/// counter are left.
pub fn claim(own: Origin, state: &State, app: AppId, how: How, from: Option<NodeId>) -> Op
    requires knows { KnowsOwnBoot own state.now }
    requires left { used_up state.now own ≡ false }
    requires term { terms_used_up state.now app ≡ false }
    ensures { result ≡ next_operation state.now own (claim_act state.now app how from) }
{
    let act = claim_act(state, app, how, from);
    issue(own, state, act)
}

/// The operation of an act, under the next counter.
fn issue(own: Origin, state: &State, act: Act) -> Op
    requires left { used_up state.now own ≡ false }
    requires sound { fault_of (next_operation state.now own act).dot act ≡ None }
    ensures { result ≡ next_operation state.now own act }
{
    let dot = state.known().next(own).unwrap();
    made_of(dot, act)
}

/// The operation of a dot and an act without a fault.
fn made_of(dot: Dot, act: Act) -> Op
    requires { fault_of dot act ≡ None }
    ensures { result ≡ operation dot act }
{
    Op::new(dot, act).unwrap()
}

/// The act of an accepted command.
fn act_of(alloc: Global, config: &Config, state: &State, command: Command) -> Result<Act, NoMemory>
    requires { (own : Incarnation) × (refusal_of_command config.now own state.now command ≡ None) }
    ensures { IfOk result (λ act. act ≡ said_by config.now state.now command) }
{
    match command {
        Command::Down { node } => Ok(Act::Down {
            node,
            inc: live_of(state, node),
        }),
        Command::Permit { app, node, value } => {
            let key = key_of(state, app, node);
            let over = standing_permits(alloc, state, key)?;
            Ok(Act::Permit { key, value, over })
        }
        Command::Start { app, node } => {
            let key = key_of(state, app, node);
            let over = standing_starts(alloc, state, key)?;
            Ok(Act::Start { key, over })
        }
        Command::Stop { app, node } => {
            let key = key_of(state, app, node);
            let over = standing_starts(alloc, state, key)?;
            Ok(Act::Stop { key, over })
        }
        Command::Drain { node, value } => {
            let inc = live_of(state, node);
            let over = standing_drains(alloc, state, node, inc)?;
            Ok(Act::Drain {
                node,
                inc,
                value,
                over,
            })
        }
        Command::Takeover { app } => {
            let from = runner(config, state, app);
            Ok(claim_act(state, app, How::Takeover, from))
        }
    }
}

/// The act that claims an application under its next term.
fn claim_act(state: &State, app: AppId, how: How, from: Option<NodeId>) -> Act
    requires { terms_used_up state.now app ≡ false }
    ensures { result ≡ claim_act state.now app how from }
{
    let term = next_term(state, app);
    Act::Claim {
        app,
        term,
        how,
        from,
    }
}

/// The dots of the start wishes that stand at a key.
fn standing_starts(alloc: Global, state: &State, key: Key) -> Result<DotList, NoMemory>
    ensures { IfOk result (λ over. over ≡ starts_standing state.now key) }
{
    let dots = Vec::from_slice(alloc, state.wishes().dots(key))?;
    Ok(DotList::new(dots))
}

/// The dots of the permits that stand at a key.
fn standing_permits(alloc: Global, state: &State, key: Key) -> Result<DotList, NoMemory>
    ensures { IfOk result (λ over. over ≡ permits_standing state.now key) }
{
    let dots = dots_of(alloc, state.permissions().dots(key))?;
    Ok(DotList::new(dots))
}

/// The dots of the drains that stand at an incarnation of a node.
fn standing_drains(
    alloc: Global,
    state: &State,
    node: NodeId,
    inc: u64,
) -> Result<DotList, NoMemory>
    ensures { IfOk result (λ over. over ≡ drains_standing state.now (origin node inc)) }
{
    let dots = dots_of(alloc, state.drains().dots(node, inc))?;
    Ok(DotList::new(dots))
}

/// The dots of votes, in order.
fn dots_of(alloc: Global, votes: &[(Dot, Flag)]) -> Result<Vec<Dot>, AllocError>
    ensures { IfOk result (λ dots. dots.items ≡ map (λ vote. vote.0) votes.now) }
{
    votes.iter().map(|vote| vote.0).collect(alloc)
}
