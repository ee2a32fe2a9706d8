//! What an event other than a tick changes at a running controller.

ghost use Rattle.std.specs.Prelude.{◌≡◌, ◌+◌, ◌≤◌, ◌<◌, ◌∷◌, [], length, IfOk, OnOk, OnErr, None, Some};
ghost use Rattle.std.specs.Arc.{arc_value};
ghost use Rattle.std.specs.Option.{option_to_list};
ghost use Rattle.dac_base.specs.declared.limits.TheConstants.{MAX_COUNTER as LAST_NUMBER};
ghost use Rattle.dac_deltas.specs.KeptDeltas.{trimmed};
ghost use Rattle.dac_meaning.specs.StateValue.{join};
ghost use Rattle.dac_meaning.specs.Meaning.{meaning_of};
ghost use Rattle.dac_meaning.specs.Below.{is_below};
ghost use Rattle.dac_messages.specs.Bodies.{content_of};
ghost use Rattle.dac_peers.specs.Peers.{shipped_to};
ghost use Rattle.dac_model_node.specs.dac_commands.Commands.{next_operation, act_of as said_by};
ghost use Rattle.dac_model_node.specs.dac_commands.Causes.{refusal_of_command as refused_command};
ghost use Rattle.dac_node.specs.After.{noted, noting, news, message_notes, gained, dropping};

use crate::running::Running;
use dac_base::{NoMemory, NodeId};
use dac_config::Config;
use dac_deltas::{Buffer, Staged};
use dac_events::Command;
use dac_lattice::{Bottom, Lattice};
use dac_messages::{Body, Message};
use dac_model_node::dac_commands::operation_of;
use dac_peers::Peers;
use dac_state::{Op, State};
use std::alloc::Global;
use std::mem::replace;
use std::sync::Arc;

/// What an event other than a tick changes at a running controller: the peer table, and the delta that the event
/// brings, if any. The controller absorbs the delta into its state when the change is applied.
#[derive(Drop)]
pub(crate) struct NoteChange {
    pub(crate) delta: Option<State>,
    pub(crate) peers: Peers,
    /// The number of nodes, if deltas that all others have then acknowledged are dropped.
    pub(crate) trims_for: Option<u8>,
}

impl Running {
    /// The notes of an event that brings this delta, if any, and leaves the peer table as it is.
    fn noting(&self, delta: Option<State>) -> Result<NoteChange, NoMemory>
        ensures { IfOk result (λ notes. notes ≡ noting self.now.peers delta) }
    {
        let peers = self.peers.copy()?;
        Ok(NoteChange {
            delta,
            peers,
            trims_for: None,
        })
    }

    /// The notes of an accepted command, and the operation that it issues.
    pub(crate) fn command(
        &self,
        config: &Config,
        command: Command,
    ) -> Result<(NoteChange, Op), NoMemory>
        requires { refused_command config.now self.now.origin self.now.state command ≡ None }
        ensures notes { IfOk result
            (λ both. both.0 ≡ noting self.now.peers (Some (meaning_of (both.1 ∷ [])))) }
        ensures operation { IfOk result (λ both. both.1
            ≡ next_operation self.now.state self.now.origin
            (said_by config.now self.now.state command)) }
    {
        self.tells_invariant();
        let operation = operation_of(self.alloc, config, self.origin, &self.state, command)?;
        let delta = State::delta_of(self.alloc, &operation)?;
        let notes = self.noting(Some(delta))?;
        Ok((notes, operation))
    }

    /// The notes of a ship to a node, to which then no reply is due.
    pub(crate) fn shipping(&self, to: NodeId) -> Result<NoteChange, NoMemory>
        ensures { IfOk result (λ notes. notes ≡ noting (shipped_to self.now.peers to) None) }
    {
        let peers = self.peers.shipped_to(to)?;
        Ok(NoteChange {
            delta: None,
            peers,
            trims_for: None,
        })
    }

    /// The notes of a message. The caller passes whether its content is known. Deltas that all other nodes have then
    /// acknowledged are dropped.
    pub(crate) fn hearing(
        &self,
        config: &Config,
        message: &Message,
        is_known: bool,
    ) -> Result<NoteChange, NoMemory>
        requires { is_known ≡ is_below (content_of message.now.body) self.now.state }
        ensures { IfOk result (λ notes. notes ≡ message_notes config.now self.now message.now) }
    {
        let count = self.buffer.count();
        let peers = self.peers.heard_from(self.origin, count, message)?;
        let delta = self.copy_content(&message.body, is_known)?;
        Ok(NoteChange {
            delta,
            peers,
            trims_for: Some(config.nodes()),
        })
    }

    /// The notes of a single operation handed. The caller passes whether it is known.
    pub(crate) fn hearing_op(&self, operation: &Op, is_known: bool) -> Result<NoteChange, NoMemory>
        requires { is_known ≡ is_below (meaning_of (operation.now ∷ [])) self.now.state }
        ensures { IfOk result (λ notes. notes
            ≡ noting self.now.peers (news self.now.state (meaning_of (operation.now ∷ [])))) }
    {
        // Most operations handed are known already.
        if is_known {
            return self.noting(None);
        }
        let delta = State::delta_of(self.alloc, operation)?;
        self.noting(Some(delta))
    }

    /// A copy of the content of a message's body, unless it is known.
    fn copy_content(&self, body: &Body, is_known: bool) -> Result<Option<State>, NoMemory>
        requires { is_known ≡ is_below (content_of body.now) self.now.state }
        ensures { IfOk result (λ delta. delta ≡ news self.now.state (content_of body.now)) }
    {
        if is_known {
            return Ok(None);
        }
        match body.state() {
            Some(state) => Ok(Some(state.copy()?)),
            None => Ok(Some(State::bottom(self.alloc))),
        }
    }

    /// Applies the notes of an event. If an allocation fails, nothing changes.
    pub(crate) fn note(&mut self, notes: NoteChange) -> Result<(), NoMemory>
        requires { self.old.kept.count + length (option_to_list notes.delta) ≤ LAST_NUMBER }
        ensures ok { OnOk result (self.new ≡ noted notes self.old) }
        ensures err { OnErr result (self.new ≡ self.old) }
    {
        let NoteChange {
            delta,
            peers,
            trims_for,
        } = notes;
        self.gain(delta)?;
        self.peers = peers;
        self.peers.settle();
        self.drop_acked(trims_for);
        Ok(())
    }

    /// Adds a delta, if there is one, to the state and to the delta log. If an allocation fails, nothing changes.
    fn gain(&mut self, delta: Option<State>) -> Result<(), NoMemory>
        requires { self.old.kept.count + length (option_to_list delta) ≤ LAST_NUMBER }
        ensures ok { OnOk result (self.new ≡ gained (option_to_list delta) self.old) }
        ensures err { OnErr result (self.new ≡ self.old) }
    {
        let Some(delta) = delta else {
            return Ok(());
        };
        let staged = stage(self.alloc, &mut self.buffer, delta)?;
        match absorb_into(self.alloc, &mut self.state, staged.delta()) {
            Ok(()) => {
                self.buffer = staged.commit();
                self.shown.goes_stale();
                Ok(())
            }
            Err(refused) => {
                self.buffer = staged.cancel();
                Err(refused)
            }
        }
    }

    /// Drops the deltas that all others of this number of nodes, if there is one, have acknowledged.
    fn drop_acked(&mut self, nodes: Option<u8>)
        ensures { self.new ≡ dropping nodes self.old }
    {
        let Some(nodes) = nodes else {
            return;
        };
        let base = self.buffer.base();
        let acked = self
            .peers
            .acked_past(&self.state, nodes, self.origin.node, base);
        drop_below(&mut self.buffer, acked);
    }
}

/// Drops the deltas below a number. Usually there are none, and then the log isn't touched.
fn drop_below(buffer: &mut Buffer<State>, n: u64)
    ensures { buffer.new ≡ trimmed buffer.old n }
{
    if n > buffer.base() {
        buffer.trim(n);
    }
}

/// Takes a delta log out of its place, with room for one more delta. If an allocation fails, it stays.
fn stage(alloc: Global, buffer: &mut Buffer<State>, delta: State) -> Result<Staged<State>, NoMemory>
    requires { buffer.old.count < LAST_NUMBER }
    ensures ok { IfOk result (λ staged. staged ≡ (buffer.old, delta)) }
    ensures err { OnErr result (buffer.new ≡ buffer.old) }
{
    match replace(buffer, Buffer::new(alloc)).stage(delta) {
        Ok(staged) => Ok(staged),
        Err(back) => {
            *buffer = back;
            Err(NoMemory)
        }
    }
}

/// Joins another state into a state, in place if it isn't shared. If an allocation fails, nothing changes.
fn absorb_into(alloc: Global, state: &mut Arc<State, Global>, other: &State) -> Result<(), NoMemory>
    ensures ok { OnOk result (arc_value state.new ≡ join (arc_value state.old) other.now) }
    ensures err { OnErr result (arc_value state.new ≡ arc_value state.old) }
{
    if let Some(own) = Arc::get_mut(state) {
        return own.absorb(other);
    }
    let joined = state.join(other)?;
    *state = Arc::new(alloc, joined)?;
    Ok(())
}
