//! A node with its journal.

ghost use Rattle.std.specs.Prelude.{◌≡◌, ◌≢◌, ◌≤◌, ◌<◌, ◌++◌, ◌∷◌, [], length, true, false, IfOk, IfErr, OnOk, OnErr};
ghost use Rattle.dac_model_world.specs.Step.{Steps};
ghost use Rattle.dac_journal.specs.declared.limits.TheConstants.{MAX_RECORDS as MOST};
ghost use Rattle.dac_journal.specs.Journals.{beginning_of, EndsAt};
ghost use Rattle.dac_journal.specs.Going.{FitsBy, GoesOnBy, GoesTo, node_by};

use crate::answers::is_no_memory;
use crate::closed::Closed;
use crate::limits::MAX_RECORDS;
use crate::next::Next;
use crate::record::{Answer, Call, Record};
use dac_base::{NoMemory, NodeId};
use dac_config::Config;
use dac_events::Refusal;
use dac_messages::{Event, Reply};
use dac_node::{Change, Node};
use std::alloc::Global;
use std::marker::Model;

/// A node with the log of its events and results. The records are a history of the node, which is in the state that
/// ends it. [`Journal::prepare`] computes the effect of an event, and [`Journal::commit`] applies it and appends its
/// record.
pub struct Journal {
    config: Config,
    me: NodeId,
    last: u64,
    records: Vec<Record>,
    node: Node,
}

impl Drop for Journal {
    fn drop(self) {
        let Journal {
            config: _config,
            me: _me,
            last: _last,
            records: _records,
            node: _node,
        } = self;
    }
}

impl Model for Journal {
    ghost use Rattle.std.specs.Prelude.{length, ◌≤◌};
    ghost use Rattle.dac_config.specs.contracts.config.Config as config_row;
    ghost use Rattle.dac_journal.specs.contracts.record.Record as record_row;
    ghost use Rattle.dac_journal.specs.declared.limits.TheConstants.{MAX_RECORDS as MOST};
    ghost use Rattle.dac_journal.specs.Journals.{JournalValue, coded_journal, EndsAt, beginning_of};

    ghost Value = { JournalValue };

    ghost coded = { coded_journal config_row.the_row.coded record_row.the_row.coded };

    ghost view = { λ j. record {
      beginning = beginning_of j.config j.me j.last;
      records = j.records.items;
    } };

    ghost invariant = { λ j. EndsAt (beginning_of j.config j.me j.last) j.records.items j.node
        × (length j.records.items ≤ MOST) };
}

impl Journal {
    ghost use Rattle.dac_journal.specs.Journals.{AreHistory};

    /// An empty journal of a node that is off. `last` is the number of the node's last incarnation.
    pub fn new(alloc: Global, config: Config, me: NodeId, last: u64) -> Self
        ensures beginning { result.beginning ≡ beginning_of config me last }
        ensures records { result.records ≡ [] }
    {
        Journal {
            config,
            me,
            last,
            records: Vec::new(alloc),
            node: Node::off(alloc, last),
        }
    }

    /// Returns whether the journal has [`MAX_RECORDS`] records.
    pub fn is_full(&self) -> bool
        ensures full { result ≡ true → length self.now.records ≡ MOST }
        ensures room { result ≡ false → length self.now.records < MOST }
        ensures history { AreHistory self.now.beginning self.now.records }
    {
        self.records.len() >= MAX_RECORDS
    }

    /// The records, oldest first: a history of the node, with at most [`MAX_RECORDS`] records.
    pub fn records(&self) -> &[Record]
        ensures value { result.now ≡ self.now.records }
        // Each result is that of the model's step, record after record, from a node that is off.
        ensures history { AreHistory self.now.beginning self.now.records }
        ensures few { length self.now.records ≤ MOST }
    {
        self.records.as_slice()
    }

    /// Drops the node and keeps the journal.
    pub fn close(self) -> Closed
        ensures { result ≡ self }
    {
        let Journal {
            config,
            me,
            last,
            records,
            node: _,
        } = self;
        Closed {
            config,
            node: me,
            last,
            records,
        }
    }

    /// The configuration by which the node decides.
    pub fn config(&self) -> &Config
        ensures { result.now ≡ self.now.beginning.table }
    {
        &self.config
    }

    /// The node, in the state that ends the history.
    pub fn node(&self) -> &Node
        ensures { EndsAt self.now.beginning self.now.records result.now }
    {
        &self.node
    }

    /// Computes the effect of a call of this seat. Contracts see no change: it only calls [`Node::warm`] first, whose
    /// failed allocations are no error.
    pub fn prepare(&mut self, seat: u16, event: Event) -> Result<Next, NoMemory>
        requires { length self.old.records < MOST }
        ensures goes { IfOk result (GoesTo self.old seat event) }
        ensures answered { IfOk result
            (λ next. IfErr next.entry.answer (λ why. why ≢ Refusal.NoMemory)) }
        ensures unchanged { self.new ≡ self.old }
    {
        self.warm(&event);
        self.prepare_next(seat, event)
    }

    fn warm(&mut self, event: &Event)
        ensures { self.new ≡ self.old }
    {
        self.node.warm(event);
    }

    /// Computes the effect of a call of this seat.
    fn prepare_next(&self, seat: u16, event: Event) -> Result<Next, NoMemory>
        requires { length self.now.records < MOST }
        ensures goes { IfOk result (GoesTo self.now seat event) }
        ensures answered { IfOk result
            (λ next. IfErr next.entry.answer (λ why. why ≢ Refusal.NoMemory)) }
    {
        let place = self.records.len() as u64 + 1;
        let kept = event.copy()?;
        let (change, answer, second, third) = prepare_node(
            &self.config,
            self.me,
            &self.node,
            &event,
        )?;
        Ok(Next {
            entry: Record {
                seat,
                event,
                answer,
            },
            call: Call {
                place,
                event: kept,
                answer: second,
            },
            answer: third,
            change,
        })
    }

    /// Applies a prepared event, appends its record, and returns the seat's copy of the call with the result. The
    /// journal must be as it was when [`Journal::prepare`] made `next`.
    pub fn commit(&mut self, next: Next) -> Result<(Call, Answer), NoMemory>
        requires room { length self.old.records < MOST }
        requires follows { GoesOnBy self.old.beginning self.old.records next.entry next.change }
        ensures beginning { self.new.beginning ≡ self.old.beginning }
        ensures ok { IfOk result (λ _. self.new.records ≡ self.old.records ++ next.entry ∷ []) }
        ensures said { IfOk result (λ r. (r.0 ≡ next.call) × (r.1 ≡ next.entry.answer)) }
        ensures history { IfOk result (λ _. AreHistory self.new.beginning self.new.records) }
        ensures unchanged { OnErr result (self.new ≡ self.old) }
    {
        let Journal {
            config: _,
            me: _,
            last: _,
            records,
            node,
        } = self;
        records.reserve(1)?;
        let (entry, call, answer, change) = next.into_parts();
        apply_change(node, change)?;
        records.push_reserved(entry);
        Ok((call, answer))
    }
}

/// The effect of an event on a node, unless it is refused, with three copies of its result.
fn prepare_node(
    config: &Config,
    me: NodeId,
    node: &Node,
    event: &Event,
) -> Result<(Option<Change>, Answer, Answer, Answer), NoMemory>
    ensures steps { IfOk result
        (λ r. Steps config.now me node.now event.now (node_by r.0 node.now) r.1) }
    ensures fits { IfOk result (λ r. FitsBy r.0 node.now) }
    ensures same { IfOk result (λ r. (r.2 ≡ r.1) × (r.3 ≡ r.1)) }
    ensures answered { IfOk result (λ r. IfErr r.1 (λ why. why ≢ Refusal.NoMemory)) }
{
    match node.prepare(config, me, event) {
        Ok(change) => {
            let (reply, second, third) = three_copies(&change)?;
            Ok((Some(change), Ok(reply), Ok(second), Ok(third)))
        }
        Err(why) => {
            if is_no_memory(why) {
                return Err(NoMemory);
            }
            Ok((None, Err(why), Err(why), Err(why)))
        }
    }
}

fn apply_change(node: &mut Node, change: Option<Change>) -> Result<(), NoMemory>
    requires { FitsBy change node.old }
    ensures ok { OnOk result (node.new ≡ node_by change node.old) }
    ensures err { OnErr result (node.new ≡ node.old) }
{
    if let Some(change) = change {
        let _reply = node.apply(change)?;
    }
    Ok(())
}

fn three_copies(change: &Change) -> Result<(Reply, Reply, Reply), NoMemory>
    ensures { IfOk result (λ r. (r.0 ≡ change.now.reply) × (r.1 ≡ change.now.reply)
        × (r.2 ≡ change.now.reply)) }
{
    let one = change.copy_reply()?;
    let second = change.copy_reply()?;
    let third = change.copy_reply()?;
    Ok((one, second, third))
}
