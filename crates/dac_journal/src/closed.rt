//! A closed journal.

ghost use Rattle.std.specs.Prelude.{◌≡◌};

use crate::record::Record;
use dac_base::NodeId;
use dac_config::Config;
use std::marker::Model;

/// The journal of a closed site: a history of its node.
pub struct Closed {
    pub(crate) config: Config,
    pub(crate) node: NodeId,
    pub(crate) last: u64,
    pub(crate) records: Vec<Record>,
}

impl Drop for Closed {
    fn drop(self) {
        let Closed {
            config: _config,
            node: _node,
            last: _last,
            records: _records,
        } = self;
    }
}

impl Model for Closed {
    ghost use Rattle.dac_config.specs.contracts.config.Config as config_row;
    ghost use Rattle.dac_journal.specs.contracts.record.Record as record_row;
    ghost use Rattle.dac_journal.specs.Journals.{JournalValue, coded_journal, AreHistory, beginning_of};

    ghost Value = { JournalValue };

    ghost coded = { coded_journal config_row.the_row.coded record_row.the_row.coded };

    ghost view = { λ c. record {
      beginning = beginning_of c.config c.node c.last;
      records = c.records.items;
    } };

    ghost invariant = { λ c. AreHistory (beginning_of c.config c.node c.last) c.records.items };
}

impl Closed {
    ghost use Rattle.dac_journal.specs.Journals.{AreHistory};

    /// The node whose history this is.
    pub fn node(&self) -> NodeId
        ensures { result ≡ self.now.beginning.node }
    {
        self.node
    }

    /// The incarnation number of the node before its site was opened; 0 if it never booted.
    pub fn last(&self) -> u64
        ensures { result ≡ self.now.beginning.last }
    {
        self.last
    }

    /// The records, oldest first: a history of the node.
    pub fn records(&self) -> &[Record]
        ensures value { result.now ≡ self.now.records }
        // Each result is that of the model's step, record after record, from a node that is off.
        ensures history { AreHistory self.now.beginning self.now.records }
    {
        self.records.as_slice()
    }
}
