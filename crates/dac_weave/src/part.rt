//! Journals up to the end of a phase.

ghost use Rattle.std.specs.Prelude.{◌≡◌, length, IfOk};
ghost use Rattle.dac_weave.specs.Cut.{cut_at, cut};

use dac_base::{NoMemory, NodeId};
use dac_journal::{Closed, Record};
use std::alloc::Global;
use std::marker::Model;

/// A journal's first records. Contracts see a journal.
pub(crate) struct Part<'a> {
    journal: &'a Closed,
    records: &'a [Record],
}

impl Drop for Part<'_> {
    fn drop(self) {
        let Part {
            journal: _journal,
            records: _records,
        } = self;
    }
}

impl<'a> Model for Part<'a> {
    ghost use Rattle.dac_journal.specs.contracts.closed.Closed as closed_row;
    ghost use Rattle.dac_journal.specs.Journals.{JournalValue};

    ghost Value = { JournalValue };

    ghost coded = { closed_row.the_row.coded };

    ghost view = { λ p. record {
      beginning = p.journal.now.beginning;
      records = p.records.now;
    } };
}

impl<'a> Part<'a> {
    /// The journal's first `end` records, or all of them if there are fewer.
    fn new(journal: &'a Closed, end: usize) -> Self
        ensures { result ≡ cut_at journal.now end }
    {
        let records = journal.records();
        let (records, _later) = records.split_at(end.min(records.len()));
        Part { journal, records }
    }

    pub(crate) fn node(&self) -> NodeId
        ensures { result ≡ self.now.beginning.node }
    {
        self.journal.node()
    }

    pub(crate) fn last(&self) -> u64
        ensures { result ≡ self.now.beginning.last }
    {
        self.journal.last()
    }

    pub(crate) fn records(&self) -> &'a [Record]
        ensures { result.now ≡ self.now.records }
    {
        self.records
    }
}

/// Each journal up to its end in the row.
pub(crate) fn cut<'a>(
    alloc: Global,
    journals: &'a [Closed],
    row: &[usize],
) -> Result<Vec<Part<'a>>, NoMemory>
    requires { length row.now ≡ length journals.now }
    ensures { IfOk result (λ parts. parts.items ≡ cut journals.now row.now) }
{
    let mut parts = Vec::new(alloc);
    for i in 0..journals.len() {
        let journal = &journals[i];
        parts.push(Part::new(journal, row[i]))?;
    }
    Ok(parts)
}
