//! The prepared next record of a journal.

ghost use Rattle.std.specs.Prelude.{◌≡◌};
ghost use Rattle.std.specs.Option.{option_copied};

use crate::record::{Answer, Call, Record};
use dac_node::Change;
use std::marker::Model;

/// The next record of a journal, the seat's copy of the call, its result, and the change of the node.
///
/// [`Journal::prepare`](crate::Journal::prepare) makes it, and [`Journal::commit`](crate::Journal::commit) applies it.
pub struct Next {
    pub(crate) entry: Record,
    pub(crate) call: Call,
    pub(crate) answer: Answer,
    pub(crate) change: Option<Change>,
}

impl Drop for Next {
    fn drop(self) {
        let Next {
            entry: _entry,
            call: _call,
            answer: _answer,
            change: _change,
        } = self;
    }
}

impl Model for Next {
    ghost use Rattle.std.specs.Prelude.{◌≡◌};
    ghost use Rattle.dac_journal.specs.contracts.record.Call as call_row;
    ghost use Rattle.dac_journal.specs.contracts.record.Record as record_row;
    ghost use Rattle.dac_node.specs.contracts.change.Change as change_row;
    ghost use Rattle.dac_journal.specs.Going.{NextValue, coded_next};

    ghost Value = { NextValue };

    ghost coded = { coded_next record_row.the_row.coded call_row.the_row.coded
        change_row.the_row.coded };

    ghost view = { λ n. record { entry = n.entry; call = n.call; change = n.change } };

    ghost invariant = { λ n. n.answer ≡ n.entry.answer };
}

impl Next {
    /// The result of the event: the node's reply or refusal.
    pub fn answer(&self) -> &Answer
        ensures { result.now ≡ self.now.entry.answer }
    {
        &self.entry.answer
    }

    /// The change of the node, or `None` if the node refuses the event.
    pub fn change(&self) -> Option<&Change>
        ensures { option_copied result ≡ self.now.change }
    {
        self.change.as_ref()
    }

    pub(crate) fn into_parts(self) -> (Record, Call, Answer, Option<Change>)
        ensures { result ≡ (self.entry, self.call, self.entry.answer, self.change) }
    {
        let Next {
            entry,
            call,
            answer,
            change,
        } = self;
        (entry, call, answer, change)
    }
}
