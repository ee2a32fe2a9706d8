//! Compares a call with a record of a journal.

ghost use Rattle.std.specs.Prelude.{◌≡◌, ◌↔◌, IsTrue};
ghost use Rattle.dac_journal.specs.Journals.{call_of};

use dac_journal::{Call, Record, same_answer};

/// Returns whether the call is this record at this place.
pub(crate) fn is_record(call: &Call, place: u64, one: &Record) -> bool
    ensures { IsTrue result ↔ (call.now ≡ call_of place one.now.event one.now.answer) }
{
    call.place == place && call.event.equal(&one.event) && same_answer(&call.answer, &one.answer)
}
