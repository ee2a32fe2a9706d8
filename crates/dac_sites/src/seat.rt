//! A caller's seat at a site.

ghost use Rattle.std.specs.Prelude.{◌≡◌, [], length};

use crate::blank::SiteName;
use dac_journal::Call;
use std::alloc::Global;
use std::marker::Model;
use std::sync::ledger::Share;

/// A client handle of a site, with the calls made by it. Its share of the site's record count is its number of calls.
#[derive(Drop)]
pub struct Seat<L: SiteName> {
    pub(crate) number: u16,
    pub(crate) calls: Vec<Call>,
    pub(crate) share: Share<L>,
    ghost one: { share.parts ≡ 1 },
    ghost counted: { share.amount ≡ length calls.items },
}

impl<L: SiteName> Model for Seat<L> {
    ghost use Rattle.dac_journal.specs.contracts.record.Call as call_row;
    ghost use Rattle.dac_sites.specs.Seats.{SeatValue, coded_seat};

    ghost Value = { SeatValue };

    ghost coded = { coded_seat call_row.the_row.coded };

    ghost view = { λ s. record { number = s.number; calls = s.calls.items } };
}

impl<L: SiteName> Seat<L> {
    /// A seat without calls, and with a share of zero.
    pub(crate) fn new(alloc: Global, number: u16, share: Share<L>) -> Self
        requires { (share.parts ≡ 1) × (share.amount ≡ 0) }
        ensures { result ≡ record { number = number; calls = [] } }
    {
        Seat {
            number,
            calls: Vec::new(alloc),
            share,
        }
    }

    /// The seat's number at its site, from 1.
    pub fn number(&self) -> u16
        ensures { result ≡ self.now.number }
    {
        self.number
    }

    /// The calls made by this seat, oldest first.
    pub fn calls(&self) -> &[Call]
        ensures { result.now ≡ self.now.calls }
    {
        self.calls.as_slice()
    }
}
