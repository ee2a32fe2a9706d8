//! Pages read after receipts.

ghost use Rattle.std.specs.Prelude.{◌≡◌};
ghost use Rattle.dac_workers.specs.Readings.{place_in, least_after, learned_in, IsReading, LeadsTo};

use dac_sites::{Page, PageReader, Receipt, SiteName};

/// The result of a read after a receipt.
#[derive(Drop)]
pub enum Reading {
    /// A page whose place is at least the receipt's.
    Fresh(Page),
    /// An older page, or none.
    Stale(Option<Page>),
}

/// Makes the reader learn the receipt, and returns the receipt's place; 0 without a receipt.
#[tactic(auto, using(crate::proofs::Readings::least_by_clauses))]
fn learn_last<L: SiteName>(last: &mut Option<Receipt<L>>, reader: &mut PageReader<L>) -> u64
    ensures place { result ≡ place_in last.old }
    ensures reader { reader.new ≡ least_after last.old reader.old }
    ensures receipt { last.new ≡ learned_in last.old }
{
    match last {
        Some(receipt) => {
            let place = receipt.place;
            reader.learn(receipt);
            place
        }
        None => 0,
    }
}

/// Reads the newest page, which is fresh if it is at least as new as the last receipt's record. Without a receipt each
/// page is fresh.
///
/// The reader first learns the receipt. Unless the receipt was changed or learned before, a read is stale only if it
/// returns no page. An older page is possible if the receipt's owner has written a later place, or if another reader
/// was the first to learn it.
pub fn fresh_page<L: SiteName>(last: &mut Option<Receipt<L>>, reader: &mut PageReader<L>) -> Reading
    ensures page { IsReading (place_in last.old) result }
    // The least place of the next page is that of the page read, or the one learned.
    ensures reader { LeadsTo (least_after last.old reader.old) result reader.new }
    ensures receipt { last.new ≡ learned_in last.old }
{
    let least = learn_last(last, reader);
    match reader.read() {
        Some(page) => {
            if page.place >= least {
                Reading::Fresh(page)
            } else {
                Reading::Stale(Some(page))
            }
        }
        None => Reading::Stale(None),
    }
}
