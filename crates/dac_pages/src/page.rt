//! The published snapshot of a node, and its updates.

ghost use Rattle.std.specs.Prelude.{◌≡◌, IfOk};

use dac_base::NoMemory;
use dac_origins::Origin;
use dac_status::Summary;
use left_right::Absorb;
use std::alloc::{AllocError, Global};
use std::marker::Model;

/// A snapshot of a node: plain data of a fixed size.
#[derive(Clone, Copy, Debug, PartialEq, Eq)]
pub struct Page {
    /// The number of records in the journal.
    pub place: u64,
    /// The present incarnation, or `None` if the node is off.
    pub origin: Option<Origin>,
    /// The summary of the node's state; of the bottom state if the node is off.
    pub summary: Summary,
}

impl Page {
    /// Copies a page part by part, because `*self = *other` copies it to the stack first.
    fn copy_from(&mut self, other: &Page)
        ensures { self.new ≡ other.now }
    {
        let summary = &other.summary;
        self.place = other.place;
        self.origin = other.origin;
        self.summary.heard = summary.heard;
        self.summary.known = summary.known;
        self.summary.lives = summary.lives;
        self.summary.drained = summary.drained;
        self.summary.apps.copy_from_slice(&summary.apps);
    }
}

/// An update of a page. It is small, since a page is several KiB.
#[derive(Drop)]
pub enum Update {
    /// Sets the place. The rest of the page stays.
    Place(u64),
    /// Replaces the page.
    Whole(Box<Page>),
}

/// One of the two copies of the published page. Contracts see the page.
#[derive(Drop)]
pub struct PageCopy {
    page: Box<Page>,
}

impl Model for PageCopy {
    ghost use Rattle.dac_pages.specs.declared.page.Page.{Page};

    ghost Value = { Page };

    ghost view = { λ copy. copy.page.value };
}

impl PageCopy {
    /// A copy of this page.
    pub(crate) fn of(alloc: Global, page: Page) -> Result<PageCopy, NoMemory>
        ensures { IfOk result (λ copy. copy ≡ page) }
    {
        let page = Box::new(alloc, page)?;
        Ok(PageCopy { page })
    }

    /// The page.
    pub(crate) fn page(&self) -> &Page
        ensures { result.now ≡ self.now }
    {
        &self.page
    }
}

impl Absorb<Update> for PageCopy {
    ghost use Rattle.dac_pages.specs.Published.{updated};

    type State = Page;

    ghost state = { λ copy. copy };

    ghost applied = { updated };

    ghost never_fails = { Unit {0} };

    fn absorb_first(&mut self, operation: &Update, _other: &PageCopy) -> Result<(), AllocError> {
        match operation {
            Update::Place(place) => self.page.place = *place,
            Update::Whole(page) => self.page.copy_from(page),
        }
        Ok(())
    }

    // The second copy takes the box itself.
    fn absorb_second(&mut self, operation: Update, _other: &PageCopy) -> Result<(), Update> {
        match operation {
            Update::Place(place) => self.page.place = place,
            Update::Whole(page) => self.page = page,
        }
        Ok(())
    }
}
