//! The writer of pages.

ghost use Rattle.std.specs.Prelude.{◌≡◌, ◌↔◌, ◌^◌, ◌<◌, None, Some, IsSome, IsTrue, IfOk, MatchResult};
ghost use Rattle.dac_pages.specs.Published.{PagesValue, Follows, latest, updated};

use crate::page::{Page, PageCopy, Update};
use crate::reading::RawReader;
use crate::rule::{Rises, Sees};
use dac_base::NoMemory;
use left_right::writer::Writer;
use std::alloc::Global;
use std::marker::Model;
use std::sync::Wait;

/// The writer of pages, bound to their rule.
pub type PageWriter = Writer<PageCopy, Update, u64, Rises>;

/// Publishes pages. Contracts see the page that readers get, and the prepared one, if any. It can't be dropped: end it
/// with [`Pages::end`].
pub struct Pages {
    writer: Option<PageWriter>,
}

impl Model for Pages {
    ghost use Rattle.dac_pages.specs.Published.{PagesValue, IsWriterReady, published_by};

    ghost Value = { PagesValue };

    ghost view = { λ s. published_by s.writer };

    ghost invariant = { λ s. IsWriterReady s.writer };
}

// Puts the writer back into its empty place.
fn put_back<R: Wait>(rt: &R, home: &mut Option<PageWriter>, writer: PageWriter)
    ensures { home.new ≡ Some writer }
{
    if let Some(other) = home.replace(writer) {
        other.take(rt);
    }
}

impl Pages {
    /// Pages for up to `readers` readers. Readers get `first` until another page is published.
    pub fn open(alloc: Global, first: Page, readers: usize) -> Result<Pages, NoMemory>
        requires { (0 < readers) × (readers < 2 ^ 32) }
        ensures { IfOk result (λ p. p ≡ record { shown = first; ready = None }) }
    {
        let one = PageCopy::of(alloc, first)?;
        let other = PageCopy::of(alloc, first)?;
        match Writer::new(alloc, one, other, readers) {
            Ok(writer) => Ok(Pages {
                writer: Some(writer),
            }),
            Err(_) => Err(NoMemory),
        }
    }

    /// The page that readers get.
    pub fn shown(&self) -> &Page
        ensures { result.now ≡ self.now.shown }
    {
        match &self.writer {
            Some(writer) => writer.published().page(),
            None => unreachable!(),
        }
    }

    /// Returns whether a page is prepared and not published yet.
    pub fn is_ready(&self) -> bool
        ensures { IsTrue result ↔ IsSome self.now.ready }
    {
        match &self.writer {
            Some(writer) => writer.has_pending_operations(),
            None => unreachable!(),
        }
    }

    /// Prepares the page that this update makes of the one prepared last, or of the published one if none is, so that
    /// [`Pages::publish`] can't fail. Readers still get the published page. A failed call changes nothing.
    pub fn prepare(&mut self, update: Update) -> Result<(), NoMemory>
        ensures { MatchResult result
            (λ _. self.new ≡ record { shown = self.old.shown; ready = Some (updated (latest self.old) update) })
            (λ _. self.new ≡ self.old) }
    {
        let Some(writer) = &mut self.writer else {
            return Err(NoMemory);
        };
        match writer.append(update) {
            Ok(()) => Ok(()),
            Err(_) => Err(NoMemory),
        }
    }

    /// Publishes the prepared page: from now on readers get it.
    pub fn publish<R: Wait>(&mut self, rt: &R)
        requires { Follows self.old }
        ensures { (Some self.new.shown ≡ self.old.ready) × (self.new.ready ≡ None) }
    {
        let Pages { writer: home } = self;
        let writer = home.take().unwrap();
        let (writer, _published) = writer.publish_as::<Sees, R>(rt);
        put_back(rt, home, writer);
    }

    /// A reader that has read nothing yet, or `None` if all places for readers are in use, or the count of owners is
    /// full.
    pub fn reader(&self) -> Option<RawReader> {
        match &self.writer {
            Some(writer) => writer.factory().reader().ok(),
            None => None,
        }
    }

    /// Ends publishing, and returns the last page. A read that begins later finds no page.
    pub fn end<R: Wait>(self, rt: &R) -> Page
        ensures { result ≡ self.shown }
    {
        let Pages { writer } = self;
        let last = writer.unwrap().take(rt);
        *last.page()
    }
}
