//! The rule of the pages: places never decrease.

use crate::page::PageCopy;
use crossbeam_utils::rule::{Outcome, Protocol};

/// The protocol of the pages. A view is a place that was reached.
pub struct Rises;

impl Protocol<PageCopy, u64> for Rises {
    ghost use Rattle.dac_pages.specs.Rising.{AllBelow};

    ghost holds = { λ p. AllBelow p.place };

    ghost first = { 0 };
}

/// A page was read or published, and its place isn't below the view.
pub(crate) struct Sees;

impl Outcome<PageCopy, u64> for Sees {
    ghost use Rattle.std.specs.Prelude.{◌≡◌, ◌≤◌};

    ghost then = { λ v x y w. (v ≤ x.place) × (w ≡ y.place) };
}
