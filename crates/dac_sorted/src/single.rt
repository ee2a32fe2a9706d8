//! Single elements that can be lent as slices.
ghost use Rattle.std.specs.Prelude.{◌≡◌, [], ◌∷◌, true, IfOk};
ghost use Rattle.std.specs.Arc.{arc_value};
ghost use Rattle.std.specs.Mem.{FitsInMemory};

use dac_origins::NoMemory;
use std::alloc::Global;
use std::marker::Model;
use std::mem::size_of_val;
use std::slice::from_ref;
use std::sync::Arc;

/// Any type. What a slice asks of its elements is a ghost here, so that the invariant of a struct can say it.
pub(crate) trait Element: Drop {
    /// That an element takes no more than half of the address space, as all do.
    ghost is_small: { Type 0 };

    /// Whether that is so, which is known at compile time.
    fn tells_size(&self) -> bool
        ensures { result ≡ true → is_small };

    /// The slice of this element.
    fn in_slice(&self) -> &[Self]
        requires { is_small }
        ensures { result.now ≡ self.now ∷ [] };
}

impl<E: Drop> Element for E {
    ghost is_small = { FitsInMemory E.row };

    fn tells_size(&self) -> bool {
        size_of_val(self) <= isize::MAX as usize
    }

    fn in_slice(&self) -> &[E] {
        from_ref(self)
    }
}

/// An element that can be lent as a slice. Contracts treat it as the element.
#[derive(Drop)]
pub(crate) struct Single<E: Element> {
    element: E,
}

impl<E: Element> Model for Single<E> {
    ghost Value = { E };

    ghost view = { λ a. a.element };

    ghost invariant = { λ _. E.is_small };
}

impl<E: Element> Single<E> {
    /// Stores this element.
    pub(crate) fn of(alloc: Global, element: E) -> Result<Arc<Self, Global>, NoMemory>
        ensures { IfOk result (λ single. arc_value single ≡ element) }
    {
        if !element.tells_size() {
            return Err(NoMemory);
        }
        let single = Arc::new(alloc, Single { element })?;
        Ok(single)
    }

    /// The element.
    pub(crate) fn element(&self) -> &E
        ensures { result.now ≡ self.now }
    {
        &self.element
    }

    /// The slice of the element.
    pub(crate) fn as_slice(&self) -> &[E]
        ensures { result.now ≡ self.now ∷ [] }
    {
        self.element.in_slice()
    }
}
