//! Whether a state already has the content of a message or of an operation.

ghost use Rattle.std.specs.Prelude.{◌≡◌, ◌∷◌, []};
ghost use Rattle.dac_meaning.specs.Meaning.{meaning_of};
ghost use Rattle.dac_meaning.specs.Below.{is_below};
ghost use Rattle.dac_node.specs.ByDots.{IsBelowByDots, IsBelowByDot};

use dac_lattice::Lattice;
use dac_state::{Op, State};

/// Returns whether a state is below another.
pub(crate) fn is_below(state: &State, other: &State) -> bool
    ensures { result ≡ is_below state.now other.now }
{
    state.leq(other)
}

/// Returns whether a state is below another, by comparing heard dots.
pub(crate) fn is_below_by_dots(state: &State, other: &State) -> bool
    requires { IsBelowByDots state.now other.now }
    ensures { result ≡ is_below state.now other.now }
{
    state.heard().is_subset(other.heard())
}

/// Returns whether an operation's meaning is below a state.
pub(crate) fn covers(state: &State, operation: &Op) -> bool
    ensures { result ≡ is_below (meaning_of (operation.now ∷ [])) state.now }
{
    state.covers(operation)
}

/// Returns whether an operation's meaning is below a state, by looking for its dot.
pub(crate) fn covers_by_dot(state: &State, operation: &Op) -> bool
    requires { IsBelowByDot operation.now state.now }
    ensures { result ≡ is_below (meaning_of (operation.now ∷ [])) state.now }
{
    state.heard().contains(operation.dot())
}
