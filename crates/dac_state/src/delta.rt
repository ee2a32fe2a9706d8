//! The parts of an operation's delta.
ghost use Rattle.std.specs.Prelude.{◌≡◌, ◌∷◌, [], IfOk};
ghost use Rattle.dac_meaning.specs.Meaning.{meaning_of};
ghost use Rattle.dac_state.specs.Heard.{heard_given};
ghost use Rattle.dac_state.specs.Parts.{standing_in};

use crate::covering::{drain_in, permit_in, started_in};
use crate::heard::Heard;
use dac_base::NoMemory;
use dac_chains::{Claims, Lives};
use dac_dots::Context;
use dac_lattice::Piece;
use dac_meaning::{Op, laws};
use dac_wishes::StandingWrites;
use std::alloc::Global;

/// The dot of an operation, paired with the dots that it knows: it knows no other if it replaces none.
pub(crate) fn heard_by(alloc: Global, op: &Op, known: &Context) -> Result<Heard, NoMemory>
    requires { known.now ≡ (meaning_of (op.now ∷ [])).known }
    ensures { IfOk result
        (λ heard. heard_given heard known.now ≡ (meaning_of (op.now ∷ [])).heard) }
{
    laws::delta_is_meaning();
    if op.act().over().is_empty() {
        return Ok(Heard::All);
    }
    let mut heard = Context::empty(alloc);
    heard.insert(op.dot())?;
    Ok(Heard::These(heard))
}

/// What stands of an operation, and its known dots.
pub(crate) fn standing_by(alloc: Global, op: &Op) -> Result<StandingWrites, NoMemory>
    ensures { IfOk result (λ made. made ≡ standing_in (meaning_of (op.now ∷ []))) }
{
    laws::delta_is_meaning();
    op.tells_invariant();
    let act = op.act();
    let standing = StandingWrites::delta(
        alloc,
        op.dot(),
        act.over(),
        permit_in(act),
        started_in(act),
        drain_in(act),
    )?;
    Ok(standing)
}

/// The life in an operation's delta.
pub(crate) fn lives_by(alloc: Global, op: &Op) -> Result<Lives, NoMemory>
    ensures { IfOk result (λ lives. lives ≡ (meaning_of (op.now ∷ [])).lives) }
{
    laws::delta_is_meaning();
    let act = op.life_act();
    let lives = Lives::delta(alloc, op.dot(), &act)?;
    Ok(lives)
}

/// The claim in an operation's delta.
pub(crate) fn claims_by(alloc: Global, op: &Op) -> Result<Claims, NoMemory>
    ensures { IfOk result (λ claims. claims ≡ (meaning_of (op.now ∷ [])).claims) }
{
    laws::delta_is_meaning();
    let act = op.claim_act();
    let claims = Claims::delta(alloc, op.dot(), &act)?;
    Ok(claims)
}
