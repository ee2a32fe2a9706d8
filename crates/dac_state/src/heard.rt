//! The dots heard, stored relative to the dots known.
ghost use Rattle.std.specs.Prelude.{◌≡◌, ◌↔◌, true, IsTrue, IfOk, OnOk, OnErr};
ghost use Rattle.std.specs.FinSet as set;
ghost use Rattle.dac_origins.specs.Dots.{IsSubset};
ghost use Rattle.dac_wishes.specs.StandingValue.{join_standing};
ghost use Rattle.dac_state.specs.Heard.{heard_given};

use dac_base::NoMemory;
use dac_dots::Context;
use dac_wishes::{AbsorbStanding, StandingWrites};

/// The dots heard, a subset of the dots known.
#[derive(Drop)]
pub(crate) enum Heard {
    /// All known dots were heard.
    All,
    /// Only these dots were heard.
    These(Context),
}

impl Heard {
    /// Stores the dots heard, given the dots known.
    pub(crate) fn of(heard: Context, known: &Context) -> Self
        requires { IsSubset heard known.now }
        ensures { heard_given result known.now ≡ heard }
    {
        if known.is_subset(&heard) {
            Heard::All
        } else {
            Heard::These(heard)
        }
    }

    /// The dots heard, given the dots known.
    pub(crate) fn beside<'a>(&'a self, known: &'a Context) -> &'a Context
        ensures { result.now ≡ heard_given self.now known.now }
    {
        match self {
            Heard::All => known,
            Heard::These(heard) => heard,
        }
    }

    /// Whether all known dots are among `dots`, which include the heard ones.
    fn knows_only(&self, known: &Context, dots: &Context) -> bool
        requires { IsSubset (heard_given self.now known.now) dots.now }
        ensures { IsTrue result → IsSubset known.now dots.now }
    {
        match self {
            Heard::All => true,
            Heard::These(_) => known.is_subset(dots),
        }
    }

    /// Whether all dots known on either side are among `dots`, which include those heard on either side.
    fn both_know_no_more(
        &self,
        known: &Context,
        other: &Self,
        other_known: &Context,
        dots: &Context,
    ) -> bool
        requires mine { IsSubset (heard_given self.now known.now) dots.now }
        requires theirs { IsSubset (heard_given other.now other_known.now) dots.now }
        ensures { IsTrue result → IsSubset known.now dots.now × IsSubset other_known.now dots.now }
    {
        self.knows_only(known, dots) && other.knows_only(other_known, dots)
    }

    /// The dots known on either side, and those heard on either side. Mostly both unions are equal, and then only one
    /// is made.
    #[inline(always)]
    pub(crate) fn join(
        &self,
        known: &Context,
        other: &Self,
        other_known: &Context,
    ) -> Result<(Context, Heard), NoMemory>
        requires mine { IsSubset (heard_given self.now known.now) known.now }
        requires theirs { IsSubset (heard_given other.now other_known.now) other_known.now }
        ensures known { IfOk result (λ dots. dots.0 ≡ set.union known.now other_known.now) }
        ensures heard { IfOk result (λ dots. heard_given dots.1 dots.0
            ≡ set.union (heard_given self.now known.now)
            (heard_given other.now other_known.now)) }
    {
        let heard = self.beside(known).union(other.beside(other_known))?;
        if self.both_know_no_more(known, other, other_known, &heard) {
            return Ok((heard, Heard::All));
        }
        let both = known.union(other_known)?;
        Ok((both, Heard::These(heard)))
    }

    /// Joins the dots heard on the other side into these, and what stands there into `standing`, in place where
    /// possible. After [`NoMemory`] both are unchanged.
    pub(crate) fn absorb(
        &mut self,
        standing: &mut StandingWrites,
        other: &Self,
        other_standing: &StandingWrites,
    ) -> Result<(), NoMemory>
        requires mine { IsSubset (heard_given self.old standing.old.known) standing.old.known }
        requires theirs { IsSubset (heard_given other.now other_standing.now.known)
            other_standing.now.known }
        ensures standing { OnOk result
            (standing.new ≡ join_standing standing.old other_standing.now) }
        ensures heard { OnOk result (heard_given self.new standing.new.known
            ≡ set.union (heard_given self.old standing.old.known)
            (heard_given other.now other_standing.now.known)) }
        ensures err { OnErr result ((standing.new ≡ standing.old) × (self.new ≡ self.old)) }
    {
        match self {
            Heard::All => {
                if other.is_all_with(standing.known(), other_standing.known()) {
                    return standing.absorb(other_standing);
                }
                let theirs = other.beside(other_standing.known());
                let heard = standing.known().union(theirs)?;
                standing.absorb(other_standing)?;
                *self = Heard::These(heard);
            }
            Heard::These(heard) => {
                let theirs = other.beside(other_standing.known());
                absorb_both(heard, theirs, standing, other_standing)?;
                if standing.known().is_subset(heard) {
                    *self = Heard::All;
                }
            }
        }
        Ok(())
    }

    /// Whether all dots that this side knows, given as `known`, were heard here or are among these dots.
    fn is_all_with(&self, dots: &Context, known: &Context) -> bool
        ensures { result ≡ true
            → IsSubset known.now (set.union dots.now (heard_given self.now known.now)) }
    {
        match self {
            Heard::All => true,
            Heard::These(heard) => known.is_within_both(dots, heard),
        }
    }

    /// Whether all of `dots`, which are known, were heard.
    fn has(&self, known: &Context, dots: &Context) -> bool
        requires { IsSubset dots.now known.now }
        ensures { IsTrue result ↔ IsSubset dots.now (heard_given self.now known.now) }
    {
        match self {
            Heard::All => true,
            Heard::These(heard) => dots.is_subset(heard),
        }
    }

    /// Whether the other side knows all dots known here, and heard all dots heard here.
    pub(crate) fn leq(&self, known: &Context, other: &Self, other_known: &Context) -> bool
        requires { IsSubset (heard_given self.now known.now) known.now }
        ensures { IsTrue result
            ↔ IsSubset known.now other_known.now
            × IsSubset (heard_given self.now known.now)
            (heard_given other.now other_known.now) }
    {
        if !known.is_subset(other_known) {
            return false;
        }
        other.has(other_known, self.beside(known))
    }

    /// Whether both sides heard the same dots, given that both know the same.
    pub(crate) fn equal(&self, other: &Self, known: &Context) -> bool
        requires mine { IsSubset (heard_given self.now known.now) known.now }
        requires theirs { IsSubset (heard_given other.now known.now) known.now }
        ensures { IsTrue result
            ↔ (heard_given self.now known.now ≡ heard_given other.now known.now) }
    {
        self.has(known, other.beside(known)) && other.has(known, self.beside(known))
    }

    /// A copy, which shares immutable memory.
    pub(crate) fn copy(&self) -> Result<Self, NoMemory>
        ensures { IfOk result (λ copied. copied ≡ self.now) }
    {
        match self {
            Heard::All => Ok(Heard::All),
            Heard::These(heard) => Ok(Heard::These(heard.copy()?)),
        }
    }
}

/// Joins other dots into `heard`, and what stands on the other side into `standing`, both in place where possible. After
/// [`NoMemory`] both are unchanged.
fn absorb_both(
    heard: &mut Context,
    other_heard: &Context,
    standing: &mut StandingWrites,
    other_standing: &StandingWrites,
) -> Result<(), NoMemory>
    ensures standing { OnOk result
        (standing.new ≡ join_standing standing.old other_standing.now) }
    ensures heard { OnOk result (heard.new ≡ set.union heard.old other_heard.now) }
    ensures err { OnErr result ((standing.new ≡ standing.old) × (heard.new ≡ heard.old)) }
{
    let step = AbsorbStanding {
        other: other_standing,
    };
    if heard.absorb_after(other_heard, &step, standing)? {
        return Ok(());
    }
    let both = heard.union(other_heard)?;
    standing.absorb(other_standing)?;
    *heard = both;
    Ok(())
}
