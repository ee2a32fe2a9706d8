//! The laws of sweeps, each as a clause of a function that does nothing.
ghost use Rattle.dac_ticks.specs.Again.{SecondTickClaimsNothing};
ghost use Rattle.dac_ticks.specs.InWords.{SweepsInWords};
ghost use Rattle.dac_ticks.specs.TakesEffect.{CommandsTakeEffect};
ghost use Rattle.dac_ticks.specs.Staying.{ClaimsAreLater, ClaimsStay};

/// Sweeps, for every configuration and every state, even one that no operation produced: a sweep agrees with the words, a
/// second tick at the same moment claims nothing, and an accepted command takes effect in the state that its operation
/// leaves.
pub fn sweeps_in_words()
    ensures words { SweepsInWords }
    ensures again { SecondTickClaimsNothing }
    ensures effect { CommandsTakeEffect }
{}

/// Claimed applications stay with their claimer: after each claim and at the end of a tick the verdict keeps them
/// there, and they run there. Each claim is under a later term than any claim of its application before the sweep.
pub fn claims_stay()
    ensures stay { ClaimsStay }
    ensures later { ClaimsAreLater }
{}
