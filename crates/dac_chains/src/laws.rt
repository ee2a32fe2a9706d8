//! The orders of claims and of lives, each as a clause of an empty function.
ghost use Rattle.dac_chains.specs.Orders.{ClaimsInWords, LivesInWords};

/// The orders, spelled out. A claim with a later term is greater. With equal terms the claiming node decides, then its
/// incarnation, then how the application came there, and last the previous node. A life of a later incarnation is
/// greater, and at one incarnation down is greater than up.
pub fn orders_in_words()
    ensures claims { ClaimsInWords }
    ensures lives { LivesInWords }
{}
