//! The links between closed journals.

ghost use Rattle.std.specs.Prelude.{◌≡◌, ◌≢◌, ◌<◌, ◌≤◌, ◌↔◌, length, IfOk, IsTrue, MatchOption};
ghost use Rattle.dac_base.specs.declared.limits.TheConstants.{MAX_NODES};
ghost use Rattle.dac_crews.specs.Compared.{Linked};
ghost use Rattle.dac_phases.specs.Pairs.{shipper_seat, worker_seat, RowHolds, IsLostTo, LinksHold, IsLostLink};

use dac_base::{NoMemory, NodeId};
use dac_crews::{Closed, Record, SHIPS_OF_PHASE, are_heard, are_ships, sent_by};
use std::alloc::Global;

/// The seat of the shipper to this node.
pub(crate) fn shipper_seat(me: NodeId, other: NodeId) -> u16
    requires { me.0 ≢ other.0 }
    ensures { result ≡ shipper_seat me.0 other.0 }
{
    if other.0 < me.0 {
        2 * u16::from(other.0) + 5
    } else {
        2 * u16::from(other.0) + 3
    }
}

/// The seat of the link worker for this node.
fn worker_seat(me: NodeId, other: NodeId) -> u16
    requires { me.0 ≢ other.0 }
    ensures { result ≡ worker_seat me.0 other.0 }
{
    shipper_seat(me, other) + 1
}

/// Returns whether the records at both ends of a link match.
pub(crate) fn pair_holds(
    alloc: Global,
    phases: usize,
    from: NodeId,
    to: NodeId,
    sender: &[Record],
    receiver: &[Record],
) -> Result<bool, NoMemory>
    requires { from.0 ≢ to.0 }
    ensures { IfOk result (λ b. IsTrue b
        ↔ Linked phases to (shipper_seat from.0 to.0) (worker_seat to.0 from.0) sender.now
        receiver.now) }
{
    let shipper = shipper_seat(from, to);
    let worker = worker_seat(to, from);
    let sent = sent_by(alloc, sender, shipper)?;
    if !are_heard(sent.as_slice(), receiver, worker) {
        return Ok(false);
    }
    let wanted = phases as u128 * SHIPS_OF_PHASE as u128;
    Ok(are_ships(wanted, sender, shipper, to))
}

/// The first node to which the link from this one doesn't match.
fn lost_to(
    alloc: Global,
    phases: usize,
    from: usize,
    sender: &[Record],
    closed: &[Closed],
) -> Result<Option<NodeId>, NoMemory>
    requires { (from < length closed.now) × (length closed.now ≤ MAX_NODES) }
    ensures { IfOk result (λ lost. MatchOption lost (RowHolds phases from sender.now closed.now)
        (λ to. IsLostTo phases from to.0 sender.now closed.now)) }
{
    for to in 0..closed.len() {
        let one = &closed[to];
        if to != from {
            let holds = pair_holds(
                alloc,
                phases,
                NodeId(from as u8),
                NodeId(to as u8),
                sender,
                one.records(),
            )?;
            if !holds {
                return Ok(Some(NodeId(to as u8)));
            }
        }
    }
    Ok(None)
}

/// The first link, by the node that ships and then by the one that hears, whose ends don't match.
pub fn lost_link(
    alloc: Global,
    phases: usize,
    closed: &[Closed],
) -> Result<Option<(NodeId, NodeId)>, NoMemory>
    requires { length closed.now ≤ MAX_NODES }
    ensures { IfOk result (λ lost. MatchOption lost (LinksHold phases closed.now)
        (λ link. IsLostLink phases link.0.0 link.1.0 closed.now)) }
{
    for from in 0..closed.len() {
        let one = &closed[from];
        match lost_to(alloc, phases, from, one.records(), closed)? {
            Some(to) => return Ok(Some((NodeId(from as u8), to))),
            None => {}
        }
    }
    Ok(None)
}
