//! Whether a piece already contains the effect of an operation.
ghost use Rattle.std.specs.Prelude.{◌≡◌, ◌↔◌, ◌∷◌, List, IsTrue};
ghost use Rattle.std.specs.FinSet as set;
ghost use Rattle.std.specs.List.{list_all};
ghost use Rattle.dac_origins.specs.declared.dot.Dot.{Dot as DotValue};
ghost use Rattle.dac_origins.specs.Dots.{IsSubset, dot_cmp};
ghost use Rattle.dac_origins.specs.Keys.{has_key};
ghost use Rattle.dac_wishes.specs.KeyedWrites.{same_dot};
ghost use Rattle.dac_wishes.specs.Covering.{drain_act, is_flag_at_most, is_wish_of, let_stand, let_wishes, lets_stand, lets_wish, permit_act, wish_act};
ghost use Rattle.dac_wishes.specs.VoteMeaning.{says_of};
ghost use Rattle.dac_wishes.specs.PermitMeaning.{vote_of as permits_by};
ghost use Rattle.dac_wishes.specs.DrainMeaning.{vote_of as drains_by};

use crate::drain_act::flag_of as drain_flag;
use crate::drains_ref::DrainsRef;
use crate::key::Key;
use crate::permissions_ref::PermissionsRef;
use crate::permit_act::flag_of as permit_flag;
use crate::wishes_ref::WishesRef;
use dac_lattice::Flag;
use dac_origins::{Dot, MapKey, Origin};
use dac_store::{Context, DotFun, DotSet, Entries};

impl PermissionsRef<'_> {
    ghost use Rattle.dac_wishes.specs.PermissionsValue.{IsPermissionsBelow};
    ghost use Rattle.dac_wishes.specs.PermitMeaning.{permit_delta};

    /// Whether the delta of an operation is below these permissions, so that joining it would change nothing. `permit`
    /// is the key that it permits or forbids, if any, and `over` the dots that it replaces.
    pub fn covers(&self, dot: Dot, permit: Option<(Key, bool)>, over: &[Dot]) -> bool
        ensures { IsTrue result
            ↔ IsPermissionsBelow (permit_delta dot (permit_act permit over.now)) self.now }
    {
        knows_all(self.context(), dot, over)
            && let_stand(dot, permit_vote(permit), over, self.entries())
    }
}

impl DrainsRef<'_> {
    ghost use Rattle.dac_wishes.specs.DrainMeaning.{drain_delta};
    ghost use Rattle.dac_wishes.specs.DrainsValue.{AreDrainsBelow};

    /// Whether the delta of an operation is below these drains, so that joining it would change nothing. `drain` is the
    /// incarnation that it drains or undrains, if any, and `over` the dots that it replaces.
    pub fn covers(&self, dot: Dot, drain: Option<(Origin, bool)>, over: &[Dot]) -> bool
        ensures { IsTrue result
            ↔ AreDrainsBelow (drain_delta dot (drain_act drain over.now)) self.now }
    {
        knows_all(self.context(), dot, over)
            && let_stand(dot, drain_vote(drain), over, self.entries())
    }
}

impl WishesRef<'_> {
    ghost use Rattle.dac_wishes.specs.WishMeaning.{wish_delta};
    ghost use Rattle.dac_wishes.specs.WishesValue.{AreWishesBelow};

    /// Whether the delta of an operation is below these wishes, so that joining it would change nothing. `start` is the
    /// key that it starts, if any, and `over` the dots that it replaces.
    pub fn covers(&self, dot: Dot, start: Option<Key>, over: &[Dot]) -> bool
        ensures { IsTrue result
            ↔ AreWishesBelow (wish_delta dot (wish_act start over.now)) self.now }
    {
        knows_all(self.context(), dot, over) && let_wishes(dot, start, over, self.entries())
    }
}

/// The vote of a permit.
pub(crate) fn permit_vote(permit: Option<(Key, bool)>) -> Option<(Key, Flag)>
    ensures { (over : List DotValue) → result ≡ permits_by (permit_act permit over) }
{
    match permit {
        Some((key, value)) => Some((key, permit_flag(value))),
        None => None,
    }
}

/// The vote of a drain.
pub(crate) fn drain_vote(drain: Option<(Origin, bool)>) -> Option<(Origin, Flag)>
    ensures { (over : List DotValue) → result ≡ drains_by (drain_act drain over) }
{
    match drain {
        Some((at, value)) => Some((at, drain_flag(value))),
        None => None,
    }
}

/// Whether a dot and those that it replaces are known.
fn knows_all(known: &Context, dot: Dot, over: &[Dot]) -> bool
    ensures { IsTrue result ↔ IsSubset (set.from_list (dot ∷ over.now)) known.now }
{
    known.contains(dot) && knows_each(known, over)
}

/// Whether each of the dots is known.
fn knows_each(known: &Context, dots: &[Dot]) -> bool
    ensures { result ≡ list_all (λ (d : DotValue). set.contains known.now d) dots.now }
{
    dots.iter().all(|dot| known.contains(*dot))
}

/// Whether two dots are equal.
fn is_same(one: Dot, other: Dot) -> bool
    ensures { result ≡ same_dot one other }
{
    one.cmp(&other).is_eq()
}

/// Whether the list contains the dot.
fn names(dots: &[Dot], dot: Dot) -> bool
    ensures { result ≡ has_key dot_cmp dots.now dot }
{
    dots.iter().any(|named| is_same(dot, *named))
}

/// Whether a value above the operation's delta can contain all these standing votes.
fn let_stand<K: MapKey>(
    dot: Dot,
    vote: Option<(K, Flag)>,
    over: &[Dot],
    entries: Entries<'_, K, DotFun<Flag>>,
) -> bool
    ensures { result ≡ let_stand K.cmp dot vote over.now entries.entry }
{
    let mut left = entries;
    while let Some((key, votes)) = left.next() {
        if !let_stand_at(dot, vote, over, *key, votes.entries()) {
            return false;
        }
    }
    true
}

/// Whether a value above the operation's delta can contain all these standing votes at a key.
fn let_stand_at<K: MapKey>(
    dot: Dot,
    vote: Option<(K, Flag)>,
    over: &[Dot],
    key: K,
    votes: &[(Dot, Flag)],
) -> bool
    ensures { result ≡ list_all (lets_stand K.cmp dot vote over.now key) votes.now }
{
    votes
        .iter()
        .all(|stands| lets_stand(dot, vote, over, key, stands))
}

/// Whether a value above the operation's delta can contain this standing vote at a key: it is the operation's own, with
/// a flag at least the operation's, or the operation doesn't replace it.
fn lets_stand<K: MapKey>(
    dot: Dot,
    vote: Option<(K, Flag)>,
    over: &[Dot],
    key: K,
    stands: &(Dot, Flag),
) -> bool
    ensures { result ≡ lets_stand K.cmp dot vote over.now key stands.now }
{
    if is_same(stands.0, dot) {
        is_flag_at_most(said_of(key, vote), stands.1)
    } else {
        !names(over, stands.0)
    }
}

/// The flag of a vote, if it is at this key.
fn said_of<K: MapKey>(key: K, vote: Option<(K, Flag)>) -> Option<Flag>
    ensures { result ≡ says_of K.cmp key vote }
{
    match vote {
        Some((voted, flag)) => {
            if key.cmp(&voted).is_eq() {
                Some(flag)
            } else {
                None
            }
        }
        None => None,
    }
}

/// Whether there is a flag, and it is at most the standing one.
fn is_flag_at_most(said: Option<Flag>, stands: Flag) -> bool
    ensures { result ≡ is_flag_at_most said stands }
{
    match (said, stands) {
        (None, _) | (Some(Flag::Down), Flag::Up) => false,
        _ => true,
    }
}

/// Whether a value above the operation's delta can contain all these standing wishes.
fn let_wishes(dot: Dot, start: Option<Key>, over: &[Dot], entries: Entries<'_, Key, DotSet>) -> bool
    ensures { result ≡ let_wishes dot start over.now entries.entry }
{
    let mut left = entries;
    while let Some((key, wishes)) = left.next() {
        if !let_wishes_at(dot, start, over, *key, wishes.dots()) {
            return false;
        }
    }
    true
}

/// Whether a value above the operation's delta can contain all these standing wishes at a key.
fn let_wishes_at(dot: Dot, start: Option<Key>, over: &[Dot], key: Key, wishes: &[Dot]) -> bool
    ensures { result ≡ list_all (lets_wish dot start over.now key) wishes.now }
{
    wishes
        .iter()
        .all(|stands| lets_wish(dot, start, over, key, *stands))
}

/// Whether a value above the operation's delta can contain this standing wish at a key: it is the operation's own, or
/// the operation doesn't replace it.
fn lets_wish(dot: Dot, start: Option<Key>, over: &[Dot], key: Key, stands: Dot) -> bool
    ensures { result ≡ lets_wish dot start over.now key stands }
{
    if is_same(stands, dot) {
        is_wish_of(start, key)
    } else {
        !names(over, stands)
    }
}

/// Whether the operation starts the key.
fn is_wish_of(start: Option<Key>, key: Key) -> bool
    ensures { result ≡ is_wish_of start key }
{
    match start {
        Some(wished) => key.cmp(&wished).is_eq(),
        None => false,
    }
}
