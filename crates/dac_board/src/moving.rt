//! The applications and nodes that a change of state can affect.
ghost use Rattle.std.specs.Prelude.{◌≡◌, ◌<◌, ◌+◌, ℕ, get_or, true, false, length};
ghost use Rattle.dac_base.specs.declared.AppId.{AppId as App};
ghost use Rattle.dac_base.specs.declared.limits.TheConstants.{MAX_APPS as MOST_APPS, MAX_NODES as MOST_NODES};
ghost use Rattle.dac_lattice.specs.Search.{AtEachKey};
ghost use Rattle.dac_wishes.specs.Keys.{key_cmp};
ghost use Rattle.dac_board.specs.Grown.{KeepsPair, NodeStays};
ghost use Rattle.dac_board.specs.Marks.{is_marked, is_moved, place_of};
ghost use Rattle.dac_base.specs.declared.NodeId.{NodeId as Node};
ghost use Rattle.dac_wishes.specs.DrainsValue.{origin, drains_at};
ghost use Rattle.std.specs.FinMap as map;
ghost use Rattle.dac_board.specs.Alike.{IsSameOf, IsAbsent};

use dac_base::{AppId, MAX_APPS, MAX_NODES, NodeId};
use dac_lattice::{Flag, Lattice};
use dac_origins::Origin;
use dac_state::{Key, State};
use dac_store::{DotFun, DotStore, Entries};
use std::cmp::Ordering;

/// A change of state, with the parts that it can affect.
#[derive(Clone, Copy)]
pub(crate) struct Grown<'a> {
    /// The state before.
    pub(crate) old: &'a State,
    /// The state now.
    pub(crate) new: &'a State,
    /// By the number of a node, whether its life or the drains at its live incarnation can differ.
    pub(crate) nodes: &'a [bool; MAX_NODES],
    /// A bit for each node at which permits or starts of one application can differ.
    pub(crate) pairs: u64,
    /// All lives and drains are unchanged.
    pub(crate) is_still: bool,
    /// All claims are unchanged.
    pub(crate) is_claimed_alike: bool,
}

/// The nodes that a change of state can affect. Every other node has an unchanged life, and the same drains stand at
/// its live incarnation. Only the first `count` nodes are compared, and none if all lives and drains are unchanged.
pub(crate) fn nodes_moved(
    old: &State,
    new: &State,
    is_still: bool,
    count: usize,
) -> [bool; MAX_NODES]
    requires lives { is_still ≡ true → old.now.lives ≡ new.now.lives }
    requires drains { is_still ≡ true → old.now.drains ≡ new.now.drains }
    ensures { (node : Node) → node.0 < MOST_NODES → get_or result node.0 false ≡ false
        → NodeStays old.now new.now node }
{
    if is_still {
        return [false; MAX_NODES];
    }
    let mut moved = [true; MAX_NODES];
    for place in 0..count.min(MAX_NODES) {
        moved[place] = node_moves(old, new, NodeId(place as u8));
    }
    moved
}

/// Whether a node's life differs, or the drains that stand at its live incarnation.
fn node_moves(old: &State, new: &State, node: NodeId) -> bool
    ensures { result ≡ false → NodeStays old.now new.now node }
{
    if old.lives().greatest_life(node) != new.lives().greatest_life(node) {
        return true;
    }
    match new.lives().live(node) {
        Some(inc) => !same_drains_at(old, new, node, inc),
        None => false,
    }
}

/// Whether the same drains stand at an incarnation.
fn same_drains_at(old: &State, new: &State, node: NodeId, inc: u64) -> bool
    ensures { result ≡ true
        → drains_at (origin node inc) old.now.drains ≡ drains_at (origin node inc) new.now.drains }
{
    old.drains().dots(node, inc) == new.drains().dots(node, inc)
}

/// Whether the node of this number is marked in a word.
pub(crate) fn is_marked(word: u64, number: u8) -> bool
    ensures { result ≡ is_marked word number }
{
    word >> (number % 64) & 1 == 1
}

/// Whether the greatest claim of an application differs.
pub(crate) fn is_claimed_anew(old: &State, new: &State, app: AppId) -> bool
    ensures { result ≡ false → map.get old.now.claims app ≡ map.get new.now.claims app }
{
    match (old.claims().greatest(app), new.claims().greatest(app)) {
        (Some(one), Some(other)) => !one.cmp(&other).is_eq(),
        (None, None) => false,
        _ => true,
    }
}

/// The pairs of an application and a node whose permits or starts can differ, as a bit for each node. At every other
/// pair the same permits and starts stand in both states. It walks once through both.
pub(crate) fn moved_by(old: &State, new: &State) -> [u64; MAX_APPS]
    ensures { (app : App) (node : Node) → app.0 < MOST_APPS
        → is_moved result (app.0, node.0) ≡ false → KeepsPair old.now new.now app node }
{
    let mut moved = [0; MAX_APPS];
    mark(
        &mut moved,
        old.permissions().entries(),
        new.permissions().entries(),
    );
    mark(&mut moved, old.wishes().entries(), new.wishes().entries());
    moved
}

/// Whether a life, or the drains that stand, differ between two states.
pub(crate) fn moves_nodes(old: &State, new: &State) -> bool
    ensures lives { result ≡ false → old.now.lives ≡ new.now.lives }
    ensures drains { result ≡ false → old.now.drains ≡ new.now.drains }
{
    let lives = old.lives().equal(new.lives());
    let drains = same_drains(old.drains().entries(), new.drains().entries());
    !lives || !drains
}

/// Whether the same drains stand in both lists.
fn same_drains(
    old: Entries<'_, Origin, DotFun<Flag>>,
    new: Entries<'_, Origin, DotFun<Flag>>,
) -> bool
    ensures { result ≡ true → old.entry ≡ new.entry }
{
    let mut before = old;
    let mut after = new;
    while let Some(one) = before.next() {
        let Some(other) = after.next() else {
            return false;
        };
        if !one.0.cmp(&other.0).is_eq() || !is_same_store(&one.1, &other.1) {
            return false;
        }
    }
    after.first().is_none()
}

/// Whether two stores are known to be equal.
fn is_same_store<S: DotStore>(one: &S, other: &S) -> bool
    ensures { result ≡ true → one.now ≡ other.now }
{
    one.is_same(other)
}

/// Marks an application at a node.
fn count_moved(moved: &mut [u64; MAX_APPS], key: Key)
    ensures before { (k : ℕ × ℕ) → is_moved moved.new k ≡ false → is_moved moved.old k ≡ false }
    ensures own { (k : ℕ × ℕ) → is_moved moved.new k ≡ false → place_of key ≡ k → ⊥ }
{
    let place = key.app.0 as usize;
    if place < MAX_APPS {
        moved[place] |= 1 << (key.node.0 % 64);
    }
}

/// Marks an application at a node unless the entries there are the same.
fn count_moved_unless(moved: &mut [u64; MAX_APPS], key: Key, same: bool)
    ensures before { (k : ℕ × ℕ) → is_moved moved.new k ≡ false → is_moved moved.old k ≡ false }
    ensures own { (k : ℕ × ℕ) → is_moved moved.new k ≡ false → place_of key ≡ k → same ≡ true }
{
    if !same {
        count_moved(moved, key);
    }
}

/// Marks each application at a key whose stores differ between two states.
fn mark<S: DotStore>(
    moved: &mut [u64; MAX_APPS],
    old: Entries<'_, Key, S>,
    new: Entries<'_, Key, S>,
)
    ensures before { (k : ℕ × ℕ) → is_moved moved.new k ≡ false → is_moved moved.old k ≡ false }
    ensures same { (k : ℕ × ℕ) → is_moved moved.new k ≡ false → IsSameOf k old.entry new.entry }
{
    let mut before = old;
    let mut after = new;
    'walk: while pass(moved, &mut before, &mut after) {}
    mark_rest(moved, before);
    mark_rest(moved, after);
}

/// Consumes the entry of the lesser key, or one of each list if both have one key. Returns whether both lists had an
/// entry.
fn pass<S: DotStore>(
    moved: &mut [u64; MAX_APPS],
    old: &mut Entries<'_, Key, S>,
    new: &mut Entries<'_, Key, S>,
) -> bool
    ensures before { (k : ℕ × ℕ) → is_moved moved.new k ≡ false → is_moved moved.old k ≡ false }
    ensures less { result ≡ true → length old.new + length new.new < length old.old + length new.old }
    ensures same { (k : ℕ × ℕ) → is_moved moved.new k ≡ false
        → IsSameOf k old.new new.new → IsSameOf k old.old new.old }
{
    let Some(one) = old.first() else {
        return false;
    };
    let Some(other) = new.first() else {
        return false;
    };
    match one.0.cmp(&other.0) {
        Ordering::Less => {
            count_moved(moved, one.0);
            old.pass();
            true
        }
        Ordering::Greater => {
            count_moved(moved, other.0);
            new.pass();
            true
        }
        Ordering::Equal => {
            count_moved_unless(moved, one.0, is_same_store(&one.1, &other.1));
            old.pass();
            new.pass();
            true
        }
    }
}

/// Marks each application at the keys of these entries.
fn mark_rest<S: DotStore>(moved: &mut [u64; MAX_APPS], entries: Entries<'_, Key, S>)
    ensures before { (k : ℕ × ℕ) → is_moved moved.new k ≡ false → is_moved moved.old k ≡ false }
    ensures gone { (k : ℕ × ℕ) → is_moved moved.new k ≡ false
        → AtEachKey key_cmp (IsAbsent k) entries.entry }
{
    let mut left = entries;
    while let Some((key, _)) = left.next() {
        count_moved(moved, *key);
    }
}
