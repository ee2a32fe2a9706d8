//! Aligned blocks of deltas, and their joins.
ghost use Rattle.std.specs.Prelude.{List, ◌≡◌, ◌+◌, ◌-◌, ◌<◌, ◌≤◌, ◌^◌, ◌++◌, ◌∷◌, [], length, take, drop, IfOk, IfSome, OnOk, OnErr};
ghost use Rattle.std.specs.VecDeque.{deque_len, deque_capacity};
ghost use Rattle.dac_base.specs.declared.limits.TheConstants.{MAX_COUNTER};
ghost use Rattle.dac_deltas.specs.Blocks.{IsLongest};
ghost use Rattle.dac_deltas.specs.BlockEnds.{AreJoined, IsNextJoin, IsJoinOfDeltas, deltas_of, join_at};

use dac_base::NoMemory;
use dac_lattice::Lattice;
use std::alloc::Global;
use std::collections::VecDeque;
use std::marker::Model;

/// The level of the longest blocks, which have 256 deltas.
pub(crate) const MOST_LEVEL: usize = 8;

/// The level of the longest aligned block that begins or ends at `number` and has at most `most` deltas. A block of
/// this level has 2^level of them.
pub(crate) fn level_at(number: u64, most: u64) -> usize
    requires { 0 < most }
    ensures { IsLongest number most result }
{
    let mut level = 0;
    let mut longer = 2;
    while level < MOST_LEVEL && longer <= most && number % longer == 0 {
        level += 1;
        longer *= 2;
    }
    level
}

/// A stored delta, and the joins of the blocks of 2 or more deltas that end with it, the shortest block first. The
/// joins are made when they are needed. Contracts see the delta and the joins made so far.
#[derive(Drop)]
pub(crate) struct BlockEnd<L: Lattice> {
    delta: L,
    joins: Vec<L>,
}

impl<L: Lattice> Model for BlockEnd<L> {
    ghost use Rattle.std.specs.Prelude.{List};

    ghost Value = { L × List L };

    ghost view = { λ e. (e.delta, e.joins.items) };
}

/// The join of the block of twice 2^level deltas that ends with the stored delta at index `i`. `None` unless that is
/// the next join to make and the join of its first half is made.
fn doubled<L: Lattice>(
    kept: &VecDeque<BlockEnd<L>>,
    i: usize,
    level: usize,
) -> Result<Option<L>, NoMemory>
    requires there { i < length kept.now.items }
    requires low { level < MOST_LEVEL }
    requires fits { 2 ^ (level + 1) ≤ i + 1 }
    requires joined { AreJoined L.is_value L.join kept.now.items }
    ensures { IfOk result (λ found. IfSome found (λ joined. (e : L × List L)
        → IsNextJoin L.is_value L.join kept.now.items i level e joined)) }
{
    let end = &kept[i];
    let middle = &kept[i - (1 << level)];
    if end.level() != level || middle.level() < level {
        return Ok(None);
    }
    let joined = middle.block(level).join(end.block(level))?;
    Ok(Some(joined))
}

/// Makes the joins of the blocks that begin with a stored delta from index `begin` on and end with the one at index
/// `i`, as far as those of their first halves are made. The first stored delta has number `base`. After [`NoMemory`]
/// some can be made.
fn make_joins<L: Lattice>(
    kept: &mut VecDeque<BlockEnd<L>>,
    base: u64,
    begin: usize,
    i: usize,
) -> Result<(), NoMemory>
    requires begun { begin ≤ i }
    requires there { i < length kept.old.items }
    requires room { base + length kept.old.items ≤ MAX_COUNTER }
    requires joined { AreJoined L.is_value L.join kept.old.items }
    ensures joined { AreJoined L.is_value L.join kept.new.items }
    ensures same { deltas_of kept.new.items ≡ deltas_of kept.old.items }
{
    let most = (i - begin) as u64 + 1;
    for level in kept[i].level()..level_at(base + i as u64 + 1, most) {
        let Some(joined) = doubled(kept, i, level)? else {
            return Ok(());
        };
        kept[i].add_join(joined)?;
    }
    Ok(())
}

/// Makes the joins of the blocks that begin with a stored delta from index `begin` on and end with one from index
/// `from` on. The first stored delta has number `base`. After [`NoMemory`] some can be made.
pub(crate) fn make_all_joins<L: Lattice>(
    kept: &mut VecDeque<BlockEnd<L>>,
    base: u64,
    begin: usize,
    from: usize,
) -> Result<(), NoMemory>
    requires begun { begin ≤ from }
    requires room { base + length kept.old.items ≤ MAX_COUNTER }
    requires joined { AreJoined L.is_value L.join kept.old.items }
    ensures joined { AreJoined L.is_value L.join kept.new.items }
    ensures same { deltas_of kept.new.items ≡ deltas_of kept.old.items }
{
    for i in from..kept.len() {
        make_joins(kept, base, begin, i)?;
    }
    Ok(())
}

/// The longest block with a join, among those that begin with the stored delta at index `begin` and have at most 2^most
/// deltas: its level and its join.
pub(crate) fn longest_joined<L: Lattice>(
    kept: &VecDeque<BlockEnd<L>>,
    begin: usize,
    most: usize,
) -> (usize, &L)
    requires low { most ≤ MOST_LEVEL }
    requires fits { begin + 2 ^ most ≤ length kept.now.items }
    requires joined { AreJoined L.is_value L.join kept.now.items }
    ensures level { result.0 ≤ most }
    ensures join { IsJoinOfDeltas L.is_value L.join result.1.now
        (take (2 ^ result.0) (drop begin (deltas_of kept.now.items))) }
{
    let mut level = most;
    loop {
        let end = &kept[begin + (1 << level) - 1];
        if level <= end.level() {
            return (level, end.block(level));
        }
        level -= 1;
    }
}

/// Copies of some values, in their order.
fn copy_all<L: Lattice>(alloc: Global, values: &[L]) -> Result<Vec<L>, NoMemory>
    ensures { IfOk result (λ copied. copied.items ≡ values.now) }
{
    let mut copied = Vec::new(alloc);
    for value in values {
        copied.push(value.copy()?)?;
    }
    Ok(copied)
}

impl<L: Lattice> BlockEnd<L> {
    /// A delta without joins.
    pub(crate) fn new(alloc: Global, delta: L) -> Self
        ensures { result ≡ (delta, []) }
    {
        BlockEnd {
            delta,
            joins: Vec::new(alloc),
        }
    }

    /// The delta.
    pub(crate) fn delta(&self) -> &L
        ensures { result.now ≡ self.now.0 }
    {
        &self.delta
    }

    /// The level of the longest block with a join, or 0 for the delta alone.
    pub(crate) fn level(&self) -> usize
        ensures { result ≡ length self.now.1 }
    {
        self.joins.len()
    }

    /// The join of the block of 2^level deltas that ends with this one.
    pub(crate) fn block(&self, level: usize) -> &L
        requires { level ≤ length self.now.1 }
        ensures { result.now ≡ join_at self.now level }
    {
        if level == 0 {
            return &self.delta;
        }
        &self.joins[level - 1]
    }

    /// Adds the next join. After [`NoMemory`] nothing has changed.
    fn add_join(&mut self, joined: L) -> Result<(), NoMemory>
        ensures ok { OnOk result (self.new ≡ (self.old.0, self.old.1 ++ joined ∷ [])) }
        ensures err { OnErr result (self.new ≡ self.old) }
    {
        self.joins.push(joined)?;
        Ok(())
    }

    /// A copy of the delta and its joins.
    pub(crate) fn copy(&self) -> Result<Self, NoMemory>
        ensures { IfOk result (λ copied. copied ≡ self.now) }
    {
        Ok(BlockEnd {
            delta: self.delta.copy()?,
            joins: copy_all(*self.joins.allocator(), &self.joins)?,
        })
    }
}

/// Makes room for one more delta. If 256 are stored, for no more than that, because the oldest is dropped next. After
/// [`NoMemory`] nothing has changed.
pub(crate) fn make_place<L: Lattice>(kept: &mut VecDeque<BlockEnd<L>>) -> Result<(), NoMemory>
    ensures same { kept.new.items ≡ kept.old.items }
    ensures place { OnOk result (deque_len kept.new < deque_capacity kept.new) }
{
    if kept.len() < 1 << MOST_LEVEL {
        kept.reserve(1)?;
    } else {
        kept.reserve_exact(1)?;
    }
    Ok(())
}

/// The next delta to store, with the joins of the blocks that end with it. The first stored delta has number `base`.
/// Leaves the stored deltas, with room for one more. `None` for want of memory.
pub(crate) fn next_end<L: Lattice>(
    alloc: Global,
    kept: &mut VecDeque<BlockEnd<L>>,
    base: u64,
    delta: L,
) -> Option<BlockEnd<L>>
    requires room { base + length kept.old.items < MAX_COUNTER }
    requires joined { AreJoined L.is_value L.join kept.old.items }
    ensures joined { AreJoined L.is_value L.join kept.new.items }
    ensures same { deltas_of kept.new.items ≡ deltas_of kept.old.items }
    ensures delta { IfSome result (λ end. end.0 ≡ delta) }
    ensures end { IfSome result
        (λ end. AreJoined L.is_value L.join (kept.new.items ++ end ∷ [])) }
    ensures place { IfSome result (λ _. deque_len kept.new < deque_capacity kept.new) }
{
    delta.tells_invariant();
    let length = kept.len();
    make_place(kept).ok()?;
    kept.push_back_reserved(BlockEnd::new(alloc, delta));
    let joined = make_all_joins(kept, base, 0, length);
    let end = kept.pop_back();
    joined.ok()?;
    end
}

/// Appends deltas to the stored ones. After [`NoMemory`] some can be there.
pub(crate) fn add_all<L: Lattice>(
    alloc: Global,
    kept: &mut VecDeque<BlockEnd<L>>,
    deltas: Vec<L>,
) -> Result<(), NoMemory>
    requires joined { AreJoined L.is_value L.join kept.old.items }
    ensures joined { AreJoined L.is_value L.join kept.new.items }
    ensures added { OnOk result
        (deltas_of kept.new.items ≡ deltas_of kept.old.items ++ deltas.items) }
    ensures before { take (length kept.old.items) kept.new.items ≡ kept.old.items }
{
    for delta in deltas {
        delta.tells_invariant();
        kept.push_back(BlockEnd::new(alloc, delta))?;
    }
    Ok(())
}
