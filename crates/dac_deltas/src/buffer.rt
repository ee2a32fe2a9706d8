//! The newest deltas of a log, by number.
ghost use Rattle.std.specs.Prelude.{◌≡◌, ◌+◌, ◌-◌, ◌*◌, ◌<◌, ◌≤◌, fold, drop, length, Ok, None, Some, OnOk, OnErr, IfOk, IfSome, IsSome, unwrap_or};
ghost use Rattle.dac_deltas.specs.KeptDeltas.{IsBuffer, empty, pushed, trimmed, numbered_from, interval_of, IsJoinOf};
ghost use Rattle.dac_deltas.specs.Blocks.{AreBlocks};
ghost use Rattle.dac_deltas.specs.declared.blocks.TheConstants.{MOST_LEVEL};
ghost use Rattle.dac_deltas.specs.declared.buffer.TheConstants.{MAX_DELTAS};

use crate::blocks::{
    BlockEnd, MOST_LEVEL, add_all, level_at, longest_joined, make_all_joins, next_end,
};
use dac_base::{MAX_COUNTER, NoMemory};
use dac_lattice::{Bottom, Lattice};
use std::alloc::Global;
use std::collections::VecDeque;
use std::marker::Model;

/// The greatest number of deltas that a buffer stores. This project's own choice.
pub const MAX_DELTAS: usize = 1 << MOST_LEVEL;

/// The newest deltas of a log, at most 256, numbered from 0 in the order in which they are pushed. Contracts see the
/// number of deltas ever pushed, the least number that is stored, and the stored deltas, the oldest first.
///
/// A buffer also stores the joins of aligned blocks of 2 to 256 deltas, at most 255 of them. [`Buffer::push`] makes
/// those of the blocks that end with its delta, so that an interval takes at most 16 joins. [`Buffer::push_all`] and
/// [`Buffer::stage`] make none, for owners that might never request an interval. [`Buffer::warm_from`] makes those that
/// an interval needs, and caches the interval until the next delta, so that peers that receive the same interval share
/// it.
#[derive(Drop)]
pub struct Buffer<L: Bottom> {
    pub(crate) alloc: Global,
    pub(crate) count: u64,
    pub(crate) kept: VecDeque<BlockEnd<L>>,
    pub(crate) ready: Option<(u64, L)>,
}

impl<L: Bottom> Model for Buffer<L> {
    ghost use Rattle.dac_deltas.specs.KeptDeltas.{KeptDeltas, newest};
    ghost use Rattle.dac_deltas.specs.BlockEnds.{IsHeld, deltas_of};

    ghost Value = { KeptDeltas L };

    ghost view = { λ b. newest b.count (deltas_of b.kept.items) };

    ghost invariant = { λ b. IsHeld L.is_value L.join L.bottom b.count b.kept.items b.ready };
}

/// Drops all but the newest 256 deltas.
pub(crate) fn keep_newest<L: Bottom>(kept: &mut VecDeque<BlockEnd<L>>)
    ensures { kept.new.items ≡ drop (length kept.old.items - MAX_DELTAS) kept.old.items }
{
    let dropped = kept.len().saturating_sub(MAX_DELTAS);
    kept.drain(..dropped);
}

/// The join so far with one more block. The first block is copied, so that its shared memory stays shared.
fn join_on<L: Bottom>(joined: Option<L>, block: &L) -> Result<L, NoMemory>
    ensures { IfOk result (λ both. both ≡ L.join (unwrap_or joined L.bottom) block.now) }
{
    match joined {
        Some(joined) => joined.join(block),
        None => {
            block.tells_invariant();
            block.copy()
        }
    }
}

/// A copy of the cached interval, with its first number.
fn copy_ready<L: Lattice>(ready: &Option<(u64, L)>) -> Result<Option<(u64, L)>, NoMemory>
    ensures { IfOk result (λ copied. copied ≡ ready.now) }
{
    let Some((a, joined)) = ready else {
        return Ok(None);
    };
    let copied = joined.copy()?;
    Ok(Some((*a, copied)))
}

/// The join, or the least value if there is none.
fn or_bottom<L: Bottom>(alloc: Global, joined: Option<L>) -> L
    ensures { result ≡ unwrap_or joined L.bottom }
{
    match joined {
        Some(joined) => joined,
        None => L::bottom(alloc),
    }
}

impl<L: Bottom> Buffer<L> {
    /// The empty buffer.
    pub fn new(alloc: Global) -> Self
        ensures { result ≡ empty }
    {
        Buffer {
            alloc,
            count: 0,
            kept: VecDeque::new(alloc),
            ready: None,
        }
    }

    /// States the invariant for proofs; does nothing at run time. The base and the number of stored deltas add up to
    /// the count, which is at most 2^62; at most 256 are stored; and each is a value of the lattice.
    pub fn tells_invariant(&self)
        ensures { IsBuffer L.is_value self.now }
    {
        let _kept = &self.kept;
    }

    /// The number of deltas ever pushed. The first has number 0.
    pub fn count(&self) -> u64
        ensures { result ≡ self.now.count }
    {
        self.count
    }

    /// The least number of a stored delta, or the count if none is stored.
    pub fn base(&self) -> u64
        ensures { result ≡ self.now.base }
    {
        self.count - self.kept.len() as u64
    }

    /// Appends a delta, whose number is the count. If 256 are stored, drops the oldest. Requires a count below 2^62.
    /// After [`NoMemory`] the buffer is unchanged.
    pub fn push(&mut self, delta: L) -> Result<(), NoMemory>
        requires { self.old.count < MAX_COUNTER }
        ensures ok { OnOk result (self.new ≡ pushed self.old delta) }
        ensures err { OnErr result (self.new ≡ self.old) }
    {
        let base = self.base();
        let Some(end) = next_end(self.alloc, &mut self.kept, base, delta) else {
            return Err(NoMemory);
        };
        self.kept.push_back_reserved(end);
        self.ready = None;
        self.count += 1;
        keep_newest(&mut self.kept);
        Ok(())
    }

    /// Appends several deltas, one after another as [`Buffer::push`] does, but makes no joins of blocks. Requires that
    /// the count with all of them is at most 2^62. After [`NoMemory`] the buffer is unchanged.
    pub fn push_all(&mut self, deltas: Vec<L>) -> Result<(), NoMemory>
        requires { self.old.count + length deltas.items ≤ MAX_COUNTER }
        ensures ok { OnOk result (self.new ≡ fold pushed self.old deltas.items) }
        ensures err { OnErr result (self.new ≡ self.old) }
    {
        if deltas.is_empty() {
            return Ok(());
        }
        let before = self.kept.len();
        let added = deltas.len() as u64;
        if let Err(refused) = add_all(self.alloc, &mut self.kept, deltas) {
            self.kept.truncate(before);
            return Err(refused);
        }
        self.ready = None;
        self.count += added;
        keep_newest(&mut self.kept);
        Ok(())
    }

    /// Drops the deltas below number `n`: the base becomes the lesser of `n` and the count, unless it is greater
    /// already.
    pub fn trim(&mut self, n: u64)
        ensures { self.new ≡ trimmed self.old n }
    {
        let dropped = n.min(self.count).saturating_sub(self.base());
        self.kept.drain(..dropped as usize);
    }

    /// The join of the deltas from number `a` on, or the least value if `a` is the count. `None` if a delta from `a` on
    /// has been dropped. Requires that `a` is at most the count. Fails with [`NoMemory`] only if all deltas from `a` on
    /// are stored.
    ///
    /// It joins the blocks that [`Buffer::blocks`] lists, in order, and shorter ones in place of a block whose join
    /// isn't made. If [`Buffer::warm_from`] cached the interval, it returns a copy and joins nothing.
    pub fn interval(&self, a: u64) -> Result<Option<L>, NoMemory>
        requires { a ≤ self.now.count }
        ensures dropped { a < self.now.base → result ≡ Ok None }
        ensures value { IfOk result (λ found. found ≡ interval_of L.bottom L.join self.now a) }
        ensures least { IfOk result
            (λ found. IfSome found (IsJoinOf L.is_value L.below (numbered_from self.now a))) }
    {
        self.tells_invariant();
        let base = self.base();
        if a < base {
            return Ok(None);
        }
        let joined = self.interval_from(a)?;
        Ok(Some(joined))
    }

    /// The join of the deltas from number `a` on, all of which are stored.
    fn interval_from(&self, a: u64) -> Result<L, NoMemory>
        requires counted { a ≤ self.now.count }
        requires kept { self.now.base ≤ a }
        ensures { IfOk result (λ joined. joined ≡ fold L.join L.bottom (numbered_from self.now a)) }
    {
        match &self.ready {
            Some((from, joined)) if *from == a => joined.copy(),
            _ => self.computed_from(a),
        }
    }

    /// Computes the join of the deltas from number `a` on, all of which are stored, from the joins of blocks.
    fn computed_from(&self, a: u64) -> Result<L, NoMemory>
        requires counted { a ≤ self.now.count }
        requires kept { self.now.base ≤ a }
        ensures { IfOk result (λ joined. joined ≡ fold L.join L.bottom (numbered_from self.now a)) }
    {
        let base = self.base();
        let mut joined = None;
        let mut at = a;
        while at < self.count {
            let most = level_at(at, self.count - at);
            let (level, block) = longest_joined(&self.kept, (at - base) as usize, most);
            joined = Some(join_on(joined, block)?);
            at += 1 << level;
        }
        Ok(or_bottom(self.alloc, joined))
    }

    /// Caches the interval that begins at number `a` until the next delta, if all its deltas are stored, so that later
    /// calls of [`Buffer::interval`] share it. First makes the joins of its blocks that aren't made. Requires that `a`
    /// is at most the count. Contracts see no change. After [`NoMemory`] some joins can be made.
    pub fn warm_from(&mut self, a: u64) -> Result<(), NoMemory>
        requires { a ≤ self.old.count }
        ensures { self.new ≡ self.old }
    {
        let base = self.base();
        if a < base || self.is_ready(a) {
            return Ok(());
        }
        let begin = (a - base) as usize;
        make_all_joins(&mut self.kept, base, begin, begin)?;
        let joined = self.computed_from(a)?;
        self.ready = Some((a, joined));
        Ok(())
    }

    /// Returns whether the interval from number `a` on is cached.
    fn is_ready(&self, a: u64) -> bool {
        matches!(&self.ready, Some((from, _)) if *from == a)
    }

    /// The blocks that an interval joins, each as its first number and the one after its last. From `a` to the count
    /// each is the longest aligned block that begins at the end of the previous one. There are at most 16, and none if
    /// `a` is the count. `None` if a delta from `a` on has been dropped. Requires that `a` is at most the count. Fails
    /// with [`NoMemory`] only if all deltas from `a` on are stored.
    pub fn blocks(&self, a: u64) -> Result<Option<Vec<(u64, u64)>>, NoMemory>
        requires { a ≤ self.now.count }
        ensures dropped { a < self.now.base → result ≡ Ok None }
        ensures kept { self.now.base ≤ a → IfOk result (λ found. IsSome found) }
        ensures blocks { IfOk result
            (λ found. IfSome found (λ bs. AreBlocks a self.now.count bs.items)) }
        ensures few { IfOk result (λ found. IfSome found (λ bs. length bs.items ≤ 2 * MOST_LEVEL)) }
    {
        if a < self.base() {
            return Ok(None);
        }
        let mut blocks = Vec::new(self.alloc);
        let mut at = a;
        while at < self.count {
            let end = at + (1 << level_at(at, self.count - at));
            blocks.push((at, end))?;
            at = end;
        }
        Ok(Some(blocks))
    }

    /// An equal buffer. Its deltas can share immutable memory.
    pub fn copy(&self) -> Result<Self, NoMemory>
        ensures { IfOk result (λ copied. copied ≡ self.now) }
    {
        let mut kept = VecDeque::new(self.alloc);
        for ending in &self.kept {
            kept.push_back(ending.copy()?)?;
        }
        Ok(Buffer {
            alloc: self.alloc,
            count: self.count,
            kept,
            ready: copy_ready(&self.ready)?,
        })
    }
}
