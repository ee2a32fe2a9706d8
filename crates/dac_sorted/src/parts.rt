//! Entries in blocks, which maps share, with a few entries after them.
ghost use Rattle.std.specs.Prelude.{◌≡◌, ◌<◌, ◌≤◌, ◌^◌, [], ◌∷◌, ◌++◌, length, take, drop, true, None, IfOk, IfSome, OnOk, OnErr};
ghost use Rattle.std.specs.Arc.{arc_value};
ghost use Rattle.std.specs.List.{flat_map};
ghost use Rattle.std.specs.Option.{option_copied};
ghost use Rattle.std.specs.FinMap.{find};
ghost use Rattle.dac_lattice.specs.Altered.{IsAlteredIf};
ghost use Rattle.dac_lattice.specs.Search.{IsInOrder};
ghost use Rattle.dac_sorted.specs.Appending.{is_above_entries};
ghost use Rattle.dac_sorted.specs.Parts.{HaveEntries, IsChangedUnless, IsPartAt, IsPlaceOf, IsReplaced, changed};

use crate::appending::{ends_below, last_is_below};
use crate::block::{Block, change_entry};
use crate::digest::Digest;
use dac_lattice::merging::{Alter, alter_entry, value_at};
use dac_origins::{MapKey, NoMemory};
use std::alloc::Global;
use std::marker::Model;
use std::mem::replace;
use std::sync::Arc;

/// A removal leaves more than this many entries in a block, or joins it with the next one, so that maps don't fall apart
/// into small blocks.
const FEW: usize = 5;

/// The greatest number of entries in a block. After a merge, fewer than this are in no block.
fn most<K: MapKey, V: Drop, D: Digest<K, V>>() -> usize
    ensures { (0 < result) × (result < 2 ^ 17) }
{
    D::least() * 2
}

/// Entries in blocks, and those after them. Contracts treat all entries as one list.
#[derive(Drop)]
pub(crate) struct Parts<K: MapKey, V: Drop, D: Digest<K, V>> {
    blocks: Vec<Arc<Block<K, V, D>, Global>>,
    last: Vec<(K, V)>,
}

impl<K: MapKey, V: Drop, D: Digest<K, V>> Model for Parts<K, V, D> {
    ghost use Rattle.std.specs.Prelude.{List, ◌++◌};
    ghost use Rattle.std.specs.List.{flat_map};
    ghost use Rattle.std.specs.Arc.{arc_value};
    ghost use Rattle.dac_sorted.specs.Parts.{HaveEntries};

    ghost Value = { List (K × V) };

    ghost view = { λ a. flat_map arc_value a.blocks.items ++ a.last.items };

    // An empty block would hide those before it from a search.
    ghost invariant = { λ a. HaveEntries arc_value a.blocks.items };
}

impl<K: MapKey, V: Drop, D: Digest<K, V>> Parts<K, V, D> {
    /// No entries.
    pub(crate) fn empty(alloc: Global) -> Self
        ensures { result ≡ [] }
    {
        Parts {
            blocks: Vec::new(alloc),
            last: Vec::new(alloc),
        }
    }

    /// The empty list, with room for `blocks` blocks and two more, or with no room if `blocks` is 0.
    pub(crate) fn with_room(alloc: Global, blocks: usize) -> Result<Self, NoMemory>
        ensures { IfOk result (λ parts. parts ≡ []) }
    {
        let mut room = Vec::new(alloc);
        if blocks > 0 {
            room.reserve_exact(blocks.saturating_add(2))?;
        }
        Ok(Parts {
            blocks: room,
            last: Vec::new(alloc),
        })
    }

    /// The allocator of the entries' memory.
    pub(crate) fn allocator(&self) -> Global {
        *self.last.allocator()
    }

    /// The blocks, and the entries after them.
    pub(crate) fn pieces(&self) -> (&[Arc<Block<K, V, D>, Global>], &[(K, V)])
        ensures value { self.now ≡ flat_map arc_value result.0.now ++ result.1.now }
        ensures filled { HaveEntries arc_value result.0.now }
    {
        (self.blocks.as_slice(), self.last.as_slice())
    }

    /// The number of entries, or `None` if it exceeds `usize`.
    pub(crate) fn count(&self) -> Option<usize>
        ensures { IfSome result (λ count. count ≡ length self.now) }
    {
        let (blocks, last) = self.pieces();
        let mut count = last.len();
        for block in blocks {
            let Some(more) = count.checked_add(block.entries().len()) else {
                return None;
            };
            count = more;
        }
        Some(count)
    }

    /// The block, or the entries after the blocks, that contains a key or would contain it.
    fn part_at(&self, key: K) -> &[(K, V)]
        requires { IsInOrder K.cmp self.now }
        ensures { IsPartAt K.cmp key self.now result.now }
    {
        let place = place_in(&self.blocks, key);
        match self.blocks.get(place) {
            Some(block) => block.entries(),
            None => self.last.as_slice(),
        }
    }

    /// Whether each key is below this one. Requires entries in key order.
    pub(crate) fn end_below(&self, key: K) -> bool
        requires { IsInOrder K.cmp self.now }
        ensures { result ≡ is_above_entries K.cmp self.now key }
    {
        ends_below(self.part_at(key), key)
    }

    /// The value at a key, if any. Requires entries in key order.
    #[inline(always)]
    pub(crate) fn get(&self, key: K) -> Option<&V>
        requires { IsInOrder K.cmp self.now }
        ensures { option_copied result ≡ find K.cmp key self.now }
    {
        value_at(self.part_at(key), key)
    }

    /// The same entries, which share the blocks.
    pub(crate) fn copy(&self) -> Result<Self, NoMemory>
        ensures { IfOk result (λ copied. copied ≡ self.now) }
    {
        let alloc = self.allocator();
        let shared = share_blocks(alloc, self.blocks.as_slice())?;
        let copied = copy_entries::<K, V, D>(alloc, self.last.as_slice())?;
        Ok(Parts {
            blocks: shared,
            last: copied,
        })
    }

    /// Appends an entry. After [`NoMemory`] nothing has changed.
    #[inline(always)]
    pub(crate) fn push(&mut self, key: K, value: V) -> Result<(), NoMemory>
        ensures ok { OnOk result (self.new ≡ self.old ++ (key, value) ∷ []) }
        ensures err { OnErr result (self.new ≡ self.old) }
    {
        // A fallible push returns its value on failure, which costs more than the test for room.
        self.last.reserve(1)?;
        self.last.push_reserved((key, value));
        Ok(())
    }

    /// Makes a block of the last entries, if they suffice for one, so that the entries of a following part aren't split
    /// again. After [`NoMemory`] the entries can have changed.
    pub(crate) fn close(&mut self) -> Result<(), NoMemory>
        ensures { OnOk result (self.new ≡ self.old) }
    {
        if self.last.len() < D::least() {
            return Ok(());
        }
        seal_all(&mut self.blocks, &mut self.last)?;
        Ok(())
    }

    /// Reserves room for `more` entries, but for no more than twice [`Digest::least`] in no block.
    pub(crate) fn make_room(&mut self, more: usize) -> Result<(), NoMemory>
        ensures { self.new ≡ self.old }
    {
        let free = most::<K, V, D>().saturating_sub(self.last.len());
        self.last.reserve_exact(more.min(free))?;
        Ok(())
    }

    /// Appends an entry, and if twice [`Digest::least`] are then in no block makes a block of the first of them. After
    /// [`NoMemory`] the entries can have changed.
    pub(crate) fn append(&mut self, key: K, value: V) -> Result<(), NoMemory>
        ensures { OnOk result (self.new ≡ self.old ++ (key, value) ∷ []) }
    {
        self.push(key, value)?;
        let least = D::least();
        if self.last.len() < least * 2 {
            return Ok(());
        }
        seal(&mut self.blocks, &mut self.last, least)?;
        Ok(())
    }

    /// Makes blocks of the first entries that are in none, so that fewer than twice [`Digest::least`] are in none after one
    /// more is put there. The entries are the same, even after [`NoMemory`]. A map that was made by appending has one long
    /// list, which each change of a shared map would copy.
    fn split_last(&mut self) -> Result<(), NoMemory>
        ensures { self.new ≡ self.old }
    {
        if self.last.len() < D::least() * 2 - 1 {
            return Ok(());
        }
        let (mut made, count) = first_blocks(self.allocator(), &self.last)?;
        self.blocks.reserve(made.len())?;
        let rest = self.last.split_off(count)?;
        self.blocks.append(&mut made)?;
        self.last = rest;
        Ok(())
    }

    /// Puts a value at a key, or removes the key without a value. After [`NoMemory`] nothing has changed.
    pub(crate) fn change(&mut self, key: K, value: Option<V>) -> Result<(), NoMemory>
        requires { IsInOrder K.cmp self.old }
        ensures ok { OnOk result (self.new ≡ changed K.cmp key value self.old) }
        ensures err { OnErr result (self.new ≡ self.old) }
    {
        self.split_last()?;
        let place = place_in(&self.blocks, key);
        if place < self.blocks.len() {
            return change_block(&mut self.blocks, place, key, value);
        }
        change_entry(&mut self.last, key, value)
    }

    /// Changes the value at a key in place, and a target with it. Returns false, and changes nothing, if the key is
    /// absent or its block is shared. After [`NoMemory`] nothing has changed.
    pub(crate) fn alter<T, C: Alter<V, T>>(
        &mut self,
        key: K,
        how: &C,
        target: &mut T,
    ) -> Result<bool, NoMemory>
        requires { IsInOrder K.cmp self.old }
        ensures ok { IfOk result (IsAlteredIf K.cmp (C.does how.now) key self.old target.old
            self.new target.new) }
        ensures err { OnErr result ((self.new ≡ self.old) × (target.new ≡ target.old)) }
    {
        let place = place_in(&self.blocks, key);
        if place < self.blocks.len() {
            return alter_in_block(&mut self.blocks, place, key, how, target);
        }
        alter_entry(&mut self.last, key, how, target)
    }

    /// Whether a shared block can follow without first making a block of fewer than [`Digest::least`] entries.
    pub(crate) fn ends_whole(&self) -> bool {
        self.last.is_empty() || self.last.len() >= D::least()
    }

    /// Appends the entries of a block, which is shared. After [`NoMemory`] the entries can have changed.
    pub(crate) fn share(&mut self, block: &Arc<Block<K, V, D>, Global>) -> Result<(), NoMemory>
        ensures { OnOk result (self.new ≡ self.old ++ arc_value block.now) }
    {
        if block.entries().is_empty() {
            return Ok(());
        }
        seal_all(&mut self.blocks, &mut self.last)?;
        self.blocks.push(Arc::try_clone(block)?)?;
        Ok(())
    }
}

/// The index of the first block that isn't below a key, or the number of blocks. A block is below the key if all its
/// keys are.
fn place_in<K: MapKey, V: Drop, D: Digest<K, V>>(
    blocks: &[Arc<Block<K, V, D>, Global>],
    key: K,
) -> usize
    requires in_order { IsInOrder K.cmp (flat_map arc_value blocks.now) }
    requires filled { HaveEntries arc_value blocks.now }
    ensures { IsPlaceOf K.cmp arc_value key blocks.now result }
{
    blocks.partition_point(|block| last_is_below(block.entries(), key))
}

/// Changes the block at an index, that of a key, at the key: in place, unless the block is shared or would be too small
/// or too large. After [`NoMemory`] the blocks are unchanged.
fn change_block<K: MapKey, V: Drop, D: Digest<K, V>>(
    blocks: &mut Vec<Arc<Block<K, V, D>, Global>>,
    place: usize,
    key: K,
    value: Option<V>,
) -> Result<(), NoMemory>
    requires in_order { IsInOrder K.cmp (flat_map arc_value blocks.old.items) }
    requires filled { HaveEntries arc_value blocks.old.items }
    requires place { IsPlaceOf K.cmp arc_value key blocks.old.items place }
    requires within { place < length blocks.old.items }
    ensures filled { HaveEntries arc_value blocks.new.items }
    ensures ok { OnOk result (flat_map arc_value blocks.new.items
        ≡ changed K.cmp key value (flat_map arc_value blocks.old.items)) }
    ensures err { OnErr result
        (flat_map arc_value blocks.new.items ≡ flat_map arc_value blocks.old.items) }
{
    match change_in_place(&mut blocks[place], key, value)? {
        Some(left) => change_anew(blocks, place, key, left),
        None => Ok(()),
    }
}

/// Changes a block at a key, in place. Returns the value, and changes nothing, if the block is shared or would be too
/// small or too large.
fn change_in_place<K: MapKey, V: Drop, D: Digest<K, V>>(
    shared: &mut Arc<Block<K, V, D>, Global>,
    key: K,
    value: Option<V>,
) -> Result<Option<Option<V>>, NoMemory>
    requires { IsInOrder K.cmp (arc_value shared.old) }
    ensures ok { IfOk result (λ left. IsChangedUnless K.cmp key value (arc_value shared.old)
        (arc_value shared.new) left) }
    ensures filled { 0 < length (arc_value shared.old) → 0 < length (arc_value shared.new) }
    ensures err { OnErr result (arc_value shared.new ≡ arc_value shared.old) }
{
    match Arc::get_mut(shared) {
        Some(block) if has_room::<K, V, D>(block.entries().len(), &value) => {
            block.change(key, value)?;
            Ok(None)
        }
        _ => Ok(Some(value)),
    }
}

/// Changes the value at a key of the block at an index in place, and a target with it. Returns false, and changes
/// nothing, if the key is absent or the block is shared. After [`NoMemory`] nothing has changed.
fn alter_in_block<K: MapKey, V: Drop, D: Digest<K, V>, T, C: Alter<V, T>>(
    blocks: &mut Vec<Arc<Block<K, V, D>, Global>>,
    place: usize,
    key: K,
    how: &C,
    target: &mut T,
) -> Result<bool, NoMemory>
    requires in_order { IsInOrder K.cmp (flat_map arc_value blocks.old.items) }
    requires filled { HaveEntries arc_value blocks.old.items }
    requires place { IsPlaceOf K.cmp arc_value key blocks.old.items place }
    requires within { place < length blocks.old.items }
    ensures filled { HaveEntries arc_value blocks.new.items }
    ensures ok { IfOk result (IsAlteredIf K.cmp (C.does how.now) key
        (flat_map arc_value blocks.old.items) target.old
        (flat_map arc_value blocks.new.items) target.new) }
    ensures err { OnErr result ((flat_map arc_value blocks.new.items
        ≡ flat_map arc_value blocks.old.items) × (target.new ≡ target.old)) }
{
    alter_in_place(&mut blocks[place], key, how, target)
}

/// Changes the value at a key of a block in place, and a target with it. Returns false, and changes nothing, if the key
/// is absent or the block is shared. After [`NoMemory`] nothing has changed.
fn alter_in_place<K: MapKey, V: Drop, D: Digest<K, V>, T, C: Alter<V, T>>(
    shared: &mut Arc<Block<K, V, D>, Global>,
    key: K,
    how: &C,
    target: &mut T,
) -> Result<bool, NoMemory>
    requires { IsInOrder K.cmp (arc_value shared.old) }
    ensures ok { IfOk result (IsAlteredIf K.cmp (C.does how.now) key (arc_value shared.old)
        target.old (arc_value shared.new) target.new) }
    ensures err { OnErr result
        ((arc_value shared.new ≡ arc_value shared.old) × (target.new ≡ target.old)) }
{
    match Arc::get_mut(shared) {
        Some(block) => block.alter(key, how, target),
        None => Ok(false),
    }
}

/// Whether a block of this many entries can be changed in place by putting this value, or by removing one without.
fn has_room<K: MapKey, V: Drop, D: Digest<K, V>>(len: usize, value: &Option<V>) -> bool
    ensures { result ≡ true → value.now ≡ None → 1 < len }
{
    match value {
        Some(_) => len < most::<K, V, D>(),
        None => len > FEW + 1,
    }
}

/// Replaces the block at an index, that of a key, by a copy that is changed at the key, or by two. After [`NoMemory`]
/// the blocks are unchanged.
fn change_anew<K: MapKey, V: Drop, D: Digest<K, V>>(
    blocks: &mut Vec<Arc<Block<K, V, D>, Global>>,
    place: usize,
    key: K,
    value: Option<V>,
) -> Result<(), NoMemory>
    requires in_order { IsInOrder K.cmp (flat_map arc_value blocks.old.items) }
    requires filled { HaveEntries arc_value blocks.old.items }
    requires place { IsPlaceOf K.cmp arc_value key blocks.old.items place }
    requires within { place < length blocks.old.items }
    ensures filled { HaveEntries arc_value blocks.new.items }
    ensures ok { OnOk result (flat_map arc_value blocks.new.items
        ≡ changed K.cmp key value (flat_map arc_value blocks.old.items)) }
    ensures err { OnErr result (blocks.new.items ≡ blocks.old.items) }
{
    let alloc = *blocks.allocator();
    let mut own = copy_entries::<K, V, D>(alloc, blocks[place].entries())?;
    change_entry(&mut own, key, value)?;
    put_back(blocks, place, own)
}

/// Blocks of copies of the first of these entries, and the number of these, which leaves fewer than twice
/// [`Digest::least`] after one more is put among the others.
fn first_blocks<K: MapKey, V: Drop, D: Digest<K, V>>(
    alloc: Global,
    entries: &[(K, V)],
) -> Result<(Vec<Arc<Block<K, V, D>, Global>>, usize), NoMemory>
    ensures filled { IfOk result (λ first. HaveEntries arc_value first.0.items) }
    ensures within { IfOk result (λ first. first.1 ≤ length entries.now) }
    ensures same { IfOk result
        (λ first. flat_map arc_value first.0.items ≡ take first.1 entries.now) }
{
    let least = D::least();
    let mut made = Vec::new(alloc);
    let mut count = 0;
    while entries.len() - count >= least * 2 - 1 {
        let own = copy_entries::<K, V, D>(alloc, &entries[count..count + least])?;
        made.push(Block::of(alloc, own)?)?;
        count += least;
    }
    Ok((made, count))
}

/// Replaces the block at an index by one of these entries, or by two if they are many. After [`NoMemory`] the blocks are
/// unchanged.
fn replace_block<K: MapKey, V: Drop, D: Digest<K, V>>(
    blocks: &mut Vec<Arc<Block<K, V, D>, Global>>,
    place: usize,
    entries: Vec<(K, V)>,
) -> Result<(), NoMemory>
    requires filled { HaveEntries arc_value blocks.old.items }
    requires within { place < length blocks.old.items }
    requires some { 0 < length entries.items }
    ensures filled { HaveEntries arc_value blocks.new.items }
    ensures ok { OnOk result (IsReplaced arc_value place entries.items blocks.old.items blocks.new.items) }
    ensures err { OnErr result (blocks.new.items ≡ blocks.old.items) }
{
    let alloc = *entries.allocator();
    if entries.len() <= most::<K, V, D>() {
        blocks[place] = Block::of(alloc, entries)?;
        return Ok(());
    }
    let mut lower = entries;
    let upper = lower.split_off(lower.len() / 2)?;
    let first = Block::of(alloc, lower)?;
    let second = Block::of(alloc, upper)?;
    blocks.insert(place + 1, second)?;
    blocks[place] = first;
    Ok(())
}

/// Replaces the block at an index by the entries that a change left, joined with those of the next block if they are few
/// and there is one. After [`NoMemory`] the blocks are unchanged.
fn put_back<K: MapKey, V: Drop, D: Digest<K, V>>(
    blocks: &mut Vec<Arc<Block<K, V, D>, Global>>,
    place: usize,
    entries: Vec<(K, V)>,
) -> Result<(), NoMemory>
    requires filled { HaveEntries arc_value blocks.old.items }
    requires within { place < length blocks.old.items }
    ensures filled { HaveEntries arc_value blocks.new.items }
    ensures ok { OnOk result (IsReplaced arc_value place entries.items blocks.old.items blocks.new.items) }
    ensures err { OnErr result (blocks.new.items ≡ blocks.old.items) }
{
    let mut own = entries;
    if own.len() <= FEW && place + 1 < blocks.len() {
        append_copies::<K, V, D>(&mut own, blocks[place + 1].entries())?;
        replace_block(blocks, place + 1, own)?;
        let _joined = blocks.remove(place);
        return Ok(());
    }
    if own.is_empty() {
        let _emptied = blocks.remove(place);
        return Ok(());
    }
    replace_block(blocks, place, own)
}

/// Makes a block of all of the last entries, if there are any. After [`NoMemory`] the entries can have changed.
fn seal_all<K: MapKey, V: Drop, D: Digest<K, V>>(
    blocks: &mut Vec<Arc<Block<K, V, D>, Global>>,
    last: &mut Vec<(K, V)>,
) -> Result<(), NoMemory>
    ensures filled { HaveEntries arc_value blocks.old.items
        → HaveEntries arc_value blocks.new.items }
    ensures sealed { OnOk result
        (flat_map arc_value blocks.new.items
        ≡ flat_map arc_value blocks.old.items ++ last.old.items) }
    ensures rest { OnOk result (last.new.items ≡ []) }
{
    // Most shared blocks come right after another one, so that no entry is open.
    let count = last.len();
    if count == 0 {
        return Ok(());
    }
    seal(blocks, last, count)?;
    Ok(())
}

/// Makes a block of the first `count` of the last entries. After [`NoMemory`] the entries can have changed.
fn seal<K: MapKey, V: Drop, D: Digest<K, V>>(
    blocks: &mut Vec<Arc<Block<K, V, D>, Global>>,
    last: &mut Vec<(K, V)>,
    count: usize,
) -> Result<(), NoMemory>
    requires some { 0 < count }
    requires within { count ≤ length last.old.items }
    ensures filled { HaveEntries arc_value blocks.old.items
        → HaveEntries arc_value blocks.new.items }
    ensures sealed { OnOk result
        (flat_map arc_value blocks.new.items
        ≡ flat_map arc_value blocks.old.items ++ take count last.old.items) }
    ensures rest { OnOk result (last.new.items ≡ drop count last.old.items) }
{
    let alloc = *last.allocator();
    let rest = last.split_off(count)?;
    let sealed = replace(last, rest);
    let block = Block::of(alloc, sealed)?;
    blocks.push(block)?;
    Ok(())
}

/// The same blocks, which both lists share.
fn share_blocks<K: MapKey, V: Drop, D: Digest<K, V>>(
    alloc: Global,
    blocks: &[Arc<Block<K, V, D>, Global>],
) -> Result<Vec<Arc<Block<K, V, D>, Global>>, NoMemory>
    requires { HaveEntries arc_value blocks.now }
    ensures filled { IfOk result (λ shared. HaveEntries arc_value shared.items) }
    ensures same { IfOk result
        (λ shared. flat_map arc_value shared.items ≡ flat_map arc_value blocks.now) }
{
    let mut shared = Vec::with_capacity(alloc, blocks.len())?;
    for block in blocks {
        shared.push(Arc::try_clone(block)?)?;
    }
    Ok(shared)
}

/// Appends copies of entries to a list. After [`NoMemory`] the list can have changed.
fn append_copies<K: MapKey, V: Drop, D: Digest<K, V>>(
    list: &mut Vec<(K, V)>,
    entries: &[(K, V)],
) -> Result<(), NoMemory>
    ensures { OnOk result (list.new.items ≡ list.old.items ++ entries.now) }
{
    for (key, value) in entries {
        list.push((*key, D::copy(value)?))?;
    }
    Ok(())
}

/// Equal entries, which share nothing, with room for one more.
fn copy_entries<K: MapKey, V: Drop, D: Digest<K, V>>(
    alloc: Global,
    entries: &[(K, V)],
) -> Result<Vec<(K, V)>, NoMemory>
    ensures { IfOk result (λ copied. copied.items ≡ entries.now) }
{
    let mut copied = Vec::with_capacity(alloc, entries.len().saturating_add(1))?;
    append_copies::<K, V, D>(&mut copied, entries)?;
    Ok(copied)
}
