//! The merge of two maps, which shares the blocks that it leaves unchanged.
ghost use Rattle.std.specs.Prelude.{◌≡◌, ◌++◌, [], Some, true, IfOk, IfSome, OnOk};
ghost use Rattle.std.specs.Arc.{arc_value};
ghost use Rattle.std.specs.List.{flat_map};
ghost use Rattle.std.specs.Option.{option_copied};
ghost use Rattle.dac_lattice.specs.Entries.{keep, merge_entries};
ghost use Rattle.dac_lattice.specs.Search.{IsInOrder};
ghost use Rattle.dac_sorted.specs.Digests.{SaysAll, AllStay};
ghost use Rattle.dac_sorted.specs.Joining.{AreBefore, ArePassed, IsMergedBelow, IsMergedPart, IsMergedWith, IsNotBelow, IsTakenAt};

use crate::appending::ends_below;
use crate::block::Block;
use crate::digest::Digest;
use crate::entries::Entries;
use crate::parts::Parts;
use crate::sharing::Sharing;
use dac_lattice::merging::value_at;
use dac_origins::{MapKey, NoMemory};
use std::alloc::Global;
use std::sync::Arc;

/// Appends an entry, if there is a value.
fn put_kept<K: MapKey, V: Drop, D: Digest<K, V>>(
    built: &mut Parts<K, V, D>,
    key: K,
    value: Option<V>,
) -> Result<(), NoMemory>
    ensures { OnOk result (built.new ≡ built.old ++ keep key value []) }
{
    match value {
        Some(value) => {
            built.append(key, value)?;
            Ok(())
        }
        None => Ok(()),
    }
}

/// Merges the other side's next entries below a key, and appends the results.
fn put_below<K: MapKey, V: Drop, D: Digest<K, V>, C: Sharing<K, V, D>>(
    how: &C,
    built: &mut Parts<K, V, D>,
    theirs: &mut Entries<'_, K, V, D>,
    key: K,
) -> Result<(), NoMemory>
    ensures { OnOk result (IsMergedBelow K.cmp (C.combined how.now) key built.old theirs.old
        built.new theirs.new) }
{
    while let Some((other, value)) = theirs.first() {
        if !other.cmp(&key).is_lt() {
            return Ok(());
        }
        put_kept(built, *other, how.right(*other, value)?)?;
        theirs.pass();
    }
    Ok(())
}

/// Merges all remaining entries of the other side, and appends the results.
fn put_rest<K: MapKey, V: Drop, D: Digest<K, V>, C: Sharing<K, V, D>>(
    how: &C,
    built: &mut Parts<K, V, D>,
    theirs: &mut Entries<'_, K, V, D>,
) -> Result<(), NoMemory>
    ensures { OnOk result
        (built.new ≡ built.old ++ merge_entries K.cmp (C.combined how.now) [] theirs.old) }
{
    while let Some((other, value)) = theirs.first() {
        put_kept(built, *other, how.right(*other, value)?)?;
        theirs.pass();
    }
    Ok(())
}

/// Takes the other side's next entry, if it is at this key.
fn take_at<'a, K: MapKey, V: Drop, D: Digest<K, V>>(
    theirs: &mut Entries<'a, K, V, D>,
    key: K,
) -> Option<&'a V>
    ensures { IsTakenAt K.cmp key theirs.old (option_copied result) theirs.new }
{
    let Some((other, value)) = theirs.first() else {
        return None;
    };
    if !other.cmp(&key).is_eq() {
        return None;
    }
    theirs.pass();
    Some(value)
}

/// The merged value at a key of the first map, if any.
fn kept_at<K: MapKey, V: Drop, D: Digest<K, V>, C: Sharing<K, V, D>>(
    how: &C,
    key: K,
    mine: &V,
    theirs: Option<&V>,
) -> Result<Option<V>, NoMemory>
    ensures { IfOk result
        (λ kept. kept ≡ C.combined how.now key (Some mine.now) (option_copied theirs.entry)) }
{
    match theirs {
        Some(theirs) => {
            let kept = how.both(key, mine, theirs)?;
            Ok(kept)
        }
        None => {
            let kept = how.left(key, mine)?;
            Ok(kept)
        }
    }
}

/// Merges an entry with the other side's at the same key, if any, and appends the result. Requires that the other side
/// has no remaining entry below the key. Most values are known to stay, so that a copy suffices.
fn put_merged<K: MapKey, V: Drop, D: Digest<K, V>, C: Sharing<K, V, D>>(
    how: &C,
    built: &mut Parts<K, V, D>,
    entry: &(K, V),
    theirs: &mut Entries<'_, K, V, D>,
) -> Result<(), NoMemory>
    requires { IsNotBelow K.cmp entry.now.0 theirs.old }
    ensures { OnOk result (IsMergedWith K.cmp (C.combined how.now)
        entry.now built.old theirs.old built.new theirs.new) }
{
    let (key, mine) = entry;
    let taken = take_at(theirs, *key);
    if how.stays(*key, mine, taken) {
        built.append(*key, D::copy(mine)?)?;
        return Ok(());
    }
    let kept = kept_at(how, *key, mine, taken)?;
    put_kept(built, *key, kept)?;
    Ok(())
}

/// Merges these entries with the other side's up to their last key, and appends the results.
fn merge_part<K: MapKey, V: Drop, D: Digest<K, V>, C: Sharing<K, V, D>>(
    how: &C,
    built: &mut Parts<K, V, D>,
    part: &[(K, V)],
    theirs: &mut Entries<'_, K, V, D>,
) -> Result<(), NoMemory>
    ensures { OnOk result (IsMergedPart K.cmp (C.combined how.now)
        part.now built.old theirs.old built.new theirs.new) }
{
    built.close()?;
    built.make_room(part.len().saturating_add(theirs.at_hand()))?;
    for entry in part {
        put_below(how, built, theirs, entry.0)?;
        put_merged(how, built, entry, theirs)?;
    }
    Ok(())
}

/// Whether all remaining entries of the other side are after these.
fn are_before<K: MapKey, V: Drop, D: Digest<K, V>>(
    part: &[(K, V)],
    theirs: &Entries<'_, K, V, D>,
) -> bool
    requires { IsInOrder K.cmp part.now }
    ensures { result ≡ true → AreBefore K.cmp part.now theirs.now }
{
    match theirs.first() {
        Some((other, _)) => ends_below(part, *other),
        None => true,
    }
}

/// Whether a block can be shared without a look at its values: a shared block can follow, all remaining entries of the
/// other side are after it, and its digest proves that the merge leaves each of its values.
fn can_share<K: MapKey, V: Drop, D: Digest<K, V>, C: Sharing<K, V, D>>(
    how: &C,
    built: &Parts<K, V, D>,
    block: &Block<K, V, D>,
    theirs: &Entries<'_, K, V, D>,
) -> bool
    requires in_order { IsInOrder K.cmp block.now }
    requires fits { SaysAll (C.fits how.now) block.now }
    ensures before { result ≡ true → AreBefore K.cmp block.now theirs.now }
    ensures stay { result ≡ true → AllStay (C.combined how.now) block.now }
{
    if !built.ends_whole() {
        return false;
    }
    if !are_before(block.entries(), theirs) {
        return false;
    }
    how.leaves(block.digest())
}

/// Whether the other side's next entry, if any, isn't below this key.
fn is_none_below<K: MapKey, V: Drop, D: Digest<K, V>>(theirs: &Entries<'_, K, V, D>, key: K) -> bool
    ensures { result ≡ true → IsNotBelow K.cmp key theirs.now }
{
    match theirs.first() {
        Some((other, _)) => !other.cmp(&key).is_lt(),
        None => true,
    }
}

/// A quick test for [`left_past`]: whether the other side's next entry is after these, or known to equal the one at its
/// key. Otherwise the merge can change these entries, or insert one between them.
fn may_leave<K: MapKey, V: Drop, D: Digest<K, V>, C: Sharing<K, V, D>>(
    how: &C,
    part: &[(K, V)],
    theirs: &Entries<'_, K, V, D>,
) -> bool
    requires { IsInOrder K.cmp part.now }
{
    match theirs.first() {
        Some((other, _)) if ends_below(part, *other) => true,
        Some((other, value)) => match value_at(part, *other) {
            Some(mine) => how.is_same(mine, value),
            None => false,
        },
        None => true,
    }
}

/// The other side's entries after these, if the merge is known to leave these unchanged and to insert none between them.
fn left_past<'a, K: MapKey, V: Drop, D: Digest<K, V>, C: Sharing<K, V, D>>(
    how: &C,
    part: &[(K, V)],
    theirs: &Entries<'a, K, V, D>,
) -> Option<Entries<'a, K, V, D>>
    requires { IsInOrder K.cmp part.now }
    ensures { IfSome result (λ rest. ArePassed K.cmp (C.combined how.now)
        part.now theirs.now rest) }
{
    if !may_leave(how, part, theirs) {
        return None;
    }
    let mut rest = theirs.again();
    for (key, mine) in part {
        if !is_none_below(&rest, *key) {
            return None;
        }
        let taken = take_at(&mut rest, *key);
        if !how.stays(*key, mine, taken) {
            return None;
        }
    }
    Some(rest)
}

/// Merges the entries of a block with the other side's up to their last key, or shares the block.
fn merge_block<K: MapKey, V: Drop, D: Digest<K, V>, C: Sharing<K, V, D>>(
    how: &C,
    built: &mut Parts<K, V, D>,
    block: &Arc<Block<K, V, D>, Global>,
    theirs: &mut Entries<'_, K, V, D>,
) -> Result<(), NoMemory>
    requires in_order { IsInOrder K.cmp (arc_value block.now) }
    requires fits { SaysAll (C.fits how.now) (arc_value block.now) }
    ensures { OnOk result (IsMergedPart K.cmp (C.combined how.now)
        (arc_value block.now) built.old theirs.old built.new theirs.new) }
{
    if can_share(how, built, block, theirs) {
        built.share(block)?;
        return Ok(());
    }
    if built.ends_whole() {
        if let Some(rest) = left_past(how, block.entries(), theirs) {
            *theirs = rest;
            built.share(block)?;
            return Ok(());
        }
    }
    merge_part(how, built, block.entries(), theirs)?;
    Ok(())
}

/// The merge of two maps. One is given as blocks with entries after them.
pub(crate) fn merge_parts<K: MapKey, V: Drop, D: Digest<K, V>, C: Sharing<K, V, D>>(
    alloc: Global,
    how: &C,
    blocks: &[Arc<Block<K, V, D>, Global>],
    last: &[(K, V)],
    theirs: Entries<'_, K, V, D>,
) -> Result<Parts<K, V, D>, NoMemory>
    requires in_order { IsInOrder K.cmp (flat_map arc_value blocks.now ++ last.now) }
    requires fits { SaysAll (C.fits how.now) (flat_map arc_value blocks.now ++ last.now) }
    ensures { IfOk result (λ merged. merged ≡ merge_entries K.cmp (C.combined how.now)
        (flat_map arc_value blocks.now ++ last.now) theirs.entry) }
{
    let mut built = Parts::with_room(alloc, blocks.len())?;
    let mut others = theirs;
    for block in blocks {
        merge_block(how, &mut built, block, &mut others)?;
    }
    merge_part(how, &mut built, last, &mut others)?;
    put_rest(how, &mut built, &mut others)?;
    Ok(built)
}
