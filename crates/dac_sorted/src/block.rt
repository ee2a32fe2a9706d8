//! Blocks of entries, which maps share.
ghost use Rattle.std.specs.Prelude.{◌≡◌, IfOk, OnOk, OnErr};
ghost use Rattle.std.specs.Arc.{arc_value};
ghost use Rattle.dac_lattice.specs.Altered.{IsAlteredIf};
ghost use Rattle.dac_lattice.specs.Search.{IsInOrder};
ghost use Rattle.dac_sorted.specs.Digests.{SaysAll};
ghost use Rattle.dac_sorted.specs.Parts.{changed};

use crate::digest::Digest;
use dac_lattice::merging::{Alter, alter_entry, put_entry, remove_entry};
use dac_origins::{MapKey, NoMemory};
use std::alloc::Global;
use std::marker::Model;
use std::sync::Arc;

/// A list of entries with their digest. It changes only while no other map shares it. Contracts treat it as its
/// entries.
#[derive(Drop)]
pub(crate) struct Block<K: MapKey, V: Drop, D: Digest<K, V>> {
    digest: D,
    entries: Vec<(K, V)>,
}

impl<K: MapKey, V: Drop, D: Digest<K, V>> Model for Block<K, V, D> {
    ghost use Rattle.std.specs.Prelude.{List};
    ghost use Rattle.dac_sorted.specs.Digests.{SaysAll};

    ghost Value = { List (K × V) };

    ghost view = { λ a. a.entries.items };

    ghost invariant = { λ a. SaysAll (D.says a.digest) a.entries.items };
}

impl<K: MapKey, V: Drop, D: Digest<K, V>> Block<K, V, D> {
    /// A block of these entries, without spare capacity.
    pub(crate) fn of(alloc: Global, mut entries: Vec<(K, V)>) -> Result<Arc<Self, Global>, NoMemory>
        ensures { IfOk result (λ block. arc_value block ≡ entries.items) }
    {
        entries.shrink_to_fit();
        let digest = digest_of(&entries);
        let block = Arc::new(alloc, Block { digest, entries })?;
        Ok(block)
    }

    /// The entries.
    pub(crate) fn entries(&self) -> &[(K, V)]
        ensures { result.now ≡ self.now }
    {
        self.entries.as_slice()
    }

    /// Their digest.
    pub(crate) fn digest(&self) -> &D
        ensures { SaysAll (D.says result.now) self.now }
    {
        &self.digest
    }

    /// Puts a value at a key, or removes the key without a value, in place. After [`NoMemory`] the block is unchanged.
    pub(crate) fn change(&mut self, key: K, value: Option<V>) -> Result<(), NoMemory>
        requires { IsInOrder K.cmp self.old }
        ensures ok { OnOk result (self.new ≡ changed K.cmp key value self.old) }
        ensures err { OnErr result (self.new ≡ self.old) }
    {
        change_entry(&mut self.entries, key, value)?;
        // A digest only gains entries, so the one of the new entries is made anew.
        self.digest = digest_of(&self.entries);
        Ok(())
    }

    /// Changes the value at a key in place, and a target with it. Returns false, and changes nothing, if the key is
    /// absent. After [`NoMemory`] both are unchanged.
    pub(crate) fn alter<T, C: Alter<V, T>>(
        &mut self,
        key: K,
        how: &C,
        target: &mut T,
    ) -> Result<bool, NoMemory>
        requires { IsInOrder K.cmp self.old }
        ensures ok { IfOk result (IsAlteredIf K.cmp (C.does how.now) key self.old target.old
            self.new target.new) }
        ensures err { OnErr result ((self.new ≡ self.old) × (target.new ≡ target.old)) }
    {
        if !alter_entry(&mut self.entries, key, how, target)? {
            return Ok(false);
        }
        self.digest = digest_of(&self.entries);
        Ok(true)
    }
}

/// Puts a value at a key, or removes the key without a value. After [`NoMemory`] the entries are unchanged.
pub(crate) fn change_entry<K: MapKey, V: Drop>(
    entries: &mut Vec<(K, V)>,
    key: K,
    value: Option<V>,
) -> Result<(), NoMemory>
    requires { IsInOrder K.cmp entries.old.items }
    ensures ok { OnOk result (entries.new.items ≡ changed K.cmp key value entries.old.items) }
    ensures err { OnErr result (entries.new.items ≡ entries.old.items) }
{
    match value {
        Some(value) => put_entry(entries, key, value),
        None => {
            remove_entry(entries, key);
            Ok(())
        }
    }
}

/// The digest of these entries.
fn digest_of<K: MapKey, V: Drop, D: Digest<K, V>>(entries: &[(K, V)]) -> D
    ensures { SaysAll (D.says result) entries.now }
{
    let mut digest = D::none();
    for (key, value) in entries {
        digest.put(*key, value);
    }
    digest
}
