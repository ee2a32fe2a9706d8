//! Finite maps with few keys.
ghost use Rattle.std.specs.Prelude.{◌≡◌, [], None, IfOk, OnOk, OnErr};
ghost use Rattle.std.specs.FinMap.{find, put};

use dac_base::NoMemory;
use dac_lattice::merging::{put_entry, value_at};
use dac_origins::MapKey;
use std::alloc::Global;
use std::marker::Model;

/// A finite map with few keys, stored as the list of its entries in key order. Contracts see that list.
#[derive(Drop)]
pub struct Entries<K: MapKey, X: Copy> {
    entries: Vec<(K, X)>,
}

impl<K: MapKey, X: Copy> Model for Entries<K, X> {
    ghost use Rattle.std.specs.Prelude.{List};
    ghost use Rattle.dac_lattice.specs.Search.{IsInOrder};

    ghost Value = { List (K × X) };

    ghost view = { λ m. m.entries.items };

    ghost invariant = { λ m. IsInOrder K.cmp m.entries.items };
}

impl<K: MapKey, X: Copy> Entries<K, X> {
    /// The empty map.
    pub fn new(alloc: Global) -> Self
        ensures { result ≡ [] }
    {
        Entries {
            entries: Vec::new(alloc),
        }
    }

    /// The value at a key, if any.
    pub fn get(&self, key: K) -> Option<X>
        ensures { result ≡ find K.cmp key self.now }
    {
        value_at(&self.entries, key).copied()
    }

    /// Sets the value of a key. Fails with [`NoMemory`] only if the key had none, and changes nothing then.
    pub fn put(&mut self, key: K, value: X) -> Result<(), NoMemory>
        ensures ok { OnOk result (self.new ≡ put K.cmp key value self.old) }
        ensures err { OnErr result (self.new ≡ self.old) }
        ensures first { OnErr result (find K.cmp key self.old ≡ None) }
    {
        put_entry(&mut self.entries, key, value)
    }

    /// An equal map. It allocates at most once.
    pub fn copy(&self) -> Result<Self, NoMemory>
        ensures { IfOk result (λ copied. copied ≡ self.now) }
    {
        Ok(Entries {
            entries: Vec::from_slice(*self.entries.allocator(), &self.entries)?,
        })
    }
}
