//! Hash buckets of numbers.

ghost use Rattle.std.specs.Prelude.{◌≡◌, ℕ, ◌<◌, IfOk, OnOk, OnErr, length};
ghost use Rattle.dac_weave.specs.Indexing.{bucket_of, IsFiledIn, Files, IsKept, without, Unfiles};

use dac_base::NoMemory;
use std::alloc::Global;

/// Hash buckets of numbers. A bucket holds every number filed under a label, and others if their labels leave the same
/// remainder.
#[derive(Drop)]
pub(crate) struct Buckets {
    pub(crate) lists: Vec<Vec<usize>>,
    ghost some: { 0 < length lists.items },
}

/// Removes every entry of a number.
fn remove_number(numbers: &mut Vec<usize>, number: usize)
    ensures { numbers.new.items ≡ without number numbers.old.items }
{
    numbers.retain(|held| *held != number);
}

impl Buckets {
    /// An empty table of `count` buckets, but at least one.
    pub(crate) fn new(alloc: Global, count: usize) -> Result<Self, NoMemory>
        ensures { IfOk result (λ made. (label k : ℕ) → IsFiledIn made.lists.items label k → ⊥) }
    {
        let mut lists = Vec::new(alloc);
        lists.push(Vec::new(alloc))?;
        for _ in 1..count {
            lists.push(Vec::new(alloc))?;
        }
        Ok(Buckets { lists })
    }

    pub(crate) fn bucket(&self, label: u64) -> &[usize]
        ensures { result.now ≡ bucket_of self.now.lists.items label }
    {
        let place = label % self.lists.len() as u64;
        self.lists[place as usize].as_slice()
    }

    /// Files `number` under `label`.
    pub(crate) fn file(&mut self, label: u64, number: usize) -> Result<(), NoMemory>
        ensures files { OnOk result (Files self.old.lists.items label number self.new.lists.items) }
        ensures kept { OnErr result (IsKept self.old.lists.items self.new.lists.items) }
    {
        let place = label % self.lists.len() as u64;
        self.lists[place as usize].push(number)?;
        Ok(())
    }

    /// Removes `number` from the bucket of `label`.
    pub(crate) fn unfile(&mut self, label: u64, number: usize)
        ensures { Unfiles self.old.lists.items label number self.new.lists.items }
    {
        let place = label % self.lists.len() as u64;
        remove_number(&mut self.lists[place as usize], number);
    }
}
