//! The nodes of an application's list as chains, one for each group.

ghost use Rattle.std.specs.Prelude.{◌≡◌, ◌+◌, ◌<◌, ℕ, List, Option, None, slice_index_or};
ghost use Rattle.dac_config.specs.Table.{node_count};
ghost use Rattle.dac_status.specs.Chains.{AreChains};

use dac_base::MAX_NODES;
use dac_config::Config;

/// The greatest number of groups in a list, because each group has a node of its own.
pub(crate) const MAX_GROUPS: u16 = MAX_NODES as u16;

/// The nodes of each group, in the order of their numbers. The number of nodes ends a chain.
#[derive(Drop)]
pub(crate) struct Chains {
    /// The first node of each group.
    pub(crate) first: [u8; MAX_NODES],
    /// The next node of each node's group.
    pub(crate) next: [u8; MAX_NODES],
}

impl Chains {
    /// Adds a node before all others of its group.
    fn put(&mut self, number: u8, group: Option<u16>)
        requires { number < MAX_NODES }
        ensures { (groups : List (Option ℕ)) (count : ℕ)
            → AreChains groups count (number + 1) self.old.first self.old.next
            → number < count → slice_index_or groups number None ≡ group
            → AreChains groups count number self.new.first self.new.next }
    {
        let Some(group) = group else {
            return;
        };
        if group < MAX_GROUPS {
            self.next[number as usize] = self.first[group as usize];
            self.first[group as usize] = number;
        }
    }
}

/// The chains of a list, given the group of each node.
pub(crate) fn chains_of(config: &Config, groups: &[Option<u16>; MAX_NODES]) -> Chains
    ensures { AreChains groups.now (node_count config.now) 0 result.first result.next }
{
    let nodes = config.nodes();
    let mut chains = Chains {
        first: [nodes; MAX_NODES],
        next: [nodes; MAX_NODES],
    };
    let mut number = nodes;
    while number > 0 {
        number -= 1;
        chains.put(number, groups[number as usize]);
    }
    chains
}
