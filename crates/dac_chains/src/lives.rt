//! The life of each node.
ghost use Rattle.std.specs.Prelude.{◌≡◌, ◌↔◌, ℕ, IfOk, Some, option_map};
ghost use Rattle.std.specs.FinMap as map;
ghost use Rattle.dac_chains.specs.Kept.{unwrapped};
ghost use Rattle.dac_chains.specs.Lives.{IsLive, live_at, inc_and_flag};

use dac_base::{NoMemory, NodeId};
use dac_lattice::{Bottom, Dot, Flag, Lattice, MapKey, MapOf, Max, Piece};
use std::alloc::Global;
use std::marker::Model;

/// A report about a node: that one of its incarnations is up, or that it is down.
///
/// Lives are ordered by incarnation, and at one incarnation up is below down. Therefore an incarnation that went down
/// stays down, and the node comes up again only as a later incarnation.
#[derive(Clone, Copy, Debug, PartialEq, Eq, PartialOrd, Ord, Hash)]
pub struct Life {
    /// The incarnation of the node.
    pub inc: u64,
    /// Whether that incarnation is up.
    pub flag: Flag,
}

impl MapKey for Life {
    ghost use Rattle.std.specs.Prelude.{refl};
    ghost use Rattle.dac_lattice.specs.laws.Flags.{exact_flags};
    ghost use Rattle.dac_chains.specs.laws.Lives.{exact_lives};

    ghost exact = { exact_lives ⟦<Flag as Ord>⟧.cmp (exact_flags ⟦<Flag as Ord>⟧.cmp refl refl) };
}

/// The part of an operation that concerns lives.
#[derive(Clone, Copy, Debug, PartialEq, Eq)]
pub enum LifeAct {
    /// The incarnation that issued the operation came up.
    Up,
    /// An incarnation of a node is declared down.
    Down {
        /// The node of the incarnation.
        node: NodeId,
        /// The incarnation declared down.
        inc: u64,
    },
    /// Concerns no life.
    Other,
}

/// The life of each node, the greatest reported. A node without a report is absent. Contracts treat it as a finite map
/// from nodes to lives.
pub struct Lives {
    lives: MapOf<NodeId, Max<Life>>,
}

/// Explicit, so that a proof treats each drop as one call.
impl Drop for Lives {
    fn drop(self) {
        let Lives { lives: _lives } = self;
    }
}

impl Model for Lives {
    ghost use Rattle.std.specs.FinMap as map;
    ghost use Rattle.dac_base.specs.Ids.{node_cmp, coded_node};
    ghost use Rattle.dac_chains.specs.declared.lives.Life.{Life};
    ghost use Rattle.dac_chains.specs.Lives.{coded_life};

    ghost Value = { map.FinMap node_cmp Life };

    ghost coded = { map.code coded_node coded_life };

    ghost use Rattle.dac_chains.specs.Kept.{kept};

    ghost view = { λ a. kept a.lives };
}

impl Lives {
    /// The life of a single node.
    pub fn one(alloc: Global, node: NodeId, life: Life) -> Result<Self, NoMemory>
        ensures { IfOk result (λ lives. lives ≡ map.insert map.empty node life) }
    {
        let lives = MapOf::one(alloc, node, Max::new(life))?;
        Ok(Lives { lives })
    }

    /// The life of a node, if any was reported: its incarnation, and whether that is up.
    pub fn life(&self, node: NodeId) -> Option<(u64, Flag)>
        ensures { result ≡ option_map inc_and_flag (map.get self.now node) }
    {
        match self.greatest_life(node) {
            Some(life) => Some((life.inc, life.flag)),
            None => None,
        }
    }

    /// The life of a node, if any was reported: the greatest.
    pub fn greatest_life(&self, node: NodeId) -> Option<Life>
        ensures { result ≡ map.get self.now node }
    {
        match self.lives.get_near(node.0 as usize, node) {
            Some(greatest) => Some(greatest.value),
            None => None,
        }
    }

    /// The live incarnation of a node: that of its life, if it is up.
    pub fn live(&self, node: NodeId) -> Option<u64>
        ensures value { result ≡ live_at self.now node }
        ensures exact { (i : ℕ) → (result ≡ Some i) ↔ IsLive self.now node i }
    {
        let life = self.greatest_life(node)?;
        match life.flag {
            Flag::Up => Some(life.inc),
            Flag::Down => None,
        }
    }

    /// The nodes with a report, in ascending order, each with its life.
    pub fn entries(&self) -> &[(NodeId, Max<Life>)]
        ensures { unwrapped result.now ≡ map.entries self.now }
    {
        self.lives.tells_invariant();
        self.lives.entries()
    }
}

impl Lattice for Lives {
    ghost use Rattle.dac_base.specs.laws.Ids.{nodes_total, exact_nodes};
    ghost use Rattle.dac_lattice.specs.Chains.{IsAny};
    ghost use Rattle.dac_lattice.specs.Flags.{flag_cmp};
    ghost use Rattle.dac_lattice.specs.laws.Flags.{flags_exact};
    ghost use Rattle.dac_chains.specs.Greatest.{AreNotAbove, greater};
    ghost use Rattle.dac_chains.specs.laws.Greatest.{greatest_laws};
    ghost use Rattle.dac_chains.specs.Lives.{life_cmp};
    ghost use Rattle.dac_chains.specs.laws.Lives.{lives_total, exact_lives};

    ghost is_value = { IsAny };

    ghost below = { AreNotAbove life_cmp };

    ghost join = { greater life_cmp };

    ghost laws = { greatest_laws nodes_total exact_nodes lives_total
        (exact_lives flag_cmp flags_exact) };

    fn tells_invariant(&self) {}

    fn join(&self, other: &Self) -> Result<Self, NoMemory> {
        self.lives.tells_invariant();
        other.lives.tells_invariant();
        let lives = self.lives.join(&other.lives)?;
        Ok(Lives { lives })
    }

    fn leq(&self, other: &Self) -> bool {
        self.lives.leq(&other.lives)
    }

    fn equal(&self, other: &Self) -> bool {
        self.lives.tells_invariant();
        other.lives.tells_invariant();
        self.lives.equal(&other.lives)
    }

    fn copy(&self) -> Result<Self, NoMemory> {
        let lives = self.lives.copy()?;
        Ok(Lives { lives })
    }
}

impl Bottom for Lives {
    ghost use Rattle.std.specs.FinMap as map;
    ghost use Rattle.dac_base.specs.laws.Ids.{nodes_total, exact_nodes};
    ghost use Rattle.dac_lattice.specs.Flags.{flag_cmp};
    ghost use Rattle.dac_lattice.specs.laws.Flags.{flags_exact};
    ghost use Rattle.dac_chains.specs.laws.Greatest.{empty_is_least};
    ghost use Rattle.dac_chains.specs.laws.Lives.{lives_total, exact_lives};

    ghost bottom = { map.empty };

    ghost least = { λ lives _. empty_is_least nodes_total exact_nodes lives_total
        (exact_lives flag_cmp flags_exact) lives };

    ghost bottom_value = { tt };

    fn bottom(alloc: Global) -> Self {
        Lives {
            lives: MapOf::bottom(alloc),
        }
    }
}

impl Piece for Lives {
    ghost use Rattle.dac_base.specs.laws.Ids.{nodes_total, exact_nodes};
    ghost use Rattle.dac_lattice.specs.Flags.{flag_cmp};
    ghost use Rattle.dac_lattice.specs.laws.Flags.{flags_exact};
    ghost use Rattle.dac_chains.specs.Greatest.{alone};
    ghost use Rattle.dac_chains.specs.laws.Greatest.{greatest_piece};
    ghost use Rattle.dac_chains.specs.Lives.{AreLives, life_report};
    ghost use Rattle.dac_chains.specs.laws.Lives.{lives_total, exact_lives};

    type Act = LifeAct;

    ghost fits = { λ _ _. Unit {0} };

    ghost delta = { λ dot act. alone (life_report dot act) };

    ghost means = { AreLives };

    ghost piece_laws = { greatest_piece nodes_total exact_nodes lives_total
        (exact_lives flag_cmp flags_exact) life_report };

    fn delta(alloc: Global, dot: Dot, act: &LifeAct) -> Result<Self, NoMemory> {
        match act {
            LifeAct::Up => {
                let life = Life {
                    inc: dot.origin.inc,
                    flag: Flag::Up,
                };
                let lives = Lives::one(alloc, dot.origin.node, life)?;
                Ok(lives)
            }
            LifeAct::Down { node, inc } => {
                let life = Life {
                    inc: *inc,
                    flag: Flag::Down,
                };
                let lives = Lives::one(alloc, *node, life)?;
                Ok(lives)
            }
            LifeAct::Other => Ok(Lives::bottom(alloc)),
        }
    }
}
