//! Lattices: pieces of states, stores, and maps.
use crate::sample::{APP, ME, OTHER, dot, key, origin};
use crate::trial::{Fixture, Said, of_any};
use dac_base::{AppId, NoMemory, NodeId};
use dac_chains::{Claim, ClaimAct, Claims, How, Life, LifeAct, Lives};
use dac_dots::Context;
use dac_lattice::{Flag, Lattice, MapOf, Max, Pair, Piece};
use dac_origins::Dot;
use dac_store::{Causal, DotFun, DotMap, DotSet, DotStore};
use dac_wishes::{DotList, DrainAct, Drains, Permissions, PermitAct, WishAct, Wishes};
use std::alloc::Global;

/// A call of a lattice.
#[derive(Clone, Copy, Debug, PartialEq, Eq)]
pub enum OfLattice {
    Join,
    Copy,
}

/// Two values of a lattice, and a copy of the first.
#[derive(Drop)]
pub struct LatticeFixture<L: Lattice> {
    asked: OfLattice,
    one: L,
    other: L,
    kept: L,
}

/// The fixture of two values of a lattice.
fn both<L: Lattice>(
    asked: OfLattice,
    one: Result<L, NoMemory>,
    other: Result<L, NoMemory>,
) -> Option<LatticeFixture<L>> {
    let one = one.ok()?;
    let kept = one.copy().ok()?;
    Some(LatticeFixture {
        asked,
        other: other.ok()?,
        one,
        kept,
    })
}

impl<L: Lattice> Fixture for LatticeFixture<L> {
    fn call(&mut self) -> Said {
        match self.asked {
            OfLattice::Join => match self.one.join(&self.other) {
                Ok(both) => {
                    let above = self.one.leq(&both) && self.other.leq(&both);
                    Said::Well(u64::from(above))
                }
                Err(_) => Said::NoMemory,
            },
            OfLattice::Copy => match self.one.copy() {
                Ok(copied) => Said::Well(u64::from(copied.equal(&self.one))),
                Err(_) => Said::NoMemory,
            },
        }
    }

    fn is_as_before(&self) -> bool {
        self.one.equal(&self.kept)
    }
}

fn dots(alloc: Global, list: &[Dot]) -> Result<DotList, NoMemory> {
    Ok(DotList::new(Vec::from_slice(alloc, list)?))
}

fn lives_of(alloc: Global, node: NodeId) -> Result<Lives, NoMemory> {
    let life = Life {
        inc: 1,
        flag: Flag::Down,
    };
    Lives::one(alloc, node, life)
}

/// The fixture of lives.
pub fn lives(alloc: Global, asked: OfLattice) -> Option<LatticeFixture<Lives>> {
    both(asked, lives_of(alloc, ME), lives_of(alloc, OTHER))
}

fn claims_of(alloc: Global, app: u16) -> Result<Claims, NoMemory> {
    let claim = Claim {
        term: 1,
        origin: origin(ME),
        how: How::Normal,
        from: None,
    };
    Claims::one(alloc, AppId(app), claim)
}

/// The fixture of claims.
pub fn claims(alloc: Global, asked: OfLattice) -> Option<LatticeFixture<Claims>> {
    both(asked, claims_of(alloc, 0), claims_of(alloc, 1))
}

fn start_at(alloc: Global, at: Dot) -> Result<Wishes, NoMemory> {
    let act = WishAct::Start {
        key: key(at.origin.node),
        over: dots(alloc, &[dot(ME, 1), dot(OTHER, 1)])?,
    };
    Wishes::delta(alloc, at, &act)
}

/// The fixture of wishes.
pub fn wishes(alloc: Global, asked: OfLattice) -> Option<LatticeFixture<Wishes>> {
    both(
        asked,
        start_at(alloc, dot(ME, 2)),
        start_at(alloc, dot(OTHER, 3)),
    )
}

fn permit_at(alloc: Global, at: Dot) -> Result<Permissions, NoMemory> {
    let act = PermitAct::Permit {
        key: key(at.origin.node),
        value: false,
        over: dots(alloc, &[dot(ME, 1), dot(OTHER, 1)])?,
    };
    Permissions::delta(alloc, at, &act)
}

/// The fixture of permissions.
pub fn permissions(alloc: Global, asked: OfLattice) -> Option<LatticeFixture<Permissions>> {
    both(
        asked,
        permit_at(alloc, dot(ME, 2)),
        permit_at(alloc, dot(OTHER, 3)),
    )
}

fn drain_at(alloc: Global, at: Dot) -> Result<Drains, NoMemory> {
    let act = DrainAct::Drain {
        at: at.origin,
        value: true,
        over: dots(alloc, &[dot(ME, 1), dot(OTHER, 1)])?,
    };
    Drains::delta(alloc, at, &act)
}

/// The fixture of drains.
pub fn drains(alloc: Global, asked: OfLattice) -> Option<LatticeFixture<Drains>> {
    both(
        asked,
        drain_at(alloc, dot(ME, 2)),
        drain_at(alloc, dot(OTHER, 3)),
    )
}

fn map_of(alloc: Global, key: u64) -> Result<MapOf<u64, Max<u64>>, NoMemory> {
    MapOf::one(alloc, key, Max::new(7))
}

/// The fixture of maps.
pub fn maps(alloc: Global, asked: OfLattice) -> Option<LatticeFixture<MapOf<u64, Max<u64>>>> {
    both(asked, map_of(alloc, 1), map_of(alloc, 2))
}

fn pair_of(alloc: Global, key: u64) -> Result<Pair<MapOf<u64, Max<u64>>, Max<u64>>, NoMemory> {
    Ok(Pair::new(map_of(alloc, key)?, Max::new(key)))
}

/// The fixture of pairs.
pub fn pairs(
    alloc: Global,
    asked: OfLattice,
) -> Option<LatticeFixture<Pair<MapOf<u64, Max<u64>>, Max<u64>>>> {
    both(asked, pair_of(alloc, 1), pair_of(alloc, 2))
}

/// A context of these dots.
pub fn context(alloc: Global, list: &[Dot]) -> Result<Context, NoMemory> {
    let mut all = Context::empty(alloc);
    for dot in list {
        all.insert(*dot)?;
    }
    Ok(all)
}

/// Values at dots, by key.
pub type FlagMap = DotMap<u64, DotFun<Flag>>;

fn votes_of(alloc: Global, node: NodeId) -> Result<DotFun<Flag>, NoMemory> {
    let mut votes = DotFun::one(alloc, dot(node, 1), Flag::Down)?;
    let _pushed = votes.push(dot(node, 3), Flag::Up)?;
    Ok(votes)
}

fn causal_of(alloc: Global, node: NodeId, key: u64) -> Result<Causal<FlagMap>, NoMemory> {
    let store = DotMap::one(alloc, key, votes_of(alloc, node)?)?;
    let heard = context(alloc, &[dot(node, 1), dot(node, 3), dot(node, 9)])?;
    match Causal::new(store, heard) {
        Ok(causal) => Ok(causal),
        Err(_) => Err(NoMemory),
    }
}

/// The fixture of stores paired with their contexts.
pub fn causals(alloc: Global, asked: OfLattice) -> Option<LatticeFixture<Causal<FlagMap>>> {
    both(asked, causal_of(alloc, ME, 1), causal_of(alloc, OTHER, 2))
}

/// Two values paired with their contexts, and one that equals the first and shares nothing with it.
#[derive(Drop)]
pub struct AbsorbFixture {
    one: Causal<FlagMap>,
    other: Causal<FlagMap>,
    equal: Causal<FlagMap>,
}

/// The fixture of values paired with their contexts that absorb others.
pub fn absorbing(alloc: Global) -> Option<AbsorbFixture> {
    Some(AbsorbFixture {
        one: causal_of(alloc, ME, 1).ok()?,
        other: causal_of(alloc, OTHER, 2).ok()?,
        equal: causal_of(alloc, ME, 1).ok()?,
    })
}

impl AbsorbFixture {
    /// Makes the union of both contexts, and joins the other value into the first.
    fn absorb(&mut self) -> Result<(), NoMemory> {
        let shared = self.one.context();
        let union = shared.union(self.other.context())?;
        self.one.absorb_with_context(&self.other, union)
    }
}

impl Fixture for AbsorbFixture {
    fn call(&mut self) -> Said {
        match self.absorb() {
            Ok(()) => Said::Well(u64::from(self.other.leq(&self.one))),
            Err(_) => Said::NoMemory,
        }
    }

    fn is_as_before(&self) -> bool {
        self.one.equal(&self.equal)
    }
}

/// A call of a store.
#[derive(Clone, Copy, Debug, PartialEq, Eq)]
pub enum OfStore {
    Join,
    Absorb,
    Copy,
}

/// Two stores, each paired with its context, and one that equals the first and shares nothing with it.
#[derive(Drop)]
pub struct StoreFixture<S: DotStore> {
    asked: OfStore,
    one: S,
    equal: S,
    heard: Context,
    other: S,
    other_heard: Context,
}

/// The fixture of two stores. The first is given twice, because a copy would share its entries.
fn stores<S: DotStore>(
    alloc: Global,
    asked: OfStore,
    one: Result<S, NoMemory>,
    equal: Result<S, NoMemory>,
    other: Result<S, NoMemory>,
) -> Option<StoreFixture<S>> {
    let mine = [dot(ME, 1), dot(ME, 2), dot(ME, 3)];
    let theirs = [dot(OTHER, 1), dot(OTHER, 2), dot(OTHER, 3)];
    Some(StoreFixture {
        asked,
        one: one.ok()?,
        equal: equal.ok()?,
        heard: context(alloc, &mine).ok()?,
        other: other.ok()?,
        other_heard: context(alloc, &theirs).ok()?,
    })
}

impl<S: DotStore> Fixture for StoreFixture<S> {
    fn call(&mut self) -> Said {
        match self.asked {
            OfStore::Join => {
                of_any(
                    self.one
                        .join_in(&self.heard, &self.other, &self.other_heard),
                )
            }
            OfStore::Absorb => {
                of_any(
                    self.one
                        .absorb_in(&self.heard, &self.other, &self.other_heard),
                )
            }
            OfStore::Copy => of_any(self.one.copy()),
        }
    }

    fn is_as_before(&self) -> bool {
        self.one.is_same(&self.equal) && !self.one.has(dot(OTHER, 1))
    }
}

fn set_of(alloc: Global, node: NodeId) -> Result<DotSet, NoMemory> {
    let mut set = DotSet::one(alloc, dot(node, 1))?;
    let _pushed = set.push(dot(node, 3))?;
    Ok(set)
}

/// The fixture of sets of dots.
pub fn dot_sets(alloc: Global, asked: OfStore) -> Option<StoreFixture<DotSet>> {
    let (one, equal) = (set_of(alloc, ME), set_of(alloc, ME));
    stores(alloc, asked, one, equal, set_of(alloc, OTHER))
}

/// The fixture of functions of dots.
pub fn dot_funs(alloc: Global, asked: OfStore) -> Option<StoreFixture<DotFun<Flag>>> {
    let (one, equal) = (votes_of(alloc, ME), votes_of(alloc, ME));
    stores(alloc, asked, one, equal, votes_of(alloc, OTHER))
}

fn map_at(alloc: Global, node: NodeId, key: u64) -> Result<FlagMap, NoMemory> {
    DotMap::one(alloc, key, votes_of(alloc, node)?)
}

/// The fixture of maps of dots.
pub fn dot_maps(alloc: Global, asked: OfStore) -> Option<StoreFixture<FlagMap>> {
    let (one, equal) = (map_at(alloc, ME, 1), map_at(alloc, ME, 1));
    stores(alloc, asked, one, equal, map_at(alloc, OTHER, 2))
}

/// A value at each of 40 keys, as joins build the map: 24 entries are in two blocks.
pub fn map_in_blocks(alloc: Global) -> Result<FlagMap, NoMemory> {
    let mut pushed = DotMap::empty(alloc);
    for key in 1..41u64 {
        let _pushed = pushed.push(key, DotFun::one(alloc, dot(ME, key), Flag::Up)?)?;
    }
    let nothing = Context::empty(alloc);
    pushed.join_in(&nothing, &DotMap::empty(alloc), &nothing)
}

/// The fixture of maps of dots in blocks.
pub fn block_maps(alloc: Global, asked: OfStore) -> Option<StoreFixture<FlagMap>> {
    let (one, equal) = (map_in_blocks(alloc), map_in_blocks(alloc));
    stores(alloc, asked, one, equal, map_at(alloc, OTHER, 41))
}

/// One dot at a key of the first of those blocks.
fn replacement(alloc: Global) -> Result<FlagMap, NoMemory> {
    DotMap::one(alloc, 5, DotFun::one(alloc, dot(OTHER, 1), Flag::Down)?)
}

/// The fixture of a map in blocks that absorbs another value at one key. If it is shared, a copy has the same entries.
pub fn replacing(alloc: Global, is_shared: bool) -> Option<StoreFixture<FlagMap>> {
    let one = map_in_blocks(alloc).ok()?;
    let equal = if is_shared {
        one.copy()
    } else {
        map_in_blocks(alloc)
    };
    let other = replacement(alloc);
    let mut fixture = stores(alloc, OfStore::Absorb, Ok(one), equal, other)?;
    fixture.other_heard.insert(dot(ME, 5)).ok()?;
    Some(fixture)
}

/// A call that makes a value from plain arguments.
#[derive(Clone, Copy, Debug, PartialEq, Eq)]
pub enum Made {
    OneLife,
    OneClaim,
    OneOfMap,
    OneDot,
    OneAtDot,
    LifeDelta,
    ClaimDelta,
}

/// The arguments of such a call.
#[derive(Drop)]
pub struct MakingFixture {
    alloc: Global,
    made: Made,
}

/// The fixture of values from plain arguments.
pub fn making(alloc: Global, made: Made) -> Option<MakingFixture> {
    Some(MakingFixture { alloc, made })
}

/// The delta of a claim.
fn claim_delta(alloc: Global) -> Result<Claims, NoMemory> {
    let act = ClaimAct::Claim {
        app: APP,
        term: 1,
        how: How::Normal,
        from: None,
    };
    Claims::delta(alloc, dot(ME, 2), &act)
}

impl Fixture for MakingFixture {
    fn call(&mut self) -> Said {
        let alloc = self.alloc;
        match self.made {
            Made::OneLife => of_any(lives_of(alloc, ME)),
            Made::OneClaim => of_any(claims_of(alloc, 0)),
            Made::OneOfMap => of_any(map_of(alloc, 1)),
            Made::OneDot => of_any(DotSet::one(alloc, dot(ME, 1))),
            Made::OneAtDot => of_any(DotFun::one(alloc, dot(ME, 1), Flag::Down)),
            Made::LifeDelta => of_any(Lives::delta(alloc, dot(ME, 1), &LifeAct::Up)),
            Made::ClaimDelta => of_any(claim_delta(alloc)),
        }
    }

    fn is_as_before(&self) -> bool {
        true
    }
}

/// A piece whose delta is made.
#[derive(Clone, Copy, Debug, PartialEq, Eq)]
pub enum OfAct {
    Wish,
    Permit,
    Drain,
}

/// Acts that replace two dots.
#[derive(Drop)]
pub struct ActFixture {
    alloc: Global,
    asked: OfAct,
    wish: WishAct,
    permit: PermitAct,
    drain: DrainAct,
}

/// The two dots that each act replaces.
fn replaced_dots(alloc: Global) -> Option<DotList> {
    dots(alloc, &[dot(ME, 1), dot(OTHER, 1)]).ok()
}

/// The fixture of deltas.
pub fn acts(alloc: Global, asked: OfAct) -> Option<ActFixture> {
    Some(ActFixture {
        alloc,
        asked,
        wish: WishAct::Start {
            key: key(ME),
            over: replaced_dots(alloc)?,
        },
        permit: PermitAct::Other {
            over: replaced_dots(alloc)?,
        },
        drain: DrainAct::Drain {
            at: origin(ME),
            value: true,
            over: replaced_dots(alloc)?,
        },
    })
}

impl Fixture for ActFixture {
    fn call(&mut self) -> Said {
        match self.asked {
            OfAct::Wish => of_any(Wishes::delta(self.alloc, dot(ME, 2), &self.wish)),
            OfAct::Permit => of_any(Permissions::delta(self.alloc, dot(ME, 2), &self.permit)),
            OfAct::Drain => of_any(Drains::delta(self.alloc, dot(ME, 2), &self.drain)),
        }
    }

    fn is_as_before(&self) -> bool {
        true
    }
}

/// A call that appends to a store, or makes a map of a store.
#[derive(Clone, Copy, Debug, PartialEq, Eq)]
pub enum Pushed {
    ToSet,
    ToFun,
    ToMap,
    OneAtKey,
}

/// A set and a function of one dot, an empty map, and stores to put at a key.
#[derive(Drop)]
pub struct PushFixture {
    alloc: Global,
    pushed: Pushed,
    set: DotSet,
    fun: DotFun<Flag>,
    map: FlagMap,
    more: Vec<DotFun<Flag>>,
}

/// The fixture of appends.
pub fn pushes(alloc: Global, pushed: Pushed) -> Option<PushFixture> {
    let mut more = Vec::new(alloc);
    more.push(votes_of(alloc, OTHER).ok()?).ok()?;
    more.push(votes_of(alloc, OTHER).ok()?).ok()?;
    Some(PushFixture {
        alloc,
        pushed,
        set: DotSet::one(alloc, dot(ME, 1)).ok()?,
        fun: DotFun::one(alloc, dot(ME, 1), Flag::Up).ok()?,
        map: DotMap::empty(alloc),
        more,
    })
}

/// The outcome of an append.
fn of_push(answer: Result<bool, NoMemory>) -> Said {
    match answer {
        Ok(is_pushed) => Said::Well(u64::from(is_pushed)),
        Err(_) => Said::NoMemory,
    }
}

impl PushFixture {
    /// Appends a store to the map at the next key, or makes a map of it.
    fn put_store(&mut self) -> Said {
        let Some(store) = self.more.pop() else {
            return Said::Other;
        };
        if self.pushed == Pushed::OneAtKey {
            return of_any(DotMap::one(self.alloc, 7u64, store));
        }
        of_push(self.map.push(2, store))
    }
}

impl Fixture for PushFixture {
    fn call(&mut self) -> Said {
        match self.pushed {
            Pushed::ToSet => of_push(self.set.push(dot(OTHER, 1))),
            Pushed::ToFun => of_push(self.fun.push(dot(OTHER, 1), Flag::Up)),
            Pushed::ToMap | Pushed::OneAtKey => self.put_store(),
        }
    }

    fn is_as_before(&self) -> bool {
        let dot = dot(OTHER, 1);
        !self.set.has(dot) && !self.fun.has(dot) && !self.map.has(dot)
    }
}
