//! `dac_dots` and `dac_lattice`.
use dac_config::{NoMemory, NodeId};
use dac_dots::{Context, Dot, MapKey, Origin};
use dac_lattice::{Bottom, Flag, Lattice, MapOf, Max, Pair};
use std::alloc::Global;

/// The first incarnation of the first node.
pub const ORIGIN: Origin = Origin {
    node: NodeId(0),
    inc: 1,
};

/// The first dot of `ORIGIN`.
pub const FIRST: Dot = Dot {
    origin: ORIGIN,
    n: 1,
};

/// The second dot of `ORIGIN`.
pub const SECOND: Dot = Dot {
    origin: ORIGIN,
    n: 2,
};

/// A context of the first dot.
pub fn first_alone(alloc: Global) -> Result<Context, NoMemory> {
    let mut context = Context::empty(alloc);
    context.insert(FIRST)?;
    Ok(context)
}

/// True if a context agrees with its union with itself.
fn is_united(alloc: Global) -> Result<bool, NoMemory> {
    let context = first_alone(alloc)?;
    let both: Context = context.union(&context)?.copy()?;
    let dots: Vec<Dot> = both.dots()?;
    Ok(
        context.is_subset(&both)
            && both.contains(FIRST)
            && both.next(ORIGIN) == Some(SECOND)
            && both.is_vector()
            && both.len() == 1
            && dots.as_slice() == [FIRST].as_slice(),
    )
}

/// True if a row is appended to an empty context and read again.
fn is_row_read(alloc: Global) -> Result<bool, NoMemory> {
    let mut context = Context::empty(alloc);
    let is_put: bool = context.push_row(ORIGIN, 3, &[5])?;
    let row = match context.row(0) {
        Some((origin, upto, further)) => {
            origin == ORIGIN
                && upto == 3
                && further.get(0) == Some(5u64)
                && further.list(alloc)?.as_slice() == [5u64].as_slice()
        }
        None => false,
    };
    Ok(is_put && row)
}

/// True if joining the least value changes nothing, called through the bounds.
fn is_above_bottom<L: Bottom>(alloc: Global, value: &L) -> Result<bool, NoMemory> {
    let joined: L = L::bottom(alloc).join(value)?.copy()?;
    Ok(value.leq(&joined) && joined.equal(value))
}

/// A pair of a flag and a map of maxima.
fn pair_of(alloc: Global) -> Result<Pair<Flag, MapOf<u64, Max<u64>>>, NoMemory> {
    let map: MapOf<u64, Max<u64>> = MapOf::one(alloc, 7u64, Max::new(3u64))?;
    Ok(Pair::new(Flag::Down, map))
}

/// True if that pair is above the least one.
fn is_pair_above(alloc: Global) -> Result<bool, NoMemory> {
    is_above_bottom(alloc, &pair_of(alloc)?)
}

/// True if a map with this key equals itself.
fn is_keyed<K: MapKey>(alloc: Global, key: K) -> Result<bool, NoMemory> {
    let map: MapOf<K, Max<u64>> = MapOf::one(alloc, key, Max::new(1u64))?;
    Ok(map.equal(&map))
}

/// True if unsigned numbers of each width are keys.
fn are_keyed_by_unsigned(alloc: Global) -> Result<bool, NoMemory> {
    let is_short = is_keyed(alloc, 3u8)? && is_keyed(alloc, 3u16)? && is_keyed(alloc, 3u32)?;
    let is_long = is_keyed(alloc, 3u64)? && is_keyed(alloc, 3u128)? && is_keyed(alloc, 3usize)?;
    Ok(is_short && is_long)
}

/// True if signed numbers of each width are keys.
fn are_keyed_by_signed(alloc: Global) -> Result<bool, NoMemory> {
    let is_short = is_keyed(alloc, -3i8)? && is_keyed(alloc, -3i16)? && is_keyed(alloc, -3i32)?;
    let is_long = is_keyed(alloc, -3i64)? && is_keyed(alloc, -3i128)? && is_keyed(alloc, -3isize)?;
    Ok(is_short && is_long)
}

/// True if Booleans and pairs of keys are keys.
fn are_keyed_by_others(alloc: Global) -> Result<bool, NoMemory> {
    Ok(is_keyed(alloc, true)? && is_keyed(alloc, (3i64, true))?)
}

#[test]
fn contexts(rt: HostRuntime) {
    assert!(rt; matches!(is_united(rt.alloc()), Ok(true)));
    assert!(rt; matches!(is_row_read(rt.alloc()), Ok(true)));
}

#[test]
fn lattices(rt: HostRuntime) {
    assert!(rt; matches!(is_pair_above(rt.alloc()), Ok(true)));
    assert!(rt; matches!(are_keyed_by_unsigned(rt.alloc()), Ok(true)));
    assert!(rt; matches!(are_keyed_by_signed(rt.alloc()), Ok(true)));
    assert!(rt; matches!(are_keyed_by_others(rt.alloc()), Ok(true)));
    assert!(rt; Flag::Up.leq(&Flag::Down));
}
