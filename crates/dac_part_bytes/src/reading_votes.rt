//! Reads permits and drains.
ghost use Rattle.std.specs.Prelude.{◌≡◌, None, Some, IfOk};
ghost use Rattle.dac_bytes.specs.Reading.{Gives, IsOfBytes, items_at, origin_above_at};
ghost use Rattle.dac_bytes.specs.Takes.{IsFoundAs, IsReadAgain};
ghost use Rattle.dac_bytes.specs.declared.version.Version.TheVariants.{Two};
ghost use Rattle.dac_config.specs.Table.{node_count};
ghost use Rattle.dac_origins.specs.Dots.{origin_cmp};
ghost use Rattle.dac_part_bytes.specs.KeyedForm.{AreDrainsInForm, ArePermitsInForm};
ghost use Rattle.dac_part_bytes.specs.Reading.{all_drains_at, all_permits_at, all_votes_at, drains_of_key_at, key_above_at, keyed_votes_at, permits_of_key_at, flag_of_code, vote_at, votes_by_key_at, votes_of_key_at};
ghost use Rattle.dac_part_bytes.specs.Spelling.{drains_bytes, permits_bytes};
ghost use Rattle.dac_store.specs.DotFuns.{has_dot};
ghost use Rattle.dac_store.specs.DotMaps.{has_in};
ghost use Rattle.dac_store.specs.Stores.{IsHeld};

use crate::laws::parts_have_one_spelling;
use crate::reading_fields::{read_key, read_known_dot, read_some};
use dac_bytes::{ByteReader, ReadFault, Version};
use dac_config::Config;
use dac_lattice::Flag;
use dac_origins::{Dot, Origin};
use dac_store::{Causal, Context, DotFun, DotMap, DotStore};
use dac_wishes::{Drains, Key, Permissions};
use std::alloc::Global;

/// The flag of a vote's code, given the flag `truth` that represents true.
fn flag_of_code(truth: Flag, code: u8) -> Flag
    ensures { result ≡ flag_of_code truth code }
{
    match truth {
        Flag::Up => match code {
            0 => Flag::Down,
            _ => Flag::Up,
        },
        Flag::Down => match code {
            0 => Flag::Up,
            _ => Flag::Down,
        },
    }
}

/// A vote, whose dot is greater than the previous one.
#[tactic(auto, unfolding(crate::specs::Reading::vote_at))]
fn read_vote<'a>(
    reader: ByteReader<'a>,
    version: Version,
    nodes: u8,
    known: &Context,
    truth: Flag,
    before: Option<Dot>,
) -> Result<((Dot, Flag), ByteReader<'a>), ReadFault>
    ensures exact { result ≡ vote_at version nodes known.now truth before reader.entry }
    ensures real { IsOfBytes result }
{
    let (dot, rest) = read_known_dot(reader, version, nodes, known, before)?;
    let (value, rest) = rest.read_u8_in(0, 1)?;
    Ok(((dot, flag_of_code(truth, value)), rest))
}

/// `count` votes of a key.
fn read_votes<'a>(
    reader: ByteReader<'a>,
    alloc: Global,
    version: Version,
    nodes: u8,
    known: &Context,
    truth: Flag,
    count: u32,
) -> Result<(DotFun<Flag>, ByteReader<'a>), ReadFault>
    ensures { Gives (λ x. x) result
        (items_at (vote_at version nodes known.now truth) (λ p. Some p.0) count None reader.entry) }
{
    let mut votes = DotFun::empty(alloc);
    let mut before = None;
    let mut rest = reader;
    for _ in 0..count {
        let (vote, after) = read_vote(rest, version, nodes, known, truth, before)?;
        let (dot, flag) = vote;
        votes.push(dot, flag)?;
        before = Some(dot);
        rest = after;
    }
    Ok((votes, rest))
}

/// The votes of a key, with their number.
#[tactic(auto, unfolding(crate::specs::Reading::votes_of_key_at, dac_bytes::specs::Reading::counted_at))]
fn read_votes_of_key<'a>(
    reader: ByteReader<'a>,
    alloc: Global,
    version: Version,
    nodes: u8,
    known: &Context,
    truth: Flag,
) -> Result<(DotFun<Flag>, ByteReader<'a>), ReadFault>
    ensures { Gives (λ x. x) result (votes_of_key_at version nodes known.now truth reader.entry) }
{
    let (count, rest) = read_some(reader)?;
    let read = read_votes(rest, alloc, version, nodes, known, truth, count)?;
    Ok(read)
}

/// A store paired with a context that contains all its dots.
pub(crate) fn beside<S: DotStore>(store: S, context: Context) -> Causal<S>
    requires { IsHeld (S.has store) context }
    ensures { result ≡ record { store = store; context = context } }
{
    Causal::new(store, context).unwrap()
}

/// A key greater than the previous one, with its permits.
#[tactic(auto, unfolding(crate::specs::Reading::keyed_votes_at))]
fn read_keyed_permits<'a>(
    reader: ByteReader<'a>,
    alloc: Global,
    version: Version,
    config: &Config,
    known: &Context,
    before: Option<Key>,
) -> Result<((Key, DotFun<Flag>), ByteReader<'a>), ReadFault>
    ensures { Gives (λ x. x) result (keyed_votes_at (key_above_at version config.now)
        (permits_of_key_at version config.now known.now) before reader.entry) }
{
    let (key, rest) = read_key(reader, version, config, before)?;
    let (permits, rest) = read_votes_of_key(rest, alloc, version, config.nodes(), known, Flag::Up)?;
    Ok(((key, permits), rest))
}

/// `count` keys with their permits.
fn read_keys_of_permits<'a>(
    reader: ByteReader<'a>,
    alloc: Global,
    version: Version,
    config: &Config,
    known: &Context,
    count: u32,
) -> Result<(DotMap<Key, DotFun<Flag>>, ByteReader<'a>), ReadFault>
    ensures { Gives (λ x. x) result (items_at
        (keyed_votes_at (key_above_at version config.now)
        (permits_of_key_at version config.now known.now)) (λ e. Some e.0) count None
        reader.entry) }
{
    let mut store = DotMap::empty(alloc);
    let mut before = None;
    let mut rest = reader;
    for _ in 0..count {
        let (entry, after) = read_keyed_permits(rest, alloc, version, config, known, before)?;
        let (key, permits) = entry;
        store.push(key, permits)?;
        before = Some(key);
        rest = after;
    }
    Ok((store, rest))
}

/// The permits by key, with the number of keys.
#[tactic(auto, unfolding(crate::specs::Reading::votes_by_key_at, dac_bytes::specs::Reading::counted_at))]
fn read_permits_by_key<'a>(
    reader: ByteReader<'a>,
    alloc: Global,
    version: Version,
    config: &Config,
    known: &Context,
) -> Result<(DotMap<Key, DotFun<Flag>>, ByteReader<'a>), ReadFault>
    ensures exact { Gives (λ x. x) result (votes_by_key_at (key_above_at version config.now)
        (permits_of_key_at version config.now known.now) reader.entry) }
    ensures held { IfOk result (λ x. IsHeld (has_in has_dot x.0) known.now) }
{
    let (count, rest) = reader.read_u32()?;
    let read = read_keys_of_permits(rest, alloc, version, config, known, count)?;
    Ok(read)
}

#[tactic(auto, unfolding(crate::specs::Reading::all_votes_at))]
fn read_all_permits<'a>(
    reader: ByteReader<'a>,
    alloc: Global,
    version: Version,
    config: &Config,
    known: &Context,
) -> Result<(Permissions, ByteReader<'a>), ReadFault>
    ensures exact { Gives (λ x. (x.0.standing, x.1)) result
        (all_permits_at version config.now known.now reader.entry) }
    ensures known { IfOk result (λ x. x.0.known ≡ known.now) }
{
    let (store, rest) = read_permits_by_key(reader, alloc, version, config, known)?;
    let causal = beside(store, known.copy()?);
    Ok((Permissions::new(causal), rest))
}

/// The standing permits, paired with the known dots: the number of keys with permits, and for each in ascending order
/// the key, the number of its permits, at least one, and these in the order of their dots. Each permit is a dot and 0
/// or 1.
///
/// # Errors
///
/// Fields are checked as they are read, so that the fault is the first from left to right. A key is checked as by
/// [`read_key`](crate::read_key). A number of permits of 0 is `BadNumber` at its first byte. A dot's node is `BadName`
/// if the configuration doesn't contain it, and its incarnation and counter are `BadNumber` if they are out of range.
/// Then the dot is `BadOrder` at its first byte if it isn't greater than the previous one, and `NotKnown` if it isn't
/// known. A value above 1 is `BadNumber`.
pub fn read_permissions<'a>(
    reader: ByteReader<'a>,
    alloc: Global,
    version: Version,
    config: &Config,
    known: &Context,
) -> Result<(Permissions, ByteReader<'a>), ReadFault>
    ensures exact { Gives (λ x. (x.0.standing, x.1)) result
        (all_permits_at version config.now known.now reader.entry) }
    ensures known { IfOk result (λ x. x.0.known ≡ known.now) }
    // The returned permits are well-formed, with these bytes as their spelling.
    ensures found { IsFoundAs (λ x. (x.0.standing, x.1)) (permits_bytes version)
        (ArePermitsInForm version config.now known.now) reader.entry result }
    // Well-formed permits are read from their spelling, unless memory runs out.
    ensures again { IsReadAgain (λ x. (x.0.standing, x.1)) (permits_bytes version)
        (ArePermitsInForm version config.now known.now) reader.entry result }
{
    parts_have_one_spelling(config);
    read_all_permits(reader, alloc, version, config, known)
}

/// An incarnation of a node, greater than the previous one, with its drains.
#[tactic(auto, unfolding(crate::specs::Reading::keyed_votes_at))]
fn read_keyed_drains<'a>(
    reader: ByteReader<'a>,
    alloc: Global,
    config: &Config,
    known: &Context,
    before: Option<Origin>,
) -> Result<((Origin, DotFun<Flag>), ByteReader<'a>), ReadFault>
    ensures { Gives (λ x. x) result (keyed_votes_at (origin_above_at Two (node_count config.now))
        (drains_of_key_at config.now known.now) before reader.entry) }
{
    let (at, rest) = reader.read_origin_above(Version::Two, config.nodes(), before)?;
    let (drains, rest) = read_votes_of_key(
        rest,
        alloc,
        Version::Two,
        config.nodes(),
        known,
        Flag::Down,
    )?;
    Ok(((at, drains), rest))
}

/// `count` incarnations with their drains.
fn read_keys_of_drains<'a>(
    reader: ByteReader<'a>,
    alloc: Global,
    config: &Config,
    known: &Context,
    count: u32,
) -> Result<(DotMap<Origin, DotFun<Flag>>, ByteReader<'a>), ReadFault>
    ensures { Gives (λ x. x) result (items_at
        (keyed_votes_at (origin_above_at Two (node_count config.now))
        (drains_of_key_at config.now known.now)) (λ e. Some e.0) count None reader.entry) }
{
    let mut store = DotMap::empty(alloc);
    let mut before = None;
    let mut rest = reader;
    for _ in 0..count {
        let (entry, after) = read_keyed_drains(rest, alloc, config, known, before)?;
        let (at, drains) = entry;
        store.push(at, drains)?;
        before = Some(at);
        rest = after;
    }
    Ok((store, rest))
}

/// The drains by incarnation, with the number of incarnations.
#[tactic(auto, unfolding(crate::specs::Reading::votes_by_key_at, dac_bytes::specs::Reading::counted_at))]
fn read_drains_by_key<'a>(
    reader: ByteReader<'a>,
    alloc: Global,
    config: &Config,
    known: &Context,
) -> Result<(DotMap<Origin, DotFun<Flag>>, ByteReader<'a>), ReadFault>
    ensures exact { Gives (λ x. x) result
        (votes_by_key_at (origin_above_at Two (node_count config.now))
        (drains_of_key_at config.now known.now) reader.entry) }
    ensures held { IfOk result (λ x. IsHeld (has_in has_dot x.0) known.now) }
{
    let (count, rest) = reader.read_u32()?;
    let read = read_keys_of_drains(rest, alloc, config, known, count)?;
    Ok(read)
}

/// The standing drains in version two.
#[tactic(auto, unfolding(crate::specs::Reading::all_votes_at))]
fn read_all_drains<'a>(
    reader: ByteReader<'a>,
    alloc: Global,
    config: &Config,
    known: &Context,
) -> Result<(Drains, ByteReader<'a>), ReadFault>
    ensures exact { Gives (λ x. (x.0.standing, x.1)) result
        (all_votes_at origin_cmp (origin_above_at Two (node_count config.now))
        (drains_of_key_at config.now known.now) reader.entry) }
    ensures known { IfOk result (λ x. x.0.known ≡ known.now) }
{
    let (store, rest) = read_drains_by_key(reader, alloc, config, known)?;
    let causal = beside(store, known.copy()?);
    Ok((Drains::new(causal), rest))
}

fn read_drains_in<'a>(
    reader: ByteReader<'a>,
    alloc: Global,
    version: Version,
    config: &Config,
    known: &Context,
) -> Result<(Drains, ByteReader<'a>), ReadFault>
    ensures exact { Gives (λ x. (x.0.standing, x.1)) result
        (all_drains_at version config.now known.now reader.entry) }
    ensures known { IfOk result (λ x. x.0.known ≡ known.now) }
{
    match version {
        Version::One => Ok((Drains::none(alloc, known.copy()?), reader)),
        Version::Two => {
            let read = read_all_drains(reader, alloc, config, known)?;
            Ok(read)
        }
    }
}

/// The standing drains, paired with the known dots. [`Version::One`] has no drains and no bytes for them. In
/// [`Version::Two`] it is the number of incarnations with drains, and for each in ascending order the node and the
/// incarnation, the number of its drains, at least one, and these in the order of their dots. Each drain is a dot and 0
/// or 1.
///
/// # Errors
///
/// A node is `BadName` if the configuration doesn't contain it, and an incarnation is `BadNumber` if it is out of
/// range. Then both are `BadOrder` at their first byte if they aren't greater than the previous ones. The other fields
/// are checked as by [`read_permissions`].
pub fn read_drains<'a>(
    reader: ByteReader<'a>,
    alloc: Global,
    version: Version,
    config: &Config,
    known: &Context,
) -> Result<(Drains, ByteReader<'a>), ReadFault>
    ensures exact { Gives (λ x. (x.0.standing, x.1)) result
        (all_drains_at version config.now known.now reader.entry) }
    ensures known { IfOk result (λ x. x.0.known ≡ known.now) }
    // The returned drains are well-formed, with these bytes as their spelling.
    ensures found { IsFoundAs (λ x. (x.0.standing, x.1)) (drains_bytes version)
        (AreDrainsInForm version config.now known.now) reader.entry result }
    // Well-formed drains are read from their spelling, unless memory runs out.
    ensures again { IsReadAgain (λ x. (x.0.standing, x.1)) (drains_bytes version)
        (AreDrainsInForm version config.now known.now) reader.entry result }
{
    parts_have_one_spelling(config);
    read_drains_in(reader, alloc, version, config, known)
}
