//! Reads start wishes.
ghost use Rattle.std.specs.Prelude.{◌≡◌, None, Some, IfOk};
ghost use Rattle.dac_bytes.specs.Reading.{Gives, items_at};
ghost use Rattle.dac_bytes.specs.Takes.{IsFoundAs, IsReadAgain};
ghost use Rattle.dac_part_bytes.specs.KeyedForm.{AreStartsInForm};
ghost use Rattle.dac_part_bytes.specs.Spelling.{starts_bytes};
ghost use Rattle.dac_origins.specs.InOrder.{in_order};
ghost use Rattle.dac_store.specs.DotMaps.{has_in};
ghost use Rattle.dac_store.specs.Stores.{IsHeld};
ghost use Rattle.std.specs.FinSet as set;
ghost use Rattle.dac_part_bytes.specs.Reading.{all_starts_at, dots_of_key_at, keyed_dots_at, known_dot_at, starts_by_key_at};

use crate::reading_fields::{read_key, read_known_dot, read_some};
use crate::reading_votes::beside;
use dac_bytes::{ByteReader, ReadFault, Version};
use dac_config::Config;
use dac_store::{Context, DotMap, DotSet, DotStore};
use dac_wishes::{Key, Wishes};
use std::alloc::Global;

/// `count` dots of a key.
fn read_dots<'a>(
    reader: ByteReader<'a>,
    alloc: Global,
    version: Version,
    nodes: u8,
    known: &Context,
    count: u32,
) -> Result<(DotSet, ByteReader<'a>), ReadFault>
    ensures { Gives (λ x. (in_order x.0, x.1)) result
        (items_at (known_dot_at version nodes known.now) Some count None reader.entry) }
{
    let mut dots = DotSet::empty(alloc);
    let mut before = None;
    let mut rest = reader;
    for _ in 0..count {
        let (dot, after) = read_known_dot(rest, version, nodes, known, before)?;
        dots.push(dot)?;
        before = Some(dot);
        rest = after;
    }
    Ok((dots, rest))
}

/// The dots of a key, with their number.
#[tactic(auto, unfolding(crate::specs::Reading::dots_of_key_at, dac_bytes::specs::Reading::counted_at))]
fn read_dots_of_key<'a>(
    reader: ByteReader<'a>,
    alloc: Global,
    version: Version,
    nodes: u8,
    known: &Context,
) -> Result<(DotSet, ByteReader<'a>), ReadFault>
    ensures { Gives (λ x. (in_order x.0, x.1)) result
        (dots_of_key_at version nodes known.now reader.entry) }
{
    let (count, rest) = read_some(reader)?;
    let read = read_dots(rest, alloc, version, nodes, known, count)?;
    Ok(read)
}

/// A key greater than the previous one, with its dots.
#[tactic(auto, unfolding(crate::specs::Reading::keyed_dots_at))]
fn read_keyed_dots<'a>(
    reader: ByteReader<'a>,
    alloc: Global,
    version: Version,
    config: &Config,
    known: &Context,
    before: Option<Key>,
) -> Result<((Key, DotSet), ByteReader<'a>), ReadFault>
    ensures { Gives (λ x. x) result
        (keyed_dots_at version config.now known.now before reader.entry) }
{
    let (key, rest) = read_key(reader, version, config, before)?;
    let (dots, rest) = read_dots_of_key(rest, alloc, version, config.nodes(), known)?;
    Ok(((key, dots), rest))
}

/// `count` keys with their dots.
fn read_keys_of_dots<'a>(
    reader: ByteReader<'a>,
    alloc: Global,
    version: Version,
    config: &Config,
    known: &Context,
    count: u32,
) -> Result<(DotMap<Key, DotSet>, ByteReader<'a>), ReadFault>
    ensures { Gives (λ x. x) result (items_at (keyed_dots_at version config.now known.now)
        (λ e. Some e.0) count None reader.entry) }
{
    let mut store = DotMap::empty(alloc);
    let mut before = None;
    let mut rest = reader;
    for _ in 0..count {
        let (entry, after) = read_keyed_dots(rest, alloc, version, config, known, before)?;
        let (key, dots) = entry;
        store.push(key, dots)?;
        before = Some(key);
        rest = after;
    }
    Ok((store, rest))
}

/// The start wishes by key, with the number of keys.
#[tactic(auto, unfolding(crate::specs::Reading::starts_by_key_at, dac_bytes::specs::Reading::counted_at))]
fn read_starts_by_key<'a>(
    reader: ByteReader<'a>,
    alloc: Global,
    version: Version,
    config: &Config,
    known: &Context,
) -> Result<(DotMap<Key, DotSet>, ByteReader<'a>), ReadFault>
    ensures exact { Gives (λ x. x) result
        (starts_by_key_at version config.now known.now reader.entry) }
    ensures held { IfOk result (λ x. IsHeld (has_in set.contains x.0) known.now) }
{
    let (count, rest) = reader.read_u32()?;
    let read = read_keys_of_dots(rest, alloc, version, config, known, count)?;
    Ok(read)
}

#[tactic(auto, unfolding(crate::specs::Reading::all_starts_at))]
fn read_all_starts<'a>(
    reader: ByteReader<'a>,
    alloc: Global,
    version: Version,
    config: &Config,
    known: &Context,
) -> Result<(Wishes, ByteReader<'a>), ReadFault>
    ensures exact { Gives (λ x. (x.0.standing, x.1)) result
        (all_starts_at version config.now known.now reader.entry) }
    ensures known { IfOk result (λ x. x.0.known ≡ known.now) }
{
    let (store, rest) = read_starts_by_key(reader, alloc, version, config, known)?;
    let causal = beside(store, known.copy()?);
    Ok((Wishes::new(causal), rest))
}

/// The standing start wishes, paired with the known dots: the number of keys with wishes, and for each in ascending
/// order the key, the number of its wishes, at least one, and their dots in ascending order.
///
/// # Errors
///
/// Those of [`read_permissions`](crate::read_permissions), except those of values.
pub fn read_wishes<'a>(
    reader: ByteReader<'a>,
    alloc: Global,
    version: Version,
    config: &Config,
    known: &Context,
) -> Result<(Wishes, ByteReader<'a>), ReadFault>
    ensures exact { Gives (λ x. (x.0.standing, x.1)) result
        (all_starts_at version config.now known.now reader.entry) }
    ensures known { IfOk result (λ x. x.0.known ≡ known.now) }
    // The returned wishes are well-formed, with these bytes as their spelling.
    ensures found { IsFoundAs (λ x. (x.0.standing, x.1)) (starts_bytes version)
        (AreStartsInForm version config.now known.now) reader.entry result }
    // Well-formed wishes are read from their spelling, unless memory runs out.
    ensures again { IsReadAgain (λ x. (x.0.standing, x.1)) (starts_bytes version)
        (AreStartsInForm version config.now known.now) reader.entry result }
{
    // For the prover: node numbers fit one byte, and application numbers two.
    let _nodes = config.nodes();
    let _apps = config.apps();
    read_all_starts(reader, alloc, version, config, known)
}
