//! Reads operations.
ghost use Rattle.std.specs.Prelude.{◌≡◌, ◌<◌, None, Some, IfOk};
ghost use Rattle.dac_base.specs.declared.NodeId.{NodeId};
ghost use Rattle.dac_config.specs.Table.{app_count};
ghost use Rattle.dac_bytes.specs.Reading.{Gives, IsOfBytes, dot_above_at, items_at};
ghost use Rattle.dac_wire.specs.Reading.{act_at, act_fields_at, act_kind_at, claim_fields_at, dot_and_act_at, drain_fields_at, keyed_over_at, listed_claim_at, operation_at, over_at, permit_fields_at, term_and_manner_at, valued_over_at};

use crate::codes::{ActKind, act_of_code, highest_act, value_of_code};
use dac_base::{AppId, MAX_COUNTER, NodeId};
use dac_bytes::{ByteReader, ReadFault, ReadFaultKind, Version};
use dac_chains::How;
use dac_config::Config;
use dac_operations::{Act, Op};
use dac_origins::{Dot, Origin};
use dac_part_bytes::{read_app, read_key, read_manner};
use dac_wishes::{DotList, Key};
use std::alloc::Global;

/// `count` dots, each greater than the previous one.
fn read_dots<'a>(
    reader: ByteReader<'a>,
    alloc: Global,
    version: Version,
    nodes: u8,
    count: u16,
) -> Result<(Vec<Dot>, ByteReader<'a>), ReadFault>
    ensures { Gives (λ x. (x.0.items, x.1)) result
        (items_at (dot_above_at version nodes) Some count None reader.entry) }
{
    let mut dots = Vec::new(alloc);
    let mut before = None;
    let mut rest = reader;
    for _ in 0..count {
        let (dot, after) = rest.read_dot_above(version, nodes, before)?;
        dots.push(dot)?;
        before = Some(dot);
        rest = after;
    }
    Ok((dots, rest))
}

/// The dots that an act replaces.
#[tactic(auto, unfolding(crate::specs::Reading::over_at, dac_bytes::specs::Reading::counted_at))]
fn read_over<'a>(
    reader: ByteReader<'a>,
    alloc: Global,
    version: Version,
    nodes: u8,
) -> Result<(DotList, ByteReader<'a>), ReadFault>
    ensures { Gives (λ x. x) result (over_at version nodes reader.entry) }
{
    let (count, rest) = reader.read_u16()?;
    let (dots, rest) = read_dots(rest, alloc, version, nodes, count)?;
    Ok((DotList::new(dots), rest))
}

/// A key, and the dots that an act replaces.
#[tactic(auto, unfolding(crate::specs::Reading::keyed_over_at))]
fn read_keyed_over<'a>(
    reader: ByteReader<'a>,
    alloc: Global,
    version: Version,
    config: &Config,
) -> Result<((Key, DotList), ByteReader<'a>), ReadFault>
    ensures { Gives (λ x. x) result (keyed_over_at version config.now reader.entry) }
{
    let (key, rest) = read_key(reader, version, config, None)?;
    let (over, rest) = read_over(rest, alloc, version, config.nodes())?;
    Ok(((key, over), rest))
}

/// The value of a permit or a drain, and the dots that it replaces.
#[tactic(auto, unfolding(crate::specs::Reading::valued_over_at))]
fn read_valued_over<'a>(
    reader: ByteReader<'a>,
    alloc: Global,
    version: Version,
    nodes: u8,
) -> Result<((bool, DotList), ByteReader<'a>), ReadFault>
    ensures { Gives (λ x. x) result (valued_over_at version nodes reader.entry) }
{
    let (code, rest) = reader.read_u8_in(0, 1)?;
    let (over, rest) = read_over(rest, alloc, version, nodes)?;
    Ok(((value_of_code(code), over), rest))
}

#[tactic(auto, unfolding(crate::specs::Reading::permit_fields_at))]
fn read_permit_fields<'a>(
    reader: ByteReader<'a>,
    alloc: Global,
    version: Version,
    config: &Config,
) -> Result<((Key, (bool, DotList)), ByteReader<'a>), ReadFault>
    ensures { Gives (λ x. x) result (permit_fields_at version config.now reader.entry) }
{
    let (key, rest) = read_key(reader, version, config, None)?;
    let (valued, rest) = read_valued_over(rest, alloc, version, config.nodes())?;
    Ok(((key, valued), rest))
}

#[tactic(auto, unfolding(crate::specs::Reading::drain_fields_at))]
fn read_drain_fields<'a>(
    reader: ByteReader<'a>,
    alloc: Global,
    version: Version,
    config: &Config,
) -> Result<((Origin, (bool, DotList)), ByteReader<'a>), ReadFault>
    ensures { Gives (λ x. x) result (drain_fields_at version config.now reader.entry) }
{
    let (at, rest) = reader.read_origin(version, config.nodes())?;
    let (valued, rest) = read_valued_over(rest, alloc, version, config.nodes())?;
    Ok(((at, valued), rest))
}

/// How an application came to its node, and from which one.
type Manner = (How, Option<NodeId>);

/// A term, and how the application came to its node.
#[tactic(auto, unfolding(crate::specs::Reading::term_and_manner_at))]
fn read_term_and_manner<'a>(
    reader: ByteReader<'a>,
    nodes: u8,
) -> Result<((u64, Manner), ByteReader<'a>), ReadFault>
    ensures exact { result ≡ term_and_manner_at nodes reader.entry }
    ensures real { IsOfBytes result }
{
    let (term, rest) = reader.read_u64_in(1, MAX_COUNTER)?;
    let (manner, rest) = read_manner(rest, nodes)?;
    Ok(((term, manner), rest))
}

#[tactic(auto, unfolding(crate::specs::Reading::claim_fields_at))]
fn read_claim_fields<'a>(
    reader: ByteReader<'a>,
    config: &Config,
) -> Result<((AppId, (u64, Manner)), ByteReader<'a>), ReadFault>
    ensures exact { result ≡ claim_fields_at config.now reader.entry }
    ensures real { IsOfBytes result }
    ensures below { IfOk result (λ x. x.0.0.0 < app_count config.now) }
{
    let (app, rest) = read_app(reader, config.apps())?;
    let (claim, rest) = read_term_and_manner(rest, config.nodes())?;
    Ok(((app, claim), rest))
}

/// The fields of a claim, whose issuer must be in the application's list.
#[tactic(auto, unfolding(crate::specs::Reading::listed_claim_at))]
fn read_listed_claim<'a>(
    reader: ByteReader<'a>,
    config: &Config,
    issuer: NodeId,
) -> Result<((AppId, (u64, Manner)), ByteReader<'a>), ReadFault>
    ensures exact { result ≡ listed_claim_at config.now issuer reader.entry }
    ensures real { IsOfBytes result }
{
    let at = reader.at();
    let (claim, rest) = read_claim_fields(reader, config)?;
    if config.group_of(claim.0, issuer).is_some() {
        Ok((claim, rest))
    } else {
        Err(ReadFault::new(ReadFaultKind::NotInList, at))
    }
}

#[tactic(auto, unfolding(crate::specs::Reading::act_kind_at))]
fn read_act_kind<'a>(
    reader: ByteReader<'a>,
    version: Version,
) -> Result<(ActKind, ByteReader<'a>), ReadFault>
    ensures exact { result ≡ act_kind_at version reader.entry }
    ensures real { IsOfBytes result }
{
    let (code, rest) = reader.read_u8_in(1, highest_act(version))?;
    Ok((act_of_code(code), rest))
}

/// The fields of an act of this kind, issued by a node.
#[tactic(auto, unfolding(crate::specs::Reading::act_fields_at))]
fn read_act_fields<'a>(
    reader: ByteReader<'a>,
    alloc: Global,
    version: Version,
    config: &Config,
    issuer: NodeId,
    kind: ActKind,
) -> Result<(Act, ByteReader<'a>), ReadFault>
    ensures { Gives (λ x. x) result (act_fields_at version config.now issuer kind reader.entry) }
{
    match kind {
        ActKind::Up => Ok((Act::Up, reader)),
        ActKind::Down => {
            let (about, rest) = reader.read_origin(version, config.nodes())?;
            let down = Act::Down {
                node: about.node,
                inc: about.inc,
            };
            Ok((down, rest))
        }
        ActKind::Permit => {
            let ((key, (value, over)), rest) = read_permit_fields(reader, alloc, version, config)?;
            Ok((Act::Permit { key, value, over }, rest))
        }
        ActKind::Start => {
            let ((key, over), rest) = read_keyed_over(reader, alloc, version, config)?;
            Ok((Act::Start { key, over }, rest))
        }
        ActKind::Stop => {
            let ((key, over), rest) = read_keyed_over(reader, alloc, version, config)?;
            Ok((Act::Stop { key, over }, rest))
        }
        ActKind::Drain => {
            let ((at, (value, over)), rest) = read_drain_fields(reader, alloc, version, config)?;
            let drain = Act::Drain {
                node: at.node,
                inc: at.inc,
                value,
                over,
            };
            Ok((drain, rest))
        }
        ActKind::Claim => {
            let ((app, (term, (how, from))), rest) = read_listed_claim(reader, config, issuer)?;
            let claim = Act::Claim {
                app,
                term,
                how,
                from,
            };
            Ok((claim, rest))
        }
    }
}

/// An act, issued by a node.
#[tactic(auto, unfolding(crate::specs::Reading::act_at))]
fn read_act<'a>(
    reader: ByteReader<'a>,
    alloc: Global,
    version: Version,
    config: &Config,
    issuer: NodeId,
) -> Result<(Act, ByteReader<'a>), ReadFault>
    ensures { Gives (λ x. x) result (act_at version config.now issuer reader.entry) }
{
    let (kind, rest) = read_act_kind(reader, version)?;
    let read = read_act_fields(rest, alloc, version, config, issuer, kind)?;
    Ok(read)
}

/// A dot, and the act of its node.
#[tactic(auto, unfolding(crate::specs::Reading::dot_and_act_at))]
fn read_dot_and_act<'a>(
    reader: ByteReader<'a>,
    alloc: Global,
    version: Version,
    config: &Config,
) -> Result<((Dot, Act), ByteReader<'a>), ReadFault>
    ensures { Gives (λ x. (record { dot = x.0.0; act = x.0.1 }, x.1)) result
        (dot_and_act_at version config.now reader.entry) }
{
    let (dot, rest) = reader.read_dot(version, config.nodes())?;
    let (act, rest) = read_act(rest, alloc, version, config, dot.origin.node)?;
    Ok(((dot, act), rest))
}

/// An operation: its dot, the kind of its act, and the fields of the act.
///
/// # Errors
///
/// Fields are checked as they are read. A key or a claim whose node isn't in the application's list is `NotInList` at
/// its first byte; the node of a claim is that of the dot. A replaced dot that isn't greater than the previous one is
/// `BadOrder` at its first byte. If dot and act make no operation for another reason, that is `BadNumber` at the
/// operation's first byte, after all of its fields.
#[tactic(auto, unfolding(crate::specs::Reading::operation_at))]
pub(crate) fn read_operation<'a>(
    reader: ByteReader<'a>,
    alloc: Global,
    version: Version,
    config: &Config,
) -> Result<(Op, ByteReader<'a>), ReadFault>
    ensures { Gives (λ x. x) result (operation_at version config.now reader.entry) }
{
    let at = reader.at();
    let ((dot, act), rest) = read_dot_and_act(reader, alloc, version, config)?;
    match Op::new(dot, act) {
        Ok(op) => Ok((op, rest)),
        Err(_) => Err(ReadFault::new(ReadFaultKind::BadNumber, at)),
    }
}
