//! Reads lives and claims.
ghost use Rattle.std.specs.Prelude.{◌≡◌, ◌<◌, None, Some, IfOk};
ghost use Rattle.std.specs.FinMap as map;
ghost use Rattle.dac_config.specs.Table.{app_count, node_count};
ghost use Rattle.dac_bytes.specs.Reading.{Gives, IsOfBytes, items_at};
ghost use Rattle.dac_bytes.specs.Takes.{IsFoundAs, IsReadAgain};
ghost use Rattle.dac_part_bytes.specs.ChainForm.{AreClaimsInForm, AreLivesInForm};
ghost use Rattle.dac_part_bytes.specs.Spelling.{claims_bytes, lives_bytes};
ghost use Rattle.dac_part_bytes.specs.Reading.{all_claims_at, all_lives_at, claim_at, claim_fields_at, claimer_at, claims_in_order_at, life_at, listed_claim_at, lives_in_order_at, term_and_claimer_at};

use crate::reading_fields::{is_listed, read_app, read_inc_and_flag, read_manner, read_node_above};
use dac_base::{AppId, MAX_COUNTER, NodeId};
use dac_bytes::{ByteReader, ReadFault, ReadFaultKind, Version};
use dac_chains::{Claim, Claims, How, Life, Lives};
use dac_config::Config;
use dac_lattice::{Bottom, Lattice};
use dac_origins::Origin;
use std::alloc::Global;

/// The life of a node greater than the previous one.
#[tactic(auto, unfolding(crate::specs::Reading::life_at))]
fn read_life<'a>(
    reader: ByteReader<'a>,
    version: Version,
    nodes: u8,
    before: Option<NodeId>,
) -> Result<((NodeId, Life), ByteReader<'a>), ReadFault>
    ensures exact { result ≡ life_at version nodes before reader.entry }
    ensures real { IsOfBytes result }
{
    let (node, rest) = read_node_above(reader, nodes, before)?;
    let (life, rest) = read_inc_and_flag(rest, version)?;
    Ok(((node, life), rest))
}

/// `count` lives.
fn read_counted_lives<'a>(
    reader: ByteReader<'a>,
    alloc: Global,
    version: Version,
    nodes: u8,
    count: u8,
) -> Result<(Lives, ByteReader<'a>), ReadFault>
    ensures { Gives (λ x. (map.entries x.0, x.1)) result
        (items_at (life_at version nodes) (λ e. Some e.0) count None reader.entry) }
{
    let mut lives = Lives::bottom(alloc);
    let mut before = None;
    let mut rest = reader;
    for _ in 0..count {
        let (entry, after) = read_life(rest, version, nodes, before)?;
        let (node, life) = entry;
        lives = lives.join(&Lives::one(alloc, node, life)?)?;
        before = Some(node);
        rest = after;
    }
    Ok((lives, rest))
}

#[tactic(auto, unfolding(crate::specs::Reading::all_lives_at, crate::specs::Reading::lives_in_order_at, dac_bytes::specs::Reading::counted_at))]
fn read_all_lives<'a>(
    reader: ByteReader<'a>,
    alloc: Global,
    version: Version,
    config: &Config,
) -> Result<(Lives, ByteReader<'a>), ReadFault>
    ensures { Gives (λ x. x) result (all_lives_at version (node_count config.now) reader.entry) }
{
    let (count, rest) = reader.read_u8()?;
    let read = read_counted_lives(rest, alloc, version, config.nodes(), count)?;
    Ok(read)
}

/// The lives: the number of nodes with a life, and for each in ascending order the node, its incarnation, and 0 for up
/// or 1 for down.
///
/// # Errors
///
/// Fields are checked as they are read, so that the fault is the first from left to right. A node is `BadName` if the
/// configuration doesn't contain it, and `BadOrder` if it isn't greater than the previous one. An incarnation of 0 is
/// `BadNumber` at its first byte, and so is a flag above 1.
pub fn read_lives<'a>(
    reader: ByteReader<'a>,
    alloc: Global,
    version: Version,
    config: &Config,
) -> Result<(Lives, ByteReader<'a>), ReadFault>
    ensures exact { Gives (λ x. x) result
        (all_lives_at version (node_count config.now) reader.entry) }
    // The returned lives are well-formed, with these bytes as their spelling.
    ensures found { IsFoundAs (λ x. x) (lives_bytes version)
        (AreLivesInForm version (node_count config.now)) reader.entry result }
    // Well-formed lives are read from their spelling, unless memory runs out.
    ensures again { IsReadAgain (λ x. x) (lives_bytes version)
        (AreLivesInForm version (node_count config.now)) reader.entry result }
{
    // For the prover: node numbers fit one byte.
    let _nodes = config.nodes();
    read_all_lives(reader, alloc, version, config)
}

#[tactic(auto, unfolding(crate::specs::Reading::claimer_at))]
fn read_claimer<'a>(
    reader: ByteReader<'a>,
    version: Version,
    nodes: u8,
) -> Result<((Origin, (How, Option<NodeId>)), ByteReader<'a>), ReadFault>
    ensures exact { result ≡ claimer_at version nodes reader.entry }
    ensures real { IsOfBytes result }
{
    let (origin, rest) = reader.read_origin(version, nodes)?;
    let (manner, rest) = read_manner(rest, nodes)?;
    Ok(((origin, manner), rest))
}

#[tactic(auto, unfolding(crate::specs::Reading::term_and_claimer_at))]
fn read_term_and_claimer<'a>(
    reader: ByteReader<'a>,
    version: Version,
    nodes: u8,
) -> Result<(Claim, ByteReader<'a>), ReadFault>
    ensures exact { result ≡ term_and_claimer_at version nodes reader.entry }
    ensures real { IsOfBytes result }
{
    let (term, rest) = reader.read_u64_in(1, MAX_COUNTER)?;
    let (claimer, rest) = read_claimer(rest, version, nodes)?;
    let (origin, (how, from)) = claimer;
    let claim = Claim {
        term,
        origin,
        how,
        from,
    };
    Ok((claim, rest))
}

#[tactic(auto, unfolding(crate::specs::Reading::claim_fields_at))]
fn read_claim_fields<'a>(
    reader: ByteReader<'a>,
    version: Version,
    config: &Config,
) -> Result<((AppId, Claim), ByteReader<'a>), ReadFault>
    ensures exact { result ≡ claim_fields_at version config.now reader.entry }
    ensures real { IsOfBytes result }
    ensures below { IfOk result (λ x. x.0.0.0 < app_count config.now) }
{
    let (app, rest) = read_app(reader, config.apps())?;
    let (claim, rest) = read_term_and_claimer(rest, version, config.nodes())?;
    Ok(((app, claim), rest))
}

#[tactic(auto, unfolding(crate::specs::Reading::listed_claim_at))]
fn read_listed_claim<'a>(
    reader: ByteReader<'a>,
    version: Version,
    config: &Config,
) -> Result<((AppId, Claim), ByteReader<'a>), ReadFault>
    ensures exact { result ≡ listed_claim_at version config.now reader.entry }
    ensures real { IsOfBytes result }
{
    let at = reader.at();
    let (entry, rest) = read_claim_fields(reader, version, config)?;
    let (app, claim) = entry;
    if is_listed(config, app, claim.origin.node) {
        Ok(((app, claim), rest))
    } else {
        Err(ReadFault {
            kind: ReadFaultKind::NotInList,
            at,
        })
    }
}

/// The claim of an application greater than the previous one.
#[tactic(auto, unfolding(crate::specs::Reading::claim_at))]
fn read_claim<'a>(
    reader: ByteReader<'a>,
    version: Version,
    config: &Config,
    before: Option<AppId>,
) -> Result<((AppId, Claim), ByteReader<'a>), ReadFault>
    ensures exact { result ≡ claim_at version config.now before reader.entry }
    ensures real { IsOfBytes result }
{
    let at = reader.at();
    let (entry, rest) = read_listed_claim(reader, version, config)?;
    let (app, claim) = entry;
    if before.is_none_or(|before| before < app) {
        Ok(((app, claim), rest))
    } else {
        Err(ReadFault {
            kind: ReadFaultKind::BadOrder,
            at,
        })
    }
}

/// `count` claims.
fn read_counted_claims<'a>(
    reader: ByteReader<'a>,
    alloc: Global,
    version: Version,
    config: &Config,
    count: u16,
) -> Result<(Claims, ByteReader<'a>), ReadFault>
    ensures { Gives (λ x. (map.entries x.0, x.1)) result
        (items_at (claim_at version config.now) (λ e. Some e.0) count None reader.entry) }
{
    let mut claims = Claims::bottom(alloc);
    let mut before = None;
    let mut rest = reader;
    for _ in 0..count {
        let (entry, after) = read_claim(rest, version, config, before)?;
        let (app, claim) = entry;
        claims = claims.join(&Claims::one(alloc, app, claim)?)?;
        before = Some(app);
        rest = after;
    }
    Ok((claims, rest))
}

#[tactic(auto, unfolding(crate::specs::Reading::all_claims_at, crate::specs::Reading::claims_in_order_at, dac_bytes::specs::Reading::counted_at))]
fn read_all_claims<'a>(
    reader: ByteReader<'a>,
    alloc: Global,
    version: Version,
    config: &Config,
) -> Result<(Claims, ByteReader<'a>), ReadFault>
    ensures { Gives (λ x. x) result (all_claims_at version config.now reader.entry) }
{
    let (count, rest) = reader.read_u16()?;
    let read = read_counted_claims(rest, alloc, version, config, count)?;
    Ok(read)
}

/// The claims: the number of claimed applications, and for each in ascending order the application, the term of its
/// claim, the claiming incarnation, and how the application came there.
///
/// # Errors
///
/// Fields are checked as they are read, so that the fault is the first from left to right. An application or node that
/// the configuration doesn't contain is `BadName` at its first byte. A term or incarnation out of range is `BadNumber`,
/// and the last two fields are checked as in [`read_manner`](crate::read_manner). Then the claim is `NotInList` at its
/// first byte if the node isn't in the application's list, and `BadOrder` if the application isn't greater than the
/// previous one.
pub fn read_claims<'a>(
    reader: ByteReader<'a>,
    alloc: Global,
    version: Version,
    config: &Config,
) -> Result<(Claims, ByteReader<'a>), ReadFault>
    ensures exact { Gives (λ x. x) result (all_claims_at version config.now reader.entry) }
    // The returned claims are well-formed, with these bytes as their spelling.
    ensures found { IsFoundAs (λ x. x) (claims_bytes version) (AreClaimsInForm version config.now)
        reader.entry result }
    // Well-formed claims are read from their spelling, unless memory runs out.
    ensures again { IsReadAgain (λ x. x) (claims_bytes version) (AreClaimsInForm version config.now)
        reader.entry result }
{
    // For the prover: node numbers fit one byte, and application numbers two.
    let _nodes = config.nodes();
    let _apps = config.apps();
    read_all_claims(reader, alloc, version, config)
}
