//! Reads keys, known dots, and codes.
ghost use Rattle.std.specs.Prelude.{◌≡◌, ◌<◌, IfOk};
ghost use Rattle.dac_config.specs.Table.{app_count};
ghost use Rattle.dac_bytes.specs.Reading.{IsOfBytes};
ghost use Rattle.dac_bytes.specs.Takes.{IsFoundAs, IsReadAgain};
ghost use Rattle.dac_part_bytes.specs.ChainForm.{IsConsistentOrigin};
ghost use Rattle.dac_part_bytes.specs.KeyedForm.{IsKeyAbove};
ghost use Rattle.dac_part_bytes.specs.Spelling.{app_bytes, key_bytes, manner_bytes};
ghost use Rattle.dac_part_bytes.specs.Reading.{app_at, fitting_code_at, flag_of, from_at, from_code_at, from_of, how_at, how_of, inc_and_flag_at, is_from_of, is_listed, key_above_at, key_fields_at, known_dot_at, listed_key_at, manner_at, node_above_at, some_at};

use dac_base::{AppId, NodeId};
use dac_bytes::{ByteReader, ReadFault, ReadFaultKind, Version};
use dac_chains::{How, Life};
use dac_config::Config;
use dac_lattice::Flag;
use dac_origins::Dot;
use dac_store::Context;
use dac_wishes::Key;

#[tactic(auto, unfolding(crate::specs::Reading::app_at))]
fn read_app_below<'a>(
    reader: ByteReader<'a>,
    apps: u16,
) -> Result<(AppId, ByteReader<'a>), ReadFault>
    ensures exact { result ≡ app_at apps reader.entry }
    ensures real { IsOfBytes result }
    ensures below { IfOk result (λ x. x.0.0 < apps) }
{
    let at = reader.at();
    let (app, rest) = reader.read_u16()?;
    if app < apps {
        Ok((AppId(app), rest))
    } else {
        Err(ReadFault {
            kind: ReadFaultKind::BadName,
            at,
        })
    }
}

/// An application in two bytes. A number of `apps` or more is `BadName` at its first byte.
pub fn read_app<'a>(reader: ByteReader<'a>, apps: u16) -> Result<(AppId, ByteReader<'a>), ReadFault>
    ensures exact { result ≡ app_at apps reader.entry }
    ensures real { IsOfBytes result }
    ensures below { IfOk result (λ x. x.0.0 < apps) }
    // The returned application exists, with these bytes as its spelling.
    ensures found { IsFoundAs (λ x. x) app_bytes (λ app. app.0 < apps) reader.entry result }
    // An existing application is read from its spelling.
    ensures again { IsReadAgain (λ x. x) app_bytes (λ app. app.0 < apps) reader.entry result }
{
    read_app_below(reader, apps)
}

/// Whether the node is in the application's list.
pub(crate) fn is_listed(config: &Config, app: AppId, node: NodeId) -> bool
    requires { app.0 < app_count config.now }
    ensures { result ≡ is_listed config.now app node }
{
    config.group_of(app, node).is_some()
}

#[tactic(auto, unfolding(crate::specs::Reading::key_fields_at))]
fn read_key_fields<'a>(
    reader: ByteReader<'a>,
    version: Version,
    config: &Config,
) -> Result<(Key, ByteReader<'a>), ReadFault>
    ensures exact { result ≡ key_fields_at version config.now reader.entry }
    ensures real { IsOfBytes result }
    ensures below { IfOk result (λ x. x.0.app.0 < app_count config.now) }
{
    let (app, rest) = read_app(reader, config.apps())?;
    let (origin, rest) = rest.read_origin(version, config.nodes())?;
    let key = Key {
        app,
        node: origin.node,
        inc: origin.inc,
    };
    Ok((key, rest))
}

#[tactic(auto, unfolding(crate::specs::Reading::listed_key_at))]
fn read_listed_key<'a>(
    reader: ByteReader<'a>,
    version: Version,
    config: &Config,
) -> Result<(Key, ByteReader<'a>), ReadFault>
    ensures exact { result ≡ listed_key_at version config.now reader.entry }
    ensures real { IsOfBytes result }
{
    let at = reader.at();
    let (key, rest) = read_key_fields(reader, version, config)?;
    if is_listed(config, key.app, key.node) {
        Ok((key, rest))
    } else {
        Err(ReadFault {
            kind: ReadFaultKind::NotInList,
            at,
        })
    }
}

#[tactic(auto, unfolding(crate::specs::Reading::key_above_at))]
fn read_key_above<'a>(
    reader: ByteReader<'a>,
    version: Version,
    config: &Config,
    before: Option<Key>,
) -> Result<(Key, ByteReader<'a>), ReadFault>
    ensures exact { result ≡ key_above_at version config.now before reader.entry }
    ensures real { IsOfBytes result }
{
    let at = reader.at();
    let (key, rest) = read_listed_key(reader, version, config)?;
    if before.is_none_or(|before| before < key) {
        Ok((key, rest))
    } else {
        Err(ReadFault {
            kind: ReadFaultKind::BadOrder,
            at,
        })
    }
}

/// A key greater than the previous one, if any.
///
/// # Errors
///
/// Application and node are `BadName` at their first byte if the configuration doesn't contain them, and the
/// incarnation is `BadNumber` if it is 0. Then the key is `NotInList` at its first byte if the node isn't in the
/// application's list, and `BadOrder` if it isn't greater.
pub fn read_key<'a>(
    reader: ByteReader<'a>,
    version: Version,
    config: &Config,
    before: Option<Key>,
) -> Result<(Key, ByteReader<'a>), ReadFault>
    ensures exact { result ≡ key_above_at version config.now before reader.entry }
    ensures real { IsOfBytes result }
    // The returned key is well-formed, with these bytes as its spelling.
    ensures found { IsFoundAs (λ x. x) (key_bytes version) (IsKeyAbove version config.now before)
        reader.entry result }
    // A well-formed key is read from its spelling.
    ensures again { IsReadAgain (λ x. x) (key_bytes version) (IsKeyAbove version config.now before)
        reader.entry result }
{
    // For the prover: node numbers fit one byte, and application numbers two.
    let _nodes = config.nodes();
    let _apps = config.apps();
    read_key_above(reader, version, config, before)
}

/// A known dot, greater than the previous one.
#[tactic(auto, unfolding(crate::specs::Reading::known_dot_at))]
pub(crate) fn read_known_dot<'a>(
    reader: ByteReader<'a>,
    version: Version,
    nodes: u8,
    known: &Context,
    before: Option<Dot>,
) -> Result<(Dot, ByteReader<'a>), ReadFault>
    ensures exact { result ≡ known_dot_at version nodes known.now before reader.entry }
    ensures real { IsOfBytes result }
{
    let at = reader.at();
    let (dot, rest) = reader.read_dot_above(version, nodes, before)?;
    if known.contains(dot) {
        Ok((dot, rest))
    } else {
        Err(ReadFault {
            kind: ReadFaultKind::NotKnown,
            at,
        })
    }
}

/// The number of a key's dots, at least one.
pub(crate) fn read_some<'a>(reader: ByteReader<'a>) -> Result<(u32, ByteReader<'a>), ReadFault>
    ensures exact { result ≡ some_at reader.entry }
    ensures real { IsOfBytes result }
{
    let read = reader.read_u32_in(1, u32::MAX)?;
    Ok(read)
}

/// A node greater than the previous one.
#[tactic(auto, unfolding(crate::specs::Reading::node_above_at))]
pub(crate) fn read_node_above<'a>(
    reader: ByteReader<'a>,
    nodes: u8,
    before: Option<NodeId>,
) -> Result<(NodeId, ByteReader<'a>), ReadFault>
    ensures exact { result ≡ node_above_at nodes before reader.entry }
    ensures real { IsOfBytes result }
{
    let at = reader.at();
    let (node, rest) = reader.read_node(nodes)?;
    if before.is_none_or(|before| before < node) {
        Ok((node, rest))
    } else {
        Err(ReadFault {
            kind: ReadFaultKind::BadOrder,
            at,
        })
    }
}

fn flag_of(code: u8) -> Flag
    ensures { result ≡ flag_of code }
{
    match code {
        0 => Flag::Up,
        _ => Flag::Down,
    }
}

/// An incarnation, and whether it is up.
#[tactic(auto, unfolding(crate::specs::Reading::inc_and_flag_at))]
pub(crate) fn read_inc_and_flag<'a>(
    reader: ByteReader<'a>,
    version: Version,
) -> Result<(Life, ByteReader<'a>), ReadFault>
    ensures exact { result ≡ inc_and_flag_at version reader.entry }
    ensures real { IsOfBytes result }
{
    let (inc, rest) = reader.read_incarnation(version)?;
    let (code, rest) = rest.read_u8_in(0, 1)?;
    let flag = flag_of(code);
    Ok((Life { inc, flag }, rest))
}

fn how_of(code: u8) -> How
    ensures { result ≡ how_of code }
{
    match code {
        0 => How::Normal,
        1 => How::Normal,
        2 => How::Failover,
        _ => How::Takeover,
    }
}

#[tactic(auto, unfolding(crate::specs::Reading::how_at))]
fn read_how<'a>(reader: ByteReader<'a>) -> Result<(How, ByteReader<'a>), ReadFault>
    ensures exact { result ≡ how_at reader.entry }
    ensures real { IsOfBytes result }
{
    let (code, rest) = reader.read_u8_in(1, 3)?;
    Ok((how_of(code), rest))
}

/// The code of no node, or of a node whose number is below `nodes`.
#[tactic(auto, unfolding(crate::specs::Reading::from_code_at))]
fn read_from_code<'a>(reader: ByteReader<'a>, nodes: u8) -> Result<(u8, ByteReader<'a>), ReadFault>
    ensures exact { result ≡ from_code_at nodes reader.entry }
    ensures real { IsOfBytes result }
{
    let at = reader.at();
    let (code, rest) = reader.read_u8()?;
    if nodes < code {
        return Err(ReadFault {
            kind: ReadFaultKind::BadName,
            at,
        });
    }
    Ok((code, rest))
}

/// Whether the code fits: that of no node for `Normal`, that of a node otherwise.
fn is_from_of(how: How, code: u8) -> bool
    ensures { result ≡ is_from_of how code }
{
    match how {
        How::Normal => code == 0,
        How::Failover => 0 < code,
        How::Takeover => 0 < code,
    }
}

#[tactic(auto, unfolding(crate::specs::Reading::fitting_code_at))]
fn read_fitting_code<'a>(
    reader: ByteReader<'a>,
    nodes: u8,
    how: How,
) -> Result<(u8, ByteReader<'a>), ReadFault>
    ensures exact { result ≡ fitting_code_at nodes how reader.entry }
    ensures real { IsOfBytes result }
{
    let at = reader.at();
    let (code, rest) = read_from_code(reader, nodes)?;
    if is_from_of(how, code) {
        Ok((code, rest))
    } else {
        Err(ReadFault {
            kind: ReadFaultKind::BadNumber,
            at,
        })
    }
}

fn from_of(code: u8) -> Option<NodeId>
    ensures { result ≡ from_of code }
{
    match code {
        0 => None,
        _ => Some(NodeId(code - 1)),
    }
}

#[tactic(auto, unfolding(crate::specs::Reading::from_at))]
fn read_from<'a>(
    reader: ByteReader<'a>,
    nodes: u8,
    how: How,
) -> Result<(Option<NodeId>, ByteReader<'a>), ReadFault>
    ensures exact { result ≡ from_at nodes how reader.entry }
    ensures real { IsOfBytes result }
{
    let (code, rest) = read_fitting_code(reader, nodes, how)?;
    Ok((from_of(code), rest))
}

#[tactic(auto, unfolding(crate::specs::Reading::manner_at))]
fn read_how_and_from<'a>(
    reader: ByteReader<'a>,
    nodes: u8,
) -> Result<((How, Option<NodeId>), ByteReader<'a>), ReadFault>
    ensures exact { result ≡ manner_at nodes reader.entry }
    ensures real { IsOfBytes result }
{
    let (how, rest) = read_how(reader)?;
    let (from, rest) = read_from(rest, nodes, how)?;
    Ok(((how, from), rest))
}

/// How an application came to its node, and from which node.
///
/// # Errors
///
/// The first is `BadNumber` at its byte unless it is 1 to 3. The second is `BadName` at its byte if it is above
/// `nodes`, and otherwise `BadNumber` unless it is 0 exactly for normal.
pub fn read_manner<'a>(
    reader: ByteReader<'a>,
    nodes: u8,
) -> Result<((How, Option<NodeId>), ByteReader<'a>), ReadFault>
    ensures exact { result ≡ manner_at nodes reader.entry }
    ensures real { IsOfBytes result }
    // The returned manner is consistent, with these bytes as its spelling.
    ensures found { IsFoundAs (λ x. x) (λ m. manner_bytes m.0 m.1) (λ m. IsConsistentOrigin nodes m.0 m.1)
        reader.entry result }
    // A consistent manner is read from its spelling.
    ensures again { IsReadAgain (λ x. x) (λ m. manner_bytes m.0 m.1) (λ m. IsConsistentOrigin nodes m.0 m.1)
        reader.entry result }
{
    read_how_and_from(reader, nodes)
}
