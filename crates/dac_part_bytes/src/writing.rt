//! Writes the parts: each function appends one to a writer.
ghost use Rattle.std.specs.Prelude.{◌≡◌, ◌++◌, IfOk};
ghost use Rattle.dac_part_bytes.specs.Spelling.{claim_bytes, claims_bytes, down_code, drains_bytes, from_code, how_code, key_bytes, keyed_dots_bytes, keyed_votes_bytes, life_bytes, lives_bytes, manner_bytes, permits_bytes, code_of_flag, starts_bytes, vote_bytes, votes_bytes, votes_of_key_bytes};
ghost use Rattle.dac_bytes.specs.declared.version.Version.TheVariants.{One, Two};
ghost use Rattle.dac_bytes.specs.Spelling.{origin_bytes};
ghost use Rattle.dac_origins.specs.Dots.{origin_cmp};
ghost use Rattle.dac_lattice.specs.declared.flags.Flag.TheVariants.{Down, Up};

use dac_base::{AppId, NoMemory, NodeId};
use dac_bytes::{ByteWriter, Version};
use dac_chains::{Claim, Claims, How, Life, Lives};
use dac_lattice::Flag;
use dac_origins::{Dot, Origin};
use dac_wishes::{DrainsRef, Key, PermissionsRef, WishesRef};

/// A key: its application in two bytes, its node in one, and its incarnation in four or eight.
pub fn write_key(writer: ByteWriter, version: Version, key: Key) -> Result<ByteWriter, NoMemory>
    ensures { IfOk result (λ written. written ≡ writer ++ key_bytes version key) }
{
    match version {
        Version::One => writer.write_bytes(&short_key(key)),
        Version::Two => writer.write_bytes(&long_key(key)),
    }
}

#[tactic(auto, unfolding(crate::specs::Spelling::key_bytes, dac_bytes::specs::Spelling::origin_bytes, dac_bytes::specs::Spelling::incarnation_bytes, dac_bytes::specs::Numbers::u8_bytes, dac_bytes::specs::Numbers::u16_bytes))]
fn short_key(key: Key) -> [u8; 7]
    ensures { result ≡ key_bytes One key }
{
    let app = key.app.0.to_be_bytes();
    let node = u8::to_be_bytes(key.node.0);
    let inc = key.inc.to_be_bytes();
    [app[0], app[1], node[0], inc[4], inc[5], inc[6], inc[7]]
}

#[tactic(auto, unfolding(crate::specs::Spelling::key_bytes, dac_bytes::specs::Spelling::origin_bytes, dac_bytes::specs::Spelling::incarnation_bytes, dac_bytes::specs::Numbers::u8_bytes, dac_bytes::specs::Numbers::u16_bytes))]
fn long_key(key: Key) -> [u8; 11]
    ensures { result ≡ key_bytes Two key }
{
    let app = key.app.0.to_be_bytes();
    let node = u8::to_be_bytes(key.node.0);
    let inc = key.inc.to_be_bytes();
    [
        app[0], app[1], node[0], inc[0], inc[1], inc[2], inc[3], inc[4], inc[5], inc[6], inc[7],
    ]
}

/// The code of a vote, 0 for false and 1 for true, given the flag `truth` that represents true.
fn code_of_flag(truth: Flag, flag: Flag) -> u8
    ensures { result ≡ code_of_flag truth flag }
{
    match truth {
        Flag::Up => match flag {
            Flag::Up => 1,
            Flag::Down => 0,
        },
        Flag::Down => match flag {
            Flag::Up => 0,
            Flag::Down => 1,
        },
    }
}

#[tactic(auto, unfolding(crate::specs::Spelling::vote_bytes))]
fn write_vote(
    writer: ByteWriter,
    version: Version,
    truth: Flag,
    dot: Dot,
    flag: Flag,
) -> Result<ByteWriter, NoMemory>
    ensures { IfOk result (λ written. written ≡ writer ++ vote_bytes version truth (dot, flag)) }
{
    let written = writer
        .write_dot(version, dot)?
        .write_u8(code_of_flag(truth, flag))?;
    Ok(written)
}

/// The number of a key's votes, and these.
#[tactic(auto, unfolding(crate::specs::Spelling::votes_of_key_bytes))]
fn write_votes(
    writer: ByteWriter,
    version: Version,
    truth: Flag,
    votes: &[(Dot, Flag)],
) -> Result<ByteWriter, NoMemory>
    ensures { IfOk result
        (λ written. written ≡ writer ++ votes_of_key_bytes version truth votes.now) }
{
    let mut written = writer.write_count_u32(votes.len())?;
    for (dot, flag) in votes {
        written = write_vote(written, version, truth, *dot, *flag)?;
    }
    Ok(written)
}

#[tactic(auto, unfolding(crate::specs::Spelling::keyed_votes_bytes))]
fn write_permits(
    writer: ByteWriter,
    version: Version,
    key: Key,
    permits: &[(Dot, Flag)],
) -> Result<ByteWriter, NoMemory>
    ensures { IfOk result (λ written. written
        ≡ writer ++ keyed_votes_bytes (key_bytes version) version Up (key, permits.now)) }
{
    let head = write_key(writer, version, key)?;
    let written = write_votes(head, version, Flag::Up, permits)?;
    Ok(written)
}

/// The standing permits: the number of keys with permits, and for each in ascending order the key, the number of its
/// permits, and these, each a dot and 1 for true or 0 for false.
#[tactic(auto, unfolding(crate::specs::Spelling::votes_bytes))]
pub fn write_permissions(
    writer: ByteWriter,
    version: Version,
    permissions: &PermissionsRef<'_>,
) -> Result<ByteWriter, NoMemory>
    ensures { IfOk result
        (λ written. written ≡ writer ++ permits_bytes version permissions.now.standing) }
{
    let mut written = writer.write_count_u32(permissions.len())?;
    let mut left = permissions.entries();
    while let Some((key, permits)) = left.next() {
        written = write_permits(written, version, *key, permits.entries())?;
    }
    Ok(written)
}

/// An incarnation of a node and its drains.
#[tactic(auto, unfolding(crate::specs::Spelling::keyed_votes_bytes))]
fn write_drains_of(
    writer: ByteWriter,
    at: Origin,
    drains: &[(Dot, Flag)],
) -> Result<ByteWriter, NoMemory>
    ensures { IfOk result (λ written. written
        ≡ writer ++ keyed_votes_bytes (origin_bytes Two) Two Down (at, drains.now)) }
{
    let head = writer.write_origin(Version::Two, at)?;
    let written = write_votes(head, Version::Two, Flag::Down, drains)?;
    Ok(written)
}

/// The standing drains in version two.
#[tactic(auto, unfolding(crate::specs::Spelling::votes_bytes))]
fn write_all_drains(writer: ByteWriter, drains: &DrainsRef<'_>) -> Result<ByteWriter, NoMemory>
    ensures { IfOk result (λ written. written
        ≡ writer ++ votes_bytes origin_cmp (origin_bytes Two) Two Down drains.now.standing) }
{
    let mut written = writer.write_count_u32(drains.len())?;
    let mut left = drains.entries();
    while let Some((at, votes)) = left.next() {
        written = write_drains_of(written, *at, votes.entries())?;
    }
    Ok(written)
}

/// The standing drains: the number of incarnations with drains, and for each in ascending order the node and the
/// incarnation, the number of its drains, and these, each a dot and 1 for true or 0 for false. [`Version::One`] has no
/// bytes for them.
pub fn write_drains(
    writer: ByteWriter,
    version: Version,
    drains: &DrainsRef<'_>,
) -> Result<ByteWriter, NoMemory>
    ensures { IfOk result
        (λ written. written ≡ writer ++ drains_bytes version drains.now.standing) }
{
    match version {
        Version::One => Ok(writer),
        Version::Two => {
            let written = write_all_drains(writer, drains)?;
            Ok(written)
        }
    }
}

/// A key and the dots of its start wishes.
#[tactic(auto, unfolding(crate::specs::Spelling::keyed_dots_bytes))]
fn write_dots(
    writer: ByteWriter,
    version: Version,
    key: Key,
    dots: &[Dot],
) -> Result<ByteWriter, NoMemory>
    ensures { IfOk result
        (λ written. written ≡ writer ++ keyed_dots_bytes version (key, dots.now)) }
{
    let head = write_key(writer, version, key)?;
    let mut written = head.write_count_u32(dots.len())?;
    for dot in dots {
        written = written.write_dot(version, *dot)?;
    }
    Ok(written)
}

/// The standing start wishes: the number of keys with wishes, and for each in ascending order the key, the number of
/// its wishes, and their dots.
#[tactic(auto, unfolding(crate::specs::Spelling::starts_bytes))]
pub fn write_wishes(
    writer: ByteWriter,
    version: Version,
    wishes: &WishesRef<'_>,
) -> Result<ByteWriter, NoMemory>
    ensures { IfOk result
        (λ written. written ≡ writer ++ starts_bytes version wishes.now.standing) }
{
    let mut written = writer.write_count_u32(wishes.len())?;
    let mut left = wishes.entries();
    while let Some((key, dots)) = left.next() {
        written = write_dots(written, version, *key, dots.dots())?;
    }
    Ok(written)
}

fn down_code(flag: Flag) -> u8
    ensures { result ≡ down_code flag }
{
    match flag {
        Flag::Up => 0,
        Flag::Down => 1,
    }
}

#[tactic(auto, unfolding(crate::specs::Spelling::life_bytes))]
fn write_life(
    writer: ByteWriter,
    version: Version,
    node: NodeId,
    life: Life,
) -> Result<ByteWriter, NoMemory>
    ensures { IfOk result (λ written. written ≡ writer ++ life_bytes version (node, life)) }
{
    let written = writer
        .write_u8(node.0)?
        .write_incarnation(version, life.inc)?
        .write_u8(down_code(life.flag))?;
    Ok(written)
}

/// The lives: the number of nodes with a life, and for each in ascending order the node, its incarnation, and 0 for up
/// or 1 for down.
#[tactic(auto, unfolding(crate::specs::Spelling::lives_bytes))]
pub fn write_lives(
    writer: ByteWriter,
    version: Version,
    lives: &Lives,
) -> Result<ByteWriter, NoMemory>
    ensures { IfOk result (λ written. written ≡ writer ++ lives_bytes version lives.now) }
{
    let entries = lives.entries();
    let mut written = writer.write_count_u8(entries.len())?;
    for (node, greatest) in entries {
        written = write_life(written, version, *node, greatest.value)?;
    }
    Ok(written)
}

fn how_code(how: How) -> u8
    ensures { result ≡ how_code how }
{
    match how {
        How::Normal => 1,
        How::Failover => 2,
        How::Takeover => 3,
    }
}

fn from_code(from: Option<NodeId>) -> usize
    ensures { result ≡ from_code from }
{
    match from {
        None => 0,
        Some(node) => usize::from(node.0) + 1,
    }
}

/// How an application came to its node: 1 for normal, 2 for a failover or 3 for a takeover; then 0, or one more than
/// the node that it was taken from, truncated to its low bits.
#[tactic(auto, unfolding(crate::specs::Spelling::manner_bytes))]
pub fn write_manner(
    writer: ByteWriter,
    how: How,
    from: Option<NodeId>,
) -> Result<ByteWriter, NoMemory>
    ensures { IfOk result (λ written. written ≡ writer ++ manner_bytes how from) }
{
    let written = writer
        .write_u8(how_code(how))?
        .write_count_u8(from_code(from))?;
    Ok(written)
}

#[tactic(auto, unfolding(crate::specs::Spelling::claim_bytes))]
fn write_claim(
    writer: ByteWriter,
    version: Version,
    app: AppId,
    claim: Claim,
) -> Result<ByteWriter, NoMemory>
    ensures { IfOk result (λ written. written ≡ writer ++ claim_bytes version (app, claim)) }
{
    let head = writer
        .write_u16(app.0)?
        .write_u64(claim.term)?
        .write_origin(version, claim.origin)?;
    let written = write_manner(head, claim.how, claim.from)?;
    Ok(written)
}

/// The claims: the number of claimed applications, and for each in ascending order the application, the term of its
/// claim, the claiming incarnation, and how the application came there.
#[tactic(auto, unfolding(crate::specs::Spelling::claims_bytes))]
pub fn write_claims(
    writer: ByteWriter,
    version: Version,
    claims: &Claims,
) -> Result<ByteWriter, NoMemory>
    ensures { IfOk result (λ written. written ≡ writer ++ claims_bytes version claims.now) }
{
    let entries = claims.entries();
    let mut written = writer.write_count_u16(entries.len())?;
    for (app, greatest) in entries {
        written = write_claim(written, version, *app, greatest.value)?;
    }
    Ok(written)
}
