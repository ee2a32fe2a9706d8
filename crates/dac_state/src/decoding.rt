//! States from bytes.
ghost use Rattle.std.specs.Prelude.{◌≡◌, IfOk, Ok};
ghost use Rattle.dac_origins.specs.Dots.{IsSubset};
ghost use Rattle.dac_bytes.specs.Reading.{Gives};
ghost use Rattle.dac_bytes.specs.Takes.{IsFoundAs, IsReadAgain};
ghost use Rattle.dac_meaning.specs.StateValue.{StateValue};
ghost use Rattle.dac_state.specs.StateForm.{IsInForm};
ghost use Rattle.dac_state.specs.StateSpelling.{spelling_of, state_bytes};
ghost use Rattle.dac_bytes.specs.declared.version.Version.TheVariants.{One, Two};
ghost use Rattle.dac_state.specs.StateReading.{dots_at, standing_at, chains_at, chains_and_drains_at, pieces_at, parts_at, state_at};

use crate::laws::states_have_one_spelling;
use crate::parts::Parts;
use crate::state::State;
use dac_bytes::{ByteReader, ReadFault, ReadFaultKind, Version};
use dac_chains::{Claims, Lives};
use dac_dots::Context;
use dac_lattice::Lattice;
use dac_part_bytes::{Config, read_claims, read_drains, read_lives, read_permissions, read_wishes};
use dac_wishes::{Drains, Permissions, StandingWrites, Wishes};
use std::alloc::Global;

/// The dots heard and the dots known, which must include them.
#[tactic(auto, unfolding(crate::specs::StateReading::dots_at))]
fn read_dots<'a>(
    reader: ByteReader<'a>,
    alloc: Global,
    version: Version,
    nodes: u8,
) -> Result<((Context, Context), ByteReader<'a>), ReadFault>
    ensures exact { Gives (λ x. x) result (dots_at version nodes reader.entry) }
    ensures within { IfOk result (λ x. IsSubset x.0.0 x.0.1) }
{
    let (heard, rest) = reader.read_context(alloc, version, nodes)?;
    let (known, rest) = rest.read_context(alloc, version, nodes)?;
    if heard.is_subset(&known) {
        return Ok(((heard, known), rest));
    }
    Err(ReadFault {
        kind: ReadFaultKind::NotKnown,
        at: rest.at(),
    })
}

/// The permits and start wishes, whose dots must be known.
#[tactic(auto, unfolding(crate::specs::StateReading::standing_at))]
fn read_standing<'a>(
    reader: ByteReader<'a>,
    alloc: Global,
    version: Version,
    config: &Config,
    known: &Context,
) -> Result<((Permissions, Wishes), ByteReader<'a>), ReadFault>
    ensures exact { Gives (λ x. ((x.0.0.standing, x.0.1.standing), x.1)) result
        (standing_at version config.now known.now reader.entry) }
    ensures permitted { IfOk result (λ x. x.0.0.known ≡ known.now) }
    ensures wished { IfOk result (λ x. x.0.1.known ≡ known.now) }
{
    let (permissions, rest) = read_permissions(reader, alloc, version, config, known)?;
    let (wishes, rest) = read_wishes(rest, alloc, version, config, known)?;
    Ok(((permissions, wishes), rest))
}

#[tactic(auto, unfolding(crate::specs::StateReading::chains_at))]
fn read_chains<'a>(
    reader: ByteReader<'a>,
    alloc: Global,
    version: Version,
    config: &Config,
) -> Result<((Lives, Claims), ByteReader<'a>), ReadFault>
    ensures { Gives (λ x. x) result (chains_at version config.now reader.entry) }
{
    let (lives, rest) = read_lives(reader, alloc, version, config)?;
    let (claims, rest) = read_claims(rest, alloc, version, config)?;
    Ok(((lives, claims), rest))
}

/// The lives, the claims, and the drains, whose dots must be known.
#[tactic(auto, unfolding(crate::specs::StateReading::chains_and_drains_at))]
fn read_chains_and_drains<'a>(
    reader: ByteReader<'a>,
    alloc: Global,
    version: Version,
    config: &Config,
    known: &Context,
) -> Result<(((Lives, Claims), Drains), ByteReader<'a>), ReadFault>
    ensures exact { Gives (λ x. ((x.0.0, x.0.1.standing), x.1)) result
        (chains_and_drains_at version config.now known.now reader.entry) }
    ensures drained { IfOk result (λ x. x.0.1.known ≡ known.now) }
{
    let (chains, rest) = read_chains(reader, alloc, version, config)?;
    let (drains, rest) = read_drains(rest, alloc, version, config, known)?;
    Ok(((chains, drains), rest))
}

/// Permits and start wishes, lives and claims, and drains, in the order of the bytes.
type Pieces = ((Permissions, Wishes), ((Lives, Claims), Drains));

/// The pieces of a state with these known dots.
#[tactic(auto, unfolding(crate::specs::StateReading::pieces_at))]
fn read_pieces<'a>(
    reader: ByteReader<'a>,
    alloc: Global,
    version: Version,
    config: &Config,
    known: &Context,
) -> Result<(Pieces, ByteReader<'a>), ReadFault>
    ensures exact { Gives
        (λ x. (((x.0.0.0.standing, x.0.0.1.standing), (x.0.1.0, x.0.1.1.standing)), x.1)) result
        (pieces_at version config.now known.now reader.entry) }
    ensures permitted { IfOk result (λ x. x.0.0.0.known ≡ known.now) }
    ensures wished { IfOk result (λ x. x.0.0.1.known ≡ known.now) }
    ensures drained { IfOk result (λ x. x.0.1.1.known ≡ known.now) }
{
    let (standing, rest) = read_standing(reader, alloc, version, config, known)?;
    let (others, rest) = read_chains_and_drains(rest, alloc, version, config, known)?;
    Ok(((standing, others), rest))
}

#[tactic(auto, unfolding(crate::specs::StateReading::parts_at))]
fn read_parts<'a>(
    reader: ByteReader<'a>,
    alloc: Global,
    version: Version,
    config: &Config,
) -> Result<(Parts, ByteReader<'a>), ReadFault>
    ensures { Gives (λ x. x) result (parts_at version config.now reader.entry) }
{
    let ((heard, known), rest) = read_dots(reader, alloc, version, config.nodes())?;
    let (pieces, rest) = read_pieces(rest, alloc, version, config, &known)?;
    let ((permissions, wishes), ((lives, claims), drains)) = pieces;
    Lattice::tells_invariant(&permissions);
    Lattice::tells_invariant(&wishes);
    Lattice::tells_invariant(&drains);
    let standing = StandingWrites::of(permissions, wishes, drains);
    let parts = Parts::new(alloc, heard, standing, lives, claims);
    Ok((parts, rest))
}

fn read_next<'a>(
    reader: ByteReader<'a>,
    alloc: Global,
    version: Version,
    config: &Config,
) -> Result<(State, ByteReader<'a>), ReadFault>
    ensures { Gives (λ x. x) result (parts_at version config.now reader.entry) }
{
    let (parts, rest) = read_parts(reader, alloc, version, config)?;
    let state = State::of(parts)?;
    Ok((state, rest))
}

/// A state, unless bytes follow it.
#[tactic(auto, unfolding(crate::specs::StateReading::state_at))]
fn read_state(
    alloc: Global,
    version: Version,
    config: &Config,
    bytes: &[u8],
) -> Result<State, ReadFault>
    ensures { Gives (λ s. s) result (state_at version config.now bytes.now) }
{
    let (parts, rest) = read_parts(ByteReader::new(bytes), alloc, version, config)?;
    if rest.is_at_end() {
        let state = State::of(parts)?;
        return Ok(state);
    }
    Err(ReadFault {
        kind: ReadFaultKind::Trailing,
        at: rest.at(),
    })
}

/// The state that the bytes spell in a version.
fn decode_in(
    alloc: Global,
    version: Version,
    config: &Config,
    bytes: &[u8],
) -> Result<State, ReadFault>
    ensures found { IfOk result
        (λ s. IsInForm version config.now s × (bytes.now ≡ state_bytes version s)) }
    ensures only { (s : StateValue) → IsInForm version config.now s
        → bytes.now ≡ state_bytes version s → Gives (λ s. s) result (Ok s) }
    ensures exact { Gives (λ s. s) result (state_at version config.now bytes.now) }
{
    states_have_one_spelling(config);
    read_state(alloc, version, config, bytes)
}

impl State {
    /// The state that the next bytes spell in a version, and the reader after it.
    ///
    /// # Errors
    ///
    /// Those of [`State::decode`] except `Trailing`, at offsets that the reader counts.
    pub fn read<'a>(
        reader: ByteReader<'a>,
        alloc: Global,
        version: Version,
        config: &Config,
    ) -> Result<(Self, ByteReader<'a>), ReadFault>
        ensures exact { Gives (λ x. x) result (parts_at version config.now reader.entry) }
        // The returned state is well-formed, with these bytes as its spelling.
        ensures found { IsFoundAs (λ x. x) (state_bytes version) (IsInForm version config.now)
            reader.entry result }
        // A well-formed state is read from its spelling, unless memory runs out.
        ensures again { IsReadAgain (λ x. x) (state_bytes version) (IsInForm version config.now)
            reader.entry result }
    {
        states_have_one_spelling(config);
        read_next(reader, alloc, version, config)
    }

    /// The state that the bytes spell in version 2, under a configuration.
    ///
    /// # Errors
    ///
    /// Fields are checked as they are read, so that the fault is the first from left to right; offsets count from 0.
    /// `Short` is an incomplete field. The readers of the parts define `BadNumber`, `BadName`, `NotInList`, `BadOrder`
    /// and `NotKnown`. `NotKnown` after the known dots means that a heard dot isn't among them. `Trailing` is at the
    /// first byte after the drains. `NoMemory` has offset 0 and carries no information about the bytes.
    pub fn decode(alloc: Global, config: &Config, bytes: &[u8]) -> Result<Self, ReadFault>
        // The returned state is well-formed, with these bytes as its spelling.
        ensures found { IfOk result (λ s. IsInForm Two config.now s × (bytes.now ≡ spelling_of s)) }
        // A well-formed state is read from its spelling, unless memory runs out.
        ensures only { (s : StateValue) → IsInForm Two config.now s → bytes.now ≡ spelling_of s
            → Gives (λ s. s) result (Ok s) }
        // The definition determines the fault, unless memory runs out.
        ensures exact { Gives (λ s. s) result (state_at Two config.now bytes.now) }
    {
        decode_in(alloc, Version::Two, config, bytes)
    }

    /// The state that the bytes spell in version 1, under a configuration. Such a state has no drains, and no
    /// incarnation above 4,294,967,295.
    ///
    /// # Errors
    ///
    /// Those of [`State::decode`], with `Trailing` at the first byte after the claims.
    pub fn decode_1(alloc: Global, config: &Config, bytes: &[u8]) -> Result<Self, ReadFault>
        // The returned state is well-formed, with these bytes as its spelling.
        ensures found { IfOk result
            (λ s. IsInForm One config.now s × (bytes.now ≡ state_bytes One s)) }
        // A well-formed state is read from its spelling, unless memory runs out.
        ensures only { (s : StateValue) → IsInForm One config.now s → bytes.now ≡ state_bytes One s
            → Gives (λ s. s) result (Ok s) }
        // The definition determines the fault, unless memory runs out.
        ensures exact { Gives (λ s. s) result (state_at One config.now bytes.now) }
    {
        decode_in(alloc, Version::One, config, bytes)
    }
}
