//! Parses words by their roles.

ghost use Rattle.std.specs.Prelude.{◌≡◌, ◌≢◌, length, map, IfOk, MatchResult, MatchOption};
ghost use Rattle.dac_script.specs.Forms.{flag_word, Tells, AllTell};
ghost use Rattle.dac_script.specs.Forms.Slot.{Node as TheNode, About as AboutNode, App as TheApp};
ghost use Rattle.dac_script.specs.LineFaults.{IsNoFlag, IsWrong, AreWrong, IsAnyWrong, IsLeast, IsOutside, AreDistinct};
ghost use Rattle.dac_script.specs.Values.{slot_of, least_of, lesser};
ghost use Rattle.dac_script.specs.declared.fault.ScriptFaultKind.TheVariants.{BadName as NoName};
ghost use Rattle.dac_script.specs.declared.verb.Role.{Role as ARole};
ghost use Rattle.dac_script.specs.declared.verb.Role.TheVariants as a_role;

use crate::byte_list::ByteList;
use crate::fault::ScriptFaultKind;
use crate::verb::Role;
use crate::words::{bytes_in, name_in, number_in};
use dac_base::{AppId, NoMemory, NodeId};
use dac_config::Config;
use std::alloc::Global;

/// The values of a line's words, one field per role. Fields of absent roles mean nothing.
#[derive(Drop)]
pub(crate) struct Values {
    pub(crate) actor: NodeId,
    pub(crate) other: NodeId,
    pub(crate) app: AppId,
    pub(crate) about: NodeId,
    pub(crate) number: u64,
    pub(crate) flag: bool,
    pub(crate) bytes: ByteList,
}

impl Values {
    fn new(alloc: Global) -> Self {
        Values {
            actor: NodeId(0),
            other: NodeId(0),
            app: AppId(0),
            about: NodeId(0),
            number: 0,
            flag: false,
            bytes: ByteList::new(Vec::new(alloc)),
        }
    }
}

/// Parses the name of a configured node.
#[tactic(auto, using(crate::proofs::Told::no_node, crate::proofs::Told::unknown_node))]
fn node_in(config: &Config, word: &[u8]) -> Result<NodeId, ScriptFaultKind>
    ensures { MatchResult result (λ node. Tells config.now (TheNode node) word.now)
        (IsLeast (IsWrong config.now a_role.Actor word.now)) }
{
    let Some(name) = name_in(word) else {
        return Err(ScriptFaultKind::BadName);
    };
    match config.node_named(name) {
        Some(node) => Ok(node),
        None => Err(ScriptFaultKind::UnknownActor),
    }
}

/// Parses the name of a node. An unknown one is the number past all nodes, because a request can concern any node.
#[tactic(auto, using(crate::proofs::Told::no_name))]
fn about_in(config: &Config, word: &[u8]) -> Result<NodeId, ScriptFaultKind>
    ensures { MatchResult result (λ node. Tells config.now (AboutNode node) word.now)
        (IsLeast (IsWrong config.now a_role.About word.now)) }
{
    match name_in(word) {
        Some(name) => Ok(config.node_named(name).unwrap_or(NodeId(config.nodes()))),
        None => Err(ScriptFaultKind::BadName),
    }
}

/// Parses the name of an application. An unknown one is the number past all applications.
#[tactic(auto, using(crate::proofs::Told::no_name))]
fn app_in(config: &Config, word: &[u8]) -> Result<AppId, ScriptFaultKind>
    ensures { MatchResult result (λ app. Tells config.now (TheApp app) word.now)
        (IsLeast (IsWrong config.now a_role.Application word.now)) }
{
    match name_in(word) {
        Some(name) => Ok(config.app_named(name).unwrap_or(AppId(config.apps()))),
        None => Err(ScriptFaultKind::BadName),
    }
}

/// Parses `true` or `false`, without quotes.
fn flag_in(word: &[u8]) -> Result<bool, ScriptFaultKind>
    ensures { MatchResult result (λ flag. word.now ≡ flag_word flag)
        (IsLeast (λ kind. (kind ≡ NoName) × IsNoFlag word.now)) }
{
    match word {
        b"true" => Ok(true),
        b"false" => Ok(false),
        _ => Err(ScriptFaultKind::BadName),
    }
}

/// Parses a word of any role but `Hex`, the only one that needs memory.
#[tactic(auto, using(crate::proofs::Told::no_number))]
fn read_plain(
    config: &Config,
    role: Role,
    word: &[u8],
    values: &mut Values,
) -> Result<(), ScriptFaultKind>
    requires { role ≢ a_role.Hex }
    ensures read { MatchResult result
        (λ _. Tells config.now (slot_of values.new role) word.now)
        (IsLeast (IsWrong config.now role word.now)) }
    ensures kept { (sought : ARole) → sought ≢ role
        → slot_of values.new sought ≡ slot_of values.old sought }
{
    match role {
        Role::Actor => values.actor = node_in(config, word)?,
        Role::Other => values.other = node_in(config, word)?,
        Role::Application => values.app = app_in(config, word)?,
        Role::About => values.about = about_in(config, word)?,
        Role::Number => values.number = number_in(word).ok_or(ScriptFaultKind::BadNumber)?,
        Role::Flag => values.flag = flag_in(word)?,
        Role::Hex => {}
    }
    Ok(())
}

/// Parses a word into its field, or returns its fault.
fn read_word(
    alloc: Global,
    config: &Config,
    role: Role,
    word: &[u8],
    values: &mut Values,
) -> Result<Option<ScriptFaultKind>, NoMemory>
    ensures read { IfOk result
        (λ fault. MatchOption fault (Tells config.now (slot_of values.new role) word.now)
        (IsLeast (IsWrong config.now role word.now))) }
    ensures kept { (sought : ARole) → sought ≢ role
        → slot_of values.new sought ≡ slot_of values.old sought }
{
    if role != Role::Hex {
        return Ok(read_plain(config, role, word, values).err());
    }
    match bytes_in(alloc, word)? {
        Some(bytes) => {
            values.bytes = bytes;
            Ok(None)
        }
        None => Ok(Some(ScriptFaultKind::BadHex)),
    }
}

/// The one that comes first in the list of kinds.
pub(crate) fn least_of(one: ScriptFaultKind, other: ScriptFaultKind) -> ScriptFaultKind
    ensures { result ≡ least_of one other }
{
    if other.number() < one.number() {
        return other;
    }
    one
}

/// The lesser fault, if there is any.
fn lesser(
    first: Option<ScriptFaultKind>,
    second: Option<ScriptFaultKind>,
) -> Option<ScriptFaultKind>
    ensures { result ≡ lesser first second }
{
    match (first, second) {
        (Some(one), Some(other)) => Some(least_of(one, other)),
        (Some(one), None) => Some(one),
        (None, other) => other,
    }
}

/// Parses words into the fields of their roles, or returns the least fault.
#[tactic(auto, using(crate::proofs::Told::nothing_read))]
fn read_words(
    alloc: Global,
    config: &Config,
    roles: &[Role],
    words: &[&[u8]],
    values: &mut Values,
) -> Result<Option<ScriptFaultKind>, NoMemory>
    requires count { length words.now ≡ length roles.now }
    requires distinct { AreDistinct roles.now }
    ensures read { IfOk result
        (λ fault. MatchOption fault
        (AllTell config.now (map (slot_of values.new) roles.now) (map (λ word. word.now) words.now))
        (IsLeast (IsAnyWrong config.now roles.now (map (λ word. word.now) words.now)))) }
    ensures kept { (sought : ARole) → IsOutside sought roles.now
        → slot_of values.new sought ≡ slot_of values.old sought }
{
    let ([role, other_roles @ ..], [word, other_words @ ..]) = (roles, words) else {
        return Ok(None);
    };
    let fault = read_word(alloc, config, *role, word, values)?;
    let later = read_words(alloc, config, other_roles, other_words, values)?;
    Ok(lesser(fault, later))
}

/// Parses the words in these roles, or returns their least fault. `BadCount` precedes the faults of single words.
#[tactic(auto, using(crate::proofs::Told::miscounted))]
pub(crate) fn values_of(
    alloc: Global,
    config: &Config,
    roles: &[Role],
    words: &[&[u8]],
) -> Result<Result<Values, ScriptFaultKind>, NoMemory>
    requires { AreDistinct roles.now }
    ensures { IfOk result
        (λ read. MatchResult read
        (λ values. AllTell config.now (map (slot_of values) roles.now) (map (λ word. word.now) words.now))
        (IsLeast (AreWrong config.now roles.now (map (λ word. word.now) words.now)))) }
{
    if words.len() != roles.len() {
        return Ok(Err(ScriptFaultKind::BadCount));
    }
    let mut values = Values::new(alloc);
    match read_words(alloc, config, roles, words, &mut values)? {
        Some(fault) => Ok(Err(fault)),
        None => Ok(Ok(values)),
    }
}
