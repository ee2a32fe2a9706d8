//! Nodes, and an application's node list.

ghost use Rattle.std.specs.Prelude.{◌≤◌, ℕ, List, true, false};
ghost use Rattle.dac_tokens.specs.Gives.{Gives};
ghost use Rattle.dac_shapes.specs.Shape.{node_of, tuple_at, item_at, groups_at};
ghost use Rattle.dac_shapes.specs.Views.{names_of, groups_of, from_here, parser_state, tokens_left};

use crate::limits::MAX_NODES;
use crate::list::Elements;
use crate::names::is_among;
use crate::parser::{Parser, fault};
use dac_tokens::{ConfigFault, FaultKind, Symbol};

/// Nodes by name, distinct within their list.
pub struct Nodes;

impl<'a> Elements<'a> for Nodes {
    type Element = &'a [u8];

    ghost Said = { List ℕ };

    ghost said = { λ name. name.now };

    ghost read_at = { λ _. node_of false };

    fn read(parser: &mut Parser<'a>, _before: &[&'a [u8]]) -> Result<&'a [u8], ConfigFault> {
        parser.node(false)
    }
}

/// Nodes of the sync lists, which can contain a node several times.
pub struct SyncNodes;

impl<'a> Elements<'a> for SyncNodes {
    type Element = &'a [u8];

    ghost Said = { List ℕ };

    ghost said = { λ name. name.now };

    ghost read_at = { λ _. node_of true };

    fn read(parser: &mut Parser<'a>, _before: &[&'a [u8]]) -> Result<&'a [u8], ConfigFault> {
        parser.node(true)
    }
}

/// The groups of a node list: each is a single node or a tuple of nodes.
pub struct Groups;

impl<'a> Elements<'a> for Groups {
    type Element = Vec<&'a [u8]>;

    ghost Said = { List (List ℕ) };

    ghost said = { λ group. names_of group.items };

    ghost read_at = { λ _. item_at };

    #[tactic(auto, unfolding(crate::specs::Shape::item_at))]
    fn read(
        parser: &mut Parser<'a>,
        _before: &[Vec<&'a [u8]>],
    ) -> Result<Vec<&'a [u8]>, ConfigFault> {
        if parser.is(Symbol::OpenTuple) {
            return parser.tuple();
        }
        let name = parser.node(false)?;
        let group = [name].to_vec(parser.alloc)?;
        Ok(group)
    }
}

impl<'a> Parser<'a> {
    /// The node in the current token, as the next of the current list.
    #[tactic(auto, unfolding(crate::specs::Shape::node_of))]
    fn node(&mut self, repeats: bool) -> Result<&'a [u8], ConfigFault>
        ensures read { Gives (λ name. (name.now, parser_state self.new)) result
            (from_here (node_of repeats) self.old) }
        ensures left { tokens_left self.new ≤ tokens_left self.old }
    {
        let name = self.short_name()?;
        if !repeats && is_among(name, &self.listed) {
            return Err(self.fault(FaultKind::TwiceInList));
        }
        if !is_among(name, &self.met) {
            if self.met.len() >= MAX_NODES {
                return Err(self.fault(FaultKind::TooManyNodes));
            }
            self.met.push(name)?;
        }
        self.listed.push(name)?;
        Ok(name)
    }

    /// The nodes of a tuple, whose opening brace is the current token.
    fn tuple(&mut self) -> Result<Vec<&'a [u8]>, ConfigFault>
        ensures read { Gives (λ group. (names_of group.items, parser_state self.new)) result
            (tuple_at self.old.token.at (parser_state self.old)) }
        ensures left { tokens_left self.new ≤ tokens_left self.old }
    {
        let brace = self.token.at;
        self.advance()?;
        if self.is(Symbol::CloseTuple) {
            return Err(fault(FaultKind::EmptyTuple, brace));
        }
        self.comma_list::<Nodes>(Symbol::CloseTuple)
    }

    /// A node list, whose opening bracket is the current token.
    #[tactic(auto, unfolding(crate::specs::Shape::groups_at))]
    pub fn groups(&mut self) -> Result<Vec<Vec<&'a [u8]>>, ConfigFault>
        ensures read { Gives (λ groups. (groups_of groups.items, parser_state self.new)) result
            (from_here groups_at self.old) }
        ensures left { tokens_left self.new ≤ tokens_left self.old }
    {
        if !self.is(Symbol::OpenList) {
            return Err(self.fault(FaultKind::BadShape));
        }
        let bracket = self.token.at;
        self.advance()?;
        if self.is(Symbol::CloseList) {
            return Err(fault(FaultKind::EmptyList, bracket));
        }
        self.listed.clear();
        self.comma_list::<Groups>(Symbol::CloseList)
    }
}
