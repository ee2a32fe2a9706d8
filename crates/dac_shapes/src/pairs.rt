//! Pairs of a name and a value, in braces.

ghost use Rattle.std.specs.Prelude.{◌≡◌, ◌≤◌, IfOk, List, Result, map};
ghost use Rattle.dac_tokens.specs.declared.token.Symbol.TheVariants.{CloseTuple};
ghost use Rattle.dac_tokens.specs.declared.fault.ConfigFault.{ConfigFault as Fault};
ghost use Rattle.dac_tokens.specs.Gives.{Gives};
ghost use Rattle.dac_tokens.specs.Words.{Located as Token, located_of};
ghost use Rattle.dac_shapes.specs.Shape.{State, pair_at, symbol_at};
ghost use Rattle.dac_shapes.specs.Views.{parser_state, tokens_left};

use crate::list::Elements;
use crate::parser::Parser;
use dac_tokens::{ConfigFault, FaultKind, Symbol};
use std::marker::PhantomData;

/// A pair: how to read its name, after the pairs before it, and then the rest.
pub trait NamedPair<'a>: Drop {
    /// The name's meaning.
    type Name: Drop;

    // name and pair as values, independent of where names are in memory
    ghost Named: { Type 0 };

    ghost named: { Self.Name → Named };

    ghost Said: { Type 0 };

    ghost said: { Self → Said };

    // the definitions that `name` and `rest` implement
    ghost name_at: { List Said → Token → Result Named Fault };

    ghost rest_at: { Named → State → Result (Said × State) Fault };

    /// Reads the name in the current token.
    fn name(parser: &Parser<'a>, before: &[Self]) -> Result<Self::Name, ConfigFault>
        ensures { Gives named result
            (name_at (map said before.now) (located_of parser.now.token)) };

    /// Reads the rest after the comma, up to and including the brace that closes the pair.
    fn rest(parser: &mut Parser<'a>, name: Self::Name) -> Result<Self, ConfigFault>
        ensures read { Gives (λ x. (said x, parser_state parser.new)) result
            (rest_at (named name) (parser_state parser.old)) }
        ensures left { tokens_left parser.new ≤ tokens_left parser.old };
}

/// Pairs of one kind, as elements of a list.
pub struct NamedPairs<'a, P> {
    kind: PhantomData<(&'a [u8], P)>,
}

impl<'a, P: NamedPair<'a>> Elements<'a> for NamedPairs<'a, P> {
    type Element = P;

    ghost Said = { P.Said };

    ghost said = { P.said };

    ghost read_at = { λ before. pair_at (P.name_at before) P.rest_at };

    /// Reads a pair, whose opening brace is the current token.
    #[tactic(auto, unfolding(crate::specs::Shape::pair_at))]
    fn read(parser: &mut Parser<'a>, before: &[P]) -> Result<P, ConfigFault> {
        if !parser.is(Symbol::OpenTuple) {
            return Err(parser.fault(FaultKind::BadShape));
        }
        parser.advance()?;
        let name = P::name(parser, before)?;
        parser.symbol(Symbol::Comma)?;
        P::rest(parser, name)
    }
}

impl<'a> Parser<'a> {
    /// Returns this value if the brace that closes its pair comes next.
    pub fn close_pair<T: Drop>(&mut self, value: T) -> Result<T, ConfigFault>
        ensures read { Gives (λ _. parser_state self.new) result
            (symbol_at CloseTuple (parser_state self.old)) }
        ensures same { IfOk result (λ x. x ≡ value) }
        ensures left { tokens_left self.new ≤ tokens_left self.old }
    {
        self.symbol(Symbol::CloseTuple)?;
        Ok(value)
    }
}
