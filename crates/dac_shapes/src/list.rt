//! Lists of elements separated by commas.

ghost use Rattle.std.specs.Prelude.{◌≤◌, [], map};
ghost use Rattle.dac_tokens.specs.Gives.{Gives};
ghost use Rattle.dac_shapes.specs.Shape.{comma_list, list_of, room};
ghost use Rattle.dac_shapes.specs.Views.{Reading, from_here, parser_state, tokens_left};

use crate::parser::Parser;
use dac_tokens::{ConfigFault, Symbol};

/// A kind of list element, with the way to read one after those before it.
pub trait Elements<'a> {
    /// An element, with names borrowed from the text.
    type Element: Drop;

    // an element as a value, independent of where its names are in memory
    ghost Said: { Type 0 };

    ghost said: { Self.Element → Said };

    ghost read_at: { Reading Said };

    /// Reads the element that begins with the current token.
    fn read(parser: &mut Parser<'a>, before: &[Self::Element]) -> Result<Self::Element, ConfigFault>
        ensures read { Gives (λ x. (said x, parser_state parser.new)) result
            (from_here (read_at (map said before.now)) parser.old) }
        ensures left { tokens_left parser.new ≤ tokens_left parser.old };
}

impl<'a> Parser<'a> {
    /// Elements separated by commas, of which the first begins with the current token, up to the closing symbol.
    pub fn comma_list<E: Elements<'a>>(
        &mut self,
        close: Symbol,
    ) -> Result<Vec<E::Element>, ConfigFault>
        ensures read { Gives (λ all. (map E.said all.items, parser_state self.new)) result
            (from_here (comma_list E.read_at close (room (parser_state self.old)) []) self.old) }
        ensures left { tokens_left self.new ≤ tokens_left self.old }
    {
        let mut all = Vec::new(self.alloc);
        loop {
            let element = E::read(self, &all)?;
            all.push(element)?;
            if !self.more(close)? {
                return Ok(all);
            }
            self.advance()?;
        }
    }

    /// A list in brackets, which can be empty.
    #[tactic(auto, unfolding(crate::specs::Shape::list_of))]
    pub fn list<E: Elements<'a>>(&mut self) -> Result<Vec<E::Element>, ConfigFault>
        ensures read { Gives (λ all. (map E.said all.items, parser_state self.new)) result
            (list_of E.read_at (parser_state self.old)) }
        ensures left { tokens_left self.new ≤ tokens_left self.old }
    {
        self.after(Symbol::OpenList)?;
        if self.is(Symbol::CloseList) {
            return Ok(Vec::new(self.alloc));
        }
        self.comma_list::<E>(Symbol::CloseList)
    }
}
