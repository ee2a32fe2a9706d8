//! Names as tokens.

ghost use Rattle.std.specs.Prelude.{◌≡◌};
ghost use Rattle.std.specs.Str.{bytes_eq};
ghost use Rattle.dac_tokens.specs.Gives.{Gives};
ghost use Rattle.dac_tokens.specs.Words.{located_of};
ghost use Rattle.dac_shapes.specs.Limits.{is_among};
ghost use Rattle.dac_shapes.specs.Shape.{atom_of, short_name_of};
ghost use Rattle.dac_shapes.specs.Views.{names_of};

use crate::limits::MAX_NAME;
use crate::parser::Parser;
use dac_tokens::{ConfigFault, FaultKind, Token};

/// Whether the name is one of these.
pub fn is_among(name: &[u8], names: &[&[u8]]) -> bool
    ensures { result ≡ is_among name.now (names_of names.now) }
{
    names.contains(&name)
}

/// Whether a name consists of these bytes.
pub fn spells(word: &[u8], name: &[u8]) -> bool
    ensures { result ≡ bytes_eq name.now word.now }
{
    name == word
}

impl<'a> Parser<'a> {
    /// The name in the current token.
    #[tactic(auto, unfolding(crate::specs::Shape::atom_of))]
    pub fn atom(&self) -> Result<&'a [u8], ConfigFault>
        ensures { Gives (λ x. x.now) result (atom_of (located_of self.now.token)) }
    {
        match self.token.token {
            Token::Atom(name) => Ok(name),
            _ => Err(self.fault(FaultKind::BadShape)),
        }
    }

    /// The name in the current token, of at most 255 bytes.
    #[tactic(auto, unfolding(crate::specs::Shape::short_name_of))]
    pub fn short_name(&self) -> Result<&'a [u8], ConfigFault>
        ensures { Gives (λ x. x.now) result (short_name_of (located_of self.now.token)) }
    {
        let name = self.atom()?;
        if name.len() > MAX_NAME {
            return Err(self.fault(FaultKind::NameTooLong));
        }
        Ok(name)
    }
}
