//! The permissions of the parameter `permissions`.

ghost use Rattle.std.specs.Prelude.{List, ℕ};
ghost use Rattle.dac_tokens.specs.Words.{located_of};
ghost use Rattle.dac_tokens.specs.Gives.{Gives};
ghost use Rattle.dac_shapes.specs.Shape.{flag_of, short_name_of, permission_value_at, closed};
ghost use Rattle.dac_shapes.specs.Views.{permission_of};
ghost use Rattle.dac_shapes.specs.Written.{Permission as WrittenPermission};

use crate::draft::Permission;
use crate::names::spells;
use crate::pairs::NamedPair;
use crate::parser::Parser;
use dac_tokens::{ConfigFault, FaultKind, Token};

impl Parser<'_> {
    /// The flag in the current token: `true` or `false`.
    #[tactic(auto, unfolding(crate::specs::Shape::atom_of, crate::specs::Shape::flag_of))]
    fn flag(&self) -> Result<bool, ConfigFault>
        ensures { Gives (λ flag. flag) result (flag_of (located_of self.now.token)) }
    {
        match self.token.token {
            Token::Atom(name) if spells(b"true", name) => Ok(true),
            Token::Atom(name) if spells(b"false", name) => Ok(false),
            _ => Err(self.fault(FaultKind::BadShape)),
        }
    }
}

impl<'a> NamedPair<'a> for Permission<'a> {
    type Name = &'a [u8];

    ghost Named = { List ℕ };

    ghost named = { λ name. name.now };

    ghost Said = { WrittenPermission };

    ghost said = { permission_of };

    ghost name_at = { λ _. short_name_of };

    ghost rest_at = { λ name. closed (permission_value_at name) };

    fn name(parser: &Parser<'a>, _before: &[Permission<'a>]) -> Result<&'a [u8], ConfigFault> {
        parser.short_name()
    }

    #[tactic(auto, unfolding(crate::specs::Shape::permission_value_at))]
    fn rest(parser: &mut Parser<'a>, name: &'a [u8]) -> Result<Permission<'a>, ConfigFault> {
        parser.advance()?;
        let value = parser.flag()?;
        parser.close_pair(Permission { name, value })
    }
}
