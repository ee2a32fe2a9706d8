//! The applications of the parameter `distributed`.

ghost use Rattle.std.specs.Prelude.{◌≡◌, ◌≤◌, List, ℕ};
ghost use Rattle.std.specs.List.{list_any};
ghost use Rattle.std.specs.Str.{bytes_eq};
ghost use Rattle.dac_tokens.specs.Gives.{Gives};
ghost use Rattle.dac_tokens.specs.Words.{located_of};
ghost use Rattle.dac_shapes.specs.Shape.{timeout_at, app_name_of, app_value_at, closed};
ghost use Rattle.dac_shapes.specs.Views.{app_of, from_here, parser_state, tokens_left};
ghost use Rattle.dac_shapes.specs.Written.{App};

use crate::draft::DraftApp;
use crate::limits::MAX_APPS;
use crate::numbers::milliseconds_of;
use crate::pairs::NamedPair;
use crate::parser::Parser;
use dac_tokens::{ConfigFault, FaultKind, Symbol, Token};

impl Parser<'_> {
    /// The timeout of an application, or 0 if the current token is no number. Skips the timeout and its comma.
    #[tactic(auto, unfolding(crate::specs::Shape::timeout_at))]
    fn timeout(&mut self) -> Result<u32, ConfigFault>
        ensures read { Gives (λ ms. (ms, located_of self.new.token, parser_state self.new)) result
            (from_here timeout_at self.old) }
        ensures left { tokens_left self.new ≤ tokens_left self.old }
    {
        let Token::Number { negative, digits } = self.token.token else {
            return Ok(0);
        };
        let timeout = milliseconds_of(self.token.at, negative, digits)?;
        self.after(Symbol::Comma)?;
        Ok(timeout)
    }
}

/// Whether one of the applications has this name.
fn has_app(name: &[u8], apps: &[DraftApp<'_>]) -> bool
    ensures { result ≡ list_any (λ app. bytes_eq app.name.now name.now) apps.now }
{
    apps.iter().any(|app| app.name == name)
}

impl<'a> NamedPair<'a> for DraftApp<'a> {
    type Name = &'a [u8];

    ghost Named = { List ℕ };

    ghost named = { λ name. name.now };

    ghost Said = { App };

    ghost said = { app_of };

    ghost name_at = { app_name_of };

    ghost rest_at = { λ name. closed (app_value_at name) };

    #[tactic(auto, using(crate::proofs::Loops::apps), unfolding(crate::specs::Shape::app_name_of))]
    fn name(parser: &Parser<'a>, before: &[DraftApp<'a>]) -> Result<&'a [u8], ConfigFault> {
        let name = parser.short_name()?;
        if has_app(name, before) {
            return Err(parser.fault(FaultKind::TwiceApp));
        }
        if before.len() >= MAX_APPS {
            return Err(parser.fault(FaultKind::TooManyApps));
        }
        Ok(name)
    }

    #[tactic(auto, unfolding(crate::specs::Shape::app_value_at))]
    fn rest(parser: &mut Parser<'a>, name: &'a [u8]) -> Result<DraftApp<'a>, ConfigFault> {
        parser.advance()?;
        let timeout = parser.timeout()?;
        let groups = parser.groups()?;
        parser.close_pair(DraftApp {
            name,
            timeout,
            groups,
        })
    }
}
