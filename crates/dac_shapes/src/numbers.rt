//! Numbers as tokens.

ghost use Rattle.std.specs.Prelude.{◌≡◌, Some, None, if◌then◌else◌, nat_lt};
ghost use Rattle.dac_tokens.specs.Gives.{Gives};
ghost use Rattle.dac_tokens.specs.Words.{located_of};
ghost use Rattle.dac_tokens.specs.Digits.{value_from};
ghost use Rattle.dac_shapes.specs.Shape.{milliseconds_of, wait_of};
ghost use Rattle.dac_shapes.specs.Written.{ms_bound};

use crate::draft::SyncWait;
use crate::names::spells;
use crate::parser::{Parser, fault};
use dac_tokens::{ConfigFault, FaultKind, Token};

/// The value of the digits, if it fits.
fn number_of(digits: &[u8]) -> Option<u32>
    ensures { result
        ≡ (if nat_lt (value_from 0 digits.now) ms_bound then Some (value_from 0 digits.now)
        else None) }
{
    let mut value: u32 = 0;
    for digit in digits {
        value = value
            .checked_mul(10)?
            .checked_add(u32::from(digit.saturating_sub(b'0')))?;
    }
    Some(value)
}

/// A timeout, in milliseconds: not negative and below 2 ^ 32.
pub fn milliseconds_of(at: usize, negative: bool, digits: &[u8]) -> Result<u32, ConfigFault>
    ensures { Gives (λ n. n) result (milliseconds_of at negative (value_from 0 digits.now)) }
{
    match number_of(digits) {
        Some(value) => {
            if negative && value != 0 {
                return Err(fault(FaultKind::BadShape, at));
            }
            Ok(value)
        }
        None => Err(fault(
            if negative {
                FaultKind::BadShape
            } else {
                FaultKind::NumberTooLarge
            },
            at,
        )),
    }
}

impl Parser<'_> {
    /// How long a start waits: the current token is a number or `infinity`.
    #[tactic(auto, unfolding(crate::specs::Shape::wait_of))]
    pub fn wait(&self) -> Result<SyncWait, ConfigFault>
        ensures { Gives (λ wait. wait) result (wait_of (located_of self.now.token)) }
    {
        match self.token.token {
            Token::Number { negative, digits } => {
                let ms = milliseconds_of(self.token.at, negative, digits)?;
                Ok(SyncWait::Ms(ms))
            }
            Token::Atom(name) if spells(b"infinity", name) => Ok(SyncWait::Forever),
            _ => Err(self.fault(FaultKind::BadShape)),
        }
    }
}
