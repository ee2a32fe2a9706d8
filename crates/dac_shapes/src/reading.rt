//! Reads a whole text.

ghost use Rattle.std.specs.Prelude.{◌≡◌, IfErr, IfOk, MatchResult};
ghost use Rattle.dac_tokens.specs.declared.fault.FaultKind.TheVariants.{NoMemory};
ghost use Rattle.dac_tokens.specs.Gives.{Gives};
ghost use Rattle.dac_shapes.specs.Shape.{draft_at};
ghost use Rattle.dac_shapes.specs.Written.{Written};
ghost use Rattle.dac_shapes.specs.Grammar.{IsTextOf};
ghost use Rattle.dac_shapes.specs.Views.{draft_of};
ghost use Rattle.dac_shapes.specs.Within.{IsWithinLimits};

use crate::draft::Draft;
use crate::limits::MAX_TEXT;
use crate::parser::{Parser, fault};
use dac_tokens::{ConfigFault, FaultKind, Located, Token, Tokens};
use std::alloc::Global;

/// Parses a configuration text. Returns its contents, with names and numbers as they are written.
///
/// # Errors
///
/// The first fault in text order. A missing or unexpected token is `BadShape` at its first byte, or at the text's
/// length if the text ends there. So are a second section `kernel` and a second occurrence of a parameter that is read,
/// at the name. A string in place of a section is `Unsupported` at its first byte. At one offset a token's own fault
/// comes first, then `BadShape`, then `NameTooLong` or `NumberTooLarge`, then `TwiceApp` or `TwiceInList`, then
/// `TooManyApps` or `TooManyNodes`. A text of more than 65,536 bytes is `TooLong` at 65,536, whatever it contains.
/// `NoMemory` has offset 0.
#[tactic(auto, unfolding(crate::specs::Shape::draft_at))]
pub fn parse_draft(alloc: Global, text: &[u8]) -> Result<Draft<'_>, ConfigFault>
    // The grammar assigns the returned draft to the text.
    ensures found { IfOk result (λ draft. IsTextOf text.now (draft_of draft)) }
    // A text in the grammar is read, unless memory runs out.
    ensures only { (draft : Written) → IsTextOf text.now draft
        → MatchResult result (λ d. draft_of d ≡ draft) (λ e. e.kind ≡ NoMemory) }
    // The returned draft keeps the limits.
    ensures limits { IfOk result (λ draft. IsWithinLimits (draft_of draft)) }
    // The definition determines the fault, unless memory runs out.
    ensures exact { Gives draft_of result (draft_at text.now) }
    ensures memory { IfErr result (λ e. e.kind ≡ NoMemory → e.at ≡ 0) }
{
    if text.len() > MAX_TEXT {
        return Err(fault(FaultKind::TooLong, MAX_TEXT));
    }
    let parser = Parser {
        alloc,
        tokens: Tokens::new(text),
        // No token has been read yet, so the end takes its place.
        token: Located {
            token: Token::End,
            at: 0,
        },
        met: Vec::new(alloc),
        listed: Vec::new(alloc),
    };
    parser.file()
}
