//! The reader of drafts, whose contract contains the law of faults.

ghost use Rattle.std.specs.Prelude.{◌≡◌, ◌≢◌, IfErr, IfOk, MatchResult};
ghost use Rattle.dac_tokens.specs.declared.fault.FaultKind.TheVariants.{NoMemory};
ghost use Rattle.dac_tokens.specs.Gives.{Gives};
ghost use Rattle.dac_shapes.specs.Shape.{draft_at};
ghost use Rattle.dac_shapes.specs.Written.{Written};
ghost use Rattle.dac_shapes.specs.Grammar.{IsTextOf};
ghost use Rattle.dac_shapes.specs.Views.{draft_of};
ghost use Rattle.dac_shapes.specs.Within.{IsWithinLimits};
ghost use Rattle.dac_first_fault.specs.FirstFault.{IsFaultOf};

use crate::laws::first_fault;
use dac_shapes::{Draft, parse_draft};
use dac_tokens::ConfigFault;
use std::alloc::Global;

/// Reads a configuration text. Returns its contents, with names and numbers as they are written.
///
/// # Errors
///
/// The first fault, at the offset that [`parse_draft`] documents: it is the one that the law of [`first_fault`] admits
/// of the text. `NoMemory` is no fault of a text, and has offset 0.
pub fn read_draft(alloc: Global, text: &[u8]) -> Result<Draft<'_>, ConfigFault>
    // The grammar assigns the returned draft to the text.
    ensures found { IfOk result (λ draft. IsTextOf text.now (draft_of draft)) }
    // A text in the grammar is read, unless memory runs out.
    ensures only { (draft : Written) → IsTextOf text.now draft
        → MatchResult result (λ d. draft_of d ≡ draft) (λ e. e.kind ≡ NoMemory) }
    // The returned draft keeps the limits.
    ensures limits { IfOk result (λ draft. IsWithinLimits (draft_of draft)) }
    // The definition determines the fault, unless memory runs out.
    ensures exact { Gives draft_of result (draft_at text.now) }
    // The law admits this fault, and no other of this text.
    ensures first { IfErr result (λ e. e.kind ≢ NoMemory → IsFaultOf text.now e) }
    ensures memory { IfErr result (λ e. e.kind ≡ NoMemory → e.at ≡ 0) }
{
    first_fault(text);
    parse_draft(alloc, text)
}
