//! The law of the first fault, as the contract of a function without effect.

ghost use Rattle.std.specs.Prelude.{◌≡◌, ◌↔◌, List, ◌++◌, Err};
ghost use Rattle.dac_tokens.specs.declared.fault.ConfigFault.{ConfigFault};
ghost use Rattle.dac_tokens.specs.Words.{Word};
ghost use Rattle.dac_shapes.specs.Shape.{draft_at};
ghost use Rattle.dac_first_fault.specs.FirstFault.{IsWell, IsFaultOf};

use dac_shapes::laws::limits_in_text_order;
use dac_tokens::Tokens;

/// Reading a text has a fault exactly if the law admits it, and the law admits only one. Mostly its cause is one token:
/// the tokens before it are a valid prefix, and with it they aren't, whatever follows. Each prefix of a valid prefix is
/// valid.
pub fn first_fault(text: &[u8])
    ensures first { (e : ConfigFault) → ((draft_at text.now ≡ Err e) ↔ IsFaultOf text.now e) }
    ensures alone { (e f : ConfigFault) → IsFaultOf text.now e → IsFaultOf text.now f → e ≡ f }
    ensures so_far { (front rest : List Word) → IsWell (front ++ rest) → IsWell front }
{
    limits_in_text_order();
    let _tokens = Tokens::new(text);
}
