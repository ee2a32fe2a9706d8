//! The stream of a text's tokens.

ghost use Rattle.std.specs.Prelude.{◌≡◌, ◌↔◌, ◌≤◌, List, length, false, ◌<◌, IfOk, IfErr, OnErr};
ghost use Rattle.dac_tokens.specs.Gives.{Reads};
ghost use Rattle.dac_tokens.specs.Faults.{IsTokenFault};
ghost use Rattle.dac_tokens.specs.Stream.{depth_after, end_at, ended, stopped, taken, tokens_of};
ghost use Rattle.dac_tokens.specs.TokenFaults.{StopAt};
ghost use Rattle.dac_tokens.specs.TokenGrammar.{AreTokensOf};
ghost use Rattle.dac_tokens.specs.Words.{Located as LocatedWord, is_end, located_of, word_of};

use crate::fault::ConfigFault;
use crate::scan::{after_gap, token_at, unsupported};
use crate::token::{Located, MAX_DEPTH, Symbol, Token};
use std::marker::Model;

/// The number of brackets open after a token at `at`, given `depth` before it.
fn depth_after(at: usize, depth: usize, token: Token<'_>) -> Result<usize, ConfigFault>
    requires { depth ≤ MAX_DEPTH }
    ensures after { Reads (λ x. x) result (depth_after at depth (word_of token.entry)) }
    ensures within { IfOk result (λ x. x ≤ MAX_DEPTH) }
{
    match token {
        Token::Symbol(Symbol::OpenList | Symbol::OpenTuple) => {
            if depth < MAX_DEPTH {
                Ok(depth + 1)
            } else {
                Err(unsupported(at))
            }
        }
        Token::Symbol(Symbol::CloseList | Symbol::CloseTuple) => Ok(depth.saturating_sub(1)),
        _ => Ok(depth),
    }
}

/// The remaining tokens of a text, as Erlang's scanner of terms defines them. Contracts see them as a list up to the
/// end or the first fault, together with that end or fault.
#[derive(Drop)]
pub struct Tokens<'a> {
    rest: &'a [u8],
    end: usize,
    depth: usize,
}

impl<'a> Model for Tokens<'a> {
    ghost use Rattle.std.specs.Prelude.{◌≤◌, length};
    ghost use Rattle.dac_tokens.specs.declared.token.TheConstants.{MAX_DEPTH};
    ghost use Rattle.dac_tokens.specs.Stream.{Stream, tokens_of};

    ghost Value = { Stream };

    ghost view = { λ t. tokens_of t.end t.depth t.rest.now };

    ghost invariant = { λ t. (length t.rest.now ≤ t.end) × (t.depth ≤ MAX_DEPTH) };
}

impl<'a> Tokens<'a> {
    /// The tokens of a text of any length, because the parser enforces the limit.
    pub fn new(text: &'a [u8]) -> Self
        ensures read { result ≡ tokens_of (length text.now) 0 text.now }
        // without a fault, the last token is the end of the text
        ensures end { IfOk result.last (λ t. t ≡ end_at (length text.now)) }
        // a text is read without fault exactly as the grammar of tokens spells it
        ensures spelled { (ts : List LocatedWord) →
            (AreTokensOf text.now ts ↔ (result ≡ ended (length text.now) ts)) }
        // a text is read with a fault exactly if, after these tokens, no token begins by the table of faults
        ensures stopped { (ts : List LocatedWord) (e : ConfigFault) →
            (StopAt 0 0 text.now ts e ↔ (result ≡ stopped ts e)) }
    {
        Tokens {
            rest: text,
            end: text.len(),
            depth: 0,
        }
    }

    /// Returns the next token; after the end of the text, the end again.
    ///
    /// # Errors
    ///
    /// If no token begins, mostly at the first byte after the gap. `Unsupported` stands for Erlang syntax that isn't
    /// read here:
    ///
    /// - `<`, `#`, `$`, `+`, `~`, `|`, a byte of 80 hexadecimal or more, and the word `fun`;
    /// - a number with a fraction, a base or underscores, three double quotes in a row, and a 65th open bracket;
    /// - a backslash or control character (below a space, or 7F hexadecimal) in a quoted atom, and a backslash before
    ///   `^` in a string. These are reported at their own offset, and before a missing quote.
    ///
    /// `BadToken` is anything else, for example a dot that ends no term, or an atom or string whose quote is never
    /// closed. A fault consumes nothing, so that the next call returns it again.
    pub fn next(&mut self) -> Result<Located<'a>, ConfigFault>
        ensures taken { Reads (λ x. (located_of x, self.new)) result (taken self.old) }
        ensures fault { IfErr result (λ e. IsTokenFault e.kind) }
        ensures left { length self.new.tokens ≤ length self.old.tokens }
        ensures fewer { IfOk result (λ x.
            is_end (word_of x.token) ≡ false → length self.new.tokens < length self.old.tokens) }
        ensures err { OnErr result (self.new ≡ self.old) }
    {
        let bytes = after_gap(self.rest);
        let at = self.end - bytes.len();
        let (token, rest) = token_at(at, bytes)?;
        self.depth = depth_after(at, self.depth, token)?;
        self.rest = rest;
        Ok(Located { token, at })
    }
}
