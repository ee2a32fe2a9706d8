//! The state of the parser: the rest of the text and the current token.

ghost use Rattle.std.specs.Prelude.{◌≡◌, ◌<◌, ◌≤◌, IfOk, true, false};
ghost use Rattle.dac_tokens.specs.Gives.{Gives};
ghost use Rattle.dac_tokens.specs.Words.{word_of, is_end};
ghost use Rattle.dac_shapes.specs.Shape.{token, is_symbol, is_text, symbol_at, after_at, more_at};
ghost use Rattle.dac_shapes.specs.Views.{here, parser_state, tokens_left};

use dac_tokens::{ConfigFault, FaultKind, Located, Symbol, Token, Tokens};
use std::alloc::Global;

/// The rest of the text after the current token, the distinct nodes met so far, and those of the current list.
#[derive(Drop)]
pub struct Parser<'a> {
    pub alloc: Global,
    pub tokens: Tokens<'a>,
    pub token: Located<'a>,
    pub met: Vec<&'a [u8]>,
    pub listed: Vec<&'a [u8]>,
}

pub fn fault(kind: FaultKind, at: usize) -> ConfigFault
    ensures { result ≡ record { kind = kind; at = at } }
{
    ConfigFault { kind, at }
}

impl Parser<'_> {
    /// Reads the next token; after the end of the text, the end again.
    pub fn advance(&mut self) -> Result<(), ConfigFault>
        ensures read { Gives (λ _. here self.new) result (token (parser_state self.old)) }
        ensures left { tokens_left self.new ≤ tokens_left self.old }
        ensures fewer { IfOk result (λ _. is_end (word_of self.new.token.token) ≡ false
            → tokens_left self.new < tokens_left self.old) }
    {
        self.token = self.tokens.next()?;
        Ok(())
    }

    /// Whether the current token is this symbol.
    pub fn is(&self, symbol: Symbol) -> bool
        ensures { result ≡ is_symbol symbol (word_of self.now.token.token) }
    {
        match self.token.token {
            Token::Symbol(other) => other == symbol,
            _ => false,
        }
    }

    /// Whether the current token is a string.
    pub fn is_text(&self) -> bool
        ensures { result ≡ is_text (word_of self.now.token.token) }
    {
        match self.token.token {
            Token::Text => true,
            _ => false,
        }
    }

    /// A fault at the current token.
    pub fn fault(&self, kind: FaultKind) -> ConfigFault
        ensures { result ≡ record { kind = kind; at = self.now.token.at } }
    {
        fault(kind, self.token.at)
    }

    /// Reads the next token, which must be this symbol.
    #[tactic(auto, unfolding(crate::specs::Shape::symbol_at))]
    pub fn symbol(&mut self, symbol: Symbol) -> Result<(), ConfigFault>
        ensures read { Gives (λ _. parser_state self.new) result
            (symbol_at symbol (parser_state self.old)) }
        ensures left { tokens_left self.new ≤ tokens_left self.old }
    {
        self.advance()?;
        if !self.is(symbol) {
            return Err(self.fault(FaultKind::BadShape));
        }
        Ok(())
    }

    /// Reads two tokens, of which the first must be this symbol.
    #[tactic(auto)]
    pub fn after(&mut self, symbol: Symbol) -> Result<(), ConfigFault>
        ensures read { Gives (λ _. here self.new) result
            (after_at symbol (parser_state self.old)) }
        ensures left { tokens_left self.new ≤ tokens_left self.old }
    {
        self.symbol(symbol)?;
        self.advance()
    }

    /// Reads the next token. Returns true for a comma and false for the closing symbol; any other token is a fault.
    #[tactic(auto, unfolding(crate::specs::Shape::more_at))]
    pub fn more(&mut self, close: Symbol) -> Result<bool, ConfigFault>
        ensures read { Gives (λ b. (b, parser_state self.new)) result
            (more_at close (parser_state self.old)) }
        ensures left { tokens_left self.new ≤ tokens_left self.old }
        ensures fewer { IfOk result (λ b. b ≡ true → tokens_left self.new < tokens_left self.old) }
    {
        self.advance()?;
        if self.is(Symbol::Comma) {
            return Ok(true);
        }
        if !self.is(close) {
            return Err(self.fault(FaultKind::BadShape));
        }
        Ok(false)
    }
}
