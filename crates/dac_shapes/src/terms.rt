//! Terms that are parsed and ignored.

ghost use Rattle.std.specs.Prelude.{◌≡◌, ℕ, ◌<◌, ◌≤◌, IfOk, false};
ghost use Rattle.dac_tokens.specs.Words.{located_of, word_of, is_end};
ghost use Rattle.dac_tokens.specs.Gives.{Gives};
ghost use Rattle.dac_shapes.specs.Shape.{IsEnough, closing_of, texts_at, terms_in, term_at, passed_at};
ghost use Rattle.dac_shapes.specs.Views.{here, from_here, parser_state, tokens_left};

use crate::parser::Parser;
use dac_tokens::{ConfigFault, FaultKind, Symbol, Token};

/// The closing counterpart of an opening bracket or brace.
fn closing_of(symbol: Symbol) -> Option<Symbol>
    ensures { result ≡ closing_of symbol }
{
    match symbol {
        Symbol::OpenList => Some(Symbol::CloseList),
        Symbol::OpenTuple => Some(Symbol::CloseTuple),
        _ => None,
    }
}

impl Parser<'_> {
    /// Skips consecutive strings, beginning with the current token, so that the token after them becomes current.
    fn after_texts(&mut self) -> Result<(), ConfigFault>
        ensures read { (n : ℕ) → tokens_left self.old < n
            → Gives (λ _. here self.new) result (texts_at n (parser_state self.old)) }
        ensures left { tokens_left self.new ≤ tokens_left self.old }
        ensures fewer { IfOk result (λ _. is_end (word_of self.new.token.token) ≡ false
            → tokens_left self.new < tokens_left self.old) }
    {
        loop {
            self.advance()?;
            if !self.is_text() {
                return Ok(());
            }
        }
    }

    /// Skips terms separated by commas, or none, with the closing symbol, so that the token after it becomes current.
    #[cycle(terms)]
    fn after_terms(&mut self, close: Symbol) -> Result<(), ConfigFault>
        ensures read { (n : ℕ) → tokens_left self.old < n
            → Gives (λ _. here self.new) result
            (terms_in (term_at n) close n (parser_state self.old)) }
        ensures left { tokens_left self.new ≤ tokens_left self.old }
        ensures fewer { IfOk result (λ _. is_end (word_of self.new.token.token) ≡ false
            → tokens_left self.new < tokens_left self.old) }
    {
        self.advance()?;
        if self.is(close) {
            return self.advance();
        }
        loop {
            self.after_term()?;
            if self.is(close) {
                return self.advance();
            }
            if !self.is(Symbol::Comma) {
                return Err(self.fault(FaultKind::BadShape));
            }
            self.advance()?;
        }
    }

    /// Skips the term that begins with the current token, so that the token after it becomes current.
    #[cycle(terms)]
    fn after_term(&mut self) -> Result<(), ConfigFault>
        ensures read { (n : ℕ) → IsEnough (located_of self.old.token) (parser_state self.old) n
            → Gives (λ _. here self.new) result (from_here (term_at n) self.old) }
        ensures left { tokens_left self.new ≤ tokens_left self.old }
        ensures fewer { IfOk result (λ _. is_end (word_of self.new.token.token) ≡ false
            → tokens_left self.new < tokens_left self.old) }
    {
        match self.token.token {
            Token::Atom(_) | Token::Number { .. } => self.advance(),
            Token::Text => self.after_texts(),
            Token::Symbol(symbol) => match closing_of(symbol) {
                Some(close) => self.after_terms(close),
                None => Err(self.fault(FaultKind::BadShape)),
            },
            Token::End => Err(self.fault(FaultKind::BadShape)),
        }
    }

    /// Skips a term and the brace that closes its pair.
    #[tactic(auto, unfolding(crate::specs::Shape::passed_at))]
    pub fn pass(&mut self) -> Result<(), ConfigFault>
        ensures read { Gives (λ _. parser_state self.new) result
            (passed_at (parser_state self.old)) }
        ensures left { tokens_left self.new ≤ tokens_left self.old }
    {
        self.advance()?;
        self.after_term()?;
        if !self.is(Symbol::CloseTuple) {
            return Err(self.fault(FaultKind::BadShape));
        }
        Ok(())
    }
}
