//! What one set has that another one lacks.
use crate::spans::Span;
use dac_origins::Origin;

/// What another set has that a set lacks.
#[derive(Clone, Copy, Debug)]
pub(crate) enum News {
    /// Nothing.
    Nothing,
    /// Consecutive dots of an origin that has others.
    Consecutive(Origin, Span),
    /// More, or it isn't known.
    More,
}
