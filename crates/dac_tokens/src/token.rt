//! The tokens of a text.

/// The maximum number of brackets that are open at once.
pub const MAX_DEPTH: usize = 64;

/// A token of one byte.
#[derive(Clone, Copy, Debug, PartialEq, Eq)]
pub enum Symbol {
    /// `[`
    OpenList,
    /// `]`
    CloseList,
    /// `{`
    OpenTuple,
    /// `}`
    CloseTuple,
    /// `,`
    Comma,
    /// `.` followed by a blank, a comment or the end of the text; it ends a term.
    FullStop,
}

/// A token, with bytes borrowed from the text.
#[derive(Clone, Copy, Debug, PartialEq, Eq)]
pub enum Token<'a> {
    /// A bracket, a comma or the full stop.
    Symbol(Symbol),
    /// An atom by its name: its bytes, or those between its quotes, which can be none.
    Atom(&'a [u8]),
    /// An integer as it is written, so that each reader can apply its own bound.
    Number {
        /// Whether a minus precedes the digits.
        negative: bool,
        /// The decimal digits as ASCII, most significant first, at least one, with any leading zeros.
        digits: &'a [u8],
    },
    /// A string, without its contents. The parser treats several in a row as one string.
    Text,
    /// The end of the text.
    End,
}

/// A token with its offset.
#[derive(Clone, Copy, Debug, PartialEq, Eq)]
pub struct Located<'a> {
    /// The kind of token, with its bytes.
    pub token: Token<'a>,
    /// The number of bytes before it; for `End`, the length of the text.
    pub at: usize,
}

/// The class of tokens that can begin with a byte after a gap.
#[derive(Clone, Copy)]
pub enum Class {
    Bracket(Symbol),
    Comma,
    Dot,
    Letter,
    Digit,
    Minus,
    Quote,
    DoubleQuote,
    Refused,
    Unknown,
}

/// The kinds of consecutive bytes that make up a token.
#[derive(Clone, Copy)]
pub enum Stretch {
    /// The digits of a number.
    Digits,
    /// An atom without quotes.
    Name,
    /// The bytes between the quotes of an atom.
    Quoted,
}
