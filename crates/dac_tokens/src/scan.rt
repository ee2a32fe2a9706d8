//! Scans one token, given the bytes that begin with it.

ghost use Rattle.std.specs.Prelude.{◌≡◌, ◌+◌, ◌^◌, ◌<◌, ◌≤◌, false, length};
ghost use Rattle.dac_tokens.specs.Gives.{Reads};
ghost use Rattle.dac_tokens.specs.Scan.{after_gap, class_of, goes_on, stretch, ends_stop, breaks_number, atom_at, number_at, negative_at, quoted_at, string_at, word_at};
ghost use Rattle.dac_tokens.specs.declared.fault.FaultKind.TheVariants.{BadToken, Unsupported};
ghost use Rattle.dac_tokens.specs.Words.{word_of};

use crate::fault::{ConfigFault, FaultKind};
use crate::token::{Class, Stretch, Symbol, Token};

pub fn unsupported(at: usize) -> ConfigFault
    ensures { result ≡ record { kind = Unsupported; at = at } }
{
    ConfigFault {
        kind: FaultKind::Unsupported,
        at,
    }
}

fn bad_token(at: usize) -> ConfigFault
    ensures { result ≡ record { kind = BadToken; at = at } }
{
    ConfigFault {
        kind: FaultKind::BadToken,
        at,
    }
}

/// The bytes from the first one that is neither blank nor part of a comment.
pub fn after_gap(bytes: &[u8]) -> &[u8]
    ensures rest { result.now ≡ after_gap false bytes.now }
    ensures within { length result.now ≤ length bytes.now }
{
    let mut rest = bytes;
    let mut comment = false;
    while let Some((b, tail)) = rest.split_first() {
        if comment {
            comment = *b != b'\n';
        } else if *b == b'%' {
            comment = true;
        } else if *b > b' ' {
            break;
        }
        rest = tail;
    }
    rest
}

/// The class of tokens that can begin with a byte.
fn class_of(b: u8) -> Class
    ensures { result ≡ class_of b }
{
    match b {
        b'[' => Class::Bracket(Symbol::OpenList),
        b']' => Class::Bracket(Symbol::CloseList),
        b'{' => Class::Bracket(Symbol::OpenTuple),
        b'}' => Class::Bracket(Symbol::CloseTuple),
        b',' => Class::Comma,
        b'.' => Class::Dot,
        b'-' => Class::Minus,
        b'\'' => Class::Quote,
        b'"' => Class::DoubleQuote,
        b'a'..=b'z' => Class::Letter,
        b'0'..=b'9' => Class::Digit,
        b'<' | b'#' | b'$' | b'+' | b'~' | b'|' | 0x80.. => Class::Refused,
        _ => Class::Unknown,
    }
}

/// Whether a byte can be part of such a stretch.
fn goes_on(stretch: Stretch, b: u8) -> bool
    ensures { result ≡ goes_on stretch b }
{
    match stretch {
        Stretch::Digits => b.is_ascii_digit(),
        Stretch::Name => b.is_ascii_alphanumeric() || b == b'_' || b == b'@',
        Stretch::Quoted => !matches!(b, ..b' ' | 0x7f | b'\'' | b'\\'),
    }
}

/// The length in bytes of the stretch at the front.
fn run_len(kind: Stretch, bytes: &[u8]) -> usize
    ensures length { result ≡ stretch (goes_on kind) bytes.now }
    ensures within { result ≤ length bytes.now }
{
    bytes.iter().take_while(|b| goes_on(kind, **b)).count()
}

/// Whether a dot followed by these bytes is a full stop.
fn ends_stop(bytes: &[u8]) -> bool
    ensures { result ≡ ends_stop bytes.now }
{
    match bytes {
        [] => true,
        [b, ..] => *b <= b' ' || *b == b'%',
    }
}

/// Whether digits followed by these bytes continue as a fraction, a base or an underscore.
fn breaks_number(bytes: &[u8]) -> bool
    ensures { result ≡ breaks_number bytes.now }
{
    match bytes {
        [b'#' | b'_', ..] => true,
        [b'.', c, ..] => c.is_ascii_digit(),
        _ => false,
    }
}

fn atom_at(at: usize, bytes: &[u8]) -> Result<(Token<'_>, &[u8]), ConfigFault>
    ensures { Reads (λ x. (word_of x.0, x.1.now)) result (atom_at at bytes.now) }
{
    let (name, rest) = bytes.split_at(run_len(Stretch::Name, bytes));
    if name == b"fun".as_slice() {
        return Err(unsupported(at));
    }
    Ok((Token::Atom(name), rest))
}

/// The quoted atom at `at`; `bytes` follow its opening quote.
fn quoted_at(at: usize, bytes: &[u8]) -> Result<(Token<'_>, &[u8]), ConfigFault>
    requires { at + 1 + length bytes.now < 2 ^ 64 }
    ensures { Reads (λ x. (word_of x.0, x.1.now)) result (quoted_at at bytes.now) }
{
    let (name, rest) = bytes.split_at(run_len(Stretch::Quoted, bytes));
    match rest.split_first() {
        Some((b'\'', rest)) => Ok((Token::Atom(name), rest)),
        Some(_) => Err(unsupported(at + 1 + name.len())),
        None => Err(bad_token(at)),
    }
}

fn number_at(at: usize, negative: bool, bytes: &[u8]) -> Result<(Token<'_>, &[u8]), ConfigFault>
    ensures { Reads (λ x. (word_of x.0, x.1.now)) result (number_at at negative bytes.now) }
{
    let (digits, rest) = bytes.split_at(run_len(Stretch::Digits, bytes));
    if breaks_number(rest) {
        return Err(unsupported(at));
    }
    Ok((Token::Number { negative, digits }, rest))
}

/// The negative number at `at`; `bytes` follow its minus.
fn negative_at(at: usize, bytes: &[u8]) -> Result<(Token<'_>, &[u8]), ConfigFault>
    ensures { Reads (λ x. (word_of x.0, x.1.now)) result (negative_at at bytes.now) }
{
    if run_len(Stretch::Digits, bytes) == 0 {
        return Err(bad_token(at));
    }
    number_at(at, true, bytes)
}

/// The string at `at`; `bytes` follow its opening quote.
fn string_at(at: usize, bytes: &[u8]) -> Result<(Token<'_>, &[u8]), ConfigFault>
    requires { at + 1 + length bytes.now < 2 ^ 64 }
    ensures { Reads (λ x. (word_of x.0, x.1.now)) result (string_at at bytes.now) }
{
    // together with the opening quote, three in a row
    if bytes.starts_with(b"\"\"".as_slice()) {
        return Err(unsupported(at));
    }
    let mut rest = bytes;
    // the offset of the byte before `rest`
    let mut before = at;
    let mut escaped = false;
    while let Some((b, tail)) = rest.split_first() {
        match *b {
            b'^' if escaped => return Err(unsupported(before)),
            b'"' if !escaped => return Ok((Token::Text, tail)),
            b => escaped = !escaped && b == b'\\',
        }
        before += 1;
        rest = tail;
    }
    Err(bad_token(at))
}

/// The token at the front of bytes that begin at `at` without a gap, and the bytes after it.
#[tactic(auto, unfolding(crate::specs::Scan::word_at))]
pub fn token_at(at: usize, bytes: &[u8]) -> Result<(Token<'_>, &[u8]), ConfigFault>
    requires { at + length bytes.now < 2 ^ 64 }
    ensures { Reads (λ x. (word_of x.0, x.1.now)) result (word_at at bytes.now) }
{
    let Some((b, rest)) = bytes.split_first() else {
        return Ok((Token::End, bytes));
    };
    match class_of(*b) {
        Class::Bracket(symbol) => Ok((Token::Symbol(symbol), rest)),
        Class::Comma => Ok((Token::Symbol(Symbol::Comma), rest)),
        Class::Dot if ends_stop(rest) => Ok((Token::Symbol(Symbol::FullStop), rest)),
        Class::Letter => atom_at(at, bytes),
        Class::Digit => number_at(at, false, bytes),
        Class::Minus => negative_at(at, rest),
        Class::Quote => quoted_at(at, rest),
        Class::DoubleQuote => string_at(at, rest),
        Class::Refused => Err(unsupported(at)),
        Class::Dot | Class::Unknown => Err(bad_token(at)),
    }
}
