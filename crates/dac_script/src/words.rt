//! Splits lines into words, and parses single words.

ghost use Rattle.std.specs.Prelude.{◌≡◌, ◌<◌, ◌^◌, IfOk, map, option_map, Some, None, nat_lt, if◌then◌else◌};
ghost use Rattle.std.specs.List.{list_all};
ghost use Rattle.std.specs.Char.{is_ascii_digit};
ghost use Rattle.dac_tokens.specs.Scan.{is_quotable};
ghost use Rattle.dac_tokens.specs.Digits.{value_from};
ghost use Rattle.dac_script.specs.Words.{words_of, quoted_name, is_digits, number_in, name_in, is_small_digit, bytes_in};

use crate::byte_list::ByteList;
use dac_base::{MAX_COUNTER, NoMemory};
use dac_config::is_bare;
use hex::FromHexError;
use std::alloc::{AllocError, Global};

/// The greatest number in a script, because no counter goes further.
pub const MAX_NUMBER: u64 = MAX_COUNTER;

/// The initial capacity for words. Most lines have fewer; longer ones grow it.
const ROOM: usize = 8;

/// The words of a line, which are separated by spaces and by nothing else.
pub fn words_of<'a>(alloc: Global, line: &'a [u8]) -> Result<Vec<&'a [u8]>, AllocError>
    ensures { IfOk result (λ words. map (λ word. word.now) words.items ≡ words_of line.now) }
{
    let mut words = Vec::with_capacity(alloc, ROOM)?;
    words.extend(
        line.split(|byte| *byte == b' ')
            .filter(|word| !word.is_empty()),
    )?;
    Ok(words)
}

/// Returns whether the byte can stand between the quotes of an atom.
fn is_quotable(byte: u8) -> bool
    ensures { result ≡ is_quotable byte }
{
    byte >= b' ' && byte != 0x7f && byte != b'\'' && byte != b'\\'
}

fn all_quotable(name: &[u8]) -> bool
    ensures { result ≡ list_all is_quotable name.now }
{
    name.iter().all(|byte| is_quotable(*byte))
}

pub(crate) fn all_digits(digits: &[u8]) -> bool
    ensures { result ≡ list_all is_ascii_digit digits.now }
{
    digits.iter().all(|byte| byte.is_ascii_digit())
}

/// The name in a quoted atom.
fn quoted_name(word: &[u8]) -> Option<&[u8]>
    ensures { option_map (λ name. name.now) result ≡ quoted_name word.now }
{
    let (first, rest) = word.split_first()?;
    let (last, name) = rest.split_last()?;
    if *first != b'\'' || *last != b'\'' || !all_quotable(name) {
        return None;
    }
    Some(name)
}

/// The name of an atom, bare or quoted, in Erlang's syntax.
#[inline(always)]
pub fn name_in(word: &[u8]) -> Option<&[u8]>
    ensures { option_map (λ name. name.now) result ≡ name_in word.now }
{
    if is_bare(word) {
        return Some(word);
    }
    quoted_name(word)
}

/// Returns whether the word has only decimal digits, at least one, and no leading zero.
fn is_digits(word: &[u8]) -> bool
    ensures { result ≡ is_digits word.now }
{
    match word {
        [] => false,
        [digit] => digit.is_ascii_digit(),
        [first, ..] => *first != b'0' && all_digits(word),
    }
}

/// The value of decimal digits, if it fits 64 bits.
fn value_of(digits: &[u8]) -> Option<u64>
    ensures { result
        ≡ (if nat_lt (value_from 0 digits.now) (2 ^ 64) then Some (value_from 0 digits.now)
        else None) }
{
    let mut value: u64 = 0;
    for digit in digits {
        value = value
            .checked_mul(10)?
            .checked_add(u64::from(digit.saturating_sub(b'0')))?;
    }
    Some(value)
}

/// Parses a decimal number without leading zeros, at most [`MAX_NUMBER`].
pub fn number_in(word: &[u8]) -> Option<u64>
    ensures { result ≡ number_in word.now }
{
    if !is_digits(word) {
        return None;
    }
    let value = value_of(word)?;
    if value > MAX_NUMBER {
        return None;
    }
    Some(value)
}

/// Returns whether the byte is a hexadecimal digit, in lower case.
fn is_small_digit(byte: u8) -> bool
    ensures { result ≡ is_small_digit byte }
{
    matches!(byte, b'0'..=b'9' | b'a'..=b'f')
}

fn all_small_digits(word: &[u8]) -> bool
    ensures { result ≡ list_all is_small_digit word.now }
{
    word.iter().all(|byte| is_small_digit(*byte))
}

/// Parses bytes of two lower-case hexadecimal digits each. Fails only with [`NoMemory`].
pub fn bytes_in(alloc: Global, word: &[u8]) -> Result<Option<ByteList>, NoMemory>
    ensures { IfOk result (λ bytes. bytes ≡ bytes_in word.now) }
{
    if !all_small_digits(word) {
        return Ok(None);
    }
    match hex::decode(alloc, word) {
        Ok(bytes) => Ok(Some(ByteList::new(bytes))),
        Err(FromHexError::OutOfMemory) => Err(NoMemory),
        Err(_odd) => Ok(None),
    }
}
