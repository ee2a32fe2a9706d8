//! Names of nodes and applications, written as Erlang atoms.

ghost use Rattle.std.specs.Prelude.{◌≡◌, ◌↔◌, ◌++◌, IfOk, OnOk, IsTrue, codes};
ghost use Rattle.std.specs.List.{list_all};
ghost use Rattle.dac_tokens.specs.Scan.{is_name_byte};
ghost use Rattle.dac_tokens.specs.TokenGrammar.{IsBareAtom};
ghost use Rattle.dac_config.specs.Sinks.{Gains};
ghost use Rattle.dac_config.specs.Canonical.{begins_small, is_bare, name_text};

use crate::sink::Sink;
use dac_base::NoMemory;
use std::alloc::Global;

fn is_name_byte(byte: &u8) -> bool
    ensures { result ≡ is_name_byte byte.now }
{
    byte.is_ascii_alphanumeric() || *byte == b'_' || *byte == b'@'
}

fn begins_small(name: &[u8]) -> bool
    ensures { result ≡ begins_small name.now }
{
    match name {
        [] => false,
        [byte, ..] => byte.is_ascii_lowercase(),
    }
}

fn all_name_bytes(name: &[u8]) -> bool
    ensures { result ≡ list_all is_name_byte name.now }
{
    name.iter().all(is_name_byte)
}

/// Whether the name is an atom without quotes: a small letter followed by letters, digits, `_` and `@`, except `fun`.
#[tactic(auto, using(crate::proofs::Writes::tells_bare))]
pub fn is_bare(name: &[u8]) -> bool
    ensures value { result ≡ is_bare name.now }
    // the grammar of tokens agrees
    ensures atom { IsTrue result ↔ IsBareAtom name.now }
{
    begins_small(name) && name != b"fun".as_slice() && all_name_bytes(name)
}

/// The quote before and after a printed name: empty if the name is an atom without quotes.
fn quote_of(name: &[u8]) -> &'static [u8]
    ensures { name_text name.now ≡ result.now ++ (name.now ++ result.now) }
{
    if is_bare(name) {
        b"".as_slice()
    } else {
        b"'".as_slice()
    }
}

/// Appends a name between quotes.
fn put_quoted_name(text: &mut Vec<u8>, name: &[u8]) -> Result<(), NoMemory>
    ensures { OnOk result
        (text.new.items ≡ text.old.items ++ (codes "'" ++ (name.now ++ codes "'"))) }
{
    text.push(b'\'')?;
    text.extend_from_slice(name)?;
    text.push(b'\'')?;
    Ok(())
}

/// Appends a name as the program prints it: bare if that is an atom, otherwise between quotes. A call that fails can
/// have appended a part of it.
#[inline(always)]
pub fn put_printed_name(text: &mut Vec<u8>, name: &[u8]) -> Result<(), NoMemory>
    ensures { OnOk result (text.new.items ≡ text.old.items ++ name_text name.now) }
{
    if !is_bare(name) {
        return put_quoted_name(text, name);
    }
    Ok(text.extend_from_slice(name)?)
}

/// A name as the program prints it.
pub fn printed_name(alloc: Global, name: &[u8]) -> Result<Vec<u8>, NoMemory>
    ensures { IfOk result (λ text. text.items ≡ name_text name.now) }
{
    let mut text = Vec::new(alloc);
    put_printed_name(&mut text, name)?;
    Ok(text)
}

/// Writes a name to a sink as the program prints it.
pub(crate) fn put_name<S: Sink>(sink: &mut S, name: &[u8])
    ensures { Gains S.holds sink.old sink.new (name_text name.now) }
{
    let quote = quote_of(name);
    sink.put(quote);
    sink.put(name);
    sink.put(quote);
}
