//! The fingerprint of a text.

ghost use Rattle.std.specs.Prelude.{◌≡◌, []};
ghost use Rattle.dac_config.specs.Mark.{mix_byte, fnv1a};

use crate::sink::Sink;

/// The offset basis of 64-bit FNV-1a: the hash of no bytes.
const NO_BYTES: u64 = 14695981039346656037;

/// The prime of 64-bit FNV-1a.
const FACTOR: u64 = 1099511628211;

/// The hash after one more byte.
fn mix_byte(mark: u64, byte: u8) -> u64
    ensures { result ≡ mix_byte mark byte }
{
    (mark ^ u64::from(byte)).wrapping_mul(FACTOR)
}

/// A sink that computes the 64-bit FNV-1a hash of its bytes and stores none of them.
#[derive(Drop)]
pub(crate) struct Mark {
    pub value: u64,
}

impl Mark {
    pub fn new() -> Self
        ensures { result.value ≡ fnv1a [] }
    {
        Mark { value: NO_BYTES }
    }
}

impl Sink for Mark {
    ghost holds = { λ mark text. mark.value ≡ fnv1a text };

    fn put(&mut self, bytes: &[u8]) {
        for byte in bytes {
            self.value = mix_byte(self.value, *byte);
        }
    }
}
