//! The packets of a link.

ghost use Rattle.std.specs.Prelude.{◌≡◌, None, Some};
ghost use Rattle.dac_links.specs.Letters.{bytes_of};

use std::marker::Model;

/// The bytes of a message, or the mark that ends a sequence of messages. Contracts see the bytes, if any.
#[derive(Drop)]
pub struct Letter {
    bytes: Option<Vec<u8>>,
}

impl Model for Letter {
    ghost use Rattle.std.specs.Prelude.{ℕ, List, Option};
    ghost use Rattle.dac_links.specs.Letters.{bytes_of};

    ghost Value = { Option (List ℕ) };

    ghost view = { λ l. bytes_of l.bytes };
}

impl Letter {
    /// A letter that carries these bytes.
    pub fn of(bytes: Vec<u8>) -> Self
        ensures { result ≡ Some bytes.items }
    {
        Letter { bytes: Some(bytes) }
    }

    /// The end letter.
    pub fn end() -> Self
        ensures { result ≡ None }
    {
        Letter { bytes: None }
    }

    /// The bytes, or `None` for the end letter.
    pub fn into_bytes(self) -> Option<Vec<u8>>
        ensures { bytes_of result ≡ self }
    {
        let Letter { bytes } = self;
        bytes
    }
}
