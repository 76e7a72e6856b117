//! Lengths of messages.
ghost use Rattle.std.specs.Prelude.{◌≡◌, ◌≤◌, SomeIff};
ghost use Rattle.dbc_words.specs.Limits.{length_limit};

use crate::limits::LENGTH_LIMIT;
use std::marker::Model;

/// A message's length: 0 to [`LENGTH_LIMIT`] bytes. Contracts see it as the number.
#[derive(Clone, Copy, PartialEq, Eq, PartialOrd, Ord)]
pub struct PayloadLength {
    bytes: u16,
}

impl Model for PayloadLength {
    ghost use Rattle.std.specs.Prelude.{ℕ, ◌≤◌};
    ghost use Rattle.dbc_words.specs.Limits.{length_limit};

    ghost Value = { ℕ };

    ghost view = { λ l. l.bytes };

    ghost invariant = { λ l. l.bytes ≤ length_limit };

    ghost inverse = { λ n. record { bytes = n } };
}

impl PayloadLength {
    /// The length of this many bytes, or `None` above [`LENGTH_LIMIT`].
    pub fn new(bytes: u32) -> Option<PayloadLength>
        ensures { SomeIff result (bytes ≤ length_limit) bytes }
    {
        if bytes <= u32::from(LENGTH_LIMIT) {
            Some(PayloadLength {
                bytes: bytes as u16,
            })
        } else {
            None
        }
    }

    /// The number of bytes, 0 to [`LENGTH_LIMIT`].
    pub fn bytes(self) -> u16
        ensures value { result ≡ self }
        ensures range { result ≤ length_limit }
    {
        self.bytes
    }
}
