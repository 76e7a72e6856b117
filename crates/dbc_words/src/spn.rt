//! Suspect parameter numbers.
ghost use Rattle.std.specs.Prelude.{◌≡◌, ◌≤◌, SomeIff};
ghost use Rattle.dbc_words.specs.Limits.{spn_limit};

use crate::limits::SPN_LIMIT;
use std::marker::Model;

/// The suspect parameter number of a signal (SAE J1939): 0 to [`SPN_LIMIT`], where 0 is none. Contracts see it as the
/// number.
#[derive(Clone, Copy, PartialEq, Eq, PartialOrd, Ord)]
pub struct Spn {
    number: u32,
}

impl Model for Spn {
    ghost use Rattle.std.specs.Prelude.{ℕ, ◌≤◌};
    ghost use Rattle.dbc_words.specs.Limits.{spn_limit};

    ghost Value = { ℕ };

    ghost view = { λ spn. spn.number };

    ghost invariant = { λ spn. spn.number ≤ spn_limit };

    ghost inverse = { λ n. record { number = n } };
}

impl Spn {
    /// No number.
    pub const NONE: Spn = Spn { number: 0 };

    /// The suspect parameter number of this value, or `None` above [`SPN_LIMIT`].
    pub fn new(number: u32) -> Option<Spn>
        ensures { SomeIff result (number ≤ spn_limit) number }
    {
        if number <= SPN_LIMIT {
            Some(Spn { number })
        } else {
            None
        }
    }

    /// The number, 0 to [`SPN_LIMIT`], where 0 is none.
    pub fn number(self) -> u32
        ensures value { result ≡ self }
        ensures range { result ≤ spn_limit }
    {
        self.number
    }
}
