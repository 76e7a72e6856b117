//! Why a number is refused.
ghost use Rattle.std.specs.Prelude.{◌≡◌};

use std::error::Error;
use std::fmt;

/// Why a number is no identifier, or no identifier can be built of a message's fields.
#[derive(Clone, Copy, Debug, PartialEq, Eq)]
pub enum IdFault {
    /// The number is neither 0 to 2047 nor 2147483648 to 2684354559. Number 1.
    NotIdentifier,
    /// The priority is above 7. Number 2.
    Priority,
    /// The number is not that of a parameter group. Number 3.
    NotPgn,
    /// A destination other than 255 is given for a parameter group that has none (PDU2). Number 4.
    Destination,
}

impl IdFault {
    ghost use Rattle.can_id.specs.IdFault.{fault_name, fault_number};

    /// The fault's number.
    pub fn number(self) -> u8
        ensures { result ≡ fault_number self }
    {
        match self {
            IdFault::NotIdentifier => 1,
            IdFault::Priority => 2,
            IdFault::NotPgn => 3,
            IdFault::Destination => 4,
        }
    }

    /// The fault's name, which is that of the variant.
    pub fn name(self) -> &'static str
        ensures { result.now ≡ fault_name self }
    {
        match self {
            IdFault::NotIdentifier => "NotIdentifier",
            IdFault::Priority => "Priority",
            IdFault::NotPgn => "NotPgn",
            IdFault::Destination => "Destination",
        }
    }
}

impl fmt::Display for IdFault {
    ghost use Rattle.std.specs.Prelude.{Some};
    ghost use Rattle.can_id.specs.IdFault.{fault_text};

    ghost output = { λ fault. Some (fault_text fault) };

    fn fmt<W: fmt::Write>(&self, f: &mut fmt::Formatter<W>) -> fmt::Result {
        f.pad(match self {
            IdFault::NotIdentifier => "the number is no CAN identifier",
            IdFault::Priority => "the priority is above 7",
            IdFault::NotPgn => "the number is no parameter group number",
            IdFault::Destination => "the parameter group has no destination",
        })
    }
}

impl Error for IdFault {}
