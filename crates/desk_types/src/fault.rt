//! Why a connection ends without an answer.
ghost use Rattle.std.specs.Prelude.{◌≡◌};
ghost use Rattle.desk_types.specs.Codes.{fault_code};

use thiserror::Error;

/// Why a request isn't read to its end.
#[derive(Clone, Copy, Debug, PartialEq, Eq, Error)]
pub enum ReadFault {
    /// A call of the source failed.
    #[error("a read failed")]
    Read,
    /// Memory ran out.
    #[error("out of memory")]
    Memory,
}

/// Why a connection ends without its answer, or with a part of it.
#[derive(Clone, Copy, Debug, PartialEq, Eq, Error)]
pub enum DeskFault {
    /// A call of the source failed.
    #[error("a read failed")]
    Read,
    /// A call of the sink failed.
    #[error("a write failed")]
    Write,
    /// Memory ran out.
    #[error("out of memory")]
    Memory,
}

impl From<ReadFault> for DeskFault {
    ghost use Rattle.std.specs.Prelude.{◌≡◌};
    ghost use Rattle.desk_types.specs.Codes.{desk_fault_of};

    ghost from_gives = { λ reading fault. fault ≡ desk_fault_of reading };

    fn from(reading: ReadFault) -> Self {
        match reading {
            ReadFault::Read => DeskFault::Read,
            ReadFault::Memory => DeskFault::Memory,
        }
    }
}

impl DeskFault {
    /// The number of this fault: 80, 81 or 82.
    pub fn code(self) -> u8
        ensures { result ≡ fault_code self }
    {
        match self {
            DeskFault::Read => 80,
            DeskFault::Write => 81,
            DeskFault::Memory => 82,
        }
    }
}
