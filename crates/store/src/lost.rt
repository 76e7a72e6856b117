//! Why a call is lost.
ghost use Rattle.std.specs.Prelude.{◌≡◌};
ghost use Rattle.store.specs.Lost.{lost_number};

use sqlite::{Error, ErrorCode};
use std::fmt;

/// Why a call is lost: it was not carried out. Its text is `lost` and its number.
#[derive(Clone, Copy, PartialEq, Eq)]
pub enum Lost {
    /// Memory ran out. The tables are as before, and the next call may succeed.
    Memory,
    /// The database failed, or its rows are no office's. The office is to be opened anew.
    Store,
    /// The tables are of a profile that isn't known here. Only opening is lost so.
    NewerProfile,
    /// The tables are of the first profile, and aren't carried over yet. Only opening is lost so.
    OlderProfile,
}

impl Lost {
    /// Its number: 71 to 74.
    pub fn number(self) -> u8
        ensures { result ≡ lost_number self }
    {
        match self {
            Lost::Memory => 71,
            Lost::Store => 72,
            Lost::NewerProfile => 73,
            Lost::OlderProfile => 74,
        }
    }
}

impl From<Error> for Lost {
    ghost use Rattle.std.specs.Prelude.{◌≡◌};
    ghost use Rattle.store.specs.Lost.{lost_by};

    ghost from_gives = { λ error lost. lost ≡ lost_by error };

    fn from(error: Error) -> Lost {
        match error {
            Error::SqliteFailure(ErrorCode::OutOfMemory) => Lost::Memory,
            _ => Lost::Store,
        }
    }
}

impl fmt::Display for Lost {
    ghost use Rattle.std.specs.Prelude.{Some};
    ghost use Rattle.store.specs.Lost.{lost_text};

    ghost output = { λ lost. Some (lost_text lost) };

    fn fmt<W: fmt::Write>(&self, f: &mut fmt::Formatter<W>) -> fmt::Result {
        let number = self.number();
        write!(f, "lost {number}")
    }
}
