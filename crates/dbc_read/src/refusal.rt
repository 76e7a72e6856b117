//! Why a part of a sheet isn't built.
use dbc_words::{SheetCode, SheetFault};
use std::alloc::AllocError;

/// Why a part of a sheet isn't built.
#[derive(Clone, Copy, PartialEq, Eq)]
pub(crate) enum Refusal {
    /// Out of memory.
    Memory,
    /// It is malformed, or can't be in one sheet with the others.
    NoSheet,
}

impl From<AllocError> for Refusal {
    ghost use Rattle.std.specs.Prelude.{◌≡◌};
    ghost use Rattle.dbc_read.specs.declared.refusal.Refusal.TheVariants.{Memory};

    ghost from_gives = { λ _ refusal. refusal ≡ Memory };

    fn from(error: AllocError) -> Refusal {
        Refusal::Memory
    }
}

/// What a sheet or a message refuses.
impl From<SheetFault> for Refusal {
    ghost use Rattle.std.specs.Prelude.{◌≡◌};
    ghost use Rattle.dbc_read.specs.Refusal.{refusal_of};

    ghost from_gives = { λ fault refusal. refusal ≡ refusal_of fault.code };

    fn from(fault: SheetFault) -> Refusal {
        match fault.code {
            SheetCode::Memory => Refusal::Memory,
            _ => Refusal::NoSheet,
        }
    }
}
