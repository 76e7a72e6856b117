//! Why a body could not be written.
ghost use Rattle.std.specs.Prelude.{◌≡◌};

use std::alloc::{AllocError, AllocFailed};

/// Why a body could not be written.
#[derive(Clone, Copy, PartialEq, Eq)]
pub(crate) enum Unwritten {
    /// A text isn't UTF-8, so JSON can't hold it.
    NotUtf8,
    /// Memory ran out.
    Memory,
}

impl From<AllocError> for Unwritten {
    ghost use Rattle.std.specs.Prelude.{◌≡◌};
    ghost use Rattle.desk_send.specs.declared.unwritten.Unwritten.TheVariants.{Memory};

    ghost from_gives = { λ _ e. e ≡ Memory };

    fn from(_error: AllocError) -> Unwritten {
        Unwritten::Memory
    }
}

impl<T: Drop> From<AllocFailed<T>> for Unwritten {
    ghost use Rattle.std.specs.Prelude.{◌≡◌};
    ghost use Rattle.desk_send.specs.declared.unwritten.Unwritten.TheVariants.{Memory};

    ghost from_gives = { λ _ e. e ≡ Memory };

    fn from(_error: AllocFailed<T>) -> Unwritten {
        Unwritten::Memory
    }
}
