//! Texts that are remembered.
ghost use Rattle.std.specs.Prelude.{◌≡◌, ◌≤◌, ℕ};
ghost use Rattle.store_bodies.specs.ReadText.{IsLongestWithin, first_read, remembered_limit, text_bytes};

use crate::read_texts::ReadTexts;
use std::marker::Model;

/// At most so many bytes of text are remembered.
pub const REMEMBERED_LIMIT: usize = 33_554_432;

/// Texts that are remembered with their sheets: at most [`REMEMBERED_LIMIT`] bytes of text. With its sheet a text takes
/// some five times its length of memory, so all of them some 160 MiB at most.
pub struct RememberedTexts {
    read: ReadTexts,
}

impl Model for RememberedTexts {
    ghost use Rattle.std.specs.Prelude.{◌≤◌};
    ghost use Rattle.store_bodies.specs.ReadText.{TextsRead, remembered_limit, text_bytes};

    ghost Value = { TextsRead };

    ghost view = { λ remembered. remembered.read };

    ghost invariant = { λ remembered. text_bytes remembered.read.texts ≤ remembered_limit };
}

impl RememberedTexts {
    /// The longest beginning of these texts that may be remembered. The others are freed.
    pub fn of(read: ReadTexts) -> RememberedTexts
        ensures { (count : ℕ) × IsLongestWithin remembered_limit read.texts count × (result ≡ first_read count read) }
    {
        RememberedTexts {
            read: read.cut_to(REMEMBERED_LIMIT),
        }
    }

    /// The texts, moved out. Takes no memory.
    pub fn into_read(self) -> ReadTexts
        ensures same { result ≡ self }
        ensures few { text_bytes self.texts ≤ remembered_limit }
    {
        let RememberedTexts { read } = self;
        read
    }
}

impl Drop for RememberedTexts {
    fn drop(self) {
        let RememberedTexts { read: _read } = self;
    }
}
