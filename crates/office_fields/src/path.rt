//! Paths of files.
ghost use Rattle.std.specs.Prelude.{◌≡◌, IfOk};
ghost use Rattle.office_fields.specs.Value.{path_of};

use std::alloc::{AllocError, Global};
use std::marker::Model;
use std::str::from_utf8;

/// The path of a file: any UTF-8. Contracts see it as its bytes.
#[derive(Drop)]
pub struct FilePath {
    text: String,
}

impl Model for FilePath {
    ghost use Rattle.std.specs.Prelude.{ℕ, List, string_bytes};

    ghost Value = { List ℕ };

    ghost view = { λ p. string_bytes p.text };
}

impl FilePath {
    /// A copy of the bytes, or `None` where they aren't UTF-8.
    pub fn of(alloc: Global, bytes: &[u8]) -> Result<Option<FilePath>, AllocError>
        ensures { IfOk result (λ found. found ≡ path_of bytes.now) }
    {
        match from_utf8(bytes) {
            Ok(path) => Ok(Some(FilePath {
                text: String::from_str(alloc, path)?,
            })),
            Err(_) => Ok(None),
        }
    }

    /// The path.
    pub fn as_str(&self) -> &str
        ensures { result.now ≡ self.now }
    {
        self.text.as_str()
    }
}
