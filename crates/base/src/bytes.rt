//! Bytes that are in the value itself if they are few.
ghost use Rattle.std.specs.Prelude.{◌≡◌, [], IfOk};

use std::alloc::{AllocError, Global};
use std::marker::Model;

/// So many bytes take no block of memory: a value has 24 bytes, and two of them are the variant and the length.
const FEW: usize = 22;

/// Where the bytes are.
#[derive(Drop)]
enum Kept {
    Few { len: u8, cells: [u8; FEW] },
    Many(Box<Vec<u8>>),
}

/// Bytes. Contracts see them as a list. Up to 22 of them, as most names and texts have, take no block of memory of
/// their own.
#[derive(Drop)]
pub(crate) struct Bytes {
    kept: Kept,
}

impl Model for Bytes {
    ghost use Rattle.std.specs.Prelude.{ℕ, List};
    ghost use Rattle.base.specs.Bytes.{IsWithin, bytes_in};

    ghost Value = { List ℕ };

    ghost view = { λ bytes. bytes_in bytes.kept };

    ghost invariant = { λ bytes. IsWithin bytes.kept };
}

impl Bytes {
    /// No bytes. Takes no memory.
    pub(crate) fn none() -> Bytes
        ensures { result ≡ [] }
    {
        Bytes {
            kept: Kept::Few {
                len: 0,
                cells: [0; FEW],
            },
        }
    }

    /// A copy of the bytes.
    pub(crate) fn from_slice(alloc: Global, bytes: &[u8]) -> Result<Bytes, AllocError>
        ensures { IfOk result (λ copy. copy ≡ bytes.now) }
    {
        if bytes.len() > FEW {
            let many = Vec::from_slice(alloc, bytes)?;
            return Ok(Bytes {
                kept: Kept::Many(Box::new(alloc, many)?),
            });
        }
        let mut cells = [0; FEW];
        cells[..bytes.len()].copy_from_slice(bytes);
        Ok(Bytes {
            kept: Kept::Few {
                len: bytes.len() as u8,
                cells,
            },
        })
    }

    /// The bytes.
    pub(crate) fn as_slice(&self) -> &[u8]
        ensures { result.now ≡ self.now }
    {
        match &self.kept {
            Kept::Few { len, cells } => &cells[..usize::from(*len)],
            Kept::Many(bytes) => bytes.as_slice(),
        }
    }

    /// A copy of them, in memory of the same allocator.
    pub(crate) fn duplicate(&self) -> Result<Bytes, AllocError>
        ensures { IfOk result (λ copy. copy ≡ self.now) }
    {
        match &self.kept {
            Kept::Few { len, cells } => Ok(Bytes {
                kept: Kept::Few {
                    len: *len,
                    cells: *cells,
                },
            }),
            Kept::Many(bytes) => Bytes::from_slice(*bytes.allocator(), bytes.as_slice()),
        }
    }
}
