//! Remarks.
ghost use Rattle.std.specs.Prelude.{◌≡◌, ◌++◌, IfOk, OnOk};
ghost use Rattle.dbc_lint.specs.Remark.{remark, when, with_word};

use crate::kind::Kind;
use base::Items;
use columns::concat;
use std::alloc::{AllocError, Global};

/// A remark.
pub struct Remark {
    /// Its kind.
    pub kind: Kind,
    /// The offset in the file.
    pub at: usize,
    /// What it is about: names, and where that tells more a value.
    pub words: Items<u8>,
}

/// The words with one more, after a space.
pub(crate) fn with_word(alloc: Global, words: &[u8], word: &[u8]) -> Result<Vec<u8>, AllocError>
    ensures { IfOk result (λ text. text.items ≡ with_word words.now word.now) }
{
    let last = concat(alloc, &[b" ", word])?;
    concat(alloc, &[words, &last])
}

/// Adds a remark of these words if the test holds.
pub(crate) fn add_when(
    alloc: Global,
    holds: bool,
    kind: Kind,
    at: usize,
    words: &[u8],
    remarks: &mut Vec<Remark>,
) -> Result<(), AllocError>
    ensures { OnOk result (remarks.new.items ≡ remarks.old.items
        ++ when holds (remark kind at words.now)) }
{
    if holds {
        let words = Items::from_vec(Vec::from_slice(alloc, words)?);
        remarks.push(Remark { kind, at, words })?;
    }
    Ok(())
}

/// The same with one more word.
pub(crate) fn add_word_when(
    alloc: Global,
    holds: bool,
    kind: Kind,
    at: usize,
    words: &[u8],
    word: &[u8],
    remarks: &mut Vec<Remark>,
) -> Result<(), AllocError>
    ensures { OnOk result (remarks.new.items ≡ remarks.old.items
        ++ when holds (remark kind at (with_word words.now word.now))) }
{
    if holds {
        let words = Items::from_vec(with_word(alloc, words, word)?);
        remarks.push(Remark { kind, at, words })?;
    }
    Ok(())
}

impl Drop for Remark {
    fn drop(self) {
        let Remark {
            kind: _kind,
            at: _at,
            words: _words,
        } = self;
    }
}
