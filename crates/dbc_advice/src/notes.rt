//! The file that lines report of.

/// A file, by its name and its bytes.
#[derive(Clone, Copy)]
pub struct Source<'a> {
    /// How the lines name it.
    pub name: &'a [u8],
    /// What it contains.
    pub text: &'a [u8],
}
