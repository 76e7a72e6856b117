//! What a check of a sheet found.
ghost use Rattle.std.specs.Prelude.{◌≡◌};
ghost use Rattle.page_parts.specs.Found.{found_nothing};

/// What a check of a sheet found, as lines of text.
#[derive(Drop)]
pub struct Checked {
    /// What is unclear: of which message, and why.
    pub clashes: Vec<Vec<u8>>,
    /// The remarks. The first word of each is its name.
    pub remarks: Vec<Vec<u8>>,
    /// The names of those remarks that the sheet says are to be passed over.
    pub passed: Vec<Vec<u8>>,
}

impl Checked {
    /// Whether nothing was found.
    pub fn is_empty(&self) -> bool
        ensures { result ≡ found_nothing self.now }
    {
        self.clashes.is_empty() && self.remarks.is_empty() && self.passed.is_empty()
    }
}
