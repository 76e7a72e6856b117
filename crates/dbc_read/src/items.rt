//! Items of a file with names. No two items of a kind may have the same name.
ghost use Rattle.std.specs.Prelude.{◌≡◌, ℕ, List};

use dbc_statements::{MessageLine, NodeName, TableLine};
use dbc_words::Name;

/// An item of a file with a name that no other of its kind may have.
pub(crate) trait NamedItem {
    /// The bytes of its name.
    ghost name_of: { Self → List ℕ };
    /// The offset of its name.
    ghost offset_of: { Self → ℕ };

    /// Its name.
    fn name(&self) -> &Name
        ensures { result.now ≡ name_of self.now };

    /// The offset of its name.
    fn name_at(&self) -> usize
        ensures { result ≡ offset_of self.now };
}

impl NamedItem for NodeName {
    ghost name_of = { λ node. node.name };

    ghost offset_of = { λ node. node.at };

    fn name(&self) -> &Name {
        &self.name
    }

    fn name_at(&self) -> usize {
        self.at
    }
}

impl NamedItem for TableLine {
    ghost name_of = { λ table. table.name };

    ghost offset_of = { λ table. table.at };

    fn name(&self) -> &Name {
        &self.name
    }

    fn name_at(&self) -> usize {
        self.at
    }
}

impl NamedItem for MessageLine {
    ghost name_of = { λ message. message.name };

    ghost offset_of = { λ message. message.name_at };

    fn name(&self) -> &Name {
        &self.name
    }

    fn name_at(&self) -> usize {
        self.name_at
    }
}
