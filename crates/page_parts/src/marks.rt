//! What has become of the messages of a live network since its last release.
ghost use Rattle.std.specs.Prelude.{◌≡◌, [], false};
ghost use Rattle.std.specs.Option.{option_copied};
ghost use Rattle.page_parts.specs.Marks.{has_changed, mark_at, state_at};

use crate::names::Names;
use columns::Run;
use std::alloc::Global;

/// What has become of a message since the last release.
#[derive(Clone, Copy, PartialEq, Eq)]
pub enum State {
    /// Nothing, or there is no release.
    Same,
    /// The release hasn't it.
    New,
    /// Something that breaks no receiver.
    Changed,
    /// So many changes break a receiver.
    Breaking(usize),
}

/// What is known of a message beside the sheet.
#[derive(Drop)]
pub struct Mark<'a> {
    /// The releases that have a message of its number, as runs; none of a sheet alone.
    pub releases: Vec<Run>,
    /// What has become of it.
    pub state: State,
    /// The names of its signals that have changed.
    pub signals: Names<'a>,
}

/// The marks of the messages of a sheet, in their order; none of a sheet alone.
#[derive(Drop)]
pub struct Marks<'a> {
    /// A mark for each message, or none at all.
    pub marks: Vec<Mark<'a>>,
    /// Whether some release has a message, live or not.
    pub has_releases: bool,
}

impl<'a> Marks<'a> {
    /// No marks. Takes no memory.
    pub fn none(alloc: Global) -> Marks<'a>
        ensures marks { result.marks.items ≡ [] }
        ensures releases { result.has_releases ≡ false }
    {
        Marks {
            marks: Vec::new(alloc),
            has_releases: false,
        }
    }

    /// The mark of the message at the index, if there is one.
    pub fn at(&self, index: usize) -> Option<&Mark<'a>>
        ensures { option_copied result ≡ mark_at self.now index }
    {
        self.marks.get(index)
    }

    /// What has become of the message at the index.
    pub fn state_at(&self, index: usize) -> State
        ensures { result ≡ state_at self.now index }
    {
        match self.marks.get(index) {
            Some(mark) => mark.state,
            None => State::Same,
        }
    }

    /// Whether the signal of this name of the message at the index has changed.
    pub fn has_changed(&self, index: usize, name: &[u8]) -> bool
        ensures { result ≡ has_changed self.now index name.now }
    {
        match self.marks.get(index) {
            Some(mark) => mark.signals.has(name),
            None => false,
        }
    }
}
