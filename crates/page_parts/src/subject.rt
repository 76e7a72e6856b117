//! What a page is of.
ghost use Rattle.std.specs.Prelude.{◌≡◌};
ghost use Rattle.page_parts.specs.Subjects.{messages_of, owner_at};

use crate::letters::Letters;
use can_id::Ident;
use dbc_sheet::{Message, Sheet};
use office_types::GrantedBlock;

/// What a page is of: a live network, or a sheet alone (a release, or a file). Of a sheet alone the letters are of the
/// nodes that send, and it has no blocks and no held numbers.
#[derive(Drop)]
pub struct Subject<'a> {
    /// The network's name, or the file's.
    pub name: &'a [u8],
    /// The sheet.
    pub sheet: &'a Sheet,
    /// Whose each message is, in the order of the messages: the team that owns it; of a sheet alone the node that sends
    /// it, without bytes where none is named.
    pub owners: &'a [&'a [u8]],
    /// Which names have letters.
    pub letters: &'a Letters<'a>,
    /// The granted blocks, by form and first number, those of suspect parameter numbers last.
    pub blocks: &'a [GrantedBlock],
    /// The identifiers that are held, in ascending order of DBC number.
    pub held: &'a [Ident],
    /// Whether parameter groups are shown: a J1939 network, or a file with a suspect parameter number.
    pub is_j1939: bool,
    /// Whether it is a sheet alone.
    pub is_alone: bool,
}

impl<'a> Subject<'a> {
    /// The messages, in ascending order of DBC number.
    pub fn messages(&self) -> &'a [Message]
        ensures { result.now ≡ messages_of self.now }
    {
        self.sheet.messages()
    }

    /// Whose the message at the index is; without bytes where that isn't known.
    pub fn owner_at(&self, index: usize) -> &'a [u8]
        ensures { result.now ≡ owner_at self.now index }
    {
        match self.owners.get(index) {
            Some(owner) => owner,
            None => b"",
        }
    }
}
