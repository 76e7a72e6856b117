//! What is read of an office.
use office_types::{Net, NetName, SpnBook};

/// What there is to be read of an office, to report why it refused a command.
#[derive(Clone, Copy)]
pub struct Seen<'a> {
    /// The command's network, `None` where it isn't there.
    pub net: Option<&'a Net>,
    /// The names of the networks; they are read where the command's isn't there.
    pub names: &'a [NetName],
    /// The suspect parameter numbers of the whole office.
    pub book: &'a SpnBook,
}

impl<'a> Seen<'a> {
    /// What is seen of a network, or of none, of the names and of the book.
    pub fn of(net: Option<&'a Net>, names: &'a [NetName], book: &'a SpnBook) -> Seen<'a> {
        Seen { net, names, book }
    }
}
