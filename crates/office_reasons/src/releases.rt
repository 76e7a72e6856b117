//! What releases have.
ghost use Rattle.std.specs.Prelude.{◌≡◌, find};
ghost use Rattle.std.specs.Option.{option_copied};
ghost use Rattle.office_reasons.specs.Releases.{has_number_of, is_named};

use can_id::Ident;
use dbc_sheet::Message;
use dbc_words::Name;
use office_types::FrozenSheet;

/// A message of a release.
#[derive(Clone, Copy)]
pub(crate) struct Released<'a> {
    /// The number of the release, from 1.
    pub(crate) release: usize,
    /// The message.
    pub(crate) message: &'a Message,
}

/// The message of the identifier.
fn message_of<'a>(messages: &'a [Message], ident: &Ident) -> Option<&'a Message>
    ensures { option_copied result ≡ find (has_number_of ident.now) messages.now }
{
    let number = ident.to_dbc();
    messages.iter().find(|message| message.number() == number)
}

/// The message of the name.
fn message_named<'a>(messages: &'a [Message], name: &Name) -> Option<&'a Message>
    ensures { option_copied result ≡ find (is_named name.now) messages.now }
{
    messages.iter().find(|message| message.name == *name)
}

/// The number of the first release that has a message of the identifier.
pub(crate) fn first_with(releases: &[FrozenSheet], ident: &Ident) -> Option<usize> {
    let index = releases.iter().position(|release| release.has(*ident))?;
    Some(index + 1)
}

/// The message of the identifier in the last release that has one.
pub(crate) fn last_with<'a>(releases: &'a [FrozenSheet], ident: &Ident) -> Option<Released<'a>> {
    for index in 0..releases.len() {
        let at = releases.len() - 1 - index;
        if let Some(message) = message_of(releases[at].messages(), ident) {
            let release = at + 1;
            return Some(Released { release, message });
        }
    }
    None
}

/// The message of the name in the last release that has one.
pub(crate) fn last_named<'a>(releases: &'a [FrozenSheet], name: &Name) -> Option<Released<'a>> {
    for index in 0..releases.len() {
        let at = releases.len() - 1 - index;
        if let Some(message) = message_named(releases[at].messages(), name) {
            let release = at + 1;
            return Some(Released { release, message });
        }
    }
    None
}
