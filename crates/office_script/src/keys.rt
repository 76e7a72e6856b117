//! The keys of lines.
ghost use Rattle.office_fields.specs.Reading.{ReadsField};
ghost use Rattle.office_script.specs.Keys.{key_from, key_of};

use office_fields::Unread;
use office_history::Key;
use std::alloc::Global;

/// What `-` means as the key of a line.
#[derive(Clone, Copy, PartialEq, Eq)]
pub enum Dash {
    /// The key `line-N`, where N is the number of the line in its script, from 1.
    LineNumber,
    /// Nothing: the line is wrong.
    Wrong,
}

fn key_from(alloc: Global, bytes: &[u8]) -> Result<Key, Unread>
    ensures { ReadsField (key_from bytes.now) result }
{
    Key::of(alloc, bytes)?.ok_or(Unread::Wrong)
}

/// The key of the line of this number, from 1, whose first word this is. `Wrong` where the word is no key.
pub fn key_of(alloc: Global, dash: Dash, number: usize, word: &[u8]) -> Result<Key, Unread>
    ensures { ReadsField (key_of dash number word.now) result }
{
    match dash {
        Dash::LineNumber if word == b"-".as_slice() => {
            let bytes = format!(in alloc; "line-{number}")?;
            key_from(alloc, bytes.as_bytes())
        }
        _ => key_from(alloc, word),
    }
}
