//! Names, texts and paths.
ghost use Rattle.office_fields.specs.Reading.{ReadsField};
ghost use Rattle.office_fields.specs.Value.{name_of, path_of, plain_name_of, text_of, value_text_of};

use crate::given::FieldValue;
use crate::numbers::decimal_of;
use crate::path::FilePath;
use crate::unread::Unread;
use base::split_once;
use dbc_sheet::ValueText;
use dbc_words::{Name, Text};
use office_types::{NetName, Team};
use std::alloc::Global;

impl FieldValue for NetName {
    ghost read = { plain_name_of };

    fn of(alloc: Global, bytes: &[u8]) -> Result<NetName, Unread> {
        NetName::of(alloc, bytes)?.ok_or(Unread::Wrong)
    }
}

impl FieldValue for Team {
    ghost read = { plain_name_of };

    fn of(alloc: Global, bytes: &[u8]) -> Result<Team, Unread> {
        team_of(alloc, bytes)
    }
}

impl FieldValue for Name {
    ghost read = { name_of };

    fn of(alloc: Global, bytes: &[u8]) -> Result<Name, Unread> {
        Name::of(alloc, bytes)?.ok_or(Unread::Wrong)
    }
}

impl FieldValue for Text {
    ghost read = { text_of };

    fn of(alloc: Global, bytes: &[u8]) -> Result<Text, Unread> {
        text_of(alloc, bytes)
    }
}

impl FieldValue for FilePath {
    ghost read = { path_of };

    fn of(alloc: Global, bytes: &[u8]) -> Result<FilePath, Unread> {
        FilePath::of(alloc, bytes)?.ok_or(Unread::Wrong)
    }
}

impl FieldValue for ValueText {
    ghost read = { value_text_of };

    fn of(alloc: Global, bytes: &[u8]) -> Result<ValueText, Unread> {
        let Some((value, text)) = split_once(bytes, b':') else {
            return Err(Unread::Wrong);
        };
        let value = decimal_of(value)?;
        let text = text_of(alloc, text)?;
        Ok(ValueText { value, text })
    }
}

/// The team of this name, or `Wrong` where it is no name of a team.
pub fn team_of(alloc: Global, bytes: &[u8]) -> Result<Team, Unread>
    ensures { ReadsField (plain_name_of bytes.now) result }
{
    Team::of(alloc, bytes)?.ok_or(Unread::Wrong)
}

fn text_of(alloc: Global, bytes: &[u8]) -> Result<Text, Unread>
    ensures { ReadsField (text_of bytes.now) result }
{
    Text::of(alloc, bytes)?.ok_or(Unread::Wrong)
}
