//! Names, keys and numbers in a head.
ghost use Rattle.base.specs.WholeNumber.{whole_of};
ghost use Rattle.office_fields.specs.Reading.{ReadsField};
ghost use Rattle.office_fields.specs.Value.{name_of, plain_name_of};
ghost use Rattle.office_types.specs.Sought.{sought_of};
ghost use Rattle.desk_call.specs.Call.{key_of, net_in, release_number};

use base::whole_number;
use dbc_words::Name;
use desk_head::first_parameter;
use office_fields::Unread;
use office_history::Key;
use office_types::{NetName, RELEASE_LIMIT, Sought};
use std::alloc::Global;

fn net_of(alloc: Global, bytes: &[u8]) -> Result<NetName, Unread>
    ensures { ReadsField (plain_name_of bytes.now) result }
{
    NetName::of(alloc, bytes)?.ok_or(Unread::Wrong)
}

/// The network that the target names.
pub(crate) fn net_in(alloc: Global, target: &[u8]) -> Result<NetName, Unread>
    ensures { ReadsField (net_in target.now) result }
{
    net_of(alloc, first_parameter(target))
}

/// The name of a message.
pub(crate) fn name_of(alloc: Global, bytes: &[u8]) -> Result<Name, Unread>
    ensures { ReadsField (name_of bytes.now) result }
{
    Name::of(alloc, bytes)?.ok_or(Unread::Wrong)
}

/// What a word looks for.
pub(crate) fn sought_of(alloc: Global, bytes: &[u8]) -> Result<Sought, Unread>
    ensures { ReadsField (sought_of bytes.now) result }
{
    Sought::of(alloc, bytes)?.ok_or(Unread::Wrong)
}

/// The key of a request.
pub(crate) fn key_of(alloc: Global, bytes: &[u8]) -> Result<Key, Unread>
    ensures { ReadsField (key_of bytes.now) result }
{
    Key::of(alloc, bytes)?.ok_or(Unread::Wrong)
}

/// A whole number of 32 bits.
pub(crate) fn number_of(bytes: &[u8]) -> Result<u32, Unread>
    ensures { ReadsField (whole_of bytes.now) result }
{
    whole_number(bytes).ok_or(Unread::Wrong)
}

/// The number of a release.
pub(crate) fn release_number(bytes: &[u8]) -> Result<u32, Unread>
    ensures { ReadsField (release_number bytes.now) result }
{
    match whole_number(bytes) {
        Some(number) if 1 <= number && number <= RELEASE_LIMIT => Ok(number),
        _ => Err(Unread::Wrong),
    }
}
