//! Who sends a request, and under which key.
ghost use Rattle.std.specs.Prelude.{◌≡◌, ◌≤◌, All, IfOk, length, map};
ghost use Rattle.httparse.specs.Spans.{IsHeaderWithin, header_bytes};
ghost use Rattle.office_fields.specs.Reading.{ReadsField};
ghost use Rattle.desk_call.specs.Call.{key_of};
ghost use Rattle.desk_advice.specs.Front.{key_in, team_in};

use crate::pieces::{Told, text_in, text_of, told};
use desk_head::{Header, header_named};
use httparse::spans::HeaderSpan;
use office_advice::{Cause, meaning_of};
use office_fields::{Unread, team_of};
use office_history::Key;
use office_types::Team;
use std::alloc::{AllocError, Global};

/// What a header has to be, for the sentences on it.
#[derive(Clone, Copy)]
struct Wanted<'a> {
    name: &'a str,
    form: &'a str,
}

/// Why the header has no value.
fn header_wrong(
    alloc: Global,
    wanted: Wanted<'_>,
    header: Header<'_>,
) -> Result<String, AllocError> {
    let Wanted { name, form } = wanted;
    match header {
        Header::Absent => format!(in alloc; "{name} is missing: {form}"),
        Header::Double => format!(in alloc; "{name} is given twice"),
        Header::Once(_) => format!(in alloc; "{name} is malformed: {form}"),
    }
}

/// Whether the header's value is a team.
fn is_team(alloc: Global, team: Header<'_>) -> Result<bool, AllocError> {
    let Header::Once(value) = team else {
        return Ok(false);
    };
    match team_of(alloc, value) {
        Ok(_team) => Ok(true),
        Err(Unread::Wrong) => Ok(false),
        Err(Unread::Memory) => Err(AllocError),
    }
}

/// Whether the header's value is a key.
fn is_key(alloc: Global, key: Header<'_>) -> Result<bool, AllocError> {
    let Header::Once(value) = key else {
        return Ok(false);
    };
    match Key::of(alloc, value)? {
        Some(_key) => Ok(true),
        None => Ok(false),
    }
}

/// The team that the header `Team` names, if it names one. The headers are in the first `len` bytes of the buffer.
pub(crate) fn team_in(
    alloc: Global,
    buf: &[u8],
    headers: &[HeaderSpan],
    len: usize,
) -> Result<Option<Team>, AllocError>
    requires fits { len ≤ length buf.now }
    requires within { All (IsHeaderWithin len) headers.now }
    ensures { IfOk result (λ found. found ≡ team_in (map (header_bytes buf.now) headers.now)) }
{
    match header_named(buf, headers, len, b"team") {
        Header::Absent => Ok(None),
        Header::Once(value) => match team_of(alloc, value) {
            Ok(team) => Ok(Some(team)),
            Err(Unread::Wrong) => Ok(None),
            Err(Unread::Memory) => Err(AllocError),
        },
        Header::Double => Ok(None),
    }
}

/// The key that the bytes are, or `Wrong`.
fn key_of(alloc: Global, bytes: &[u8]) -> Result<Key, Unread>
    ensures { ReadsField (key_of bytes.now) result }
{
    Key::of(alloc, bytes)?.ok_or(Unread::Wrong)
}

/// The key that the header `Request-Key` gives, if it gives one.
pub(crate) fn key_in(
    alloc: Global,
    buf: &[u8],
    headers: &[HeaderSpan],
    len: usize,
) -> Result<Option<Key>, AllocError>
    requires fits { len ≤ length buf.now }
    requires within { All (IsHeaderWithin len) headers.now }
    ensures { IfOk result (λ found. found ≡ key_in (map (header_bytes buf.now) headers.now)) }
{
    match header_named(buf, headers, len, b"request-key") {
        Header::Absent => Ok(None),
        Header::Once(value) => match key_of(alloc, value) {
            Ok(key) => Ok(Some(key)),
            Err(Unread::Wrong) => Ok(None),
            Err(Unread::Memory) => Err(AllocError),
        },
        Header::Double => Ok(None),
    }
}

/// Why the header names no team, if it doesn't.
pub(crate) fn team_wrong(alloc: Global, team: Header<'_>) -> Told {
    if is_team(alloc, team)? {
        return Ok(None);
    }
    let meaning = meaning_of(alloc, Cause::Team)?;
    let form = text_in(without_but(&meaning));
    let wanted = Wanted { name: "Team", form };
    told(header_wrong(alloc, wanted, team))
}

/// Why the header gives no key, if it doesn't.
pub(crate) fn key_wrong(alloc: Global, key: Header<'_>) -> Told {
    if is_key(alloc, key)? {
        return Ok(None);
    }
    let wanted = Wanted {
        name: "Request-Key",
        form: "a key is 1 to 64 bytes from ! to ~, and not - alone",
    };
    told(header_wrong(alloc, wanted, key))
}

/// A meaning without the `, but ` that it begins with.
pub(crate) fn without_but(meaning: &[u8]) -> &[u8] {
    match meaning.strip_prefix(b", but ") {
        Some(rest) => rest,
        None => meaning,
    }
}
