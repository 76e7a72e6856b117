//! Why a target shows nothing.

use crate::pieces::{shown, text_in, text_of};
use crate::values::malformed;
use base::whole_number;
use dbc_words::is_name;
use desk_head::{Showing, first_parameter, second_parameter, third_parameter};
use office_fields::FieldKind;
use office_types::{NetName, RELEASE_LIMIT, Sought};
use std::alloc::{AllocError, Global};

/// What the second parameter of a target is.
#[derive(Clone, Copy)]
enum Second {
    /// There is none.
    Nothing,
    /// A team.
    Team,
    /// The number of a release.
    Release,
    /// The number of a release, after which comes another one.
    Releases,
    /// The name of a message.
    Message,
    /// The name of a node.
    Node,
    /// What is looked for.
    Word,
}

/// What the second parameter of the target is.
fn second_of(showing: Showing) -> Second {
    match showing {
        Showing::Release | Showing::ReleasePage => Second::Release,
        Showing::Compare => Second::Releases,
        Showing::Chart | Showing::Message => Second::Message,
        Showing::Node => Second::Node,
        Showing::Who => Second::Word,
        Showing::OfTeam(_) => Second::Team,
        _ => Second::Nothing,
    }
}

/// Whether the bytes have the form of a network's or a team's name.
fn is_plain(alloc: Global, bytes: &[u8]) -> Result<bool, AllocError> {
    Ok(NetName::of(alloc, bytes)?.is_some())
}

/// Whether the bytes are a word that looks for something.
fn is_sought(alloc: Global, bytes: &[u8]) -> Result<bool, AllocError> {
    Ok(Sought::of(alloc, bytes)?.is_some())
}

/// Whether the bytes are the number of a release.
fn is_release(bytes: &[u8]) -> bool {
    match whole_number(bytes) {
        Some(number) => 1 <= number && number <= RELEASE_LIMIT,
        None => false,
    }
}

/// Whether the parameters have the form of what they name.
fn has_form(alloc: Global, second: Second, target: &[u8]) -> Result<bool, AllocError> {
    let part = second_parameter(target);
    match second {
        Second::Nothing => Ok(true),
        Second::Team => is_plain(alloc, part),
        Second::Release => Ok(is_release(part)),
        Second::Releases => {
            Ok(whole_number(part).is_some() && whole_number(third_parameter(target)).is_some())
        }
        Second::Message | Second::Node => Ok(is_name(part)),
        Second::Word => is_sought(alloc, part),
    }
}

/// That it hasn't its form.
fn form_wrong(alloc: Global, second: Second) -> Result<String, AllocError> {
    let text = match second {
        Second::Team => return malformed(alloc, "team", FieldKind::Team),
        Second::Nothing => "the target is malformed",
        Second::Releases => "the releases are malformed: two whole numbers, 0 for the live sheet",
        Second::Release => "the release is malformed: a whole number from 1 to 65535",
        Second::Message => {
            "the message is malformed: a C identifier of 1 to 128 bytes, no DBC keyword"
        }
        Second::Node => "the node is malformed: a C identifier of 1 to 128 bytes, no DBC keyword",
        Second::Word => {
            "the word is malformed: a name, a number, 0x and hexadecimal digits, pgn=N or spn=N"
        }
    };
    text_of(alloc, text)
}

/// What isn't there, of a network that is there.
fn absent_part(alloc: Global, second: Second, net: &str, part: &str) -> Result<String, AllocError> {
    match second {
        Second::Nothing => format!(in alloc; "{net} shows nothing there"),
        Second::Team => format!(in alloc; "{net} has nothing of the team {part}"),
        Second::Release => format!(in alloc; "{net} has no release {part}"),
        Second::Releases => format!(in alloc; "{net} has no release {part}, or not the other one"),
        Second::Message => format!(in alloc; "{net} has no live message {part}"),
        Second::Node => format!(in alloc; "{net} has no node {part}"),
        Second::Word => format!(in alloc; "nothing in {net} is {part}"),
    }
}

/// What isn't there: the network, or a part of it where the network is there; either where that isn't known.
fn absent_text(
    alloc: Global,
    second: Second,
    net: &str,
    part: &str,
    is_there: Option<bool>,
) -> Result<String, AllocError> {
    match (is_there, second) {
        (Some(true), _) => absent_part(alloc, second, net, part),
        (Some(false), _) | (None, Second::Nothing) => {
            format!(in alloc; "there is no network {net}")
        }
        (None, _) => {
            let absent = absent_part(alloc, second, net, part)?;
            format!(in alloc; "there is no network {net}, or {absent}")
        }
    }
}

/// Why the target of the requests of a team shows none.
fn requests_wrong(alloc: Global, target: &[u8]) -> Result<String, AllocError> {
    if is_plain(alloc, first_parameter(target))? {
        text_of(alloc, "nothing is there")
    } else {
        form_wrong(alloc, Second::Team)
    }
}

/// Why the target shows nothing of a network.
fn net_wrong(
    alloc: Global,
    showing: Showing,
    target: &[u8],
    is_there: Option<bool>,
) -> Result<String, AllocError> {
    let net = first_parameter(target);
    let part = second_parameter(target);
    if !is_plain(alloc, net)? {
        return malformed(alloc, "network", FieldKind::NetName);
    }
    let second = second_of(showing);
    if !has_form(alloc, second, target)? {
        return form_wrong(alloc, second);
    }
    let net = shown(alloc, net)?;
    let part = shown(alloc, part)?;
    absent_text(alloc, second, text_in(&net), text_in(&part), is_there)
}

/// Why the target, at which this is shown, shows nothing; whether its network is there, if that is known.
pub(crate) fn look_wrong(
    alloc: Global,
    showing: Showing,
    target: &[u8],
    is_there: Option<bool>,
) -> Result<String, AllocError> {
    match showing {
        Showing::Nets => text_of(alloc, "nothing is there"),
        Showing::Requests => requests_wrong(alloc, target),
        _ => net_wrong(alloc, showing, target, is_there),
    }
}
