//! Why the office refuses a command, or shows nothing, by what is read of it.
ghost use Rattle.std.specs.Prelude.{◌≡◌};
ghost use Rattle.desk_advice.specs.Front.{is_reported};

use crate::heads::call_in;
use crate::pieces::text_in;
use crate::refused::{Refused, is_reported_response, label_of, refused_of, status_of};
use base::Copying;
use desk_call::{Call, Exchange, OfficeRead, WantedNet};
use desk_head::Routes;
use office_history::Arrival;
use office_reasons::{Seen, answer_reason, key_reused_reason, reads_releases};
use office_types::{Look, NetName, Refusal};
use std::alloc::{AllocError, Global};

/// The network that a look is on, if it is on one.
fn net_of_look(look: &Look) -> Option<&NetName> {
    match look {
        Look::Nets | Look::Requests(_, _) => None,
        Look::Table(net)
        | Look::Live(net)
        | Look::Release(net, _)
        | Look::Chart(net, _)
        | Look::Net(net, _, _)
        | Look::Page(net)
        | Look::ReleasePage(net, _) => Some(net),
    }
}

/// A network that is wanted.
fn wanted_net(
    alloc: Global,
    net: &NetName,
    releases: bool,
) -> Result<Option<WantedNet>, AllocError> {
    let name = net.duplicate(alloc)?;
    Ok(Some(WantedNet { name, releases }))
}

/// What the report on a call that was answered so depends on.
fn wanted_of(
    alloc: Global,
    call: Option<Call>,
    refused: Option<Refused>,
) -> Result<Option<WantedNet>, AllocError> {
    match (call, refused) {
        (Some(Call::Arrives(arrival)), Some(Refused::Command(refusal))) => {
            let command = &arrival.request.command;
            wanted_net(alloc, &command.net, reads_releases(command, refusal))
        }
        (Some(Call::Shows(look)), None) => match net_of_look(&look) {
            Some(net) => wanted_net(alloc, net, false),
            None => Ok(None),
        },
        _ => Ok(None),
    }
}

/// Whether the exchange is reported: something was answered, and not by 200.
pub(crate) fn is_reported(exchange: &Exchange) -> bool
    ensures { result ≡ is_reported exchange.now.response.items }
{
    is_reported_response(&exchange.response)
}

/// What the report on the exchange depends on of the office, if on anything: the network of a command that is refused,
/// or of what isn't there to be shown.
pub(crate) fn wanted(
    alloc: Global,
    routes: &Routes,
    exchange: &Exchange,
) -> Result<Option<WantedNet>, AllocError> {
    if !is_reported(exchange) || status_of(&exchange.response) == b"503".as_slice() {
        return Ok(None);
    }
    let refused = refused_of(alloc, &exchange.response)?;
    let call = call_in(alloc, routes, &exchange.head, &exchange.body)?;
    wanted_of(alloc, call, refused)
}

/// Why the office refuses the arrival so, by what is read of it.
fn refusal_sentence(
    alloc: Global,
    arrival: &Arrival,
    refusal: Refusal,
    read: OfficeRead<'_>,
) -> Result<Vec<u8>, AllocError> {
    let seen = Seen::of(read.net, read.names, read.book);
    let command = &arrival.request.command;
    answer_reason(alloc, &arrival.team, command, refusal, &seen)
}

/// The sentence of a refusal, if there is what it takes.
fn sentence_of(
    alloc: Global,
    call: Option<Call>,
    refused: Refused,
    read: Option<OfficeRead<'_>>,
) -> Result<Option<Vec<u8>>, AllocError> {
    match (refused, call, read) {
        (Refused::Key, _, _) => {
            let text = key_reused_reason().as_bytes();
            Ok(Some(Vec::from_slice(alloc, text)?))
        }
        (Refused::Command(refusal), Some(Call::Arrives(arrival)), Some(read)) => {
            Ok(Some(refusal_sentence(alloc, &arrival, refusal, read)?))
        }
        _ => Ok(None),
    }
}

/// What is refused, and why as far as it was read: `23 Clash: SENTENCE`.
pub(crate) fn refused_text(
    alloc: Global,
    routes: &Routes,
    exchange: &Exchange,
    refused: Refused,
    read: Option<OfficeRead<'_>>,
) -> Result<String, AllocError> {
    let label = label_of(alloc, refused)?;
    let call = call_in(alloc, routes, &exchange.head, &exchange.body)?;
    match sentence_of(alloc, call, refused, read)? {
        Some(sentence) => {
            let sentence = text_in(&sentence);
            format!(in alloc; "{label}: {sentence}")
        }
        None => Ok(label),
    }
}
