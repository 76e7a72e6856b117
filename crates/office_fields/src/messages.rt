//! New messages.
ghost use Rattle.office_fields.specs.Kind.{addressed_to, new_message_of, pdu_of, take_ident_of, take_pgn_of};
ghost use Rattle.office_fields.specs.Given.{named_values};
ghost use Rattle.office_fields.specs.Reading.{ReadsField};

use crate::addressing::Addressing;
use crate::field::Field;
use crate::given::{GivenValue, at_most_once, once};
use crate::unread::Unread;
use office_types::{NewMessage, Pdu, TakeIdent, TakePgn};
use std::alloc::Global;

fn new_message_of(alloc: Global, values: &[GivenValue<'_>]) -> Result<NewMessage, Unread>
    ensures { ReadsField (new_message_of (named_values values.now)) result }
{
    let length = once(alloc, values, Field::Length)?;
    let name = once(alloc, values, Field::Name)?;
    let node = at_most_once(alloc, values, Field::Node)?;
    Ok(NewMessage { name, length, node })
}

pub(crate) fn take_ident_of(alloc: Global, values: &[GivenValue<'_>]) -> Result<TakeIdent, Unread>
    ensures { ReadsField (take_ident_of (named_values values.now)) result }
{
    let form = once(alloc, values, Field::IdentForm)?;
    let want = at_most_once(alloc, values, Field::Want)?;
    let message = new_message_of(alloc, values)?;
    Ok(TakeIdent {
        form,
        message,
        want,
    })
}

fn addressed_to(addressing: Addressing, destination: Option<u8>) -> Result<Pdu, Unread>
    ensures { ReadsField (addressed_to addressing destination) result }
{
    match addressing {
        Addressing::Addressed => Ok(Pdu::Addressed(destination)),
        Addressing::Broadcast => match destination {
            None => Ok(Pdu::Broadcast),
            Some(_) => Err(Unread::Wrong),
        },
    }
}

fn pdu_of(alloc: Global, values: &[GivenValue<'_>]) -> Result<Pdu, Unread>
    ensures { ReadsField (pdu_of (named_values values.now)) result }
{
    let addressing = once(alloc, values, Field::Pdu)?;
    let destination = at_most_once(alloc, values, Field::Destination)?;
    addressed_to(addressing, destination)
}

pub(crate) fn take_pgn_of(alloc: Global, values: &[GivenValue<'_>]) -> Result<TakePgn, Unread>
    ensures { ReadsField (take_pgn_of (named_values values.now)) result }
{
    let pdu = pdu_of(alloc, values)?;
    let priority = once(alloc, values, Field::Priority)?;
    let source = once(alloc, values, Field::Source)?;
    let message = new_message_of(alloc, values)?;
    Ok(TakePgn {
        message,
        pdu,
        priority,
        source,
    })
}
