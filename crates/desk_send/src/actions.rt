//! The fields of each action, as members of an object, in the order of the table.
ghost use Rattle.std.specs.Prelude.{◌≡◌};
ghost use Rattle.serde_json.specs.View.{members_view};
ghost use Rattle.decimal.specs.Printing as printed;
ghost use Rattle.office_fields.specs.declared.field.Field.TheVariants as field;
ghost use Rattle.office_types.specs.declared.command.Action.TheVariants as act;
ghost use Rattle.desk_call.specs.Body.{json_name};
ghost use Rattle.desk_send.specs.Fields.{destination_of, entries_of, filled, mark_of};
ghost use Rattle.desk_send.specs.Json.{text_data, with_entries, with_entry, with_value};
ghost use Rattle.desk_send.specs.Writing.{Adds};

use crate::members::{
    Members, decimal_text, put_name_if_any, put_names, put_number, put_number_if_any, put_pairs,
    put_text, put_truth,
};
use crate::unwritten::Unwritten;
use crate::words::addressing_word;
use bitlayout::Mux;
use decimal::Decimal;
use office_fields::Field;
use office_types::{
    Action, Grant, OpenNet, Pdu, SetValues, SignalPath, TakeBits, TakeIdent, TakePgn, TakeSpn,
};
use std::alloc::Global;

fn put_open_net(alloc: Global, members: &mut Members, opening: &OpenNet) -> Result<(), Unwritten>
    ensures { Adds (with_entries (entries_of (act.OpenNet opening.now))
        (members_view members.old.entries)) (members_view members.new.entries) result }
{
    put_text(alloc, members, Field::Kind, opening.kind.word().as_bytes())?;
    put_number(
        alloc,
        members,
        Field::Reviews,
        u32::from(opening.reviews.count()),
    )
}

fn put_grant(alloc: Global, members: &mut Members, grant: &Grant) -> Result<(), Unwritten>
    ensures { Adds (with_entries (entries_of (act.Grant grant.now))
        (members_view members.old.entries)) (members_view members.new.entries) result }
{
    let numbers = grant.block.numbers();
    let form = grant.block.form().word();
    put_text(alloc, members, Field::Team, grant.team.as_bytes())?;
    put_text(alloc, members, Field::BlockForm, form.as_bytes())?;
    put_number(alloc, members, Field::First, numbers.first)?;
    put_number(alloc, members, Field::Last, numbers.last)
}

fn put_take_ident(alloc: Global, members: &mut Members, take: &TakeIdent) -> Result<(), Unwritten>
    ensures { Adds (with_entries (entries_of (act.TakeIdent take.now))
        (members_view members.old.entries)) (members_view members.new.entries) result }
{
    let message = &take.message;
    put_text(
        alloc,
        members,
        Field::IdentForm,
        take.form.word().as_bytes(),
    )?;
    put_text(alloc, members, Field::Name, message.name.as_bytes())?;
    put_number(
        alloc,
        members,
        Field::Length,
        u32::from(message.length.bytes()),
    )?;
    put_name_if_any(alloc, members, Field::Node, &message.node)?;
    put_number_if_any(alloc, members, Field::Want, take.want)
}

fn destination_of(pdu: Pdu) -> Option<u32>
    ensures { result ≡ destination_of pdu }
{
    match pdu {
        Pdu::Addressed(Some(destination)) => Some(u32::from(destination)),
        Pdu::Addressed(None) | Pdu::Broadcast => None,
    }
}

fn put_take_pgn(alloc: Global, members: &mut Members, take: &TakePgn) -> Result<(), Unwritten>
    ensures { Adds (with_entries (entries_of (act.TakePgn take.now))
        (members_view members.old.entries)) (members_view members.new.entries) result }
{
    let message = &take.message;
    put_text(alloc, members, Field::Name, message.name.as_bytes())?;
    put_number(
        alloc,
        members,
        Field::Length,
        u32::from(message.length.bytes()),
    )?;
    put_name_if_any(alloc, members, Field::Node, &message.node)?;
    put_text(
        alloc,
        members,
        Field::Pdu,
        addressing_word(take.pdu).as_bytes(),
    )?;
    put_number(
        alloc,
        members,
        Field::Priority,
        u32::from(take.priority.number()),
    )?;
    put_number(alloc, members, Field::Source, u32::from(take.source))?;
    put_number_if_any(alloc, members, Field::Destination, destination_of(take.pdu))
}

fn put_take_spn(alloc: Global, members: &mut Members, take: &TakeSpn) -> Result<(), Unwritten>
    ensures { Adds (with_entries (entries_of (act.TakeSpn take.now))
        (members_view members.old.entries)) (members_view members.new.entries) result }
{
    put_text(alloc, members, Field::Message, take.path.message.as_bytes())?;
    put_text(alloc, members, Field::Signal, take.path.signal.as_bytes())?;
    put_number_if_any(alloc, members, Field::Same, take.same)
}

/// Adds the mark, unless the signal is always present.
fn put_mark(alloc: Global, members: &mut Members, mux: Mux) -> Result<(), Unwritten>
    ensures { Adds (with_entry (filled field.Mux (mark_of mux)) (members_view members.old.entries))
        (members_view members.new.entries) result }
{
    match mux {
        Mux::Always => Ok(()),
        Mux::Multiplexor | Mux::Under(_) => {
            put_text(alloc, members, Field::Mux, mux.indicator().as_bytes())
        }
    }
}

fn put_decimal(
    alloc: Global,
    members: &mut Members,
    field: Field,
    decimal: &Decimal,
) -> Result<(), Unwritten>
    ensures { Adds (with_value (json_name field) (text_data (printed.text_of decimal.now))
        (members_view members.old.entries)) (members_view members.new.entries) result }
{
    let text = decimal_text(alloc, decimal)?;
    put_text(alloc, members, field, &text)
}

fn put_start(alloc: Global, members: &mut Members, start: Option<u16>) -> Result<(), Unwritten>
    ensures { Adds (with_entry (filled field.Start start) (members_view members.old.entries))
        (members_view members.new.entries) result }
{
    match start {
        None => Ok(()),
        Some(start) => put_number(alloc, members, Field::Start, u32::from(start)),
    }
}

fn put_take_bits(alloc: Global, members: &mut Members, take: &TakeBits) -> Result<(), Unwritten>
    ensures { Adds (with_entries (entries_of (act.TakeBits take.now))
        (members_view members.old.entries)) (members_view members.new.entries) result }
{
    put_text(alloc, members, Field::Message, take.path.message.as_bytes())?;
    put_text(alloc, members, Field::Signal, take.path.signal.as_bytes())?;
    put_number(alloc, members, Field::Size, u32::from(take.size.bits()))?;
    put_text(alloc, members, Field::Order, take.order.word().as_bytes())?;
    put_truth(alloc, members, Field::Signed, take.signed)?;
    put_mark(alloc, members, take.mux)?;
    put_decimal(alloc, members, Field::Factor, &take.factor)?;
    put_decimal(alloc, members, Field::Offset, &take.offset)?;
    put_decimal(alloc, members, Field::Minimum, &take.minimum)?;
    put_decimal(alloc, members, Field::Maximum, &take.maximum)?;
    put_text(alloc, members, Field::Unit, take.unit.as_bytes())?;
    put_names(alloc, members, Field::Receiver, take.receivers.as_slice())?;
    put_start(alloc, members, take.start)
}

fn put_set_values(alloc: Global, members: &mut Members, set: &SetValues) -> Result<(), Unwritten>
    ensures { Adds (with_entries (entries_of (act.SetValues set.now))
        (members_view members.old.entries)) (members_view members.new.entries) result }
{
    put_text(alloc, members, Field::Message, set.path.message.as_bytes())?;
    put_text(alloc, members, Field::Signal, set.path.signal.as_bytes())?;
    put_pairs(alloc, members, Field::Value, set.values.as_slice())
}

fn put_remove_signal(
    alloc: Global,
    members: &mut Members,
    path: &SignalPath,
) -> Result<(), Unwritten>
    ensures { Adds (with_entries (entries_of (act.RemoveSignal path.now))
        (members_view members.old.entries)) (members_view members.new.entries) result }
{
    put_text(alloc, members, Field::Message, path.message.as_bytes())?;
    put_text(alloc, members, Field::Signal, path.signal.as_bytes())
}

/// Adds the fields of an action.
pub(crate) fn put_action(
    alloc: Global,
    members: &mut Members,
    action: &Action,
) -> Result<(), Unwritten>
    ensures { Adds (with_entries (entries_of action.now) (members_view members.old.entries))
        (members_view members.new.entries) result }
{
    match action {
        Action::OpenNet(opening) => put_open_net(alloc, members, opening),
        Action::Grant(grant) => put_grant(alloc, members, grant),
        Action::AddNode(name) => put_text(alloc, members, Field::Name, name.as_bytes()),
        Action::TakeIdent(take) => put_take_ident(alloc, members, take),
        Action::TakePgn(take) => put_take_pgn(alloc, members, take),
        Action::TakeSpn(take) => put_take_spn(alloc, members, take),
        Action::TakeBits(take) => put_take_bits(alloc, members, take),
        Action::SetValues(set) => put_set_values(alloc, members, set),
        Action::RemoveSignal(path) => put_remove_signal(alloc, members, path),
        Action::Retire(name) => put_text(alloc, members, Field::Message, name.as_bytes()),
        Action::Submit | Action::Approve | Action::Reject | Action::Release => Ok(()),
    }
}
