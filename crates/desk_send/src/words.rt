//! Values that are one word of a few.
ghost use Rattle.std.specs.Prelude.{◌≡◌};
ghost use Rattle.desk_call.specs.Body.{json_name};
ghost use Rattle.desk_send.specs.Texts.{addressing_of, addressing_word};

use office_fields::Field;
use office_types::Pdu;

/// The name of a field's member.
pub(crate) fn json_name(field: Field) -> &'static str
    ensures { result.now ≡ json_name field }
{
    match field {
        Field::Receiver => "receivers",
        Field::Value => "values",
        _ => field.name(),
    }
}

pub(crate) fn addressing_word(pdu: Pdu) -> &'static str
    ensures { result.now ≡ addressing_word (addressing_of pdu) }
{
    match pdu {
        Pdu::Addressed(_) | Pdu::Broadcast => pdu.word(),
    }
}
