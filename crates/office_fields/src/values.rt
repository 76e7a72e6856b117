//! Whether bytes are a value of a kind.
ghost use Rattle.std.specs.Prelude.{◌≡◌, IfOk, is_some};
ghost use Rattle.office_fields.specs.Value.{value_from};

use crate::addressing::Addressing;
use crate::field::FieldKind;
use crate::given::FieldValue;
use crate::path::FilePath;
use crate::unread::Unread;
use bitlayout::{Mux, Order, Size};
use dbc_sheet::ValueText;
use dbc_words::{Name, PayloadLength, Text};
use decimal::Decimal;
use office_types::{BlockForm, IdentForm, NetKind, NetName, Priority, ReviewCount, Team};
use std::alloc::{AllocError, Global};

/// Whether the bytes give a value of the type.
fn gives<T: FieldValue + Drop>(alloc: Global, bytes: &[u8]) -> Result<bool, AllocError>
    ensures { IfOk result (λ found. found ≡ is_some (T.read bytes.now)) }
{
    match T::of(alloc, bytes) {
        Ok(_value) => Ok(true),
        Err(Unread::Wrong) => Ok(false),
        Err(Unread::Memory) => Err(AllocError),
    }
}

/// Whether the bytes are a value of the kind. The error is out of memory.
pub fn is_value(alloc: Global, kind: FieldKind, bytes: &[u8]) -> Result<bool, AllocError>
    ensures { IfOk result (λ found. found ≡ is_some (value_from kind bytes.now)) }
{
    match kind {
        FieldKind::NetName => gives::<NetName>(alloc, bytes),
        FieldKind::Team => gives::<Team>(alloc, bytes),
        FieldKind::Name => gives::<Name>(alloc, bytes),
        FieldKind::Text => gives::<Text>(alloc, bytes),
        FieldKind::Path => gives::<FilePath>(alloc, bytes),
        FieldKind::NetKind => gives::<NetKind>(alloc, bytes),
        FieldKind::IdentForm => gives::<IdentForm>(alloc, bytes),
        FieldKind::BlockForm => gives::<BlockForm>(alloc, bytes),
        FieldKind::Addressing => gives::<Addressing>(alloc, bytes),
        FieldKind::ByteOrder => gives::<Order>(alloc, bytes),
        FieldKind::Truth => gives::<bool>(alloc, bytes),
        FieldKind::Mark => gives::<Mux>(alloc, bytes),
        FieldKind::Number => gives::<u32>(alloc, bytes),
        FieldKind::Reviews => gives::<ReviewCount>(alloc, bytes),
        FieldKind::Length => gives::<PayloadLength>(alloc, bytes),
        FieldKind::Priority => gives::<Priority>(alloc, bytes),
        FieldKind::Address => gives::<u8>(alloc, bytes),
        FieldKind::Size => gives::<Size>(alloc, bytes),
        FieldKind::Start => gives::<u16>(alloc, bytes),
        FieldKind::Decimal => gives::<Decimal>(alloc, bytes),
        FieldKind::ValueText => gives::<ValueText>(alloc, bytes),
    }
}
