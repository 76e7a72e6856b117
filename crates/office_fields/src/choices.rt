//! Values that are one word of a few.
ghost use Rattle.dbc_words.specs.Indicator.{mux_of_indicator};
ghost use Rattle.office_fields.specs.Value.{addressing_of, block_form_of, ident_form_of, net_kind_of, order_of};
ghost use Rattle.office_fields.specs.Value.{truth_of};

use crate::addressing::Addressing;
use crate::given::FieldValue;
use crate::unread::Unread;
use bitlayout::{Mux, Order};
use dbc_words::mux_of_indicator;
use office_types::{BlockForm, IdentForm, NetKind};
use std::alloc::Global;

impl FieldValue for NetKind {
    ghost read = { net_kind_of };

    fn of(_alloc: Global, bytes: &[u8]) -> Result<NetKind, Unread> {
        if bytes == b"can".as_slice() {
            Ok(NetKind::Can)
        } else if bytes == b"j1939".as_slice() {
            Ok(NetKind::J1939)
        } else {
            Err(Unread::Wrong)
        }
    }
}

impl FieldValue for IdentForm {
    ghost read = { ident_form_of };

    fn of(_alloc: Global, bytes: &[u8]) -> Result<IdentForm, Unread> {
        if bytes == b"std".as_slice() {
            Ok(IdentForm::Standard)
        } else if bytes == b"ext".as_slice() {
            Ok(IdentForm::Extended)
        } else {
            Err(Unread::Wrong)
        }
    }
}

impl FieldValue for BlockForm {
    ghost read = { block_form_of };

    fn of(_alloc: Global, bytes: &[u8]) -> Result<BlockForm, Unread> {
        if bytes == b"std".as_slice() {
            Ok(BlockForm::Std)
        } else if bytes == b"ext".as_slice() {
            Ok(BlockForm::Ext)
        } else if bytes == b"pgn".as_slice() {
            Ok(BlockForm::Pgn)
        } else if bytes == b"spn".as_slice() {
            Ok(BlockForm::Spn)
        } else {
            Err(Unread::Wrong)
        }
    }
}

impl FieldValue for Addressing {
    ghost read = { addressing_of };

    fn of(_alloc: Global, bytes: &[u8]) -> Result<Addressing, Unread> {
        if bytes == b"addressed".as_slice() {
            Ok(Addressing::Addressed)
        } else if bytes == b"broadcast".as_slice() {
            Ok(Addressing::Broadcast)
        } else {
            Err(Unread::Wrong)
        }
    }
}

impl FieldValue for Order {
    ghost read = { order_of };

    fn of(_alloc: Global, bytes: &[u8]) -> Result<Order, Unread> {
        if bytes == b"intel".as_slice() {
            Ok(Order::Intel)
        } else if bytes == b"motorola".as_slice() {
            Ok(Order::Motorola)
        } else {
            Err(Unread::Wrong)
        }
    }
}

impl FieldValue for bool {
    ghost read = { truth_of };

    fn of(_alloc: Global, bytes: &[u8]) -> Result<bool, Unread> {
        if bytes == b"true".as_slice() {
            Ok(true)
        } else if bytes == b"false".as_slice() {
            Ok(false)
        } else {
            Err(Unread::Wrong)
        }
    }
}

impl FieldValue for Mux {
    ghost read = { mux_of_indicator };

    fn of(_alloc: Global, bytes: &[u8]) -> Result<Mux, Unread> {
        mux_of_indicator(bytes).ok_or(Unread::Wrong)
    }
}
