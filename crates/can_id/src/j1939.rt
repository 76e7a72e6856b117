//! The fields of a 29-bit identifier, and parameter group numbers (SAE J1939-21, the protocol data unit).
ghost use Rattle.std.specs.Prelude.{◌≡◌, ◌↔◌, IsTrue, MatchResult, Ok, Option, Some};
ghost use Rattle.can_id.specs.J1939.{AreInRange, Fields, HasFields, IsBuildFault, IsBuilt, IsPgn, build_result};
ghost use Rattle.can_id.specs.J1939.{fields_of, format_of, ident_fields, is_pdu1, is_pgn, number_of, pgn_count, pgn_of};
ghost use Rattle.can_id.specs.declared.ident.Ident.TheVariants.{Ext};

use crate::fault::IdFault;
use crate::ident::{ExtendedId, Ident};
use std::marker::Model;

/// The least PDU format of a group without destination address (PDU2).
const FIRST_PDU2: u8 = 240;

/// The destination address of every node.
const GLOBAL: u8 = 255;

/// The fields of a 29-bit identifier. Contracts see it as the record of them, each in its range.
#[derive(Clone, Copy, PartialEq, Eq)]
pub struct J1939 {
    priority: u8,
    extended_page: bool,
    data_page: bool,
    pf: u8,
    ps: u8,
    source: u8,
}

impl Model for J1939 {
    ghost use Rattle.can_id.specs.J1939.{Fields, AreInRange};

    ghost Value = { Fields };

    ghost view = { λ f. record { priority = f.priority; extended_page = f.extended_page; data_page = f.data_page; pf = f.pf; ps = f.ps; source = f.source } };

    ghost invariant = { λ f. AreInRange
        (record { priority = f.priority; extended_page = f.extended_page; data_page = f.data_page; pf = f.pf; ps = f.ps; source = f.source }) };

    ghost inverse = { λ f. record { priority = f.priority; extended_page = f.extended_page; data_page = f.data_page; pf = f.pf; ps = f.ps; source = f.source } };
}

/// Whether a message of this PDU format has a destination address (PDU1).
fn is_pdu1(pf: u8) -> bool
    ensures { result ≡ is_pdu1 pf }
{
    pf < FIRST_PDU2
}

/// Whether the number is that of a parameter group: 18 bits, and a low byte of 0 where the PDU format in the byte
/// above it is below 240.
pub fn is_pgn(number: u32) -> bool
    ensures pgn { IsTrue result ↔ IsPgn number }
    ensures computed { result ≡ is_pgn number }
{
    let pf = ((number >> 8) & 0xff) as u8;
    number >> 18 == 0 && (!is_pdu1(pf) || number & 0xff == 0)
}

/// Whether a message of the parameter group of this number has a destination address (PDU1).
pub fn has_destination(pgn: u32) -> bool
    ensures { result ≡ is_pdu1 (format_of pgn) }
{
    is_pdu1(((pgn >> 8) & 0xff) as u8)
}

/// How many parameter groups have the extended data page clear: on each of two data pages 240 with a destination
/// address, and 16 times 256 without.
pub fn pgn_count() -> u32
    ensures { result ≡ pgn_count 131072 }
{
    2 * (240 + 16 * 256)
}

impl J1939 {
    /// The fields of the identifier, or `None` where it has 11 bits.
    pub fn of(ident: Ident) -> Option<J1939>
        ensures fields { HasFields ident result }
        ensures only { (other : Option Fields) → HasFields ident other → other ≡ result }
        ensures computed { result ≡ ident_fields ident }
    {
        let Ident::Ext(id) = ident else {
            return None;
        };
        let number = id.number();
        Some(J1939 {
            priority: (number >> 26) as u8,
            extended_page: (number >> 25) & 1 == 1,
            data_page: (number >> 24) & 1 == 1,
            pf: ((number >> 16) & 0xff) as u8,
            ps: ((number >> 8) & 0xff) as u8,
            source: (number & 0xff) as u8,
        })
    }

    /// The fields of a message of this group. Where the group has no destination address (PDU2), the destination
    /// must be 255, which is every node.
    pub fn build(priority: u8, pgn: u32, destination: u8, source: u8) -> Result<J1939, IdFault>
        ensures outcome { MatchResult result (IsBuilt priority pgn destination source)
            (IsBuildFault priority pgn destination) }
        ensures only { (other : Fields) → IsBuilt priority pgn destination source other
            → result ≡ Ok other }
        ensures computed { result ≡ build_result priority pgn destination source }
    {
        if priority > 7 {
            return Err(IdFault::Priority);
        }
        if !is_pgn(pgn) {
            return Err(IdFault::NotPgn);
        }
        let pf = ((pgn >> 8) & 0xff) as u8;
        let has_destination = is_pdu1(pf);
        if !has_destination && destination != GLOBAL {
            return Err(IdFault::Destination);
        }
        let ps = if has_destination {
            destination
        } else {
            (pgn & 0xff) as u8
        };
        Ok(J1939 {
            priority,
            extended_page: (pgn >> 17) & 1 == 1,
            data_page: (pgn >> 16) & 1 == 1,
            pf,
            ps,
            source,
        })
    }

    /// How urgent the message is: 0, the most urgent, to 7.
    pub fn priority(self) -> u8
        ensures value { result ≡ self.priority }
        ensures ranges { AreInRange self }
    {
        self.priority
    }

    /// The extended data page.
    pub fn extended_page(self) -> bool
        ensures { result ≡ self.extended_page }
    {
        self.extended_page
    }

    /// The data page.
    pub fn data_page(self) -> bool
        ensures { result ≡ self.data_page }
    {
        self.data_page
    }

    /// The PDU format.
    pub fn pf(self) -> u8
        ensures { result ≡ self.pf }
    {
        self.pf
    }

    /// The PDU specific byte: the destination address where the PDU format is below 240, and else the group
    /// extension.
    pub fn ps(self) -> u8
        ensures { result ≡ self.ps }
    {
        self.ps
    }

    /// The address of the node that sends the message.
    pub fn source(self) -> u8
        ensures { result ≡ self.source }
    {
        self.source
    }

    /// The parameter group number.
    pub fn pgn(self) -> u32
        ensures value { result ≡ pgn_of self }
        ensures pgn { IsPgn result }
    {
        let low = if is_pdu1(self.pf) { 0 } else { self.ps };
        (u32::from(self.extended_page) << 17)
            | (u32::from(self.data_page) << 16)
            | (u32::from(self.pf) << 8)
            | u32::from(low)
    }

    /// The identifier that has these fields.
    pub fn ident(self) -> Ident
        ensures number { result ≡ Ext (number_of self) }
        ensures fields { HasFields result (Some self) }
        ensures back { fields_of (number_of self) ≡ self }
    {
        let number = (u32::from(self.priority) << 26)
            | (u32::from(self.extended_page) << 25)
            | (u32::from(self.data_page) << 24)
            | (u32::from(self.pf) << 16)
            | (u32::from(self.ps) << 8)
            | u32::from(self.source);
        // The fields have 29 bits together, so the number is an identifier's.
        Ident::Ext(ExtendedId::new(number).unwrap())
    }
}
