//! The tables of an office, as those of a database are compared with them.

use crate::office_column::OfficeColumn;
use crate::office_column::OfficeColumn::{Key, Other, Untyped};
use sqlite_schema::schema::Kind::{Blob, Integer, Text};

/// A table of an office.
#[derive(Clone, Copy, PartialEq, Eq)]
pub(crate) enum OfficeTable {
    /// The profile of the tables.
    Profile,
    /// The networks.
    Net,
    /// The live messages of the first offices.
    Message,
    /// The blocks of teams.
    Block,
    /// The held identifiers.
    Held,
    /// The used suspect parameter numbers.
    Spn,
    /// The approvals of networks in review.
    Approval,
    /// The releases.
    Frozen,
    /// The kept replies.
    Reply,
    /// The live messages.
    Msg,
    /// Their signals.
    Sig,
    /// The receivers of signals.
    Receiver,
    /// The texts of their values.
    SigValue,
    /// The replies to the parts of bundles.
    Part,
    /// The statistics of ANALYZE, if somebody ran it.
    Statistics,
}

/// The tables in the order in which they are made, and the statistics.
pub(crate) const TABLES: [OfficeTable; 15] = [
    OfficeTable::Profile,
    OfficeTable::Net,
    OfficeTable::Message,
    OfficeTable::Block,
    OfficeTable::Held,
    OfficeTable::Spn,
    OfficeTable::Approval,
    OfficeTable::Frozen,
    OfficeTable::Reply,
    OfficeTable::Msg,
    OfficeTable::Sig,
    OfficeTable::Receiver,
    OfficeTable::SigValue,
    OfficeTable::Part,
    OfficeTable::Statistics,
];

const PROFILE: [OfficeColumn; 2] = [Other(b"one", Integer), Other(b"number", Integer)];

const NET: [OfficeColumn; 6] = [
    Key(b"name", Text),
    Other(b"kind", Integer),
    Other(b"reviews", Integer),
    Other(b"phase", Integer),
    Other(b"submitter", Text),
    Other(b"frame", Blob),
];

const MESSAGE: [OfficeColumn; 5] = [
    Key(b"net", Text),
    Key(b"number", Integer),
    Other(b"name", Text),
    Other(b"owner", Text),
    Other(b"body", Blob),
];

const BLOCK: [OfficeColumn; 5] = [
    Key(b"net", Text),
    Key(b"form", Integer),
    Key(b"first", Integer),
    Other(b"last", Integer),
    Other(b"team", Text),
];

const HELD: [OfficeColumn; 2] = [Key(b"net", Text), Key(b"number", Integer)];

const SPN: [OfficeColumn; 1] = [Other(b"number", Integer)];

const APPROVAL: [OfficeColumn; 2] = [Key(b"net", Text), Key(b"team", Text)];

const FROZEN: [OfficeColumn; 3] = [
    Key(b"net", Text),
    Key(b"number", Integer),
    Other(b"body", Blob),
];

const REPLY: [OfficeColumn; 7] = [
    Key(b"team", Text),
    Key(b"key", Text),
    Other(b"content", Blob),
    Other(b"kind", Integer),
    Other(b"a", Integer),
    Other(b"b", Integer),
    Other(b"c", Integer),
];

const MSG: [OfficeColumn; 7] = [
    Key(b"net", Text),
    Key(b"number", Integer),
    Other(b"name", Text),
    Other(b"owner", Text),
    Other(b"length", Integer),
    Other(b"sender", Text),
    Other(b"comment", Blob),
];

const SIG: [OfficeColumn; 17] = [
    Key(b"net", Text),
    Key(b"number", Integer),
    Key(b"place", Integer),
    Other(b"name", Text),
    Other(b"start", Integer),
    Other(b"size", Integer),
    Other(b"motorola", Integer),
    Other(b"signed", Integer),
    Other(b"mux", Integer),
    Other(b"factor", Text),
    Other(b"shift", Text),
    Other(b"least", Text),
    Other(b"most", Text),
    Other(b"unit", Blob),
    Other(b"comment", Blob),
    Other(b"spn", Integer),
    Other(b"label", Integer),
];

const RECEIVER: [OfficeColumn; 5] = [
    Key(b"net", Text),
    Key(b"number", Integer),
    Key(b"place", Integer),
    Key(b"seat", Integer),
    Other(b"name", Text),
];

const SIG_VALUE: [OfficeColumn; 6] = [
    Key(b"net", Text),
    Key(b"number", Integer),
    Key(b"place", Integer),
    Key(b"seat", Integer),
    Other(b"value", Text),
    Other(b"words", Blob),
];

const PART: [OfficeColumn; 6] = [
    Key(b"team", Text),
    Key(b"key", Text),
    Key(b"place", Integer),
    Other(b"kind", Integer),
    Other(b"a", Integer),
    Other(b"b", Integer),
];

const STATISTICS: [OfficeColumn; 3] = [Untyped(b"tbl"), Untyped(b"idx"), Untyped(b"stat")];

impl OfficeTable {
    ghost use Rattle.std.specs.Prelude.{◌≡◌, map};
    ghost use Rattle.store_tables.specs.Comparing.{column_at, table_of};
    ghost use Rattle.store_tables.specs.Schema.{ascending};

    /// Its name.
    pub(crate) fn name(self) -> &'static [u8]
        ensures { result.now ≡ (table_of self).name }
    {
        match self {
            OfficeTable::Profile => b"profile",
            OfficeTable::Net => b"net",
            OfficeTable::Message => b"message",
            OfficeTable::Block => b"block",
            OfficeTable::Held => b"held",
            OfficeTable::Spn => b"spn",
            OfficeTable::Approval => b"approval",
            OfficeTable::Frozen => b"frozen",
            OfficeTable::Reply => b"reply",
            OfficeTable::Msg => b"msg",
            OfficeTable::Sig => b"sig",
            OfficeTable::Receiver => b"receiver",
            OfficeTable::SigValue => b"sigvalue",
            OfficeTable::Part => b"part",
            OfficeTable::Statistics => b"sqlite_stat1",
        }
    }

    /// The number of its tree. Those between are of indexes.
    pub(crate) fn tree(self) -> u32
        ensures { result ≡ (table_of self).tree }
    {
        match self {
            OfficeTable::Profile => 0,
            OfficeTable::Net => 1,
            OfficeTable::Message => 3,
            OfficeTable::Block => 6,
            OfficeTable::Held => 8,
            OfficeTable::Spn => 10,
            OfficeTable::Approval => 11,
            OfficeTable::Frozen => 13,
            OfficeTable::Reply => 15,
            OfficeTable::Msg => 17,
            OfficeTable::Sig => 20,
            OfficeTable::Receiver => 23,
            OfficeTable::SigValue => 25,
            OfficeTable::Part => 27,
            OfficeTable::Statistics => 29,
        }
    }

    /// Its columns.
    pub(crate) fn columns(self) -> &'static [OfficeColumn]
        ensures { map column_at result.now ≡ (table_of self).columns }
    {
        match self {
            OfficeTable::Profile => &PROFILE,
            OfficeTable::Net => &NET,
            OfficeTable::Message => &MESSAGE,
            OfficeTable::Block => &BLOCK,
            OfficeTable::Held => &HELD,
            OfficeTable::Spn => &SPN,
            OfficeTable::Approval => &APPROVAL,
            OfficeTable::Frozen => &FROZEN,
            OfficeTable::Reply => &REPLY,
            OfficeTable::Msg => &MSG,
            OfficeTable::Sig => &SIG,
            OfficeTable::Receiver => &RECEIVER,
            OfficeTable::SigValue => &SIG_VALUE,
            OfficeTable::Part => &PART,
            OfficeTable::Statistics => &STATISTICS,
        }
    }

    /// The column that is its rowid, counted from 0, if one is.
    pub(crate) fn key(self) -> Option<usize>
        ensures { result ≡ (table_of self).key }
    {
        match self {
            OfficeTable::Profile | OfficeTable::Spn => Some(0),
            _ => None,
        }
    }

    /// The columns of its primary key, counted from 1; the rowid is 0. The statistics have no key.
    pub(crate) fn primary(self) -> &'static [usize]
        ensures { result.now ≡ (table_of self).primary }
    {
        match self {
            OfficeTable::Profile | OfficeTable::Spn => &[0],
            OfficeTable::Net => &[1],
            OfficeTable::Block | OfficeTable::Sig | OfficeTable::Part => &[1, 2, 3],
            OfficeTable::Receiver | OfficeTable::SigValue => &[1, 2, 3, 4],
            OfficeTable::Statistics => &[],
            _ => &[1, 2],
        }
    }

    /// The lists of its columns that are unique together, counted from 1: first its key, unless that is the rowid.
    pub(crate) fn uniques(self) -> &'static [&'static [usize]]
        ensures lists { map (λ columns. columns.now) result.now ≡ (table_of self).uniques }
        ensures orders { map (λ _. ascending) result.now ≡ (table_of self).orders }
    {
        match self {
            OfficeTable::Profile | OfficeTable::Spn | OfficeTable::Statistics => &[],
            OfficeTable::Net => &[&[1]],
            OfficeTable::Held | OfficeTable::Approval | OfficeTable::Frozen | OfficeTable::Reply =>
                &[&[1, 2]],
            OfficeTable::Message | OfficeTable::Msg => &[&[1, 2], &[1, 3]],
            OfficeTable::Block | OfficeTable::Part => &[&[1, 2, 3]],
            OfficeTable::Sig => &[&[1, 2, 3], &[1, 2, 4]],
            OfficeTable::Receiver | OfficeTable::SigValue => &[&[1, 2, 3, 4]],
        }
    }
}
