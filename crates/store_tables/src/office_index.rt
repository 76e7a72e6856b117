//! The indexes of an office's tables, as those of a database are compared with them.

use crate::office_table::OfficeTable;

/// An index of an office, which SQLite makes of columns that are unique together.
#[derive(Clone, Copy, PartialEq, Eq)]
pub(crate) enum OfficeIndex {
    /// The key of networks.
    Net,
    /// The key of the live messages of the first offices.
    Message,
    /// Their names.
    MessageName,
    /// The key of blocks.
    Block,
    /// The key of held identifiers.
    Held,
    /// The key of approvals.
    Approval,
    /// The key of releases.
    Frozen,
    /// The key of kept replies.
    Reply,
    /// The key of live messages.
    Msg,
    /// Their names.
    MsgName,
    /// The key of signals.
    Sig,
    /// Their names.
    SigName,
    /// The key of receivers.
    Receiver,
    /// The key of the texts of values.
    SigValue,
    /// The key of the replies to parts.
    Part,
}

/// The indexes in the order in which they are made.
pub(crate) const INDEXES: [OfficeIndex; 15] = [
    OfficeIndex::Net,
    OfficeIndex::Message,
    OfficeIndex::MessageName,
    OfficeIndex::Block,
    OfficeIndex::Held,
    OfficeIndex::Approval,
    OfficeIndex::Frozen,
    OfficeIndex::Reply,
    OfficeIndex::Msg,
    OfficeIndex::MsgName,
    OfficeIndex::Sig,
    OfficeIndex::SigName,
    OfficeIndex::Receiver,
    OfficeIndex::SigValue,
    OfficeIndex::Part,
];

impl OfficeIndex {
    ghost use Rattle.std.specs.Prelude.{◌≡◌};
    ghost use Rattle.store_tables.specs.Comparing.{index_of, table_of};

    /// Its name.
    pub(crate) fn name(self) -> &'static [u8]
        ensures { result.now ≡ (index_of self).name }
    {
        match self {
            OfficeIndex::Net => b"sqlite_autoindex_net_1",
            OfficeIndex::Message => b"sqlite_autoindex_message_1",
            OfficeIndex::MessageName => b"sqlite_autoindex_message_2",
            OfficeIndex::Block => b"sqlite_autoindex_block_1",
            OfficeIndex::Held => b"sqlite_autoindex_held_1",
            OfficeIndex::Approval => b"sqlite_autoindex_approval_1",
            OfficeIndex::Frozen => b"sqlite_autoindex_frozen_1",
            OfficeIndex::Reply => b"sqlite_autoindex_reply_1",
            OfficeIndex::Msg => b"sqlite_autoindex_msg_1",
            OfficeIndex::MsgName => b"sqlite_autoindex_msg_2",
            OfficeIndex::Sig => b"sqlite_autoindex_sig_1",
            OfficeIndex::SigName => b"sqlite_autoindex_sig_2",
            OfficeIndex::Receiver => b"sqlite_autoindex_receiver_1",
            OfficeIndex::SigValue => b"sqlite_autoindex_sigvalue_1",
            OfficeIndex::Part => b"sqlite_autoindex_part_1",
        }
    }

    /// The number of its tree.
    pub(crate) fn tree(self) -> u32
        ensures { result ≡ (index_of self).tree }
    {
        match self {
            OfficeIndex::Net => 2,
            OfficeIndex::Message => 4,
            OfficeIndex::MessageName => 5,
            OfficeIndex::Block => 7,
            OfficeIndex::Held => 9,
            OfficeIndex::Approval => 12,
            OfficeIndex::Frozen => 14,
            OfficeIndex::Reply => 16,
            OfficeIndex::Msg => 18,
            OfficeIndex::MsgName => 19,
            OfficeIndex::Sig => 21,
            OfficeIndex::SigName => 22,
            OfficeIndex::Receiver => 24,
            OfficeIndex::SigValue => 26,
            OfficeIndex::Part => 28,
        }
    }

    /// Its table.
    pub(crate) fn table(self) -> OfficeTable
        ensures { (table_of result).tree ≡ (index_of self).table }
    {
        match self {
            OfficeIndex::Net => OfficeTable::Net,
            OfficeIndex::Message | OfficeIndex::MessageName => OfficeTable::Message,
            OfficeIndex::Block => OfficeTable::Block,
            OfficeIndex::Held => OfficeTable::Held,
            OfficeIndex::Approval => OfficeTable::Approval,
            OfficeIndex::Frozen => OfficeTable::Frozen,
            OfficeIndex::Reply => OfficeTable::Reply,
            OfficeIndex::Msg | OfficeIndex::MsgName => OfficeTable::Msg,
            OfficeIndex::Sig | OfficeIndex::SigName => OfficeTable::Sig,
            OfficeIndex::Receiver => OfficeTable::Receiver,
            OfficeIndex::SigValue => OfficeTable::SigValue,
            OfficeIndex::Part => OfficeTable::Part,
        }
    }

    /// Its columns, counted from 1.
    pub(crate) fn columns(self) -> &'static [usize]
        ensures { result.now ≡ (index_of self).columns }
    {
        match self {
            OfficeIndex::MessageName | OfficeIndex::MsgName => &[1, 3],
            OfficeIndex::SigName => &[1, 2, 4],
            other => other.table().primary(),
        }
    }
}
