//! The limits of a sheet (this project's dialect of DBC files, except the last one).

/// The greatest number of messages of a sheet.
pub const MESSAGE_LIMIT: usize = 16_384;

/// The greatest number of things in a [`Roster`](crate::Roster).
pub const ROSTER_LIMIT: usize = 4_096;

/// The greatest number of nodes of a sheet.
pub const NODE_LIMIT: usize = ROSTER_LIMIT;

/// The greatest number of value tables of a sheet.
pub const TABLE_LIMIT: usize = ROSTER_LIMIT;

/// The greatest number of signals of a message.
pub const SIGNAL_LIMIT: usize = ROSTER_LIMIT;

/// The greatest number of texts in one list of value texts.
pub const VALUE_TEXT_LIMIT: usize = 65_536;

/// The greatest length of a name, in bytes.
pub const NAME_LIMIT: usize = 128;

/// The greatest length of a message, in bytes.
pub const LENGTH_LIMIT: u16 = 1_785;

/// The greatest suspect parameter number, which has 19 bits (SAE J1939).
pub const SPN_LIMIT: u32 = 524_287;
