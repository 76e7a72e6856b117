//! The statements of the office: one function for each fixed text, over the tables of `store_tables`.
//!
//! `insert_..` adds one row, `delete_..` removes the rows of a key or of the beginning of one, and `select_..` reads
//! rows of one table in the order of its key, or the last place of a message's signals, or whether a row has a rowid
//! above or below a number; `count_..` shows how many there are; `clear_..` removes all rows of a table, and only the
//! carrying over of an earlier office's tables calls it. A row is changed by removing and adding it. No text changes or
//! removes a release or a reply.
//!
//! Each is called in a transaction and binds texts as bytes. On tables that are the office's, its contract gives the
//! exact tables that it leaves, or the exact rows that it reads; on any other tables it is safe. Each answers
//! `sqlite`'s error if there is one (memory ran out, the disk failed, a key is there already); then nothing is
//! committed, and dropping the transaction rolls it back.
//!
//! The definitions are in `specs/`: `Rows.antt` (rows by the names of their columns, and which rows a text selects),
//! `Shown.antt` (which columns a SELECT shows, and its order) and `Alone.antt` (what is read outside a transaction).
#![tactic(auto)]

mod approval;
mod block;
mod frozen;
mod held;
mod message;
mod msg;
mod net;
mod part;
mod profile;
mod receiver;
mod reply;
mod row;
mod sig;
mod sigvalue;
mod spn;

pub use approval::{delete_approval, delete_approvals, insert_approval, select_approvals};
pub use block::{delete_block, insert_block, select_blocks, select_blocks_of_form};
pub use frozen::{insert_frozen, select_release, select_release_numbers, select_releases};
pub use held::{delete_held, insert_held, select_held, select_held_numbers};
pub use message::{clear_messages, select_messages};
pub use msg::{
    count_msgs, delete_msgs, insert_msg, select_msg_above, select_msg_below, select_msg_named,
    select_msg_numbers, select_msgs,
};
pub use net::{delete_net, insert_net, select_net, select_net_names};
pub use part::{insert_part, select_parts};
pub use profile::{clear_profile, insert_profile, select_profile};
pub use receiver::{
    count_receivers, delete_receivers, delete_receivers_at, insert_receiver, select_receivers,
};
pub use reply::{insert_reply, select_keys, select_reply};
pub use row::{
    BlockRow, BodyRow, FrozenRow, LiveRow, MuxColumn, NetRow, PartRow, ReceiverRow, ReplyRow,
    SigRow, SigValueRow,
};
pub use sig::{
    count_sigs, delete_sig_at, delete_sigs, insert_sig, select_last_place, select_sigs,
    select_sigs_named,
};
pub use sigvalue::{
    count_sigvalues, delete_sigvalues, delete_sigvalues_at, insert_sigvalue, select_sigvalues,
};
pub use spn::{delete_spn, insert_spn, select_spns};
