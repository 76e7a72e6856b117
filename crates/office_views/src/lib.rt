//! Texts for people: the chart of a message's signals, which says which signal has which bit and whether they fit
//! together, the table of a sheet's messages, and the list of an office's networks.
//!
//! A [`ChartSignal`] is a name and a place. [`chart_text`] is the chart: for each byte of the payload a line with a
//! cell for each bit, for each signal a line with its letter, and a last line that is `clear` or gives the first clash
//! ([`first_clash_of`]) by the number and name of its [`SheetCode`](dbc_words::SheetCode). [`message_chart`] is the
//! chart of a message of a sheet. [`signal_of`] and [`length_of`] read the arguments of the subcommand `chart`.
//!
//! [`sheet_table`] is the list of a sheet's messages, with the counts of messages and of signals ([`signal_count`]), and
//! [`table_of`] is that as lines. [`net_line`] is the line of a network in the
//! list: its name, kind, phase ([`phase_word`]) and count of releases.
//!
//! [`sends`] and [`receives`] say what a node has to do with a message or a signal; [`sent_tally`] and [`received_tally`]
//! count that for all nodes in one walk.
//!
//! The definitions are in `specs/`: `Text.antt` is the chart, line by line, in terms of the positions of bits of
//! `bitlayout` and the numbers and names of clashes of `dbc_words`; `Message.antt` is that of a message; `Table.antt`
//! is the table, as rows; `Word.antt` is the form of the arguments;
//! `NetList.antt` is the list of networks; `Sending.antt` is what a node sends and receives, and `Tally.antt` how often.
#![tactic(auto)]

mod message;
mod networks;
mod number;
mod sending;
mod signal;
mod table;
mod tally;
mod text;
mod word;

pub use message::message_chart;
pub use networks::{net_line, phase_word};
pub use number::whole_between;
pub use sending::{received, receives, sends};
pub use signal::{ChartSignal, first_clash_of};
pub use table::{MESSAGE_TOTALS, TABLE, sheet_table, signal_count, table_of, transmitter};
pub use tally::{Tally, received_tally, sent_tally};
pub use text::chart_text;
pub use word::{length_of, signal_of};
