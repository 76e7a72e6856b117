//! What people look up of a network, and of what a team requested, read from the office's tables.
//!
//! [`net_look_at`] gives the text of a look (`office_looks`) at the network of a name. It reads the network and the
//! book of suspect parameter numbers, and of live messages and releases no more than the look depends on. [`page_at`]
//! gives a page of the network (`office_page`), and [`release_page_at`] one of a release of it. [`requests_at`]
//! gives the text of a team's requests (`office_looks`). [`read_net_at`] reads a network, or the names of all where it
//! isn't there, and the book, to report why a command was refused. All are called in a transaction, and change nothing.
//! An error is out of memory, what `sqlite` answers, or `InvalidQuery` where the rows are no office's.
//!
//! Where all of a network was seen, it is remembered ([`Remembered`]): as long as nothing changes, looks at it and its
//! pages read nothing. After a change the texts of its releases are known still: a body that is the known text, byte
//! for byte, isn't read again. Whoever writes to the tables says so first ([`Remembered::outdate`]).
//!
//! The definitions are of `office_seen`: `View.antt` (what is seen of a network), of `office_looks`: `Looks.antt` (the
//! text) and `Requests.antt`, and of `office_page`: `Page.antt` (what is a page). Those in `specs/` say what is
//! seen of the tables (`Seen.antt`) and read of them (`Read.antt`), what is known of what is kept (`Kept.antt`), and
//! which requests are those of a team (`Asked.antt`).
#![tactic(auto)]

mod paged;
mod reading;
mod remembered;
mod requests;
mod seen;
mod shown;
mod view;

pub use paged::{page_at, release_page_at};
pub use reading::{ReadNet, read_net_at};
pub use remembered::Remembered;
pub use requests::requests_at;
pub use shown::net_look_at;
