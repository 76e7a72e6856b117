//! An office's tables of the first profile, carried over to the second.
//!
//! The first offices kept each live message as one row of `message`, whose body is the message's text; later each was
//! kept as rows of `msg`, `sig`, `receiver` and `sigvalue`. Profile 1 is also that of offices that knew no message
//! above 64 bytes. What tables of an earlier form hold is the same history of arrivals, with profile 1 at each of them,
//! and carrying over changes how the tables hold it alone:
//!
//! - [`carry_bodies`] makes the tables that the first offices lack, and then [`carry_over`] writes each live message
//!   that is a body as rows, empties `message`, and renews the profile;
//! - [`carry_rows`] makes the table of bundles' parts for offices that have rows already, and then [`renew_profile`]
//!   renews the profile: the rows (1, 2) and (2, 2) are all that it has then.
//!
//! Each is called in one transaction. It commits nothing, and leaves nothing that a crash could find: only the commit
//! does. An error is out of memory, what `sqlite` answers, or `InvalidQuery` where rows are no office's; the
//! transaction is to be rolled back then, and the tables are as before.
//!
//! The definitions are in `specs/`: `HoldsIn.antt` (tables that hold a history, with live messages in one form or
//! another), `Forms.antt` (the forms that there are), `Carried.antt` (what carrying over makes of the tables),
//! `Carrying.antt` (the words of its contracts).
#![tactic(auto)]

mod carrying;
mod forms;
mod growing;
mod profile_rows;
mod renewing;
mod watch;

pub use carrying::carry_over;
pub use forms::{SchemaForm, form_of};
pub use growing::{carry, carry_bodies, carry_rows};
pub use profile_rows::{ProfileRows, profile_rows_of, read_profile_rows};
pub use renewing::renew_profile;
pub use watch::Watch;
