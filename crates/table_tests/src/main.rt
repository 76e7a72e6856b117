//! An office in tables that is stopped at each call of its files, and that serves devices that fail.
//!
//! **Stops**, at each call of a file, of offices whose database is two files in memory. There are four works: a list of
//! eleven requests by `arrive`, the same list by `serve_one`, a list with bundles, and `migrate` of a database that an
//! earlier version made (`data/older.db`, with the list of eleven). Each is done by an office whose files are under
//! fuses: so many calls of one of the files succeed, and every later one fails. The number of calls goes up until none
//! fails. After each stop the files are taken: from a connection that was closed, or left as it was; and what wasn't
//! synced is lost, kept, or torn. They must hold each request that was answered, and of the one that was lost all or
//! nothing. Then the list is sent again from its start to a new office on them: its replies are those of the rules, and
//! so is what it leaves. Without a stop the list of eleven is also sent by `run`.
//!
//! **Devices**: each request of the list of eleven is served to a writer that fails at its first call, and again by a
//! new office on the same files. And one request is served from a reader of one byte a call that fails at each of its
//! calls in turn, and to such a writer.
//!
//! What the built program shows is in `tests/`. All that is done with an office is over any store, since what names the
//! one on two files takes twenty times as long to prove.
//!
//! `stdout` is what all of it must print, worked out from the rules.
#![tactic(auto)]

mod devices;
mod disks;
mod eleven;
mod lists;
mod offices;
mod stops;

use devices::try_devices;
use std::{fs, io};
use stops::try_stops;

fn main(rt: HostRuntime) -> io::Result<()> {
    let older = fs::read(&rt, "older.db")?;
    try_stops(&rt, older)?;
    try_devices(&rt)
}
