//! Work on the machine's database files.
//!
//! Whatever names the store of a file takes some thirty seconds to prove for each call that it makes with it. So
//! `on_file` alone goes from a path to a connection and back, with one such call, and all else is over any store.
ghost use Rattle.std.specs.Prelude.{◌≡◌, IfNone, IfOk, IfSome, OnErr};

use canoffice_cli::Lost;
use sqlite::{Alter, Connection};

/// What is done on a connection.
pub(crate) trait Work {
    /// What comes of it.
    type Done;

    ghost use Rattle.std.specs.Prelude.{false};
    ghost use Rattle.sqlite.specs.Held.{state};

    /// What is promised of that, and of the work as it was before and as it is after.
    ghost promised: { Self → Self → Self.Done → Type 0 };

    /// Does it, and gives the connection back. No transaction is open on it.
    fn run<S: Alter + Drop>(&mut self, conn: Connection<S>) -> (Self::Done, Connection<S>)
        requires { (state S.Store conn).in_transaction ≡ false }
        ensures { promised self.old self.new result.0 };
}

/// Does the work if no transaction is open on the connection, which is given back.
fn settled<S: Alter + Drop, W: Work>(
    conn: Connection<S>,
    work: &mut W,
) -> (Option<W::Done>, Connection<S>)
    ensures done { IfSome result.0 (λ done. W.promised work.old work.new done) }
    ensures none { IfNone result.0 (work.new ≡ work.old) }
{
    if !conn.is_autocommit() {
        return (None, conn);
    }
    let (done, conn) = work.run(conn);
    (Some(done), conn)
}

/// Opens the database file at the path, does the work, and closes it: what came of the work, and how closing went. The
/// error is why the file wasn't opened: then nothing was done.
pub(crate) fn on_file<W: Work>(
    rt: &HostRuntime,
    path: &str,
    work: &mut W,
) -> Result<(W::Done, Result<(), Lost>), Lost>
    ensures done { IfOk result (λ it. W.promised work.old work.new it.0) }
    ensures err { OnErr result (work.new ≡ work.old) }
{
    match Connection::open(rt, path) {
        Ok(conn) => {
            let (done, conn) = settled(conn, work);
            let closed = match conn.close() {
                Ok(()) => Ok(()),
                Err(error) => Err(Lost::from(error)),
            };
            match done {
                Some(done) => Ok((done, closed)),
                None => Err(Lost::Store),
            }
        }
        Err(error) => Err(Lost::from(error)),
    }
}
