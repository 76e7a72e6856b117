//! Calls that are lost.
ghost use Rattle.std.specs.Prelude.{◌≡◌, Err, IsTrue};
ghost use Rattle.sqlite.specs.Held.{state};
ghost use Rattle.sqlite.specs.State.{HasCleanDisk};
ghost use Rattle.sqlite_resolve.specs.declared.error.CompileError.{CompileError};
ghost use Rattle.store.specs.Calls.{IsSettled, OnlyAsksWhetherOpen};
ghost use Rattle.store.specs.Lost.{IsOfCall};

use crate::lost::Lost;
use sqlite::{Alter, Connection, Error, Statement};

/// Whether the text was refused for what it is.
fn is_refused(prepared: &Result<Statement, Error>) -> bool
    ensures { IsTrue result
        → (fault : CompileError) × (prepared.now ≡ Err (Error.SqlInputError fault)) }
{
    matches!(prepared, Err(Error::SqlInputError(_)))
}

/// Whether the connection is still open, so that it shows the last commit. A failure of the disk may have shut it.
/// This takes no new memory, since memory may be what is lacking: an open one refuses a text that begins no statement
/// before it requests any.
pub(crate) fn is_open<S: Alter>(conn: &mut Connection<S>) -> bool
    requires { IsSettled S.Store conn.old }
    ensures open { HasCleanDisk (state S.Store conn.new) → IsTrue result
        → IsTrue (state S.Store conn.new).is_open }
    ensures frame { OnlyAsksWhetherOpen S.Store conn.old conn.new }
{
    let _settled_before = conn.is_autocommit();
    let prepared = conn.prepare("no statement");
    let _settled = conn.is_autocommit();
    is_refused(&prepared)
}

/// Why a call is lost in which this error came: out of memory, if the connection is still open, and else an error of
/// the store.
pub(crate) fn loss_by<S: Alter>(conn: &mut Connection<S>, error: Error) -> Lost
    requires { IsSettled S.Store conn.old }
    ensures named { IsOfCall result }
    ensures open { HasCleanDisk (state S.Store conn.new) → result ≡ Lost.Memory
        → IsTrue (state S.Store conn.new).is_open }
    ensures frame { OnlyAsksWhetherOpen S.Store conn.old conn.new }
{
    let lost = Lost::from(error);
    if lost == Lost::Memory && !is_open(conn) {
        return Lost::Store;
    }
    lost
}
