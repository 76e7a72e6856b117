//! An office on tables.
ghost use Rattle.std.specs.Prelude.{◌≡◌, IsTrue};
ghost use Rattle.sqlite.specs.Held.{state};
ghost use Rattle.sqlite.specs.Tree.{Trees};
ghost use Rattle.store.specs.Calls.{IsSettled};

use crate::opening::leaves_committed;
use sqlite::{Alter, Connection};
use std::marker::Model;
use store_looks::Remembered;

/// An office that is kept in the tables of a connection. Between calls no transaction is open.
///
/// It remembers the network that its last look at the whole of one saw ([`Remembered`]): until the next arrival, looks
/// at it and its pages read nothing. After an arrival only the texts of its releases are known: the next look fetches
/// the bodies, and reads those that are other texts.
pub struct StoredOffice<S: Alter> {
    pub(crate) conn: Connection<S>,
    pub(crate) failed: bool,
    pub(crate) known: Remembered,
}

impl<S: Alter> Model for StoredOffice<S> {
    ghost use Rattle.std.specs.Prelude.{◌≡◌, false};
    ghost use Rattle.sqlite.specs.Held.{state};
    ghost use Rattle.store.specs.Known.{IsKnown};
    ghost use Rattle.store.specs.Office.{OfficeView, stored_code};

    ghost Value = { OfficeView S };

    ghost coded = { stored_code S.code };

    ghost view = { λ office. record { conn = office.conn; failed = office.failed } };

    ghost invariant = { λ office. ((state S.Store office.conn).in_transaction ≡ false)
        × IsKnown S.Store office.conn office.known };
}

impl<S: Alter> StoredOffice<S> {
    /// Whether a call was lost because of the store. Then each later arrival and look is lost too, and changes nothing.
    pub fn is_failed(&self) -> bool
        ensures { result ≡ self.now.failed }
    {
        self.failed
    }

    /// Does nothing. Its contract is a law: while the connection is open, a crash leaves what it shows.
    pub fn leaves_now(&self)
        ensures { IsTrue (state S.Store self.now.conn).is_open → (db : Trees)
            → (state S.Store self.now.conn).may_leave db
            → db ≡ (state S.Store self.now.conn).now.trees }
    {
        leaves_committed(&self.conn);
        let _settled = self.conn.is_autocommit();
    }

    /// The connection, as it is: nothing is written.
    pub fn close(self) -> Connection<S>
        ensures same { result ≡ self.conn }
        ensures settled { IsSettled S.Store result }
    {
        let StoredOffice {
            conn,
            failed: _failed,
            known: _known,
        } = self;
        conn
    }
}

impl<S: Alter + Drop> Drop for StoredOffice<S> {
    fn drop(self) {
        let StoredOffice {
            conn: _conn,
            failed: _failed,
            known: _known,
        } = self;
    }
}
