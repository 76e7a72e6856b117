//! A database in memory.
ghost use Rattle.std.specs.Prelude.{◌≡◌, ℕ, List, IfOk, IsFalse, IsTrue, OnErr, false};
ghost use Rattle.sqlite.specs.Held.{state};
ghost use Rattle.sqlite.specs.Steps.{over_memory};
ghost use Rattle.office_history.specs.History.{Answered};
ghost use Rattle.store.specs.Holding.{Holding};
ghost use Rattle.store.specs.Opening.{HasNone, HoldingInSomeForm, HoldingOlder};
ghost use Rattle.store_tables.specs.Statements.{statistics_of};
ghost use Rattle.canoffice_cli.specs.Databases.{HoldsInSomeForm, Statistics, known_of};

use super::Databases;
use crate::answering::{Answers, answer_on, nothing_answered};
use crate::jobs::{ServeEnd, look_on, migrate_on};
use crate::progress::Progress;
use crate::reasons::Reasons;
use office_history::Arrival;
use office_types::Look;
use sqlite::{Connection, MemStore};
use std::alloc::{AllocError, Global};
use std::io::Write;
use store::Lost;
use store_tables::{is_new, knows_tables};

/// One database in memory, which is found under any path.
#[derive(Drop)]
pub struct MemoryDatabase {
    /// The connection that shows it. Where it is absent, or a transaction has begun on it, each call is lost.
    pub conn: Option<Connection<MemStore>>,
}

impl MemoryDatabase {
    /// Whether the connection shows no table.
    fn is_new(&self) -> bool
        ensures yes { (path : List ℕ) → (known_of self.now.conn).is_new path → IsTrue result }
        ensures no { (path : List ℕ) (h : List Answered)
            → HoldsInSomeForm (known_of self.now.conn) path h → IsFalse result }
    {
        match &self.conn {
            Some(conn) => {
                knows_tables(conn);
                is_new(conn)
            }
            None => false,
        }
    }

    /// The connection, which is taken out.
    fn taken(&mut self) -> Result<Connection<MemStore>, Lost>
        ensures settled { IfOk result (λ conn. (state over_memory conn).in_transaction ≡ false) }
        ensures held { IfOk result
            (λ conn. (path : List ℕ) (h : List Answered) → (known_of self.old.conn).holds path h
            → Holding h (state over_memory conn)) }
        ensures in_form { IfOk result (λ conn. (path : List ℕ) (h : List Answered)
            → (known_of self.old.conn).holds_in_form path h
            → HoldingInSomeForm h (state over_memory conn)) }
        ensures older { IfOk result (λ conn. (path : List ℕ) (h : List Answered)
            → (known_of self.old.conn).holds_older path h
            → HoldingOlder h (state over_memory conn)) }
        ensures none { IfOk result (λ conn. (path : List ℕ) → (known_of self.old.conn).is_new path
            → HasNone (state over_memory conn)) }
        ensures statistics { IfOk result (λ conn. (path : List ℕ) (rows : Statistics)
            → (known_of self.old.conn).has_statistics path rows
            → statistics_of (state over_memory conn).now ≡ rows) }
        ensures err { OnErr result (self.new ≡ self.old) }
    {
        match &self.conn {
            Some(conn) if conn.is_autocommit() => {}
            _ => return Err(Lost::Store),
        }
        match self.conn.take() {
            Some(conn) => Ok(conn),
            None => Err(Lost::Store),
        }
    }
}

impl Databases for MemoryDatabase {
    ghost use Rattle.canoffice_cli.specs.Databases.{known_of};

    ghost known = { λ database. known_of database.conn };

    fn answer<W: Write>(
        &mut self,
        alloc: Global,
        _path: &str,
        script: &[u8],
        arrivals: &[Arrival],
        strict: bool,
        reasons: &mut Reasons,
        progress: &mut Progress<W>,
    ) -> Result<Answers, AllocError> {
        match self.taken() {
            Ok(conn) => {
                let (reported, conn) = answer_on(
                    alloc, conn, script, arrivals, strict, reasons, progress,
                );
                self.conn = Some(conn);
                reported
            }
            Err(lost) => Ok(nothing_answered(alloc, lost)),
        }
    }

    fn look(&mut self, alloc: Global, _path: &str, look: &Look) -> Result<Option<Vec<u8>>, Lost> {
        if self.is_new() {
            return Ok(None);
        }
        let conn = self.taken()?;
        let (shown, conn) = look_on(alloc, conn, look);
        self.conn = Some(conn);
        shown
    }

    fn migrate<W: Write>(
        &mut self,
        alloc: Global,
        _path: &str,
        progress: &mut Progress<W>,
    ) -> Result<(), Lost> {
        let conn = self.taken()?;
        let (done, conn) = migrate_on(alloc, conn, progress);
        self.conn = Some(conn);
        done
    }

    /// Nobody can connect to it, so it can't be listened on.
    fn serve(
        &mut self,
        _alloc: Global,
        _path: &str,
        _port: u16,
        _count: u32,
        _explain: bool,
    ) -> Result<(), ServeEnd> {
        Err(ServeEnd::CannotListen)
    }
}
