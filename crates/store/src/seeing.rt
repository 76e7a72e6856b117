//! Reading a network of an office, to report why it refused a command.
ghost use Rattle.std.specs.Prelude.{List, IfOk};
ghost use Rattle.office_types.specs.declared.state.Office.{Office as Whole};
ghost use Rattle.office_history.specs.History.{Answered, IsLegal};
ghost use Rattle.store.specs.Calls.{HoldsOnErr, HoldsOnOk, IsOfficeCall, IsSettled, KeepsDoubt, KeepsStatistics};
ghost use Rattle.store.specs.Calls.{LeavesHistory, LeavesStatistics, OnHistory, OnHolding, SameOnErr, SameOnOk};
ghost use Rattle.store_tables.specs.Frames.{Asks, ReadsOnly};
ghost use Rattle.store.specs.Holds.{Holds};
ghost use Rattle.store.specs.Seeing.{IsReadOf};

use crate::losing::loss_by;
use crate::lost::Lost;
use crate::opening::leaves_committed;
use crate::stored_office::StoredOffice;
use office_history::histories_leave_offices;
use office_types::NetName;
use sqlite::{Alter, Connection, Error, Transaction};
use std::alloc::Global;
use store_looks::{ReadNet, read_net_at};
use store_tables::knows_schema;

/// Reads the network inside a transaction.
fn read_inside<S: Alter>(
    alloc: Global,
    tx: &mut Transaction<'_, S>,
    name: &NetName,
    releases: bool,
) -> Result<ReadNet, Error>
    ensures found { Asks S.Store tx.old tx.new result (λ read t.
        (h : List Answered) → (holds : Holds h t)
        → IsReadOf holds.holds.office name.now releases read) }
    ensures frame { ReadsOnly S.Store tx.old tx.new result }
{
    histories_leave_offices();
    read_net_at(alloc, tx, name, releases)
}

/// Reads the network in one transaction, which changes nothing.
fn read_alone<S: Alter>(
    alloc: Global,
    conn: &mut Connection<S>,
    name: &NetName,
    releases: bool,
) -> Result<ReadNet, Error>
    requires { IsSettled S.Store conn.old }
    ensures autocommit { IsSettled S.Store conn.new }
    ensures clean { KeepsDoubt S.Store conn.old conn.new }
    ensures found { OnHolding S.Store conn.old conn.new (λ h holding. IfOk result (λ read.
        IsReadOf holding.keeps.holds.holds.office name.now releases read)) }
    ensures held { HoldsOnOk S.Store conn.old conn.new result }
    ensures same { SameOnOk S.Store conn.old conn.new result }
    ensures lost_same { SameOnErr S.Store conn.old conn.new result }
    ensures left { LeavesHistory S.Store conn.old conn.new }
    ensures statistics_left { LeavesStatistics S.Store conn.old conn.new }
{
    knows_schema(conn);
    leaves_committed(conn);
    let _settled = conn.is_autocommit();
    let mut tx = conn.transaction();
    let read = read_inside(alloc, &mut tx, name, releases)?;
    let done = tx.commit();
    leaves_committed(conn);
    done?;
    Ok(read)
}

impl<S: Alter> StoredOffice<S> {
    /// Reads the network of the name, with its releases or without them, or where it isn't there the names of all, and
    /// the book: what there is to be read where a command on it was refused. Nothing changes. The errors are those of
    /// [`StoredOffice::look`].
    pub fn see(&mut self, alloc: Global, name: &NetName, releases: bool) -> Result<ReadNet, Lost>
        ensures call { IsOfficeCall S.Store self.old self.new result }
        ensures shown { OnHistory S.Store self.old.conn self.new.conn (λ h.
            (office : Whole) → IsLegal h office
            → IfOk result (λ read. IsReadOf office name.now releases read)) }
        ensures held { HoldsOnOk S.Store self.old.conn self.new.conn result }
        ensures lost { HoldsOnErr S.Store self.old.conn self.new.conn result }
        ensures same { SameOnOk S.Store self.old.conn self.new.conn result }
        ensures lost_same { SameOnErr S.Store self.old.conn self.new.conn result }
        ensures left { LeavesHistory S.Store self.old.conn self.new.conn }
        ensures statistics { KeepsStatistics S.Store self.old.conn self.new.conn }
        ensures statistics_left { LeavesStatistics S.Store self.old.conn self.new.conn }
    {
        histories_leave_offices();
        self.leaves_now();
        if self.failed {
            return Err(Lost::Store);
        }
        self.known.outdate();
        match read_alone(alloc, &mut self.conn, name, releases) {
            Ok(read) => Ok(read),
            Err(error) => {
                let lost = loss_by(&mut self.conn, error);
                self.failed = lost == Lost::Store;
                Err(lost)
            }
        }
    }
}
