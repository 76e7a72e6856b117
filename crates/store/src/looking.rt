//! Looking things up.
ghost use Rattle.std.specs.Prelude.{List, IfOk, OnOk};
ghost use Rattle.office_types.specs.declared.state.Office.{Office as Whole};
ghost use Rattle.office_history.specs.History.{Answered, IsLegal};
ghost use Rattle.store.specs.Calls.{HoldsOnErr, HoldsOnOk, IsOfficeCall, IsSettled, KeepsDoubt, KeepsStatistics};
ghost use Rattle.store.specs.Calls.{LeavesHistory, LeavesStatistics, OnHistory, OnHolding, OnTables, OnlyLooks};
ghost use Rattle.store.specs.Calls.{SameOnErr, SameOnOk};
ghost use Rattle.store.specs.Known.{IsKnown};
ghost use Rattle.sqlite.specs.Held.{state};
ghost use Rattle.store_looks.specs.Seen.{IsTrueOf};
ghost use Rattle.store_tables.specs.Frames.{Asks, ReadsOnly};
ghost use Rattle.store_tables.specs.Tables.{tables_of};
ghost use Rattle.store.specs.Holds.{Holds};
ghost use Rattle.store.specs.Looking.{IsShown, bytes_of};

use crate::losing::{is_open, loss_by};
use crate::lost::Lost;
use crate::opening::{leaves_committed, may_leave_committed};
use crate::stored_office::StoredOffice;
use office_history::histories_leave_offices;
use office_types::Look;
use sqlite::{Alter, Connection, Error, ErrorCode, Transaction};
use std::alloc::Global;
use store_looks::{Remembered, net_look_at, page_at, release_page_at, requests_at};
use store_net::{live_chart, live_table, live_text, nets_text, release_text};
use store_tables::knows_schema;

/// The error of a look on a connection that isn't open.
const CLOSED: Error = Error::SqliteFailure(ErrorCode::Closed);

/// Answers a look inside a transaction, with what is remembered.
fn look_inside<S: Alter>(
    alloc: Global,
    tx: &mut Transaction<'_, S>,
    look: &Look,
    known: &mut Remembered,
) -> Result<Option<Vec<u8>>, Error>
    ensures found { Asks S.Store tx.old tx.new result (λ text t.
        (h : List Answered) → (holds : Holds h t)
        → IsShown h holds.holds.office look.now (bytes_of text)) }
    ensures known { Asks S.Store tx.old tx.new result (λ _ t. IsTrueOf known.old t → IsTrueOf known.new t) }
    ensures frame { ReadsOnly S.Store tx.old tx.new result }
{
    histories_leave_offices();
    match look {
        Look::Nets => Ok(Some(nets_text(alloc, tx)?)),
        Look::Table(net) => live_table(alloc, tx, net),
        Look::Live(net) => live_text(alloc, tx, net),
        Look::Release(net, number) => release_text(alloc, tx, net, *number),
        Look::Chart(net, message) => live_chart(alloc, tx, net, message),
        Look::Net(net, look, form) => net_look_at(alloc, tx, net, look, *form, known),
        Look::Page(net) => page_at(alloc, tx, net, known),
        Look::ReleasePage(net, number) => release_page_at(alloc, tx, net, *number, known),
        Look::Requests(team, form) => Ok(Some(requests_at(alloc, tx, team, *form)?)),
    }
}

/// Answers a look in a transaction that is rolled back: whatever tables there are, they stay.
fn look_once<S: Alter>(
    alloc: Global,
    conn: &mut Connection<S>,
    look: &Look,
    known: &mut Remembered,
) -> Result<Option<Vec<u8>>, Error>
    requires { IsSettled S.Store conn.old }
    ensures found { OnHolding S.Store conn.old conn.new (λ h holding. IfOk result (λ text.
        IsShown h holding.keeps.holds.holds.office look.now (bytes_of text))) }
    ensures known { OnTables S.Store conn.old conn.new (IfOk result (λ _.
        IsTrueOf known.old (tables_of (state S.Store conn.old).now.trees)
        → IsTrueOf known.new (tables_of (state S.Store conn.old).now.trees))) }
    ensures frame { OnlyLooks S.Store conn.old conn.new }
{
    knows_schema(conn);
    leaves_committed(conn);
    let _settled_before = conn.is_autocommit();
    let mut tx = conn.transaction();
    let text = look_inside(alloc, &mut tx, look, known);
    tx.rollback();
    may_leave_committed(conn);
    let _settled = conn.is_autocommit();
    text
}

/// Answers a look, if the connection is open before it and after it, which changes nothing.
fn look_alone<S: Alter>(
    alloc: Global,
    conn: &mut Connection<S>,
    look: &Look,
    known: &mut Remembered,
) -> Result<Option<Vec<u8>>, Error>
    requires autocommit { IsSettled S.Store conn.old }
    requires known { IsKnown S.Store conn.old known.old }
    ensures autocommit { IsSettled S.Store conn.new }
    ensures clean { KeepsDoubt S.Store conn.old conn.new }
    ensures found { OnHolding S.Store conn.old conn.new (λ h holding. IfOk result (λ text.
        IsShown h holding.keeps.holds.holds.office look.now (bytes_of text))) }
    ensures known { OnOk result (IsKnown S.Store conn.new known.new) }
    ensures held { HoldsOnOk S.Store conn.old conn.new result }
    ensures same { SameOnOk S.Store conn.old conn.new result }
    ensures lost_same { SameOnErr S.Store conn.old conn.new result }
    ensures left { LeavesHistory S.Store conn.old conn.new }
    ensures statistics_left { LeavesStatistics S.Store conn.old conn.new }
{
    leaves_committed(conn);
    let _settled = conn.is_autocommit();
    if !is_open(conn) {
        return Err(CLOSED);
    }
    let text = look_once(alloc, conn, look, known)?;
    if !is_open(conn) {
        return Err(CLOSED);
    }
    Ok(text)
}

impl<S: Alter> StoredOffice<S> {
    /// Looks something up: its text, or `None` exactly where it isn't there. Nothing changes. Where the network that it
    /// is at is remembered, nothing is read, unless memory is lacking for its text. The error is out of memory, after
    /// which the next call may succeed, or an error of the store, after which the office has failed, as in
    /// [`StoredOffice::arrive`].
    pub fn look(&mut self, alloc: Global, look: &Look) -> Result<Option<Vec<u8>>, Lost>
        ensures call { IsOfficeCall S.Store self.old self.new result }
        ensures shown { OnHistory S.Store self.old.conn self.new.conn (λ h.
            (office : Whole) → IsLegal h office
            → IfOk result (λ text. IsShown h office look.now (bytes_of text))) }
        ensures held { HoldsOnOk S.Store self.old.conn self.new.conn result }
        ensures lost { HoldsOnErr S.Store self.old.conn self.new.conn result }
        ensures same { SameOnOk S.Store self.old.conn self.new.conn result }
        ensures lost_same { SameOnErr S.Store self.old.conn self.new.conn result }
        ensures left { LeavesHistory S.Store self.old.conn self.new.conn }
        ensures statistics { KeepsStatistics S.Store self.old.conn self.new.conn }
        ensures statistics_left { LeavesStatistics S.Store self.old.conn self.new.conn }
    {
        histories_leave_offices();
        self.leaves_now();
        if self.failed {
            return Err(Lost::Store);
        }
        if let Ok(Some(text)) = self.known.text_of(alloc, look) {
            return Ok(text);
        }
        match look_alone(alloc, &mut self.conn, look, &mut self.known) {
            Ok(text) => Ok(text),
            Err(error) => {
                self.known.outdate();
                let lost = loss_by(&mut self.conn, error);
                self.failed = lost == Lost::Store;
                Err(lost)
            }
        }
    }
}
