//! Opening an office on tables of an earlier run, or on none.
ghost use Rattle.std.specs.Prelude.{◌≡◌, ◌≢◌, ◌↔◌, IsTrue, IfErr, OnOk};
ghost use Rattle.sqlite.specs.Tree.{Trees};
ghost use Rattle.sqlite.specs.Held.{state};
ghost use Rattle.sqlite.specs.State.{HasCleanDisk, Survives};
ghost use Rattle.store_tables.specs.Schema.{IsOfficeSchema, no_schema, office_schema, schema_13};
ghost use Rattle.store_tables.specs.Statements.{IsOfficeWith};
ghost use Rattle.store.specs.Calls.{IsSettled, KeepsDoubt, OnOpen};
ghost use Rattle.store_tables.specs.Frames.{OnlyWrites};
ghost use Rattle.store.specs.Lost.{IsOfCall};
ghost use Rattle.store.specs.Making.{Completes, HasSchema, KeepsCommitOnErr, KeepsOthers, LeavesNew, MakesNew};
ghost use Rattle.store.specs.Making.{MakesNoneOnErr, MakesParts, OnSchema, OnlyAsks, ReadiesOnOk, StaysWhole};
ghost use Rattle.store.specs.Making.{UnreadyOnErr};
ghost use Rattle.store.specs.Opening.{AreTreesOf, IsGrown, IsNew, MayComplete, MayGrow};
ghost use Rattle.store.specs.OpensAs.{LeavesOpened, Opens, conn_of};

use crate::lost::Lost;
use crate::stored_office::StoredOffice;
use sqlite::{Alter, Connection, Error, Row, Transaction};
use store_looks::Remembered;
use store_migrate::{ProfileRows, SchemaForm, form_of, profile_rows_of, read_profile_rows};
use store_statements::insert_profile;
use store_tables::{create_part, is_new, knows_tables, make_tables};

/// Makes the tables, and writes the rows of the profile.
fn make_all<S: Alter>(tx: &mut Transaction<'_, S>) -> Result<(), Error>
    ensures made { HasCleanDisk (state S.Store tx.new.conn.now)
        → HasSchema S.Store tx.old.conn.now no_schema
        → OnOk result (IsNew (state S.Store tx.new.conn.now).now
        × IsTrue (state S.Store tx.new.conn.now).in_transaction) }
    ensures frame { OnlyWrites S.Store tx.old tx.new }
{
    make_tables(tx)?;
    insert_profile(tx, 1, 2)?;
    insert_profile(tx, 2, 2)?;
    Ok(())
}

/// Does the same, in one transaction.
fn make_new<S: Alter>(conn: &mut Connection<S>) -> Result<(), Error>
    requires { IsSettled S.Store conn.old }
    ensures autocommit { IsSettled S.Store conn.new }
    ensures made { MakesNew S.Store conn.old conn.new result }
    ensures back { MakesNoneOnErr S.Store conn.old conn.new result }
    ensures survives { LeavesNew S.Store conn.old conn.new }
    ensures clean { KeepsDoubt S.Store conn.old conn.new }
{
    let mut tx = conn.transaction();
    make_all(&mut tx)?;
    tx.commit()
}

/// Makes the table of bundles' parts in an office's tables that lack it alone, in one transaction.
fn make_part<S: Alter>(conn: &mut Connection<S>) -> Result<(), Error>
    requires { IsSettled S.Store conn.old }
    ensures autocommit { IsSettled S.Store conn.new }
    ensures grown { MakesParts S.Store conn.old conn.new result }
    ensures tables { OnSchema S.Store conn.old conn.new schema_13
        (OnOk result (HasSchema S.Store conn.new office_schema)) }
    ensures back { OnOpen S.Store conn.new (KeepsCommitOnErr S.Store conn.old conn.new result) }
    ensures survives { Survives (state S.Store conn.old) (state S.Store conn.new)
        (λ trees. IsOfficeWith schema_13 (state S.Store conn.old).now
        → AreTreesOf (IsGrown (state S.Store conn.old).now.trees) trees) }
{
    let mut tx = conn.transaction();
    create_part(&mut tx)?;
    tx.commit()
}

/// Makes the tables where there are none.
pub(crate) fn start<S: Alter>(conn: &mut Connection<S>) -> Result<(), Lost>
    requires { IsSettled S.Store conn.old }
    ensures autocommit { IsSettled S.Store conn.new }
    ensures made { MakesNew S.Store conn.old conn.new result }
    ensures back { MakesNoneOnErr S.Store conn.old conn.new result }
    ensures named { IfErr result IsOfCall }
    ensures survives { LeavesNew S.Store conn.old conn.new }
    ensures clean { KeepsDoubt S.Store conn.old conn.new }
{
    make_new(conn)?;
    Ok(())
}

/// Does nothing. Its contract is a law: while the connection is open, a crash leaves what was last committed.
pub(crate) fn leaves_committed<S: Alter>(conn: &Connection<S>)
    ensures { IsTrue (state S.Store conn.now).is_open → (db : Trees)
        → (state S.Store conn.now).may_leave db → db ≡ (state S.Store conn.now).committed.trees }
{}

/// Does nothing. Its contract is a law, the other way round: while the connection is open, a crash may leave what was
/// last committed.
pub(crate) fn may_leave_committed<S: Alter>(conn: &Connection<S>)
    ensures { IsTrue (state S.Store conn.now).is_open
        → (state S.Store conn.now).may_leave (state S.Store conn.now).committed.trees }
{}

/// Makes the table of bundles' parts where tables of the second profile lack it.
pub(crate) fn complete<S: Alter>(conn: &mut Connection<S>) -> Result<(), Lost>
    requires { IsSettled S.Store conn.old }
    ensures autocommit { IsSettled S.Store conn.new }
    ensures completed { Completes S.Store conn.old conn.new result }
    ensures survives { Survives (state S.Store conn.old) (state S.Store conn.new)
        (MayGrow (state S.Store conn.old).now) }
{
    match form_of(conn) {
        SchemaForm::All => Ok(()),
        SchemaForm::Analyzed => Ok(()),
        SchemaForm::Rows => {
            make_part(conn)?;
            Ok(())
        }
        _ => Err(Lost::Store),
    }
}

/// Whether the tables are those of an office of some time.
pub(crate) fn is_office<S: Alter>(conn: &Connection<S>) -> bool
    ensures { IsTrue result ↔ IsOfficeSchema (state S.Store conn.now).now.schema }
{
    match form_of(conn) {
        SchemaForm::Foreign => false,
        _ => true,
    }
}

/// The rows of the profile, inside a transaction on whatever tables. The error is `sqlite`'s, as where there is no such
/// table.
fn profile_within<S: Alter>(tx: &mut Transaction<'_, S>) -> Result<Vec<Row>, Error>
    ensures { OnlyAsks S.Store tx.old tx.new }
{
    tx.query_all("SELECT one, number FROM profile ORDER BY one", &[])
}

/// The same in a transaction that is rolled back: whatever tables there are, they stay.
fn profile_of_others<S: Alter>(conn: &mut Connection<S>) -> Result<Vec<Row>, Error>
    requires { IsSettled S.Store conn.old }
    ensures autocommit { IsSettled S.Store conn.new }
    ensures stays { StaysWhole S.Store conn.old conn.new }
{
    let _settled = conn.is_autocommit();
    let mut tx = conn.transaction();
    let rows = profile_within(&mut tx);
    tx.rollback();
    rows
}

/// Says why tables that are no office's aren't taken: their profile may be one that isn't known here. Whatever tables
/// there are, they stay.
pub(crate) fn refuse<S: Alter>(conn: &mut Connection<S>) -> Result<(), Lost>
    requires { IsSettled S.Store conn.old }
    ensures autocommit { IsSettled S.Store conn.new }
    ensures refused { OnOk result ⊥ }
    ensures never_older { IfErr result (λ lost. lost ≢ Lost.OlderProfile) }
    ensures stays { StaysWhole S.Store conn.old conn.new }
    ensures clean { KeepsDoubt S.Store conn.old conn.new }
{
    let rows = profile_of_others(conn)?;
    if matches!(profile_rows_of(&rows), ProfileRows::Newer) {
        return Err(Lost::NewerProfile);
    }
    Err(Lost::Store)
}

/// Makes the tables where there are none. Of those that are there tests the profile and whether they are an office's,
/// and makes the last of them if it isn't there yet.
fn make_ready<S: Alter>(conn: &mut Connection<S>) -> Result<(), Lost>
    requires { IsSettled S.Store conn.old }
    ensures autocommit { IsSettled S.Store conn.new }
    ensures ready { ReadiesOnOk S.Store conn.old conn.new result }
    ensures unready { UnreadyOnErr S.Store conn.old conn.new result }
    ensures others { KeepsOthers S.Store conn.old conn.new }
    ensures new_survives { LeavesNew S.Store conn.old conn.new }
    ensures survives { IsOfficeSchema (state S.Store conn.old).now.schema
        → Survives (state S.Store conn.old) (state S.Store conn.new)
        (MayComplete (state S.Store conn.old).now) }
    ensures clean { KeepsDoubt S.Store conn.old conn.new }
{
    if is_new(conn) {
        return start(conn);
    }
    if !is_office(conn) {
        return refuse(conn);
    }
    match read_profile_rows(conn)? {
        ProfileRows::Second => complete(conn),
        ProfileRows::Bodies | ProfileRows::First => Err(Lost::OlderProfile),
        ProfileRows::Newer => Err(Lost::NewerProfile),
        ProfileRows::Foreign => Err(Lost::Store),
    }
}

impl<S: Alter> StoredOffice<S> {
    /// Opens the office on the connection. New tables, which hold the empty history, are made where there is no table,
    /// index or view. Else only the tables of an office are taken, as canoffice makes them, with the statistics of
    /// ANALYZE after all of them or without. Tables that hold a history hold it still, and the statistics stay. Where
    /// it is lost, the connection is given back: [`Lost::NewerProfile`] where the tables are of a
    /// profile that isn't known here, [`Lost::OlderProfile`] where they are of the first, which
    /// [`StoredOffice::migrate`] carries over; out of memory, or an error of the store, as on tables of something else.
    /// Either the tables are as before then, or, where the disk failed, they may be new. Tables of something else stay,
    /// and a crash leaves them too. Tables of the second profile that lack the table of bundles' parts get it.
    pub fn open(conn: Connection<S>) -> Result<StoredOffice<S>, (Lost, Connection<S>)>
        requires { IsSettled S.Store conn }
        ensures opened { Opens S.Store conn result }
        ensures others { KeepsOthers S.Store conn (conn_of result) }
        ensures left { LeavesOpened S.Store conn (conn_of result) }
        ensures clean { KeepsDoubt S.Store conn (conn_of result) }
    {
        let mut conn = conn;
        knows_tables(&conn);
        leaves_committed(&conn);
        let _settled = conn.is_autocommit();
        match make_ready(&mut conn) {
            Ok(()) => {
                leaves_committed(&conn);
                Ok(StoredOffice {
                    conn,
                    failed: false,
                    known: Remembered::nothing(),
                })
            }
            Err(lost) => Err((lost, conn)),
        }
    }
}
