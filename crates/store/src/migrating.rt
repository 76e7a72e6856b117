//! Carrying tables of the first profile over to the second.
ghost use Rattle.std.specs.Prelude.{◌≡◌, ◌≢◌, IsTrue, OnOk};
ghost use Rattle.sqlite.specs.Held.{state};
ghost use Rattle.sqlite.specs.State.{Survives};
ghost use Rattle.store_tables.specs.Schema.{IsOfficeSchema};
ghost use Rattle.store_migrate.specs.FormSchema.{schema_of};
ghost use Rattle.store_migrate.specs.InForm.{first_profile_rows};
ghost use Rattle.store_migrate.specs.declared.forms.SchemaForm.{SchemaForm as FormOf};
ghost use Rattle.store.specs.Calls.{IsSettled, KeepsDoubt};
ghost use Rattle.store.specs.Making.{CommitsOnOk, HasSchema, KeepsCommitOnErr, KeepsOthers, LeavesNew};
ghost use Rattle.store.specs.Making.{MakesCurrentOnOk, NotCurrentOnErr, OnForm};
ghost use Rattle.store.specs.Opening.{IsCarried, MayCarry, MayMigrate};
ghost use Rattle.store.specs.OpensAs.{LeavesInForm, Migrates, conn_of};

use crate::lost::Lost;
use crate::opening::{complete, is_office, leaves_committed, refuse, start};
use crate::stored_office::StoredOffice;
use sqlite::{Alter, Connection, Error};
use std::alloc::Global;
use store_looks::Remembered;
use store_migrate::{ProfileRows, SchemaForm, Watch, carry, form_of, read_profile_rows};
use store_tables::{is_new, knows_tables};

/// Carries tables whose profile is the first over, in one transaction. Where there is an error they are as before.
fn carry_all<S: Alter, W: Watch>(
    alloc: Global,
    conn: &mut Connection<S>,
    marks: ProfileRows,
    watch: &mut W,
) -> Result<(), Error>
    requires { IsSettled S.Store conn.old }
    ensures autocommit { IsSettled S.Store conn.new }
    ensures carried { OnForm S.Store conn.old conn.new (λ form.
        CommitsOnOk S.Store conn.new result (IsCarried form (state S.Store conn.old).now.trees)) }
    ensures matched { (form : FormOf) → form ≢ SchemaForm.Foreign
        → HasSchema S.Store conn.old (schema_of form)
        → OnOk result (marks ≡ first_profile_rows form) }
    ensures back { OnForm S.Store conn.old conn.new (λ form. IsTrue (state S.Store conn.new).is_open
        → KeepsCommitOnErr S.Store conn.old conn.new result) }
    ensures survives { Survives (state S.Store conn.old) (state S.Store conn.new)
        (MayCarry (state S.Store conn.old).now) }
{
    let form = form_of(conn);
    let mut tx = conn.transaction();
    carry(alloc, &mut tx, marks, form, watch)?;
    tx.commit()
}

/// Makes the tables where there are none, and makes those of an earlier office the tables of now.
fn make_current<S: Alter, W: Watch>(
    alloc: Global,
    conn: &mut Connection<S>,
    watch: &mut W,
) -> Result<(), Lost>
    requires { IsSettled S.Store conn.old }
    ensures autocommit { IsSettled S.Store conn.new }
    ensures current { MakesCurrentOnOk S.Store conn.old conn.new result }
    ensures not_current { NotCurrentOnErr S.Store conn.old conn.new result }
    ensures others { KeepsOthers S.Store conn.old conn.new }
    ensures new_survives { LeavesNew S.Store conn.old conn.new }
    ensures survives { IsOfficeSchema (state S.Store conn.old).now.schema
        → Survives (state S.Store conn.old) (state S.Store conn.new)
        (MayMigrate (state S.Store conn.old).now) }
    ensures clean { KeepsDoubt S.Store conn.old conn.new }
{
    if is_new(conn) {
        return start(conn);
    }
    if !is_office(conn) {
        return refuse(conn);
    }
    match read_profile_rows(conn)? {
        ProfileRows::Second => complete(conn),
        ProfileRows::Newer => Err(Lost::NewerProfile),
        ProfileRows::Foreign => Err(Lost::Store),
        older => {
            carry_all(alloc, conn, older, watch)?;
            Ok(())
        }
    }
}

impl<S: Alter> StoredOffice<S> {
    /// Opens the office on the connection as [`StoredOffice::open`] does, and carries tables of the first profile over
    /// before: with the same history and every kept reply, in one transaction, so that a crash leaves the old tables or
    /// the new. Where it is lost, the tables are as before, and the connection is given back; [`Lost::NewerProfile`]
    /// where they are of a profile that isn't known here. Tables of something else stay, as there.
    pub fn migrate<W: Watch>(
        alloc: Global,
        conn: Connection<S>,
        watch: &mut W,
    ) -> Result<StoredOffice<S>, (Lost, Connection<S>)>
        requires { IsSettled S.Store conn }
        ensures opened { Migrates S.Store conn result }
        ensures others { KeepsOthers S.Store conn (conn_of result) }
        ensures left { LeavesInForm S.Store conn (conn_of result) }
        ensures clean { KeepsDoubt S.Store conn (conn_of result) }
    {
        let mut conn = conn;
        knows_tables(&conn);
        leaves_committed(&conn);
        let _settled = conn.is_autocommit();
        match make_current(alloc, &mut conn, watch) {
            Ok(()) => {
                leaves_committed(&conn);
                Ok(StoredOffice {
                    conn,
                    failed: false,
                    known: Remembered::nothing(),
                })
            }
            Err(lost) => Err((lost, conn)),
        }
    }
}
