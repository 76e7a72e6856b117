//! Making the tables, in the one order that the trees' numbers hang on.
//!
//! Each answers the error of `sqlite` if there is one (memory ran out, the disk failed, the table is there). Then
//! nothing is committed, and the transaction is to be dropped, which rolls it back.
ghost use Rattle.std.specs.Prelude.{◌≡◌, ◌≢◌};
ghost use Rattle.store_tables.specs.Creating.{schema_before, schema_with, text_of};
ghost use Rattle.store_tables.specs.Schema.{office_schema, schema_13, schema_5, schema_9};
ghost use Rattle.store_tables.specs.Frames.{AddsTables, Extends, MakesFromNone, MakesNext, MakesOffice, OnlyWrites};
ghost use Rattle.store_tables.specs.declared.office_table.OfficeTable.TheVariants.{Statistics};

use crate::office_table::OfficeTable;
use sqlite::{Alter, Error, Transaction};

const PROFILE: &str = "CREATE TABLE profile (one INTEGER PRIMARY KEY, number INTEGER) STRICT";

const NET: &str =
    "CREATE TABLE net (name TEXT PRIMARY KEY, kind INTEGER, reviews INTEGER, phase INTEGER, submitter TEXT, frame BLOB) STRICT";

const MESSAGE: &str =
    "CREATE TABLE message (net TEXT, number INTEGER, name TEXT, owner TEXT, body BLOB, PRIMARY KEY (net, number), UNIQUE (net, name)) STRICT";

const BLOCK: &str =
    "CREATE TABLE block (net TEXT, form INTEGER, first INTEGER, last INTEGER, team TEXT, PRIMARY KEY (net, form, first)) STRICT";

const HELD: &str = "CREATE TABLE held (net TEXT, number INTEGER, PRIMARY KEY (net, number)) STRICT";

const SPN: &str = "CREATE TABLE spn (number INTEGER PRIMARY KEY) STRICT";

const APPROVAL: &str =
    "CREATE TABLE approval (net TEXT, team TEXT, PRIMARY KEY (net, team)) STRICT";

const FROZEN: &str =
    "CREATE TABLE frozen (net TEXT, number INTEGER, body BLOB, PRIMARY KEY (net, number)) STRICT";

const REPLY: &str =
    "CREATE TABLE reply (team TEXT, key TEXT, content BLOB, kind INTEGER, a INTEGER, b INTEGER, c INTEGER, PRIMARY KEY (team, key)) STRICT";

const MSG: &str =
    "CREATE TABLE msg (net TEXT, number INTEGER, name TEXT, owner TEXT, length INTEGER, sender TEXT, comment BLOB, PRIMARY KEY (net, number), UNIQUE (net, name)) STRICT";

const SIG: &str =
    "CREATE TABLE sig (net TEXT, number INTEGER, place INTEGER, name TEXT, start INTEGER, size INTEGER, motorola INTEGER, signed INTEGER, mux INTEGER, factor TEXT, shift TEXT, least TEXT, most TEXT, unit BLOB, comment BLOB, spn INTEGER, label INTEGER, PRIMARY KEY (net, number, place), UNIQUE (net, number, name)) STRICT";

const RECEIVER: &str =
    "CREATE TABLE receiver (net TEXT, number INTEGER, place INTEGER, seat INTEGER, name TEXT, PRIMARY KEY (net, number, place, seat)) STRICT";

const SIG_VALUE: &str =
    "CREATE TABLE sigvalue (net TEXT, number INTEGER, place INTEGER, seat INTEGER, value TEXT, words BLOB, PRIMARY KEY (net, number, place, seat)) STRICT";

const PART: &str =
    "CREATE TABLE part (team TEXT, key TEXT, place INTEGER, kind INTEGER, a INTEGER, b INTEGER, PRIMARY KEY (team, key, place)) STRICT";

/// The text that makes the table. The statistics have none, since SQLite makes them.
fn text_of(table: OfficeTable) -> &'static str
    requires { table ≢ Statistics }
    ensures { result.now ≡ text_of table }
{
    match table {
        OfficeTable::Profile => PROFILE,
        OfficeTable::Net => NET,
        OfficeTable::Message => MESSAGE,
        OfficeTable::Block => BLOCK,
        OfficeTable::Held => HELD,
        OfficeTable::Spn => SPN,
        OfficeTable::Approval => APPROVAL,
        OfficeTable::Frozen => FROZEN,
        OfficeTable::Reply => REPLY,
        OfficeTable::Msg => MSG,
        OfficeTable::Sig => SIG,
        OfficeTable::Receiver => RECEIVER,
        OfficeTable::SigValue => SIG_VALUE,
        OfficeTable::Part => PART,
        OfficeTable::Statistics => unreachable!("SQLite makes it"),
    }
}

/// Makes the table where those before it are the tables: where they have no row, it has none either, and where they
/// have rows, these stay.
fn create_table<S: Alter>(tx: &mut Transaction<'_, S>, table: OfficeTable) -> Result<(), Error>
    requires { table ≢ Statistics }
    ensures made { MakesNext S.Store tx.old tx.new result (schema_before table) (schema_with table) }
    ensures grown { AddsTables S.Store tx.old tx.new result (schema_before table) (schema_with table) }
    ensures extended { Extends S.Store tx.old tx.new result (schema_before table) (schema_with table) }
    ensures frame { OnlyWrites S.Store tx.old tx.new }
{
    tx.execute(text_of(table), &[])?;
    Ok(())
}

/// Makes `part` where the tables up to `sigvalue` are there.
pub fn create_part<S: Alter>(tx: &mut Transaction<'_, S>) -> Result<(), Error>
    ensures made { MakesNext S.Store tx.old tx.new result schema_13 office_schema }
    ensures grown { AddsTables S.Store tx.old tx.new result schema_13 office_schema }
    ensures extended { Extends S.Store tx.old tx.new result schema_13 office_schema }
    ensures frame { OnlyWrites S.Store tx.old tx.new }
{
    create_table(tx, OfficeTable::Part)
}

/// Makes `profile`, `net`, `message`, `block` and `held`.
fn make_net_tables<S: Alter>(tx: &mut Transaction<'_, S>) -> Result<(), Error>
    ensures made { MakesFromNone S.Store tx.old tx.new result schema_5 }
    ensures frame { OnlyWrites S.Store tx.old tx.new }
{
    create_table(tx, OfficeTable::Profile)?;
    create_table(tx, OfficeTable::Net)?;
    create_table(tx, OfficeTable::Message)?;
    create_table(tx, OfficeTable::Block)?;
    create_table(tx, OfficeTable::Held)
}

/// Makes `spn`, `approval`, `frozen` and `reply`.
fn make_reply_tables<S: Alter>(tx: &mut Transaction<'_, S>) -> Result<(), Error>
    ensures made { MakesNext S.Store tx.old tx.new result schema_5 schema_9 }
    ensures frame { OnlyWrites S.Store tx.old tx.new }
{
    create_table(tx, OfficeTable::Spn)?;
    create_table(tx, OfficeTable::Approval)?;
    create_table(tx, OfficeTable::Frozen)?;
    create_table(tx, OfficeTable::Reply)
}

/// Makes the tables of live messages and of bundles, after the others.
pub fn make_live_tables<S: Alter>(tx: &mut Transaction<'_, S>) -> Result<(), Error>
    ensures made { MakesNext S.Store tx.old tx.new result schema_9 office_schema }
    ensures grown { AddsTables S.Store tx.old tx.new result schema_9 office_schema }
    ensures frame { OnlyWrites S.Store tx.old tx.new }
{
    create_table(tx, OfficeTable::Msg)?;
    create_table(tx, OfficeTable::Sig)?;
    create_table(tx, OfficeTable::Receiver)?;
    create_table(tx, OfficeTable::SigValue)?;
    create_part(tx)
}

/// Makes the tables, each after those before it.
fn make_each<S: Alter>(tx: &mut Transaction<'_, S>) -> Result<(), Error>
    ensures made { MakesFromNone S.Store tx.old tx.new result office_schema }
    ensures frame { OnlyWrites S.Store tx.old tx.new }
{
    make_net_tables(tx)?;
    make_reply_tables(tx)?;
    make_live_tables(tx)
}

/// Makes all tables where there is none: they are the office's, with no row.
pub fn make_tables<S: Alter>(tx: &mut Transaction<'_, S>) -> Result<(), Error>
    ensures made { MakesOffice S.Store tx.old tx.new result }
    ensures frame { OnlyWrites S.Store tx.old tx.new }
{
    make_each(tx)
}
