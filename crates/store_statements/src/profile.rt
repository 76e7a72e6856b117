//! The profile of the tables.
ghost use Rattle.std.specs.Prelude.{[], length, ◌≡◌};
ghost use Rattle.sqlite.specs.Tree.{put_row};
ghost use Rattle.store_tables.specs.Selected.{IsSelected};
ghost use Rattle.store_statements.specs.Rows.{is_any, mark_row};
ghost use Rattle.store_statements.specs.Shown.{profile_order, profile_shown};
ghost use Rattle.store_tables.specs.Frames.{Asks, Edits, OnlyWrites};
ghost use Rattle.store_statements.specs.Alone.{AsksAlone, ReadsAlone};

use sqlite::types::ToSql;
use sqlite::{Alter, Connection, Error, Row, Transaction};

/// Adds a row of the profile. Gives 1. An error where its key, `one`, is there.
pub fn insert_profile<S: Alter>(
    tx: &mut Transaction<'_, S>,
    one: u32,
    number: u32,
) -> Result<usize, Error>
    ensures added { Edits S.Store tx.old tx.new result
        (λ t. record t { profile = put_row (mark_row one number) t.profile }) }
    ensures rows { Asks S.Store tx.old tx.new result (λ rows t. rows ≡ 1) }
    ensures frame { OnlyWrites S.Store tx.old tx.new }
{
    tx.execute(
        "INSERT INTO profile VALUES (?1, ?2)",
        &[one.to_sql(), number.to_sql()],
    )
}

/// Removes all rows of the profile. Gives how many rows it removed.
pub fn clear_profile<S: Alter>(tx: &mut Transaction<'_, S>) -> Result<usize, Error>
    ensures removed { Edits S.Store tx.old tx.new result (λ t. record t { profile = [] }) }
    ensures rows { Asks S.Store tx.old tx.new result (λ rows t. rows ≡ length t.profile) }
    ensures frame { OnlyWrites S.Store tx.old tx.new }
{
    tx.execute("DELETE FROM profile", &[])
}

/// The rows of the profile (`one`, `number`), read outside a transaction: they show of which time the tables are. The
/// text means the same under each schema that an office of some time has (`IsOfficeSchema`), so it may be read before
/// it is known which of them the tables have.
pub fn select_profile<S: Alter>(conn: &mut Connection<S>) -> Result<Vec<Row>, Error>
    ensures found { AsksAlone S.Store conn.old conn.new result (λ rows t.
        IsSelected is_any profile_shown profile_order t.profile rows.items) }
    ensures frame { ReadsAlone S.Store conn.old conn.new result }
{
    conn.query_all("SELECT one, number FROM profile ORDER BY one", &[])
}
