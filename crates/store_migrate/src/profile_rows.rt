//! What the profile says of tables.
ghost use Rattle.std.specs.Prelude.{◌≡◌, ◌<◌, ◌↔◌, false, length, IsTrue};
ghost use Rattle.store_statements.specs.Alone.{AsksAlone, ReadsAlone};
ghost use Rattle.store_statements.specs.Rows.{mark_row};
ghost use Rattle.sqlite.specs.Held.{state};
ghost use Rattle.sqlite.specs.Order.{column};
ghost use Rattle.sqlite.specs.declared.types.Value.TheVariants.{Int};
ghost use Rattle.store_migrate.specs.ProfileRows.{AreProfileRows, HasProfileRows, IsKnownProfileRow};

use sqlite::types::ValueRef;
use sqlite::{Alter, Connection, Error, Row};
use store_statements::select_profile;

/// What the rows of the profile say.
#[derive(Clone, Copy, PartialEq, Eq)]
pub enum ProfileRows {
    /// Profile 1, with live messages as bodies: the row (1, 1) alone.
    Bodies,
    /// Profile 1, with live messages as rows: (1, 1) and (2, 2).
    First,
    /// Profile 2: (1, 2) and (2, 2).
    Second,
    /// A profile that isn't known here: a row other than these three.
    Newer,
    /// No profile: rows that are known, but not together.
    Foreign,
}

/// Whether the row has the number in the column.
fn has_number(row: &Row, at: usize, number: i64) -> bool
    ensures { IsTrue result ↔ ((at < length row.now) × (column row.now at ≡ Int number)) }
{
    match row.get_ref(at) {
        Ok(ValueRef::Int(found)) => found == number,
        _ => false,
    }
}

/// Whether the row is (`one`, `number`).
fn is_mark(row: &Row, one: u8, number: u8) -> bool
    ensures { IsTrue result ↔ (row.now ≡ mark_row one number) }
{
    row.column_count() == 2
        && has_number(row, 0, i64::from(one))
        && has_number(row, 1, i64::from(number))
}

fn is_known(row: &Row) -> bool
    ensures { IsTrue result ↔ IsKnownProfileRow row.now }
{
    is_mark(row, 1, 1) || is_mark(row, 1, 2) || is_mark(row, 2, 2)
}

/// What the rows say, which are in ascending order of their keys.
pub fn profile_rows_of(rows: &[Row]) -> ProfileRows
    ensures { AreProfileRows rows.now result }
{
    if !rows.iter().all(|row| is_known(row)) {
        return ProfileRows::Newer;
    }
    match rows {
        [only] if is_mark(only, 1, 1) => ProfileRows::Bodies,
        [one, two] if is_mark(one, 1, 1) && is_mark(two, 2, 2) => ProfileRows::First,
        [one, two] if is_mark(one, 1, 2) && is_mark(two, 2, 2) => ProfileRows::Second,
        _ => ProfileRows::Foreign,
    }
}

/// Reads what the profile says, outside a transaction. The error is `sqlite`'s.
pub fn read_profile_rows<S: Alter>(conn: &mut Connection<S>) -> Result<ProfileRows, Error>
    requires { (state S.Store conn.old).in_transaction ≡ false }
    ensures autocommit { (state S.Store conn.new).in_transaction ≡ false }
    ensures found { AsksAlone S.Store conn.old conn.new result (λ marks t. HasProfileRows t marks) }
    ensures frame { ReadsAlone S.Store conn.old conn.new result }
{
    let rows = select_profile(conn)?;
    Ok(profile_rows_of(&rows))
}
