//! The columns of an office's tables, as those of a database are compared with them.

use sqlite_schema::schema::Kind;

/// A column of an office's table, by its name and type. The table is STRICT but for an untyped column, no column has
/// a default, and each compares texts byte by byte.
#[derive(Clone, Copy, PartialEq, Eq)]
pub(crate) enum OfficeColumn {
    /// One of the key, which takes no NULL.
    Key(&'static [u8], Kind),
    /// Another one, or the rowid.
    Other(&'static [u8], Kind),
    /// One of a table of SQLite's own, which takes any value.
    Untyped(&'static [u8]),
}
