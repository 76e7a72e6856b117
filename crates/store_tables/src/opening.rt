//! What a connection that was just opened shows of the tables.
ghost use Rattle.std.specs.Prelude.{◌≡◌, ◌↔◌, [], IsTrue};
ghost use Rattle.store_tables.specs.Schema.{no_schema};
ghost use Rattle.store_tables.specs.Tables.{AreOffice, IsOffice};
ghost use Rattle.sqlite.specs.Schema.{Schema as Tables};
ghost use Rattle.sqlite_catalog.specs.Listing.{IsSound};
ghost use Rattle.sqlite_trees.specs.Objects.{catalog_tree};
ghost use Rattle.sqlite.specs.Held.{state};

use sqlite::{Alter, Connection};

/// Whether there is no table, index or view, so that the tables can be made.
pub fn is_new<S: Alter>(conn: &Connection<S>) -> bool
    ensures { IsTrue result ↔ ((state S.Store conn.now).now.schema ≡ no_schema) }
{
    let schema = conn.schema();
    schema.tables.is_empty() && schema.indexes.is_empty() && schema.views.is_empty()
}

/// Does nothing. Its contract is a law: where the trees list the office's tables and keep to them, the connection has
/// these tables, since no other schema has the same list.
pub fn knows_schema<S: Alter>(conn: &Connection<S>)
    ensures { IsTrue (state S.Store conn.now).is_open
        → AreOffice (state S.Store conn.now).now.trees
        → IsOffice (state S.Store conn.now).now }
{
    let _schema = conn.schema();
}

/// Does nothing. Its contract is a law, the same of every schema: where the trees list its tables and keep to them, it
/// is the connection's. So an office's tables of an earlier time are known.
pub fn knows_tables<S: Alter>(conn: &Connection<S>)
    ensures { IsTrue (state S.Store conn.now).is_open → (schema : Tables)
        → IsSound schema (state S.Store conn.now).now.trees
        → (state S.Store conn.now).now.schema ≡ schema }
{
    let _schema = conn.schema();
}

/// Does nothing. Its contract is a law: where the trees list no table, as those of a blank file, the connection has
/// none.
pub fn knows_none<S: Alter>(conn: &Connection<S>)
    ensures { IsTrue (state S.Store conn.now).is_open
        → (state S.Store conn.now).now.trees catalog_tree ≡ []
        → (state S.Store conn.now).now.schema ≡ no_schema }
{
    let _schema = conn.schema();
}
