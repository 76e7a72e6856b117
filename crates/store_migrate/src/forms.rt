//! Which tables there are.
ghost use Rattle.std.specs.Prelude.{◌≡◌, ◌≢◌};
ghost use Rattle.sqlite.specs.Held.{state};
ghost use Rattle.store_migrate.specs.FormSchema.{schema_of};
ghost use Rattle.store_migrate.specs.declared.forms.SchemaForm.{SchemaForm as FormOf};

use sqlite::{Alter, Connection};
use store_tables::is_begun;

/// The tables of an office of some time.
#[derive(Clone, Copy, PartialEq, Eq)]
pub enum SchemaForm {
    /// The nine tables of the first offices, whose live messages are bodies.
    Bodies,
    /// The thirteen with rows for live messages, of offices that knew no bundles.
    Rows,
    /// All fourteen.
    All,
    /// All fourteen, and after them the statistics of ANALYZE.
    Analyzed,
    /// Other tables, or others beside them: no office's.
    Foreign,
}

/// Which tables the connection has: those of a form exactly if they are its tables as canoffice makes them, with no
/// table, index, view or trigger beside them but for the statistics.
pub fn form_of<S: Alter>(conn: &Connection<S>) -> SchemaForm
    ensures known { (form : FormOf) → form ≢ SchemaForm.Foreign
        → (state S.Store conn.now).now.schema ≡ schema_of form → result ≡ form }
    ensures exact { result ≢ SchemaForm.Foreign
        → (state S.Store conn.now).now.schema ≡ schema_of result }
{
    let schema = conn.schema();
    if !is_begun(schema) {
        return SchemaForm::Foreign;
    }
    match (schema.tables.len(), schema.indexes.len()) {
        (9, 8) => SchemaForm::Bodies,
        (13, 14) => SchemaForm::Rows,
        (14, 15) => SchemaForm::All,
        (15, 15) => SchemaForm::Analyzed,
        _ => SchemaForm::Foreign,
    }
}
