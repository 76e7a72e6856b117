//! Value tables, and texts for values.
ghost use Rattle.std.specs.List.{flat_map};
ghost use Rattle.markup.specs.Writing.{Becomes, adding};
ghost use Rattle.page_messages.specs.Tables.{later_values, table_row, texts_html, value_html, values_html, with_tables};

use dbc_sheet::{ValueTable, ValueText};
use markup::{Markup, Tag};
use page_parts::{open_fold, open_part, open_table, put_count, put_decimal, put_isolated};

/// How many texts of a table aren't folded.
const SHOWN_TEXTS: usize = 64;

/// Adds a value with its text.
fn put_value(page: &mut Markup, value: &ValueText)
    ensures { Becomes page.new (adding (value_html value.now) page.old) }
{
    put_decimal(page, &value.value);
    page.text("\u{a0}".as_bytes());
    put_isolated(page, value.text.as_bytes());
}

/// Adds values with their texts, each after a comma.
fn put_later_values(page: &mut Markup, values: &[ValueText])
    ensures { Becomes page.new (adding (later_values values.now) page.old) }
{
    for value in values {
        page.text(b", ");
        put_value(page, value);
    }
}

/// Adds the values with their texts, with commas between.
fn put_values(page: &mut Markup, values: &[ValueText])
    ensures { Becomes page.new (adding (values_html values.now) page.old) }
{
    if let [first, later @ ..] = values {
        put_value(page, first);
        put_later_values(page, later);
    }
}

/// Adds the values with their texts, folded if they are more than so many.
pub(crate) fn put_texts(page: &mut Markup, values: &[ValueText], most: usize)
    ensures { Becomes page.new (adding (texts_html most values.now) page.old) }
{
    if values.len() <= most {
        put_values(page, values);
        return;
    }
    open_fold(page, false);
    put_count(page, values.len(), b"text");
    page.close();
    put_values(page, values);
    page.close();
}

/// Adds the row of a table.
fn put_table_row(page: &mut Markup, table: &ValueTable)
    ensures { Becomes page.new (adding (table_row table.now) page.old) }
{
    page.open(Tag::Row, &[]);
    page.element(Tag::HeadCell, &[], table.name.as_bytes());
    page.open(Tag::Cell, &[]);
    put_texts(page, table.entries.as_slice(), SHOWN_TEXTS);
    page.close();
    page.close();
}

/// Adds a row for each table.
fn put_table_rows(page: &mut Markup, tables: &[ValueTable])
    ensures { Becomes page.new (adding (flat_map table_row tables.now) page.old) }
{
    for table in tables {
        put_table_row(page, table);
    }
}

/// Adds the part with the value tables, if there are some.
pub fn put_tables(page: &mut Markup, tables: &[ValueTable])
    ensures { Becomes page.new (with_tables tables.now page.old) }
{
    if tables.is_empty() {
        return;
    }
    open_part(page, b"tables", b"Value tables", None);
    open_table(page, b"list", &[b"Table", b"Texts"]);
    put_table_rows(page, tables);
    page.close();
    page.close();
    page.close();
}
