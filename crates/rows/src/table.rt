//! Lists.
ghost use Rattle.std.specs.Prelude.{◌≡◌, ◌++◌, ◌∷◌, [], IfOk, OnOk, length, map};
ghost use Rattle.rows.specs.Fact.{fact_of};
ghost use Rattle.rows.specs.Table.{headed, plain, totalled};

use crate::cell::{Cell, Column};
use base::Items;
use std::alloc::{AllocError, Global};
use std::marker::Model;

/// Rows of values. Contracts see them as lists of facts.
pub struct Rows<'a> {
    rows: Items<Items<Cell<'a>>>,
}

impl<'a> Model for Rows<'a> {
    ghost use Rattle.std.specs.Prelude.{List, map};
    ghost use Rattle.rows.specs.Fact.{Fact, fact_of};

    ghost Value = { List (List Fact) };

    ghost view = { λ r. map (map fact_of) r.rows };
}

impl<'a> Rows<'a> {
    /// No rows. Takes no memory.
    pub fn new(alloc: Global) -> Rows<'a>
        ensures { result ≡ [] }
    {
        Rows {
            rows: Items::new(alloc),
        }
    }

    /// Adds a row of these values. The error is out of memory.
    pub fn push(&mut self, cells: Vec<Cell<'a>>) -> Result<(), AllocError>
        ensures { OnOk result (self.new ≡ self.old ++ map fact_of cells.entry.items ∷ []) }
    {
        self.rows.push(Items::from_vec(cells))
    }

    /// How many there are.
    pub fn count(&self) -> usize
        ensures { result ≡ length self.now }
    {
        self.rows.as_slice().len()
    }

    /// The rows.
    pub(crate) fn as_slice(&self) -> &[Items<Cell<'a>>]
        ensures { map (map fact_of) result.now ≡ self.now }
    {
        self.rows.as_slice()
    }
}

impl Drop for Rows<'_> {
    fn drop(self) {
        let Rows { rows: _rows } = self;
    }
}

/// Rows under columns. Where a list has several kinds of rows, each has its name before it in a line, with the spaces that
/// stand after it there; else no name.
pub struct Kind<'a> {
    pub(crate) name: &'static [u8],
    pub(crate) columns: &'static [Column],
    pub(crate) rows: Rows<'a>,
}

impl<'a> Model for Kind<'a> {
    ghost use Rattle.rows.specs.Table.{Kind};

    ghost Value = { Kind };

    ghost view = { λ k. record { name = k.name.now; columns = k.columns.now; rows = k.rows } };
}

impl<'a> Kind<'a> {
    /// These rows of this kind, under these columns. Takes no memory.
    pub fn of(name: &'static [u8], columns: &'static [Column], rows: Rows<'a>) -> Kind<'a>
        ensures { result ≡ record { name = name.now; columns = columns.now; rows = rows.entry } }
    {
        Kind {
            name,
            columns,
            rows,
        }
    }
}

impl Drop for Kind<'_> {
    fn drop(self) {
        let Kind {
            name: _name,
            columns: _columns,
            rows: _rows,
        } = self;
    }
}

/// A list: a first row that stands upright, its kinds of rows, and a last row with its totals; the first and the last one
/// under columns of their own, which are none where there is no such row. Contracts see it as a `Listing`.
pub struct Table<'a> {
    pub(crate) head_columns: &'static [Column],
    pub(crate) head: Items<Cell<'a>>,
    pub(crate) kinds: Items<Kind<'a>>,
    pub(crate) total_columns: &'static [Column],
    pub(crate) totals: Items<Cell<'a>>,
}

impl<'a> Model for Table<'a> {
    ghost use Rattle.std.specs.Prelude.{map};
    ghost use Rattle.rows.specs.Fact.{fact_of};
    ghost use Rattle.rows.specs.Table.{Listing};

    ghost Value = { Listing };

    ghost view = { λ t. record {
      head_columns = t.head_columns.now;
      head = map fact_of t.head;
      kinds = t.kinds;
      total_columns = t.total_columns.now;
      totals = map fact_of t.totals;
    } };
}

impl<'a> Table<'a> {
    /// The list of these kinds, with these totals under these columns. Takes no memory.
    pub fn of(
        kinds: Vec<Kind<'a>>,
        total_columns: &'static [Column],
        totals: Vec<Cell<'a>>,
    ) -> Table<'a>
        ensures { result
            ≡ totalled kinds.entry.items total_columns.now (map fact_of totals.entry.items) }
    {
        let head = Items::new(*kinds.allocator());
        Table {
            head_columns: &[],
            head,
            kinds: Items::from_vec(kinds),
            total_columns,
            totals: Items::from_vec(totals),
        }
    }

    /// The list of this row, which stands upright under these columns, and of these kinds, without totals. Takes no
    /// memory.
    pub fn headed(
        head_columns: &'static [Column],
        head: Vec<Cell<'a>>,
        kinds: Vec<Kind<'a>>,
    ) -> Table<'a>
        ensures { result
            ≡ headed head_columns.now (map fact_of head.entry.items) kinds.entry.items }
    {
        let totals = Items::new(*head.allocator());
        Table {
            head_columns,
            head: Items::from_vec(head),
            kinds: Items::from_vec(kinds),
            total_columns: &[],
            totals,
        }
    }

    /// The list of these rows under these columns, with these totals under theirs. The error is out of memory.
    pub fn plain(
        alloc: Global,
        columns: &'static [Column],
        rows: Rows<'a>,
        total_columns: &'static [Column],
        totals: Vec<Cell<'a>>,
    ) -> Result<Table<'a>, AllocError>
        ensures { IfOk result (λ table. table
            ≡ plain columns.now rows.entry total_columns.now (map fact_of totals.entry.items)) }
    {
        let mut kinds = Vec::new(alloc);
        kinds.push(Kind::of(&[], columns, rows))?;
        Ok(Table::of(kinds, total_columns, totals))
    }
}

impl Drop for Table<'_> {
    fn drop(self) {
        let Table {
            head_columns: _head_columns,
            head: _head,
            kinds: _kinds,
            total_columns: _total_columns,
            totals: _totals,
        } = self;
    }
}
