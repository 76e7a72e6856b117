//! Releases as sheets.
ghost use Rattle.std.specs.Prelude.{◌≡◌, ◌≤◌, length, SomeIff};
ghost use Rattle.office_rules.specs.Reviewing.{release_limit};

use base::Items;
use dbc_sheet::Sheet;
use office_types::RELEASE_LIMIT;
use std::marker::Model;

/// The releases of a network, from the first one on: at most [`RELEASE_LIMIT`]. Contracts see them as the list of their
/// sheets.
pub struct FrozenSheets {
    sheets: Items<Sheet>,
}

impl Model for FrozenSheets {
    ghost use Rattle.std.specs.Prelude.{◌≤◌, List, length};
    ghost use Rattle.dbc_sheet.specs.declared.sheet.Sheet.{Sheet};
    ghost use Rattle.office_rules.specs.Reviewing.{release_limit};

    ghost Value = { List Sheet };

    ghost view = { λ frozen. frozen.sheets };

    ghost invariant = { λ frozen. length frozen.sheets ≤ release_limit };
}

impl FrozenSheets {
    /// These sheets, or `None` where they are more than [`RELEASE_LIMIT`]. Takes no memory.
    pub fn of(sheets: Items<Sheet>) -> Option<FrozenSheets>
        ensures { SomeIff result (length sheets ≤ release_limit) sheets }
    {
        if sheets.as_slice().len() <= RELEASE_LIMIT as usize {
            Some(FrozenSheets { sheets })
        } else {
            None
        }
    }

    /// The sheets, from the first release on.
    pub fn as_slice(&self) -> &[Sheet]
        ensures sheets { result.now ≡ self.now }
        ensures few { length self.now ≤ release_limit }
    {
        self.sheets.as_slice()
    }

    /// The sheets, from the first release on, moved out. Takes no memory.
    pub fn into_items(self) -> Items<Sheet>
        ensures { result ≡ self }
    {
        let FrozenSheets { sheets } = self;
        sheets
    }
}

impl Drop for FrozenSheets {
    fn drop(self) {
        let FrozenSheets { sheets: _sheets } = self;
    }
}
