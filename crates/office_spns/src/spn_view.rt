//! What is seen of a network, with what finds its suspect parameter numbers.
ghost use Rattle.std.specs.Prelude.{◌≡◌, ◌≤◌, IfOk, length};
ghost use Rattle.office_rules.specs.Reviewing.{release_limit};

use crate::spn_index::SpnIndex;
use base::Items;
use dbc_sheet::Sheet;
use office_seen::View;
use std::alloc::{AllocError, Global};
use std::marker::Model;

/// The indices of the sheets.
fn indices<'a>(alloc: Global, sheets: &'a [Sheet]) -> Result<Items<SpnIndex<'a>>, AllocError>
    ensures { IfOk result (λ indices. indices ≡ sheets.now) }
{
    let mut indices = Vec::with_capacity(alloc, sheets.len())?;
    for sheet in sheets {
        indices.push(SpnIndex::of(alloc, sheet)?)?;
    }
    Ok(Items::from_vec(indices))
}

/// What is seen of a network, with an index of the suspect parameter numbers of each sheet. Contracts see it as what is
/// seen.
pub struct SpnView<'a> {
    view: &'a View,
    live: SpnIndex<'a>,
    releases: Items<SpnIndex<'a>>,
}

impl<'a> Model for SpnView<'a> {
    ghost use Rattle.std.specs.Prelude.{◌≡◌, ◌≤◌, length};
    ghost use Rattle.office_rules.specs.Reviewing.{release_limit};
    ghost use Rattle.office_seen.specs.declared.view.View.{View};

    ghost Value = { View };

    ghost view = { λ s. s.view.now };

    ghost invariant = { λ s. (s.live ≡ s.view.now.sheet) × (s.releases ≡ s.view.now.releases)
        × (length s.releases ≤ release_limit) };
}

impl<'a> SpnView<'a> {
    /// The view with its indices. The error is out of memory.
    pub fn of(alloc: Global, view: &'a View) -> Result<SpnView<'a>, AllocError>
        ensures { IfOk result (λ indexed. indexed ≡ view.now) }
    {
        Ok(SpnView {
            view,
            live: SpnIndex::of(alloc, &view.sheet)?,
            releases: indices(alloc, view.releases.as_slice())?,
        })
    }

    /// What is seen of the network.
    pub(crate) fn view(&self) -> &'a View
        ensures { result.now ≡ self.now }
    {
        self.view
    }

    /// The index of the live sheet.
    pub(crate) fn live(&self) -> &SpnIndex<'a>
        ensures { result.now ≡ self.now.sheet }
    {
        &self.live
    }

    /// The indices of the releases, from the first one on.
    pub(crate) fn releases(&self) -> &[SpnIndex<'a>]
        ensures indices { result.now ≡ self.now.releases }
        ensures few { length self.now.releases ≤ release_limit }
    {
        self.releases.as_slice()
    }
}

impl Drop for SpnView<'_> {
    fn drop(self) {
        let SpnView {
            view: _view,
            live: _live,
            releases: _releases,
        } = self;
    }
}
