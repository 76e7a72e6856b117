//! What is seen of a network.
ghost use Rattle.std.specs.Prelude.{◌≡◌};

use crate::frozen::FrozenSheets;
use base::Items;
use can_id::Ident;
use dbc_sheet::Sheet;
use office_types::{GrantedBlock, NetKind, NetName, Phase, ReviewCount, Team, UsedSpns};

/// What is seen of a network, with its suspect parameter numbers.
pub struct View {
    /// The network's name.
    pub name: NetName,
    /// Whether J1939 parameter groups are allotted.
    pub kind: NetKind,
    /// How many approvals a release needs.
    pub reviews: ReviewCount,
    /// Whether the network may be changed.
    pub phase: Phase,
    /// The live sheet.
    pub sheet: Sheet,
    /// The teams that own its messages, in their order.
    pub owners: Items<Team>,
    /// The granted blocks, by form and then by their first number; those of suspect parameter numbers are the last.
    pub blocks: Items<GrantedBlock>,
    /// The identifiers that are held, in ascending order of DBC number.
    pub held: Items<Ident>,
    /// The teams that approved of the network in this review.
    pub approvals: Items<Team>,
    /// The releases, from the first one on.
    pub releases: FrozenSheets,
    /// The suspect parameter numbers that were ever used, on any network.
    pub used: UsedSpns,
}

impl View {
    /// Its releases as sheets, from the first one on, moved out of it. Takes no memory.
    pub fn into_releases(self) -> Items<Sheet>
        ensures { result ≡ self.releases }
    {
        let View {
            name: _name,
            kind: _kind,
            reviews: _reviews,
            phase: _phase,
            sheet: _sheet,
            owners: _owners,
            blocks: _blocks,
            held: _held,
            approvals: _approvals,
            releases,
            used: _used,
        } = self;
        releases.into_items()
    }
}

impl Drop for View {
    fn drop(self) {
        let View {
            name: _name,
            kind: _kind,
            reviews: _reviews,
            phase: _phase,
            sheet: _sheet,
            owners: _owners,
            blocks: _blocks,
            held: _held,
            approvals: _approvals,
            releases: _releases,
            used: _used,
        } = self;
    }
}
