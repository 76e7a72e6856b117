//! How many messages of two sheets differ.
ghost use Rattle.std.specs.Prelude.{◌≡◌, count_by, is_none};
ghost use Rattle.dbc_sheet.specs.Pairs.{counts_of, has_changed, partner};

use crate::pairing::partner;
use crate::sheet::Sheet;

/// How many messages of a newer sheet differ from those of an older one.
#[derive(Clone, Copy, PartialEq, Eq)]
pub struct Counts {
    /// Those of the newer sheet that have no partner in the older one.
    pub added: usize,
    /// Those of the older sheet that have no partner in the newer one.
    pub removed: usize,
    /// Those of the newer sheet that aren't equal to their partners.
    pub changed: usize,
}

/// How many messages of the newer sheet differ from those of the older one. Takes no memory.
pub fn counts_of(old: &Sheet, new: &Sheet) -> Counts
    ensures { result ≡ counts_of old.now.messages new.now.messages }
{
    Counts {
        added: unpaired(old, new),
        removed: unpaired(new, old),
        changed: changed(old, new),
    }
}

/// How many messages of the sheet have no partner in the other one.
fn unpaired(other: &Sheet, sheet: &Sheet) -> usize
    ensures { result ≡ count_by (λ m. is_none (partner other.now.messages sheet.now.messages m))
        sheet.now.messages }
{
    let mut count = 0;
    for message in sheet.messages() {
        if partner(other, sheet, message).is_none() {
            count += 1;
        }
    }
    count
}

/// How many messages of the newer sheet aren't equal to their partners in the older one.
fn changed(old: &Sheet, new: &Sheet) -> usize
    ensures { result ≡ count_by
        (λ m. has_changed (partner old.now.messages new.now.messages m) m) new.now.messages }
{
    let mut count = 0;
    for message in new.messages() {
        if let Some(found) = partner(old, new, message) {
            if found != message {
                count += 1;
            }
        }
    }
    count
}
