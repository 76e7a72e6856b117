//! The rows of the profile, as the second profile has them.
ghost use Rattle.office_rules.specs.Profile.{One, Two};
ghost use Rattle.store_tables.specs.Frames.{Edits, OnlyWrites, Relates};
ghost use Rattle.store_migrate.specs.Carrying.{CarriesEach};
ghost use Rattle.store_migrate.specs.Forms.{HoldsAsRows, row_marks};

use sqlite::{Alter, Error, Transaction};
use store_statements::{clear_profile, insert_profile};

/// Puts the rows (1, 2) and (2, 2) in place of whatever rows the profile has. So tables of profile 1 that have live
/// messages as rows become tables of profile 2, with the same history. The error is `sqlite`'s.
pub fn renew_profile<S: Alter>(tx: &mut Transaction<'_, S>) -> Result<(), Error>
    ensures renewed { Edits S.Store tx.old tx.new result
        (λ t. record t { profile = row_marks Two }) }
    ensures held { Relates S.Store tx.old tx.new result (CarriesEach (HoldsAsRows One)) }
    ensures frame { OnlyWrites S.Store tx.old tx.new }
{
    clear_profile(tx)?;
    insert_profile(tx, 1, 2)?;
    insert_profile(tx, 2, 2)?;
    Ok(())
}
