//! Tables that an earlier office lacks, and what they have carried over.
ghost use Rattle.std.specs.Prelude.{◌≡◌, OnOk};
ghost use Rattle.office_rules.specs.Profile.{One};
ghost use Rattle.store_tables.specs.Frames.{OnlyWrites};
ghost use Rattle.store_tables.specs.Schema.{office_schema, schema_9, schema_13};
ghost use Rattle.store_migrate.specs.Carrying.{BecomesOffice, CarriesFrom};
ghost use Rattle.store_migrate.specs.Forms.{HoldsAsBodies, HoldsAsRows};
ghost use Rattle.store_migrate.specs.FormSchema.{current_schema_of, schema_of};
ghost use Rattle.store_migrate.specs.InForm.{HoldsAs, first_profile_rows};

use crate::carrying::carry_over;
use crate::forms::SchemaForm;
use crate::profile_rows::ProfileRows;
use crate::renewing::renew_profile;
use crate::watch::Watch;
use sqlite::{Alter, Error, Transaction};
use std::alloc::Global;
use store_tables::{create_part, make_live_tables};

/// Makes the tables that the first offices lack, and carries their live messages over: tables of theirs that hold a
/// history become all of the office's, and hold it as rows under profile 2. The errors are those of [`carry_over`].
pub fn carry_bodies<S: Alter, W: Watch>(
    alloc: Global,
    tx: &mut Transaction<'_, S>,
    watch: &mut W,
) -> Result<(), Error>
    ensures held { CarriesFrom S.Store tx.old tx.new result schema_9 HoldsAsBodies }
    ensures frame { BecomesOffice S.Store tx.old tx.new result schema_9 office_schema }
{
    make_live_tables(tx)?;
    carry_over(alloc, tx, watch)
}

/// Makes the table of bundles' parts, and renews the profile: tables without it that hold a history as rows under
/// profile 1 become all of the office's, and hold it under profile 2. The errors are those of [`renew_profile`].
pub fn carry_rows<S: Alter>(tx: &mut Transaction<'_, S>) -> Result<(), Error>
    ensures held { CarriesFrom S.Store tx.old tx.new result schema_13 (HoldsAsRows One) }
    ensures frame { BecomesOffice S.Store tx.old tx.new result schema_13 office_schema }
    ensures writes { OnlyWrites S.Store tx.old tx.new }
{
    create_part(tx)?;
    renew_profile(tx)
}

/// Carries tables of the first profile over, in a transaction, by what their profile says and which they are. An error
/// is out of memory, what `sqlite` answers, or `InvalidQuery` where rows are no office's, or the tables aren't those
/// that the profile speaks of (`matched`).
pub fn carry<S: Alter, W: Watch>(
    alloc: Global,
    tx: &mut Transaction<'_, S>,
    marks: ProfileRows,
    form: SchemaForm,
    watch: &mut W,
) -> Result<(), Error>
    ensures held { CarriesFrom S.Store tx.old tx.new result (schema_of form) (HoldsAs One form) }
    ensures matched { OnOk result (marks ≡ first_profile_rows form) }
    ensures frame { BecomesOffice S.Store tx.old tx.new result (schema_of form)
        (current_schema_of form) }
{
    match (marks, form) {
        (ProfileRows::Bodies, SchemaForm::Bodies) => carry_bodies(alloc, tx, watch),
        (ProfileRows::First, SchemaForm::Rows) => carry_rows(tx),
        (ProfileRows::First, SchemaForm::All) => renew_profile(tx),
        (ProfileRows::First, SchemaForm::Analyzed) => renew_profile(tx),
        _ => Err(Error::InvalidQuery),
    }
}
