//! The least number of a team's blocks that isn't taken.
ghost use Rattle.std.specs.Prelude.{◌≡◌, true, IfOk, IfSome};
ghost use Rattle.office_types.specs.Free.{has_form, least_free};
ghost use Rattle.office_rules.specs.Facts.{blocks_of};
ghost use Rattle.office_facts.specs.FactsOf.{number_facts_of};

use office_facts::{NumberFacts, blocks_of};
use office_types::{BlockForm, NumberForm, Team};
use std::alloc::{AllocError, Global};

/// The least number of the team's blocks that has the form and isn't taken, if there is one. The error is out of
/// memory.
pub(crate) fn least_of_team(
    alloc: Global,
    facts: &NumberFacts<'_>,
    team: &Team,
    block_form: BlockForm,
    form: NumberForm,
) -> Result<Option<u32>, AllocError>
    ensures least { IfOk result (λ least. least ≡ least_free (number_facts_of facts.now).taken
        (blocks_of (number_facts_of facts.now).blocks team.now block_form) form) }
    ensures formed { IfOk result (λ least. IfSome least (λ n. has_form form n ≡ true)) }
{
    let blocks = blocks_of(alloc, facts.blocks, team, block_form)?;
    facts.taken.least_free(alloc, &blocks, form)
}
