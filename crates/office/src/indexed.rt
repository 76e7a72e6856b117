//! What an action reads of a network in memory that has an index: names and numbers are looked up in it.
ghost use Rattle.std.specs.Prelude.{◌≡◌, true, ℕ, List};
ghost use Rattle.office_facts.specs.By.{AreIdentFacts};
ghost use Rattle.office_facts.specs.Excerpt.{AreFacts, fits};
ghost use Rattle.office_facts.specs.FactsOf.{facts_of, number_facts_of};
ghost use Rattle.office_facts.specs.Scope.{scope_as};
ghost use Rattle.office_rules.specs.Facts.{is_held, is_live, is_wanted};
ghost use Rattle.office_rules.specs.Kept.{IsNet};
ghost use Rattle.office.specs.Indexed.{IsIndex, IsIndexIfThere};

use crate::looking_up::{facts_by, is_among, is_live};
use crate::net_index::NetIndex;
use can_id::{Ident, IdentForm};
use office_decide::{number_facts, retiring_facts, walk};
use office_facts::{Facts, NumberFacts, Scope, TakenNumbers};
use office_types::{Net, TakeIdent};

/// Whether the wanted identifier is live, and whether it is held.
fn is_live_or_held(net: &Net, form: IdentForm, want: Option<u32>) -> (bool, bool)
    requires { IsNet net.now }
    ensures live { result.0 ≡ is_wanted (is_live net.now) form want }
    ensures held { result.1 ≡ is_wanted (is_held net.now) form want }
{
    match want {
        None => (false, false),
        Some(number) => match Ident::new(form, number) {
            None => (false, false),
            Some(ident) => (
                is_live(net.live.as_slice(), &ident),
                is_among(net.held.as_slice(), &ident),
            ),
        },
    }
}

/// What the network has for a `take_ident`.
fn ident_facts<'a>(net: &'a Net, index: &'a NetIndex, take: &TakeIdent) -> NumberFacts<'a>
    requires net { IsNet net.now }
    requires index { IsIndex index.now net.now }
    ensures { (team : List ℕ) → AreIdentFacts team net.now take.now (number_facts_of result) }
{
    let named = index.names.contains_key(&take.message.name);
    let wanted = is_live_or_held(net, take.form, take.want);
    let taken = TakenNumbers::Ascending(index.numbers(take.form));
    number_facts(net, named, wanted, taken)
}

/// What the network has for the scope: by its index, where it has one, and else by a walk.
pub(crate) fn facts_for<'a>(
    net: &'a Net,
    index: &'a Option<NetIndex>,
    scope: &Scope<'_>,
) -> Facts<'a>
    requires net { IsNet net.now }
    requires index { IsIndexIfThere index.now net.now }
    ensures fits { fits (scope_as scope.now) (facts_of result) ≡ true }
    ensures facts { (team : List ℕ) → AreFacts team net.now (scope_as scope.now) (facts_of result) }
{
    match index {
        None => walk(net, scope),
        Some(index) => match scope {
            Scope::Message(name) => Facts::Message(facts_by(net, index, name)),
            Scope::Retiring(name) => retiring_facts(net, facts_by(net, index, name)),
            Scope::Idents(take) => Facts::Numbers(ident_facts(net, index, take)),
            _ => walk(net, scope),
        },
    }
}
