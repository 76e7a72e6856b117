//! What an action reads of a network in memory, found by a walk over it.
ghost use Rattle.std.specs.Prelude.{◌≡◌, [], true, ℕ, List};
ghost use Rattle.can_id.specs.Ident.{ident_of};
ghost use Rattle.office_facts.specs.Excerpt.{AreFacts, fits};
ghost use Rattle.office_facts.specs.FactsOf.{facts_of, message_facts_of, number_facts_of, taken_by};
ghost use Rattle.office_facts.specs.Scope.{Retiring, scope_as};
ghost use Rattle.office_rules.specs.Facts.{group_facts, ident_facts, is_held, is_live, message_facts};

use can_id::{Ident, IdentForm};
use office_facts::{
    Facts, MessageFacts, NumberFacts, Scope, TakenNumbers, has_ident, ident_is, is_full, is_named,
    message_facts, was_released,
};
use office_types::{Net, TakeIdent, TakePgn};

/// What a `retire` reads of a network that has these facts for the message.
pub fn retiring_facts<'a>(net: &Net, facts: MessageFacts<'a>) -> Facts<'a>
    ensures fits { (name : List ℕ) → fits (Retiring name) (facts_of result) ≡ true }
    ensures facts { (team name : List ℕ) → message_facts_of facts.entry ≡ message_facts net.now name
        → AreFacts team net.now (Retiring name) (facts_of result) }
{
    let released = match facts.found {
        None => false,
        Some(live) => was_released(net.releases.as_slice(), &live.message.ident),
    };
    Facts::Retiring(facts, released)
}

/// What a command that gives out a number reads of the network, where these are the name and the wanted identifier.
pub fn number_facts<'a>(
    net: &'a Net,
    named: bool,
    wanted: (bool, bool),
    taken: TakenNumbers<'a>,
) -> NumberFacts<'a>
    ensures { number_facts_of result ≡ record (group_facts net.now []) {
      named = named;
      want_live = wanted.0;
      want_held = wanted.1;
      taken = taken_by taken.entry;
    } }
{
    let (want_live, want_held) = wanted;
    NumberFacts {
        kind: net.head.kind,
        phase: &net.head.phase,
        nodes: net.head.frame.nodes(),
        blocks: net.blocks.as_slice(),
        named,
        full: is_full(net),
        want_live,
        want_held,
        taken,
    }
}

/// Whether a live message has the identifier of this form and number, and whether it is held.
fn is_live_or_held(net: &Net, form: IdentForm, number: u32) -> (bool, bool)
    ensures live { result.0 ≡ is_live net.now (ident_of form number) }
    ensures held { result.1 ≡ is_held net.now (ident_of form number) }
{
    let live = net.live.as_slice();
    (
        live.iter()
            .any(|live| ident_is(live.message.ident, form, number)),
        has_ident(net.held.as_slice(), form, number),
    )
}

/// What the network has for a `take_ident`.
fn ident_facts<'a>(net: &'a Net, take: &TakeIdent) -> NumberFacts<'a>
    ensures { number_facts_of result
        ≡ ident_facts net.now take.now.message.name take.now.form take.now.want }
{
    let form = take.form;
    let wanted = match take.want {
        None => (false, false),
        Some(number) => is_live_or_held(net, form, number),
    };
    let named = is_named(net, &take.message.name);
    number_facts(net, named, wanted, TakenNumbers::Idents(net, form))
}

/// What it has for a `take_pgn`, which wants no number.
fn group_facts<'a>(net: &'a Net, take: &TakePgn) -> NumberFacts<'a>
    ensures { number_facts_of result ≡ group_facts net.now take.now.message.name }
{
    let named = is_named(net, &take.message.name);
    number_facts(net, named, (false, false), TakenNumbers::Groups(net))
}

/// What the network has for the scope. Takes no memory.
pub fn walk<'a>(net: &'a Net, scope: &Scope<'_>) -> Facts<'a>
    ensures fits { fits (scope_as scope.now) (facts_of result) ≡ true }
    ensures facts { (team : List ℕ) → AreFacts team net.now (scope_as scope.now) (facts_of result) }
{
    match scope {
        Scope::Head => Facts::Head(&net.head),
        Scope::Parts => Facts::Parts(&net.head, net.blocks.as_slice()),
        Scope::Message(name) => Facts::Message(message_facts(net, name)),
        Scope::Retiring(name) => retiring_facts(net, message_facts(net, name)),
        Scope::Idents(take) => Facts::Numbers(ident_facts(net, take)),
        Scope::Groups(take) => Facts::Numbers(group_facts(net, take)),
        Scope::Whole => Facts::Whole(net),
    }
}
