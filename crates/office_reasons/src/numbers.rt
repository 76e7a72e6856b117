//! Refusals about numbers, and about the names of new messages.
ghost use Rattle.std.specs.Prelude.{◌≡◌, IfOk, find, string_bytes};
ghost use Rattle.std.specs.Option.{option_copied};
ghost use Rattle.office_rules.specs.Facts.{has_ident};
ghost use Rattle.office_reasons.specs.Numbers.{beyond_form_text, live_text, no_spn_text, takes, there_text};

use crate::blocks::{block_with, nearest, ranges_text, team_blocks};
use crate::case::{Case, Told, told};
use crate::networks::limit_text;
use crate::pieces::{ident_text, range_text, shown};
use crate::releases::{Released, first_with, last_with};
use can_id::{Ident, IdentForm};
use dbc_words::{MESSAGE_LIMIT, SPN_LIMIT};
use office_facts::{group_of, lies_in, number_in, same_ident};
use office_types::{Block, BlockForm, LiveMessage, Net, NumberForm, Pdu, TakePgn, least_free};
use std::alloc::{AllocError, Global};

/// Numbers that an identifier takes: of these blocks its own, if it has the form, or that of its parameter group, if
/// the group has the form.
#[derive(Clone, Copy)]
pub(crate) enum Pool<'a> {
    Idents(IdentForm, &'a [Block]),
    Groups(NumberForm, &'a [Block]),
}

/// Whether the identifier takes one of the numbers.
fn takes(pool: Pool<'_>, ident: Ident) -> bool
    ensures { result ≡ takes pool.entry ident }
{
    match pool {
        Pool::Idents(form, blocks) => match number_in(form, ident) {
            Some(number) => lies_in(number, blocks),
            None => false,
        },
        Pool::Groups(form, blocks) => match group_of(ident) {
            Some(pgn) => form.has(pgn) && lies_in(pgn, blocks),
            None => false,
        },
    }
}

/// How many live messages and how many held identifiers take one of the numbers.
fn takers_text(alloc: Global, net: &Net, pool: Pool<'_>) -> Result<String, AllocError> {
    let live = net
        .live
        .as_slice()
        .iter()
        .filter(|live| takes(pool, live.message.ident))
        .count();
    let held = net
        .held
        .as_slice()
        .iter()
        .filter(|held| takes(pool, **held))
        .count();
    format!(in alloc; "live messages: {live}, held identifiers: {held}")
}

/// That each identifier of the team's blocks of the form is live or held.
pub(crate) fn idents_taken(case: &Case<'_>, form: IdentForm) -> Result<String, AllocError> {
    let blocks = team_blocks(case, BlockForm::of_identifiers(form))?;
    let ranges = ranges_text(case.alloc, &blocks)?;
    let ranges = ranges.as_str();
    let takers = takers_text(case.alloc, case.net, Pool::Idents(form, &blocks))?;
    let takers = takers.as_str();
    let form = form.word();
    let team = shown(case.team.as_bytes());
    format!(in case.alloc; "every number of {form} {ranges} of team {team} is taken ({takers})")
}

/// That the team's blocks have no parameter group of the form, or that each one is taken.
pub(crate) fn groups_taken(case: &Case<'_>, take: &TakePgn) -> Result<String, AllocError> {
    let alloc = case.alloc;
    let blocks = team_blocks(case, BlockForm::Pgn)?;
    let ranges = ranges_text(alloc, &blocks)?;
    let ranges = ranges.as_str();
    let word = take.pdu.word();
    let form = take.pdu.number_form();
    let team = shown(case.team.as_bytes());
    if least_free(&[], &blocks, form).is_none() {
        return format!(in alloc; "pgn {ranges} of team {team} has no {word} PGN");
    }
    let takers = takers_text(alloc, case.net, Pool::Groups(form, &blocks))?;
    let takers = takers.as_str();
    format!(in alloc; "every {word} PGN of pgn {ranges} of team {team} is taken ({takers})")
}

/// That each suspect parameter number of the team's blocks was used.
pub(crate) fn spns_used(case: &Case<'_>) -> Result<String, AllocError> {
    let blocks = team_blocks(case, BlockForm::Spn)?;
    let ranges = ranges_text(case.alloc, &blocks)?;
    let ranges = ranges.as_str();
    let team = shown(case.team.as_bytes());
    format!(in case.alloc; "every number of spn {ranges} of team {team} was used")
}

/// That the form has no such identifier.
fn beyond_form(alloc: Global, form: IdentForm, number: u32) -> Result<String, AllocError>
    ensures { IfOk result (λ text. string_bytes text ≡ beyond_form_text form number) }
{
    let word = form.word();
    let greatest = form.greatest();
    format!(in alloc; "want={number} is no {word} identifier: these are 0 to {greatest}")
}

/// In whose block the wanted number is, if it is in one.
fn whereabouts(
    alloc: Global,
    net: &Net,
    form: BlockForm,
    number: u32,
) -> Result<String, AllocError> {
    let word = form.word();
    match block_with(net.blocks.as_slice(), form, number) {
        None => format!(in alloc; "want={number} is in no {word} block"),
        Some(granted) => {
            let range = range_text(alloc, granted.block.numbers())?;
            let range = range.as_str();
            let team = shown(granted.team.as_bytes());
            format!(in alloc; "want={number} is in {word} {range} of team {team}")
        }
    }
}

/// That the wanted number is in none of the team's blocks, whose it is, and which of the team's is the nearest. `None`
/// where the team has no block of the form.
pub(crate) fn outside_block(case: &Case<'_>, form: IdentForm, number: u32) -> Told {
    let alloc = case.alloc;
    if number > form.greatest() {
        return told(beyond_form(alloc, form, number));
    }
    let form = BlockForm::of_identifiers(form);
    let blocks = team_blocks(case, form)?;
    let Some(nearest) = nearest(number, &blocks) else {
        return Ok(None);
    };
    let nearest = range_text(alloc, nearest)?;
    let nearest = nearest.as_str();
    let place = whereabouts(alloc, case.net, form, number)?;
    let place = place.as_str();
    let team = shown(case.team.as_bytes());
    told(format!(in alloc; "{place}; the nearest of team {team} is {nearest}"))
}

/// That this live message of the network has the name.
pub(crate) fn name_live(alloc: Global, net: &Net, live: &LiveMessage) -> Result<String, AllocError>
    ensures { IfOk result (λ text. string_bytes text ≡ there_text net.now live.now) }
{
    let ident = ident_text(alloc, &live.message.ident)?;
    let ident = ident.as_str();
    let name = shown(live.message.name.as_bytes());
    let net = shown(net.name.as_bytes());
    let team = shown(live.owner.as_bytes());
    format!(in alloc; "{net} has a live message {name} already: {ident} of team {team}")
}

/// The live message of the identifier.
pub(crate) fn live_with<'a>(live: &'a [LiveMessage], ident: &Ident) -> Option<&'a LiveMessage>
    ensures { option_copied result ≡ find (has_ident ident.now) live.now }
{
    live.iter()
        .find(|live| same_ident(live.message.ident, *ident))
}

/// That this live message has its identifier.
pub(crate) fn ident_live(alloc: Global, live: &LiveMessage) -> Result<String, AllocError>
    ensures { IfOk result (λ text. string_bytes text ≡ live_text live.now) }
{
    let ident = ident_text(alloc, &live.message.ident)?;
    let ident = ident.as_str();
    let name = shown(live.message.name.as_bytes());
    let team = shown(live.owner.as_bytes());
    format!(in alloc; "{ident} is live: {name} of team {team} has it")
}

/// In which releases the identifier is, of which the last is this one, and under which name.
fn released_text(alloc: Global, first: usize, last: &Released<'_>) -> Result<String, AllocError> {
    let name = shown(last.message.name.as_bytes());
    let last = last.release;
    if first == last {
        format!(in alloc; "release {last} has it, as {name}")
    } else {
        format!(in alloc; "releases {first} to {last} have it, the last as {name}")
    }
}

/// That the identifier is held, and which releases have it.
pub(crate) fn ident_held(alloc: Global, net: &Net, ident: &Ident) -> Result<String, AllocError> {
    let releases = net.releases.as_slice();
    let ident_shown = ident_text(alloc, ident)?;
    let ident_shown = ident_shown.as_str();
    match (first_with(releases, ident), last_with(releases, ident)) {
        (Some(first), Some(last)) => {
            let released = released_text(alloc, first, &last)?;
            let released = released.as_str();
            format!(in alloc; "{ident_shown} is held for good: {released}")
        }
        _ => format!(in alloc; "{ident_shown} is held for good, since a release has it"),
    }
}

/// That the number was never given out as a suspect parameter number, or is none.
pub(crate) fn no_spn(alloc: Global, number: u32) -> Result<String, AllocError>
    ensures { IfOk result (λ text. string_bytes text ≡ no_spn_text number) }
{
    if number == 0 || number > SPN_LIMIT {
        let greatest = SPN_LIMIT;
        format!(in alloc; "same={number} is no SPN: these are 1 to {greatest}")
    } else {
        format!(in alloc;
            "SPN {number} was never given out on any network; without same= a new one is"
        )
    }
}

/// That the network has as many live messages as it may have.
pub(crate) fn many_messages(alloc: Global, net: &Net) -> Result<String, AllocError> {
    let name = shown(net.name.as_bytes());
    limit_text(alloc, name, MESSAGE_LIMIT, "live messages", "network")
}
