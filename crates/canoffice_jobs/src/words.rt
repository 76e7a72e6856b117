//! What words look up.
ghost use Rattle.std.specs.Prelude.{◌≡◌, IfOk};
ghost use Rattle.std.specs.Option.{option_map};
ghost use Rattle.canoffice_jobs.specs.Words.{message_look, named_look, net_look, node_look, of_team_look, overview_look};
ghost use Rattle.canoffice_jobs.specs.Words.{page_look, page_requested, requests_look, show_look, who_look};

use crate::what::What;
use dbc_words::Name;
use office_types::{Look, LookForm, NetLook, NetName, Overview, Sought, Team, TeamOverview};
use std::alloc::{AllocError, Global};

fn of_team_look(
    alloc: Global,
    overview: TeamOverview,
    word: &str,
) -> Result<Option<NetLook>, AllocError>
    ensures { IfOk result (λ look. look ≡ of_team_look overview word.now) }
{
    match Team::of(alloc, word.as_bytes())? {
        Some(team) => Ok(Some(NetLook::OfTeam(overview, team))),
        None => Ok(None),
    }
}

fn message_look(alloc: Global, name: Option<&str>) -> Result<Option<NetLook>, AllocError>
    ensures { IfOk result (λ look. look ≡ message_look (option_map (λ w. w.now) name.entry)) }
{
    let Some(word) = name else {
        return Ok(None);
    };
    match Name::of(alloc, word.as_bytes())? {
        Some(message) => Ok(Some(NetLook::Message(message))),
        None => Ok(None),
    }
}

fn node_look(alloc: Global, word: &str) -> Result<Option<NetLook>, AllocError>
    ensures { IfOk result (λ look. look ≡ node_look word.now) }
{
    match Name::of(alloc, word.as_bytes())? {
        Some(node) => Ok(Some(NetLook::Node(node))),
        None => Ok(None),
    }
}

/// An overview of what has a name.
fn named_look(alloc: Global, overview: Overview, word: &str) -> Result<Option<NetLook>, AllocError>
    ensures { IfOk result (λ look. look ≡ named_look overview word.now) }
{
    match overview {
        Overview::Blocks => of_team_look(alloc, TeamOverview::Blocks, word),
        Overview::Messages => of_team_look(alloc, TeamOverview::Messages, word),
        Overview::Nodes => node_look(alloc, word),
        _ => Ok(Some(NetLook::Overview(overview))),
    }
}

fn overview_look(
    alloc: Global,
    overview: Overview,
    name: Option<&str>,
) -> Result<Option<NetLook>, AllocError>
    ensures { IfOk result (λ look. look ≡ overview_look overview (option_map (λ w. w.now) name.entry)) }
{
    match name {
        Some(word) => named_look(alloc, overview, word),
        None => Ok(Some(NetLook::Overview(overview))),
    }
}

fn who_look(alloc: Global, name: Option<&str>) -> Result<Option<NetLook>, AllocError>
    ensures { IfOk result (λ look. look ≡ who_look (option_map (λ w. w.now) name.entry)) }
{
    let Some(word) = name else {
        return Ok(None);
    };
    match Sought::of(alloc, word.as_bytes())? {
        Some(sought) => Ok(Some(NetLook::Who(sought))),
        None => Ok(None),
    }
}

/// What is looked up of a network.
fn net_look(alloc: Global, what: What, name: Option<&str>) -> Result<Option<NetLook>, AllocError>
    ensures { IfOk result (λ look. look ≡ net_look what (option_map (λ w. w.now) name.entry)) }
{
    match what {
        What::Overview(overview) => overview_look(alloc, overview, name),
        What::Message => message_look(alloc, name),
        What::Who => who_look(alloc, name),
    }
}

/// What `show` looks up, as JSON where that is wanted and there is any: of the network that the first word names what
/// comes next, by the name after that, if there is one; without a network the list of networks. `None` where a word
/// hasn't the form of what it names: the network and a team 1 to 32 bytes of `a` to `z`, `0` to `9` and `-`, a message
/// and a node a name of a DBC file, and what `who` looks for a word of [`Sought`]. The error is out of memory.
pub fn show_look(
    alloc: Global,
    net: Option<&str>,
    what: What,
    name: Option<&str>,
    json: bool,
) -> Result<Option<Look>, AllocError>
    ensures { IfOk result (λ look. look ≡ show_look (option_map (λ w. w.now) net.entry) what
        (option_map (λ w. w.now) name.entry) json) }
{
    let Some(word) = net else {
        return Ok(Some(Look::Nets));
    };
    let Some(net) = NetName::of(alloc, word.as_bytes())? else {
        return Ok(None);
    };
    match net_look(alloc, what, name)? {
        Some(look) => Ok(Some(Look::Net(net, look, LookForm::Lines).formed(json))),
        None => Ok(None),
    }
}

/// What `page` looks up: the page of the release of this number of the network that the word names, or for 0 of the
/// live network. `None` where it names none, as [`requests_look`] says of a team. The error is out of memory.
pub fn page_look(alloc: Global, net: &str, number: u32) -> Result<Option<Look>, AllocError>
    ensures { IfOk result (λ look. look ≡ page_look net.now number) }
{
    match NetName::of(alloc, net.as_bytes())? {
        Some(net) => Ok(Some(page_requested(net, number))),
        None => Ok(None),
    }
}

fn page_requested(net: NetName, number: u32) -> Look
    ensures { result ≡ page_requested net number }
{
    if number == 0 {
        Look::Page(net)
    } else {
        Look::ReleasePage(net, number)
    }
}

/// What `requests` looks up, as JSON where that is wanted: the requests of the team that the word names. `None` where it
/// names none: a team is 1 to 32 bytes of `a` to `z`, `0` to `9` and `-`. The error is out of memory.
pub fn requests_look(alloc: Global, team: &str, json: bool) -> Result<Option<Look>, AllocError>
    ensures { IfOk result (λ look. look ≡ requests_look team.now json) }
{
    match Team::of(alloc, team.as_bytes())? {
        Some(team) => Ok(Some(Look::Requests(team, LookForm::of(json)))),
        None => Ok(None),
    }
}
