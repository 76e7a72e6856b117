//! The target of a look.
ghost use Rattle.std.specs.Prelude.{◌≡◌, ◌<◌, ◌^◌, ◌++◌, IfOk, IsTrue, codes};
ghost use Rattle.desk_head.specs.Asked.{IsLook, IsNetLook, IsSought, net_target, part_of, target_of, word_of};
ghost use Rattle.desk_client.specs.Request.{is_target};

use office_types::{Look, NetLook, Sought, Team};
use std::alloc::{AllocError, Global};

fn joined(alloc: Global, front: &[u8], rest: &[u8]) -> Result<Vec<u8>, AllocError>
    ensures { IfOk result (λ text. text.items ≡ front.now ++ rest.now) }
{
    let mut text = Vec::from_slice(alloc, front)?;
    text.extend_from_slice(rest)?;
    Ok(text)
}

fn joined_three(
    alloc: Global,
    front: &[u8],
    middle: &[u8],
    rest: &[u8],
) -> Result<Vec<u8>, AllocError>
    ensures { IfOk result (λ text. text.items ≡ front.now ++ (middle.now ++ rest.now)) }
{
    let mut text = joined(alloc, front, middle)?;
    text.extend_from_slice(rest)?;
    Ok(text)
}

/// The word that looks for this.
fn word_of(alloc: Global, wanted: &Sought) -> Result<Vec<u8>, AllocError>
    ensures { IfOk result (λ word. word.items ≡ word_of wanted.now) }
{
    match wanted {
        Sought::Name(name) => Vec::from_slice(alloc, name.as_bytes()),
        Sought::Hexadecimal(number) => Ok(format!(in alloc; "0x{number:x}")?.into_bytes()),
        Sought::Decimal(number) => Ok(format!(in alloc; "{number}")?.into_bytes()),
        Sought::Group(number) => Ok(format!(in alloc; "pgn={number}")?.into_bytes()),
        Sought::Spn(number) => Ok(format!(in alloc; "spn={number}")?.into_bytes()),
    }
}

/// The part for the overview of this word of what is the team's.
fn of_team(alloc: Global, team: &Team, word: &str) -> Result<Vec<u8>, AllocError>
    ensures { IfOk result (λ part. part.items ≡ codes "/teams/" ++ (team.now ++ (codes "/" ++ word.now))) }
{
    let word = joined(alloc, b"/", word.as_bytes())?;
    joined_three(alloc, b"/teams/", team.as_bytes(), &word)
}

/// What follows the name of the network.
fn part_of(alloc: Global, look: &NetLook) -> Result<Vec<u8>, AllocError>
    ensures { IfOk result (λ part. part.items ≡ part_of look.now) }
{
    match look {
        NetLook::Overview(overview) => joined(alloc, b"/", overview.word().as_bytes()),
        NetLook::OfTeam(overview, team) => of_team(alloc, team, overview.of_all_teams().word()),
        NetLook::Message(name) => joined_three(alloc, b"/messages/", name.as_bytes(), b"/signals"),
        NetLook::Node(name) => joined(alloc, b"/nodes/", name.as_bytes()),
        NetLook::Who(wanted) => joined(alloc, b"/who/", &word_of(alloc, wanted)?),
        NetLook::Compare(old, new) => Ok(format!(in alloc; "/compare/{old}/{new}")?.into_bytes()),
    }
}

fn net_target(alloc: Global, net: &[u8], part: &[u8]) -> Result<Vec<u8>, AllocError>
    ensures { IfOk result (λ target. target.items ≡ net_target net.now part.now) }
{
    joined_three(alloc, b"/nets/", net, part)
}

fn text_of(alloc: Global, look: &Look) -> Result<Vec<u8>, AllocError>
    ensures { IfOk result (λ target. target.items ≡ target_of look.now) }
{
    match look {
        Look::Nets => Vec::from_slice(alloc, b"/nets"),
        Look::Table(net) => joined(alloc, b"/nets/", net.as_bytes()),
        Look::Live(net) => net_target(alloc, net.as_bytes(), b"/live"),
        Look::Release(net, number) => {
            let part = format!(in alloc; "/releases/{number}")?;
            net_target(alloc, net.as_bytes(), part.as_bytes())
        }
        Look::Chart(net, message) => {
            let part = joined(alloc, b"/messages/", message.as_bytes())?;
            net_target(alloc, net.as_bytes(), &part)
        }
        Look::Net(net, look, _) => net_target(alloc, net.as_bytes(), &part_of(alloc, look)?),
        Look::Page(net) => net_target(alloc, net.as_bytes(), b"/page"),
        Look::ReleasePage(net, number) => {
            let part = format!(in alloc; "/releases/{number}/page")?;
            net_target(alloc, net.as_bytes(), part.as_bytes())
        }
        Look::Requests(team, _) => joined(alloc, b"/requests/", team.as_bytes()),
    }
}

// The types keep what follows: nothing is tested.

fn is_small(number: u32)
    ensures { number < 2 ^ 32 }
{
    u64::from(number);
}

fn is_sought(wanted: &Sought)
    ensures { IsSought wanted.now }
{
    match wanted {
        Sought::Name(name) => {
            name.as_bytes();
        }
        Sought::Hexadecimal(number) => is_small(*number),
        Sought::Decimal(number) => is_small(*number),
        Sought::Group(number) => is_small(*number),
        Sought::Spn(number) => is_small(*number),
    }
}

fn is_net_look(look: &NetLook)
    ensures { IsNetLook look.now }
{
    match look {
        NetLook::Overview(_) => {}
        NetLook::OfTeam(_, team) => {
            team.as_bytes();
        }
        NetLook::Message(name) | NetLook::Node(name) => {
            name.as_bytes();
        }
        NetLook::Who(wanted) => is_sought(wanted),
        NetLook::Compare(old, new) => {
            is_small(*old);
            is_small(*new);
        }
    }
}

fn is_look(look: &Look)
    ensures { IsLook look.now }
{
    match look {
        Look::Nets => {}
        Look::Table(net) | Look::Live(net) | Look::Page(net) => {
            net.as_bytes();
        }
        Look::Release(net, number) | Look::ReleasePage(net, number) => {
            net.as_bytes();
            is_small(*number);
        }
        Look::Chart(net, message) => {
            net.as_bytes();
            message.as_bytes();
        }
        Look::Net(net, look, _) => {
            net.as_bytes();
            is_net_look(look);
        }
        Look::Requests(team, _) => {
            team.as_bytes();
        }
    }
}

/// The target of the look, as a request can have it: `/nets/truck/state` for the state of `truck`. A desk reads the look
/// from it and from the form that the request names, by the laws `targets_lead_there` and `looks_come_back`. The error is
/// out of memory.
#[tactic(auto, using(crate::proofs::Targets::can_be_asked))]
pub fn target_of(alloc: Global, look: &Look) -> Result<Vec<u8>, AllocError>
    ensures text { IfOk result (λ target. target.items ≡ target_of look.now) }
    ensures asked { IfOk result (λ target. IsTrue (is_target target.items)) }
{
    is_look(look);
    text_of(alloc, look)
}
