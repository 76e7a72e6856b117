//! What targets show.
ghost use Rattle.office_fields.specs.Reading.{ReadsField};
ghost use Rattle.desk_call.specs.Call.{chart_in, compare_in, look_of, message_in, net_look_in, node_in, of_team_in};
ghost use Rattle.desk_call.specs.Call.{release_in, release_page_in, requests_in, team_in, who_in};

use crate::values::{name_of, net_in, number_of, release_number, sought_of};
use desk_head::{Showing, first_parameter, second_parameter, third_parameter};
use office_fields::{Unread, team_of};
use office_types::{Look, LookForm, NetLook, Team, TeamOverview};
use std::alloc::Global;

fn release_in(alloc: Global, target: &[u8]) -> Result<Look, Unread>
    ensures { ReadsField (release_in target.now) result }
{
    let net = net_in(alloc, target)?;
    let number = release_number(second_parameter(target))?;
    Ok(Look::Release(net, number))
}

fn release_page_in(alloc: Global, target: &[u8]) -> Result<Look, Unread>
    ensures { ReadsField (release_page_in target.now) result }
{
    let net = net_in(alloc, target)?;
    let number = release_number(second_parameter(target))?;
    Ok(Look::ReleasePage(net, number))
}

fn chart_in(alloc: Global, target: &[u8]) -> Result<Look, Unread>
    ensures { ReadsField (chart_in target.now) result }
{
    let net = net_in(alloc, target)?;
    let message = name_of(alloc, second_parameter(target))?;
    Ok(Look::Chart(net, message))
}

/// What is looked up of the network that the target names.
fn net_look(alloc: Global, target: &[u8], look: NetLook) -> Result<Look, Unread>
    ensures { ReadsField (net_look_in target.now look) result }
{
    let net = net_in(alloc, target)?;
    Ok(Look::Net(net, look, LookForm::Lines))
}

fn team_in(alloc: Global, target: &[u8]) -> Result<Team, Unread>
    ensures { ReadsField (team_in target.now) result }
{
    team_of(alloc, second_parameter(target))
}

fn message_in(alloc: Global, target: &[u8]) -> Result<Look, Unread>
    ensures { ReadsField (message_in target.now) result }
{
    let message = name_of(alloc, second_parameter(target))?;
    net_look(alloc, target, NetLook::Message(message))
}

fn node_in(alloc: Global, target: &[u8]) -> Result<Look, Unread>
    ensures { ReadsField (node_in target.now) result }
{
    let node = name_of(alloc, second_parameter(target))?;
    net_look(alloc, target, NetLook::Node(node))
}

fn who_in(alloc: Global, target: &[u8]) -> Result<Look, Unread>
    ensures { ReadsField (who_in target.now) result }
{
    let sought = sought_of(alloc, second_parameter(target))?;
    net_look(alloc, target, NetLook::Who(sought))
}

fn compare_in(alloc: Global, target: &[u8]) -> Result<Look, Unread>
    ensures { ReadsField (compare_in target.now) result }
{
    let old = number_of(second_parameter(target))?;
    let new = number_of(third_parameter(target))?;
    net_look(alloc, target, NetLook::Compare(old, new))
}

fn of_team_in(alloc: Global, target: &[u8], overview: TeamOverview) -> Result<Look, Unread>
    ensures { ReadsField (of_team_in target.now overview) result }
{
    let team = team_in(alloc, target)?;
    net_look(alloc, target, NetLook::OfTeam(overview, team))
}

fn requests_in(alloc: Global, target: &[u8]) -> Result<Look, Unread>
    ensures { ReadsField (requests_in target.now) result }
{
    let team = team_of(alloc, first_parameter(target))?;
    Ok(Look::Requests(team, LookForm::Lines))
}

/// What the target shows, as lines where it has other forms. `Wrong` where a parameter hasn't its form.
pub(crate) fn look_of(alloc: Global, showing: Showing, target: &[u8]) -> Result<Look, Unread>
    ensures { ReadsField (look_of showing target.now) result }
{
    match showing {
        Showing::Nets => Ok(Look::Nets),
        Showing::Table => Ok(Look::Table(net_in(alloc, target)?)),
        Showing::Live => Ok(Look::Live(net_in(alloc, target)?)),
        Showing::Release => release_in(alloc, target),
        Showing::Chart => chart_in(alloc, target),
        Showing::Overview(overview) => net_look(alloc, target, NetLook::Overview(overview)),
        Showing::OfTeam(overview) => of_team_in(alloc, target, overview),
        Showing::Message => message_in(alloc, target),
        Showing::Node => node_in(alloc, target),
        Showing::Who => who_in(alloc, target),
        Showing::Compare => compare_in(alloc, target),
        Showing::Page => Ok(Look::Page(net_in(alloc, target)?)),
        Showing::ReleasePage => release_page_in(alloc, target),
        Showing::Requests => requests_in(alloc, target),
    }
}
