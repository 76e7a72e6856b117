//! The routes.
ghost use Rattle.std.specs.Prelude.{◌≡◌, IfOk, OnOk, IsUtf8};
ghost use Rattle.desk_head.specs.Target.{done_by, endpoint_at, endpoint_of, route_of};
ghost use Rattle.desk_head.specs.Target.{the_routes, with_overviews, with_pages, with_route, with_sheets, with_things};

use crate::endpoint::{Endpoint, Posting, Showing};
use crate::parts::first_parameter;
use matchit::{InsertError, Router};
use office_fields::CommandKind;
use office_types::{OVERVIEWS, TeamOverview};
use std::alloc::{AllocError, Global};
use std::str::from_utf8;

/// A route.
#[derive(Clone, Copy)]
pub(crate) enum Route {
    /// `/do/{command}`
    Do,
    /// `/import/{net}`
    Import,
    /// `/bundle/{net}`
    Bundle,
    /// What shows something.
    Shows(Showing),
}

#[tactic(auto, unfolding(crate::specs::Target::with_route), using(crate::proofs::Added::inserted))]
fn add(router: &mut Router<Route>, text: &str, route: Route) -> Result<(), InsertError>
    ensures { OnOk result (router.new ≡ with_route text.now route router.old) }
{
    router.insert(text, route)
}

/// The routes of the desk: what is at each target. They are made once, for any number of requests.
#[derive(Drop)]
pub struct Routes {
    router: Router<Route>,
    ghost all: { router ≡ the_routes },
}

/// Adds the route of what is shown at the text.
fn show(router: &mut Router<Route>, text: &str, showing: Showing) -> Result<(), InsertError>
    ensures { OnOk result (router.new ≡ with_route text.now (Route.Shows showing) router.old) }
{
    add(router, text, Route::Shows(showing))
}

/// Adds the routes of what an office shows: its networks, and each network's sheets and charts.
fn add_sheets(router: &mut Router<Route>) -> Result<(), InsertError>
    ensures { OnOk result (router.new ≡ with_sheets router.old) }
{
    show(router, "/nets", Showing::Nets)?;
    show(router, "/nets/{net}", Showing::Table)?;
    show(router, "/nets/{net}/live", Showing::Live)?;
    show(router, "/nets/{net}/releases/{n}", Showing::Release)?;
    show(router, "/nets/{net}/messages/{message}", Showing::Chart)?;
    Ok(())
}

/// Adds the routes of overviews.
fn add_overviews(router: &mut Router<Route>) -> Result<(), InsertError>
    ensures { OnOk result (router.new ≡ with_overviews OVERVIEWS router.old) }
{
    for overview in &OVERVIEWS {
        show(router, overview.path(), Showing::Overview(*overview))?;
    }
    Ok(())
}

/// Adds the routes of one thing of a network, of two of its sheets, or of a team's.
fn add_things(router: &mut Router<Route>) -> Result<(), InsertError>
    ensures { OnOk result (router.new ≡ with_things router.old) }
{
    show(
        router,
        "/nets/{net}/messages/{message}/signals",
        Showing::Message,
    )?;
    show(router, "/nets/{net}/nodes/{node}", Showing::Node)?;
    show(router, "/nets/{net}/who/{word}", Showing::Who)?;
    show(router, "/nets/{net}/compare/{m}/{n}", Showing::Compare)?;
    show(
        router,
        "/nets/{net}/teams/{team}/blocks",
        Showing::OfTeam(TeamOverview::Blocks),
    )?;
    show(
        router,
        "/nets/{net}/teams/{team}/messages",
        Showing::OfTeam(TeamOverview::Messages),
    )?;
    Ok(())
}

/// Adds the routes of the pages of a network and of its releases.
fn add_pages(router: &mut Router<Route>) -> Result<(), InsertError>
    ensures { OnOk result (router.new ≡ with_pages router.old) }
{
    show(router, "/nets/{net}/page", Showing::Page)?;
    show(
        router,
        "/nets/{net}/releases/{n}/page",
        Showing::ReleasePage,
    )?;
    Ok(())
}

/// The router of all routes.
#[tactic(auto, unfolding(crate::specs::Target::the_routes))]
fn router(alloc: Global) -> Result<Router<Route>, InsertError>
    ensures { IfOk result (λ r. r ≡ the_routes) }
{
    let mut router = Router::new(alloc);
    add(&mut router, "/do/{command}", Route::Do)?;
    add(&mut router, "/import/{net}", Route::Import)?;
    add(&mut router, "/bundle/{net}", Route::Bundle)?;
    add_sheets(&mut router)?;
    add_overviews(&mut router)?;
    add_things(&mut router)?;
    add_pages(&mut router)?;
    show(&mut router, "/requests/{team}", Showing::Requests)?;
    Ok(router)
}

/// The route that the whole target matches.
fn route_of(router: &Router<Route>, target: &[u8]) -> Option<Route>
    requires utf8 { IsUtf8 target.now }
    requires all { router.now ≡ the_routes }
    ensures { result ≡ route_of target.now }
{
    let Ok(text) = from_utf8(target) else {
        return None;
    };
    match router.at(text) {
        Ok(found) => Some(*found.value),
        Err(_) => None,
    }
}

fn done_by(kind: CommandKind) -> Option<Endpoint>
    ensures { result ≡ done_by kind }
{
    match kind {
        CommandKind::Act(kind) => Some(Endpoint::Does(Posting::Act(kind))),
        CommandKind::Import | CommandKind::Bundle => None,
    }
}

fn command_at(target: &[u8]) -> Option<Endpoint>
    ensures { result ≡ endpoint_at Route.Do target.now }
{
    done_by(CommandKind::of_word(first_parameter(target))?)
}

fn endpoint_at(route: Route, target: &[u8]) -> Option<Endpoint>
    ensures { result ≡ endpoint_at route target.now }
{
    match route {
        Route::Do => command_at(target),
        Route::Import => Some(Endpoint::Does(Posting::Import)),
        Route::Bundle => Some(Endpoint::Does(Posting::Bundle)),
        Route::Shows(showing) => Some(Endpoint::Shows(showing)),
    }
}

impl Routes {
    /// The routes. The error is out of memory.
    pub fn new(alloc: Global) -> Result<Routes, AllocError> {
        match router(alloc) {
            Ok(router) => Ok(Routes { router }),
            Err(_) => Err(AllocError),
        }
    }

    /// What is at the target, or `None` where nothing is.
    #[tactic(auto, unfolding(crate::specs::Target::endpoint_of))]
    pub(crate) fn endpoint_of(&self, target: &[u8]) -> Option<Endpoint>
        requires { IsUtf8 target.now }
        ensures { result ≡ endpoint_of target.now }
    {
        match route_of(&self.router, target) {
            Some(route) => endpoint_at(route, target),
            None => None,
        }
    }
}
