//! What is at a target.
use office_fields::ActionKind;
use office_types::{Overview, TeamOverview};

/// What a target of `GET` shows.
#[derive(Clone, Copy)]
pub enum Showing {
    /// `/nets`: the list of networks.
    Nets,
    /// `/nets/{net}`: the table of a network's live sheet.
    Table,
    /// `/nets/{net}/live`: the live sheet.
    Live,
    /// `/nets/{net}/releases/{n}`: a release.
    Release,
    /// `/nets/{net}/messages/{message}`: the chart of a message.
    Chart,
    /// `/nets/{net}/state` and the like: an overview of a network.
    Overview(Overview),
    /// `/nets/{net}/messages/{message}/signals`: all of a live message.
    Message,
    /// `/nets/{net}/nodes/{node}`: what a node sends and receives.
    Node,
    /// `/nets/{net}/who/{word}`: who has a name or a number.
    Who,
    /// `/nets/{net}/teams/{team}/blocks` and `/messages`: an overview of what is a team's.
    OfTeam(TeamOverview),
    /// `/nets/{net}/compare/{m}/{n}`: what changed from one release to another, or to the live sheet.
    Compare,
    /// `/nets/{net}/page`: the live network on one page.
    Page,
    /// `/nets/{net}/releases/{n}/page`: a release on one page.
    ReleasePage,
    /// `/requests/{team}`: the requests of a team.
    Requests,
}

/// What a target of `POST` does.
#[derive(Clone, Copy)]
pub enum Posting {
    /// `/do/{command}`: a command that reads no file.
    Act(ActionKind),
    /// `/import/{net}`: imports the body as a file.
    Import,
    /// `/bundle/{net}`: carries out the commands in the body, all of them or none.
    Bundle,
}

/// What is at a target.
#[derive(Clone, Copy)]
pub enum Endpoint {
    /// It is shown, by `GET`.
    Shows(Showing),
    /// It is done, by `POST`.
    Does(Posting),
}
