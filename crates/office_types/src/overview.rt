//! Overviews of what a network has.

/// An overview of what a network has.
#[derive(Clone, Copy)]
pub enum Overview {
    /// What it has once, and how many there are of each kind of thing.
    State,
    /// Its granted blocks, and what is left of them.
    Blocks,
    /// Its live messages, with their owners and releases.
    Messages,
    /// The identifiers that are held.
    Held,
    /// The releases, and what each changed.
    Releases,
    /// The nodes.
    Nodes,
    /// The suspect parameter numbers.
    Spns,
}

/// All overviews.
pub const OVERVIEWS: [Overview; 7] = [
    Overview::State,
    Overview::Blocks,
    Overview::Messages,
    Overview::Held,
    Overview::Releases,
    Overview::Nodes,
    Overview::Spns,
];

impl Overview {
    ghost use Rattle.std.specs.Prelude.{◌≡◌};
    ghost use Rattle.office_types.specs.Overview.{overview_path, overview_word};

    /// Its word.
    pub fn word(self) -> &'static str
        ensures { result.now ≡ overview_word self }
    {
        match self {
            Overview::State => "state",
            Overview::Blocks => "blocks",
            Overview::Messages => "messages",
            Overview::Held => "held",
            Overview::Releases => "releases",
            Overview::Nodes => "nodes",
            Overview::Spns => "spns",
        }
    }

    /// The path at which a desk shows it, where `{net}` stands for the network's name.
    pub fn path(self) -> &'static str
        ensures { result.now ≡ overview_path self }
    {
        match self {
            Overview::State => "/nets/{net}/state",
            Overview::Blocks => "/nets/{net}/blocks",
            Overview::Messages => "/nets/{net}/messages",
            Overview::Held => "/nets/{net}/held",
            Overview::Releases => "/nets/{net}/releases",
            Overview::Nodes => "/nets/{net}/nodes",
            Overview::Spns => "/nets/{net}/spns",
        }
    }
}

/// An overview that there is of one team alone, too.
#[derive(Clone, Copy)]
pub enum TeamOverview {
    /// Its granted blocks, and what is left of them.
    Blocks,
    /// Its live messages.
    Messages,
}

impl TeamOverview {
    ghost use Rattle.std.specs.Prelude.{◌≡◌};
    ghost use Rattle.office_types.specs.Overview.{of_all_teams};

    /// The overview of all teams.
    pub fn of_all_teams(self) -> Overview
        ensures { result ≡ of_all_teams self }
    {
        match self {
            TeamOverview::Blocks => Overview::Blocks,
            TeamOverview::Messages => Overview::Messages,
        }
    }
}
