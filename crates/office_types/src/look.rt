//! Looks.
use crate::net_name::NetName;
use crate::overview::{Overview, TeamOverview};
use crate::sought::Sought;
use crate::team::Team;
use dbc_words::Name;

/// What can be looked up in an office.
pub enum Look {
    /// The list of networks.
    Nets,
    /// The table of the messages of the network's live sheet.
    Table(NetName),
    /// The live sheet of the network, as canonical DBC text.
    Live(NetName),
    /// The release of the network with this number, from 1, as canonical DBC text.
    Release(NetName, u32),
    /// The chart of the network's live message of this name.
    Chart(NetName, Name),
    /// What is looked up of the network, in this form.
    Net(NetName, NetLook, LookForm),
    /// The live network on one HTML page.
    Page(NetName),
    /// The release of the network with this number, from 1, on one HTML page.
    ReleasePage(NetName, u32),
    /// The requests of the team that were answered, each with its reply, in this form.
    Requests(Team, LookForm),
}

/// What can be looked up of a network.
pub enum NetLook {
    /// An overview.
    Overview(Overview),
    /// An overview of what is the team's.
    OfTeam(TeamOverview, Team),
    /// All of the live message of this name.
    Message(Name),
    /// What the node of this name sends and receives.
    Node(Name),
    /// Who has this name or number.
    Who(Sought),
    /// What changed from one release to the other, by their numbers; 0 is the live sheet.
    Compare(u32, u32),
}

/// In which form a list is shown.
#[derive(Clone, Copy)]
pub enum LookForm {
    /// As lines of text.
    Lines,
    /// As JSON.
    Json,
}

impl LookForm {
    ghost use Rattle.std.specs.Prelude.{◌≡◌};
    ghost use Rattle.office_types.specs.Look.{form_of};

    /// JSON where that is wanted, and else lines.
    pub fn of(json: bool) -> LookForm
        ensures { result ≡ form_of json }
    {
        if json {
            LookForm::Json
        } else {
            LookForm::Lines
        }
    }
}

impl Look {
    ghost use Rattle.std.specs.Prelude.{◌≡◌};
    ghost use Rattle.office_types.specs.Look.{formed, look_form};

    /// The same, where JSON is wanted or not: only what is looked up of one network and the requests of a team can be
    /// JSON.
    pub fn formed(self, json: bool) -> Look
        ensures { result ≡ formed json self }
    {
        match self {
            Look::Net(net, look, _form) => Look::Net(net, look, LookForm::of(json)),
            Look::Requests(team, _form) => Look::Requests(team, LookForm::of(json)),
            other => other,
        }
    }

    /// Its form; what can't be JSON is lines.
    pub fn form(&self) -> LookForm
        ensures { result ≡ look_form self.now }
    {
        match self {
            Look::Net(_, _, form) | Look::Requests(_, form) => *form,
            _ => LookForm::Lines,
        }
    }
}

impl Drop for Look {
    fn drop(self) {
        match self {
            Look::Nets => {}
            Look::Table(_net) => {}
            Look::Live(_net) => {}
            Look::Release(_net, _number) => {}
            Look::Chart(_net, _message) => {}
            Look::Net(_net, _look, _form) => {}
            Look::Page(_net) => {}
            Look::ReleasePage(_net, _number) => {}
            Look::Requests(_team, _form) => {}
        }
    }
}

impl Drop for NetLook {
    fn drop(self) {
        match self {
            NetLook::Overview(_overview) => {}
            NetLook::OfTeam(_overview, _team) => {}
            NetLook::Message(_name) => {}
            NetLook::Node(_name) => {}
            NetLook::Who(_sought) => {}
            NetLook::Compare(_old, _new) => {}
        }
    }
}
