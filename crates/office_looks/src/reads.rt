//! What a look reads of a network.
ghost use Rattle.std.specs.Prelude.{◌≡◌};
ghost use Rattle.office_looks.specs.Reads.{overview_reads, reads_of};

use office_types::{NetLook, Overview, TeamOverview};

/// How much is read of live messages.
#[derive(Clone, Copy, PartialEq, Eq)]
pub enum MessagesRead {
    /// No message.
    Nothing,
    /// All of them, without the receivers and value texts of their signals.
    Rows,
    /// All of them, without the value texts of their signals.
    Received,
    /// All of them, whole.
    Whole,
}

/// How much is read of releases.
#[derive(Clone, Copy, PartialEq, Eq)]
pub enum ReleasesRead {
    /// No release.
    Nothing,
    /// How many there are, and the last one.
    Last,
    /// All of them.
    All,
}

/// What is read of a network: so much of its live messages and of its releases, and the rest whole.
#[derive(Clone, Copy, PartialEq, Eq)]
pub struct Reads {
    /// How much of the live messages.
    pub messages: MessagesRead,
    /// How much of the releases.
    pub releases: ReleasesRead,
}

fn overview_reads(overview: Overview) -> Reads
    ensures { result ≡ overview_reads overview }
{
    let (messages, releases) = match overview {
        Overview::State => (MessagesRead::Whole, ReleasesRead::Last),
        Overview::Blocks => (MessagesRead::Rows, ReleasesRead::Nothing),
        Overview::Nodes => (MessagesRead::Received, ReleasesRead::Nothing),
        Overview::Held | Overview::Releases => (MessagesRead::Nothing, ReleasesRead::All),
        _ => (MessagesRead::Whole, ReleasesRead::All),
    };
    Reads { messages, releases }
}

/// What the text of the look depends on.
pub fn reads_of(look: &NetLook) -> Reads
    ensures { result ≡ reads_of look.now }
{
    match look {
        NetLook::Overview(overview) => overview_reads(*overview),
        NetLook::OfTeam(TeamOverview::Blocks, _) => overview_reads(Overview::Blocks),
        NetLook::Node(_) => overview_reads(Overview::Nodes),
        _ => overview_reads(Overview::Messages),
    }
}
