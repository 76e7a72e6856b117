//! What is shown for a look.
ghost use Rattle.std.specs.Prelude.{◌≡◌, IfOk, option_map};
ghost use Rattle.office_looks.specs.Looks.{list_in, of_team_table, overview_table, shown_of, table_of, text_of};

use crate::compared::compared_in;
use crate::held::held_table;
use crate::message_whole::{message_table, message_text};
use crate::messages::messages_table;
use crate::nodes::{node_table, nodes_table};
use crate::releases::releases_table;
use crate::state::state_table;
use crate::who::who_table;
use office_blocks::blocks_table;
use office_seen::View;
use office_spns::spns_table;
use office_types::{LookForm, NetLook, Overview, Team, TeamOverview};
use rows::{Table, table_json, table_text};
use std::alloc::{AllocError, Global};

/// The list in the form.
pub(crate) fn list_in(
    alloc: Global,
    form: LookForm,
    table: &Table<'_>,
) -> Result<Vec<u8>, AllocError>
    ensures { IfOk result (λ text. text.items ≡ list_in form table.now) }
{
    match form {
        LookForm::Lines => table_text(alloc, table),
        LookForm::Json => table_json(alloc, table),
    }
}

/// The list, if there is one, in the form.
fn any_in(
    alloc: Global,
    form: LookForm,
    table: Option<Table<'_>>,
) -> Result<Option<Vec<u8>>, AllocError>
    ensures { IfOk result
        (λ text. option_map (λ t. t.items) text ≡ option_map (list_in form) table.entry) }
{
    match table {
        Some(table) => Ok(Some(list_in(alloc, form, &table)?)),
        None => Ok(None),
    }
}

/// The list of the overview.
fn overview_table<'a>(
    alloc: Global,
    view: &'a View,
    overview: Overview,
) -> Result<Table<'a>, AllocError>
    ensures { IfOk result (λ table. table ≡ overview_table overview view.now) }
{
    match overview {
        Overview::State => state_table(alloc, view),
        Overview::Blocks => blocks_table(alloc, view, None),
        Overview::Messages => messages_table(alloc, view, None),
        Overview::Held => held_table(alloc, view),
        Overview::Releases => releases_table(alloc, view),
        Overview::Nodes => nodes_table(alloc, view),
        Overview::Spns => spns_table(alloc, view),
    }
}

/// The list of the overview of what is the team's.
fn of_team_table<'a>(
    alloc: Global,
    view: &'a View,
    overview: TeamOverview,
    team: &Team,
) -> Result<Table<'a>, AllocError>
    ensures { IfOk result (λ table. table ≡ of_team_table overview team.now view.now) }
{
    match overview {
        TeamOverview::Blocks => blocks_table(alloc, view, Some(team)),
        TeamOverview::Messages => messages_table(alloc, view, Some(team)),
    }
}

/// The list that the look is, in the form; `None` where there is no such message, node or release, or nobody has the name
/// or number.
fn list_text(
    alloc: Global,
    view: &View,
    look: &NetLook,
    form: LookForm,
) -> Result<Option<Vec<u8>>, AllocError>
    ensures { IfOk result (λ text. option_map (λ t. t.items) text
        ≡ option_map (list_in form) (table_of look.now view.now)) }
{
    match look {
        NetLook::Overview(overview) => {
            any_in(alloc, form, Some(overview_table(alloc, view, *overview)?))
        }
        NetLook::OfTeam(overview, team) => any_in(
            alloc,
            form,
            Some(of_team_table(alloc, view, *overview, team)?),
        ),
        NetLook::Message(name) => any_in(alloc, form, message_table(alloc, view, name)?),
        NetLook::Node(name) => any_in(alloc, form, node_table(alloc, view, name)?),
        NetLook::Who(sought) => any_in(alloc, form, who_table(alloc, view, sought)?),
        NetLook::Compare(old, new) => compared_in(alloc, view, *old, *new, form),
    }
}

/// The look as lines: those of the list, and of a message its chart.
fn text_of(alloc: Global, view: &View, look: &NetLook) -> Result<Option<Vec<u8>>, AllocError>
    ensures { IfOk result (λ text. option_map (λ t. t.items) text ≡ text_of look.now view.now) }
{
    match look {
        NetLook::Message(name) => message_text(alloc, view, name),
        _ => list_text(alloc, view, look, LookForm::Lines),
    }
}

/// What is shown for the look in the form, as lines that end with LF, of which JSON is one. `None` exactly where there is
/// no such message, node or release, or where nobody has the name or number. The error is out of memory.
pub fn shown_of(
    alloc: Global,
    view: &View,
    look: &NetLook,
    form: LookForm,
) -> Result<Option<Vec<u8>>, AllocError>
    ensures { IfOk result
        (λ text. option_map (λ t. t.items) text ≡ shown_of form look.now view.now) }
{
    match form {
        LookForm::Lines => text_of(alloc, view, look),
        LookForm::Json => list_text(alloc, view, look, LookForm::Json),
    }
}
