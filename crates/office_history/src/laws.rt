//! Laws of histories. Each is the contract of a function that does nothing.
ghost use Rattle.office_history.specs.Laws.{AnswersAreApart, HistoriesGrow, HistoriesLeaveOffices};
ghost use Rattle.office_history.specs.Laws.{NumbersKeepTheirNames, ReleasesStay, SpnsAreGivenOnce};

use dbc_grammar::texts_read_as_one_sheet;

/// A legal history goes on with an arrival that a step of the office answers, where its pair of team and key is new,
/// and else with one that is answered as a repeat.
pub fn histories_grow()
    ensures { HistoriesGrow }
{}

/// A legal history of teams and commands in range leaves an office, with all that every office keeps; and two legal
/// histories with the same requests first leave one office.
pub fn histories_leave_offices()
    ensures { HistoriesLeaveOffices }
{
    texts_read_as_one_sheet();
}

/// A release never changes: of a legal history that goes on with further arrivals, the networks are there still, and
/// each has its releases as they were, in order, before any newer ones.
pub fn releases_stay()
    ensures { ReleasesStay }
{
    texts_read_as_one_sheet();
}

/// A released message keeps its name: in two releases of a network, of whatever legal history, one DBC number has one
/// message name.
pub fn numbers_keep_their_names()
    ensures { NumbersKeepTheirNames }
{
    texts_read_as_one_sheet();
}

/// In a legal history, no two first arrivals of `take_spn` that don't request to share a number are answered the same
/// one, on whatever networks.
pub fn spns_are_given_once()
    ensures { SpnsAreGivenOnce }
{}

/// Networks are apart: what an arrival is answered on a network depends on the arrivals on that network alone, with
/// what they were answered. So it may be answered so after any other legal history that has the same ones there.
pub fn answers_are_apart()
    ensures { AnswersAreApart }
{
    texts_read_as_one_sheet();
}
