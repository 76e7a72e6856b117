//! Laws of tables that hold a history. Each is the contract of a function that does nothing.
ghost use Rattle.store.specs.Laws.{HeldNetworksAreApart, HeldNetworksAreClear, HeldNumbersMeanOneThing};

use office_history::{
    answers_are_apart, histories_leave_offices, numbers_keep_their_names, spns_are_given_once,
};

/// After every history that tables hold, no two live messages of a network have one identifier, no message has two
/// signals that share a bit, and `msg` has one row for each live message and no other.
pub fn held_networks_are_clear()
    ensures { HeldNetworksAreClear }
{
    histories_leave_offices();
}

/// After every history that tables hold, and so after every run and every arrival: no two first arrivals of `take_spn`
/// that don't request to share a number were answered the same one; and in two releases of a network, one DBC number
/// has one message name.
pub fn held_numbers_mean_one_thing()
    ensures { HeldNumbersMeanOneThing }
{
    spns_are_given_once();
    numbers_keep_their_names();
}

/// After every history that tables hold, networks are apart: what the last arrival on a network was answered depends
/// on the arrivals on that network alone, with what they were answered. So it may be answered the same where other
/// tables hold the same arrivals on it, whatever they hold of other networks. This is so of each command that doesn't
/// depend on the book of the whole office, as `take_spn`, a grant of suspect parameter numbers and a bundle with one of
/// these do, and where no pair of team and key names two networks.
pub fn held_networks_are_apart()
    ensures { HeldNetworksAreApart }
{
    answers_are_apart();
}
