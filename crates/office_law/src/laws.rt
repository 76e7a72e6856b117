//! The laws, each the contract of a function that does nothing.
ghost use Rattle.office_law.specs.Agree.{StepsAgree};
ghost use Rattle.office_law.specs.Apart.{NetworksAreApart};
ghost use Rattle.office_law.specs.Fresh.{NumbersAreFresh};
ghost use Rattle.office_law.specs.Kept.{OfficesAreKept};
ghost use Rattle.office_law.specs.Missing.{NothingIsMissing};
ghost use Rattle.office_law.specs.Released.{BodiesDontCount, ReleasesDontCount};
ghost use Rattle.office_law.specs.Refusals.{LeastInsideBlocks, NeverTwoMultiplexors, RefusedForWant};

use dbc_grammar::texts_read_as_one_sheet;

/// What every office keeps is kept by each step and by each run, and the opening office keeps it. Teams and commands
/// are in range, as those of their types are.
pub fn offices_are_kept()
    ensures { OfficesAreKept }
{}

/// A `take_ident` or a `take_pgn` that isn't refused gives out a number that no live message has and that isn't held,
/// the wanted one or the least; a `take_spn` without a wanted number gives out the least that was never used; a
/// `take_bits` that isn't refused gives a start from which the signals stay clear, the wanted one or the least.
pub fn numbers_are_fresh()
    ensures { NumbersAreFresh }
{}

/// A command reads and changes its own network alone, keeps its name and its releases, and but for suspect parameter
/// numbers doesn't depend on the book.
pub fn networks_are_apart()
    ensures { NetworksAreApart }
{}

/// A command that doesn't depend on the releases of its network has the same outcome whatever they are, and adds none.
/// So it is decided without them.
pub fn releases_dont_count()
    ensures { ReleasesDontCount }
{}

/// A command that doesn't depend on what is in a release is decided in the same way where its network has as many other
/// releases.
pub fn bodies_dont_count()
    ensures { BodiesDontCount }
{}

/// A step is a function: two steps of one office by one command of one team are the same. Only where an imported file
/// reads as no sheet may they report different faults of it.
pub fn steps_agree()
    ensures { StepsAgree }
{
    texts_read_as_one_sheet();
}

/// 47, 48 and 60 come only where there is none: no block of the form, no number of the team's blocks that is free, no
/// start from which the signals stay clear.
pub fn wants_are_real()
    ensures { RefusedForWant }
{}

/// The least free number depends on those taken numbers alone that lie in the blocks.
pub fn numbers_elsewhere_do_not_count()
    ensures { LeastInsideBlocks }
{}

/// The first clash of a sheet's message is never a second multiplexor.
pub fn sheets_have_one_multiplexor()
    ensures { NeverTwoMultiplexors }
{}

/// Where no test of a command refuses, the network, the message, the number, the start or the sheet that the command
/// goes on with is there.
pub fn nothing_is_missing()
    ensures { NothingIsMissing }
{}
