//! What a refusal means, whatever the state.
ghost use Rattle.std.specs.Prelude.{◌≡◌};
ghost use Rattle.office_reasons.specs.Plain.{plain_meaning};

use office_types::Refusal;

/// What the refusal means. This is what is reported where the state doesn't show more.
pub(crate) fn plain_meaning(refusal: Refusal) -> &'static str
    ensures { result.now ≡ plain_meaning refusal }
{
    match refusal {
        Refusal::OutsidePayload => "a bit of the signal is outside the payload",
        Refusal::Clash => "the signal shares a bit with another one",
        Refusal::NoMultiplexor => "a signal is multiplexed, and the message has no multiplexor",
        Refusal::TwoMultiplexors => "the message has a multiplexor already",
        Refusal::TooMany => "there would be more than may be",
        Refusal::NoNet => "there is no network of that name",
        Refusal::NetThere => "there is a network of that name",
        Refusal::NotOffice => "only the team office may do this",
        Refusal::NoNode => "the network has no node of that name",
        Refusal::NoMessage => "no live message has the name",
        Refusal::NoSignal => "the message has no signal of that name",
        Refusal::BlockTaken => "a number of the block is granted already",
        Refusal::NoBlock => "the team has no block of that form",
        Refusal::BlockFull => "no number of the team's blocks is free",
        Refusal::OutsideBlock => "the number is in none of the team's blocks",
        Refusal::NameTaken => "the name is taken already",
        Refusal::IdentTaken => "a live message has the identifier",
        Refusal::Held => "the identifier is held, since a release has it",
        Refusal::NotOwner => "the message is another team's",
        Refusal::InReview => "the network is in review",
        Refusal::NotInReview => "the network is in draft",
        Refusal::OwnReview => "the team requested the review itself",
        Refusal::NeedsMore => "more teams have to approve first",
        Refusal::FileFault(_) => "the file is no sheet, or its signals clash",
        Refusal::NoSpn => "the suspect parameter number was never given out",
        Refusal::NoRoom => "no start leaves the signals clear",
        Refusal::NotJ1939 => "the network's kind is can",
        Refusal::BundleRefused(_) => "a command of the bundle is refused",
    }
}
