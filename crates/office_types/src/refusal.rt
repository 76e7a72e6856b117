//! Refusals, with their numbers and names.
ghost use Rattle.std.specs.Prelude.{◌≡◌, Some};
ghost use Rattle.office_types.specs.Refusal.{all_refusals, refusal_number, refusal_name, refusal_at, fault_of};
ghost use Rattle.office_types.specs.declared.refusal.Refusal.{Refusal};

/// What is wrong with an imported file: the number of a fault of reading, and its byte offset; or 22, 23 or 24, and the
/// DBC number of the first message whose signals don't fit together. Or with a bundle: the number of the refusal of its
/// first refused part, and that part's number, from 1.
#[derive(Clone, Copy, PartialEq, Eq)]
pub struct FileFault {
    /// The fault's number.
    pub fault: u8,
    /// The byte offset, or the message's number.
    pub at: u32,
}

/// Why the office refused a command.
#[derive(Clone, Copy, PartialEq, Eq)]
pub enum Refusal {
    /// 22: a bit of the signal is outside the message's payload.
    OutsidePayload,
    /// 23: the signal shares a bit with another one.
    Clash,
    /// 24: a signal is multiplexed, and the message has no multiplexor.
    NoMultiplexor,
    /// 25: the message has a multiplexor already.
    TwoMultiplexors,
    /// 26: a limit of a sheet is reached.
    TooMany,
    /// 40: there is no network of that name.
    NoNet,
    /// 41: there is a network of that name.
    NetThere,
    /// 42: only the team `office` may do this.
    NotOffice,
    /// 43: the network has no node of that name.
    NoNode,
    /// 44: the network has no live message of that name.
    NoMessage,
    /// 45: the message has no signal of that name.
    NoSignal,
    /// 46: a number of the block is granted already.
    BlockTaken,
    /// 47: the team has no block of that form on the network.
    NoBlock,
    /// 48: no number of the team's blocks is free.
    BlockFull,
    /// 49: the number is in none of the team's blocks.
    OutsideBlock,
    /// 50: the name is taken already.
    NameTaken,
    /// 51: a live message has the identifier.
    IdentTaken,
    /// 52: a release has the identifier, which is held for good.
    Held,
    /// 53: the message belongs to another team.
    NotOwner,
    /// 54: the network is in review.
    InReview,
    /// 55: the network is not in review.
    NotInReview,
    /// 56: the team requested the review itself.
    OwnReview,
    /// 57: more teams have to approve first.
    NeedsMore,
    /// 58: the file can't be read as a sheet, or the sheet isn't clear.
    FileFault(FileFault),
    /// 59: the suspect parameter number was never given out.
    NoSpn,
    /// 60: the message has no room for the signal.
    NoRoom,
    /// 61: J1939 parameter groups aren't allotted on the network.
    NotJ1939,
    /// 62: a part of the bundle is refused.
    BundleRefused(FileFault),
}

impl Refusal {
    /// The refusal's number.
    pub fn number(self) -> u8
        ensures { result ≡ refusal_number self }
    {
        match self {
            Refusal::OutsidePayload => 22,
            Refusal::Clash => 23,
            Refusal::NoMultiplexor => 24,
            Refusal::TwoMultiplexors => 25,
            Refusal::TooMany => 26,
            Refusal::NoNet => 40,
            Refusal::NetThere => 41,
            Refusal::NotOffice => 42,
            Refusal::NoNode => 43,
            Refusal::NoMessage => 44,
            Refusal::NoSignal => 45,
            Refusal::BlockTaken => 46,
            Refusal::NoBlock => 47,
            Refusal::BlockFull => 48,
            Refusal::OutsideBlock => 49,
            Refusal::NameTaken => 50,
            Refusal::IdentTaken => 51,
            Refusal::Held => 52,
            Refusal::NotOwner => 53,
            Refusal::InReview => 54,
            Refusal::NotInReview => 55,
            Refusal::OwnReview => 56,
            Refusal::NeedsMore => 57,
            Refusal::FileFault(_) => 58,
            Refusal::NoSpn => 59,
            Refusal::NoRoom => 60,
            Refusal::NotJ1939 => 61,
            Refusal::BundleRefused(_) => 62,
        }
    }

    /// The refusal's name.
    pub fn name(self) -> &'static str
        ensures { result.now ≡ refusal_name self }
    {
        match self {
            Refusal::OutsidePayload => "OutsidePayload",
            Refusal::Clash => "Clash",
            Refusal::NoMultiplexor => "NoMultiplexor",
            Refusal::TwoMultiplexors => "TwoMultiplexors",
            Refusal::TooMany => "TooMany",
            Refusal::NoNet => "NoNet",
            Refusal::NetThere => "NetThere",
            Refusal::NotOffice => "NotOffice",
            Refusal::NoNode => "NoNode",
            Refusal::NoMessage => "NoMessage",
            Refusal::NoSignal => "NoSignal",
            Refusal::BlockTaken => "BlockTaken",
            Refusal::NoBlock => "NoBlock",
            Refusal::BlockFull => "BlockFull",
            Refusal::OutsideBlock => "OutsideBlock",
            Refusal::NameTaken => "NameTaken",
            Refusal::IdentTaken => "IdentTaken",
            Refusal::Held => "Held",
            Refusal::NotOwner => "NotOwner",
            Refusal::InReview => "InReview",
            Refusal::NotInReview => "NotInReview",
            Refusal::OwnReview => "OwnReview",
            Refusal::NeedsMore => "NeedsMore",
            Refusal::FileFault(_) => "FileFault",
            Refusal::NoSpn => "NoSpn",
            Refusal::NoRoom => "NoRoom",
            Refusal::NotJ1939 => "NotJ1939",
            Refusal::BundleRefused(_) => "BundleRefused",
        }
    }

    /// What is wrong with the file or the bundle, and zeros where the refusal is of neither.
    pub fn file_fault(self) -> FileFault
        ensures { result ≡ fault_of self }
    {
        match self {
            Refusal::FileFault(fault) | Refusal::BundleRefused(fault) => fault,
            _ => FileFault { fault: 0, at: 0 },
        }
    }

    /// The refusal of this number, with the fault where it is that of a file or of a bundle; `None` where no refusal
    /// has the number.
    pub fn of_number(number: u32, fault: FileFault) -> Option<Refusal>
        ensures { result ≡ refusal_at number fault }
    {
        all_refusals(fault)
            .iter()
            .copied()
            .find(|refusal| u32::from(refusal.number()) == number)
    }
}

/// All refusals, by number, with the fault for that of a file and for that of a bundle.
fn all_refusals(fault: FileFault) -> [Refusal; 28]
    ensures { result ≡ all_refusals fault }
{
    [
        Refusal::OutsidePayload,
        Refusal::Clash,
        Refusal::NoMultiplexor,
        Refusal::TwoMultiplexors,
        Refusal::TooMany,
        Refusal::NoNet,
        Refusal::NetThere,
        Refusal::NotOffice,
        Refusal::NoNode,
        Refusal::NoMessage,
        Refusal::NoSignal,
        Refusal::BlockTaken,
        Refusal::NoBlock,
        Refusal::BlockFull,
        Refusal::OutsideBlock,
        Refusal::NameTaken,
        Refusal::IdentTaken,
        Refusal::Held,
        Refusal::NotOwner,
        Refusal::InReview,
        Refusal::NotInReview,
        Refusal::OwnReview,
        Refusal::NeedsMore,
        Refusal::FileFault(fault),
        Refusal::NoSpn,
        Refusal::NoRoom,
        Refusal::NotJ1939,
        Refusal::BundleRefused(fault),
    ]
}

/// Each refusal is that of its number and its fault.
pub fn refusals_are_numbered()
    ensures { (r : Refusal) → refusal_at (refusal_number r) (fault_of r) ≡ Some r }
{}
