//! Kinds of remarks.
ghost use Rattle.std.specs.Prelude.{◌≡◌, find};
ghost use Rattle.std.specs.List.{list_any};
ghost use Rattle.std.specs.Option.{option_map};
ghost use Rattle.std.specs.Str.{bytes_eq};
ghost use Rattle.dbc_lint.specs.Kind.{first_unknown, is_chosen, is_unknown, kind_name, kind_number, kind_of, parts_of};

/// A kind of remark.
#[derive(Clone, Copy, PartialEq, Eq)]
pub enum Kind {
    /// 80: the name of a message, a signal, a node or a value table is longer than 32 bytes.
    LongName,
    /// 81: the factor of a signal is 0.
    ZeroFactor,
    /// 82: the minimum of a signal is above its maximum.
    RangeInverted,
    /// 83: the bits of a signal can't hold its minimum or its maximum.
    RangeOutside,
    /// 84: a signal is a float, and its size is another than that of its type.
    FloatSize,
    /// 85: a signal is present at a value that the bits of the multiplexor can't hold.
    MuxOutside,
    /// 86: a signal is the multiplexor, and none is present at only some of its values.
    MuxUnused,
    /// 87: an earlier signal of the message has the suspect parameter number of the signal, or else the first signal of
    /// the file that has it is in a message of another parameter group.
    SpnTwice,
    /// 88: a text is for a value that the bits of the signal can't hold.
    ValueOutside,
    /// 89: an earlier text of the signal or of the value table is for the same value.
    ValueTwice,
    /// 90: the transmitter of a message or a receiver of a signal is no node of the file.
    UnknownNode,
    /// 91: a message with an 11-bit identifier has more than 8 bytes, and no other message of the file has.
    LongFrame,
    /// 92: another node sends from the source address of the message.
    AddressTwice,
    /// 93: a node neither sends a message nor receives a signal.
    IdleNode,
}

/// All kinds, in ascending order of their numbers.
pub const ALL_KINDS: [Kind; 14] = [
    Kind::LongName,
    Kind::ZeroFactor,
    Kind::RangeInverted,
    Kind::RangeOutside,
    Kind::FloatSize,
    Kind::MuxOutside,
    Kind::MuxUnused,
    Kind::SpnTwice,
    Kind::ValueOutside,
    Kind::ValueTwice,
    Kind::UnknownNode,
    Kind::LongFrame,
    Kind::AddressTwice,
    Kind::IdleNode,
];

impl Kind {
    /// Its number, 80 to 93.
    pub fn number(self) -> u8
        ensures { result ≡ kind_number self }
    {
        match self {
            Kind::LongName => 80,
            Kind::ZeroFactor => 81,
            Kind::RangeInverted => 82,
            Kind::RangeOutside => 83,
            Kind::FloatSize => 84,
            Kind::MuxOutside => 85,
            Kind::MuxUnused => 86,
            Kind::SpnTwice => 87,
            Kind::ValueOutside => 88,
            Kind::ValueTwice => 89,
            Kind::UnknownNode => 90,
            Kind::LongFrame => 91,
            Kind::AddressTwice => 92,
            Kind::IdleNode => 93,
        }
    }

    /// Its name.
    pub fn name(self) -> &'static str
        ensures { result.now ≡ kind_name self }
    {
        match self {
            Kind::LongName => "LongName",
            Kind::ZeroFactor => "ZeroFactor",
            Kind::RangeInverted => "RangeInverted",
            Kind::RangeOutside => "RangeOutside",
            Kind::FloatSize => "FloatSize",
            Kind::MuxOutside => "MuxOutside",
            Kind::MuxUnused => "MuxUnused",
            Kind::SpnTwice => "SpnTwice",
            Kind::ValueOutside => "ValueOutside",
            Kind::ValueTwice => "ValueTwice",
            Kind::UnknownNode => "UnknownNode",
            Kind::LongFrame => "LongFrame",
            Kind::AddressTwice => "AddressTwice",
            Kind::IdleNode => "IdleNode",
        }
    }

    /// The kind of the name, or `None` if no kind has it.
    pub fn of(name: &[u8]) -> Option<Kind>
        ensures { result ≡ kind_of name.now }
    {
        for kind in ALL_KINDS.as_slice() {
            if kind.name().as_bytes() == name {
                return Some(*kind);
            }
        }
        None
    }
}

/// Whether one of the names is that of the kind.
fn names_kind(names: &str, kind: Kind) -> bool
    ensures { result ≡ list_any (λ name. bytes_eq name (kind_name kind)) (parts_of names.now) }
{
    names.split(',').any(|name| name == kind.name())
}

/// Whether the names, with commas between them, choose the kind. Where there are none, all kinds are chosen.
pub(crate) fn is_chosen(names: &str, kind: Kind) -> bool
    ensures { result ≡ is_chosen names.now kind }
{
    names.is_empty() || names_kind(names, kind)
}

/// The first of the names that no kind has.
fn unknown_part(names: &str) -> Option<&str>
    ensures { option_map (λ name. name.now) result ≡ find is_unknown (parts_of names.now) }
{
    names
        .split(',')
        .find(|name| Kind::of(name.as_bytes()).is_none())
}

/// The first of the names, with commas between them, that no kind has.
pub fn first_unknown(names: &str) -> Option<&str>
    ensures { option_map (λ name. name.now) result ≡ first_unknown names.now }
{
    if names.is_empty() {
        return None;
    }
    unknown_part(names)
}
