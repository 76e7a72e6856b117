//! The table of fields: names, kinds of values, and how often each may be given.
ghost use Rattle.std.specs.Prelude.{◌≡◌};

/// A field of a command. Two fields of different commands may have one name.
#[derive(Clone, Copy)]
pub enum Field {
    /// `net`: the network.
    Net,
    /// `kind`: the network's kind.
    Kind,
    /// `reviews`: how many approvals a release needs.
    Reviews,
    /// `team`: the team that gets a block.
    Team,
    /// `form` of a block.
    BlockForm,
    /// `first`: the least number of a block.
    First,
    /// `last`: the greatest number of a block.
    Last,
    /// `name`: the name that a node or a message is to have.
    Name,
    /// `form` of an identifier.
    IdentForm,
    /// `length` of a new message, in bytes.
    Length,
    /// `node`: the node that transmits a new message.
    Node,
    /// `want`: the identifier that is wanted.
    Want,
    /// `pdu`: whether a J1939 message goes to one address or to all.
    Pdu,
    /// `priority` of a J1939 message.
    Priority,
    /// `source`: the address that a J1939 message comes from.
    Source,
    /// `destination`: the address that a J1939 message goes to.
    Destination,
    /// `message`: the name of a live message.
    Message,
    /// `signal`: the name of a signal of the message.
    Signal,
    /// `same`: a suspect parameter number that was given out before.
    Same,
    /// `size` of a new signal, in bits.
    Size,
    /// `order`: the byte order of a new signal.
    Order,
    /// `signed`: whether the raw value is signed.
    Signed,
    /// `mux`: the multiplexer indicator.
    Mux,
    /// `factor` of the physical value.
    Factor,
    /// `offset` of the physical value.
    Offset,
    /// `minimum` of the physical value.
    Minimum,
    /// `maximum` of the physical value.
    Maximum,
    /// `unit` of the physical value.
    Unit,
    /// `receiver`: a node that receives the signal.
    Receiver,
    /// `start`: the bit position that is wanted.
    Start,
    /// `value`: a raw value with its text.
    Value,
    /// `file`: the path of a DBC file.
    File,
}

/// What the values of a field are.
#[derive(Clone, Copy)]
pub enum FieldKind {
    /// The name of a network.
    NetName,
    /// The name of a team.
    Team,
    /// The name of a message, a signal or a node.
    Name,
    /// A text as a DBC file has it between its quotes.
    Text,
    /// The path of a file: UTF-8.
    Path,
    /// `can` or `j1939`.
    NetKind,
    /// `std` or `ext`.
    IdentForm,
    /// `std`, `ext`, `pgn` or `spn`.
    BlockForm,
    /// `addressed` or `broadcast`.
    Addressing,
    /// `intel` or `motorola`.
    ByteOrder,
    /// `true` or `false`.
    Truth,
    /// A multiplexer indicator: `M`, or `m` and a whole number.
    Mark,
    /// A whole number: digits, up to 4294967295.
    Number,
    /// A whole number up to 9.
    Reviews,
    /// A whole number of bytes up to 64.
    Length,
    /// A whole number up to 7.
    Priority,
    /// A whole number up to 255.
    Address,
    /// A whole number of bits, 1 to 64.
    Size,
    /// A whole number up to 65535.
    Start,
    /// A decimal: a number as DBC files spell it, after one `-` or none.
    Decimal,
    /// A decimal, `:` and a text.
    ValueText,
}

/// How often a field may be given.
#[derive(Clone, Copy)]
pub enum Occurrence {
    /// Exactly once.
    Required,
    /// At most once.
    Optional,
    /// Any number of times, none too.
    Repeated,
}

impl Field {
    ghost use Rattle.office_fields.specs.Field.{row_of};

    /// The field's name.
    pub fn name(self) -> &'static str
        ensures { result.now ≡ (row_of self).name }
    {
        match self {
            Field::Net => "net",
            Field::Kind => "kind",
            Field::Reviews => "reviews",
            Field::Team => "team",
            Field::BlockForm | Field::IdentForm => "form",
            Field::First => "first",
            Field::Last => "last",
            Field::Name => "name",
            Field::Length => "length",
            Field::Node => "node",
            Field::Want => "want",
            Field::Pdu => "pdu",
            Field::Priority => "priority",
            Field::Source => "source",
            Field::Destination => "destination",
            Field::Message => "message",
            Field::Signal => "signal",
            Field::Same => "same",
            Field::Size => "size",
            Field::Order => "order",
            Field::Signed => "signed",
            Field::Mux => "mux",
            Field::Factor => "factor",
            Field::Offset => "offset",
            Field::Minimum => "minimum",
            Field::Maximum => "maximum",
            Field::Unit => "unit",
            Field::Receiver => "receiver",
            Field::Start => "start",
            Field::Value => "value",
            Field::File => "file",
        }
    }

    /// What its values are.
    pub fn kind(self) -> FieldKind
        ensures { result ≡ (row_of self).kind }
    {
        match self {
            Field::Net => FieldKind::NetName,
            Field::Team => FieldKind::Team,
            Field::Name | Field::Node | Field::Message | Field::Signal | Field::Receiver => {
                FieldKind::Name
            }
            Field::Unit => FieldKind::Text,
            Field::File => FieldKind::Path,
            Field::Kind => FieldKind::NetKind,
            Field::IdentForm => FieldKind::IdentForm,
            Field::BlockForm => FieldKind::BlockForm,
            Field::Pdu => FieldKind::Addressing,
            Field::Order => FieldKind::ByteOrder,
            Field::Signed => FieldKind::Truth,
            Field::Mux => FieldKind::Mark,
            Field::First | Field::Last | Field::Want | Field::Same => FieldKind::Number,
            Field::Reviews => FieldKind::Reviews,
            Field::Length => FieldKind::Length,
            Field::Priority => FieldKind::Priority,
            Field::Source | Field::Destination => FieldKind::Address,
            Field::Size => FieldKind::Size,
            Field::Start => FieldKind::Start,
            Field::Factor | Field::Offset | Field::Minimum | Field::Maximum => FieldKind::Decimal,
            Field::Value => FieldKind::ValueText,
        }
    }

    /// How often it may be given.
    pub fn occurrence(self) -> Occurrence
        ensures { result ≡ (row_of self).occurrence }
    {
        match self {
            Field::Receiver | Field::Value => Occurrence::Repeated,
            Field::Node
            | Field::Want
            | Field::Destination
            | Field::Same
            | Field::Mux
            | Field::Start => Occurrence::Optional,
            _ => Occurrence::Required,
        }
    }
}
