//! The fields of a sheet and of its things.
ghost use Rattle.std.specs.Prelude.{◌≡◌};

/// A field of a sheet, a node, a value table, a message or a signal.
#[derive(Clone, Copy, PartialEq, Eq)]
pub enum SheetField {
    /// The version of a sheet.
    Version,
    /// The comment of anything that has one.
    Comment,
    /// The texts for the values of a value table or a signal.
    Values,
    /// The DBC number of a message.
    Number,
    /// The name of a message.
    Name,
    /// The length of a message.
    Length,
    /// The node that transmits a message.
    Transmitter,
    /// The start of a signal.
    Start,
    /// The size of a signal.
    Size,
    /// The byte order of a signal.
    Order,
    /// Whether the raw value of a signal is signed.
    Signed,
    /// The type of the raw value of a signal.
    ValueType,
    /// The multiplexer indicator of a signal.
    Mux,
    /// The factor of a signal.
    Factor,
    /// The offset of a signal.
    Offset,
    /// The least physical value of a signal.
    Minimum,
    /// The greatest physical value of a signal.
    Maximum,
    /// The unit of a signal.
    Unit,
    /// The suspect parameter number of a signal.
    Spn,
    /// The nodes that receive a signal.
    Receivers,
}

impl SheetField {
    ghost use Rattle.dbc_compare.specs.Fields.{field_word};

    /// The word of its change.
    pub fn word(self) -> &'static [u8]
        ensures { result.now ≡ field_word self }
    {
        match self {
            SheetField::Version => b"version",
            SheetField::Comment => b"comment",
            SheetField::Values => b"values",
            SheetField::Number => b"renumbered",
            SheetField::Name => b"renamed",
            SheetField::Length => b"length",
            SheetField::Transmitter => b"transmitter",
            SheetField::Start => b"start",
            SheetField::Size => b"size",
            SheetField::Order => b"order",
            SheetField::Signed => b"signed",
            SheetField::ValueType => b"type",
            SheetField::Mux => b"mux",
            SheetField::Factor => b"factor",
            SheetField::Offset => b"offset",
            SheetField::Minimum => b"minimum",
            SheetField::Maximum => b"maximum",
            SheetField::Unit => b"unit",
            SheetField::Spn => b"spn",
            SheetField::Receivers => b"receivers",
        }
    }
}
