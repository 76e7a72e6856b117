//! How the bits of a signal are read.
ghost use Rattle.std.specs.Prelude.{◌≡◌};
ghost use Rattle.dbc_words.specs.ValueType.{value_type_number, value_type_of};

/// How the bits of a signal are to be read (the signal value types of Vector's DBC File Format Documentation). It is
/// kept and written again, and has no other effect.
#[derive(Clone, Copy, PartialEq, Eq)]
pub enum ValueType {
    /// A whole number: 0, and the default for a signal without `SIG_VALTYPE_`.
    Integer,
    /// A 32-bit float of IEEE 754: 1.
    Float,
    /// A 64-bit float of IEEE 754: 2.
    Double,
}

impl ValueType {
    /// The type that a DBC file writes as this number, or `None` above 2.
    pub fn of(number: u32) -> Option<ValueType>
        ensures { result ≡ value_type_of number }
    {
        match number {
            0 => Some(ValueType::Integer),
            1 => Some(ValueType::Float),
            2 => Some(ValueType::Double),
            _ => None,
        }
    }

    /// The number that a DBC file writes for the type, 0 to 2.
    pub fn number(self) -> u8
        ensures { result ≡ value_type_number self }
    {
        match self {
            ValueType::Integer => 0,
            ValueType::Float => 1,
            ValueType::Double => 2,
        }
    }
}
