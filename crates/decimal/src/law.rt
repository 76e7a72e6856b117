//! A law about the definitions; it involves no code.
ghost use Rattle.decimal.specs.Reading.{ReadingsAreComputed};

/// The computed answer of reading is the one that the equation of values describes, and the only one. The function
/// does nothing: its contract is the law.
pub fn readings_are_computed()
    ensures { ReadingsAreComputed }
{}
