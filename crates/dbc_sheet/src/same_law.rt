//! A law of the equality of messages.
ghost use Rattle.dbc_sheet.specs.Same.{SameIsEqual};

/// `==` of two messages answers whether they are equal as contracts see them: identifier, name, length, transmitter,
/// comment, and each signal with all its fields, in order; decimals by their values. The function does nothing.
pub fn same_messages_are_equal()
    ensures { SameIsEqual }
{}
