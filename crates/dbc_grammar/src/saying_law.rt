//! A law about what the statements of a DBC file say. It is about the definitions; it involves no code.
ghost use Rattle.dbc_grammar.specs.Saying.{SaysOneAtMost};

/// The statements of a DBC file say one sheet at most: two sheets that they say are equal. Code whose contract needs
/// this calls the function, which does nothing.
pub fn statements_say_one_sheet()
    ensures { SaysOneAtMost }
{}
