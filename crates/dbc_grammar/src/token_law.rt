//! A law about the tokens of a DBC text. It is about the definitions; it involves no code.
ghost use Rattle.dbc_grammar.specs.TokenLaw.{TokensAreRead, TokensAreOne, TokensAreSlices, FaultsAreExact};
ghost use Rattle.dbc_grammar.specs.TokenLaw.{InsidesAreKept};

/// What holds of the tokens of every DBC text (`specs/TokenLaw.antt`). The function does nothing.
///
/// A text has exactly the tokens that are read of it without a fault, and at most one list of them. Reading ends with a
/// fault exactly where no token begins after those that were read. All tokens that are read are slices of the text, in
/// order, and the value of a text token is what is inside its quotes.
pub fn tokens_are_exact()
    ensures read { TokensAreRead }
    ensures one { TokensAreOne }
    ensures slices { TokensAreSlices }
    ensures faults { FaultsAreExact }
    ensures insides { InsidesAreKept }
{}
