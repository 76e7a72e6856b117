//! What may come in a statement, kind by kind.
ghost use Rattle.std.specs.Prelude.{◌≡◌};
ghost use Rattle.dbc_advice.specs.Candidate.{phrase_of, sample_of};

/// A kind of token that may come in a statement.
#[derive(Clone, Copy)]
pub(crate) enum Candidate {
    /// A number.
    Number,
    /// Any name, also a keyword.
    AnyName,
    /// A name that is no keyword.
    Name,
    /// A text in quotes.
    Text,
    /// A multiplexer indicator.
    Indicator,
    /// `;`.
    Semicolon,
    /// `:`.
    Colon,
    /// `,`.
    Comma,
    /// `|`.
    Bar,
    /// `@`.
    At,
    /// `(`.
    LeftParenthesis,
    /// `)`.
    RightParenthesis,
    /// `[`.
    LeftBracket,
    /// `]`.
    RightBracket,
    /// `+`.
    Plus,
    /// `-`.
    Minus,
    /// The keyword of a further statement.
    Statement,
    /// `SG_`.
    Signal,
    /// `BU_`.
    Nodes,
    /// `BO_`.
    Message,
    /// `EV_`.
    EnvironmentVariable,
    /// `BS_`.
    BitTiming,
}

/// All of them, in the order in which they are reported.
pub(crate) const CANDIDATES: [Candidate; 22] = [
    Candidate::Number,
    Candidate::AnyName,
    Candidate::Name,
    Candidate::Text,
    Candidate::Indicator,
    Candidate::Semicolon,
    Candidate::Colon,
    Candidate::Comma,
    Candidate::Bar,
    Candidate::At,
    Candidate::LeftParenthesis,
    Candidate::RightParenthesis,
    Candidate::LeftBracket,
    Candidate::RightBracket,
    Candidate::Plus,
    Candidate::Minus,
    Candidate::Statement,
    Candidate::Signal,
    Candidate::Nodes,
    Candidate::Message,
    Candidate::EnvironmentVariable,
    Candidate::BitTiming,
];

impl Candidate {
    /// A token of the kind, which is in range wherever the kind may come.
    pub fn sample(self) -> &'static str
        ensures { result.now ≡ sample_of self }
    {
        match self {
            Candidate::Number => "1",
            Candidate::AnyName => "SG_MUL_VAL_",
            Candidate::Name => "Name",
            Candidate::Text => "\"\"",
            Candidate::Indicator => "M",
            Candidate::Semicolon => ";",
            Candidate::Colon => ":",
            Candidate::Comma => ",",
            Candidate::Bar => "|",
            Candidate::At => "@",
            Candidate::LeftParenthesis => "(",
            Candidate::RightParenthesis => ")",
            Candidate::LeftBracket => "[",
            Candidate::RightBracket => "]",
            Candidate::Plus => "+",
            Candidate::Minus => "-",
            Candidate::Statement => "VERSION",
            Candidate::Signal => "SG_",
            Candidate::Nodes => "BU_",
            Candidate::Message => "BO_",
            Candidate::EnvironmentVariable => "EV_",
            Candidate::BitTiming => "BS_",
        }
    }

    /// How a sentence names the kind.
    pub fn phrase(self) -> &'static str
        ensures { result.now ≡ phrase_of self }
    {
        match self {
            Candidate::Number => "a number",
            Candidate::AnyName => "a name",
            Candidate::Name => "a name",
            Candidate::Text => "a text in quotes",
            Candidate::Indicator => "an indicator (M or m0)",
            Candidate::Semicolon => "';'",
            Candidate::Colon => "':'",
            Candidate::Comma => "','",
            Candidate::Bar => "'|'",
            Candidate::At => "'@'",
            Candidate::LeftParenthesis => "'('",
            Candidate::RightParenthesis => "')'",
            Candidate::LeftBracket => "'['",
            Candidate::RightBracket => "']'",
            Candidate::Plus => "'+'",
            Candidate::Minus => "'-'",
            Candidate::Statement => "the keyword of a statement",
            Candidate::Signal => "SG_",
            Candidate::Nodes => "BU_",
            Candidate::Message => "BO_",
            Candidate::EnvironmentVariable => "EV_",
            Candidate::BitTiming => "BS_",
        }
    }

    /// Whether another kind reports this one, so that it need not be reported too: a sign by a number, an indicator by
    /// a name, most keywords by that of a statement, and all of these by any name.
    pub(crate) fn is_reported_by(self, other: Candidate) -> bool {
        match other {
            Candidate::Number => matches!(self, Candidate::Plus | Candidate::Minus),
            Candidate::Name => matches!(self, Candidate::Indicator),
            Candidate::AnyName => matches!(
                self,
                Candidate::Name
                    | Candidate::Indicator
                    | Candidate::Statement
                    | Candidate::Signal
                    | Candidate::Nodes
                    | Candidate::Message
                    | Candidate::EnvironmentVariable
                    | Candidate::BitTiming
            ),
            Candidate::Statement => matches!(
                self,
                Candidate::Nodes
                    | Candidate::Message
                    | Candidate::EnvironmentVariable
                    | Candidate::BitTiming
            ),
            _ => false,
        }
    }
}
