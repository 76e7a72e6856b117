//! The places of skipped statements.
ghost use Rattle.std.specs.Prelude.{◌≡◌, ◌==◌};
ghost use Rattle.dbc_keep.specs.Places.{place_number};
ghost use Rattle.dbc_keep_law.specs.Kept.{place_of};

use dbc_words::Keyword;

/// A place between the parts of a canonical text, in their order.
#[derive(Clone, Copy, PartialEq, Eq)]
pub(crate) enum KeptPlace {
    /// After the messages: the signals of no message.
    Messages,
    /// Further transmitters of messages.
    Transmitters,
    /// Environment variables.
    EnvironmentVariables,
    /// Their data.
    EnvironmentData,
    /// Types of signals.
    SignalTypes,
    /// After the comments: comments of things that the sheet doesn't have.
    Comments,
    /// Definitions of attributes.
    Definitions,
    /// Their defaults.
    Defaults,
    /// Their values, before the suspect parameter numbers.
    Values,
    /// After the texts of values: those of things that the sheet doesn't have.
    ValueTexts,
    /// Categories.
    CategoryDefinitions,
    /// Which messages have them.
    Categories,
    /// Filters.
    Filters,
    /// The types that signals have.
    SignalTypeReferences,
    /// Groups of signals.
    Groups,
    /// After the value types: those of signals that the sheet doesn't have.
    ValueTypes,
    /// All other statements.
    Others,
}

impl KeptPlace {
    /// The place of a keyword's statements.
    pub(crate) fn of(keyword: Keyword) -> KeptPlace
        ensures { place_number result ≡ place_of keyword }
    {
        match keyword {
            Keyword::Message => KeptPlace::Messages,
            Keyword::MessageTransmitters => KeptPlace::Transmitters,
            Keyword::EnvironmentVariable => KeptPlace::EnvironmentVariables,
            Keyword::EnvironmentVariableData => KeptPlace::EnvironmentData,
            Keyword::EnvironmentData => KeptPlace::EnvironmentData,
            Keyword::SignalType => KeptPlace::SignalTypes,
            Keyword::SignalTypeValues => KeptPlace::SignalTypes,
            Keyword::SignalTypeValueType => KeptPlace::SignalTypes,
            Keyword::Comment => KeptPlace::Comments,
            Keyword::AttributeDefinition => KeptPlace::Definitions,
            Keyword::RelationAttributeDefinition => KeptPlace::Definitions,
            Keyword::SignalTypeAttributeDefinition => KeptPlace::Definitions,
            Keyword::AttributeDefault => KeptPlace::Defaults,
            Keyword::RelationAttributeDefault => KeptPlace::Defaults,
            Keyword::AttributeValue => KeptPlace::Values,
            Keyword::RelationAttributeValue => KeptPlace::Values,
            Keyword::SignalTypeAttributeValue => KeptPlace::Values,
            Keyword::ValueTexts => KeptPlace::ValueTexts,
            Keyword::CategoryDefinition => KeptPlace::CategoryDefinitions,
            Keyword::Category => KeptPlace::Categories,
            Keyword::Filter => KeptPlace::Filters,
            Keyword::SignalTypeReference => KeptPlace::SignalTypeReferences,
            Keyword::SignalGroup => KeptPlace::Groups,
            Keyword::SignalValueType => KeptPlace::ValueTypes,
            _ => KeptPlace::Others,
        }
    }

    /// Its number in that order.
    fn number(self) -> u8
        ensures { result ≡ place_number self }
    {
        match self {
            KeptPlace::Messages => 0,
            KeptPlace::Transmitters => 1,
            KeptPlace::EnvironmentVariables => 2,
            KeptPlace::EnvironmentData => 3,
            KeptPlace::SignalTypes => 4,
            KeptPlace::Comments => 5,
            KeptPlace::Definitions => 6,
            KeptPlace::Defaults => 7,
            KeptPlace::Values => 8,
            KeptPlace::ValueTexts => 9,
            KeptPlace::CategoryDefinitions => 10,
            KeptPlace::Categories => 11,
            KeptPlace::Filters => 12,
            KeptPlace::SignalTypeReferences => 13,
            KeptPlace::Groups => 14,
            KeptPlace::ValueTypes => 15,
            KeptPlace::Others => 16,
        }
    }

    /// Whether statements of the keyword are here.
    pub(crate) fn has(self, keyword: Keyword) -> bool
        ensures { result ≡ (place_of keyword == place_number self) }
    {
        KeptPlace::of(keyword).number() == self.number()
    }
}
