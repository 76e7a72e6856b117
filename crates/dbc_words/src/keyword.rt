//! The words that DBC text reserves.
ghost use Rattle.std.specs.Prelude.{◌≡◌, Some, find, IfSome};
ghost use Rattle.dbc_words.specs.Keyword.{keyword_of, ends_keyword};

/// A word that DBC text reserves (Vector's DBC File Format Documentation, the keywords of its statements).
#[derive(Clone, Copy, PartialEq, Eq)]
pub enum Keyword {
    /// `VERSION`. The file's version text.
    Version,
    /// `NS_`. A list of the keywords that the file's author knew.
    NewSymbols,
    /// `BS_`. Bit timing of the network.
    BitTiming,
    /// `BU_`. The network's nodes.
    Nodes,
    /// `VAL_TABLE_`. A named table of value texts.
    ValueTable,
    /// `BO_`. A message.
    Message,
    /// `SG_`. A signal of the message before it.
    Signal,
    /// `CM_`. A comment.
    Comment,
    /// `VAL_`. Value texts of a signal.
    ValueTexts,
    /// `SIG_VALTYPE_`. Whether a signal's raw value is an integer or a float.
    SignalValueType,
    /// `BA_`. A value of an attribute.
    AttributeValue,
    /// `BO_TX_BU_`. Further transmitters of a message.
    MessageTransmitters,
    /// `EV_`. An environment variable.
    EnvironmentVariable,
    /// `ENVVAR_DATA_`. An environment variable that holds data.
    EnvironmentVariableData,
    /// `EV_DATA_`. Data of an environment variable.
    EnvironmentData,
    /// `SGTYPE_`. A signal type.
    SignalType,
    /// `SGTYPE_VAL_`. Value texts of a signal type.
    SignalTypeValues,
    /// `SIG_GROUP_`. A group of signals.
    SignalGroup,
    /// `SIG_TYPE_REF_`. The signal type of a signal.
    SignalTypeReference,
    /// `SIGTYPE_VALTYPE_`. Whether a signal type's raw value is an integer or a float.
    SignalTypeValueType,
    /// `CAT_`. A category of a message.
    Category,
    /// `CAT_DEF_`. A category.
    CategoryDefinition,
    /// `FILTER`. A filter.
    Filter,
    /// `NS_DESC_`. A description of a new symbol.
    NewSymbolDescription,
    /// `BA_DEF_`. An attribute.
    AttributeDefinition,
    /// `BA_DEF_DEF_`. The default of an attribute.
    AttributeDefault,
    /// `BA_DEF_REL_`. An attribute of a relation.
    RelationAttributeDefinition,
    /// `BA_REL_`. A value of an attribute of a relation.
    RelationAttributeValue,
    /// `BA_DEF_DEF_REL_`. The default of an attribute of a relation.
    RelationAttributeDefault,
    /// `BA_DEF_SGTYPE_`. An attribute of a signal type.
    SignalTypeAttributeDefinition,
    /// `BA_SGTYPE_`. A value of an attribute of a signal type.
    SignalTypeAttributeValue,
    /// `BU_SG_REL_`. A relation of a node and a signal.
    NodeSignalRelation,
    /// `BU_EV_REL_`. A relation of a node and an environment variable.
    NodeEnvironmentRelation,
    /// `BU_BO_REL_`. A relation of a node and a message.
    NodeMessageRelation,
    /// `SG_MUL_VAL_`. Extended multiplexing.
    ExtendedMultiplexing,
}

/// All keywords.
const KEYWORDS: [Keyword; 35] = [
    Keyword::Version,
    Keyword::NewSymbols,
    Keyword::BitTiming,
    Keyword::Nodes,
    Keyword::ValueTable,
    Keyword::Message,
    Keyword::Signal,
    Keyword::Comment,
    Keyword::ValueTexts,
    Keyword::SignalValueType,
    Keyword::AttributeValue,
    Keyword::MessageTransmitters,
    Keyword::EnvironmentVariable,
    Keyword::EnvironmentVariableData,
    Keyword::EnvironmentData,
    Keyword::SignalType,
    Keyword::SignalTypeValues,
    Keyword::SignalGroup,
    Keyword::SignalTypeReference,
    Keyword::SignalTypeValueType,
    Keyword::Category,
    Keyword::CategoryDefinition,
    Keyword::Filter,
    Keyword::NewSymbolDescription,
    Keyword::AttributeDefinition,
    Keyword::AttributeDefault,
    Keyword::RelationAttributeDefinition,
    Keyword::RelationAttributeValue,
    Keyword::RelationAttributeDefault,
    Keyword::SignalTypeAttributeDefinition,
    Keyword::SignalTypeAttributeValue,
    Keyword::NodeSignalRelation,
    Keyword::NodeEnvironmentRelation,
    Keyword::NodeMessageRelation,
    Keyword::ExtendedMultiplexing,
];

/// Whether the last byte is one with which some keyword ends. Few names end with one.
fn ends_keyword(word: &[u8]) -> bool
    ensures { result ≡ ends_keyword word.now }
{
    let last = word.last().copied().unwrap_or(0);
    matches!(last, b'_' | b'N' | b'R')
}

/// The most frequent keywords of a file, which are looked for first.
fn frequent_keyword(word: &[u8]) -> Option<Keyword>
    ensures { IfSome result (λ keyword. keyword_of word.now ≡ Some keyword) }
{
    match word {
        b"SG_" => Some(Keyword::Signal),
        b"CM_" => Some(Keyword::Comment),
        b"BO_" => Some(Keyword::Message),
        b"VAL_" => Some(Keyword::ValueTexts),
        _ => None,
    }
}

impl Keyword {
    ghost use Rattle.dbc_words.specs.Keyword.{keyword_of, keyword_text};

    /// The keyword that the bytes spell, or `None` if they are no keyword.
    pub fn of(word: &[u8]) -> Option<Keyword>
        ensures { result ≡ keyword_of word.now }
    {
        if !ends_keyword(word) {
            return None;
        }
        match frequent_keyword(word) {
            Some(keyword) => Some(keyword),
            None => Keyword::listed_keyword(word),
        }
    }

    /// The keyword among all of them that the bytes spell.
    fn listed_keyword(word: &[u8]) -> Option<Keyword>
        ensures { result ≡ keyword_of word.now }
    {
        KEYWORDS
            .iter()
            .copied()
            .find(|keyword| keyword.text().as_bytes() == word)
    }

    /// The keyword's spelling.
    pub fn text(self) -> &'static str
        ensures { result.now ≡ keyword_text self }
    {
        match self {
            Keyword::Version => "VERSION",
            Keyword::NewSymbols => "NS_",
            Keyword::BitTiming => "BS_",
            Keyword::Nodes => "BU_",
            Keyword::ValueTable => "VAL_TABLE_",
            Keyword::Message => "BO_",
            Keyword::Signal => "SG_",
            Keyword::Comment => "CM_",
            Keyword::ValueTexts => "VAL_",
            Keyword::SignalValueType => "SIG_VALTYPE_",
            Keyword::AttributeValue => "BA_",
            Keyword::MessageTransmitters => "BO_TX_BU_",
            Keyword::EnvironmentVariable => "EV_",
            Keyword::EnvironmentVariableData => "ENVVAR_DATA_",
            Keyword::EnvironmentData => "EV_DATA_",
            Keyword::SignalType => "SGTYPE_",
            Keyword::SignalTypeValues => "SGTYPE_VAL_",
            Keyword::SignalGroup => "SIG_GROUP_",
            Keyword::SignalTypeReference => "SIG_TYPE_REF_",
            Keyword::SignalTypeValueType => "SIGTYPE_VALTYPE_",
            Keyword::Category => "CAT_",
            Keyword::CategoryDefinition => "CAT_DEF_",
            Keyword::Filter => "FILTER",
            Keyword::NewSymbolDescription => "NS_DESC_",
            Keyword::AttributeDefinition => "BA_DEF_",
            Keyword::AttributeDefault => "BA_DEF_DEF_",
            Keyword::RelationAttributeDefinition => "BA_DEF_REL_",
            Keyword::RelationAttributeValue => "BA_REL_",
            Keyword::RelationAttributeDefault => "BA_DEF_DEF_REL_",
            Keyword::SignalTypeAttributeDefinition => "BA_DEF_SGTYPE_",
            Keyword::SignalTypeAttributeValue => "BA_SGTYPE_",
            Keyword::NodeSignalRelation => "BU_SG_REL_",
            Keyword::NodeEnvironmentRelation => "BU_EV_REL_",
            Keyword::NodeMessageRelation => "BU_BO_REL_",
            Keyword::ExtendedMultiplexing => "SG_MUL_VAL_",
        }
    }
}
