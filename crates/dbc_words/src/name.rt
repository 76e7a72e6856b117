//! Names of messages, signals, nodes and value tables.
ghost use Rattle.std.specs.Prelude.{◌≡◌};
ghost use Rattle.std.specs.List.{list_all};
ghost use Rattle.dbc_words.specs.Name.{starts_identifier, continues_identifier, is_c_identifier, is_name};

use crate::keyword::Keyword;
use crate::limits::NAME_LIMIT;
use base::{Checked, Rule};

/// What a DBC file writes instead of a node's name where there is no node.
pub const NO_NODE: &[u8] = b"Vector__XXX";

/// Whether the byte may begin a C identifier: a letter `A` to `Z`, `a` to `z`, or `_`.
#[inline]
pub fn starts_identifier(byte: u8) -> bool
    ensures { result ≡ starts_identifier byte }
{
    byte.is_ascii_uppercase() || byte.is_ascii_lowercase() || byte == b'_'
}

/// Whether the byte may come after the first one of a C identifier: a letter, a digit or `_`.
#[inline]
pub fn continues_identifier(byte: u8) -> bool
    ensures { result ≡ continues_identifier byte }
{
    starts_identifier(byte) || byte.is_ascii_digit()
}

fn all_continue(bytes: &[u8]) -> bool
    ensures { result ≡ list_all continues_identifier bytes.now }
{
    bytes.iter().all(|byte| continues_identifier(*byte))
}

/// Whether the bytes are a C identifier, of any length, keywords too.
pub fn is_c_identifier(bytes: &[u8]) -> bool
    ensures { result ≡ is_c_identifier bytes.now }
{
    match bytes {
        [] => false,
        [first, rest @ ..] => starts_identifier(*first) && all_continue(rest),
    }
}

/// Whether the bytes are a name: a C identifier of at most [`NAME_LIMIT`] bytes that is no keyword and not
/// `Vector__XXX`.
#[tactic(auto, unfolding(crate::specs::Name::is_name))]
pub fn is_name(bytes: &[u8]) -> bool
    ensures { result ≡ is_name bytes.now }
{
    is_c_identifier(bytes)
        && bytes.len() <= NAME_LIMIT
        && Keyword::of(bytes).is_none()
        && bytes != NO_NODE
}

/// The rule of names.
pub struct NameRule;

impl Rule for NameRule {
    ghost use Rattle.dbc_words.specs.Name.{is_name, IsName};

    ghost Keeps = { IsName };

    ghost accepts = { is_name };

    fn accepts(bytes: &[u8]) -> bool {
        is_name(bytes)
    }
}

/// The name of a message, a signal, a node or a value table: a C identifier of 1 to [`NAME_LIMIT`] bytes that is no
/// DBC keyword and not `Vector__XXX`. Contracts see it as its bytes.
pub type Name = Checked<NameRule>;
