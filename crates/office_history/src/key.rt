//! Keys of requests.
ghost use Rattle.std.specs.Prelude.{◌≡◌};
ghost use Rattle.std.specs.List.{list_all};
ghost use Rattle.office_history.specs.Key.{is_key, is_key_byte};

use base::{Checked, Rule};

/// The greatest length of a key, in bytes.
pub const KEY_LIMIT: usize = 64;

fn is_key_byte(byte: u8) -> bool
    ensures { result ≡ is_key_byte byte }
{
    33 <= byte && byte <= 126
}

fn all_key_bytes(bytes: &[u8]) -> bool
    ensures { result ≡ list_all is_key_byte bytes.now }
{
    bytes.iter().all(|byte| is_key_byte(*byte))
}

fn is_key(bytes: &[u8]) -> bool
    ensures { result ≡ is_key bytes.now }
{
    !bytes.is_empty()
        && bytes.len() <= KEY_LIMIT
        && all_key_bytes(bytes)
        && bytes != b"-".as_slice()
}

/// The rule of keys.
pub struct KeyRule;

impl Rule for KeyRule {
    ghost use Rattle.office_history.specs.Key.{is_key, IsKey};

    ghost Keeps = { IsKey };

    ghost accepts = { is_key };

    fn accepts(bytes: &[u8]) -> bool {
        is_key(bytes)
    }
}

/// The key of a request, which its team chooses: 1 to 64 bytes of 33 to 126, but not `-` alone. Contracts see it as its
/// bytes.
pub type Key = Checked<KeyRule>;
