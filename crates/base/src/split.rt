//! Bytes before and after a separator.
ghost use Rattle.std.specs.Prelude.{◌≡◌, ◌≢◌, ◌∷◌, ◌++◌, All, MatchOption};
ghost use Rattle.std.specs.Option.{option_map};
ghost use Rattle.base.specs.Split.{split_once};

/// The parts, by the first separator.
fn split_at_first(bytes: &[u8], separator: u8) -> Option<(&[u8], &[u8])>
    ensures { MatchOption result (All (λ b. b ≢ separator) bytes.now)
        (λ parts. All (λ b. b ≢ separator) parts.0.now
        × (bytes.now ≡ parts.0.now ++ (separator ∷ parts.1.now))) }
{
    let end = bytes.iter().position(|byte| *byte == separator)?;
    Some((&bytes[..end], &bytes[end + 1..]))
}

/// The bytes before the first separator and the bytes after it, or `None` where there is no separator.
pub fn split_once(bytes: &[u8], separator: u8) -> Option<(&[u8], &[u8])>
    ensures parts { MatchOption result (All (λ b. b ≢ separator) bytes.now)
        (λ parts. All (λ b. b ≢ separator) parts.0.now
        × (bytes.now ≡ parts.0.now ++ (separator ∷ parts.1.now))) }
    ensures computed { option_map (λ parts. (parts.0.now, parts.1.now)) result
        ≡ split_once separator bytes.now }
{
    split_at_first(bytes, separator)
}
