//! The words of a line.
ghost use Rattle.std.specs.Prelude.{◌≡◌, ◌↔◌, ◌<◌, ◌∷◌, ◌++◌, List, ℕ, length, IfSome, MatchOption};
ghost use Rattle.office_script.specs.Words.{words_of, words_after, AreWordsOf};

use base::split_once;

/// The first word of a line, and what follows it.
#[derive(Clone, Copy)]
pub struct FirstWord<'a> {
    /// The bytes before the first space, or all of them if there is none. It may be empty.
    pub word: &'a [u8],
    /// What follows that space, which is one word or more; `None` after the last word.
    pub rest: Option<&'a [u8]>,
}

/// Splits the first word off a line.
///
/// The words of a line are what is between its spaces: between two spaces in a row there is an empty word, so is there
/// before a space at the beginning and after one at the end, and an empty line is one empty word.
pub fn first_word(line: &[u8]) -> FirstWord<'_>
    ensures next { words_of line.now ≡ result.word.now ∷ words_after result.rest }
    ensures parts { MatchOption result.rest (line.now ≡ result.word.now)
        (λ rest. line.now ≡ result.word.now ++ (32 ∷ rest.now)) }
    ensures shorter { IfSome result.rest (λ rest. length rest.now < length line.now) }

    // The words of the line: joined by single spaces they are the line, and no other list is.
    ensures words { (words : List (List ℕ))
        → (AreWordsOf line.now words ↔ (words ≡ words_of line.now)) }
{
    match split_once(line, b' ') {
        Some((word, rest)) => FirstWord {
            word,
            rest: Some(rest),
        },
        None => FirstWord {
            word: line,
            rest: None,
        },
    }
}
