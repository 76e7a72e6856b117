//! The words of a line, and where they are.
ghost use Rattle.std.specs.Prelude.{◌≡◌, ◌≤◌, ◌+◌, ◌<◌, ◌∷◌, length, MatchOption};
ghost use Rattle.office_script.specs.Words.{words_after, words_of};
ghost use Rattle.office_advice.specs.Words.{offset_of, word_of};

use office_script::first_word;

/// A word of a line.
#[derive(Clone, Copy)]
pub(crate) struct LineWord<'a> {
    /// The word.
    pub(crate) word: &'a [u8],
    /// How many bytes of the line come before it.
    pub(crate) offset: usize,
}

/// The word of the line at the index, from 0. A line has its end after the last word: there is an empty word.
pub(crate) fn word_at(line: &[u8], index: usize) -> LineWord<'_>
    ensures word { result.word.now ≡ word_of (words_of line.now) index }
    ensures offset { result.offset ≡ offset_of (words_of line.now) index }
    ensures within { result.offset ≤ length line.now + 1 }
{
    let mut offset = 0usize;
    let mut left = index;
    let mut rest = Some(line);
    while let Some(words) = rest {
        let first = first_word(words);
        if left == 0 {
            return LineWord {
                word: first.word,
                offset,
            };
        }
        offset += first.word.len() + 1;
        left -= 1;
        rest = first.rest;
    }
    LineWord { word: &[], offset }
}

/// The parts of a line: its first three words, and what follows them.
#[derive(Clone, Copy)]
pub(crate) struct LineParts<'a> {
    pub(crate) key: &'a [u8],
    pub(crate) team: &'a [u8],
    pub(crate) command: &'a [u8],
    /// The words of the fields; `None` if there are none.
    pub(crate) rest: Option<&'a [u8]>,
}

/// The parts of the line, or `None` if it has fewer than three words.
pub(crate) fn line_parts(line: &[u8]) -> Option<LineParts<'_>>
    ensures { MatchOption result (length (words_of line.now) < 3)
        (λ p. words_of line.now ≡ p.key.now ∷ p.team.now ∷ p.command.now ∷ words_after p.rest) }
{
    let key = first_word(line);
    let team = first_word(key.rest?);
    let command = first_word(team.rest?);
    Some(LineParts {
        key: key.word,
        team: team.word,
        command: command.word,
        rest: command.rest,
    })
}
