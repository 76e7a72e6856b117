//! The lines of a text.
ghost use Rattle.std.specs.Prelude.{◌≡◌, ◌↔◌, ◌<◌, ◌∷◌, [], List, ℕ, length, MatchOption, IfSome};
ghost use Rattle.office_script.specs.Lines.{lines_of, AreLinesOf, says_nothing};

use base::split_once;

/// The first line of a text, and what follows it.
#[derive(Clone, Copy)]
pub struct FirstLine<'a> {
    /// The bytes before the first line feed, or all of them if there is none. A carriage return is a byte of its line.
    pub line: &'a [u8],
    /// What follows that line feed: the text of the further lines.
    pub rest: &'a [u8],
}

/// Splits the first line off a text, or gives `None` if no line is left.
///
/// The lines of a text are what is between its line feeds. A line feed at the very end ends the last line and
/// doesn't begin another one, and the last line need not have one.
pub fn first_line(text: &[u8]) -> Option<FirstLine<'_>>
    ensures next { MatchOption result (lines_of text.now ≡ [])
        (λ first. lines_of text.now ≡ first.line.now ∷ lines_of first.rest.now) }
    ensures shorter { IfSome result (λ first. length first.rest.now < length text.now) }

    // The lines of the text: with a line feed after each they are the text, and no other list is.
    ensures lines { (lines : List (List ℕ))
        → (AreLinesOf text.now lines ↔ (lines ≡ lines_of text.now)) }
{
    if text.is_empty() {
        return None;
    }
    match split_once(text, b'\n') {
        Some((line, rest)) => Some(FirstLine { line, rest }),
        None => Some(FirstLine {
            line: text,
            rest: &[],
        }),
    }
}

/// Whether a line requests nothing: it is empty, or begins with `#`.
pub fn says_nothing(line: &[u8]) -> bool
    ensures { result ≡ says_nothing line.now }
{
    matches!(line, [] | [b'#', ..])
}
