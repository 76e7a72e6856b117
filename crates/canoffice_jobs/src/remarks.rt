//! The words that choose which remarks `check` prints.
ghost use Rattle.std.specs.Prelude.{◌≡◌, IfOk, map, true};
ghost use Rattle.canoffice_jobs.specs.CommandLine.{has_options, is_check, lint_entered, lint_word};

use std::alloc::{AllocError, Global};

/// The names of the kinds of remarks, for people.
const NAMES: &str =
    "LongName, ZeroFactor, RangeInverted, RangeOutside, FloatSize, MuxOutside, MuxUnused, SpnTwice, ValueOutside, ValueTwice, UnknownNode, LongFrame, AddressTwice and IdleNode";

/// The message on a name of remarks that no kind has. The error is out of memory.
pub(crate) fn remark_refusal(alloc: Global, word: &str) -> Result<String, AllocError> {
    format!(in alloc; "invalid value '{word}' for '--lint <NAMES>': not one of {NAMES}")
}

/// Whether the words are of the subcommand `check`. The first word is the program's own name.
pub fn is_check(words: &[&str]) -> bool
    ensures { result ≡ is_check (map (λ s. s.now) words.now) }
{
    match words {
        [_, name, ..] => *name == "check",
        _ => false,
    }
}

/// Whether options may follow the word, if they might before it.
fn has_options(before: bool, word: &str) -> bool
    ensures { result ≡ has_options before word.now }
{
    before && word != "--"
}

/// `--lint=` for `--lint`, if it is an option.
fn lint_word(is_option: bool, word: &str) -> &str
    ensures { result.now ≡ lint_word is_option word.now }
{
    if is_option && word == "--lint" {
        return "--lint=";
    }
    word
}

/// The words with `--lint=` for each `--lint`, up to `--`.
pub fn lint_entered<'a>(alloc: Global, words: &[&'a str]) -> Result<Vec<&'a str>, AllocError>
    ensures { IfOk result (λ entered. map (λ s. s.now) entered.items
        ≡ lint_entered true (map (λ s. s.now) words.now)) }
{
    let mut entered = Vec::new(alloc);
    let mut options = true;
    for word in words {
        options = has_options(options, word);
        entered.push(lint_word(options, word))?;
    }
    Ok(entered)
}
