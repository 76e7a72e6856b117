//! Lines of a script whose commands were refused.
ghost use Rattle.office_reasons.specs.Pieces.{IsSentence};

use office_types::Refusal;

/// A line of a script whose command was refused.
#[derive(Drop)]
pub struct RefusedLine {
    /// Its number, from 1.
    pub(crate) number: usize,
    /// The refusal; `None` where the key was used for another request.
    pub(crate) refusal: Option<Refusal>,
    /// Why it was refused.
    pub(crate) sentence: Vec<u8>,
    ghost one_line: { IsSentence sentence.items },
}
