//! What a sentence is about.
use office_types::{Net, Refusal, SpnBook, Team};
use std::alloc::{AllocError, Global};

/// A refusal of a team's command on a network that is there.
#[derive(Clone, Copy)]
pub(crate) struct Case<'a> {
    pub(crate) alloc: Global,
    pub(crate) team: &'a Team,
    pub(crate) net: &'a Net,
    /// The suspect parameter numbers of the whole office.
    pub(crate) book: &'a SpnBook,
    pub(crate) refusal: Refusal,
}

/// A sentence; `None` where what is seen doesn't show the refusal. The error is out of memory.
pub(crate) type Told = Result<Option<String>, AllocError>;

/// The sentence, if there was memory for it.
pub(crate) fn told(text: Result<String, AllocError>) -> Told {
    Ok(Some(text?))
}
