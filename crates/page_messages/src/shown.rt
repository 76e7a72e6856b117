//! Signals as they are shown.
ghost use Rattle.std.specs.Prelude.{◌≡◌, IfOk, map};
ghost use Rattle.markup.specs.Writing.{Becomes, adding};
ghost use Rattle.page_messages.specs.Signals.{listed, listed_of, number_of, star};

use dbc_sheet::Signal;
use markup::{Markup, Tag};
use page_parts::Marks;
use std::alloc::{AllocError, Global};

/// A signal of a message.
#[derive(Clone, Copy)]
pub(crate) struct Shown<'a> {
    /// Its index among the signals of the message.
    pub(crate) index: usize,
    /// The signal.
    pub(crate) signal: &'a Signal,
    /// Whether it has changed since the last release.
    pub(crate) has_changed: bool,
}

/// The signals of the message at the index. The error is out of memory.
pub(crate) fn shown_signals<'a>(
    alloc: Global,
    signals: &'a [Signal],
    marks: &Marks<'_>,
    message: usize,
) -> Result<Vec<Shown<'a>>, AllocError>
    ensures { IfOk result
        (λ shown. map listed_of shown.items ≡ listed marks.now message signals.now) }
{
    let mut shown = Vec::with_capacity(alloc, signals.len())?;
    for (index, signal) in signals.iter().enumerate() {
        let has_changed = marks.has_changed(message, signal.name.as_bytes());
        shown.push(Shown {
            index,
            signal,
            has_changed,
        })?;
    }
    Ok(shown)
}

impl Shown<'_> {
    /// Adds a star, if it has changed.
    pub(crate) fn put_star(&self, page: &mut Markup)
        ensures { Becomes page.new (adding (star (listed_of self.now)) page.old) }
    {
        if self.has_changed {
            page.element(Tag::Bold, &[], b"*");
        }
    }

    /// Its number in the table of signals, from 1.
    pub(crate) fn number(&self) -> u64
        ensures { result ≡ number_of (listed_of self.now) }
    {
        (self.index as u64).saturating_add(1)
    }
}
