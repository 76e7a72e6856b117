//! Lines on requests, written where they are wanted.

use crate::lines::line_of;
use crate::reasons::wanted;
use desk_call::{Exchange, Notes, OfficeRead, WantedNet};
use desk_head::Routes;
use std::alloc::{AllocError, Global};
use std::io::Write;

/// Where a line goes on each request that isn't answered by 200, or nowhere.
pub struct NoteLines<'r, W> {
    /// The routes of the desk.
    pub routes: &'r Routes,
    /// Where the lines go, if they are wanted.
    pub to: Option<W>,
}

impl<W: Write> Notes for NoteLines<'_, W> {
    fn is_on(&self) -> bool {
        self.to.is_some()
    }

    /// Nothing is wanted where there is no memory to say what.
    fn wanted(&self, alloc: Global, exchange: &Exchange) -> Option<WantedNet> {
        match wanted(alloc, self.routes, exchange) {
            Ok(found) => found,
            Err(AllocError) => None,
        }
    }

    /// The line is written by one write, and left out where there is no memory for it, or where it can't be written.
    fn note(&mut self, alloc: Global, exchange: &Exchange, read: Option<OfficeRead<'_>>) {
        if let Some(to) = &mut self.to {
            if let Ok(Some(line)) = line_of(alloc, self.routes, exchange, read) {
                let _written = to.write(&line);
            }
        }
    }
}

impl<W: Drop> Drop for NoteLines<'_, W> {
    fn drop(self) {
        let NoteLines { routes: _, to: _to } = self;
    }
}
