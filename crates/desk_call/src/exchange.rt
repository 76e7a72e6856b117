//! What goes over a connection, for whoever reports it.
use office_types::{Net, NetName, SpnBook};
use std::alloc::Global;

/// What was read and written on a connection. It is kept where it is wanted, and else nothing is.
pub struct Exchange {
    /// Whether it is wanted.
    pub is_wanted: bool,
    /// What was read up to the end of the head, and perhaps beyond.
    pub head: Vec<u8>,
    /// What was read after the head.
    pub body: Vec<u8>,
    /// The response; empty where none was written.
    pub response: Vec<u8>,
}

impl Exchange {
    /// Before anything was read.
    pub fn new(alloc: Global, is_wanted: bool) -> Exchange {
        Exchange {
            is_wanted,
            head: Vec::new(alloc),
            body: Vec::new(alloc),
            response: Vec::new(alloc),
        }
    }

    /// Keeps what was read.
    pub(crate) fn keep_request(&mut self, head: Vec<u8>, body: Vec<u8>) {
        if self.is_wanted {
            self.head = head;
            self.body = body;
        }
    }

    /// Keeps what was written.
    pub fn keep_response(&mut self, response: Vec<u8>) {
        if self.is_wanted {
            self.response = response;
        }
    }
}

impl Drop for Exchange {
    fn drop(self) {
        let Exchange {
            is_wanted: _,
            head: _head,
            body: _body,
            response: _response,
        } = self;
    }
}

/// A network on which a report depends, with its releases or without them.
#[derive(Drop)]
pub struct WantedNet {
    /// Its name.
    pub name: NetName,
    /// Whether the report depends on its releases too.
    pub releases: bool,
}

/// What is read of an office for a report.
#[derive(Clone, Copy)]
pub struct OfficeRead<'a> {
    /// The network that is wanted, `None` where it isn't there.
    pub net: Option<&'a Net>,
    /// The names of all networks where that one isn't there.
    pub names: &'a [NetName],
    /// The suspect parameter numbers of the whole office.
    pub book: &'a SpnBook,
}

impl<'a> OfficeRead<'a> {
    /// What is read of a network, or of none, of the names and of the book.
    pub fn of(net: Option<&'a Net>, names: &'a [NetName], book: &'a SpnBook) -> OfficeRead<'a> {
        OfficeRead { net, names, book }
    }
}

/// Who reports what goes over connections, beside what is written to their peers. No contract depends on it.
pub trait Notes {
    /// Whether anything is reported.
    fn is_on(&self) -> bool;

    /// What the report on a connection that has ended depends on, of the office as it is after it, if on anything.
    fn wanted(&self, alloc: Global, exchange: &Exchange) -> Option<WantedNet>;

    /// Reports what went over a connection, by what was wanted, if that could be read.
    fn note(&mut self, alloc: Global, exchange: &Exchange, read: Option<OfficeRead<'_>>);
}
