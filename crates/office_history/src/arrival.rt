//! Requests that arrive, and what they are answered.

use crate::key::Key;
use office_types::{Command, Reply, Team};

/// A request to the office, and the bytes in which it came.
pub struct Request {
    /// The bytes by which a repeat is distinguished from another request.
    pub content: Vec<u8>,
    /// The command that they say.
    pub command: Command,
}

/// A team's request under a key.
pub struct Arrival {
    /// The team whose request it is.
    pub team: Team,
    /// The key that the team gave the request.
    pub key: Key,
    /// What it requests.
    pub request: Request,
}

/// What an arrival is answered.
#[derive(PartialEq, Eq, Drop)]
pub enum Answer {
    /// What the office replied to the first arrival of the team's key.
    Reply(Reply),
    /// The team has used the key for a request with another content. Nothing changed. Its number is 70.
    KeyReused,
}

impl Drop for Request {
    fn drop(self) {
        let Request {
            content: _content,
            command: _command,
        } = self;
    }
}

impl Drop for Arrival {
    fn drop(self) {
        let Arrival {
            team: _team,
            key: _key,
            request: _request,
        } = self;
    }
}
