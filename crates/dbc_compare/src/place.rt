//! Where two sheets differ.
use base::Copying;
use can_id::Ident;
use dbc_words::Name;
use std::alloc::{AllocError, Global};

/// What a message is known by.
pub struct MessageKey {
    /// The identifier with which it is sent.
    pub ident: Ident,
    /// Its name.
    pub name: Name,
}

/// Where two sheets differ.
#[derive(Drop)]
pub enum Region {
    /// In the sheet itself.
    Sheet,
    /// Among the nodes.
    Nodes,
    /// Among the value tables.
    Tables,
    /// In a message or its signals.
    Message {
        /// The message of the old sheet; where it was added, the message itself.
        old: MessageKey,
        /// The message of the new sheet; where it was removed, the message itself.
        new: MessageKey,
    },
}

impl Copying for MessageKey {
    fn duplicate(&self, alloc: Global) -> Result<Self, AllocError> {
        Ok(MessageKey {
            ident: self.ident,
            name: self.name.duplicate(alloc)?,
        })
    }
}

impl Copying for Region {
    fn duplicate(&self, alloc: Global) -> Result<Self, AllocError> {
        match self {
            Region::Sheet => Ok(Region::Sheet),
            Region::Nodes => Ok(Region::Nodes),
            Region::Tables => Ok(Region::Tables),
            Region::Message { old, new } => Ok(Region::Message {
                old: old.duplicate(alloc)?,
                new: new.duplicate(alloc)?,
            }),
        }
    }
}

impl Drop for MessageKey {
    fn drop(self) {
        let MessageKey {
            ident: _ident,
            name: _name,
        } = self;
    }
}
