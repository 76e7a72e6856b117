//! Nodes of a network.
use base::Copying;
use dbc_words::{Name, Named, Text};
use std::alloc::{AllocError, Global};

/// A node of a network.
#[derive(PartialEq, Eq)]
pub struct Node {
    /// The node's name.
    pub name: Name,
    /// The node's comment, empty where there is none.
    pub comment: Text,
}

impl Named for Node {
    ghost name_of = { λ node. node.name };

    fn name(&self) -> &Name {
        &self.name
    }
}

impl Copying for Node {
    fn duplicate(&self, alloc: Global) -> Result<Self, AllocError> {
        Ok(Node {
            name: self.name.duplicate(alloc)?,
            comment: self.comment.duplicate(alloc)?,
        })
    }
}

impl Drop for Node {
    fn drop(self) {
        let Node {
            name: _name,
            comment: _comment,
        } = self;
    }
}
