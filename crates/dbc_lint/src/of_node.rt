//! Remarks on a node.
ghost use Rattle.std.specs.Prelude.{◌≡◌, ◌++◌, OnOk};
ghost use Rattle.dbc_lint.specs.OfNode.{of_node};

use crate::kind::Kind;
use crate::of_signal::is_long;
use crate::remark::{Remark, add_when};
use crate::whole::Whole;
use dbc_words::Name;
use std::alloc::{AllocError, Global};

/// Adds the remarks on a node of the name.
pub(crate) fn add_of_node(
    alloc: Global,
    whole: &Whole,
    name: &Name,
    at: usize,
    remarks: &mut Vec<Remark>,
) -> Result<(), AllocError>
    ensures { OnOk result (remarks.new.items ≡ remarks.old.items
        ++ of_node whole.now name.now at) }
{
    let words = name.as_bytes();
    add_when(alloc, is_long(name), Kind::LongName, at, words, remarks)?;
    add_when(
        alloc,
        whole.is_idle(name),
        Kind::IdleNode,
        at,
        words,
        remarks,
    )
}
