//! What every layer uses, and what is of no DBC file and no office.
//!
//! - [`Items`]: a vector that contracts see as a list.
//! - [`Copying`]: copies of values that own memory, and [`duplicates`], those of a list of them.
//! - [`Keyed`] with [`put_item`] and [`slot_of`]: lists in the order of a key.
//! - [`Checked`]: bytes that follow a [`Rule`], as names and texts do.
//! - [`whole_number`]: the number that decimal digits write. [`split_once`]: bytes before and after a separator.
//!
//! `specs/Refusing.antt` defines what the first refusal of a list of tests is, and `specs/Ascending.antt` where a
//! number is in a list, or would be. No function here speaks of them; those of the crates above do.
#![tactic(auto)]

mod bytes;
mod checked;
mod copying;
mod items;
mod keyed;
mod numbers;
mod split;

pub use checked::{Checked, EmptyRule, Rule};
pub use copying::{Copying, duplicates};
pub use items::Items;
pub use keyed::{Keyed, Slot, put_item, slot_of};
pub use numbers::whole_number;
pub use split::split_once;
