//! The granted blocks of a network as a list: how many numbers of each are live, held and free, and which are free.
//!
//! [`blocks_table`] gives the rows of a team's blocks, or of all, and the totals. [`push_block`] adds the row of one
//! block, by the [`Numbers`] of the network: for each form those that are live, and those that may not be given out, in
//! ascending order (`numbers`). In them `free` finds what is left of a block by binary search, as runs, of which the
//! first begins with the number that is given out next ([`first_run_is_next`]).
//!
//! What is left of a block ([`left_of`], [`part_in`]), and the numbers form by form, are there for a page of a network
//! too.
//!
//! The definitions are in `specs/`: `Blocks.antt` has which numbers are live and taken, what is left of a block, and
//! the rows; `Numbers.antt` says which ascending lists have them.
#![tactic(auto)]

mod blocks;
mod free;
mod laws;
mod numbers;

pub use blocks::{BLOCK_TOTALS, BLOCKS, blocks_table, push_block};
pub use free::{Left, free_numbers, left_of, part_in};
pub use laws::first_run_is_next;
pub use numbers::{Ascending, FormNumbers, Numbers};
