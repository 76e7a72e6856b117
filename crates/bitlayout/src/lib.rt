//! Where the signals of a CAN message lie in its payload, which of them may overlap, and where one more can
//! start.
//!
//! Positions of bits, the byte order of a signal and its multiplexer indicator are those of Vector's DBC File
//! Format Documentation. A [`Layout`] is the first positions of a walk from its start; [`has_bit`], [`inside`]
//! and [`share_bit`] answer for the set of its positions, and [`same_bits`] whether two layouts have the same
//! positions with the same weights. A [`Place`] adds the [`Mux`], when the signal is present; [`meet`] answers
//! whether two are ever present at once. [`first_clash`] finds out whether the places of a message are clear: every
//! bit is in the payload, there is at most one multiplexor, and one if it is needed, and for each value of it no two
//! signals share a bit. [`least_start`] finds room for one more signal.
//!
//! The searches keep the positions of the earlier places as masks. A [`Mask`] has [`MASK_WORDS`] words of 64
//! positions, 224 words, which reach every bit of a payload of up to 1785 bytes. The bits of one signal lie in two
//! neighbouring words, so to compare it with all earlier places takes two words of a mask, however many places there
//! are.
//!
//! Layouts are compared as intervals by [`share_bit`], in lists of a few places, and where a place reaches past the
//! masks. A layout is one interval if each byte is numbered in the layout's own direction, and at most nine, one in
//! each byte that it touches, when it is compared with a layout of the other order. Signals that follow one another,
//! as most lists have them, need no comparison: intervals in ascending order share no number. Nothing here allocates
//! memory. The definitions are in `specs/`.
#![tactic(auto)]

mod bits;
mod clash;
mod interval;
mod layout;
mod mask;
mod place;
mod start;
mod taken;
mod weight;

pub use bits::{has_bit, inside, share_bit};
pub use clash::{Clash, first_clash};
pub use layout::{GREATEST_START, Layout, Order, SIZE_LIMIT, Size};
pub use mask::{MASK_END, MASK_WORDS, Mask};
pub use place::{Mux, Place, meet};
pub use start::least_start;
pub use weight::same_bits;
