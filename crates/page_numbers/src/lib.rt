//! The numbers of a page: what is left of each team's, the map of them, suspect parameter numbers, and what is held.
//!
//! - [`put_left`]: for each team and each kind of numbers how many are live, held and free, and the first runs of free
//!   ones, as the looks have it (`tally`); and a list of all blocks. `specs/Left.antt`, `Counts.antt`.
//! - [`put_map`]: a cell for each number of each row that isn't all nobody's (`cells`), in tables of 256 numbers
//!   (`charts`). It finds the messages of a number (`index`) and the blocks near it (`near`) by binary search.
//!   `specs/Map.antt`, and `Rows.antt` for which rows there are.
//! - [`put_spns`]: where each suspect parameter number is, or last was ([`SpnRows`]). `specs/Spns.antt`.
//! - [`put_held`]: the identifiers that are held for good. `specs/Held.antt`.
#![tactic(auto, using(markup::proofs::Changes::joins))]

mod cells;
mod charts;
mod held;
mod index;
mod laws;
mod left;
mod map;
mod near;
mod spns;
mod tally;

pub use held::put_held;
pub use laws::counts_are_all;
pub use left::put_left;
pub use map::{has_map, put_map};
pub use spns::{SpnRow, SpnRows, put_spns};
