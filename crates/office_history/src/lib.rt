//! Requests that arrive at the office, and histories of what they were answered.
//!
//! An [`Arrival`] is a team's [`Request`] under a [`Key`] of the team's own choice. The office carries out the first
//! arrival of a team's key. Whatever arrives under that key later is a repeat: it gets the first one's [`Answer`] if
//! its content is the same, byte for byte, and else [`Answer::KeyReused`]. So a request that was lost on its way, or
//! whose answer was, can be sent again until it is answered, and is carried out once.
//!
//! A history is a list of arrivals with their answers. It is legal (`IsLegal`, `specs/History.antt`) if its first
//! arrivals, in order, are answered by the steps of the office, and each repeat as above. [`histories_grow`] says how a
//! legal history goes on, [`histories_leave_offices`] what it leaves, [`releases_stay`] that no release changes,
//! [`numbers_keep_their_names`] that releases give one message number one name, [`spns_are_given_once`] that no suspect
//! parameter number is given out twice, and [`answers_are_apart`] that an answer depends on the arrivals on its network
//! alone. The definitions are in `specs/`.
#![tactic(auto)]

mod arrival;
mod key;
mod laws;

pub use arrival::{Answer, Arrival, Request};
pub use key::{Key, KeyRule};
pub use laws::{
    answers_are_apart, histories_grow, histories_leave_offices, numbers_keep_their_names,
    releases_stay, spns_are_given_once,
};
