//! Calls.
use desk_types::Problem;
use office_history::Arrival;
use office_types::Look;

/// What a request is to the office.
#[derive(Drop)]
pub enum Call {
    /// The request asks nothing of the office: the problem answers it.
    Fails(Problem),
    /// It asks the office to show something.
    Shows(Look),
    /// It asks the office to answer an arrival.
    Arrives(Arrival),
}
