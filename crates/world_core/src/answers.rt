//! What steps, turns, runs and meetings answer.
use ipdl_base::Side;

/// What a step or a turn answers.
#[derive(Clone, Copy, Debug, PartialEq, Eq)]
pub enum StepAnswer {
    /// The step was made.
    Did,
    /// There is nothing to do, and nothing changed.
    Nothing,
    /// There is something to do, but this side has reached its limit of events. Nothing changed.
    Spent(Side),
    /// Nothing changed.
    NoMemory,
}

/// What a run answers.
#[derive(Clone, Copy, Debug, PartialEq, Eq)]
pub enum RunAnswer {
    /// Neither side has a step or a delivery left.
    Finished,
    /// This side has a step or a delivery left, but has reached its limit of events.
    Spent(Side),
    /// Memory ran out. The run is after the turns before the one that failed.
    NoMemory,
}

/// What a meeting of a half with the link answers.
#[derive(Clone, Copy, Debug, PartialEq, Eq)]
pub enum MeetAnswer {
    /// This number of lines was appended, and nothing is left to deliver to an open end.
    Moved(usize),
    /// The lines were appended, and a delivery to an open end is left, but this side has reached its limit
    /// of events.
    Spent(Side),
    /// Memory ran out. The lines were appended, and the deliveries before the one that failed were done.
    NoMemory,
}

/// What a half answers to a packet that comes to it by itself.
#[derive(Clone, Copy, Debug, PartialEq, Eq)]
pub enum AcceptAnswer {
    /// The packet was delivered.
    Did,
    /// The end refuses the packet, and the mark of a death was delivered in its place.
    Refused,
    /// The end is not open. Nothing changed.
    Nothing,
    /// This side has reached its limit of events. Nothing changed.
    Spent(Side),
    /// Nothing changed.
    NoMemory,
}
