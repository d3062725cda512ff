//! A death that a run is given.
use ipdl_base::Side;

/// A death that a run is given: the side dies once it has `after` events.
#[derive(Clone, Copy, Debug, PartialEq, Eq)]
pub struct Stop {
    /// The side that dies.
    pub side: Side,
    /// The number of events of the side before its death.
    pub after: u32,
}
