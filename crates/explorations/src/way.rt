//! The ways of a script as data.

use ipdl_base::Side;
use schedules::Turn;

/// One way in which the runs of a script may go (docs/explore.md).
#[derive(Drop)]
pub struct Way {
    /// The side that has something left to do but has reached the limit; `None` if nothing is left to do.
    pub spent: Option<Side>,
    /// The first word of turns that leads there.
    pub word: Vec<Turn>,
}

/// What an exploration of a script finds (docs/explore.md).
#[derive(Drop)]
pub struct Exploration {
    /// The ways, in the order of their words.
    pub ways: Vec<Way>,
    /// Whether these are all ways.
    pub whole: bool,
}
