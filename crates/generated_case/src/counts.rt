//! Counts of the lines of a history.

ghost use Rattle.std.specs.Prelude.{◌≡◌, ◌&&◌, not};
ghost use Rattle.ipdl_base.specs.Lines.{is_effect as is_effect_line, same_side};
ghost use Rattle.generated_case.specs.Counts as count;

use history::History;
use ipdl_base::{Line, Side, What, is_effect};

/// How many lines of a history are events of each side, and how many are of each kind that a summary
/// counts (docs/gen.md).
#[derive(Clone, Copy, Debug, PartialEq, Eq)]
pub struct Counts {
    /// The events of the parent.
    pub parent_steps: usize,
    /// The events of the child.
    pub child_steps: usize,
    /// The requests that were handled.
    pub taken: usize,
    /// The requests that were dropped.
    pub dropped: usize,
    /// The requests that were replaced by later ones.
    pub replaced: usize,
    /// The promises that were settled.
    pub settled: usize,
    /// The actors that were built.
    pub built: usize,
    /// The actors that fell.
    pub fallen: usize,
}

impl Counts {
    ghost use Rattle.std.specs.Prelude.{[]};
    ghost use Rattle.generated_case.specs.Counts.{AreBelow, counts_of, counts_with};

    /// Counts the lines of a history, in one pass. Takes no memory.
    pub fn of(history: &History) -> Counts
        ensures { result ≡ counts_of history.now.lines }
    {
        let mut counts = Counts::zero();
        for line in history.lines() {
            counts = counts.with(line);
        }
        counts
    }

    /// Returns the counts of no lines.
    fn zero() -> Counts
        ensures { result ≡ counts_of [] }
    {
        Counts {
            parent_steps: 0,
            child_steps: 0,
            taken: 0,
            dropped: 0,
            replaced: 0,
            settled: 0,
            built: 0,
            fallen: 0,
        }
    }

    /// Returns the counts with one more line.
    fn with(self, line: &Line) -> Counts
        requires { AreBelow 18446744073709551615 self }
        ensures { result ≡ counts_with self line.now }
    {
        let what = &line.what;
        Counts {
            parent_steps: self.parent_steps + one_if(is_step_of(Side::Parent, line)),
            child_steps: self.child_steps + one_if(is_step_of(Side::Child, line)),
            taken: self.taken + one_if(matches!(what, What::Take(..))),
            dropped: self.dropped + one_if(matches!(what, What::Drop(..))),
            replaced: self.replaced + one_if(matches!(what, What::Replaced(..))),
            settled: self.settled + one_if(is_settled(what)),
            built: self.built + one_if(matches!(what, What::Built(..))),
            fallen: self.fallen + one_if(matches!(what, What::Fall(..))),
        }
    }
}

/// Returns 1 if a test holds, and 0 if not.
fn one_if(holds: bool) -> usize
    ensures { result ≡ count.one_if holds }
{
    if holds { 1 } else { 0 }
}

/// Returns whether a line is an event of a side.
fn is_step_of(side: Side, line: &Line) -> bool
    ensures { result ≡ count.is_step_of side line.now }
{
    line.side == side && !is_effect(&line.what)
}

/// Returns whether a line settles a promise.
fn is_settled(what: &What) -> bool
    ensures { result ≡ count.is_settled what.now }
{
    matches!(what, What::Resolved(..) | What::Rejected(..))
}
