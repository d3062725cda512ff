//! How many bars and items there were before a row.
ghost use Rattle.std.specs.Prelude.{◌≡◌, ◌-◌, List, [], ℕ};
ghost use Rattle.ipdl_base.specs.declared.kinds.Side.{Side as TheSide};
ghost use Rattle.ipdl_base.specs.declared.line.Line.{Line as TheLine};
ghost use Rattle.charts.specs.Rows as rows;
ghost use Rattle.charts.specs.Tallies as tallies;
ghost use Rattle.charts.specs.Tallies.{AreBelow, tally_of, tally_with};

use ipdl_base::{Line, Side, What};

/// How many bars have begun and ended at a side, and how many items have arrived there.
#[derive(Clone, Copy)]
pub struct Tally {
    /// The bars that have begun.
    pub begun: usize,
    /// The bars that have ended.
    pub ended: usize,
    /// The items that have arrived.
    pub brought: usize,
}

/// Returns whether a bar begins.
fn begins_bar(what: &What) -> bool
    ensures { result ≡ rows.begins_bar what.now }
{
    matches!(what, What::Take(..) | What::Call(..))
}

/// Returns whether a bar ends.
fn ends_bar(what: &What) -> bool
    ensures { result ≡ rows.ends_bar what.now }
{
    matches!(
        what,
        What::Return(..) | What::ResumeOk(..) | What::ResumeFault(..)
    )
}

/// Returns whether an item arrives that waits.
fn brings_item(what: &What) -> bool
    ensures { result ≡ rows.brings_item what.now }
{
    matches!(what, What::DeliverRequest(..) | What::DeliverReply(..))
}

/// Returns 1 if the test holds, and 0 if not.
fn one_if(holds: bool) -> usize
    ensures { result ≡ tallies.one_if holds }
{
    if holds { 1 } else { 0 }
}

impl Tally {
    /// Returns the tally of no lines.
    pub fn none() -> Tally
        ensures { (side : TheSide) → result ≡ tally_of side [] }
    {
        Tally {
            begun: 0,
            ended: 0,
            brought: 0,
        }
    }

    /// Returns the tally of a side with one more line.
    pub fn with(self, side: Side, line: &Line) -> Tally
        requires { AreBelow 18446744073709551615 self }
        ensures { result ≡ tally_with side self line.now }
    {
        let own = line.side == side;
        Tally {
            begun: self.begun + one_if(own && begins_bar(&line.what)),
            ended: self.ended + one_if(own && ends_bar(&line.what)),
            brought: self.brought + one_if(own && brings_item(&line.what)),
        }
    }

    /// Returns how many bars have begun and not ended.
    pub fn depth(self) -> usize
        ensures { result ≡ self.begun - self.ended }
    {
        self.begun.saturating_sub(self.ended)
    }
}
