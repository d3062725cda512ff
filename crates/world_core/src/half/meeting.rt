//! What a half does away from the link, and what it does when it meets the link.
ghost use Rattle.std.specs.Prelude.{◌≡◌, ◌++◌, List, is_some, not, option_map};
ghost use Rattle.ipdl_base.specs.Sides.{other};
ghost use Rattle.ipdl_base.specs.declared.kinds.Side.{Side as EndSide};
ghost use Rattle.ipdl_base.specs.declared.line.Line.{Line};
ghost use Rattle.script_steps.specs.Choices.{Setting};
ghost use Rattle.script_steps.specs.Progress.{Progress, progress_of};

use super::Half;
use crate::answers::{MeetAnswer, StepAnswer};
use crate::link::Link;
use crate::side_turns::delivery_turn;
use handler_script::Script;
use ipdl_base::Schema;
use schedules::Stop;

impl<'s> Half<'s> {
    ghost use Rattle.world_core.specs.HalfSteps.{OwnGives, next_of};
    ghost use Rattle.world_core.specs.HalfView.{IsCountedBy, appended};
    ghost use Rattle.world_core.specs.Halves.{Delivers, DeliveriesEnd, FitsAfter, HasMet, IsHome, MeetEnds};
    ghost use Rattle.world_core.specs.LinkView.{IsAppended};
    ghost use Rattle.world_core.specs.SideTurns.{StandsIn};
    ghost use Rattle.world_core.specs.WorldView.{seen_by, state_of};

    /// Makes one own step: what the end does next by its script. Returns `Nothing` exactly if it has no own
    /// step, and `Spent` exactly if it has one but has reached its limit of events.
    pub fn own(&mut self) -> StepAnswer
        ghost at: { Setting × EndSide × List Line }
        requires { FitsAfter at.0 at.1 at.2 self.old }
        ensures gives { OwnGives self.old (progress_of at.1 (at.2 ++ self.old.end.lines)) result self.new }
        ensures fits { FitsAfter at.0 at.1 at.2 self.new }
    {
        self.own_step()
    }

    /// Returns whether the half has no own step: exactly if `own` returns `Nothing`. Takes no memory.
    pub fn rests(&self) -> bool
        ensures { (progress : Progress) → IsCountedBy self.now progress → result ≡ not (is_some (next_of self.now progress)) }
    {
        self.next_step().is_none()
    }

    /// Appends to the link the lines and packets that the half has stored since its last visit, and delivers
    /// nothing. Takes no memory, since the link has room for all that may come.
    pub fn hand_in(&mut self, link: &mut Link)
        ghost at: { Setting × EndSide }
        requires fits { FitsAfter at.0 at.1 link.old.lines self.old }
        requires home { IsHome at.0 link.old }
        ensures half { self.new ≡ appended self.old }
        ensures appends { IsAppended link.old self.old.end.lines (other at.1) self.old.end.packets link.new }
        ensures home { IsHome at.0 link.new }
        ensures fits { FitsAfter at.0 at.1 link.new.lines self.new }
    {
        self.append(link);
    }

    /// Hands in to the link, and then delivers what waits for the half, packet by packet, as long as its end
    /// is open.
    pub fn meet(&mut self, link: &mut Link) -> MeetAnswer
        ghost at: { Setting × EndSide }
        requires fits { FitsAfter at.0 at.1 link.old.lines self.old }
        requires home { IsHome at.0 link.old }
        ensures met { HasMet at.0 at.1 self.old link.old self.new link.new }
        ensures ends { MeetEnds at.1 self.old result self.new link.new }
    {
        let before = link.lines();
        self.hand_in(link);
        let moved = link.lines() - before;
        match self.deliver_all(link) {
            StepAnswer::Did | StepAnswer::Nothing => MeetAnswer::Moved(moved),
            StepAnswer::Spent(side) => MeetAnswer::Spent(side),
            StepAnswer::NoMemory => MeetAnswer::NoMemory,
        }
    }

    // Delivers what waits for the half, as long as its end is open.
    fn deliver_all(&mut self, link: &mut Link) -> StepAnswer
        ghost at: { Setting × EndSide }
        requires { StandsIn (seen_by at.0 link.old) at.1 self.old link.old }
        ensures stands { StandsIn (seen_by at.0 link.new) at.1 self.new link.new }
        ensures delivers { Delivers at.0 at.1 (state_of at.0 link.old.lines) (state_of at.0 link.new.lines) }
        ensures ends { DeliveriesEnd at.1 result self.new link.new }
    {
        let side = self.end.side();
        loop {
            match delivery_turn(self, link, side) {
                StepAnswer::Did => {}
                answer => return answer,
            }
        }
    }

    /// The setting of the run.
    pub(crate) fn schema(&self) -> &'s Schema
        ensures { result.now ≡ self.now.end.schema }
    {
        self.schema
    }

    pub(crate) fn script(&self) -> &'s Script
        ensures { result.now ≡ self.now.script }
    {
        self.script
    }

    pub(crate) fn stop(&self) -> Option<Stop>
        ensures { result ≡ self.now.stop }
    {
        self.stop
    }

    pub(crate) fn limit(&self) -> u32
        ensures { result ≡ self.now.limit }
    {
        self.limit
    }
}
