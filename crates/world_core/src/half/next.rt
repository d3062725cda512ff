//! What a half does next.
ghost use Rattle.std.specs.Prelude.{◌≡◌, option_map};
ghost use Rattle.script_steps.specs.NextEvent.{is_stopped};
ghost use Rattle.script_steps.specs.Progress.{Progress};
ghost use Rattle.world_core.specs.Counted.{action_in, block_at};

use super::Half;
use channel_core::{EndState, Top};
use handler_script::{Action, Block, Script};

/// What a half does next.
#[derive(Clone, Copy)]
pub(crate) enum NextStep {
    Die,
    Take,
    Resume,
    Flush,
    /// The next action of main.
    Main,
    /// The next action of the innermost handler, or its return.
    Handler,
}

// Returns the block at an index of a script, if there is one.
pub(super) fn block_at(script: &Script, place: Option<u32>) -> Option<&Block>
    ensures { option_map (λ b. b.now) result ≡ block_at script.now place }
{
    script.blocks.as_slice().get(place? as usize)
}

// Returns the action at an index of a block, if there is one.
fn action_in(script: &Script, place: Option<u32>, index: u32) -> Option<&Action>
    ensures { option_map (λ a. a.now) result ≡ action_in (block_at script.now place) index }
{
    let block = block_at(script, place)?;
    block.actions.as_slice().get(index as usize)
}

impl<'s> Half<'s> {
    ghost use Rattle.world_core.specs.HalfView.{IsCountedBy};
    ghost use Rattle.world_core.specs.NextSteps.{IsByTop, IsNext, handlers_action, main_action};

    // Returns what the half does next by its script.
    pub(crate) fn next_step(&self) -> Option<NextStep>
        ensures { (progress : Progress) → IsCountedBy self.now progress → IsNext self.now progress result }
    {
        if self.end.state() == EndState::Dead {
            return None;
        }
        if self.is_stopped() {
            return Some(NextStep::Die);
        }
        match self.by_top() {
            None if self.end.can_flush() => Some(NextStep::Flush),
            by_top => by_top,
        }
    }

    // Returns whether the half must die.
    fn is_stopped(&self) -> bool
        ensures { (progress : Progress) → IsCountedBy self.now progress → result ≡ is_stopped self.now.stop self.now.end.end.side progress }
    {
        match &self.stop {
            None => false,
            Some(stop) => stop.side == self.end.side() && stop.after <= self.counts.events(),
        }
    }

    // Returns what the frame on top requires.
    fn by_top(&self) -> Option<NextStep>
        ensures { (progress : Progress) → IsCountedBy self.now progress → IsByTop self.now progress result }
    {
        match self.end.top() {
            Top::Dispatch => Some(NextStep::Handler),
            Top::Answered => Some(NextStep::Resume),
            Top::Unanswered | Top::Empty if self.end.can_take() => Some(NextStep::Take),
            Top::Unanswered => None,
            Top::Empty if self.main_action().is_some() => Some(NextStep::Main),
            Top::Empty => None,
        }
    }

    // Returns the next action of main, if the end is open.
    pub(crate) fn main_action(&self) -> Option<&'s Action>
        ensures { (progress : Progress) → IsCountedBy self.now progress → (option_map (λ a. a.now) result ≡ main_action self.now progress) }
    {
        match self.end.state() {
            EndState::Open => action_in(self.script, self.counts.main_block(), self.counts.main()),
            EndState::Draining | EndState::Closed | EndState::Dead => None,
        }
    }

    // Returns the next action of the innermost handler.
    pub(crate) fn handler_action(&self) -> Option<&'s Action>
        ensures { (progress : Progress) → IsCountedBy self.now progress → option_map (λ a. a.now) result ≡ handlers_action self.now progress.handled }
    {
        let running = self.counts.innermost()?;
        action_in(self.script, running.block, running.acts)
    }
}
