//! The step that takes what arrived.
ghost use Rattle.std.specs.Prelude.{◌≢◌, ◌<◌, None};
ghost use Rattle.channel_model.specs.Takes.{taken_next};

use super::Half;
use crate::answers::StepAnswer;

impl<'s> Half<'s> {
    ghost use Rattle.world_core.specs.TakeSteps.{HalfTakes};

    // Takes what arrived first.
    pub(crate) fn take(&mut self) -> StepAnswer
        requires some { taken_next self.old.end.end ≢ None }
        requires room { self.old.counts.events < 4294967295 }
        ensures { HalfTakes self.old result self.new }
    {
        self.counts.take(&mut self.end)
    }
}
