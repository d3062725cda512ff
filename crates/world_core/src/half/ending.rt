//! Steps that close, kill, resume or flush an end.
ghost use Rattle.std.specs.Prelude.{◌≡◌, ◌≢◌, ◌<◌, true, None};
ghost use Rattle.channel_model.specs.Events as event;
ghost use Rattle.channel_model.specs.Acts.{may_die};
ghost use Rattle.channel_model.specs.Returns.{answered_wait_on_top, may_flush};
ghost use Rattle.channel_model.specs.Sends.{may_act};

use super::Half;
use crate::answers::StepAnswer;
use channel_core::CloseAnswer;

impl<'s> Half<'s> {
    ghost use Rattle.world_core.specs.CountsSteps.{with_act, with_death, with_event};
    ghost use Rattle.world_core.specs.NextSteps.{EventGives};

    // Closes the end.
    pub(crate) fn close(&mut self) -> StepAnswer
        requires may { may_act self.old.end.end ≡ true }
        requires room { self.old.counts.events < 4294967295 }
        ensures { EventGives self.old event.close with_act result self.new }
    {
        match self.end.close() {
            CloseAnswer::NoMemory => StepAnswer::NoMemory,
            CloseAnswer::Done | CloseAnswer::Refused(_) => {
                self.counts.count_act();
                StepAnswer::Did
            }
        }
    }

    // Kills the end.
    pub(crate) fn die(&mut self) -> StepAnswer
        requires may { may_die self.old.end.end ≡ true }
        requires room { self.old.counts.events < 4294967295 }
        ensures { EventGives self.old event.die with_death result self.new }
    {
        self.end.die();
        self.counts.count_death();
        StepAnswer::Did
    }

    // Resumes the call on top with its answer.
    pub(crate) fn resume(&mut self) -> StepAnswer
        requires may { answered_wait_on_top self.old.end.end.stack ≢ None }
        requires room { self.old.counts.events < 4294967295 }
        ensures { EventGives self.old event.resume with_event result self.new }
    {
        match self.end.resume() {
            None => unreachable!(),
            Some(_) => {
                self.counts.count_event();
                StepAnswer::Did
            }
        }
    }

    // Flushes the outbox.
    pub(crate) fn flush(&mut self) -> StepAnswer
        requires may { may_flush self.old.end.end ≡ true }
        requires room { self.old.counts.events < 4294967295 }
        ensures { EventGives self.old event.flush with_event result self.new }
    {
        let _ = self.end.flush();
        self.counts.count_event();
        StepAnswer::Did
    }
}
