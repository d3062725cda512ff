//! The return of a handler.
ghost use Rattle.std.specs.Prelude.{◌≡◌, ◌<◌, IfOk, option_map};
ghost use Rattle.ipdl_base.specs.Plain.{plain_values};
ghost use Rattle.handler_script.specs.ValueOf.{values_of};
ghost use Rattle.script_runs.specs.Allowed.{IsAllowed};

use super::Half;
use super::next::block_at;
use crate::answers::StepAnswer;
use channel_core::FinishAnswer;
use handler_script::Terms;
use ipdl_base::Values;
use std::alloc::AllocError;

impl<'s> Half<'s> {
    ghost use Rattle.channel_core.specs.Answers.{IsHandedBack};
    ghost use Rattle.world_core.specs.CountsSteps.{with_return};
    ghost use Rattle.world_core.specs.NextSteps.{EventGives, IsOnTop, context_in, reply_by, return_in};
    ghost use Rattle.world_core.specs.Resolvers.{resolver_on_top};

    // Returns from the innermost handler.
    pub(crate) fn finish(&mut self) -> StepAnswer
        requires on_top { IsOnTop self.old }
        requires back { IsHandedBack self.old.end (resolver_on_top self.old.counts.running) }
        requires allowed { IsAllowed self.old.end.schema self.old.end.end (return_in self.old) }
        requires room { self.old.counts.events < 4294967295 }
        ensures { EventGives self.old (return_in self.old) with_return result self.new }
    {
        let Ok(values) = self.returned() else {
            return StepAnswer::NoMemory;
        };
        let resolver = self.counts.take_resolver();
        match self.end.finish(resolver, values.as_ref()) {
            FinishAnswer::Done => {
                self.counts.count_return();
                StepAnswer::Did
            }
            FinishAnswer::NoMemory(resolver) => {
                self.counts.put_resolver(resolver);
                StepAnswer::NoMemory
            }
        }
    }

    // Returns the values that the innermost handler gives. Fails only if memory runs out.
    fn returned(&self) -> Result<Option<Values>, AllocError>
        requires { IsOnTop self.now }
        ensures { IfOk result (λ vs. option_map plain_values vs
            ≡ option_map (values_of (context_in self.now)) (reply_by self.now.script self.now.counts.running)) }
    {
        match self.reply() {
            None => Ok(None),
            Some(terms) => Ok(Some(self.values_of(terms)?)),
        }
    }

    // Returns the terms of these values.
    fn reply(&self) -> Option<&'s Terms>
        ensures { option_map (λ ts. ts.now) result ≡ reply_by self.now.script self.now.counts.running }
    {
        let running = self.counts.innermost()?;
        block_at(self.script, running.block)?.reply.as_ref()
    }
}
