//! Counts of a side as a request is taken.
ghost use Rattle.std.specs.Prelude.{◌≡◌, ◌≢◌, ◌<◌, ◌++◌, ◌∷◌, [], None, vec_len, vec_capacity};
ghost use Rattle.ipdl_base.specs.Plain.{plain_values};
ghost use Rattle.channel_model.specs.Takes.{taken_next};
ghost use Rattle.world_core.specs.CountsView.{view_of};

use super::{RunningRequest, ScriptCounts};
use crate::answers::StepAnswer;
use channel_core::{End, Handling, TakeAnswer};

impl ScriptCounts {
    ghost use Rattle.world_core.specs.TakeSteps.{TakeCounts};

    /// Takes what arrived first at an end, and counts it. Changes nothing if memory runs out.
    pub(crate) fn take(&mut self, end: &mut End<'_>) -> StepAnswer
        requires some { taken_next end.old.end ≢ None }
        requires room { self.old.events < 4294967295 }
        ensures { TakeCounts self.old end.old result self.new end.new }
    {
        let Ok(()) = self.running.reserve(1) else {
            return StepAnswer::NoMemory;
        };
        match end.take() {
            TakeAnswer::NoMemory => StepAnswer::NoMemory,
            TakeAnswer::Nothing => unreachable!(),
            TakeAnswer::Handle(handling) => {
                let block = self.table.take(handling.number);
                push_spare(&mut self.running, begin(block, handling));
                self.count_event();
                StepAnswer::Did
            }
            TakeAnswer::Dropped | TakeAnswer::Settled | TakeAnswer::Shut => {
                self.count_event();
                StepAnswer::Did
            }
        }
    }
}

// Returns a request as its handler begins, with the block that serves it.
fn begin(block: Option<u32>, handling: Handling) -> RunningRequest
    ensures { view_of result ≡ record { block = block; acts = 0; given = plain_values handling.values; made = handling.made; resolver = handling.resolver } }
{
    RunningRequest {
        block,
        acts: 0,
        given: handling.values,
        made: handling.made,
        resolver: handling.resolver,
    }
}

// Adds a request at the end. There is room for it.
fn push_spare(running: &mut Vec<RunningRequest>, request: RunningRequest)
    requires { vec_len running.old < vec_capacity running.old }
    ensures { running.new.items ≡ running.old.items ++ request ∷ [] }
{
    match running.push(request) {
        Ok(()) => {}
        Err(_) => unreachable!(),
    }
}
