//! The trait of what drives a run, and the driver that runs on one thread.
ghost use Rattle.std.specs.Prelude.{◌≡◌};
ghost use Rattle.world_core.specs.Turns.{GivesUnless, GrowsTo, StandsAs, WordGives};
ghost use Rattle.world_core.specs.WorldView.{WorldView};
ghost use Rattle.world_core.specs.Worlds.{IsCase, IsLawful};
ghost use Rattle.world_core.specs.declared.answers.RunAnswer.{RunAnswer as OfRunAnswer};

use crate::answers::RunAnswer;
use crate::world::World;
use schedules::Turn;

/// Runs a world until neither side has a step or a delivery left.
pub trait Driver {
    /// Relates the world handed in, the world given back, and the answer.
    ghost Gives: { Self → WorldView → WorldView → OfRunAnswer → Type 0 };

    /// Whether the driver may run.
    ghost ready: { Self → Type 0 };

    fn drive<'s>(&mut self, world: World<'s>) -> (World<'s>, RunAnswer)
        requires ready { ready self.old }
        ensures gives { GivesUnless (Gives self.old) world.entry result.0 result.1 }
        ensures same { result.0.setting ≡ world.entry.setting }
        ensures grows { GrowsTo world.entry.state.lines result.0.state.lines }
        ensures stands { StandsAs result.0 result.1 }
        ensures case { IsCase result.0 }
        ensures laws { IsLawful result.0 };
}

/// Makes the turns of both sides in a stated order, on one thread.
#[derive(Drop)]
pub struct OneThread {
    word: Vec<Turn>,
}

impl OneThread {
    /// Creates the driver that makes the turns of a word.
    pub fn new(word: Vec<Turn>) -> OneThread
        ensures { result.word.items ≡ word.items }
    {
        OneThread { word }
    }
}

impl Driver for OneThread {
    ghost Gives = { λ d before after answer. WordGives before d.word.items answer after };

    ghost ready = { λ d. Unit {0} };

    fn drive<'s>(&mut self, world: World<'s>) -> (World<'s>, RunAnswer) {
        let mut world = world;
        let answer = world.run_schedule(&self.word);
        (world, answer)
    }
}
