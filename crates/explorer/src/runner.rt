//! A run that follows the words of a search.
ghost use Rattle.std.specs.Prelude.{◌≡◌, ◌≤◌, ◌++◌, ◌∷◌, [], true, None, IfOk};
ghost use Rattle.handler_script.specs.Valid.{IsValid};
ghost use Rattle.ipdl_base.specs.Sound.{IsSound};
ghost use Rattle.world_core.specs.Options.{AreOptionsAt};
ghost use Rattle.world_core.specs.Worlds.{most_events};
ghost use Rattle.script_steps.specs.Choices.{beginning_of};
ghost use Rattle.world_core.specs.WorldView.{opening_of};
ghost use Rattle.explorer.specs.Runs.{HasCome, HasFollowed, IsGiven, IsLed, IsPassable, IsRunner, MayGoOn, RunsAt, setting_of};

use handler_script::Script;
use ipdl_base::{Schema, Side};
use schedules::Turn;
use std::alloc::{AllocError, Global};
use std::mem;
use world_core::{SideOptions, StepAnswer, World};

/// A run that follows the words of a search.
#[derive(Drop)]
pub(crate) struct Runner<'s> {
    alloc: Global,
    schema: &'s Schema,
    script: &'s Script,
    limit: u32,
    world: World<'s>,
    /// Whether the run is at another word than the search.
    is_away: bool,
}

impl<'s> Runner<'s> {
    /// Creates a run at its beginning. Fails only if memory runs out.
    pub(crate) fn begin(
        alloc: Global,
        schema: &'s Schema,
        script: &'s Script,
        limit: u32,
    ) -> Result<Runner<'s>, AllocError>
        requires sound { IsSound schema.now }
        requires valid { IsValid schema.now script.now }
        requires small { limit ≤ most_events }
        ensures runs { IfOk result (RunsAt []) }
        ensures about { IfOk result (λ r. setting_of r ≡ record { schema = schema.entry.now; script = script.entry.now; stop = None; limit = limit }) }
        ensures begins { IfOk result (λ r. r.world.state ≡ beginning_of (setting_of r)) }
    {
        let world = World::open(alloc, schema, script, None, limit)?;
        Ok(Runner {
            alloc,
            schema,
            script,
            limit,
            world,
            is_away: false,
        })
    }

    /// Records that the search has gone back.
    pub(crate) fn leave(&mut self)
        ensures { self.new ≡ record self.old { is_away = true } }
    {
        self.is_away = true;
    }

    /// Makes a turn after a word. Fails only if memory runs out.
    pub(crate) fn go_on(&mut self, word: &[Turn], turn: Turn) -> Result<(), AllocError>
        requires runs { RunsAt word.now self.old }
        requires may { MayGoOn (setting_of self.old) word.now turn }
        ensures { IfOk result (λ u. HasCome self.old (word.now ++ turn ∷ []) self.new) }
    {
        self.come_to(word)?;
        match self.world.step(turn) {
            StepAnswer::Did => Ok(()),
            StepAnswer::Nothing | StepAnswer::Spent(_) => unreachable!(),
            StepAnswer::NoMemory => Err(AllocError),
        }
    }

    // Comes to where a word leads, from the beginning if the run is away.
    fn come_to(&mut self, word: &[Turn]) -> Result<(), AllocError>
        requires runs { RunsAt word.now self.old }
        requires passable { IsPassable (setting_of self.old) word.now }
        ensures { IfOk result (λ u. HasCome self.old word.now self.new) }
    {
        if self.is_away {
            self.start_again()?;
            follow(&mut self.world, word)?;
            self.is_away = false;
        }
        Ok(())
    }

    // Puts a run at its beginning in place of the one that was left.
    fn start_again(&mut self) -> Result<(), AllocError>
        requires { IsGiven (setting_of self.old) }
        ensures { IfOk result (λ u. self.new ≡ record self.old { world = opening_of (setting_of self.old) }) }
    {
        let world = World::open(self.alloc, self.schema, self.script, None, self.limit)?;
        let left = mem::replace(&mut self.world, world);
        drop(left);
        Ok(())
    }

    /// Returns what a side may do.
    pub(crate) fn options(&self, side: Side) -> SideOptions
        ensures { AreOptionsAt self.now.world side result }
    {
        self.world.options(side)
    }
}

// Makes the turns of a word, each of which leads to another state.
fn follow(world: &mut World<'_>, word: &[Turn]) -> Result<(), AllocError>
    requires { IsLed world.old word.now }
    ensures { IfOk result (λ u. HasFollowed world.old word.now world.new) }
{
    for turn in word {
        match world.step(*turn) {
            StepAnswer::Did => {}
            StepAnswer::Nothing | StepAnswer::Spent(_) => unreachable!(),
            StepAnswer::NoMemory => return Err(AllocError),
        }
    }
    Ok(())
}
