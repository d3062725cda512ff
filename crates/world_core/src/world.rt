//! A run of both sides by a script, on one thread.
ghost use Rattle.std.specs.Prelude.{◌≡◌, ◌≤◌, [], map, IfOk};
ghost use Rattle.end_parts.specs.PlainLines.{plain_line};
ghost use Rattle.handler_script.specs.Valid.{IsValid};
ghost use Rattle.history.specs.Text.{transcript_text};
ghost use Rattle.ipdl_base.specs.declared.kinds.Side.TheVariants as sides;
ghost use Rattle.ipdl_base.specs.Sound.{IsSound};
ghost use Rattle.world_core.specs.Worlds.{IsOpening, IsOpeningLink};

mod halves;
mod options;
mod replay;

pub use self::replay::Replay;
use crate::answers::{RunAnswer, StepAnswer};
use crate::half::Half;
use crate::link::Link;
use crate::side_turns::turn_of;
use handler_script::Script;
use history::{History, history_text};
use ipdl_base::{Schema, Side};
use line_laws::texts_see_no_box;
use schedules::{Stop, Turn};
use std::alloc::{AllocError, Global};
use std::marker::Model;

/// A run of two ends by a script (docs/scripts.md). Contracts see its setting and its state.
#[derive(Drop)]
pub struct World<'s> {
    schema: &'s Schema,
    script: &'s Script,
    stop: Option<Stop>,
    limit: u32,
    parent: Half<'s>,
    child: Half<'s>,
    link: Link,
}

impl<'s> Model for World<'s> {
    ghost use Rattle.std.specs.Coded.{codes};
    ghost use Rattle.ipdl_base.specs.contracts.value.Values as values;
    ghost use Rattle.ipdl_base.specs.contracts.schema.Shape as shape;
    ghost use Rattle.handler_script.specs.contracts.term.Terms as terms;
    ghost use Rattle.world_core.specs.WorldView.{WorldView, state_of};
    ghost use Rattle.world_core.specs.Worlds.{IsWorld};

    ghost Value = { WorldView };

    ghost coded = { Prim.hlevel (codes, values.the_row.coded, shape.the_row.coded, terms.the_row.coded) };

    ghost view = { λ a. record {
      setting = record { schema = a.schema.now; script = a.script.now; stop = a.stop; limit = a.limit };
      state = state_of (record { schema = a.schema.now; script = a.script.now; stop = a.stop; limit = a.limit }) a.link.lines;
    } };

    ghost invariant = { λ a. IsWorld
        (record { schema = a.schema.now; script = a.script.now; stop = a.stop; limit = a.limit })
        (state_of (record { schema = a.schema.now; script = a.script.now; stop = a.stop; limit = a.limit }) a.link.lines)
        a.parent a.child a.link };
}

impl<'s> World<'s> {
    ghost use Rattle.world_core.specs.Turns.{GrowsTo, IsSpentAt, StandsAs, TurnGives, WordGives};
    ghost use Rattle.world_core.specs.WorldView.{opening_of};
    ghost use Rattle.world_core.specs.Worlds.{IsCase, IsLawful, most_events};

    /// Creates the run as it begins, with room for all that may come. Fails only if memory runs out.
    pub fn open(
        alloc: Global,
        schema: &'s Schema,
        script: &'s Script,
        stop: Option<Stop>,
        limit: u32,
    ) -> Result<World<'s>, AllocError>
        requires sound { IsSound schema.now }
        requires valid { IsValid schema.now script.now }
        requires small { limit ≤ most_events }
        ensures opened { IfOk result (λ w. w ≡ opening_of (record { schema = schema.entry.now; script = script.entry.now; stop = stop; limit = limit })) }
        ensures case { IfOk result IsCase }
        ensures laws { IfOk result IsLawful }
    {
        let room = 8 * limit as usize + 1;
        let link = Link::open(alloc, 2 * room, room)?;
        let halves = open_halves(alloc, schema, script, stop, limit)?;
        Ok(World::begin(schema, script, stop, limit, halves, link))
    }

    // Creates the run that begins with these halves.
    fn begin(
        schema: &'s Schema,
        script: &'s Script,
        stop: Option<Stop>,
        limit: u32,
        halves: (Half<'s>, Half<'s>),
        link: Link,
    ) -> World<'s>
        requires sound { IsSound schema.now }
        requires valid { IsValid schema.now script.now }
        requires small { limit ≤ most_events }
        requires parent { IsOpening (record { schema = schema.now; script = script.now; stop = stop; limit = limit }) sides.Parent halves.0 }
        requires child { IsOpening (record { schema = schema.now; script = script.now; stop = stop; limit = limit }) sides.Child halves.1 }
        requires link { IsOpeningLink limit link }
        ensures opened { result ≡ opening_of (record { schema = schema.entry.now; script = script.entry.now; stop = stop; limit = limit }) }
        ensures case { IsCase result }
        ensures laws { IsLawful result }
    {
        let (parent, child) = halves;
        let world = World {
            schema,
            script,
            stop,
            limit,
            parent,
            child,
            link,
        };
        world.is_lawful();
        world
    }

    /// Makes one turn of a side. Returns `Nothing` exactly if the side has nothing to do, and `Spent` exactly
    /// if it has something to do but has reached its limit of events.
    pub fn step(&mut self, turn: Turn) -> StepAnswer
        ensures gives { TurnGives self.old turn result self.new }
        ensures case { IsCase self.new }
        ensures laws { IsLawful self.new }
    {
        let answer = match turn.side {
            Side::Parent => turn_of(&mut self.parent, &mut self.link, turn),
            Side::Child => turn_of(&mut self.child, &mut self.link, turn),
        };
        self.is_lawful();
        answer
    }

    /// Makes the turns of a word, and after it turns of both sides, the parent first, until neither has a
    /// step or a delivery left. Returns `Finished` exactly then, and then no end waits for a reply.
    pub fn run_schedule(&mut self, word: &[Turn]) -> RunAnswer
        ensures gives { WordGives self.old word.now result self.new }
        ensures same { self.new.setting ≡ self.old.setting }
        ensures grows { GrowsTo self.old.state.lines self.new.state.lines }
        ensures stands { StandsAs self.new result }
        ensures case { IsCase self.new }
        ensures laws { IsLawful self.new }
    {
        self.is_lawful();
        for turn in word {
            match self.step(*turn) {
                StepAnswer::Did | StepAnswer::Nothing => {}
                StepAnswer::Spent(side) => return RunAnswer::Spent(side),
                StepAnswer::NoMemory => return RunAnswer::NoMemory,
            }
        }
        let answer = self.run_to_rest();
        self.is_lawful();
        answer
    }

    // Makes turns of both sides, the parent first, until two turns in a row do nothing.
    fn run_to_rest(&mut self) -> RunAnswer
        ensures gives { WordGives self.old [] result self.new }
        ensures same { self.new.setting ≡ self.old.setting }
        ensures grows { GrowsTo self.old.state.lines self.new.state.lines }
        ensures spent { IsSpentAt self.new result }
        ensures case { IsCase self.new }
        ensures laws { IsLawful self.new }
    {
        self.is_lawful();
        let mut side = Side::Parent;
        let mut left = 2u32;
        while left > 0 {
            let turn = Turn::whole(side);
            side = side.other();
            match self.step(turn) {
                StepAnswer::Did => left = 2,
                StepAnswer::Nothing => left -= 1,
                StepAnswer::Spent(at) => return RunAnswer::Spent(at),
                StepAnswer::NoMemory => return RunAnswer::NoMemory,
            }
        }
        RunAnswer::Finished
    }

    // Shows that the history is a history of the script, and that every law holds of it.
    fn is_lawful(&self)
        ensures sound { IsSound self.now.setting.schema }
        ensures case { IsCase self.now }
        ensures laws { IsLawful self.now }
    {
        let _limit = self.limit;
    }

    /// Returns the history. Takes no memory.
    pub fn history(&self) -> &History
        ensures lines { map plain_line result.now.lines ≡ self.now.state.lines }
        ensures case { IsCase self.now }
        ensures laws { IsLawful self.now }
    {
        self.is_lawful();
        self.link.history()
    }

    /// Returns the text that a transcript prints of the history (docs/transcripts.md). Fails only if
    /// memory runs out.
    pub fn transcript(&self, alloc: Global) -> Result<Vec<u8>, AllocError>
        ensures { IfOk result (λ text. text.items ≡ transcript_text self.now.setting.schema self.now.state.lines) }
    {
        self.is_lawful();
        texts_see_no_box();
        history_text(alloc, self.schema, self.link.history())
    }
}

// Creates both sides of a run as it begins, the parent first.
fn open_halves<'s>(
    alloc: Global,
    schema: &'s Schema,
    script: &'s Script,
    stop: Option<Stop>,
    limit: u32,
) -> Result<(Half<'s>, Half<'s>), AllocError>
    requires sound { IsSound schema.now }
    requires valid { IsValid schema.now script.now }
    ensures parent { IfOk result (λ halves. IsOpening
        (record { schema = schema.entry.now; script = script.entry.now; stop = stop; limit = limit })
        sides.Parent halves.0) }
    ensures child { IfOk result (λ halves. IsOpening
        (record { schema = schema.entry.now; script = script.entry.now; stop = stop; limit = limit })
        sides.Child halves.1) }
{
    let parent = Half::open(alloc, Side::Parent, schema, script, stop, limit)?;
    match Half::open(alloc, Side::Child, schema, script, stop, limit) {
        Ok(child) => Ok((parent, child)),
        Err(error) => {
            drop(parent);
            Err(error)
        }
    }
}
