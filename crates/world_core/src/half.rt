//! One side of a run.
ghost use Rattle.std.specs.Prelude.{◌≡◌, ◌<◌, ◌^◌, IfOk, length};
ghost use Rattle.ipdl_base.specs.Sides.{other};
ghost use Rattle.ipdl_base.specs.Sound.{IsSound};
ghost use Rattle.script_steps.specs.Progress.{Progress};

mod acting;
mod apart;
mod ending;
mod fed;
mod meeting;
mod next;
mod returning;
mod taking;
mod terms;

use self::next::NextStep;
use crate::answers::StepAnswer;
use crate::counts::ScriptCounts;
use crate::link::Link;
use channel_core::{DeliverAnswer, End, EndState, Packet};
use handler_script::Script;
use history::History;
use ipdl_base::{Schema, Side};
use schedules::Stop;
use std::alloc::{AllocError, Global};
use std::marker::Model;

/// One side of a run: its end, and how far it has come in the script. Its lines and packets are kept
/// until they are appended to the link.
#[derive(Drop)]
pub struct Half<'s> {
    alloc: Global,
    schema: &'s Schema,
    end: End<'s>,
    script: &'s Script,
    stop: Option<Stop>,
    limit: u32,
    counts: ScriptCounts,
    /// The lines that were taken over from the end.
    history: History,
}

impl<'s> Model for Half<'s> {
    ghost use Rattle.std.specs.Prelude.{◌≡◌, map};
    ghost use Rattle.std.specs.Coded.{codes};
    ghost use Rattle.end_parts.specs.PlainLines.{plain_line};
    ghost use Rattle.indexmap.specs.Layout.{hash_map_code};
    ghost use Rattle.ipdl_base.specs.contracts.value.Values as values;
    ghost use Rattle.ipdl_base.specs.contracts.schema.Shape as shape;
    ghost use Rattle.handler_script.specs.contracts.term.Terms as terms;
    ghost use Rattle.world_core.specs.HalfView.{HalfView};

    ghost Value = { HalfView };

    ghost coded = { Prim.hlevel (codes, hash_map_code, values.the_row.coded, shape.the_row.coded, terms.the_row.coded) };

    ghost view = { λ a. record {
      end = a.end;
      script = a.script.now;
      stop = a.stop;
      limit = a.limit;
      counts = a.counts;
      history = map plain_line a.history.lines;
      spare = a.history.spare;
    } };

    ghost invariant = { λ a. a.end.schema ≡ a.schema.now };
}

impl<'s> Half<'s> {
    ghost use Rattle.channel_core.specs.declared.answers.DeliverAnswer.TheVariants as delivery;
    ghost use Rattle.channel_core.specs.Delivered.{delivery_answer};
    ghost use Rattle.channel_core.specs.EndView.{opened};
    ghost use Rattle.channel_model.specs.Outputs.{is_open};
    ghost use Rattle.script_steps.specs.Progress.{no_progress};
    ghost use Rattle.std.specs.Prelude.{true, nat_lt, not};
    ghost use Rattle.world_core.specs.declared.half.next.NextStep.TheVariants as next;
    ghost use Rattle.world_core.specs.NextSteps.{IsDue};
    ghost use Rattle.world_core.specs.HalfSteps.{MayGoOn, OwnGives, DeliveryGives};
    ghost use Rattle.world_core.specs.HalfView.{IsCountedBy, appended};
    ghost use Rattle.world_core.specs.LinkView.{IsAppended, LinkHasRoom};

    /// Creates a side of a run as it begins. Fails only if memory runs out.
    pub(crate) fn open(
        alloc: Global,
        side: Side,
        schema: &'s Schema,
        script: &'s Script,
        stop: Option<Stop>,
        limit: u32,
    ) -> Result<Half<'s>, AllocError>
        requires sound { IsSound schema.now }
        requires top { script.now.top < length schema.now.protocols }
        requires few { length script.now.blocks < 2 ^ 32 }
        ensures made { IfOk result (λ half. half
            ≡ record {
              end = opened side schema.entry.now script.entry.now.top;
              script = script.entry.now;
              stop = stop;
              limit = limit;
              counts = half.counts;
              history = half.history;
              spare = half.spare;
            }) }
        ensures counted { IfOk result (λ half. IsCountedBy half no_progress) }
    {
        let counts = ScriptCounts::new(alloc, script, side)?;
        Ok(Half {
            alloc,
            schema,
            end: End::open(alloc, side, schema, script.top)?,
            script,
            stop,
            limit,
            counts,
            history: History::new(alloc),
        })
    }

    /// Makes one own step, at a known progress.
    pub(crate) fn own_step(&mut self) -> StepAnswer
        ghost progress: { Progress }
        requires { MayGoOn self.old progress }
        ensures { OwnGives self.old progress result self.new }
    {
        match self.next_step() {
            None => StepAnswer::Nothing,
            Some(_) if !self.may_count() => StepAnswer::Spent(self.end.side()),
            Some(step) => self.do_step(step),
        }
    }

    // Makes the step that is next.
    fn do_step(&mut self, step: NextStep) -> StepAnswer
        ghost progress: { Progress }
        requires may { MayGoOn self.old progress }
        requires due { IsDue self.old progress step }
        ensures { OwnGives self.old progress result self.new }
    {
        match step {
            NextStep::Die => self.die(),
            NextStep::Resume => self.resume(),
            NextStep::Flush => self.flush(),
            NextStep::Take => self.take(),
            NextStep::Main => self.do_main(),
            NextStep::Handler => self.do_handler(),
        }
    }

    // Does the next action of main.
    fn do_main(&mut self) -> StepAnswer
        ghost progress: { Progress }
        requires may { MayGoOn self.old progress }
        requires due { IsDue self.old progress next.Main }
        ensures { OwnGives self.old progress result self.new }
    {
        let Some(action) = self.main_action() else {
            unreachable!();
        };
        self.act(action)
    }

    // Does the next action of the innermost handler.
    fn do_handler(&mut self) -> StepAnswer
        ghost progress: { Progress }
        requires may { MayGoOn self.old progress }
        requires due { IsDue self.old progress next.Handler }
        ensures { OwnGives self.old progress result self.new }
    {
        match self.handler_action() {
            None => self.finish(),
            Some(action) => self.act(action),
        }
    }

    /// Returns whether the end is open. Takes no memory.
    pub fn is_open(&self) -> bool
        ensures { result ≡ is_open self.now.end.end.state }
    {
        match self.end.state() {
            EndState::Open => true,
            EndState::Draining | EndState::Closed | EndState::Dead => false,
        }
    }

    // Returns whether the side has fewer events than it may have.
    fn may_count(&self) -> bool
        ensures says { result ≡ nat_lt self.now.counts.events self.now.limit }
        ensures room { nat_lt self.now.counts.events self.now.limit ≡ true → self.now.counts.events < 4294967295 }
    {
        self.counts.events() < self.limit
    }

    /// Returns whether the number of events of the side has reached its limit.
    pub(crate) fn is_spent(&self) -> bool
        ensures { result ≡ not (nat_lt self.now.counts.events self.now.limit) }
    {
        self.counts.events() >= self.limit
    }

    /// Delivers a packet of the other side.
    pub(crate) fn deliver(&mut self, packet: &Packet) -> StepAnswer
        ghost progress: { Progress }
        requires counted { IsCountedBy self.old progress }
        requires open { is_open self.old.end.end.state ≡ true }
        requires few { self.old.end.end.delivered < 268435456 }
        requires within { nat_lt self.old.counts.events self.old.limit ≡ true }
        requires accepted { delivery_answer self.old.end packet.now ≡ delivery.Done }
        ensures { DeliveryGives self.old progress packet.now result self.new }
    {
        let _within = self.may_count();
        match self.end.deliver(packet) {
            DeliverAnswer::Done => {
                self.counts.count_event();
                StepAnswer::Did
            }
            DeliverAnswer::NoMemory => StepAnswer::NoMemory,
            DeliverAnswer::Bad(_, _) | DeliverAnswer::Stray(_) | DeliverAnswer::WrongActor(_, _) =>
                unreachable!(),
        }
    }

    /// Appends the lines and packets of the half to the link. Takes no memory, since the link has room for
    /// them.
    pub(crate) fn append(&mut self, link: &mut Link)
        requires { LinkHasRoom link.old (length self.old.end.lines) (other self.old.end.end.side) (length self.old.end.packets) }
        ensures half { self.new ≡ appended self.old }
        ensures link { IsAppended link.old self.old.end.lines (other self.old.end.end.side) self.old.end.packets link.new }
    {
        let toward = self.end.side().other();
        link.append(&mut self.end, toward);
    }
}
