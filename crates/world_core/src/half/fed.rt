//! What a half does that no other half faces.
ghost use Rattle.std.specs.Prelude.{◌≡◌, ◌<◌, [], true, nat_lt, OnOk};
ghost use Rattle.ipdl_base.specs.Plain.{plain_message};
ghost use Rattle.value_types.specs.Fits.{Fits};
ghost use Rattle.channel_model.specs.Ends as ends;
ghost use Rattle.channel_model.specs.Outputs.{is_open};
ghost use Rattle.end_parts.specs.MovedLines.{HasMoved};
ghost use Rattle.script_steps.specs.Progress.{Progress};

use super::Half;
use channel_core::{DeliverAnswer, End};
use history::History;
use ipdl_base::{Message, Side};
use std::alloc::AllocError;

impl<'s> Half<'s> {
    ghost use Rattle.world_core.specs.HalfSteps.{OfferGives};
    ghost use Rattle.world_core.specs.HalfView.{IsCountedBy, appended};

    /// Returns the side of the half.
    pub(crate) fn side(&self) -> Side
        ensures { result ≡ self.now.end.end.side }
    {
        self.end.side()
    }

    /// Delivers a message that fits the schema, whoever sent it, or refuses it and changes nothing.
    pub(crate) fn offer(&mut self, message: Message) -> DeliverAnswer
        ghost progress: { Progress }
        requires counted { IsCountedBy self.old progress }
        requires open { is_open self.old.end.end.state ≡ true }
        requires few { self.old.end.end.delivered < 268435456 }
        requires within { nat_lt self.old.counts.events self.old.limit ≡ true }
        requires fits { Fits self.old.end.schema message }
        ensures { OfferGives self.old progress (ends.message (plain_message message)) result self.new }
    {
        let _within = self.may_count();
        match self.end.deliver_message(message) {
            DeliverAnswer::Done => {
                self.counts.count_event();
                DeliverAnswer::Done
            }
            DeliverAnswer::NoMemory => DeliverAnswer::NoMemory,
            DeliverAnswer::Bad(offset, rule) => DeliverAnswer::Bad(offset, rule),
            DeliverAnswer::Stray(seq) => DeliverAnswer::Stray(seq),
            DeliverAnswer::WrongActor(id, number) => DeliverAnswer::WrongActor(id, number),
        }
    }

    /// Moves the lines of the half to a history, and drops its packets. Fails only if memory runs out.
    pub(crate) fn store(&mut self, into: &mut History) -> Result<(), AllocError>
        ensures half { OnOk result (self.new ≡ appended self.old) }
        ensures lines { OnOk result (HasMoved self.old.end.lines into.old into.new) }
    {
        self.end.drain(into)?;
        drop_packets(&mut self.end);
        Ok(())
    }
}

// Drops the packets of an end.
fn drop_packets(end: &mut End<'_>)
    ensures { end.new ≡ record end.old { packets = [] } }
{
    while let Some(_) = end.outgoing() {}
}
