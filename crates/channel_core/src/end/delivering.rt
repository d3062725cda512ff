//! Deliveries: packets of the other side, and messages that anybody has sent.
ghost use Rattle.std.specs.Prelude.{◌≡◌, ◌<◌, true, false, Some, None, IsSome, [], ◌∷◌, OnOk, OnErr, if◌then◌else◌, option_map};
ghost use Rattle.ipdl_base.specs.declared.kinds.EndState.TheVariants.{Open};
ghost use Rattle.ipdl_base.specs.Plain.{plain_message};
ghost use Rattle.ipdl_base.specs.Sound.{message_of};
ghost use Rattle.pending_queue.specs.Compression.{is_request};
ghost use Rattle.pending_queue.specs.Plain.{plain_item};
ghost use Rattle.value_types.specs.Fits.{Fits};
ghost use Rattle.channel_model.specs.Ends as ends;
ghost use Rattle.channel_model.specs.Events as event;
ghost use Rattle.channel_model.specs.Numbers.{counting, is_constructor, is_sync_row};
ghost use Rattle.channel_model.specs.Parts.{farewell_item, farewell_line};
ghost use Rattle.channel_model.specs.Refusals.{delivery_refusal};
ghost use Rattle.end_steps.specs.Arrivals.{reply_answer};
ghost use Rattle.end_steps.specs.DeliveryRefusals.{refusal_of};
ghost use Rattle.end_parts.specs.PlainLines.{plain_what};
ghost use Rattle.channel_core.specs.Delivered.{CarriedGives, IsFarewell, MayArrive, farewell, refusal_answer};
ghost use Rattle.channel_core.specs.Steps.{IsStepBy};

use super::End;
use crate::answers::DeliverAnswer;
use end_parts::{Packet, PacketReading, read_packet};
use end_steps::{
    DeliveryRefusal, Receiver, answer_call, delivery_refusal, is_constructor, receive_end,
    receive_reply, receive_request,
};
use ipdl_base::{Body, EndState, Kind, Level, Message, MessageRow, Rule, Semantics, What};
use pending_queue::Item;
use std::alloc::AllocError;

/// The offsets in a frame, in the new layout, of the number of its message, of the number of the
/// request and of the id of the actor that it makes.
const NUMBER_OFFSET: usize = 12;

const SEQ_OFFSET: usize = 20;

const MADE_OFFSET: usize = 28;

impl<'s> End<'s> {
    ghost use Rattle.channel_core.specs.Delivered.{DeliverGives};

    /// Delivers a packet of the other side, whatever bytes it has. This is the step of a delivery,
    /// or returns the first fault of the packet (docs/frames.md, docs/channel.md) and changes
    /// nothing.
    pub fn deliver(&mut self, packet: &Packet) -> DeliverAnswer
        requires open { self.old.end.state ≡ Open }
        requires few { self.old.end.delivered < 268435456 }
        ensures { DeliverGives self.old packet.now result self.new }
    {
        match read_packet(self.alloc, self.schema, packet) {
            PacketReading::NoMemory => DeliverAnswer::NoMemory,
            PacketReading::Bad(offset, rule) => DeliverAnswer::Bad(offset, rule),
            PacketReading::Mark => answer_of(self.deliver_farewell(None).is_ok()),
            PacketReading::Message(message) => self.deliver_message(message),
        }
    }

    /// Delivers a message that fits the schema, whoever has sent it, or refuses it and changes
    /// nothing (docs/channel.md).
    pub fn deliver_message(&mut self, message: Message) -> DeliverAnswer
        requires open { self.old.end.state ≡ Open }
        requires few { self.old.end.delivered < 268435456 }
        requires fits { Fits self.old.schema message }
        ensures { CarriedGives self.old (ends.message (plain_message message)) result self.new }
    {
        if matches!(message.body, Body::Goodbye) {
            return answer_of(self.deliver_farewell(Some(message)).is_ok());
        }
        let schema = self.schema;
        let Some(row) = schema.message(message.number) else {
            unreachable!();
        };
        match self.delivery_refusal(row, &message) {
            Some(refusal) => refusal_answer(refusal),
            None => answer_of(self.deliver_accepted(row, message).is_ok()),
        }
    }

    // Returns why a message of a row is refused.
    fn delivery_refusal(&self, row: &MessageRow, message: &Message) -> Option<DeliveryRefusal>
        requires few { self.now.end.delivered < 268435456 }
        requires found { message_of self.now.schema message.now.number ≡ Some row.now }
        ensures { option_map refusal_of result ≡ delivery_refusal self.now.schema self.now.end (plain_message message.now) }
    {
        let receiver = Receiver {
            side: self.side,
            delivered: self.delivered,
            constructors_delivered: self.constructors_delivered,
        };
        delivery_refusal(
            receiver,
            self.schema,
            &self.tree,
            &self.stack,
            &self.promises,
            row,
            message,
        )
    }

    // Delivers a message of a row that is not refused. Fails only if memory runs out, and then
    // nothing changes, here and in the functions below.
    fn deliver_accepted(&mut self, row: &MessageRow, message: Message) -> Result<(), AllocError>
        requires open { self.old.end.state ≡ Open }
        requires few { self.old.end.delivered < 268435456 }
        requires may { MayArrive self.old row.now message }
        ensures ok { OnOk result (IsStepBy self.old (ends.message (plain_message message) ∷ []) event.deliver self.new) }
        ensures err { OnErr result (self.new ≡ self.old) }
    {
        if matches!(message.body, Body::Request(_)) {
            self.deliver_request(row, message)
        } else if row.semantics == Semantics::Sync {
            self.deliver_answer(row, message)
        } else {
            self.deliver_reply(row, message)
        }
    }

    // Delivers a request.
    fn deliver_request(&mut self, row: &MessageRow, message: Message) -> Result<(), AllocError>
        requires open { self.old.end.state ≡ Open }
        requires few { self.old.end.delivered < 268435456 }
        requires may { MayArrive self.old row.now message }
        requires request { is_request message.body ≡ true }
        ensures ok { OnOk result (IsStepBy self.old (ends.message (plain_message message) ∷ []) event.deliver self.new) }
        ensures err { OnErr result (self.new ≡ self.old) }
    {
        receive_request(
            self.alloc,
            self.schema,
            self.side,
            row,
            message,
            &mut self.pending,
            &mut self.out,
        )?;
        self.delivered += 1;
        self.constructors_delivered = counting(row.kind, self.constructors_delivered);
        Ok(())
    }

    // Delivers the reply to a sync request, for which a call waits.
    fn deliver_answer(&mut self, row: &MessageRow, message: Message) -> Result<(), AllocError>
        requires open { self.old.end.state ≡ Open }
        requires may { MayArrive self.old row.now message }
        requires reply { IsSome (reply_answer message.body) }
        requires sync { is_sync_row row.now ≡ true }
        ensures ok { OnOk result (IsStepBy self.old (ends.message (plain_message message) ∷ []) event.deliver self.new) }
        ensures err { OnErr result (self.new ≡ self.old) }
    {
        answer_call(
            self.alloc,
            self.side,
            message,
            &mut self.stack,
            &mut self.out,
        )?;
        Ok(())
    }

    // Delivers any other reply.
    fn deliver_reply(&mut self, row: &MessageRow, message: Message) -> Result<(), AllocError>
        requires open { self.old.end.state ≡ Open }
        requires may { MayArrive self.old row.now message }
        requires reply { IsSome (reply_answer message.body) }
        requires not_sync { is_sync_row row.now ≡ false }
        ensures ok { OnOk result (IsStepBy self.old (ends.message (plain_message message) ∷ []) event.deliver self.new) }
        ensures err { OnErr result (self.new ≡ self.old) }
    {
        receive_reply(self.side, row, message, &mut self.pending, &mut self.out)?;
        Ok(())
    }

    // Delivers a goodbye or the mark.
    fn deliver_farewell(&mut self, goodbye: Option<Message>) -> Result<(), AllocError>
        requires open { self.old.end.state ≡ Open }
        requires farewell { IsFarewell self.old.schema goodbye }
        ensures ok { OnOk result (IsStepBy self.old (farewell goodbye ∷ []) event.deliver self.new) }
        ensures err { OnErr result (self.new ≡ self.old) }
    {
        let (what, item) = farewell_parts(goodbye);
        receive_end(
            self.side,
            what,
            item,
            &mut self.stack,
            &mut self.pending,
            &mut self.out,
        )?;
        self.state = EndState::Draining;
        Ok(())
    }
}

// Returns the line of a goodbye or of the mark, and the item that arrives.
fn farewell_parts(goodbye: Option<Message>) -> (What, Item)
    ensures line { plain_what result.0 ≡ farewell_line (farewell goodbye) }
    ensures item { plain_item result.1 ≡ farewell_item (farewell goodbye) }
{
    match goodbye {
        None => (What::DeliverBroken, Item::Broken),
        Some(message) => {
            let item = Item::Message {
                message,
                sync: false,
                level: Level::Not,
            };
            (What::DeliverGoodbye, item)
        }
    }
}

// Returns the number of constructors after a request of this kind.
fn counting(kind: Kind, constructors: u32) -> u32
    requires { is_constructor kind ≡ true → constructors < 4294967295 }
    ensures { result ≡ counting kind constructors }
{
    if is_constructor(kind) {
        constructors + 1
    } else {
        constructors
    }
}

// Returns the result of a delivery, by whether there was memory for it.
fn answer_of(is_done: bool) -> DeliverAnswer
    ensures { result ≡ (if is_done then DeliverAnswer.Done else DeliverAnswer.NoMemory) }
{
    if is_done {
        DeliverAnswer::Done
    } else {
        DeliverAnswer::NoMemory
    }
}

// Returns the result for a refusal.
fn refusal_answer(refusal: DeliveryRefusal) -> DeliverAnswer
    ensures { result ≡ refusal_answer (Some (refusal_of refusal)) }
{
    match refusal {
        DeliveryRefusal::WrongDirection => DeliverAnswer::Bad(
            NUMBER_OFFSET,
            Rule::UNSENT_REQUEST.number,
        ),
        DeliveryRefusal::WrongNumber => DeliverAnswer::Bad(SEQ_OFFSET, Rule::WRONG_NUMBER.number),
        DeliveryRefusal::WrongNewId => DeliverAnswer::Bad(MADE_OFFSET, Rule::WRONG_ID.number),
        DeliveryRefusal::Stray(seq) => DeliverAnswer::Stray(seq),
        DeliveryRefusal::WrongActor(id, number) => DeliverAnswer::WrongActor(id, number),
    }
}
