//! What a half does by itself, with no link.
ghost use Rattle.std.specs.Prelude.{◌≡◌, ◌<◌, ◌≤◌, [], None, length, map, nat_lt, true, OnOk};
ghost use Rattle.channel_core.specs.EndView.{IsFramed, packet_of};
ghost use Rattle.channel_model.specs.Ends as ends;
ghost use Rattle.channel_model.specs.Outputs.{is_open};
ghost use Rattle.end_parts.specs.PacketReading.{carried, packet_read};
ghost use Rattle.end_parts.specs.PlainLines.{plain_line};
ghost use Rattle.script_steps.specs.Progress.{Progress};

use super::Half;
use crate::answers::{AcceptAnswer, StepAnswer};
use crate::side_turns::holds_bytes;
use channel_core::{DeliverAnswer, Packet};
use history::History;
use std::alloc::AllocError;

impl<'s> Half<'s> {
    ghost use Rattle.world_core.specs.HalfSteps.{next_of};
    ghost use Rattle.world_core.specs.HalfView.{IsCountedBy};
    ghost use Rattle.world_core.specs.Relaying.{AcceptGives, BreaksOff, ContentGives, DeliversFor, GoingGives, HasLineRoom, HasTakenOver, InEach, IsApart, PutGives, own_progress};

    /// Makes one own step of a half that runs by itself: what the end does next by its script. Returns
    /// `Nothing` exactly if it has no own step, and `Spent` exactly if it has one but has reached its limit
    /// of events.
    pub fn go_on(&mut self) -> StepAnswer
        requires { IsApart self.old }
        ensures { InEach self.old (λ setting side state handed. GoingGives setting side state handed result self.new) }
    {
        match self.make_room() {
            Err(_) => StepAnswer::NoMemory,
            Ok(()) => self.step_on(),
        }
    }

    // Makes one own step, where there is room for the lines.
    fn step_on(&mut self) -> StepAnswer
        requires apart { IsApart self.old }
        requires room { HasLineRoom self.old }
        ensures { InEach self.old (λ setting side state handed. GoingGives setting side state handed result self.new) }
    {
        let answer = self.own_step();
        self.take_over();
        answer
    }

    /// Hands out the oldest packet that was not handed out, or returns `None` exactly if all were. Takes no
    /// memory.
    pub fn put(&mut self) -> Option<Packet>
        ensures { InEach self.old (λ setting side state handed. PutGives setting side state handed result self.new) }
    {
        self.end.outgoing()
    }

    /// Delivers a packet to a half with no own step, or the mark of a death in place of a packet that its end
    /// refuses. Returns `Nothing` exactly if the end is not open, else `Spent` exactly if it has reached its
    /// limit of events, and else `Refused` exactly if it refuses the packet. A packet that a half hands out
    /// is read as what it was made of.
    pub fn accept(&mut self, packet: &Packet) -> AcceptAnswer
        requires apart { IsApart self.old }
        requires rests { next_of self.old (own_progress self.old) ≡ None }
        ensures gives { InEach self.old (λ setting side state handed. AcceptGives setting side state handed
            (packet_read setting.schema packet.now) result self.new) }
        ensures reads { (carries : ends.Packet) → IsFramed self.old.end.schema carries
            → packet.now ≡ packet_of self.old.end.schema carries
            → packet_read self.old.end.schema packet.now ≡ carried carries }
    {
        holds_bytes(packet);
        if !self.is_open() {
            AcceptAnswer::Nothing
        } else if self.is_spent() {
            AcceptAnswer::Spent(self.side())
        } else {
            match self.make_room() {
                Err(_) => AcceptAnswer::NoMemory,
                Ok(()) => self.take_in(packet),
            }
        }
    }

    // Delivers a packet, where the end is open and there is room for one event more and its lines.
    fn take_in(&mut self, packet: &Packet) -> AcceptAnswer
        requires apart { IsApart self.old }
        requires rests { next_of self.old (own_progress self.old) ≡ None }
        requires opened { is_open self.old.end.end.state ≡ true }
        requires within { nat_lt self.old.counts.events self.old.limit ≡ true }
        requires room { HasLineRoom self.old }
        ensures { InEach self.old (λ setting side state handed. AcceptGives setting side state handed (packet_read setting.schema packet.now) result self.new) }
    {
        holds_bytes(packet);
        let answer = self.deliver_for(packet);
        self.take_over();
        answer
    }

    // Delivers a packet, or the mark of a death in its place.
    fn deliver_for(&mut self, packet: &Packet) -> AcceptAnswer
        ghost progress: { Progress }
        requires counted { IsCountedBy self.old progress }
        requires opened { is_open self.old.end.end.state ≡ true }
        requires few { self.old.end.end.delivered < 268435456 }
        requires within { nat_lt self.old.counts.events self.old.limit ≡ true }
        ensures { DeliversFor self.old progress (packet_read self.old.end.schema packet.now) result self.new }
    {
        match self.offer_packet(packet) {
            DeliverAnswer::Done => AcceptAnswer::Did,
            DeliverAnswer::NoMemory => AcceptAnswer::NoMemory,
            DeliverAnswer::Bad(_, _) | DeliverAnswer::Stray(_) | DeliverAnswer::WrongActor(_, _) =>
                self.break_off(),
        }
    }

    // Delivers the mark of a death in place of a packet.
    fn break_off(&mut self) -> AcceptAnswer
        ghost progress: { Progress }
        requires counted { IsCountedBy self.old progress }
        requires opened { is_open self.old.end.end.state ≡ true }
        requires few { self.old.end.end.delivered < 268435456 }
        requires within { nat_lt self.old.counts.events self.old.limit ≡ true }
        ensures { BreaksOff self.old progress result self.new }
    {
        match self.deliver(&Packet::Broken) {
            StepAnswer::Did => AcceptAnswer::Refused,
            StepAnswer::NoMemory => AcceptAnswer::NoMemory,
            StepAnswer::Nothing | StepAnswer::Spent(_) => unreachable!(),
        }
    }

    // Delivers a packet, or refuses it and changes nothing.
    fn offer_packet(&mut self, packet: &Packet) -> DeliverAnswer
        ghost progress: { Progress }
        requires counted { IsCountedBy self.old progress }
        requires opened { is_open self.old.end.end.state ≡ true }
        requires few { self.old.end.end.delivered < 268435456 }
        requires within { nat_lt self.old.counts.events self.old.limit ≡ true }
        ensures { ContentGives self.old progress (packet_read self.old.end.schema packet.now) result self.new }
    {
        let _within = self.may_count();
        match self.end.deliver(packet) {
            DeliverAnswer::Done => {
                self.counts.count_event();
                DeliverAnswer::Done
            }
            DeliverAnswer::NoMemory => DeliverAnswer::NoMemory,
            DeliverAnswer::Bad(offset, rule) => DeliverAnswer::Bad(offset, rule),
            DeliverAnswer::Stray(seq) => DeliverAnswer::Stray(seq),
            DeliverAnswer::WrongActor(id, number) => DeliverAnswer::WrongActor(id, number),
        }
    }

    // Makes room for all lines that the half may ever have.
    fn make_room(&mut self) -> Result<(), AllocError>
        ensures same { self.new ≡ record self.old { spare = self.new.spare } }
        ensures room { OnOk result (HasLineRoom self.new) }
    {
        let most = 5 * self.limit as usize + 1;
        let have = self.history.lines().len();
        self.history.reserve(most.saturating_sub(have))
    }

    // Takes over the lines of the end. Takes no memory, since there is room for them.
    fn take_over(&mut self)
        requires { length self.old.end.lines ≤ self.old.spare }
        ensures { HasTakenOver self.old self.new }
    {
        if self.end.drain(&mut self.history).is_err() {
            unreachable!();
        }
    }

    /// Returns the lines that the half has taken over from its end and appended to no link: all its lines, if
    /// it runs by itself. Takes no memory.
    pub fn lines(&self) -> &History
        ensures { map plain_line result.now.lines ≡ self.now.history }
    {
        &self.history
    }

    /// Gives away the lines that the half has taken over. Takes no memory.
    pub fn into_lines(self) -> History
        ensures { map plain_line result.lines ≡ self.entry.history }
    {
        let Half {
            end,
            counts,
            history,
            ..
        } = self;
        drop(end);
        drop(counts);
        history
    }

    /// Lets the half run by itself from here on, with no line taken over.
    pub(crate) fn set_out(&mut self)
        ensures { self.new ≡ record self.old { history = []; spare = self.new.spare } }
    {
        self.history = History::new(self.alloc);
    }
}
