//! What is read of one end, and how each line changes it.
ghost use Rattle.std.specs.Prelude.{◌≡◌, ◌∷◌, ◌++◌, [], OnOk, IfOk, option_map, find, position};
ghost use Rattle.std.specs.Ordering.{int_eq};
ghost use Rattle.history_reading.specs.Numbers.{same_packet};
ghost use Rattle.history_reading.specs.EndReading.{lives, opening, was_built};
ghost use Rattle.history_reading.specs.EndReadings.{end_view};
ghost use Rattle.history_reading.specs.Views.{packet_view};
ghost use Rattle.history_reading.specs.Reading as read;

use crate::numbers::NumberList;
use crate::parts::{ActorPlace, BuiltActor, CallFrame, Cause, EventKind, PacketKind};
use crate::sent::SentList;
use crate::sent_packet::SentPacket;
use crate::stack::CallStack;
use ipdl_base::{Destroy, EndState, TOP_ID};
use std::alloc::{AllocError, Global};

/// What is read from the lines of one end.
#[derive(Drop)]
pub struct EndReading<'h> {
    pub state: EndState,
    /// Whether the end has sent or received an end of the channel.
    pub ended: bool,
    /// Whether the end has closed.
    pub over: bool,
    /// The actors that were built, the top actor first.
    pub built: Vec<BuiltActor>,
    pub fallen: NumberList,
    /// The number of actors that the end has constructed.
    pub made: usize,
    pub sent: SentList<'h>,
    pub delivered: Vec<PacketKind>,
    pub arrived: Vec<PacketKind>,
    /// The numbers of the requests that were taken or dropped.
    pub gone: NumberList,
    pub replaced: NumberList,
    /// The numbers of the replies that were taken.
    pub replies: NumberList,
    /// The numbers of the calls that failed.
    pub failed: NumberList,
    pub settled: NumberList,
    pub stack: CallStack,
    pub event: EventKind,
    pub cause: Cause,
    /// The places of the actors that fell in the event.
    pub falls: Vec<ActorPlace>,
}

impl<'h> EndReading<'h> {
    /// Returns what is read of no lines: the top actor lives.
    pub fn new(alloc: Global) -> Result<EndReading<'h>, AllocError>
        ensures { IfOk result (λ own. end_view own ≡ opening) }
    {
        let mut built = Vec::new(alloc);
        built.push(BuiltActor {
            id: TOP_ID,
            manager: 0,
        })?;
        Ok(EndReading {
            state: EndState::Open,
            ended: false,
            over: false,
            built,
            fallen: NumberList::new(alloc),
            made: 0,
            sent: SentList::new(alloc),
            delivered: Vec::new(alloc),
            arrived: Vec::new(alloc),
            gone: NumberList::new(alloc),
            replaced: NumberList::new(alloc),
            replies: NumberList::new(alloc),
            failed: NumberList::new(alloc),
            settled: NumberList::new(alloc),
            stack: CallStack::new(alloc),
            event: EventKind::Other,
            cause: Cause::Nobody,
            falls: Vec::new(alloc),
        })
    }

    /// Begins an event.
    pub fn begin(&mut self, event: EventKind, cause: Cause)
        ensures { end_view self.new ≡ read.begun event cause (end_view self.old) }
    {
        self.event = event;
        self.cause = cause;
        self.falls.clear();
    }

    /// Appends a packet to what was sent.
    pub fn tell(&mut self, told: SentPacket<'h>) -> Result<(), AllocError>
        ensures { OnOk result (end_view self.new ≡ read.telling (packet_view told.entry) (end_view self.old)) }
    {
        self.sent.push(told)
    }

    /// Pushes a frame.
    pub fn push(&mut self, frame: CallFrame) -> Result<(), AllocError>
        ensures { OnOk result (end_view self.new ≡ read.pushing frame (end_view self.old)) }
    {
        self.stack.push(frame)
    }

    /// Notes the delivery of a packet that does not arrive.
    pub fn deliver(&mut self, packet: PacketKind) -> Result<(), AllocError>
        ensures { OnOk result (end_view self.new ≡ read.delivering packet (end_view self.old)) }
    {
        self.delivered.push(packet)?;
        Ok(())
    }

    /// Notes the delivery of a packet that arrives.
    pub fn arrive(&mut self, packet: PacketKind) -> Result<(), AllocError>
        ensures { OnOk result (end_view self.new ≡ read.arriving packet (end_view self.old)) }
    {
        self.delivered.push(packet)?;
        self.arrived.push(packet)?;
        Ok(())
    }

    /// Removes the first arrived item that shows a packet.
    pub fn leave(&mut self, packet: PacketKind)
        ensures { end_view self.new ≡ read.leaving packet (end_view self.old) }
    {
        remove_first(&mut self.arrived, packet);
    }

    /// Answers the innermost unanswered wait of a number.
    pub fn answer(&mut self, n: i32)
        ensures { end_view self.new ≡ read.answering n (end_view self.old) }
    {
        self.stack.answer(n);
    }

    /// Notes the arrival of the end of the channel.
    pub fn drain(&mut self, packet: PacketKind) -> Result<(), AllocError>
        ensures { OnOk result (end_view self.new ≡ read.draining packet (end_view self.old)) }
    {
        self.arrive(packet)?;
        self.state = EndState::Draining;
        self.ended = true;
        Ok(())
    }

    /// Removes a request from those that have arrived for good.
    pub fn go(&mut self, n: i32) -> Result<(), AllocError>
        ensures { OnOk result (end_view self.new ≡ read.going n (end_view self.old)) }
    {
        self.leave(PacketKind::Request(n));
        self.gone.push(n)
    }

    /// Closes the end.
    pub fn close(&mut self, why: Destroy)
        ensures { end_view self.new ≡ read.closing why (end_view self.old) }
    {
        self.begin(EventKind::Closes, Cause::Closing(why));
        self.state = EndState::Closed;
        self.over = true;
        self.arrived.clear();
    }

    /// Ends in a death.
    pub fn die(&mut self) -> Result<(), AllocError>
        ensures { OnOk result (end_view self.new ≡ read.dying (end_view self.old)) }
    {
        if !self.ended {
            self.tell(SentPacket::Broken)?;
        }
        self.begin(EventKind::Other, Cause::Nobody);
        self.state = EndState::Dead;
        self.stack.clear();
        self.arrived.clear();
        Ok(())
    }

    /// Pops the top frame.
    pub fn pop(&mut self, cause: Cause)
        ensures { end_view self.new ≡ read.popping cause (end_view self.old) }
    {
        self.begin(EventKind::Other, cause);
        self.stack.pop();
    }

    /// Builds an actor under that of the event.
    pub fn build(&mut self, id: i32) -> Result<(), AllocError>
        ensures { OnOk result (end_view self.new ≡ read.building id (end_view self.old)) }
    {
        let manager = self.event.route();
        self.built.push(BuiltActor { id, manager })?;
        Ok(())
    }

    /// Records the fall of an actor.
    pub fn fall(&mut self, id: i32) -> Result<(), AllocError>
        ensures { OnOk result (end_view self.new ≡ read.falling id (end_view self.old)) }
    {
        let standing = actor_place(self.built.as_slice(), id);
        self.fallen.push(id)?;
        self.falls.push(standing)?;
        Ok(())
    }
}

impl EventKind {
    /// Returns the actor to which a request goes or at which it is handled, or 0.
    pub fn route(&self) -> i32
        ensures { result ≡ read.route_of self.now }
    {
        match self {
            EventKind::Sends(_, route) | EventKind::Takes(_, route) => *route,
            EventKind::Ends | EventKind::Closes | EventKind::Other => 0,
        }
    }
}

impl PacketKind {
    /// Whether both show the same packet.
    pub fn same(&self, other: &PacketKind) -> bool
        ensures { result ≡ same_packet self.now other.now }
    {
        match (self, other) {
            (PacketKind::Request(m), PacketKind::Request(n))
            | (PacketKind::Reply(m), PacketKind::Reply(n)) => *m == *n,
            (PacketKind::Goodbye, PacketKind::Goodbye) | (PacketKind::Broken, PacketKind::Broken) =>
                true,
            _ => false,
        }
    }
}

impl<'h> EndReading<'h> {
    /// Whether an actor of this id was built.
    pub fn was_built(&self, id: i32) -> bool
        ensures { result ≡ was_built (end_view self.now).built id }
    {
        was_built(self.built.as_slice(), id)
    }

    /// Whether an actor lives.
    pub fn lives(&self, id: i32) -> bool
        ensures { result ≡ lives (end_view self.now) id }
    {
        self.was_built(id) && !self.fallen.has(id)
    }
}

fn was_built(built: &[BuiltActor], id: i32) -> bool
    ensures { result ≡ was_built built.now id }
{
    built.iter().any(|actor| actor.id == id)
}

/// Returns the place of the first item that shows a packet.
fn place_of(packets: &[PacketKind], packet: PacketKind) -> Option<usize>
    ensures { result ≡ position (λ p. same_packet p packet) packets.now }
{
    packets.iter().position(|first| first.same(&packet))
}

/// Removes the first item that shows a packet, if there is one.
#[tactic(auto, unfolding(crate::specs::Reading::without_first))]
fn remove_first(packets: &mut Vec<PacketKind>, packet: PacketKind)
    ensures { packets.new.items ≡ read.without_first packet packets.old.items }
{
    if let Some(index) = place_of(packets.as_slice(), packet) {
        if index < packets.len() {
            packets.remove(index);
        }
    }
}

/// Returns the manager of the first actor of an id that was built.
fn found_manager(built: &[BuiltActor], id: i32) -> Option<i32>
    ensures { result ≡ option_map (λ a. a.manager) (find (λ a. int_eq a.id id) built.now) }
{
    let found = built.iter().find(|actor| actor.id == id);
    found.map(|actor| actor.manager)
}

/// Returns the place of the first actor of an id that was built.
fn found_place(built: &[BuiltActor], id: i32) -> Option<usize>
    ensures { result ≡ position (λ a. int_eq a.id id) built.now }
{
    built.iter().position(|actor| actor.id == id)
}

/// Returns the place of an actor among those that were built, or the place after all of them.
#[tactic(auto, unfolding(crate::specs::Reading::actor_place))]
pub fn actor_place(built: &[BuiltActor], id: i32) -> ActorPlace
    ensures { result ≡ read.actor_place built.now id }
{
    let place = found_place(built, id).unwrap_or(built.len());
    let manager = found_manager(built, id).unwrap_or(0);
    ActorPlace { place, manager }
}
