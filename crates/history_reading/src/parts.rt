//! The parts of a reading: packets, actors, requests, calls, frames and events.
use ipdl_base::Destroy;

/// What the line of a delivery shows of a packet: its kind, with the number of its request.
#[derive(Clone, Copy)]
pub enum PacketKind {
    Request(i32),
    Reply(i32),
    Goodbye,
    Broken,
}

/// An actor that was built at an end, with its manager.
#[derive(Clone, Copy)]
pub struct BuiltActor {
    pub id: i32,
    pub manager: i32,
}

/// The place of an actor among those that were built, and its manager.
#[derive(Clone, Copy)]
pub struct ActorPlace {
    pub place: usize,
    pub manager: i32,
}

/// A request that is handled: its number, its actor and its message.
#[derive(Clone, Copy)]
pub struct HandledRequest {
    pub seq: i32,
    pub route: i32,
    pub number: u32,
}

/// A call: its number, its transaction, its message, and the place of its line in the history.
#[derive(Clone, Copy)]
pub struct Call {
    pub seq: i32,
    pub transaction: i32,
    pub number: u32,
    pub place: usize,
}

/// A frame of the stack of an end.
#[derive(Clone, Copy)]
pub enum CallFrame {
    Dispatch(HandledRequest),
    Unanswered(Call),
    Answered(Call),
}

/// What the laws depend on of an event of an end.
#[derive(Clone, Copy)]
pub enum EventKind {
    /// A request of this number is sent to this actor.
    Sends(i32, i32),
    /// The other end's request of this number is handled at this actor.
    Takes(i32, i32),
    /// The end of the other side is delivered.
    Ends,
    /// The end closes.
    Closes,
    Other,
}

/// Why actors fall in an event: no actor does, that of a destructor does with its subtree, or all
/// do.
#[derive(Clone, Copy)]
pub enum Cause {
    Nobody,
    Delete(i32),
    Closing(Destroy),
}
