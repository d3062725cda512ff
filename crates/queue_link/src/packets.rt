//! The queues of packets between both ends, and the passes that push to them and pop from them.
use crate::stamp::Stamp;
use channel_core::Packet;
use ordered_queue::{OrderedQueue, QueuePass};

/// A packet in a queue, with a stamp that says what it may come after.
#[derive(Drop)]
pub struct StampedPacket {
    pub packet: Packet,
    pub stamp: Stamp,
}

const _: () = prove!(size_of::<StampedPacket>() == size_of::<Packet>());

/// The queue from one end to the other.
pub type PacketQueue = OrderedQueue<StampedPacket>;

/// The right to push to such a queue, or to pop from it, or both.
pub type PacketPass = QueuePass<StampedPacket>;

/// Both queues of a run.
#[derive(Drop)]
pub struct Queues {
    pub(crate) down: PacketQueue,
    pub(crate) up: PacketQueue,
}

/// The passes of one side, which pushes to the queue to the other side and pops from the queue to itself.
#[derive(Drop)]
pub struct SidePasses {
    pub(crate) pushing: PacketPass,
    pub(crate) popping: PacketPass,
}
