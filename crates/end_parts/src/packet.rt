//! Packets as bytes.
use ipdl_base::Items;

/// What an end hands out for the other one.
#[derive(Drop)]
pub enum Packet {
    /// The frame of a message.
    Bytes(Items<u8>),
    /// The mark that this end has died.
    Broken,
}
