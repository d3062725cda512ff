//! Packets as lines show them.
use ipdl_base::{Reason, Values};

/// A request of an end, by its line: its number, its transaction (0 if its line has none), whether
/// its message is sync and whether it is async with returns, the actor that it goes to, its
/// message, the rank of the actor that it makes among those of its sender (0 if it makes none), and
/// its values.
#[derive(Clone, Copy)]
pub struct Request<'h> {
    pub seq: i32,
    pub transaction: i32,
    pub sync: bool,
    pub wants: bool,
    pub route: i32,
    pub number: u32,
    pub made: usize,
    pub values: &'h Values,
}

/// What a reply states: what a handler did with a resolver, or what a return or the channel
/// answered.
#[derive(Clone, Copy)]
pub enum ReplyContent<'h> {
    Resolved(&'h Values),
    Rejected,
    Ok(&'h Values),
    Fault(Reason),
}

/// A packet that an end has sent, by its line; a reply has the number of its request.
#[derive(Clone, Copy)]
pub enum SentPacket<'h> {
    Request(Request<'h>),
    Reply(i32, ReplyContent<'h>),
    Goodbye,
    Broken,
}
