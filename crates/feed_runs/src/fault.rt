//! The faults of the bytes of a feed.

/// Why the end of a feed did not read the bytes that were left (docs/feed.md). Each fault begins with a
/// place, counted over all bytes.
#[derive(Clone, Copy, Debug, PartialEq, Eq)]
pub enum FeedFault {
    /// From this place on there is less than one frame. The second number is how many bytes are missing
    /// to the end of its header or, where the header is complete, to the end of the frame.
    Short(usize, usize),
    /// At this place this rule on frames is the first that is broken (docs/frames.md).
    Bad(usize, u8),
    /// The frame at this place is a reply to the request of this number, which waits for no reply.
    Stray(usize, i32),
    /// The frame at this place names the actor of this id, which lives with another protocol.
    WrongActor(usize, i32),
}
