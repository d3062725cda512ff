//! The order of levels, and which requests an end defers while it waits for a reply.
ghost use Rattle.std.specs.Prelude.{◌≡◌};
ghost use Rattle.ipdl_base.specs.Deferral.{defers_request, rank};

use crate::kinds::{Level, Side};

impl Level {
    /// Returns the place of the level in the order of levels, from 0.
    pub fn rank(self) -> u8
        ensures { result ≡ rank self }
    {
        match self {
            Level::Not => 0,
            Level::InsideSync => 1,
            Level::InsideCpow => 2,
        }
    }
}

/// Returns whether an end on this side that awaits a reply of level `awaited` defers a request. `inner` is the
/// transaction of the end's innermost frame of a sync message of level `InsideSync`. No request of level
/// `InsideCpow` is deferred, and every other async request is. A sync request is deferred if its level is below
/// `awaited`; at the same level only the parent defers it, and only outside the inner transaction.
pub fn defers_request(
    side: Side,
    awaited: Level,
    inner: Option<i32>,
    sync: bool,
    level: Level,
    transaction: i32,
) -> bool
    ensures { result ≡ defers_request side awaited inner sync level transaction }
{
    match (sync, level) {
        (_, Level::InsideCpow) => false,
        (false, _) => true,
        (true, level) if level != awaited => level.rank() < awaited.rank(),
        (true, _) => side == Side::Parent && inner != Some(transaction),
    }
}
