//! What an end defers.
ghost use Rattle.std.specs.Prelude.{◌≡◌};
ghost use Rattle.pending_queue.specs.DeferralContext.{defers_item};

use crate::item::Item;
use ipdl_base::{Body, Level, Side, defers_request};

/// What an end awaits, which decides what it defers.
#[derive(Clone, Copy)]
pub struct DeferralContext {
    /// The end's own side.
    pub side: Side,
    /// The level of the message whose reply is awaited, or `None` if no reply is. Then nothing is
    /// deferred.
    pub level: Option<Level>,
    /// The inner transaction: that of the end's innermost frame of a sync message of level
    /// `InsideSync`, or 0 if there is no such frame.
    pub transaction: i32,
}

/// Whether the item is deferred.
pub(crate) fn defers(holding: &DeferralContext, item: &Item) -> bool
    ensures { result ≡ defers_item holding.now item.now }
{
    let Some(awaited) = holding.level else {
        return false;
    };
    match item {
        Item::Broken => false,
        Item::Message {
            message,
            sync,
            level,
        } => match &message.body {
            Body::Request(_) => defers_request(
                holding.side,
                awaited,
                Some(holding.transaction),
                *sync,
                *level,
                message.transaction,
            ),
            Body::Reply(_) | Body::Fault(_) => !*sync,
            Body::Goodbye => false,
        },
    }
}
