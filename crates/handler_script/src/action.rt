//! The actions and blocks of a script.

ghost use Rattle.std.specs.Prelude.{◌≡◌, filter, slice_get};
ghost use Rattle.std.specs.Option.{option_map};
ghost use Rattle.handler_script.specs.Served.{serves};

use crate::term::Terms;
use ipdl_base::{Items, Name, Side};
use script_reader::Who;

/// One step of a side in a block. Each `number` is that of a request.
#[derive(Drop)]
pub enum Action {
    /// Sends a message.
    Send {
        who: Who,
        number: u32,
        values: Terms,
    },
    /// Sends a constructor, and names the new actor.
    New {
        name: Name,
        who: Who,
        number: u32,
        values: Terms,
    },
    /// Names an actor.
    Let {
        name: Name,
        who: Who,
    },
    /// Answers the handled message.
    Resolve {
        values: Terms,
    },
    /// Rejects the handled message.
    Reject,
    /// Keeps the resolver of the handled message under a name.
    Keep {
        name: Name,
    },
    /// Answers with a resolver that was kept.
    ResolveNamed {
        name: Name,
        number: u32,
        values: Terms,
    },
    /// Rejects with a resolver that was kept.
    RejectNamed {
        name: Name,
        number: u32,
    },
    /// Closes the end.
    Close,
    /// Kills the end.
    Die,
}

/// A list of actions.
pub type Actions = Items<Action>;

/// What a side does on its own (its main), or when it handles a message.
#[derive(Drop)]
pub struct Block {
    /// The side that runs the block.
    pub side: Side,
    /// The number of the handled message, or `None` for a main.
    pub handles: Option<u32>,
    /// The actions, in text order.
    pub actions: Actions,
    /// The values that the block returns, if it has a `return`.
    pub reply: Option<Terms>,
}

/// A list of blocks.
pub type Blocks = Items<Block>;

/// Returns whether a block is a main of the side (`handled` is `None`), or a handler of the message of
/// this number.
pub fn serves(block: &Block, side: Side, handled: Option<u32>) -> bool
    ensures { result ≡ serves side handled block.now }
{
    block.side == side && block.handles == handled
}

/// Returns the block with this index, from 0, among the handlers of the message at the side, or among
/// the mains of the side.
pub fn block_at(blocks: &[Block], side: Side, handled: Option<u32>, at: u32) -> Option<&Block>
    ensures { option_map (λ b. b.now) result ≡ slice_get (filter (serves side handled) blocks.now) at }
{
    let mut left = at;
    for block in blocks {
        if serves(block, side, handled) {
            if left == 0 {
                return Some(block);
            }
            left -= 1;
        }
    }
    None
}
