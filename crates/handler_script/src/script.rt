//! A script, its actions by their places, and why a text has no script.

use crate::action::{Action, Blocks, block_at, serves};
use crate::term::Terms;
use ipdl_base::{Findings, Side};
use std::alloc::AllocError;

/// A script that breaks no rule, for the schema that it was read with.
#[derive(Drop)]
pub struct Script {
    /// The number of the top protocol.
    pub top: u32,
    /// The blocks, in text order.
    pub blocks: Blocks,
}

impl Script {
    ghost use Rattle.std.specs.Prelude.{◌≡◌, ◌<◌, ◌^◌, length, Some};
    ghost use Rattle.std.specs.Option.{option_map};
    ghost use Rattle.handler_script.specs.ScriptOf.{action_at, reply_at, blocks_for};

    /// Returns the number of the top protocol that the script was read with.
    pub fn top(&self) -> u32
        ensures { result ≡ self.now.top }
    {
        self.top
    }

    /// Returns how many handlers a side has for the message with this number.
    pub fn blocks(&self, side: Side, number: u32) -> u32
        requires { length self.now.blocks < 2 ^ 32 }
        ensures { result ≡ length (blocks_for self.now side (Some number)) }
    {
        self.blocks
            .as_slice()
            .iter()
            .filter(|block| serves(block, side, Some(number)))
            .count() as u32
    }

    /// Returns the action of a side at a point, or `None` if the point is past the last action or the
    /// block does not exist.
    pub fn action(&self, side: Side, point: Point) -> Option<&Action>
        ensures { option_map (λ a. a.now) result ≡ action_at self.now side point }
    {
        let blocks = self.blocks.as_slice();
        let (block, index) = match point {
            Point::Main(index) => (block_at(blocks, side, None, 0)?, index),
            Point::Handler {
                number,
                block,
                index,
            } => (block_at(blocks, side, Some(number), block)?, index),
        };
        block.actions.as_slice().get(index as usize)
    }

    /// Returns the values that a block returns, if it has a `return`.
    pub fn reply(&self, side: Side, number: u32, block: u32) -> Option<&Terms>
        ensures { option_map (λ ts. ts.now) result ≡ reply_at self.now side number block }
    {
        block_at(self.blocks.as_slice(), side, Some(number), block)?
            .reply
            .as_ref()
    }
}

/// The place of an action in a script. Blocks and indices count from 0.
#[derive(Clone, Copy)]
pub enum Point {
    /// The action of this index in the main of a side.
    Main(u32),
    /// The action of this index in the handler `block` of the message with this number.
    Handler { number: u32, block: u32, index: u32 },
}

/// Why a text has no script.
#[derive(Debug, Drop)]
pub enum ScriptFault {
    /// The text breaks rules: the findings, in order. Their places are in file 0.
    Broken(Findings),
    /// Memory ran out.
    NoMemory,
}

impl From<AllocError> for ScriptFault {
    ghost use Rattle.std.specs.Prelude.{◌≡◌};
    ghost use Rattle.handler_script.specs.declared.script.ScriptFault.TheVariants.{NoMemory};

    ghost from_gives = { λ _ fault. fault ≡ NoMemory };

    fn from(_: AllocError) -> ScriptFault {
        ScriptFault::NoMemory
    }
}
