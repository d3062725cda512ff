//! A table that finds the block for each request.

ghost use Rattle.std.specs.Prelude.{◌≡◌, ℕ, ◌∷◌, [], ◌++◌, ◌<◌, ◌^◌, List, Some, None, IfOk, OnOk, filter, length, nat_eq, if◌then◌else◌, option_and_then, slice_get};
ghost use Rattle.handler_script.specs.declared.action.Block.{Block as ScriptBlock};
ghost use Rattle.ipdl_base.specs.Lines.{same_side};
ghost use Rattle.handler_script.specs.Served.{serves};
ghost use Rattle.ipdl_base.specs.declared.kinds.Side.{Side as EndSide};
ghost use Rattle.script_parts.specs.Tables.{IsTableOf, block_after, listed_in, next_in, next_after};

use handler_script::{Block, Script};
use indexmap::IndexMap;
use ipdl_base::Side;
use std::alloc::{AllocError, Global};

/// The blocks of a side of a script, by the messages that they handle, and which of them serves the
/// next request of each message. The first request is served by the first block, and so on; the last
/// block serves all further requests. A block is given by its index in the script.
#[derive(Drop)]
pub struct BlockTable {
    main: Option<u32>,
    messages: IndexMap<u32, MessageBlocks>,
}

/// The blocks for a message, in text order, and which of them serves its next request.
#[derive(Drop)]
pub struct MessageBlocks {
    blocks: Vec<u32>,
    next: usize,
}

impl BlockTable {
    /// Returns the table of a side that has taken no request. Takes time in proportion to the number of
    /// blocks. Fails only if memory runs out.
    pub fn new(alloc: Global, script: &Script, side: Side) -> Result<BlockTable, AllocError>
        requires { length script.now.blocks < 2 ^ 32 }
        ensures { IfOk result (λ table. IsTableOf script.now.blocks side [] table) }
    {
        let mut table = BlockTable {
            main: None,
            messages: IndexMap::new(alloc),
        };
        for (index, block) in script.blocks.as_slice().iter().enumerate() {
            table.add(alloc, side, index as u32, block)?;
        }
        Ok(table)
    }

    // Adds the next block of the script.
    fn add(
        &mut self,
        alloc: Global,
        side: Side,
        index: u32,
        block: &Block,
    ) -> Result<(), AllocError>
        ensures { OnOk result ((blocks : List ScriptBlock) → length blocks ≡ index → IsTableOf blocks side [] self.old
            → IsTableOf (blocks ++ block.now ∷ []) side [] self.new) }
    {
        if !is_of(block, side) {
            return Ok(());
        }
        match block.handles {
            None => {
                if let None = self.main {
                    self.main = Some(index);
                }
            }
            Some(number) => list(alloc, number, index, &mut self.messages)?,
        }
        Ok(())
    }

    /// Returns the main of the side, if it has one. Takes no memory.
    pub fn main(&self) -> Option<u32>
        ensures { (blocks : List ScriptBlock) (side : EndSide) (taken : List ℕ) → IsTableOf blocks side taken self.now
            → option_and_then (slice_get blocks) result ≡ slice_get (filter (serves side None) blocks) 0 }
    {
        self.main
    }

    /// Takes a request of the message with this number. Returns the block that serves it, if the
    /// message has one. Takes a time that does not grow with the script, and no memory.
    pub fn take(&mut self, number: u32) -> Option<u32>
        ensures { (blocks : List ScriptBlock) (side : EndSide) (taken : List ℕ) → IsTableOf blocks side taken self.old
            → IsTableOf blocks side (number ∷ taken) self.new × (option_and_then (slice_get blocks) result ≡ block_after blocks side number taken) }
    {
        take_block(number, &mut self.messages)
    }
}

// Returns whether a block belongs to a side.
fn is_of(block: &Block, side: Side) -> bool
    ensures { result ≡ same_side block.now.side side }
{
    block.side == side
}

// Adds a block for a message.
fn list(
    alloc: Global,
    number: u32,
    index: u32,
    messages: &mut IndexMap<u32, MessageBlocks>,
) -> Result<(), AllocError>
    ensures listed { OnOk result ((n : ℕ) → listed_in messages.new n ≡ listed_in messages.old n ++ (if nat_eq n number then index ∷ [] else [])) }
    ensures next { OnOk result ((n : ℕ) → next_in messages.new n ≡ next_in messages.old n) }
{
    match messages.get_mut(&number) {
        Some(message) => message.blocks.push(index)?,
        None => {
            let mut blocks = Vec::with_capacity(alloc, 1)?;
            blocks.push(index)?;
            messages.insert(number, MessageBlocks { blocks, next: 0 })?;
        }
    }
    Ok(())
}

// Takes the block that serves the next request of a message. If another block follows, that one is
// next.
fn take_block(number: u32, messages: &mut IndexMap<u32, MessageBlocks>) -> Option<u32>
    ensures taken { result ≡ slice_get (listed_in messages.old number) (next_in messages.old number) }
    ensures listed { (n : ℕ) → listed_in messages.new n ≡ listed_in messages.old n }
    ensures next { (n : ℕ) → next_in messages.new n
        ≡ (if nat_eq n number then next_after (length (listed_in messages.old n)) (next_in messages.old n) else next_in messages.old n) }
{
    let message = messages.get_mut(&number)?;
    let block = message.blocks.get(message.next).copied()?;
    if message.next + 1 < message.blocks.len() {
        message.next += 1;
    }
    Some(block)
}
