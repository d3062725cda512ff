//! One end of a channel, its model, and the calls that only look at it.
ghost use Rattle.std.specs.Prelude.{◌≡◌, ◌<◌, length, option_map, IfOk};
ghost use Rattle.actor_tree.specs.Tree.{actor_of};
ghost use Rattle.ipdl_base.specs.Sound.{IsSound};
ghost use Rattle.nesting_core.specs.Top.{top_of};
ghost use Rattle.channel_model.specs.Outputs.{is_open};
ghost use Rattle.channel_model.specs.Sends.{frames_of};

mod answering;
mod closing;
mod delivering;
mod looks;
mod sending;
mod taking;

use crate::answers::Top;
use actor_tree::Tree;
use end_parts::{EndOutput, NameEntries, PromiseEntries, StackEntries, goodbye_frame};
use ipdl_base::{EndState, Schema, Side};
use nesting_core::StackTop;
use pending_queue::Pending;
use std::alloc::{AllocError, Global};
use std::marker::Model;

/// One end of a channel (docs/channel.md). Contracts see what it keeps, its schema, the lines that
/// were not drained and the packets that were not handed out.
#[derive(Drop)]
pub struct End<'s> {
    alloc: Global,
    schema: &'s Schema,
    side: Side,
    state: EndState,
    tree: Tree,
    /// What has arrived and was not taken.
    pending: Pending,
    stack: StackEntries,
    promises: PromiseEntries,
    names: NameEntries,
    out: EndOutput,
    /// The number of requests that the end has sent, and of constructors among them.
    sent: u32,
    constructors_sent: u32,
    /// The number of requests that were delivered to the end, and of constructors among them.
    delivered: u32,
    constructors_delivered: u32,
}

impl<'s> Model for End<'s> {
    ghost use Rattle.std.specs.Prelude.{map};
    ghost use Rattle.std.specs.Coded.{codes};
    ghost use Rattle.ipdl_base.specs.contracts.value.Values as values;
    ghost use Rattle.ipdl_base.specs.contracts.schema.Shape as shape;
    ghost use Rattle.pending_queue.specs.Plain.{plain_item};
    ghost use Rattle.channel_core.specs.Inside.{IsInside};
    ghost use Rattle.channel_core.specs.EndView.{EndView};

    ghost Value = { EndView };

    ghost coded = { Prim.hlevel (codes, values.the_row.coded, shape.the_row.coded) };

    ghost view = { λ a. record {
      end = record {
        side = a.side;
        state = a.state;
        actors = a.tree;
        arrived = map plain_item a.pending.items;
        stack = a.stack;
        promises = a.promises;
        names = a.names.names;
        outbox = a.out.outbox;
        sent = a.sent;
        constructors_sent = a.constructors_sent;
        delivered = a.delivered;
        constructors_delivered = a.constructors_delivered;
      };
      schema = a.schema.now;
      lines = a.out.lines;
      packets = a.out.packets;
    } };

    ghost invariant = { λ a. IsInside a.schema.now (record {
      side = a.side;
      state = a.state;
      actors = a.tree;
      arrived = map plain_item a.pending.items;
      stack = a.stack;
      promises = a.promises;
      names = a.names.names;
      outbox = a.out.outbox;
      sent = a.sent;
      constructors_sent = a.constructors_sent;
      delivered = a.delivered;
      constructors_delivered = a.constructors_delivered;
    }) a.out };
}

impl<'s> End<'s> {
    ghost use Rattle.channel_core.specs.Answers.{told_top};
    ghost use Rattle.channel_core.specs.EndView.{opened};

    /// Returns the open end of a side, with the top actor of a protocol. The top actor lives at
    /// both ends. Fails only if memory runs out.
    pub fn open(
        alloc: Global,
        side: Side,
        schema: &'s Schema,
        top: u32,
    ) -> Result<End<'s>, AllocError>
        requires sound { IsSound schema.now }
        requires top { top < length schema.now.protocols }
        ensures { IfOk result (λ e. e ≡ opened side schema.entry.now top) }
    {
        let frame = goodbye_frame(alloc, schema)?;
        let out = EndOutput::new(alloc, frame)?;
        Ok(End {
            alloc,
            schema,
            side,
            state: EndState::Open,
            tree: Tree::new(alloc, top)?,
            pending: Pending::new(alloc)?,
            stack: StackEntries::new(alloc)?,
            promises: PromiseEntries::new(alloc)?,
            names: NameEntries::new(alloc),
            out,
            sent: 0,
            constructors_sent: 0,
            delivered: 0,
            constructors_delivered: 0,
        })
    }

    /// Returns the state of the end. Takes no memory.
    pub fn state(&self) -> EndState
        ensures { result ≡ self.now.end.state }
    {
        self.state
    }

    /// Returns the frame on top of the stack. Takes no memory.
    pub fn top(&self) -> Top
        ensures { result ≡ told_top (top_of (frames_of self.now.end)) }
    {
        match self.stack.top() {
            StackTop::Empty => Top::Empty,
            StackTop::Dispatch(_) => Top::Dispatch,
            StackTop::Unanswered(_) => Top::Unanswered,
            StackTop::Answered(_) => Top::Answered,
        }
    }

    /// Returns the protocol of the living actor of an id, or `None` if none lives. Takes no memory.
    pub fn lives(&self, id: i32) -> Option<u32>
        ensures { result ≡ option_map (λ a. a.protocol) (actor_of id self.now.end.actors) }
    {
        let actor = self.tree.lookup(id)?;
        Some(actor.protocol)
    }
}

// Whether an end of this state is open.
fn is_open(state: EndState) -> bool
    ensures { result ≡ is_open state }
{
    match state {
        EndState::Open => true,
        EndState::Draining | EndState::Closed | EndState::Dead => false,
    }
}
