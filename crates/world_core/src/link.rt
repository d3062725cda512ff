//! The link of a run: its history, and the packets in transit.
ghost use Rattle.std.specs.Prelude.{◌≡◌, ◌+◌, ◌≤◌, [], ◌++◌, length, map, drop, option_map, IfOk};
ghost use Rattle.std.specs.VecDeque.{deque_capacity};
ghost use Rattle.handler_script.specs.ScriptOf.{first_of};
ghost use Rattle.end_parts.specs.PlainLines.{plain_line};
ghost use Rattle.world_core.specs.LinkView.{LinkHasRoom, IsAppended, packets_to, with_packets_to};

use channel_core::{End, Packet};
use history::History;
use ipdl_base::Side;
use std::alloc::{AllocError, Global};
use std::collections::VecDeque;
use std::marker::Model;

/// The history of both sides, and the packets that wait for each side.
#[derive(Drop)]
pub struct Link {
    history: History,
    to_parent: VecDeque<Packet>,
    to_child: VecDeque<Packet>,
}

impl Model for Link {
    ghost use Rattle.std.specs.Prelude.{map};
    ghost use Rattle.std.specs.VecDeque.{deque_capacity};
    ghost use Rattle.std.specs.Coded.{codes};
    ghost use Rattle.ipdl_base.specs.contracts.value.Values as values;
    ghost use Rattle.end_parts.specs.PlainLines.{plain_line};
    ghost use Rattle.world_core.specs.LinkView.{LinkView};

    ghost Value = { LinkView };

    ghost coded = { Prim.hlevel (codes, values.the_row.coded) };

    ghost view = { λ a. record {
      lines = map plain_line a.history.lines;
      spare = a.history.spare;
      to_parent = a.to_parent.items;
      parent_room = deque_capacity a.to_parent;
      to_child = a.to_child.items;
      child_room = deque_capacity a.to_child;
    } };
}

impl Link {
    /// Creates an empty link with room for this number of lines, and this number of packets toward each
    /// side. Fails only if memory runs out.
    pub(crate) fn open(alloc: Global, lines: usize, packets: usize) -> Result<Link, AllocError>
        ensures empty { IfOk result (λ link. link ≡ record {
          lines = [];
          spare = link.spare;
          to_parent = [];
          parent_room = link.parent_room;
          to_child = [];
          child_room = link.child_room;
        }) }
        ensures lines { IfOk result (λ link. lines ≤ link.spare) }
        ensures parent { IfOk result (λ link. packets ≤ link.parent_room) }
        ensures child { IfOk result (λ link. packets ≤ link.child_room) }
    {
        let mut history = History::new(alloc);
        history.reserve(lines)?;
        let mut to_parent = VecDeque::new(alloc);
        to_parent.reserve(packets)?;
        let mut to_child = VecDeque::new(alloc);
        to_child.reserve(packets)?;
        Ok(Link {
            history,
            to_parent,
            to_child,
        })
    }

    /// Returns the history. Takes no memory.
    pub fn history(&self) -> &History
        ensures { map plain_line result.now.lines ≡ self.now.lines }
    {
        &self.history
    }

    /// Returns the number of lines of the history. Takes no memory.
    pub fn lines(&self) -> usize
        ensures { result ≡ length self.now.lines }
    {
        self.history.lines().len()
    }

    /// Returns the number of packets that wait for a side. Takes no memory.
    pub fn left(&self, toward: Side) -> usize
        ensures { result ≡ length (packets_to toward self.now) }
    {
        match toward {
            Side::Parent => self.to_parent.len(),
            Side::Child => self.to_child.len(),
        }
    }

    /// Returns the packet that is delivered next to a side. Takes no memory.
    pub(crate) fn first(&self, toward: Side) -> Option<&Packet>
        ensures { option_map (λ packet. packet.now) result ≡ first_of (packets_to toward self.now) }
    {
        match toward {
            Side::Parent => self.to_parent.front(),
            Side::Child => self.to_child.front(),
        }
    }

    /// Removes the first packet that waits for a side.
    pub(crate) fn drop_first(&mut self, toward: Side)
        ensures { self.new ≡ with_packets_to toward (drop 1 (packets_to toward self.old)) self.old }
    {
        match toward {
            Side::Parent => drop_front(&mut self.to_parent),
            Side::Child => drop_front(&mut self.to_child),
        }
    }

    /// Takes over the lines of an end, and its packets toward a side. Takes no memory, since there is room
    /// for them.
    pub(crate) fn append(&mut self, end: &mut End<'_>, toward: Side)
        requires { LinkHasRoom self.old (length end.old.lines) toward (length end.old.packets) }
        ensures end { end.new ≡ record end.old { lines = []; packets = [] } }
        ensures link { IsAppended self.old end.old.lines toward end.old.packets self.new }
    {
        let drained = end.drain(&mut self.history);
        match drained {
            Err(_) => unreachable!(),
            Ok(()) => match toward {
                Side::Parent => move_packets(end, &mut self.to_parent),
                Side::Child => move_packets(end, &mut self.to_child),
            },
        }
    }
}

// Removes the first packet.
fn drop_front(packets: &mut VecDeque<Packet>)
    ensures items { packets.new.items ≡ drop 1 packets.old.items }
    ensures capacity { deque_capacity packets.new ≡ deque_capacity packets.old }
{
    let _ = packets.pop_front();
}

// Appends the packets of an end to a queue that has room for them.
fn move_packets(end: &mut End<'_>, into: &mut VecDeque<Packet>)
    requires { length into.old.items + length end.old.packets ≤ deque_capacity into.old }
    ensures end { end.new ≡ record end.old { packets = [] } }
    ensures into { into.new.items ≡ into.old.items ++ end.old.packets }
    ensures capacity { deque_capacity into.new ≡ deque_capacity into.old }
{
    while let Some(packet) = end.outgoing() {
        into.push_back_reserved(packet);
    }
}
