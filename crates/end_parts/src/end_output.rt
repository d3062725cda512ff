//! What an end has made and its owner has not fetched: lines, packets, and the outbox.
ghost use Rattle.std.specs.Prelude.{◌≡◌, ◌+◌, ◌-◌, ◌<◌, ◌≤◌, true, if◌then◌else◌, [], ◌∷◌, ◌++◌, length, map, None, IsOk, IsSome, MatchOption, IfOk, OnOk, OnErr};
ghost use Rattle.std.specs.VecDeque.{deque_capacity};
ghost use Rattle.ipdl_base.specs.Plain.{plain_message};
ghost use Rattle.end_parts.specs.OutputView.{with_line, with_packet, with_lazy, without_outbox};
ghost use Rattle.end_parts.specs.MovedLines.{HasMoved};
ghost use Rattle.end_parts.specs.PlainLines.{plain_line};

use crate::packet::Packet;
use history::History;
use ipdl_base::{Items, Line, Message};
use std::alloc::{AllocError, Global};
use std::collections::VecDeque;
use std::marker::Model;
use std::mem;

/// A lazy request in the outbox, with its frame.
#[derive(Drop)]
struct LazyRequest {
    message: Message,
    frame: Items<u8>,
}

/// The lines and packets that an end has made and its owner has not fetched, and the outbox of the
/// end. Contracts also see the room for more lines and packets, the number of lines that the end
/// owes whatever memory there is, and the packet of its goodbye. Only `new` and the reserves take
/// memory.
#[derive(Drop)]
pub struct EndOutput {
    lines: VecDeque<Line>,
    lines_owed: usize,
    packets: VecDeque<Packet>,
    outbox: VecDeque<LazyRequest>,
    /// The frame of the goodbye, until it is put.
    goodbye: Option<Items<u8>>,
}

impl Model for EndOutput {
    ghost use Rattle.std.specs.Prelude.{◌-◌, length, map, option_map};
    ghost use Rattle.std.specs.VecDeque.{deque_capacity};
    ghost use Rattle.end_parts.specs.OutputView.{OutputView};
    ghost use Rattle.end_parts.specs.PlainLines.{plain_line};
    ghost use Rattle.end_parts.specs.declared.packet.Packet.TheVariants.{Bytes};
    ghost use Rattle.ipdl_base.specs.Plain.{plain_message};
    ghost use Rattle.ipdl_base.specs.contracts.value.Values as values;
    ghost use Rattle.std.specs.Coded.{codes};

    ghost Value = { OutputView };

    ghost coded = { Prim.hlevel (codes, values.the_row.coded) };

    ghost view = { λ a. record {
      lines = map plain_line a.lines.items;
      line_spare = deque_capacity a.lines - length a.lines.items;
      lines_owed = a.lines_owed;
      packets = a.packets.items;
      packet_spare = deque_capacity a.packets - length a.packets.items;
      outbox = map (λ r. plain_message r.message) a.outbox.items;
      outbox_spare = deque_capacity a.outbox - length a.outbox.items;
      frames = map (λ r. Bytes r.frame) a.outbox.items;
      goodbye = option_map Bytes a.goodbye;
    } };
}

impl EndOutput {
    /// Returns an empty output, with room for the lines that an end with one actor owes, and for
    /// one packet.
    pub fn new(alloc: Global, goodbye: Items<u8>) -> Result<EndOutput, AllocError>
        ensures made { IfOk result (λ out. out ≡ record {
          lines = [];
          line_spare = out.line_spare;
          lines_owed = 3;
          packets = [];
          packet_spare = out.packet_spare;
          outbox = [];
          outbox_spare = out.outbox_spare;
          frames = [];
          goodbye = Some (Packet.Bytes goodbye);
        }) }
        ensures line_spare { IfOk result (λ out. 3 ≤ out.line_spare) }
        ensures packet_spare { IfOk result (λ out. 1 ≤ out.packet_spare) }
    {
        let mut lines = VecDeque::new(alloc);
        lines.reserve(3)?;
        let mut packets = VecDeque::new(alloc);
        packets.reserve(1)?;
        Ok(EndOutput {
            lines,
            lines_owed: 3,
            packets,
            outbox: VecDeque::new(alloc),
            goodbye: Some(goodbye),
        })
    }

    /// Returns the number of lines that there is room for.
    pub fn line_spare(&self) -> usize
        ensures { result ≡ self.now.line_spare }
    {
        self.lines.capacity() - self.lines.len()
    }

    /// Makes room for `lines` lines beside those that are owed, and for `packets` packets beside
    /// the outbox and one more.
    pub fn reserve(&mut self, lines: usize, packets: usize) -> Result<(), AllocError>
        ensures same { self.new ≡ record self.old { line_spare = self.new.line_spare; packet_spare = self.new.packet_spare } }
        ensures more_lines { self.old.line_spare ≤ self.new.line_spare }
        ensures more_packets { self.old.packet_spare ≤ self.new.packet_spare }
        ensures lines { OnOk result (self.old.lines_owed + lines ≤ self.new.line_spare) }
        ensures packets { OnOk result (length self.old.frames + 1 + packets ≤ self.new.packet_spare) }
    {
        let Some(lines) = self.lines_owed.checked_add(lines) else {
            return Err(AllocError);
        };
        let Some(waiting) = self.outbox.len().checked_add(1) else {
            return Err(AllocError);
        };
        let Some(packets) = waiting.checked_add(packets) else {
            return Err(AllocError);
        };
        self.lines.reserve(lines)?;
        self.packets.reserve(packets)
    }

    /// Returns the number of requests in the outbox.
    pub fn waiting(&self) -> usize
        ensures { result ≡ length self.now.outbox }
    {
        self.outbox.len()
    }

    /// Adds `n` to the lines that are owed.
    pub fn owe(&mut self, n: usize)
        requires { self.old.lines_owed + n ≤ self.old.line_spare }
        ensures { self.new ≡ record self.old { lines_owed = self.old.lines_owed + n } }
    {
        self.lines_owed += n;
    }

    /// Subtracts `n` from the lines that are owed.
    pub fn pay(&mut self, n: usize)
        ensures { self.new ≡ record self.old { lines_owed = self.old.lines_owed - n } }
    {
        self.lines_owed = self.lines_owed.saturating_sub(n);
    }

    /// Appends a line.
    pub fn push_line(&mut self, line: Line)
        requires { 0 < self.old.line_spare }
        ensures { self.new ≡ with_line self.old (plain_line line) }
    {
        self.lines.push_back_reserved(line);
    }

    /// Makes room for one more lazy request. Fails only if memory runs out.
    pub fn reserve_lazy(&mut self) -> Result<(), AllocError>
        ensures same { self.new ≡ record self.old { outbox_spare = self.new.outbox_spare } }
        ensures ok { OnOk result (0 < self.new.outbox_spare) }
    {
        self.outbox.reserve(1)
    }

    /// Appends a lazy request to the outbox.
    pub fn push_lazy(&mut self, message: Message, frame: Items<u8>)
        requires { 0 < self.old.outbox_spare }
        ensures { self.new ≡ with_lazy self.old (plain_message message) (Packet.Bytes frame) }
    {
        self.outbox
            .push_back_reserved(LazyRequest { message, frame });
    }

    /// Empties the outbox.
    pub fn drop_outbox(&mut self)
        ensures { self.new ≡ without_outbox self.old }
    {
        self.outbox.clear();
    }

    /// Moves the outbox to the packets.
    pub fn flush(&mut self)
        requires { length self.old.frames ≤ self.old.packet_spare }
        ensures { self.new ≡ record (without_outbox self.old) {
          packets = self.old.packets ++ self.old.frames;
          packet_spare = self.old.packet_spare - length self.old.frames;
        } }
    {
        move_frames(&mut self.outbox, &mut self.packets);
    }

    /// Appends a packet, after all that is in the outbox.
    pub fn put(&mut self, packet: Packet)
        requires { length self.old.frames + 1 ≤ self.old.packet_spare }
        ensures { self.new ≡ with_packet self.old packet }
    {
        self.flush();
        self.packets.push_back_reserved(packet);
    }

    /// Appends the mark of a death if the end is open, after all that is in the outbox.
    pub fn put_mark(&mut self, is_open: bool)
        requires { is_open ≡ true → length self.old.frames + 1 ≤ self.old.packet_spare }
        ensures { self.new ≡ (if is_open then with_packet self.old Packet.Broken else self.old) }
    {
        if is_open {
            self.put(Packet::Broken);
        }
    }

    /// Appends the goodbye, after all that is in the outbox.
    pub fn put_goodbye(&mut self)
        requires room { length self.old.frames + 1 ≤ self.old.packet_spare }
        requires there { IsSome self.old.goodbye }
        ensures { MatchOption self.old.goodbye (Unit {0}) (λ packet. self.new ≡ record (with_packet self.old packet) { goodbye = None }) }
    {
        let goodbye = mem::replace(&mut self.goodbye, None);
        match goodbye {
            None => unreachable!(),
            Some(frame) => self.put(Packet::Bytes(frame)),
        }
    }

    /// Moves the lines to a history. If memory runs out, no line is moved; that cannot happen if
    /// the history has room for them.
    pub fn drain(&mut self, into: &mut History) -> Result<(), AllocError>
        ensures ok { OnOk result ((self.new ≡ record self.old { lines = []; line_spare = self.new.line_spare })
            × (self.old.line_spare ≤ self.new.line_spare) × HasMoved self.old.lines into.old into.new) }
        ensures err { OnErr result ((self.new ≡ self.old) × (into.new.lines ≡ into.old.lines)) }
        ensures room { length self.old.lines ≤ into.old.spare → IsOk result }
    {
        into.reserve(self.lines.len())?;
        move_lines(&mut self.lines, into);
        Ok(())
    }

    /// Removes and returns the oldest packet, or `None`.
    pub fn take_packet(&mut self) -> Option<Packet>
        ensures { MatchOption result ((self.old.packets ≡ []) × (self.new ≡ self.old))
            (λ packet. (self.old.packets ≡ packet ∷ self.new.packets)
            × (self.new ≡ record self.old { packets = self.new.packets; packet_spare = self.old.packet_spare + 1 })) }
    {
        self.packets.pop_front()
    }
}

// Moves the frames of lazy requests to the end of the packets.
fn move_frames(outbox: &mut VecDeque<LazyRequest>, packets: &mut VecDeque<Packet>)
    requires { length packets.old.items + length outbox.old.items ≤ deque_capacity packets.old }
    ensures packets { packets.new.items ≡ packets.old.items ++ map (λ r. Packet.Bytes r.frame) outbox.old.items }
    ensures outbox { outbox.new.items ≡ [] }
    ensures capacity { deque_capacity packets.new ≡ deque_capacity packets.old }
    ensures outbox_capacity { deque_capacity outbox.new ≡ deque_capacity outbox.old }
{
    while let Some(request) = outbox.pop_front() {
        let LazyRequest {
            message: _message,
            frame,
        } = request;
        packets.push_back_reserved(Packet::Bytes(frame));
    }
}

// Moves lines to a history that has room for them.
fn move_lines(lines: &mut VecDeque<Line>, into: &mut History)
    requires { length lines.old.items ≤ into.old.spare }
    ensures lines { lines.new.items ≡ [] }
    ensures capacity { deque_capacity lines.new ≡ deque_capacity lines.old }
    ensures moved { into.new.lines ≡ into.old.lines ++ lines.old.items }
    ensures spare { into.old.spare ≤ into.new.spare + length lines.old.items }
{
    while let Some(line) = lines.pop_front() {
        if into.push(line).is_err() {
            unreachable!();
        }
    }
}
