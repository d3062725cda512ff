//! The packets that wait at each end, after the lines so far.
ghost use Rattle.std.specs.Prelude.{◌≡◌, ◌∷◌, ◌++◌, [], OnOk, List, if◌then◌else◌, not, option_map};
ghost use Rattle.std.specs.List.{filter};
ghost use Rattle.ipdl_base.specs.declared.line.Line as declared;
ghost use Rattle.ipdl_base.specs.declared.line.What as said;
ghost use Rattle.ipdl_base.specs.declared.line.What.TheVariants as what;
ghost use Rattle.ipdl_base.specs.declared.schema.Schema.{Schema};
ghost use Rattle.ipdl_base.specs.Lines.{same_side};
ghost use Rattle.history_reading.specs.EndReading.{is_sync_request};
ghost use Rattle.history_reading.specs.EndReadings.{end_view};
ghost use Rattle.history_reading.specs.Numbers.{same_packet};
ghost use Rattle.history_reading.specs.Reading.{end_reading_of, read};
ghost use Rattle.law_statements.specs.Arrived.{passing};
ghost use Rattle.law_statements.specs.Packets.{sent};
ghost use Rattle.order_checks.specs.Waiting.{AreWaiting, packets_of, passing_view, waiting_after};

use history_reading::{EndReading, PacketKind};
use ipdl_base::{Line, Side, What};
use std::alloc::{AllocError, Global};

/// What a line does with the packets that wait at its end.
#[derive(Clone, Copy)]
pub enum Passing {
    Arrives(PacketKind),
    Leaves(PacketKind),
    GivesUp,
}

/// Whether the end's request of a number is sync.
fn is_sync_request(own: &EndReading<'_>, n: i32) -> bool
    ensures { result ≡ is_sync_request (end_view own.now) n }
{
    match own.sent.request(n) {
        Some(request) => request.sync,
        None => false,
    }
}

/// Returns the passing of a delivered reply: the reply to a sync request does not wait.
fn reply_passing(own: &EndReading<'_>, n: i32) -> Option<Passing>
    ensures { (schema : Schema) (told : List said.What) → (end_view own.now).sent ≡ sent schema told → option_map passing_view result ≡ passing schema told (what.DeliverReply n) }
{
    if is_sync_request(own, n) {
        None
    } else {
        Some(Passing::Arrives(PacketKind::Reply(n)))
    }
}

/// Returns the passing of a line.
fn passing_of(own: &EndReading<'_>, what: &What) -> Option<Passing>
    ensures { (schema : Schema) (told : List said.What) → (end_view own.now).sent ≡ sent schema told → option_map passing_view result ≡ passing schema told what.now }
{
    match what {
        What::DeliverRequest(n) => Some(Passing::Arrives(PacketKind::Request(*n))),
        What::DeliverReply(n) => reply_passing(own, *n),
        What::DeliverGoodbye => Some(Passing::Arrives(PacketKind::Goodbye)),
        What::DeliverBroken => Some(Passing::Arrives(PacketKind::Broken)),
        What::Take(n, _, _, _) | What::Drop(n, _, _, _) | What::Replaced(n) => {
            Some(Passing::Leaves(PacketKind::Request(*n)))
        }
        What::TakeReply(n) => Some(Passing::Leaves(PacketKind::Reply(*n))),
        What::Close | What::ShutNormal | What::ShutAbnormal | What::Die => Some(Passing::GivesUp),
        _ => None,
    }
}

/// Removes a packet.
fn remove(packets: &mut Vec<PacketKind>, packet: PacketKind)
    ensures { packets.new.items ≡ filter (λ p. not (same_packet p packet)) packets.old.items }
{
    packets.retain(|one| !one.same(&packet));
}

/// Returns the waiting packets after one more passing.
fn pass(packets: &mut Vec<PacketKind>, passing: Passing) -> Result<(), AllocError>
    ensures { OnOk result (packets.new.items ≡ waiting_after (passing_view passing) packets.old.items) }
{
    match passing {
        Passing::Arrives(packet) => packets.push(packet)?,
        Passing::Leaves(packet) => remove(packets, packet),
        Passing::GivesUp => packets.clear(),
    }
    Ok(())
}

/// The packets that wait at each end, the oldest first.
#[derive(Drop)]
pub struct WaitingPackets {
    parent: Vec<PacketKind>,
    child: Vec<PacketKind>,
}

impl WaitingPackets {
    /// Returns the packets after no lines. Takes no memory.
    pub fn new(alloc: Global) -> WaitingPackets
        ensures { (schema : Schema) → AreWaiting schema [] result }
    {
        WaitingPackets {
            parent: Vec::new(alloc),
            child: Vec::new(alloc),
        }
    }

    /// Returns the packets that wait at an end.
    pub fn of(&self, side: Side) -> &[PacketKind]
        ensures { result.now ≡ packets_of side self.now }
    {
        match side {
            Side::Parent => self.parent.as_slice(),
            Side::Child => self.child.as_slice(),
        }
    }

    /// Notes a passing at an end.
    fn pass(&mut self, side: Side, passing: Passing) -> Result<(), AllocError>
        ensures { OnOk result ((end : Side) → packets_of end self.new ≡ (if same_side side end then waiting_after (passing_view passing) (packets_of end self.old) else packets_of end self.old)) }
    {
        match side {
            Side::Parent => pass(&mut self.parent, passing),
            Side::Child => pass(&mut self.child, passing),
        }
    }

    /// Reads one more line, after what was read of its end.
    pub fn note(&mut self, own: &EndReading<'_>, line: &Line) -> Result<(), AllocError>
        ensures { OnOk result ((schema : Schema) (lines : List declared.Line) → end_view own.now ≡ end_reading_of line.now.side (read schema lines) → AreWaiting schema lines self.old → AreWaiting schema (lines ++ line.now ∷ []) self.new) }
    {
        match passing_of(own, &line.what) {
            Some(passing) => self.pass(line.side, passing),
            None => Ok(()),
        }
    }
}
