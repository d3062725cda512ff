//! What a half does on its link in a turn.
ghost use Rattle.std.specs.Prelude.{◌≡◌, ◌&&◌, is_some};
ghost use Rattle.ipdl_base.specs.declared.kinds.Side.{Side as EndSide};
ghost use Rattle.value_codec.specs.Laws.{AreBytes};
ghost use Rattle.channel_model.specs.Outputs.{is_open};
ghost use Rattle.handler_script.specs.ScriptOf.{first_of};
ghost use Rattle.world_core.specs.LinkView.{HoldsBytes, packets_to};
ghost use Rattle.world_core.specs.Options.{AreOptionsAt};
ghost use Rattle.world_core.specs.SideTurns.{DeliveryPlays, FirstGives, MayHave, OwnPlays, StandsIn, TurnPlays};
ghost use Rattle.world_core.specs.WorldView.{WorldView};

use crate::answers::StepAnswer;
use crate::half::Half;
use crate::link::Link;
use channel_core::Packet;
use ipdl_base::Side;
use schedules::Turn;

/// What a side may do at a state of a run.
#[derive(Clone, Copy, Debug, PartialEq, Eq)]
pub struct SideOptions {
    /// Whether the side has a step of its own.
    pub acts: bool,
    /// Whether the side may have a packet delivered.
    pub receives: bool,
    /// Whether the side has reached its limit of events.
    pub spent: bool,
}

/// Returns what a side may do.
pub(crate) fn options_of(half: &Half<'_>, link: &Link, side: Side) -> SideOptions
    ghost at: { WorldView × EndSide }
    requires stands { StandsIn at.0 at.1 half.now link.now }
    requires side { side ≡ at.1 }
    ensures { AreOptionsAt at.0 at.1 result }
{
    let step = half.next_step();
    SideOptions {
        acts: step.is_some(),
        receives: may_deliver(half, link, side),
        spent: half.is_spent(),
    }
}

/// Makes a turn of a side.
pub(crate) fn turn_of(half: &mut Half<'_>, link: &mut Link, turn: Turn) -> StepAnswer
    ghost at: { WorldView × EndSide }
    requires stands { StandsIn at.0 at.1 half.old link.old }
    requires side { turn.side ≡ at.1 }
    ensures { TurnPlays at.0 turn half.old link.old result half.new link.new }
{
    if turn.only_deliver {
        return delivery_turn(half, link, turn.side);
    }
    match own_turn(half, link) {
        StepAnswer::Nothing => delivery_turn(half, link, turn.side),
        answer => answer,
    }
}

// Makes an own step of a side.
fn own_turn(half: &mut Half<'_>, link: &mut Link) -> StepAnswer
    ghost at: { WorldView × EndSide }
    requires { StandsIn at.0 at.1 half.old link.old }
    ensures { OwnPlays at.0 at.1 half.old link.old result half.new link.new }
{
    match half.own_step() {
        StepAnswer::Did => {
            half.append(link);
            StepAnswer::Did
        }
        answer => answer,
    }
}

/// Makes a delivery to a side.
pub(crate) fn delivery_turn(half: &mut Half<'_>, link: &mut Link, side: Side) -> StepAnswer
    ghost at: { WorldView × EndSide }
    requires stands { StandsIn at.0 at.1 half.old link.old }
    requires side { side ≡ at.1 }
    ensures { DeliveryPlays at.0 at.1 half.old link.old result half.new link.new }
{
    if !may_deliver(half, link, side) {
        StepAnswer::Nothing
    } else if half.is_spent() {
        StepAnswer::Spent(side)
    } else {
        deliver_first(half, link, side)
    }
}

// Returns whether an end is open and a packet waits for it.
fn may_deliver(half: &Half<'_>, link: &Link, side: Side) -> bool
    ensures { result ≡ (is_open half.now.end.end.state && is_some (first_of (packets_to side link.now))) }
{
    half.is_open() && link.first(side).is_some()
}

// Delivers the packet that comes first.
fn deliver_first(half: &mut Half<'_>, link: &mut Link, side: Side) -> StepAnswer
    ghost at: { WorldView × EndSide }
    requires stands { StandsIn at.0 at.1 half.old link.old }
    requires side { side ≡ at.1 }
    requires may { MayHave at.0 at.1 }
    ensures { DeliveryPlays at.0 at.1 half.old link.old result half.new link.new }
{
    match hand_over(half, link, side) {
        StepAnswer::Did => {
            link.drop_first(side);
            half.append(link);
            StepAnswer::Did
        }
        answer => answer,
    }
}

// Hands the packet that comes first to the half. It stays on the link.
fn hand_over(half: &mut Half<'_>, link: &Link, side: Side) -> StepAnswer
    ghost at: { WorldView × EndSide }
    requires stands { StandsIn at.0 at.1 half.old link.now }
    requires side { side ≡ at.1 }
    requires may { MayHave at.0 at.1 }
    ensures { FirstGives at.0 at.1 half.old result half.new }
{
    match link.first(side) {
        None => unreachable!(),
        Some(packet) => {
            holds_bytes(packet);
            half.deliver(packet)
        }
    }
}

/// Shows that each element of a frame is a byte.
pub(crate) fn holds_bytes(packet: &Packet)
    ensures { HoldsBytes packet.now }
{
    match packet {
        Packet::Bytes(frame) => are_bytes(frame.as_slice()),
        Packet::Broken => {}
    }
}

/// Shows that each element of a slice is a byte.
pub(crate) fn are_bytes(bytes: &[u8])
    ensures { AreBytes bytes.now }
{
    let _length = bytes.len();
}
