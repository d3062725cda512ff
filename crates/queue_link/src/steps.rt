//! One step of a side: what its half does, and what is pushed and popped for it.
ghost use Rattle.std.specs.Prelude.{◌≡◌, ◌++◌, ◌∷◌, [], true, ℕ, List, IfOk, MatchResult, OnOk};
ghost use Rattle.channel_model.specs.Outputs.{is_open};
ghost use Rattle.ipdl_base.specs.declared.kinds.Side.{Side as EndSide};
ghost use Rattle.ordered_queue.specs.Passes.{HasPopped, HasPushed, MayPop, MayPush, view_of};
ghost use Rattle.queue_link.specs.declared.packets.StampedPacket.{StampedPacket as OfStamped};
ghost use Rattle.queue_link.specs.Work.{DeliveryGives, HandsOver, HasNoStep, HasNoStepBefore, IsAtWork, OwnGives, PushGives, StepGives, TakeGives};
ghost use Rattle.script_steps.specs.Choices.{Setting};
ghost use Rattle.world_core.specs.declared.answers.StepAnswer.TheVariants as answer;

use crate::packets::{PacketPass, PacketQueue, StampedPacket};
use crate::stamp::Stamp;
use channel_core::Packet;
use std::alloc::AllocError;
use std::sync::Wait;
use world_core::{Half, StepAnswer, turn_answer};

// Stamps a packet. Proofs pick the number, above those of all that the pass has popped.
fn stamped(packet: Packet, _popping: &PacketPass) -> StampedPacket
    ghost n: { ℕ }
    ensures packet { result.packet ≡ packet }
    ensures stamp { result.stamp.at ≡ n }
{
    StampedPacket {
        packet,
        stamp: Stamp::new(),
    }
}

// Pushes the next packet that the half has not handed out, and returns whether there was one. Fails only
// if memory runs out.
fn push_next<R: Wait>(
    rt: &R,
    queue: &PacketQueue,
    pushing: &mut PacketPass,
    popping: &PacketPass,
    half: &mut Half<'_>,
) -> Result<bool, AllocError>
    ghost at: { Setting × EndSide }
    requires pushing { MayPush queue.now.queue pushing.old }
    requires hands { HandsOver at.0 at.1 (view_of pushing.old).pushed (view_of popping.now).popped half.old }
    ensures pushing { HasPushed queue.now.queue pushing.old pushing.new }
    ensures hands { IfOk result (λ more. PushGives at.0 at.1 (view_of pushing.new).pushed (view_of popping.now).popped more half.new) }
{
    let Some(packet) = half.put() else {
        return Ok(false);
    };
    queue.push(rt, pushing, stamped(packet, popping))?;
    Ok(true)
}

// Pushes all packets that the half has not handed out. Fails only if memory runs out.
fn hand_over<R: Wait>(
    rt: &R,
    queue: &PacketQueue,
    pushing: &mut PacketPass,
    popping: &PacketPass,
    half: &mut Half<'_>,
) -> Result<(), AllocError>
    ghost at: { Setting × EndSide }
    requires pushing { MayPush queue.now.queue pushing.old }
    requires hands { HandsOver at.0 at.1 (view_of pushing.old).pushed (view_of popping.now).popped half.old }
    ensures pushing { HasPushed queue.now.queue pushing.old pushing.new }
    ensures work { OnOk result (IsAtWork at.0 at.1 (view_of pushing.new).pushed (view_of popping.now).popped half.new) }
{
    for _ in rt.forever() {
        if !push_next(rt, queue, pushing, popping, half)? {
            return Ok(());
        }
    }
    unreachable!()
}

// Returns what a step answers that was made, by whether there was memory for what it sent.
fn done(handed_over: Result<(), AllocError>) -> StepAnswer
    ensures { MatchResult handed_over (λ _. result ≡ answer.Did) (λ _. result ≡ answer.NoMemory) }
{
    match handed_over {
        Ok(()) => StepAnswer::Did,
        Err(AllocError) => StepAnswer::NoMemory,
    }
}

// Makes an own step of the half.
fn go_on(half: &mut Half<'_>) -> StepAnswer
    ghost at: { Setting × EndSide }
    requires { (pushed : List OfStamped) × (popped : List OfStamped) × IsAtWork at.0 at.1 pushed popped half.old }
    ensures { (pushed popped : List OfStamped) → IsAtWork at.0 at.1 pushed popped half.old → OwnGives at.0 at.1 pushed popped result half.new }
{
    half.go_on()
}

// Delivers a popped packet to an open half that has no own step.
fn accept(half: &mut Half<'_>, value: &StampedPacket) -> StepAnswer
    ghost at: { Setting × EndSide }
    requires rests { (pushed : List OfStamped) × (popped : List OfStamped) × HasNoStep at.0 at.1 pushed popped half.old }
    requires opened { is_open half.old.end.end.state ≡ true }
    ensures { (pushed popped : List OfStamped) → HasNoStep at.0 at.1 pushed popped half.old
        → DeliveryGives at.0 at.1 pushed (popped ++ value.now ∷ []) result half.new }
{
    turn_answer(half.accept(&value.packet))
}

// Delivers a popped packet, and pushes what the half sends by that.
fn deliver<R: Wait>(
    rt: &R,
    queue: &PacketQueue,
    pushing: &mut PacketPass,
    popping: &PacketPass,
    half: &mut Half<'_>,
    value: &StampedPacket,
) -> StepAnswer
    ghost at: { Setting × EndSide }
    requires pushing { MayPush queue.now.queue pushing.old }
    requires rests { HasNoStepBefore at.0 at.1 (view_of pushing.old).pushed (view_of popping.now).popped value.now half.old }
    requires opened { is_open half.old.end.end.state ≡ true }
    ensures pushing { HasPushed queue.now.queue pushing.old pushing.new }
    ensures gives { TakeGives at.0 at.1 (view_of pushing.new).pushed (view_of popping.now).popped result half.new }
{
    match accept(half, value) {
        StepAnswer::Did => done(hand_over(rt, queue, pushing, popping, half)),
        answer => answer,
    }
}

// Delivers the next packet to a half that has no own step.
fn take<R: Wait>(
    rt: &R,
    out: &PacketQueue,
    incoming: &PacketQueue,
    pushing: &mut PacketPass,
    popping: &mut PacketPass,
    half: &mut Half<'_>,
) -> StepAnswer
    ghost at: { Setting × EndSide }
    requires pushing { MayPush out.now.queue pushing.old }
    requires popping { MayPop incoming.now.queue popping.old }
    requires rests { HasNoStep at.0 at.1 (view_of pushing.old).pushed (view_of popping.old).popped half.old }
    ensures pushing { HasPushed out.now.queue pushing.old pushing.new }
    ensures popping { HasPopped incoming.now.queue popping.old popping.new }
    ensures gives { StepGives at.0 at.1 (view_of pushing.old) (view_of popping.old) result (view_of pushing.new) (view_of popping.new) half.new }
{
    if !half.is_open() {
        return StepAnswer::Nothing;
    }
    match incoming.pop(rt, popping) {
        None => StepAnswer::Nothing,
        Some(value) => deliver(rt, out, pushing, popping, half, &value),
    }
}

/// Makes one step of a half: its own, or else, while its end is open, the delivery of the packet that comes
/// next. Pushes what the half sends by that. Returns `Nothing` if it has neither, and `Spent` if it has one
/// but has reached its limit of events.
pub fn step<R: Wait>(
    rt: &R,
    out: &PacketQueue,
    incoming: &PacketQueue,
    pushing: &mut PacketPass,
    popping: &mut PacketPass,
    half: &mut Half<'_>,
) -> StepAnswer
    ghost at: { Setting × EndSide }
    requires pushing { MayPush out.now.queue pushing.old }
    requires popping { MayPop incoming.now.queue popping.old }
    requires work { IsAtWork at.0 at.1 (view_of pushing.old).pushed (view_of popping.old).popped half.old }
    ensures pushing { HasPushed out.now.queue pushing.old pushing.new }
    ensures popping { HasPopped incoming.now.queue popping.old popping.new }
    ensures gives { StepGives at.0 at.1 (view_of pushing.old) (view_of popping.old) result (view_of pushing.new) (view_of popping.new) half.new }
{
    match go_on(half) {
        StepAnswer::Did => done(hand_over(rt, out, pushing, popping, half)),
        StepAnswer::Nothing => take(rt, out, incoming, pushing, popping, half),
        answer => answer,
    }
}
