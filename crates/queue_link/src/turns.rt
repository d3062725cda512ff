//! Steps of both halves on one thread, in turn, over their queues.
ghost use Rattle.std.specs.Prelude.{◌≡◌, true};
ghost use Rattle.ipdl_base.specs.declared.kinds.Side.TheVariants as sides;
ghost use Rattle.ordered_queue.specs.Passes.{HasPopped, HasPushed, MayBoth, view_of};
ghost use Rattle.queue_link.specs.Work.{AreAtWork, BothEnd, IsAtWork, RoundGives, StepGives, is_over, of_round};
ghost use Rattle.script_steps.specs.Choices.{Setting};

use crate::packets::{PacketPass, PacketQueue};
use crate::steps::step;
use std::sync::Wait;
use world_core::{Half, RunAnswer, StepAnswer};

// Returns whether a step ends the run.
fn is_over(answer: StepAnswer) -> bool
    ensures { result ≡ is_over answer }
{
    match answer {
        StepAnswer::Did | StepAnswer::Nothing => false,
        StepAnswer::Spent(_) | StepAnswer::NoMemory => true,
    }
}

// Combines a step of the child with the step of the parent before it.
fn of_round(first: StepAnswer, second: StepAnswer) -> StepAnswer
    ensures { result ≡ of_round first second }
{
    match (first, second) {
        (StepAnswer::Did, StepAnswer::Nothing) => StepAnswer::Did,
        (_, answer) => answer,
    }
}

// Makes a step of the parent.
fn parent_step<R: Wait>(
    rt: &R,
    down: &PacketQueue,
    up: &PacketQueue,
    to_child: &mut PacketPass,
    to_parent: &mut PacketPass,
    parent: &mut Half<'_>,
) -> StepAnswer
    ghost at: { Setting }
    requires to_child { MayBoth down.now.queue to_child.old }
    requires to_parent { MayBoth up.now.queue to_parent.old }
    requires work { IsAtWork at sides.Parent (view_of to_child.old).pushed (view_of to_parent.old).popped parent.old }
    ensures to_child { HasPushed down.now.queue to_child.old to_child.new }
    ensures to_parent { HasPopped up.now.queue to_parent.old to_parent.new }
    ensures gives { StepGives at sides.Parent (view_of to_child.old) (view_of to_parent.old) result (view_of to_child.new) (view_of to_parent.new) parent.new }
{
    step(rt, down, up, to_child, to_parent, parent)
}

// Makes a step of the child.
fn child_step<R: Wait>(
    rt: &R,
    down: &PacketQueue,
    up: &PacketQueue,
    to_child: &mut PacketPass,
    to_parent: &mut PacketPass,
    child: &mut Half<'_>,
) -> StepAnswer
    ghost at: { Setting }
    requires to_child { MayBoth down.now.queue to_child.old }
    requires to_parent { MayBoth up.now.queue to_parent.old }
    requires work { IsAtWork at sides.Child (view_of to_parent.old).pushed (view_of to_child.old).popped child.old }
    ensures to_child { HasPopped down.now.queue to_child.old to_child.new }
    ensures to_parent { HasPushed up.now.queue to_parent.old to_parent.new }
    ensures gives { StepGives at sides.Child (view_of to_parent.old) (view_of to_child.old) result (view_of to_parent.new) (view_of to_child.new) child.new }
{
    step(rt, up, down, to_parent, to_child, child)
}

// Makes a step of each side, the parent first. Returns `Nothing` if neither has anything to do.
fn round<R: Wait>(
    rt: &R,
    down: &PacketQueue,
    up: &PacketQueue,
    to_child: &mut PacketPass,
    to_parent: &mut PacketPass,
    parent: &mut Half<'_>,
    child: &mut Half<'_>,
) -> StepAnswer
    ghost at: { Setting }
    requires to_child { MayBoth down.now.queue to_child.old }
    requires to_parent { MayBoth up.now.queue to_parent.old }
    requires work { AreAtWork at (view_of to_child.old) (view_of to_parent.old) parent.old child.old }
    ensures to_child { MayBoth down.now.queue to_child.new }
    ensures to_parent { MayBoth up.now.queue to_parent.new }
    ensures gives { RoundGives at (view_of to_child.new) (view_of to_parent.new) result parent.new child.new }
{
    let first = parent_step(rt, down, up, to_child, to_parent, parent);
    if is_over(first) {
        return first;
    }
    let second = child_step(rt, down, up, to_child, to_parent, child);
    of_round(first, second)
}

/// Makes steps of both sides in turn, until neither has anything to do.
pub fn take_turns<R: Wait>(
    rt: &R,
    down: &PacketQueue,
    up: &PacketQueue,
    to_child: &mut PacketPass,
    to_parent: &mut PacketPass,
    parent: &mut Half<'_>,
    child: &mut Half<'_>,
) -> RunAnswer
    ghost at: { Setting }
    requires to_child { MayBoth down.now.queue to_child.old }
    requires to_parent { MayBoth up.now.queue to_parent.old }
    requires work { AreAtWork at (view_of to_child.old) (view_of to_parent.old) parent.old child.old }
    ensures to_child { MayBoth down.now.queue to_child.new }
    ensures to_parent { MayBoth up.now.queue to_parent.new }
    ensures ends { BothEnd at (view_of to_child.new) (view_of to_parent.new) result parent.new child.new }
{
    for _ in rt.forever() {
        match round(rt, down, up, to_child, to_parent, parent, child) {
            StepAnswer::Did => {}
            StepAnswer::Nothing => return RunAnswer::Finished,
            StepAnswer::Spent(side) => return RunAnswer::Spent(side),
            StepAnswer::NoMemory => return RunAnswer::NoMemory,
        }
    }
    unreachable!()
}
