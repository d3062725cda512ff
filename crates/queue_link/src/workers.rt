//! Runs each half on a worker of its own, and then both in turn to the end.
ghost use Rattle.std.specs.Prelude.{◌≡◌, [], true};
ghost use Rattle.crossbeam_queue.specs.SegTies.{IsSegPassOf};
ghost use Rattle.ipdl_base.specs.declared.kinds.Side.{Side as EndSide};
ghost use Rattle.ipdl_base.specs.declared.kinds.Side.TheVariants as sides;
ghost use Rattle.ordered_queue.specs.InOrder.{first_view};
ghost use Rattle.ordered_queue.specs.Passes.{HasPopped, HasPushed, IsParted, IsWhole, MayBoth, MayPop, MayPush, view_of};
ghost use Rattle.queue_link.specs.Work.{BothEnd, BothWorked, EndsRelay, HasWorked, IsAtWork, IsOrdered, MayWork, WorkEnds, of_both};
ghost use Rattle.relay_runs.specs.HalfRuns.{opening_half};
ghost use Rattle.script_steps.specs.Choices.{Setting};
ghost use Rattle.world_core.specs.HalfView.{setting_of};
ghost use Rattle.world_core.specs.Relaying.{GoesApart};

use crate::packets::{PacketPass, PacketQueue, Queues, SidePasses};
use crate::steps::step;
use crate::turns::take_turns;
use ipdl_base::Side;
use schedules::Gate;
use std::alloc::Global;
use std::sync::Wait;
use std::thread::{Threads, join_mut};
use world_core::{Half, RunAnswer, StepAnswer};

// Makes steps of one side, until it has nothing to do. Passes the gate before each own step.
fn work_on<R: Wait>(
    rt: &R,
    gate: &Gate,
    side: Side,
    out: &PacketQueue,
    incoming: &PacketQueue,
    pushing: &mut PacketPass,
    popping: &mut PacketPass,
    half: &mut Half<'_>,
) -> RunAnswer
    ghost at: { Setting × EndSide }
    requires pushing { MayPush out.now.queue pushing.old }
    requires popping { MayPop incoming.now.queue popping.old }
    requires work { IsAtWork at.0 at.1 (view_of pushing.old).pushed (view_of popping.old).popped half.old }
    ensures pushing { HasPushed out.now.queue pushing.old pushing.new }
    ensures popping { HasPopped incoming.now.queue popping.old popping.new }
    ensures ends { WorkEnds at.0 at.1 (view_of pushing.new).pushed (view_of popping.new).popped result half.new }
{
    let mut steps = 0u32;
    for _ in rt.forever() {
        if !half.rests() {
            steps = steps.wrapping_add(1);
            gate.pass(side, steps);
        }
        match step(rt, out, incoming, pushing, popping, half) {
            StepAnswer::Did => {}
            StepAnswer::Nothing => return RunAnswer::Finished,
            StepAnswer::Spent(at) => return RunAnswer::Spent(at),
            StepAnswer::NoMemory => return RunAnswer::NoMemory,
        }
    }
    unreachable!()
}

// Does the work of the parent, of the run of its half.
fn work_of_parent<R: Wait>(
    rt: &R,
    gate: &Gate,
    queues: &Queues,
    passes: &mut SidePasses,
    half: &mut Half<'_>,
) -> RunAnswer
    requires { MayWork queues.now sides.Parent passes.old half.old }
    ensures { HasWorked queues.now sides.Parent passes.old passes.new (setting_of half.old) result half.new }
{
    work_on(
        rt,
        gate,
        Side::Parent,
        &queues.down,
        &queues.up,
        &mut passes.pushing,
        &mut passes.popping,
        half,
    )
}

// Does the work of the child, of the run of its half.
fn work_of_child<R: Wait>(
    rt: &R,
    gate: &Gate,
    queues: &Queues,
    passes: &mut SidePasses,
    half: &mut Half<'_>,
) -> RunAnswer
    requires { MayWork queues.now sides.Child passes.old half.old }
    ensures { HasWorked queues.now sides.Child passes.old passes.new (setting_of half.old) result half.new }
{
    work_on(
        rt,
        gate,
        Side::Child,
        &queues.up,
        &queues.down,
        &mut passes.pushing,
        &mut passes.popping,
        half,
    )
}

// Combines the results of the work of both sides.
fn of_both(first: RunAnswer, second: RunAnswer) -> RunAnswer
    ensures { result ≡ of_both first second }
{
    match (first, second) {
        (RunAnswer::NoMemory, _) | (_, RunAnswer::NoMemory) => RunAnswer::NoMemory,
        (RunAnswer::Spent(side), _) => RunAnswer::Spent(side),
        (RunAnswer::Finished, answer) => answer,
    }
}

// Does the work of both sides, each on a thread of its own.
fn work_both<'b, 'c, R: Threads + Wait + Sync>(
    rt: &R,
    gate: &Gate,
    queues: &Queues,
    of_parent: &mut SidePasses,
    of_child: &mut SidePasses,
    parent: &mut Half<'b>,
    child: &mut Half<'c>,
) -> (RunAnswer, RunAnswer)
    requires parent { MayWork queues.now sides.Parent of_parent.old parent.old }
    requires child { MayWork queues.now sides.Child of_child.old child.old }
    ensures parent { HasWorked queues.now sides.Parent of_parent.old of_parent.new (setting_of parent.old) result.0 parent.new }
    ensures child { HasWorked queues.now sides.Child of_child.old of_child.new (setting_of child.old) result.1 child.new }
{
    let (first, second) = join_mut(
        rt,
        &mut || -> RunAnswer
            requires { MayWork queues.now sides.Parent of_parent.now parent.now }
            ensures { HasWorked queues.entry.now sides.Parent of_parent.entry.now of_parent.exit.now (setting_of parent.entry.now) result parent.exit.now }
        { work_of_parent(rt, gate, queues, of_parent, parent) },
        &mut || -> RunAnswer
            requires { MayWork queues.now sides.Child of_child.now child.now }
            ensures { HasWorked queues.entry.now sides.Child of_child.entry.now of_child.exit.now (setting_of child.entry.now) result child.exit.now }
        { work_of_child(rt, gate, queues, of_child, child) },
    );
    (first, second)
}

// Splits the pass of each queue, which may push and pop, into the passes of the parent and of the child.
fn side_passes(
    queues: &Queues,
    mut to_child: PacketPass,
    mut to_parent: PacketPass,
) -> (SidePasses, SidePasses)
    requires to_child { MayBoth queues.now.down.queue to_child }
    requires to_parent { MayBoth queues.now.up.queue to_parent }
    ensures down { IsParted queues.now.down.queue (view_of to_child) result.0.pushing result.1.popping }
    ensures up { IsParted queues.now.up.queue (view_of to_parent) result.1.pushing result.0.popping }
{
    let from_parent = queues.down.part(&mut to_child);
    let from_child = queues.up.part(&mut to_parent);
    let of_parent = SidePasses {
        pushing: to_child,
        popping: from_child,
    };
    let of_child = SidePasses {
        pushing: to_parent,
        popping: from_parent,
    };
    (of_parent, of_child)
}

// Joins the passes of both sides into one for each queue: down to the child, and up to the parent.
fn queue_passes(
    queues: &Queues,
    of_parent: SidePasses,
    of_child: SidePasses,
) -> (PacketPass, PacketPass)
    requires down { MayPush queues.now.down.queue of_parent.pushing × (MayPop queues.now.down.queue of_child.popping) }
    requires up { MayPush queues.now.up.queue of_child.pushing × (MayPop queues.now.up.queue of_parent.popping) }
    ensures down { IsWhole queues.now.down.queue of_parent.pushing of_child.popping result.0 }
    ensures up { IsWhole queues.now.up.queue of_child.pushing of_parent.popping result.1 }
{
    let SidePasses {
        pushing: mut to_child,
        popping: from_child,
    } = of_parent;
    let SidePasses {
        pushing: mut to_parent,
        popping: from_parent,
    } = of_child;
    queues.down.join(&mut to_child, from_parent);
    queues.up.join(&mut to_parent, from_child);
    (to_child, to_parent)
}

// Does the work of both halves from their beginning, at once, over new queues. Returns the joined passes.
fn work_at_once<R: Threads + Wait + Sync>(
    rt: &R,
    gate: &Gate,
    queues: &Queues,
    to_child: PacketPass,
    to_parent: PacketPass,
    parent: &mut Half<'_>,
    child: &mut Half<'_>,
) -> (PacketPass, PacketPass, RunAnswer)
    ghost at: { Setting }
    requires to_child { IsSegPassOf queues.now.down.queue to_child × (view_of to_child ≡ first_view) }
    requires to_parent { IsSegPassOf queues.now.up.queue to_parent × (view_of to_parent ≡ first_view) }
    requires parent { GoesApart at sides.Parent (opening_half at sides.Parent) [] parent.old }
    requires child { GoesApart at sides.Child (opening_half at sides.Child) [] child.old }
    ensures to_child { MayBoth queues.now.down.queue result.0 }
    ensures to_parent { MayBoth queues.now.up.queue result.1 }
    ensures worked { BothWorked at (view_of result.0) (view_of result.1) result.2 parent.new child.new }
{
    let (mut of_parent, mut of_child) = side_passes(queues, to_child, to_parent);
    let (first, second) = work_both(
        rt,
        gate,
        queues,
        &mut of_parent,
        &mut of_child,
        parent,
        child,
    );
    let (to_child, to_parent) = queue_passes(queues, of_parent, of_child);
    (to_child, to_parent, of_both(first, second))
}

// Makes steps of both in turn, if both worked to their ends and neither is spent.
fn end_in_turn<R: Wait>(
    rt: &R,
    down: &PacketQueue,
    up: &PacketQueue,
    to_child: &mut PacketPass,
    to_parent: &mut PacketPass,
    parent: &mut Half<'_>,
    child: &mut Half<'_>,
    worked: RunAnswer,
) -> RunAnswer
    ghost at: { Setting }
    requires to_child { MayBoth down.now.queue to_child.old }
    requires to_parent { MayBoth up.now.queue to_parent.old }
    requires worked { BothWorked at (view_of to_child.old) (view_of to_parent.old) worked parent.old child.old }
    ensures to_child { MayBoth down.now.queue to_child.new }
    ensures to_parent { MayBoth up.now.queue to_parent.new }
    ensures ends { BothEnd at (view_of to_child.new) (view_of to_parent.new) result parent.new child.new }
{
    match worked {
        RunAnswer::Finished => take_turns(rt, down, up, to_child, to_parent, parent, child),
        answer => answer,
    }
}

// Shows that what a pass has popped, and then what its queue has, is what the pass has pushed.
fn see_order<R: Wait>(rt: &R, queue: &PacketQueue, pass: &mut PacketPass)
    requires { MayBoth queue.now.queue pass.old }
    ensures same { view_of pass.new ≡ view_of pass.old }
    ensures order { IsOrdered (view_of pass.old) }
{
    let _held = queue.len(rt, pass);
}

// Runs both halves from their beginning over queues.
fn run_over<R: Threads + Wait + Sync>(
    rt: &R,
    gate: &Gate,
    down: (PacketQueue, PacketPass),
    up: (PacketQueue, PacketPass),
    parent: &mut Half<'_>,
    child: &mut Half<'_>,
) -> RunAnswer
    ghost at: { Setting }
    requires down { IsSegPassOf down.0.queue down.1 × (view_of down.1 ≡ first_view) }
    requires up { IsSegPassOf up.0.queue up.1 × (view_of up.1 ≡ first_view) }
    requires parent { GoesApart at sides.Parent (opening_half at sides.Parent) [] parent.old }
    requires child { GoesApart at sides.Child (opening_half at sides.Child) [] child.old }
    ensures { EndsRelay at result parent.new child.new }
{
    let (down, to_child) = down;
    let (up, to_parent) = up;
    let queues = Queues { down, up };
    let (mut to_child, mut to_parent, worked) = work_at_once(
        rt, gate, &queues, to_child, to_parent, parent, child,
    );
    let answer = end_in_turn(
        rt,
        &queues.down,
        &queues.up,
        &mut to_child,
        &mut to_parent,
        parent,
        child,
        worked,
    );
    see_order(rt, &queues.down, &mut to_child);
    see_order(rt, &queues.up, &mut to_parent);
    answer
}

/// Runs both halves from their beginning, at once over two queues, and then in turn to the end.
pub fn run_apart<R: Threads + Wait + Sync>(
    rt: &R,
    alloc: Global,
    gate: &Gate,
    parent: &mut Half<'_>,
    child: &mut Half<'_>,
) -> RunAnswer
    ghost at: { Setting }
    requires parent { GoesApart at sides.Parent (opening_half at sides.Parent) [] parent.old }
    requires child { GoesApart at sides.Child (opening_half at sides.Child) [] child.old }
    ensures { EndsRelay at result parent.new child.new }
{
    let Ok(down) = PacketQueue::new(alloc) else {
        return RunAnswer::NoMemory;
    };
    let Ok(up) = PacketQueue::new(alloc) else {
        return RunAnswer::NoMemory;
    };
    run_over(rt, gate, down, up, parent, child)
}
