//! Each side on a worker of its own: its own steps, and turns with the link, until nothing is left to
//! do.

ghost use Rattle.std.specs.Prelude.{◌≡◌, [], List};
ghost use Rattle.ipdl_base.specs.declared.kinds.Side.{Side as EndSide};
ghost use Rattle.ipdl_base.specs.declared.kinds.Side.TheVariants as sides;
ghost use Rattle.ipdl_base.specs.declared.line.Line.{Line};
ghost use Rattle.script_steps.specs.Choices.{Setting};
ghost use Rattle.thread_link.specs.Runs.{RunsAtOnce};
ghost use Rattle.thread_link.specs.Work.{HasWorked, MayWork};
ghost use Rattle.world_core.specs.HalfView.{setting_of};
ghost use Rattle.world_core.specs.Halves.{FitsAfter, IsSplit};
ghost use Rattle.world_core.specs.Turns.{GivesUnless, GrowsTo, StandsAs, WordGives};
ghost use Rattle.world_core.specs.Worlds.{IsCase, IsLawful};

use crate::exchange::OpenFault;
use crate::pass::{Exchange, Pass};
use crate::turns::sleep;
use schedules::Gate;
use std::alloc::{AllocError, Global};
use std::sync::Wait;
use std::thread::{Threads, join_mut};
use world_core::{Half, Link, MeetAnswer, RunAnswer, StepAnswer, World, halves_fit_after_more};

// Makes steps of a side until it has no step of its own left, or cannot make the next one.
fn go_on<R: Wait>(
    rt: &R,
    gate: &Gate,
    pass: &Pass,
    half: &mut Half<'_>,
    steps: &mut u32,
) -> StepAnswer
    ghost at: { Setting × EndSide × List Line }
    requires { FitsAfter at.0 at.1 at.2 half.old }
    ensures { FitsAfter at.0 at.1 at.2 half.new }
{
    for _ in rt.forever() {
        if half.rests() {
            return StepAnswer::Nothing;
        }
        *steps = steps.wrapping_add(1);
        gate.pass(pass.side, *steps);
        match half.own() {
            StepAnswer::Did => {}
            answer => return answer,
        }
    }
    unreachable!()
}

// Does the work of one side, until both have nothing left to do or one of them gives up. A side also
// gives up if the other one does not begin. Fails only if memory ran out at this side.
fn work<'a, 'b, R: Wait>(
    rt: &R,
    gate: &Gate,
    exchange: &Exchange<'a>,
    pass: &mut Pass,
    half: &mut Half<'b>,
) -> Result<(), AllocError>
    requires { MayWork exchange.now pass.old half.old }
    ensures { HasWorked exchange.now pass.old pass.new half.new }
{
    let mut steps = 0u32;
    let mut goes_on = true;
    exchange.begin(pass);
    let mut own_turns = 1u64;
    for _ in rt.forever() {
        let stopped = go_on(rt, gate, pass, half, &mut steps);
        let gives_up = !goes_on || !matches!(stopped, StepAnswer::Nothing);
        let turn = exchange.turn(rt, pass, half, gives_up);
        own_turns = own_turns.wrapping_add(1);
        if turn.ended {
            return memory_of(stopped, turn.answer);
        }
        if turn.rests {
            goes_on = sleep(rt, &exchange.table.shared, turn.turns, own_turns);
        }
    }
    unreachable!()
}

// Fails if memory ran out in the last step or meeting.
fn memory_of(step: StepAnswer, meeting: MeetAnswer) -> Result<(), AllocError> {
    if matches!(step, StepAnswer::NoMemory) || matches!(meeting, MeetAnswer::NoMemory) {
        Err(AllocError)
    } else {
        Ok(())
    }
}

// Does the work of both sides, each on a thread of its own.
fn work_both<'a, 'b, 'c, R: Threads + Wait + Sync>(
    rt: &R,
    gate: &Gate,
    exchange: &Exchange<'a>,
    one: &mut Pass,
    two: &mut Pass,
    parent: &mut Half<'b>,
    child: &mut Half<'c>,
) -> Result<(), AllocError>
    requires parent { MayWork exchange.now one.old parent.old }
    requires child { MayWork exchange.now two.old child.old }
    ensures parent { HasWorked exchange.now one.old one.new parent.new }
    ensures child { HasWorked exchange.now two.old two.new child.new }
{
    let (first, second) = join_mut(
        rt,
        &mut || -> Result<(), AllocError>
            requires { MayWork exchange.now one.now parent.now }
            ensures { HasWorked exchange.entry.now one.entry.now one.exit.now parent.exit.now }
        { work(rt, gate, exchange, one, parent) },
        &mut || -> Result<(), AllocError>
            requires { MayWork exchange.now two.now child.now }
            ensures { HasWorked exchange.entry.now two.entry.now two.exit.now child.exit.now }
        { work(rt, gate, exchange, two, child) },
    );
    first?;
    second
}

// Does the work of both halves on a link, and returns the link after it. An error means that memory ran
// out: for the exchange, in which case nothing was done, or at a side.
fn work_apart<R: Threads + Wait + Sync>(
    rt: &R,
    alloc: Global,
    gate: &Gate,
    parent: &mut Half<'_>,
    child: &mut Half<'_>,
    link: Link,
) -> (Link, Result<(), AllocError>)
    requires { IsSplit (setting_of parent.old) parent.old child.old link }
    ensures split { IsSplit (setting_of parent.old) parent.new child.new result.0 }
    ensures grows { GrowsTo link.lines result.0.lines }
{
    let (exchange, mut one, mut two) = match Exchange::open(alloc, parent, link) {
        Ok(opened) => opened,
        Err(fault) => {
            let OpenFault::NoMemory(link) = fault;
            return (link, Err(AllocError));
        }
    };
    let worked = work_both(rt, gate, &exchange, &mut one, &mut two, parent, child);
    halves_fit_after_more();
    (exchange.close(one, two), worked)
}

// Runs both sides in turn to the end, if there was memory so far.
fn end_run(world: &mut World<'_>, worked: Result<(), AllocError>) -> RunAnswer
    ensures history { IsCase world.old }
    ensures gives { GivesUnless (λ before after answer. WordGives before [] answer after) world.old world.new result }
    ensures same { world.new.setting ≡ world.old.setting }
    ensures grows { GrowsTo world.old.state.lines world.new.state.lines }
    ensures stands { StandsAs world.new result }
    ensures case { IsCase world.new }
    ensures laws { IsLawful world.new }
{
    let _ = world.history();
    match worked {
        Ok(()) => world.run_schedule(&[]),
        Err(AllocError) => RunAnswer::NoMemory,
    }
}

/// Runs a world with each side on a thread of its own, and then both in turn to the end.
pub fn run_at_once<'s, R: Threads + Wait + Sync>(
    rt: &R,
    alloc: Global,
    gate: &Gate,
    world: World<'s>,
) -> (World<'s>, RunAnswer)
    ensures gives { GivesUnless RunsAtOnce world.entry result.0 result.1 }
    ensures same { result.0.setting ≡ world.entry.setting }
    ensures grows { GrowsTo world.entry.state.lines result.0.state.lines }
    ensures stands { StandsAs result.0 result.1 }
    ensures case { IsCase result.0 }
    ensures laws { IsLawful result.0 }
{
    let (mut parent, mut child, link) = world.split();
    let (link, worked) = work_apart(rt, alloc, gate, &mut parent, &mut child, link);
    let mut world = World::join(parent, child, link);
    let answer = end_run(&mut world, worked);
    (world, answer)
}
