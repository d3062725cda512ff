//! An exchange by hand: both halves in turn on one thread, or at the same time on two.

ghost use Rattle.std.specs.Prelude.{◌≡◌, ◌≤◌, List, IfOk};
ghost use Rattle.handler_script.specs.Valid.{IsValid};
ghost use Rattle.ipdl_base.specs.declared.kinds.Side.{Side as EndSide};
ghost use Rattle.ipdl_base.specs.declared.line.Line.{Line};
ghost use Rattle.ipdl_base.specs.Sound.{IsSound};
ghost use Rattle.script_steps.specs.Choices.{Setting};
ghost use Rattle.thread_link.specs.Work.{HasWorked, MayWork};
ghost use Rattle.world_core.specs.HalfView.{setting_of};
ghost use Rattle.world_core.specs.Halves.{FitsAfter, IsSplit};

use super::given::{PROTOCOL, RACE, script_of};
use super::printouts::{is_run_race, printed};
use handler_script::Script;
use history_of_text::schema_of;
use ipdl_base::{Schema, Side};
use std::alloc::Global;
use std::sync::Wait;
use std::test::Fail;
use std::thread::{Threads, join_mut};
use thread_link::{Exchange, OpenFault, Pass};
use world_core::{Half, Link, MeetAnswer, StepAnswer, World, halves_fit_after_more};

/// How many rounds each side makes after its first.
const MORE_ROUNDS: u32 = 7;

/// Makes steps of a half until it has no step of its own left.
fn go_on(pass: &Pass, half: &mut Half<'_>)
    ghost at: { Setting × EndSide × List Line }
    requires { FitsAfter at.0 at.1 at.2 half.old }
    ensures { FitsAfter at.0 at.1 at.2 half.new }
{
    let _ = pass.side();
    for _ in 0..64 {
        if half.own() != StepAnswer::Did {
            return;
        }
    }
}

/// Makes steps of a half until it has no step of its own left, and then a meeting.
fn round<R: Wait>(
    rt: &R,
    exchange: &Exchange<'_>,
    pass: &mut Pass,
    half: &mut Half<'_>,
) -> MeetAnswer
    requires { MayWork exchange.now pass.old half.old }
    ensures { HasWorked exchange.now pass.old pass.new half.new }
{
    go_on(pass, half);
    exchange.meet(rt, pass, half)
}

/// Makes all rounds of a half. Returns the answer of its last meeting.
fn rounds<'a, 'b, R: Wait>(
    rt: &R,
    exchange: &Exchange<'a>,
    pass: &mut Pass,
    half: &mut Half<'b>,
) -> MeetAnswer
    requires { MayWork exchange.now pass.old half.old }
    ensures { HasWorked exchange.now pass.old pass.new half.new }
{
    let mut last = round(rt, exchange, pass, half);
    for _ in 0..MORE_ROUNDS {
        last = round(rt, exchange, pass, half);
    }
    last
}

/// Makes the rounds of both halves in turn, the parent's first.
fn in_turn<'a, 'b, 'c, R: Wait>(
    rt: &R,
    exchange: &Exchange<'a>,
    one: &mut Pass,
    two: &mut Pass,
    parent: &mut Half<'b>,
    child: &mut Half<'c>,
) -> (MeetAnswer, MeetAnswer)
    requires parent { MayWork exchange.now one.old parent.old }
    requires child { MayWork exchange.now two.old child.old }
    ensures parent { HasWorked exchange.now one.old one.new parent.new }
    ensures child { HasWorked exchange.now two.old two.new child.new }
{
    let mut first = round(rt, exchange, one, parent);
    let mut second = round(rt, exchange, two, child);
    for _ in 0..MORE_ROUNDS {
        first = round(rt, exchange, one, parent);
        second = round(rt, exchange, two, child);
    }
    (first, second)
}

/// Makes the rounds of both halves at the same time, on two threads.
fn at_once<'a, 'b, 'c, R: Threads + Wait + Sync>(
    rt: &R,
    exchange: &Exchange<'a>,
    one: &mut Pass,
    two: &mut Pass,
    parent: &mut Half<'b>,
    child: &mut Half<'c>,
) -> (MeetAnswer, MeetAnswer)
    requires parent { MayWork exchange.now one.old parent.old }
    requires child { MayWork exchange.now two.old child.old }
    ensures parent { HasWorked exchange.now one.old one.new parent.new }
    ensures child { HasWorked exchange.now two.old two.new child.new }
{
    let (first, second) = join_mut(
        rt,
        &mut || -> MeetAnswer
            requires { MayWork exchange.now one.now parent.now }
            ensures { HasWorked exchange.entry.now one.entry.now one.exit.now parent.exit.now }
        { rounds(rt, exchange, one, parent) },
        &mut || -> MeetAnswer
            requires { MayWork exchange.now two.now child.now }
            ensures { HasWorked exchange.entry.now two.entry.now two.exit.now child.exit.now }
        { rounds(rt, exchange, two, child) },
    );
    (first, second)
}

/// Makes the rounds of both halves over an exchange of the link, at the same time or in turn. Returns
/// the link after them, and the answers of the last meetings if there was memory for an exchange.
fn over_exchange<R: Threads + Wait + Sync>(
    rt: &R,
    alloc: Global,
    parent: &mut Half<'_>,
    child: &mut Half<'_>,
    link: Link,
    threads: u32,
) -> (Link, Option<(MeetAnswer, MeetAnswer)>)
    requires { IsSplit (setting_of parent.old) parent.old child.old link }
    ensures { IsSplit (setting_of parent.old) parent.new child.new result.0 }
{
    let (exchange, mut one, mut two) = match Exchange::open(alloc, parent, link) {
        Ok(opened) => opened,
        Err(fault) => {
            let OpenFault::NoMemory(link) = fault;
            return (link, None);
        }
    };
    let answers = by_threads(rt, &exchange, &mut one, &mut two, parent, child, threads);
    halves_fit_after_more();
    (exchange.close(one, two), Some(answers))
}

/// Makes the rounds of both halves, at the same time on two threads or in turn on one.
fn by_threads<'a, 'b, 'c, R: Threads + Wait + Sync>(
    rt: &R,
    exchange: &Exchange<'a>,
    one: &mut Pass,
    two: &mut Pass,
    parent: &mut Half<'b>,
    child: &mut Half<'c>,
    threads: u32,
) -> (MeetAnswer, MeetAnswer)
    requires parent { MayWork exchange.now one.old parent.old }
    requires child { MayWork exchange.now two.old child.old }
    ensures parent { HasWorked exchange.now one.old one.new parent.new }
    ensures child { HasWorked exchange.now two.old two.new child.new }
{
    if threads == 2 {
        at_once(rt, exchange, one, two, parent, child)
    } else {
        in_turn(rt, exchange, one, two, parent, child)
    }
}

/// Runs a world over an exchange. Returns it with the answers of the last meetings.
fn run_apart<'s, R: Threads + Wait + Sync>(
    rt: &R,
    alloc: Global,
    world: World<'s>,
    threads: u32,
) -> (World<'s>, Option<(MeetAnswer, MeetAnswer)>) {
    let (mut parent, mut child, link) = world.split();
    let (link, answers) = over_exchange(rt, alloc, &mut parent, &mut child, link, threads);
    (World::join(parent, child, link), answers)
}

/// Returns the answer of a meeting as a word.
fn word_of(answer: MeetAnswer) -> &'static str {
    match answer {
        MeetAnswer::Moved(_) => "moved",
        MeetAnswer::Spent(Side::Parent) => "parent",
        MeetAnswer::Spent(Side::Child) => "child",
        MeetAnswer::NoMemory => "no memory",
    }
}

/// Returns the answers of the last meetings as words.
fn words_of(answers: Option<(MeetAnswer, MeetAnswer)>) -> (&'static str, &'static str) {
    match answers {
        Some((first, second)) => (word_of(first), word_of(second)),
        None => ("nothing", "nothing"),
    }
}

/// Returns what the run of a world prints after the closing turns, and whether these added a line.
fn ended(alloc: Global, schema: &Schema, world: &mut World<'_>) -> Result<(String, bool), Fail>
    requires { IsSound schema.now }
{
    let before = world.history().lines().len();
    let ending = world.run_schedule(&[]);
    let added = world.history().lines().len() != before;
    Ok((printed(alloc, schema, world, ending)?, added))
}

/// Returns the answers of the last meetings of the race, whether the run is one of the race after the
/// closing turns, and whether these added no line.
fn pair<R: Threads + Wait + Sync>(
    rt: &R,
    alloc: Global,
    schema: &Schema,
    script: &Script,
    limit: u32,
    threads: u32,
) -> Result<String, Fail>
    requires sound { IsSound schema.now }
    requires valid { IsValid schema.now script.now }
    requires small { limit ≤ 20000 }
{
    let world = World::open(alloc, schema, script, None, limit)?;
    let (mut world, answers) = run_apart(rt, alloc, world, threads);
    let ended = ended(alloc, schema, &mut world);
    drop(world);
    let (text, added) = ended?;
    let is_race = is_run_race(text.as_str());
    let (first, second) = words_of(answers);
    Ok(format!(in alloc; "{first} {second} {is_race} {added}")?)
}

#[test]
fn exchange_pair(rt: HostRuntime) -> Result<(), Fail> {
    let schema = schema_of(rt.alloc(), PROTOCOL)?;
    let script = script_of(rt.alloc(), &schema, RACE)?;
    let shown = pair(&rt, rt.alloc(), &schema, &script, 10_000, 1)?;
    assert_eq!(rt; shown.as_str(), "moved moved true false");
    Ok(())
}

#[test]
fn exchange_pair_at_once(rt: HostRuntime) -> Result<(), Fail> {
    let schema = schema_of(rt.alloc(), PROTOCOL)?;
    let script = script_of(rt.alloc(), &schema, RACE)?;
    let shown = pair(&rt, rt.alloc(), &schema, &script, 10_000, 2)?;
    assert!(rt; shown.as_str().starts_with("moved moved true "));
    Ok(())
}

#[test]
fn meetings_at_the_limit(rt: HostRuntime) -> Result<(), Fail> {
    let schema = schema_of(rt.alloc(), PROTOCOL)?;
    let script = script_of(rt.alloc(), &schema, RACE)?;
    let shown = pair(&rt, rt.alloc(), &schema, &script, 1, 1)?;
    assert_eq!(rt; shown.as_str(), "parent child false false");
    Ok(())
}
