//! Runs whose halves run separately.

ghost use Rattle.std.specs.Prelude.{◌≡◌, List};
ghost use Rattle.ipdl_base.specs.Sides.{other};
ghost use Rattle.handler_script.specs.Valid.{IsValid};
ghost use Rattle.ipdl_base.specs.declared.kinds.Side.{Side as EndSide};
ghost use Rattle.ipdl_base.specs.declared.kinds.Side.TheVariants as sides;
ghost use Rattle.ipdl_base.specs.declared.line.Line.{Line};
ghost use Rattle.ipdl_base.specs.Sound.{IsSound};
ghost use Rattle.script_steps.specs.Choices.{Setting};
ghost use Rattle.world_core.specs.HalfView.{HalfView};
ghost use Rattle.world_core.specs.Halves.{FitsAfter, IsEmptied, IsHome, IsSplit};

use super::apart_rows::{APART, HALVES};
use super::courses::{Printout, course_of, opened, printed_of};
use super::deep_rows::DEEP;
use super::given::script_of;
use super::printed_runs::fault_of;
use super::texts::lines_and_ending;
use handler_script::Script;
use history_of_text::schema_of;
use ipdl_base::{Schema, Side};
use std::alloc::Global;
use std::test::Fail;
use worked_runs::{RUNS, Row, row_named};
use world_core::{Half, Link, MeetAnswer, RunAnswer, StepAnswer, World, halves_fit_after_more};

/// What is seen of a run by halves: how it ended, if it did; for each side, whether its end is open,
/// and how many packets wait for it; and how many lines the link and its history have.
#[derive(Clone, Copy)]
struct Sight {
    ended: Option<RunAnswer>,
    parent_open: bool,
    parent_left: usize,
    child_open: bool,
    child_left: usize,
    lines: usize,
    history: usize,
}

/// Returns what is seen of halves and their link.
fn sight_of(ended: Option<RunAnswer>, parent: &Half<'_>, child: &Half<'_>, link: &Link) -> Sight {
    Sight {
        ended,
        parent_open: parent.is_open(),
        parent_left: link.left(Side::Parent),
        child_open: child.is_open(),
        child_left: link.left(Side::Child),
        lines: link.lines(),
        history: link.history().lines().len(),
    }
}

/// Returns how a run ends by the answer of a side's own step, if it ends.
fn end_of_steps(side: Side, answer: StepAnswer) -> Option<RunAnswer> {
    match answer {
        StepAnswer::Did | StepAnswer::Nothing => None,
        StepAnswer::Spent(_) => Some(RunAnswer::Spent(side)),
        StepAnswer::NoMemory => Some(RunAnswer::NoMemory),
    }
}

/// Returns how a run ends by the answer of a side's meeting, if it ends.
fn end_of_meeting(side: Side, answer: MeetAnswer) -> Option<RunAnswer> {
    match answer {
        MeetAnswer::Moved(_) => None,
        MeetAnswer::Spent(_) => Some(RunAnswer::Spent(side)),
        MeetAnswer::NoMemory => Some(RunAnswer::NoMemory),
    }
}

/// Makes steps of a half until it rests. Returns how the run ends by that, if it ends.
fn go_on(half: &mut Half<'_>, side: Side) -> Option<RunAnswer>
    ghost at: { Setting × EndSide × List Line }
    requires { FitsAfter at.0 at.1 at.2 half.old }
    ensures { FitsAfter at.0 at.1 at.2 half.new }
{
    for _ in 0..10_000 {
        let answer = half.own();
        if answer != StepAnswer::Did {
            return end_of_steps(side, answer);
        }
    }
    None
}

/// Lets a half hand in to the link. The other half still fits after the link.
fn hand_in(half: &mut Half<'_>, link: &mut Link)
    ghost at: { Setting × EndSide }
    requires fits { FitsAfter at.0 at.1 link.old.lines half.old }
    requires home { IsHome at.0 link.old }
    ensures home { IsHome at.0 link.new }
    ensures fits { FitsAfter at.0 at.1 link.new.lines half.new }
    ensures others { (rest : HalfView) → FitsAfter at.0 (other at.1) link.old.lines rest → FitsAfter at.0 (other at.1) link.new.lines rest }
{
    halves_fit_after_more();
    half.hand_in(link);
}

/// Lets the half of a side meet the link. Returns how the run ends by that, if it ends. The other half
/// still fits after the link.
fn meet(half: &mut Half<'_>, link: &mut Link, side: Side) -> Option<RunAnswer>
    ghost at: { Setting × EndSide }
    requires fits { FitsAfter at.0 at.1 link.old.lines half.old }
    requires home { IsHome at.0 link.old }
    ensures home { IsHome at.0 link.new }
    ensures fits { FitsAfter at.0 at.1 link.new.lines half.new }
    ensures emptied { IsEmptied half.new }
    ensures others { (rest : HalfView) → FitsAfter at.0 (other at.1) link.old.lines rest → FitsAfter at.0 (other at.1) link.new.lines rest }
{
    halves_fit_after_more();
    end_of_meeting(side, half.meet(link))
}

/// Returns whether a half has a step of its own left, or a packet waits for its open end.
fn is_busy(half: &Half<'_>, link: &Link, side: Side) -> bool {
    !half.rests() || half.is_open() && link.left(side) > 0
}

/// Makes steps of both halves, without the link. Returns how the run ends by that, if it ends.
fn both_go_on(parent: &mut Half<'_>, child: &mut Half<'_>) -> Option<RunAnswer>
    ghost at: { Setting × List Line }
    requires parent { FitsAfter at.0 sides.Parent at.1 parent.old }
    requires child { FitsAfter at.0 sides.Child at.1 child.old }
    ensures parent { FitsAfter at.0 sides.Parent at.1 parent.new }
    ensures child { FitsAfter at.0 sides.Child at.1 child.new }
{
    let parent_ended = go_on(parent, Side::Parent);
    let child_ended = go_on(child, Side::Child);
    parent_ended.or(child_ended)
}

/// Lets the parent hand in, and then the child and the parent meet the link. Returns how the run ends
/// by that, if it ends.
fn both_meet(parent: &mut Half<'_>, child: &mut Half<'_>, link: &mut Link) -> Option<RunAnswer>
    ghost setting: { Setting }
    requires home { IsHome setting link.old }
    requires parent { FitsAfter setting sides.Parent link.old.lines parent.old }
    requires child { FitsAfter setting sides.Child link.old.lines child.old }
    ensures { IsSplit setting parent.new child.new link.new }
{
    hand_in(parent, link);
    let child_ended = meet(child, link, Side::Child);
    let parent_ended = meet(parent, link, Side::Parent);
    parent_ended.or(child_ended)
}

/// Lets both halves make their steps and meet the link. Returns how the run ends by that, if it ends.
fn round(parent: &mut Half<'_>, child: &mut Half<'_>, link: &mut Link) -> Option<RunAnswer>
    ghost at: { Setting × List Line }
    requires seen { link.old.lines ≡ at.1 }
    requires apart { IsSplit at.0 parent.old child.old link.old }
    ensures { IsSplit at.0 parent.new child.new link.new }
{
    let apart = both_go_on(parent, child);
    let met = both_meet(parent, child, link);
    let busy = is_busy(parent, link, Side::Parent) || is_busy(child, link, Side::Child);
    let rest = (!busy).then_some(RunAnswer::Finished);
    apart.or(met).or(rest)
}

/// Makes two rounds, or one if the run ends in it. Returns how the run ends, if it ends.
fn two_rounds(parent: &mut Half<'_>, child: &mut Half<'_>, link: &mut Link) -> Option<RunAnswer>
    ghost setting: { Setting }
    requires { IsSplit setting parent.old child.old link.old }
    ensures { IsSplit setting parent.new child.new link.new }
{
    let first = round(parent, child, link);
    if first.is_some() {
        return first;
    }
    round(parent, child, link)
}

/// Splits a world, lets its halves make two rounds, and joins it again. Returns it with what is seen
/// before the join.
fn go_apart(world: World<'_>) -> (World<'_>, Sight) {
    let (mut parent, mut child, mut link) = world.split();
    let ended = two_rounds(&mut parent, &mut child, &mut link);
    let seen = sight_of(ended, &parent, &child, &link);
    (World::join(parent, child, link), seen)
}

/// Runs a world by its halves. Returns it with what is seen at the end.
fn run_apart(world: World<'_>) -> (World<'_>, Sight) {
    let (mut world, mut seen) = go_apart(world);
    for _ in 0..1_000 {
        if seen.ended.is_some() {
            break;
        }
        let (next, sight) = go_apart(world);
        world = next;
        seen = sight;
    }
    (world, seen)
}

/// Returns what a run by halves prints, and what is seen at its end.
fn printed_apart(
    alloc: Global,
    schema: &Schema,
    script: &Script,
    row: Row<'_>,
) -> Result<(Printout, Sight), Fail>
    requires sound { IsSound schema.now }
    requires valid { IsValid schema.now script.now }
{
    let course = course_of(alloc, row.course)?;
    let world = opened(alloc, schema, script, &course)?;
    let (world, seen) = run_apart(world);
    let ending = seen.ended.unwrap_or(RunAnswer::NoMemory);
    let found = printed_of(alloc, schema, &world, ending);
    drop(world);
    Ok((found?, seen))
}

/// Returns the word for an end that is open, or for one that is not.
fn openness(is_open: bool) -> &'static str {
    if is_open { "open" } else { "shut" }
}

/// Returns what is seen of halves, in the form of a row of `HALVES`.
fn seen_text(alloc: Global, seen: Sight) -> Result<String, Fail> {
    let parent = openness(seen.parent_open);
    let child = openness(seen.child_open);
    Ok(format!(in alloc; "{parent} {} {child} {}", seen.parent_left, seen.child_left)?)
}

/// Returns what is wrong with a run by halves: it does not print what its row has, a law does not hold,
/// the link has another number of lines, or the halves are not in the expected state.
fn fault_apart(
    alloc: Global,
    schema: &Schema,
    script: &Script,
    row: Row<'_>,
    wanted: &str,
) -> Result<&'static str, Fail>
    requires sound { IsSound schema.now }
    requires valid { IsValid schema.now script.now }
{
    let (run, seen) = printed_apart(alloc, schema, script, row)?;
    let (lines, _) = lines_and_ending(row.printed).ok_or("a row that does not say how it ends")?;
    let count = lines.lines().count();
    if seen.lines != count || seen.history != count {
        return Ok("another count of lines");
    }
    if seen_text(alloc, seen)?.as_str() != wanted {
        return Ok("halves that stand otherwise");
    }
    Ok(fault_of(&run, row.printed))
}

/// Returns the row with this name, from any table.
fn row_of_any(name: &str) -> Option<Row<'static>> {
    row_named(APART, name)
        .or(row_named(RUNS, name))
        .or(row_named(DEEP, name))
}

/// Returns what is wrong with the run by halves of a row, with the schema of its protocol.
fn fault_under(
    alloc: Global,
    schema: &Schema,
    row: Row<'_>,
    wanted: &str,
) -> Result<&'static str, Fail>
    requires { IsSound schema.now }
{
    let script = script_of(alloc, schema, row.file, row.script)?;
    fault_apart(alloc, schema, &script, row, wanted)
}

/// Notes a run by halves if something is wrong with it.
fn check(alloc: Global, line: &str, wrong: &mut String) -> Result<(), Fail> {
    let (name, wanted) = line.split_once(" ").ok_or("a name alone")?;
    let row = row_of_any(name).ok_or("no such row")?;
    let schema = schema_of(alloc, row.file)?;
    let found = fault_under(alloc, &schema, row, wanted)?;
    if !found.is_empty() {
        writeln!(wrong, "{name}: {found}")?;
    }
    Ok(())
}

/// Returns the runs by halves that are wrong, and how many runs there are.
fn checked(alloc: Global, table: &str) -> Result<String, Fail> {
    let mut shown = String::new(alloc);
    let mut count = 0u32;
    for line in table.lines() {
        check(alloc, line, &mut shown)?;
        count = count.wrapping_add(1);
    }
    write!(shown, "{count}")?;
    Ok(shown)
}

#[test]
fn halves_run_apart(rt: HostRuntime) -> Result<(), Fail> {
    assert_eq!(rt; checked(rt.alloc(), HALVES)?.as_str(), "14");
    Ok(())
}
