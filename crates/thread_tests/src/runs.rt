//! Whole runs on two threads.

ghost use Rattle.std.specs.Prelude.{◌≤◌};
ghost use Rattle.ipdl_base.specs.Sound.{IsSound};
ghost use Rattle.handler_script.specs.Valid.{IsValid};

use super::given::{PROTOCOL, RACE, calls, script_of};
use super::printouts::{count_of, is_run_race, printed};
use handler_script::Script;
use history_of_text::schema_of;
use ipdl_base::{Schema, Side};
use std::sync::Wait;
use std::test::Fail;
use std::thread::Threads;
use thread_link::{Gate, TwoThreads};
use world_core::{Driver, Stop, World};

/// Returns what a run of a script prints whose sides run at the same time.
fn run<R: Threads + Wait + Sync + AllocGlobal>(
    rt: &R,
    schema: &Schema,
    script: &Script,
    stop: Option<Stop>,
    limit: u32,
) -> Result<String, Fail>
    requires sound { IsSound schema.now }
    requires valid { IsValid schema.now script.now }
    requires small { limit ≤ 20000 }
{
    let world = World::open(rt.alloc(), schema, script, stop, limit)?;
    let mut driver = TwoThreads::new(rt, Gate::Open);
    let (world, answer) = driver.drive(world);
    let text = printed(rt.alloc(), schema, &world, answer);
    drop(world);
    text
}

/// Returns how many of this number of runs of the race are as they should be.
fn races<R: Threads + Wait + Sync + AllocGlobal>(
    rt: &R,
    schema: &Schema,
    script: &Script,
    count: u32,
) -> Result<u32, Fail>
    requires sound { IsSound schema.now }
    requires valid { IsValid schema.now script.now }
{
    let mut good = 0u32;
    for _ in 0..count {
        if is_run_race(run(rt, schema, script, None, 10_000)?.as_str()) {
            good = good.wrapping_add(1);
        }
    }
    Ok(good)
}

#[test]
fn race_two_hundred_times(rt: HostRuntime) -> Result<(), Fail> {
    let schema = schema_of(rt.alloc(), PROTOCOL)?;
    let script = script_of(rt.alloc(), &schema, RACE)?;
    let good = races(&rt, &schema, &script, 200)?;
    assert_eq!(rt; good, 200);
    Ok(())
}

/// Returns how many of `count` runs, in which each side makes `calls` calls, finish and obey all laws.
fn long_runs<R: Threads + Wait + Sync + AllocGlobal>(
    rt: &R,
    schema: &Schema,
    script: &Script,
    count: u32,
    calls: u32,
) -> Result<u32, Fail>
    requires sound { IsSound schema.now }
    requires valid { IsValid schema.now script.now }
{
    let mut good = 0u32;
    for _ in 0..count {
        let text = run(rt, schema, script, None, 20_000)?;
        let is_whole = count_of(text.as_str(), "  answer 1 ok (20)") == 1
            && text.ends_with("\nfinished\n")
            && ok_lines(text.as_str()) == calls.wrapping_mul(2);
        if is_whole {
            good = good.wrapping_add(1);
        }
    }
    Ok(good)
}

/// Returns how many calls of a text were answered with values.
fn ok_lines(text: &str) -> u32 {
    let mut count = 0u32;
    for line in text.lines() {
        if line.contains(" resume ") && line.contains(" ok (") {
            count = count.wrapping_add(1);
        }
    }
    count
}

#[test]
fn five_hundred_calls_a_side(rt: HostRuntime) -> Result<(), Fail> {
    let schema = schema_of(rt.alloc(), PROTOCOL)?;
    let text = calls(rt.alloc(), 500)?;
    let script = script_of(rt.alloc(), &schema, text.as_str())?;
    let good = long_runs(&rt, &schema, &script, 200, 500)?;
    assert_eq!(rt; good, 200);
    Ok(())
}

/// Returns how many runs of the race finish and obey all laws if a side dies after fewer than `most`
/// events, for each such number, and in how many of them it dies.
fn deaths<R: Threads + Wait + Sync + AllocGlobal>(
    rt: &R,
    schema: &Schema,
    script: &Script,
    side: Side,
    most: u32,
) -> Result<(u32, u32), Fail>
    requires sound { IsSound schema.now }
    requires valid { IsValid schema.now script.now }
{
    let line = match side {
        Side::Parent => "parent die",
        Side::Child => "child die",
    };
    let mut good = 0u32;
    let mut dead = 0u32;
    for after in 0..most {
        let text = run(rt, schema, script, Some(Stop { side, after }), 10_000)?;
        if text.ends_with("\nfinished\n") {
            good = good.wrapping_add(1);
        }
        dead = dead.wrapping_add(count_of(text.as_str(), line));
    }
    Ok((good, dead))
}

#[test]
fn deaths_at_each_step(rt: HostRuntime) -> Result<(), Fail> {
    let schema = schema_of(rt.alloc(), PROTOCOL)?;
    let script = script_of(rt.alloc(), &schema, RACE)?;
    let parent = deaths(&rt, &schema, &script, Side::Parent, 8)?;
    let child = deaths(&rt, &schema, &script, Side::Child, 8)?;
    assert_eq!(rt; parent, (8, 7));
    assert_eq!(rt; child, (8, 7));
    Ok(())
}
