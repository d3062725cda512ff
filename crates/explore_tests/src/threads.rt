//! That runs whose sides go on at the same time are ways.

ghost use Rattle.handler_script.specs.Valid.{IsValid};
ghost use Rattle.ipdl_base.specs.Sound.{IsSound};

use super::given::{schema_of, script_of, worked};
use super::printed::count_alike;
use super::texts::explored;
use explorations::Exploration;
use handler_script::Script;
use ipdl_base::Schema;
use std::sync::Wait;
use std::test::Fail;
use std::thread::Threads;
use thread_link::{Gate, TwoThreads};
use world_core::{Driver, RunAnswer, World};

/// More events of a side than any run here has.
const LIMIT: u32 = 100;

/// Returns the text of a run whose sides go on at the same time, without its last line if it does not finish.
fn raced<R: Threads + Wait + Sync + AllocGlobal>(
    rt: &R,
    schema: &Schema,
    script: &Script,
) -> Result<Vec<u8>, Fail>
    requires sound { IsSound schema.now }
    requires valid { IsValid schema.now script.now }
{
    let world = World::open(rt.alloc(), schema, script, None, LIMIT)?;
    let mut driver = TwoThreads::new(rt, Gate::Open);
    let (world, answer) = driver.drive(world);
    let text = world.transcript(rt.alloc());
    drop(world);
    let mut text = text?;
    if answer == RunAnswer::Finished {
        text.extend_from_slice(b"finished\n")?;
    }
    Ok(text)
}

/// Returns how many of a hundred runs are one of the ways of their script.
fn legal_races<R: Threads + Wait + Sync + AllocGlobal>(
    rt: &R,
    schema: &Schema,
    script: &Script,
    found: &Exploration,
) -> Result<u32, Fail>
    requires sound { IsSound schema.now }
    requires valid { IsValid schema.now script.now }
{
    let alloc = rt.alloc();
    let mut good = 0u32;
    for _ in 0..100 {
        let text = raced(rt, schema, script)?;
        let text = str::from_utf8(text.as_slice())?;
        if count_alike(alloc, schema, script, LIMIT, found, text)? == 1 {
            good = good.wrapping_add(1);
        }
    }
    Ok(good)
}

#[test]
fn races_are_ways(rt: HostRuntime) -> Result<(), Fail> {
    let row = worked("both-call-at-once")?;
    let schema = schema_of(rt.alloc(), row.file)?;
    let script = script_of(rt.alloc(), &schema, row.file, row.script)?;
    let found = explored(rt.alloc(), &schema, &script, LIMIT, 1_000)?;
    let good = legal_races(&rt, &schema, &script, &found)?;
    assert_eq!(rt; good, 100);
    Ok(())
}
