//! A race whose sides meet at a gate before their first steps.

ghost use Rattle.ipdl_base.specs.Sound.{IsSound};
ghost use Rattle.handler_script.specs.Valid.{IsValid};

use super::given::{PROTOCOL, RACE, script_of};
use super::printouts::{is_run_race, printed};
use handler_script::Script;
use history_of_text::schema_of;
use ipdl_base::{Schema, Side};
use std::alloc::Global;
use std::sync::Wait;
use std::test::Fail;
use std::thread::Threads;
use thread_link::{Gate, MeetingPoint, TwoThreads};
use world_core::{Driver, World};

/// Returns how many steps the parent and the child brought to a gate, and how many sides did not meet
/// the other one there.
fn told_by(alloc: Global, gate: &Gate) -> Result<String, Fail> {
    match gate {
        Gate::Open => Err("a gate that counts nothing".into()),
        Gate::Meeting(point) => {
            let parent = point.steps(Side::Parent);
            let child = point.steps(Side::Child);
            let missed = point.missed();
            Ok(format!(in alloc; "{parent} {child} {missed}")?)
        }
    }
}

/// Returns what the meeting point reports of the race, and whether the run was one of the race.
fn crossed<R: Threads + Wait + Sync + AllocGlobal>(
    rt: &R,
    schema: &Schema,
    script: &Script,
) -> Result<String, Fail>
    requires sound { IsSound schema.now }
    requires valid { IsValid schema.now script.now }
{
    let world = World::open(rt.alloc(), schema, script, None, 10_000)?;
    let mut driver = TwoThreads::new(rt, Gate::Meeting(MeetingPoint::new()));
    let (world, answer) = driver.drive(world);
    let text = printed(rt.alloc(), schema, &world, answer);
    drop(world);
    let is_race = is_run_race(text?.as_str());
    let told = told_by(rt.alloc(), driver.gate())?;
    Ok(format!(in rt.alloc(); "{told} {is_race}")?)
}

#[test]
fn gate_crossing(rt: HostRuntime) -> Result<(), Fail> {
    let schema = schema_of(rt.alloc(), PROTOCOL)?;
    let script = script_of(rt.alloc(), &schema, RACE)?;
    let shown = crossed(&rt, &schema, &script)?;
    assert_eq!(rt; shown.as_str(), "4 4 0 true");
    Ok(())
}
