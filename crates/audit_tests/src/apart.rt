//! Audits of what two threads print.

ghost use Rattle.handler_script.specs.Valid.{IsValid};
ghost use Rattle.ipdl_base.specs.Sound.{IsSound};

use super::given::{schema_of, script_of};
use super::texts::found;
use handler_script::Script;
use ipdl_base::{Schema, Side};
use ipdl_top::Audit;
use std::alloc::Global;
use std::sync::Wait;
use std::test::Fail;
use std::thread::Threads;
use thread_link::{Gate, TwoThreads};
use worked_runs::RACE_SCRIPT;
use world_core::{Driver, RunAnswer, World};

/// Returns the last line of what a run prints.
pub fn ending_of(answer: RunAnswer) -> &'static str {
    match answer {
        RunAnswer::Finished => "finished\n",
        RunAnswer::Spent(Side::Parent) => "spent parent\n",
        RunAnswer::Spent(Side::Child) => "spent child\n",
        RunAnswer::NoMemory => "no memory\n",
    }
}

/// Returns what a world prints whose run ended with this answer.
fn printed_of(alloc: Global, world: &World<'_>, answer: RunAnswer) -> Result<Vec<u8>, Fail> {
    let mut text = world.transcript(alloc)?;
    text.extend_from_slice(ending_of(answer).as_bytes())?;
    Ok(text)
}

/// Returns what a run of a script prints whose sides run at the same time.
fn printed<R: Threads + Wait + Sync + AllocGlobal>(
    rt: &R,
    schema: &Schema,
    script: &Script,
    limit: u32,
) -> Result<Vec<u8>, Fail>
    requires sound { IsSound schema.now }
    requires valid { IsValid schema.now script.now }
{
    if limit > 20_000 {
        return Err("a limit that is too large".into());
    }
    let world = World::open(rt.alloc(), schema, script, None, limit)?;
    let mut driver = TwoThreads::new(rt, Gate::Open);
    let (world, answer) = driver.drive(world);
    let text = printed_of(rt.alloc(), &world, answer);
    drop(world);
    text
}

/// Audits a run whose sides run at the same time. Returns how many events it has, if it is legal.
fn legal_events<R: Threads + Wait + Sync + AllocGlobal>(
    rt: &R,
    schema: &Schema,
    script: &Script,
    limit: u32,
) -> Result<Option<u32>, Fail>
    requires sound { IsSound schema.now }
    requires valid { IsValid schema.now script.now }
{
    let text = printed(rt, schema, script, limit)?;
    Ok(
        match found(rt.alloc(), schema, script, limit, text.as_slice())? {
            Audit::Legal(events) => Some(events),
            Audit::Early(_) | Audit::NoStep(_) => None,
        },
    )
}

/// Returns how many of a hundred runs are legal and have this number of events. The number is also the
/// limit of each side, so it stops none of them.
fn legal_runs<R: Threads + Wait + Sync + AllocGlobal>(
    rt: &R,
    schema: &Schema,
    script: &Script,
    events: u32,
) -> Result<u32, Fail>
    requires sound { IsSound schema.now }
    requires valid { IsValid schema.now script.now }
{
    let mut good = 0u32;
    for _ in 0..100 {
        if legal_events(rt, schema, script, events)? == Some(events) {
            good = good.wrapping_add(1);
        }
    }
    Ok(good)
}

#[test]
fn race_is_legal(rt: HostRuntime) -> Result<(), Fail> {
    let schema = schema_of(rt.alloc(), "PW.ipdl")?;
    let script = script_of(rt.alloc(), &schema, "PW.ipdl", RACE_SCRIPT)?;
    let good = legal_runs(&rt, &schema, &script, 12)?;
    assert_eq!(rt; good, 100);
    Ok(())
}

/// Returns how many runs are legal, of ten with each limit from 1 to 5. These limits are below the
/// number of events of either side.
fn limited_runs<R: Threads + Wait + Sync + AllocGlobal>(
    rt: &R,
    schema: &Schema,
    script: &Script,
) -> Result<u32, Fail>
    requires sound { IsSound schema.now }
    requires valid { IsValid schema.now script.now }
{
    let mut good = 0u32;
    for limit in 1..6u32 {
        for _ in 0..10 {
            if legal_events(rt, schema, script, limit)?.is_some() {
                good = good.wrapping_add(1);
            }
        }
    }
    Ok(good)
}

#[test]
fn race_at_a_limit_is_legal(rt: HostRuntime) -> Result<(), Fail> {
    let schema = schema_of(rt.alloc(), "PW.ipdl")?;
    let script = script_of(rt.alloc(), &schema, "PW.ipdl", RACE_SCRIPT)?;
    let good = limited_runs(&rt, &schema, &script)?;
    assert_eq!(rt; good, 50);
    Ok(())
}

/// Returns the text of a script whose mains have two hundred actions each: in the parent, a hundred
/// times an async send and a sync one; in the child, fifty times an async send and three sync ones.
fn two_hundred_actions(alloc: Global) -> Result<String, Fail> {
    let mut text = String::new(alloc);
    writeln!(text, "parent main")?;
    for number in 0..100u32 {
        writeln!(text, "send top PW.Tell({number})\nsend top PW.CallC()")?;
    }
    writeln!(text, "end\nchild main")?;
    for _ in 0..50 {
        writeln!(text, "send top PW.Poke()\nsend top PW.CallP()")?;
        writeln!(text, "send top PW.Base()\nsend top PW.CallP()")?;
    }
    writeln!(text, "end\nparent on PW.CallP\nreturn (10)\nend")?;
    writeln!(text, "parent on PW.Poke\nsend top PW.Tell(7)\nend")?;
    writeln!(text, "child on PW.CallC\nreturn (20)\nend")?;
    Ok(text)
}

/// Each of 200 async requests has four events: 100 of the parent's main, 50 of the child's main, and 50
/// that handlers send. Each of 250 sync requests has six. No send is refused.
#[test]
fn two_hundred_actions_a_side(rt: HostRuntime) -> Result<(), Fail> {
    let schema = schema_of(rt.alloc(), "PW.ipdl")?;
    let text = two_hundred_actions(rt.alloc())?;
    let script = script_of(rt.alloc(), &schema, "PW.ipdl", text.as_str())?;
    let good = legal_runs(&rt, &schema, &script, 2_300)?;
    assert_eq!(rt; good, 100);
    Ok(())
}
