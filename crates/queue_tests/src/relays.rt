//! Relays on two threads, with what each prints.

ghost use Rattle.std.specs.Prelude.{◌≤◌};
ghost use Rattle.ipdl_base.specs.Sound.{IsSound};
ghost use Rattle.handler_script.specs.Valid.{IsValid};

use super::given::{Source, script_of, source_named, stop_of, tells};
use super::printouts::printed;
use super::rows::{RELAYS, Row, row_of};
use handler_script::Script;
use history_of_text::schema_of;
use ipdl_base::Schema;
use queue_link::{Gate, TwoQueues};
use std::alloc::Global;
use std::sync::Wait;
use std::test::Fail;
use std::thread::Threads;
use world_core::{OneThread, Relay, Stop, World};

/// How often the relay of each row is run.
const RUNS_OF_ROW: u32 = 25;

/// Returns what a relay of a script prints whose sides run at the same time.
fn printed_at_once<R: Threads + Wait + Sync + AllocGlobal>(
    rt: &R,
    schema: &Schema,
    script: &Script,
    stop: Option<Stop>,
    limit: u32,
) -> Result<String, Fail>
    requires sound { IsSound schema.now }
    requires valid { IsValid schema.now script.now }
    requires small { limit ≤ 20000 }
{
    let world = World::open(rt.alloc(), schema, script, stop, limit)?;
    let (halves, answer) = TwoQueues::new(rt, Gate::Open).run_queues(world);
    printed(rt.alloc(), schema, &halves, answer)
}

/// Returns what the relay of a script on one thread prints.
fn printed_in_turn(alloc: Global, schema: &Schema, script: &Script) -> Result<String, Fail>
    requires sound { IsSound schema.now }
    requires valid { IsValid schema.now script.now }
{
    let world = World::open(alloc, schema, script, None, 20_000)?;
    let (halves, answer) = OneThread::new(Vec::new(alloc)).run_queues(world);
    printed(alloc, schema, &halves, answer)
}

/// Returns how many of this number of relays whose sides run at the same time print this text.
fn equal_relays<R: Threads + Wait + Sync + AllocGlobal>(
    rt: &R,
    schema: &Schema,
    script: &Script,
    stop: Option<Stop>,
    count: u32,
    wanted: &str,
) -> Result<u32, Fail>
    requires sound { IsSound schema.now }
    requires valid { IsValid schema.now script.now }
{
    let mut good = 0u32;
    for _ in 0..count {
        if printed_at_once(rt, schema, script, stop, 20_000)?.as_str() == wanted {
            good = good.wrapping_add(1);
        }
    }
    Ok(good)
}

/// Returns how many relays of a row print its text.
fn equal_of_row<R: Threads + Wait + Sync + AllocGlobal>(rt: &R, row: Row<'_>) -> Result<u32, Fail> {
    let source = source_named(row.script).ok_or("no such script")?;
    let stop = stop_of(row.death)?;
    let schema = schema_of(rt.alloc(), source.file)?;
    let script = script_of(rt.alloc(), &schema, source)?;
    equal_relays(rt, &schema, &script, stop, RUNS_OF_ROW, row.printed)
}

/// Returns the rows whose relay prints another text, and how many rows there are.
fn checked<R: Threads + Wait + Sync + AllocGlobal>(rt: &R) -> Result<String, Fail> {
    let mut shown = String::new(rt.alloc());
    let mut count = 0u32;
    for text in RELAYS.split("====\n") {
        let row = row_of(text).ok_or("a row without one of its parts")?;
        let good = equal_of_row(rt, row)?;
        if good != RUNS_OF_ROW {
            writeln!(shown, "{}: {good}", row.name)?;
        }
        count = count.wrapping_add(1);
    }
    write!(shown, "{count}")?;
    Ok(shown)
}

#[test]
fn relays_of_rows(rt: HostRuntime) -> Result<(), Fail> {
    assert_eq!(rt; checked(&rt)?.as_str(), "28");
    Ok(())
}

/// What a relay of two sends prints if each side may have one event.
const ONE_EVENT: &str = "parent send 1 to 2147483647 PW.Tell(5)
child deliver request 1
spent parent
";

/// The same if the child found no packet before it ended.
const NO_DELIVERY: &str = "parent send 1 to 2147483647 PW.Tell(5)
spent parent
";

/// Returns whether a relay of two sends, where each side may have one event, prints one of these.
fn is_cut<R: Threads + Wait + Sync + AllocGlobal>(rt: &R) -> Result<bool, Fail> {
    let source = source_named("tells").ok_or("no such script")?;
    let schema = schema_of(rt.alloc(), source.file)?;
    let script = script_of(rt.alloc(), &schema, source)?;
    let text = printed_at_once(rt, &schema, &script, None, 1)?;
    Ok(text.as_str() == ONE_EVENT || text.as_str() == NO_DELIVERY)
}

#[test]
fn one_event(rt: HostRuntime) -> Result<(), Fail> {
    let cut = is_cut(&rt)?;
    assert!(rt; cut);
    Ok(())
}

/// Returns how many of ten relays of a text print what the relay on one thread prints.
fn same_texts<R: Threads + Wait + Sync + AllocGlobal>(rt: &R, text: &str) -> Result<u32, Fail> {
    let file = "PW.ipdl";
    let schema = schema_of(rt.alloc(), file)?;
    let script = script_of(rt.alloc(), &schema, Source { file, text })?;
    let wanted = printed_in_turn(rt.alloc(), &schema, &script)?;
    equal_relays(rt, &schema, &script, None, 10, wanted.as_str())
}

#[test]
fn two_thousand_actions_a_side(rt: HostRuntime) -> Result<(), Fail> {
    let text = tells(rt.alloc(), 2_000)?;
    let good = same_texts(&rt, text.as_str())?;
    assert_eq!(rt; good, 10);
    Ok(())
}
