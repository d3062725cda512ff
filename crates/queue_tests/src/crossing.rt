//! Relays whose sides meet at the gate before their first steps. No relay on one thread passes it.

ghost use Rattle.std.specs.Prelude.{◌≡◌};
ghost use Rattle.handler_script.specs.Valid.{IsValid};
ghost use Rattle.ipdl_base.specs.Sound.{IsSound};
ghost use Rattle.world_core.specs.WorldView.{opening_of};

use super::given::{script_of, source_named};
use super::printouts::printed;
use super::rows::row_named;
use handler_script::Script;
use history_of_text::schema_of;
use ipdl_base::{Schema, Side};
use queue_link::{Gate, MeetingPoint, TwoQueues};
use std::alloc::Global;
use std::sync::Wait;
use std::test::Fail;
use std::thread::Threads;
use world_core::{Halves, Relay, RunAnswer, World};

/// How many sides missed the other one at the gate of a relay, how many steps each side brought there,
/// and whether the relay printed its text.
#[derive(Clone, Copy)]
struct Crossing {
    missed: u64,
    parent: u64,
    child: u64,
    prints_text: bool,
}

/// Runs any relay on a world.
fn run_queues<D: Relay>(relay: &mut D, world: World<'_>) -> (Halves, RunAnswer)
    requires ready { D.ready relay.old }
    requires opening { world ≡ opening_of world.setting }
{
    relay.run_queues(world)
}

/// Returns what is seen of a relay of a script whose sides meet at the gate and which must print this
/// text.
fn crossing_of_script<R: Threads + Wait + Sync + AllocGlobal>(
    rt: &R,
    schema: &Schema,
    script: &Script,
    wanted: &str,
) -> Result<Crossing, Fail>
    requires sound { IsSound schema.now }
    requires valid { IsValid schema.now script.now }
{
    let world = World::open(rt.alloc(), schema, script, None, 10_000)?;
    let mut relay = TwoQueues::new(rt, Gate::Meeting(MeetingPoint::new()));
    let (halves, answer) = run_queues(&mut relay, world);
    let text = printed(rt.alloc(), schema, &halves, answer)?;
    let Gate::Meeting(point) = relay.gate() else {
        return Err("another gate".into());
    };
    Ok(Crossing {
        missed: point.missed(),
        parent: point.steps(Side::Parent),
        child: point.steps(Side::Child),
        prints_text: text.as_str() == wanted,
    })
}

/// Returns what is seen of the relay of a row.
fn crossing_at_row<R: Threads + Wait + Sync + AllocGlobal>(
    rt: &R,
    name: &str,
) -> Result<Crossing, Fail> {
    let row = row_named(name).ok_or("no such row")?;
    let source = source_named(row.script).ok_or("no such script")?;
    let schema = schema_of(rt.alloc(), source.file)?;
    let script = script_of(rt.alloc(), &schema, source)?;
    crossing_of_script(rt, &schema, &script, row.printed)
}

/// Each side has four steps of its own: its call, and what follows from it and from the other's call.
/// It comes to the gate at least with its call. How many of the others it makes before its worker finds
/// nothing to do depends on the threads.
#[test]
fn gate_of_the_race(rt: HostRuntime) -> Result<(), Fail> {
    let seen = crossing_at_row(&rt, "race")?;
    assert_eq!(rt; seen.missed, 0);
    assert!(rt; 1 <= seen.parent && seen.parent <= 4);
    assert!(rt; 1 <= seen.child && seen.child <= 4);
    assert!(rt; seen.prints_text);
    Ok(())
}

/// Each side does all actions of its main, three and two, and is closed then. So no packet comes to it,
/// and it comes to the gate exactly that often.
#[test]
fn gate_of_two_closes(rt: HostRuntime) -> Result<(), Fail> {
    let seen = crossing_at_row(&rt, "both-close")?;
    assert_eq!(rt; seen.missed, 0);
    assert_eq!(rt; seen.parent, 3);
    assert_eq!(rt; seen.child, 2);
    assert!(rt; seen.prints_text);
    Ok(())
}
