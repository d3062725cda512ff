//! The lines that a half lends while it runs on its own.

ghost use Rattle.handler_script.specs.Valid.{IsValid};
ghost use Rattle.ipdl_base.specs.Sound.{IsSound};
ghost use Rattle.world_core.specs.Relaying.{IsApart};

use super::given::script_of;
use handler_script::Script;
use history::{History, history_text};
use history_of_text::schema_of;
use ipdl_base::Schema;
use std::alloc::Global;
use std::test::Fail;
use world_core::{Half, Halves, RunAnswer, StepAnswer, World, take_turns};

/// The parent sends a message, calls, and sends another message.
const SCRIPT: &str = "parent main
send top PW.Tell(5)
send top PW.CallC()
send top PW.Tell(6)
end
child on PW.CallC
return (20)
end
";

/// What the parent lends: nothing before its first step, more after each of its two steps, and the same
/// after it tries a third, which it does not make before its call is answered.
const STEPS: &str = "Did
parent send 1 to 2147483647 PW.Tell(5)
Did
parent send 1 to 2147483647 PW.Tell(5)
parent call 2/2 to 2147483647 PW.CallC()
Nothing
parent send 1 to 2147483647 PW.Tell(5)
parent call 2/2 to 2147483647 PW.CallC()
";

/// What the parent and the child lend after both took turns to the end.
const TURNS: &str = "parent send 1 to 2147483647 PW.Tell(5)
parent call 2/2 to 2147483647 PW.CallC()
parent deliver reply 2
parent resume 2 ok (20)
parent send 3 to 2147483647 PW.Tell(6)
----
child deliver request 1
child take 1 at 2147483647 PW.Tell(5)
child return 1
child deliver request 2
child take 2 at 2147483647 PW.CallC()
child return 2
  answer 2 ok (20)
child deliver request 3
child take 3 at 2147483647 PW.Tell(6)
child return 3
";

/// Returns the text of lines, unless memory runs out.
fn text_of(alloc: Global, schema: &Schema, lines: &History) -> Option<String>
    requires { IsSound schema.now }
{
    let text = history_text(alloc, schema, lines).ok()?;
    let text = str::from_utf8(text.as_slice()).ok()?;
    String::from_str(alloc, text).ok()
}

/// Makes a step of a half that runs on its own.
fn step(half: &mut Half<'_>) -> StepAnswer
    requires { IsApart half.old }
    ensures { IsApart half.new }
{
    half.go_on()
}

/// Returns what a half lends before its first step, and after each of three tries to step, with the
/// answer of each.
fn lent_in_steps(alloc: Global, schema: &Schema, half: &mut Half<'_>) -> Result<String, Fail>
    requires apart { IsApart half.old }
    requires sound { IsSound schema.now }
{
    let mut shown = text_of(alloc, schema, half.lines()).ok_or("no text")?;
    for _ in 0..3 {
        writeln!(shown, "{:?}", step(half))?;
        let lent = text_of(alloc, schema, half.lines()).ok_or("no text")?;
        shown.push_str(lent.as_str())?;
    }
    Ok(shown)
}

/// Returns what the parent of a run lends before its first step and after each of its first steps.
fn lent_by_parent(alloc: Global, schema: &Schema, script: &Script) -> Result<String, Fail>
    requires sound { IsSound schema.now }
    requires valid { IsValid schema.now script.now }
{
    let world = World::open(alloc, schema, script, None, 100)?;
    let (mut parent, child) = world.into_halves();
    let shown = lent_in_steps(alloc, schema, &mut parent);
    drop(parent);
    drop(child);
    shown
}

/// Returns whether these are the lines of the parent and of the child after their turns.
fn are_of_turns(alloc: Global, schema: &Schema, parent: &History, child: &History) -> bool
    requires { IsSound schema.now }
{
    let (parent_lines, child_lines) = TURNS.split_once("----\n").unwrap_or(("", ""));
    let parent_text = text_of(alloc, schema, parent);
    let child_text = text_of(alloc, schema, child);
    parent_text.is_some_and(|text| text.as_str() == parent_lines)
        && child_text.is_some_and(|text| text.as_str() == child_lines)
}

/// Returns whether both halves of a run take turns to the end, lend their lines then, and give away the
/// same lines.
fn lent_by_both(alloc: Global, schema: &Schema, script: &Script) -> Result<bool, Fail>
    requires sound { IsSound schema.now }
    requires valid { IsValid schema.now script.now }
{
    let world = World::open(alloc, schema, script, None, 100)?;
    let (mut parent, mut child) = world.into_halves();
    let ended = take_turns(&mut parent, &mut child);
    let lent = are_of_turns(alloc, schema, parent.lines(), child.lines());
    let halves = Halves {
        parent: parent.into_lines(),
        child: child.into_lines(),
    };
    let given = are_of_turns(alloc, schema, &halves.parent, &halves.child);
    Ok(ended == RunAnswer::Finished && lent && given)
}

/// Returns whether the halves of the script lend what they should, the parent in steps and both after
/// their turns.
fn lends(alloc: Global) -> Result<(bool, bool), Fail> {
    let schema = schema_of(alloc, "PW.ipdl")?;
    let script = script_of(alloc, &schema, "PW.ipdl", SCRIPT)?;
    let steps = lent_by_parent(alloc, &schema, &script)?.as_str() == STEPS;
    let turns = lent_by_both(alloc, &schema, &script)?;
    Ok((steps, turns))
}

#[test]
fn halves_lend_their_lines(rt: HostRuntime) -> Result<(), Fail> {
    let (steps, turns) = lends(rt.alloc())?;
    assert!(rt; steps);
    assert!(rt; turns);
    Ok(())
}
