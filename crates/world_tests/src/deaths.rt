//! A death of each side after each number of events.

ghost use Rattle.ipdl_base.specs.Sound.{IsSound};
ghost use Rattle.handler_script.specs.Valid.{IsValid};

use super::courses::{course_of, printed};
use super::given::script_of;
use super::laws::ALL_LAWS;
use super::texts::events_of;
use handler_script::Script;
use history_of_text::schema_of;
use ipdl_base::Schema;
use std::alloc::Global;
use std::test::Fail;
use worked_runs::{RUNS, row_named};

/// Returns what is wrong with the run in which a side dies once it has `count` events: the run does not
/// end, the side dies at another event or not at all, or a law does not hold.
fn fault(
    alloc: Global,
    schema: &Schema,
    script: &Script,
    side: &str,
    count: u32,
) -> Result<&'static str, Fail>
    requires sound { IsSound schema.now }
    requires valid { IsValid schema.now script.now }
{
    let course = course_of(
        alloc,
        format!(in alloc; "PC 10000 {side}:{count}")?.as_str(),
    )?;
    let run = printed(alloc, schema, script, &course)?;
    let death = format!(in alloc; "{side} die\n")?;
    Ok(fault_of_death(run.text.as_str(), death.as_str(), side, count, run.laws))
}

/// Returns what is wrong with what a run prints in which a side dies.
fn fault_of_death(text: &str, death: &str, side: &str, count: u32, laws: u32) -> &'static str {
    let Some((before, _)) = text.split_once(death) else {
        return "no death";
    };
    if events_of(side, before) != count {
        "dead at another event"
    } else if !text.ends_with("\nfinished\n") {
        "without an end"
    } else if laws != ALL_LAWS {
        "a law that does not hold"
    } else {
        ""
    }
}

/// Notes each wrong death of a side, and how many deaths there were.
fn check(
    alloc: Global,
    schema: &Schema,
    script: &Script,
    side: &str,
    shown: &mut String,
) -> Result<(), Fail>
    requires sound { IsSound schema.now }
    requires valid { IsValid schema.now script.now }
{
    let mut tried = 0u32;
    for count in 0..16 {
        let found = fault(alloc, schema, script, side, count)?;
        if !found.is_empty() {
            writeln!(shown, "{side} {count}: {found}")?;
        }
        tried = tried.wrapping_add(1);
    }
    writeln!(shown, "{side} {tried}")?;
    Ok(())
}

/// Returns the deaths of each side in the run of a script.
fn deaths_of(alloc: Global, schema: &Schema, script: &Script) -> Result<String, Fail>
    requires sound { IsSound schema.now }
    requires valid { IsValid schema.now script.now }
{
    let mut shown = String::new(alloc);
    check(alloc, schema, script, "parent", &mut shown)?;
    check(alloc, schema, script, "child", &mut shown)?;
    Ok(shown)
}

/// Returns the deaths of each side under four nested calls.
fn deaths_under(alloc: Global, schema: &Schema) -> Result<String, Fail>
    requires { IsSound schema.now }
{
    let row = row_named(RUNS, "four-nested-calls").ok_or("no such row")?;
    let script = script_of(alloc, schema, row.file, row.script)?;
    deaths_of(alloc, schema, &script)
}

/// Returns the same with the schema of these calls.
fn deaths(alloc: Global) -> Result<String, Fail> {
    let schema = schema_of(alloc, "PW.ipdl")?;
    deaths_under(alloc, &schema)
}

#[test]
fn deaths_under_nested_calls(rt: HostRuntime) -> Result<(), Fail> {
    assert_eq!(rt; deaths(rt.alloc())?.as_str(), "parent 16\nchild 16\n");
    Ok(())
}
