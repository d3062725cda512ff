//! What a run prints, with a test of all laws.

ghost use Rattle.ipdl_base.specs.Sound.{IsSound};

use history::History;
use ipdl_base::{Schema, Side};
use law_checks::{Law, holds};
use std::alloc::{AllocError, Global};
use std::test::Fail;
use world_core::{RunAnswer, World};

/// All laws.
const LAWS: &[Law] = &[
    Law::Prefix,
    Law::Living,
    Law::Waits,
    Law::Settled,
    Law::Fallen,
];

/// Returns whether all laws hold of a history.
fn is_lawful(alloc: Global, schema: &Schema, history: &History) -> Result<bool, AllocError>
    requires { IsSound schema.now }
{
    for law in LAWS {
        if !holds(alloc, *law, schema, history)? {
            return Ok(false);
        }
    }
    Ok(true)
}

/// Returns the last line of what a run prints.
fn ending_of(answer: RunAnswer) -> &'static str {
    match answer {
        RunAnswer::Finished => "finished",
        RunAnswer::Spent(Side::Parent) => "spent parent",
        RunAnswer::Spent(Side::Child) => "spent child",
        RunAnswer::NoMemory => "no memory",
    }
}

/// Returns what the run of a world prints that ended with this answer, with a last line `unlawful` if a
/// law does not hold.
pub fn printed(
    alloc: Global,
    schema: &Schema,
    world: &World<'_>,
    answer: RunAnswer,
) -> Result<String, Fail>
    requires { IsSound schema.now }
{
    let lines = world.transcript(alloc)?;
    let mut text = String::from_str(alloc, str::from_utf8(lines.as_slice())?)?;
    writeln!(text, "{}", ending_of(answer))?;
    if !is_lawful(alloc, schema, world.history())? {
        writeln!(text, "unlawful")?;
    }
    Ok(text)
}

/// Returns how many lines of a text are equal to this one.
pub fn count_of(text: &str, wanted: &str) -> u32 {
    let mut count = 0u32;
    for line in text.lines() {
        if line == wanted {
            count = count.wrapping_add(1);
        }
    }
    count
}

/// Returns whether each side's call of the race was answered once, and the run finished.
pub fn is_run_race(text: &str) -> bool {
    count_of(text, "parent resume 1 ok (20)") == 1
        && count_of(text, "child resume -1 ok (10)") == 1
        && text.ends_with("\nfinished\n")
}
