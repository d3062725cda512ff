//! What a relay prints.

ghost use Rattle.ipdl_base.specs.Sound.{IsSound};

use history::{History, history_text};
use ipdl_base::{Schema, Side};
use std::alloc::Global;
use std::test::Fail;
use world_core::{Halves, RunAnswer};

/// Returns the last line of what a relay prints.
fn ending_of(answer: RunAnswer) -> &'static str {
    match answer {
        RunAnswer::Finished => "finished",
        RunAnswer::Spent(Side::Parent) => "spent parent",
        RunAnswer::Spent(Side::Child) => "spent child",
        RunAnswer::NoMemory => "no memory",
    }
}

/// Returns the lines of one half.
fn half_text(alloc: Global, schema: &Schema, half: &History) -> Result<String, Fail>
    requires { IsSound schema.now }
{
    let lines = history_text(alloc, schema, half)?;
    Ok(String::from_str(alloc, str::from_utf8(lines.as_slice())?)?)
}

/// Returns what a relay prints: the lines of the parent, those of the child, and how it ended.
pub fn printed(
    alloc: Global,
    schema: &Schema,
    halves: &Halves,
    answer: RunAnswer,
) -> Result<String, Fail>
    requires { IsSound schema.now }
{
    let mut text = half_text(alloc, schema, &halves.parent)?;
    text.push_str(half_text(alloc, schema, &halves.child)?.as_str())?;
    writeln!(text, "{}", ending_of(answer))?;
    Ok(text)
}
