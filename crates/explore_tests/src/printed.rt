//! What the words of ways print, and which ways have the lines of a text.

ghost use Rattle.handler_script.specs.Valid.{IsValid};
ghost use Rattle.ipdl_base.specs.Sound.{IsSound};

use explorations::{Exploration, Way};
use handler_script::Script;
use ipdl_base::{Schema, Side};
use std::alloc::{AllocError, Global};
use std::test::Fail;
use world_core::{RunAnswer, World};

/// Returns whether a run ended as a way says.
fn ends_so(answer: RunAnswer, spent: Option<Side>) -> bool {
    match answer {
        RunAnswer::Finished => spent.is_none(),
        RunAnswer::Spent(side) => spent == Some(side),
        RunAnswer::NoMemory => false,
    }
}

/// Returns the transcript of the run by the word of a way, or an empty text if the run does not end as the way says.
pub fn printed(
    alloc: Global,
    schema: &Schema,
    script: &Script,
    limit: u32,
    way: &Way,
) -> Result<Vec<u8>, Fail>
    requires sound { IsSound schema.now }
    requires valid { IsValid schema.now script.now }
{
    if limit > 20_000 {
        return Err("a limit that is too large".into());
    }
    let mut world = World::open(alloc, schema, script, None, limit)?;
    let answer = world.run_schedule(way.word.as_slice());
    let text = world.transcript(alloc);
    drop(world);
    let mut text = text?;
    if !ends_so(answer, way.spent) {
        text.clear();
    }
    Ok(text)
}

/// Returns the lines of one side in a transcript, each with its effects, by the word of the side with its blank.
fn lines_of(alloc: Global, text: &str, word: &str) -> Result<String, AllocError> {
    let mut lines = String::new(alloc);
    let mut is_own = false;
    for line in text.lines() {
        if !line.starts_with("  ") {
            is_own = line.starts_with(word);
        }
        if is_own {
            lines.push_str(line)?;
            lines.push('\n')?;
        }
    }
    Ok(lines)
}

/// Returns whether two transcripts have the same lines of one side.
fn agree_on(alloc: Global, one: &str, other: &str, word: &str) -> Result<bool, AllocError> {
    let one = lines_of(alloc, one, word)?;
    let other = lines_of(alloc, other, word)?;
    Ok(one.as_str() == other.as_str())
}

/// Returns whether two transcripts have the same lines of each side.
fn are_one_way(alloc: Global, one: &str, other: &str) -> Result<bool, AllocError> {
    Ok(agree_on(alloc, one, other, "parent ")? && agree_on(alloc, one, other, "child ")?)
}

/// Returns the last line of a run that ends as a way says.
fn ending_of(spent: Option<Side>) -> &'static str {
    match spent {
        None => "finished\n",
        Some(Side::Parent) => "spent parent\n",
        Some(Side::Child) => "spent child\n",
    }
}

/// Returns how many ways of an exploration have the lines of each side of this text, and its ending.
pub fn count_alike(
    alloc: Global,
    schema: &Schema,
    script: &Script,
    limit: u32,
    found: &Exploration,
    wanted: &str,
) -> Result<u32, Fail>
    requires sound { IsSound schema.now }
    requires valid { IsValid schema.now script.now }
{
    let mut count = 0u32;
    for way in found.ways.as_slice() {
        let text = printed(alloc, schema, script, limit, way)?;
        let text = str::from_utf8(text.as_slice())?;
        if wanted.ends_with(ending_of(way.spent)) && are_one_way(alloc, text, wanted)? {
            count = count.wrapping_add(1);
        }
    }
    Ok(count)
}
