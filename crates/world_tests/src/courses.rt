//! How a run of a test goes, and what it prints.

ghost use Rattle.std.specs.Prelude.{◌≡◌, IfOk};
ghost use Rattle.ipdl_base.specs.Sound.{IsSound};
ghost use Rattle.handler_script.specs.Valid.{IsValid};

use super::laws::lawful;
use handler_script::Script;
use ipdl_base::{Schema, Side};
use std::alloc::Global;
use std::test::Fail;
use world_core::{Driver, OneThread, RunAnswer, Stop, Turn, World};

/// How a run goes: its word of turns, the greatest number of events of a side, and the death of an end.
#[derive(Drop)]
pub struct Course {
    /// The word of turns.
    pub word: Vec<Turn>,
    /// The greatest number of events of a side.
    pub limit: u32,
    /// The death of an end, if there is one.
    pub stop: Option<Stop>,
}

/// What a run prints, and how many laws hold of its history.
#[derive(Drop)]
pub struct Printout {
    /// What the run prints.
    pub text: String,
    /// How many laws hold of its history.
    pub laws: u32,
}

/// Returns the turn that a letter names.
fn turn_of(letter: char) -> Result<Turn, Fail> {
    let (side, only_deliver) = match letter {
        'P' => (Side::Parent, false),
        'C' => (Side::Child, false),
        'p' => (Side::Parent, true),
        'c' => (Side::Child, true),
        _ => return Err("no letter of a word".into()),
    };
    Ok(Turn { side, only_deliver })
}

/// Returns the turns of a word; `-` is a word without turns.
pub fn word_of(alloc: Global, letters: &str) -> Result<Vec<Turn>, Fail> {
    let mut word = Vec::new(alloc);
    if letters == "-" {
        return Ok(word);
    }
    for letter in letters.chars() {
        word.push(turn_of(letter)?)?;
    }
    Ok(word)
}

/// Returns the side that a word names.
pub fn side_of(word: &str) -> Result<Side, Fail> {
    match word {
        "parent" => Ok(Side::Parent),
        "child" => Ok(Side::Child),
        _ => Err("no side".into()),
    }
}

/// Returns the death of an end that a text spells; `-` means no death.
fn stop_of(text: &str) -> Result<Option<Stop>, Fail> {
    if text == "-" {
        return Ok(None);
    }
    let (side, after) = text.split_once(":").ok_or("a death without its count")?;
    Ok(Some(Stop {
        side: side_of(side)?,
        after: after.parse::<u32>()?,
    }))
}

/// Returns how a run goes, by its word, its limit and the death of an end.
pub fn course_of(alloc: Global, text: &str) -> Result<Course, Fail> {
    let (letters, rest) = text.split_once(" ").ok_or("a word alone")?;
    let (limit, stop) = rest.split_once(" ").ok_or("a limit without a death")?;
    Ok(Course {
        word: word_of(alloc, letters)?,
        limit: limit.parse::<u32>()?,
        stop: stop_of(stop)?,
    })
}

/// Returns the last line of what a run prints.
fn ending_of(answer: RunAnswer) -> Result<&'static str, Fail> {
    match answer {
        RunAnswer::Finished => Ok("finished\n"),
        RunAnswer::Spent(Side::Parent) => Ok("spent parent\n"),
        RunAnswer::Spent(Side::Child) => Ok("spent child\n"),
        RunAnswer::NoMemory => Err("no memory for a run".into()),
    }
}

/// Returns what a world prints whose run ended with this answer.
pub fn printed_of(
    alloc: Global,
    schema: &Schema,
    world: &World<'_>,
    ending: RunAnswer,
) -> Result<Printout, Fail>
    requires { IsSound schema.now }
{
    let lines = world.transcript(alloc)?;
    let mut text = String::from_str(alloc, str::from_utf8(lines.as_slice())?)?;
    text.push_str(ending_of(ending)?)?;
    Ok(Printout {
        text,
        laws: lawful(alloc, schema, world.history())?,
    })
}

/// Returns the world at the start of a run.
pub fn opened<'s>(
    alloc: Global,
    schema: &'s Schema,
    script: &'s Script,
    course: &Course,
) -> Result<World<'s>, Fail>
    requires sound { IsSound schema.now }
    requires valid { IsValid schema.now script.now }
    ensures schema { IfOk result (λ w. w.setting.schema ≡ schema.entry.now) }
    ensures script { IfOk result (λ w. w.setting.script ≡ script.entry.now) }
{
    if course.limit > 20_000 {
        return Err("a limit that is too large".into());
    }
    Ok(World::open(alloc, schema, script, course.stop, course.limit)?)
}

/// Returns what a run of a script prints.
pub fn printed(
    alloc: Global,
    schema: &Schema,
    script: &Script,
    course: &Course,
) -> Result<Printout, Fail>
    requires sound { IsSound schema.now }
    requires valid { IsValid schema.now script.now }
{
    let mut world = opened(alloc, schema, script, course)?;
    let ending = world.run_schedule(course.word.as_slice());
    let found = printed_of(alloc, schema, &world, ending);
    drop(world);
    found
}

/// Returns what the same run prints if a driver makes the turns of its word.
pub fn driven(
    alloc: Global,
    schema: &Schema,
    script: &Script,
    course: Course,
) -> Result<Printout, Fail>
    requires sound { IsSound schema.now }
    requires valid { IsValid schema.now script.now }
{
    let world = opened(alloc, schema, script, &course)?;
    let mut driver = OneThread::new(course.word);
    let (world, ending) = driver.drive(world);
    let found = printed_of(alloc, schema, &world, ending);
    drop(world);
    found
}
