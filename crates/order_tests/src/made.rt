//! Runs of the worked scripts by other words of turns: all laws hold of them, and so do order, effects and answers.
ghost use Rattle.std.specs.Prelude.{IfOk};
ghost use Rattle.handler_script.specs.Valid.{IsValid};
ghost use Rattle.ipdl_base.specs.Sound.{IsSound};

use super::given::{note, verdict};
use handler_script::{Script, read_script};
use history_of_text::schema_of;
use ipdl_base::{Schema, Side, short_name};
use std::alloc::Global;
use std::test::Fail;
use worked_runs::{RUNS, row_of};
use world_core::{Turn, World};

/// Words of turns, each of which is tried with every script.
const WORDS: &str =
    "P C PC CP PPPPPP CCCCCC PPCCPPCC pcpcPC PpCcPpCc CcPpCcPp PPPcCCCp pPPcCCpPcC CPCPCPpcpcpc PPPPPPcccccc CCCCCCpppppp";

/// The number of the protocol with this short name.
fn number_of(schema: &Schema, name: &str) -> Result<u32, Fail> {
    let mut number = 0u32;
    for protocol in schema.protocols.as_slice() {
        if short_name(protocol.name.as_slice()) == name.as_bytes() {
            return Ok(number);
        }
        number = number.wrapping_add(1);
    }
    Err("no such protocol".into())
}

/// The script of a text, whose top is the protocol of a file.
fn script_of(alloc: Global, schema: &Schema, file: &str, text: &str) -> Result<Script, Fail>
    requires sound { IsSound schema.now }
    ensures { IfOk result (IsValid schema.now) }
{
    let (name, _) = file.split_once(".").ok_or("a file without its ending")?;
    let top = number_of(schema, name)?;
    if top as usize >= schema.protocols.len() || text.len() > 1_048_576 {
        return Err("no top, or a text that is too large".into());
    }
    Ok(
        read_script(alloc, text.as_bytes(), schema, top)
            .ok()
            .ok_or("a script that breaks a rule")?,
    )
}

/// The turn of a letter.
fn turn_of(letter: char) -> Turn {
    Turn {
        side: if letter == 'P' || letter == 'p' {
            Side::Parent
        } else {
            Side::Child
        },
        only_deliver: letter == 'p' || letter == 'c',
    }
}

/// The turns of a word.
fn word_of(alloc: Global, letters: &str) -> Result<Vec<Turn>, Fail> {
    let mut word = Vec::new(alloc);
    for letter in letters.chars() {
        word.push(turn_of(letter))?;
    }
    Ok(word)
}

/// Notes a run by a word of which some law or statement does not hold.
fn check_word(
    alloc: Global,
    schema: &Schema,
    script: &Script,
    name: &str,
    letters: &str,
    wrong: &mut String,
) -> Result<(), Fail>
    requires sound { IsSound schema.now }
    requires valid { IsValid schema.now script.now }
{
    let word = word_of(alloc, letters)?;
    let mut world = World::open(alloc, schema, script, None, 200)?;
    let _ending = world.run_schedule(word.as_slice());
    let found = verdict(alloc, schema, world.history());
    drop(world);
    Ok(note(name, found?.as_str(), "yyyyy yyy", wrong)?)
}

/// Notes the words by which a worked script makes a run that some law or statement does not hold of, and returns the number
/// of words that were tried.
fn check(alloc: Global, text: &str, wrong: &mut String) -> Result<u32, Fail> {
    let row = row_of(text).ok_or("a row of another form")?;
    let schema = schema_of(alloc, row.file)?;
    let script = script_of(alloc, &schema, row.file, row.script)?;
    let mut count = 0u32;
    for letters in WORDS.split(" ") {
        check_word(alloc, &schema, &script, row.name, letters, wrong)?;
        count = count.wrapping_add(1);
    }
    Ok(count)
}

/// Returns the runs of which some law or statement does not hold, and the number of runs.
fn checked(alloc: Global) -> Result<String, Fail> {
    let mut shown = String::new(alloc);
    let mut count = 0u32;
    for text in RUNS.split("====\n") {
        count = count.wrapping_add(check(alloc, text, &mut shown)?);
    }
    write!(shown, "{count}")?;
    Ok(shown)
}

#[test]
fn made_runs_hold(rt: HostRuntime) -> Result<(), Fail> {
    assert_eq!(rt; checked(rt.alloc())?.as_str(), "330");
    Ok(())
}
