//! Runs that a limit cuts.

ghost use Rattle.ipdl_base.specs.Sound.{IsSound};
ghost use Rattle.handler_script.specs.Valid.{IsValid};

use super::courses::{Course, printed, word_of};
use super::given::script_of;
use super::laws::ALL_LAWS;
use super::texts::{events_of, lines_and_ending};
use handler_script::Script;
use history_of_text::schema_of;
use ipdl_base::Schema;
use std::alloc::Global;
use std::test::Fail;
use worked_runs::{RUNS, row_named};

/// Returns the course of a run by a word, with a limit.
fn course(alloc: Global, letters: &str, limit: u32) -> Result<Course, Fail> {
    Ok(Course {
        word: word_of(alloc, letters)?,
        limit,
        stop: None,
    })
}

/// Returns whether a run with this limit ended as its lines show: it is finished with all lines of the
/// whole run, or the side that its ending names has reached the limit.
fn ends_right(lines: &str, ending: &str, whole: &str, limit: u32) -> bool {
    match ending {
        "finished\n" => lines == whole,
        "spent parent\n" => events_of("parent", lines) == limit,
        _ => events_of("child", lines) == limit,
    }
}

/// Returns whether the run by a word with a limit is a prefix of the whole run, as far as the limit
/// allows.
fn is_front(
    alloc: Global,
    schema: &Schema,
    script: &Script,
    letters: &str,
    whole: &str,
    limit: u32,
) -> Result<bool, Fail>
    requires sound { IsSound schema.now }
    requires valid { IsValid schema.now script.now }
{
    let run = printed(alloc, schema, script, &course(alloc, letters, limit)?)?;
    let (lines, ending) = lines_and_ending(run.text.as_str()).ok_or("a run without its end")?;
    let few = events_of("parent", lines) <= limit && events_of("child", lines) <= limit;
    Ok(
        run.laws == ALL_LAWS
            && few
            && whole.starts_with(lines)
            && ends_right(lines, ending, whole, limit),
    )
}

/// Returns how many of the limits from 1 to 12 cut the run by a word correctly.
fn right_limits(alloc: Global, schema: &Schema, script: &Script, letters: &str) -> Result<u32, Fail>
    requires sound { IsSound schema.now }
    requires valid { IsValid schema.now script.now }
{
    let whole = printed(alloc, schema, script, &course(alloc, letters, 100)?)?;
    let (lines, ending) = lines_and_ending(whole.text.as_str()).ok_or("a run without its end")?;
    if ending != "finished\n" || whole.laws != ALL_LAWS {
        return Ok(0);
    }
    let mut right = 0u32;
    for limit in 1..13 {
        if is_front(alloc, schema, script, letters, lines, limit)? {
            right = right.wrapping_add(1);
        }
    }
    Ok(right)
}

/// Returns the letter of a digit.
fn letter_of(digit: u32) -> char {
    match digit {
        0 => 'P',
        1 => 'C',
        2 => 'p',
        _ => 'c',
    }
}

/// Returns the word of this length with this number.
fn word_numbered(alloc: Global, length: u32, number: u32) -> Result<String, Fail> {
    let mut word = String::new(alloc);
    let mut rest = number;
    for _ in 0..length {
        word.push(letter_of(rest % 4))?;
        rest /= 4;
    }
    Ok(word)
}

/// Returns how many limits cut the runs of the first `words` words of this length correctly, over all
/// these words.
fn checked(
    alloc: Global,
    schema: &Schema,
    script: &Script,
    length: u32,
    words: u32,
) -> Result<u32, Fail>
    requires sound { IsSound schema.now }
    requires valid { IsValid schema.now script.now }
{
    let mut right = 0u32;
    for number in 0..words {
        let word = word_numbered(alloc, length, number)?;
        let found = right_limits(alloc, schema, script, word.as_str())?;
        right = right.wrapping_add(found);
    }
    Ok(right)
}

/// Returns, for each length from one to four letters, how many words there are and how many limits cut
/// their runs correctly, as text.
fn limits_of(alloc: Global, schema: &Schema, script: &Script) -> Result<String, Fail>
    requires sound { IsSound schema.now }
    requires valid { IsValid schema.now script.now }
{
    let mut shown = String::new(alloc);
    for (length, words) in [(1u32, 4u32), (2, 16), (3, 64), (4, 256)] {
        let right = checked(alloc, schema, script, length, words)?;
        writeln!(shown, "{words} {right}")?;
    }
    Ok(shown)
}

/// Returns the same for the script of two calls at once.
fn limits_under(alloc: Global, schema: &Schema) -> Result<String, Fail>
    requires { IsSound schema.now }
{
    let row = row_named(RUNS, "both-call-at-once").ok_or("no such row")?;
    let script = script_of(alloc, schema, row.file, row.script)?;
    limits_of(alloc, schema, &script)
}

/// Returns the same with the schema of these calls.
fn limits(alloc: Global) -> Result<String, Fail> {
    let schema = schema_of(alloc, "PW.ipdl")?;
    limits_under(alloc, &schema)
}

#[test]
fn limits_cut_runs(rt: HostRuntime) -> Result<(), Fail> {
    assert_eq!(rt;
        limits(rt.alloc())?.as_str(),
        "4 48\n16 192\n64 768\n256 3072\n"
    );
    Ok(())
}
