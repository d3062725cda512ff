//! What words ask about, and what a call with them prints.

use super::calls::{call_on, sink};
use super::words::words_of;
use command_words::{CommandName, Topic, topic_of};
use memory_files::MemoryFiles;
use std::alloc::Global;
use std::test::Fail;

/// Words, and what they ask about after `=>`, or nothing.
const TOPICS: &str = "help => program
--help => program
-h => program
version => version
--version => version
help compile => compile
compile --help => compile
compile -h => compile
help run => run
run --help => run
run -h => run
help frames => frames
frames --help => frames
frames -h => frames
help gen => gen
gen --help => gen
gen -h => gen
help feed => feed
feed --help => feed
feed -h => feed
help relay => relay
relay --help => relay
relay -h => relay
help audit => audit
audit --help => audit
audit -h => audit
help waits => waits
waits --help => waits
waits -h => waits
help chart => chart
chart --help => chart
chart -h => chart
help explore => explore
explore --help => explore
explore -h => explore
=>
'' =>
run =>
Help =>
--Help =>
-help =>
--h =>
-H =>
-V =>
versions =>
help help =>
help version =>
help '' =>
help x.ipdl =>
help Run =>
help -h =>
help --help =>
--help help =>
--help run =>
-h run =>
version version =>
run version =>
run --version =>
run help =>
x.ipdl --help =>
PA.ipdl -h =>
help run run =>
help run --help =>
run --help PA.ipdl =>
run PA.ids PA.ipdl --help =>
version 1 2 =>";

/// Returns the name of a command.
fn name_word(name: CommandName) -> &'static str {
    match name {
        CommandName::Compile => "compile",
        CommandName::Run => "run",
        CommandName::Frames => "frames",
        CommandName::Gen => "gen",
        CommandName::Feed => "feed",
        CommandName::Relay => "relay",
        CommandName::Audit => "audit",
        CommandName::Waits => "waits",
        CommandName::Chart => "chart",
        CommandName::Explore => "explore",
    }
}

/// Returns the word of a topic in the rows.
fn topic_word(topic: Option<Topic>) -> &'static str {
    match topic {
        None => "",
        Some(Topic::Program) => "program",
        Some(Topic::Version) => "version",
        Some(Topic::Command(name)) => name_word(name),
    }
}

/// Notes a row whose words ask about something else.
fn check(alloc: Global, row: &str, wrong: &mut String) -> Result<(), Fail> {
    let (words, wanted) = row.split_once("=>").ok_or("a row")?;
    let words = words_of(alloc, words)?;
    let found = topic_word(topic_of(words.as_slice()));
    if found != wanted.trim() {
        writeln!(wrong, "{row}: {found}")?;
    }
    Ok(())
}

/// Returns the rows whose words ask about something else, and how many rows there are.
fn checked(alloc: Global) -> Result<String, Fail> {
    let mut wrong = String::new(alloc);
    let mut count = 0u32;
    for row in TOPICS.lines() {
        check(alloc, row, &mut wrong)?;
        count = count.wrapping_add(1);
    }
    write!(wrong, "{count}")?;
    Ok(wrong)
}

#[test]
fn topics_of_words(rt: HostRuntime) -> Result<(), Fail> {
    assert_eq!(rt; checked(rt.alloc())?.as_str(), "66");
    Ok(())
}

/// How the help on each command begins, in the order of the usage text. Each begins with its words.
const FORMS: &str = "compile|[-s LIST] [--path DIRS] FILES
run|run [-s LIST] [--path DIRS] [--schedule WORD] [--limit N] [--die SIDE:K] SCRIPT FILE
frames|frames [-s LIST] [--path DIRS] [--to 2] FILE FRAMES
gen|gen [--actors A] N
feed|feed [-s LIST] [--path DIRS] [--limit N] --side SIDE SCRIPT FILE FRAMES
relay|relay [-s LIST] [--path DIRS] [--die SIDE:K] [--limit N] SCRIPT FILE
audit|audit [-s LIST] [--path DIRS] [--limit N] SCRIPT FILE TRANSCRIPT
waits|waits [-s LIST] [--path DIRS] FILE
chart|chart [-s LIST] [--path DIRS] [--schedule WORD] [--limit N] [--die SIDE:K] SCRIPT FILE
explore|explore [-s LIST] [--path DIRS] [--limit N] [--ways M] SCRIPT FILE";

/// Notes a call whose status is not 0, that writes to `err`, or whose text does not begin so.
fn check_call(alloc: Global, words: &str, begins: &str, wrong: &mut String) -> Result<(), Fail> {
    let files = MemoryFiles::new(Vec::new(alloc), Vec::new(alloc));
    let left = call_on(
        alloc,
        words,
        files,
        sink(alloc, 1000, 0)?,
        sink(alloc, 1000, 0)?,
    )?;
    if !left.says(begins.as_bytes()) {
        writeln!(wrong, "{words}")?;
    }
    Ok(())
}

/// Notes the help on a command, by each of its forms, if it does not begin with the words of the command.
fn check_form(alloc: Global, row: &str, wrong: &mut String) -> Result<(), Fail> {
    let (name, form) = row.split_once("|").ok_or("a row")?;
    let begins = format!(in alloc; "usage: ipdl {form}\n\n")?;
    for words in [
        format!(in alloc; "help {name}")?,
        format!(in alloc; "{name} --help")?,
        format!(in alloc; "{name} -h")?,
    ] {
        check_call(alloc, words.as_str(), begins.as_str(), wrong)?;
    }
    Ok(())
}

/// Returns which calls that ask for help or for the version do not print it.
fn wrong_calls(alloc: Global) -> Result<String, Fail> {
    let mut wrong = String::new(alloc);
    for words in ["help", "--help", "-h"] {
        check_call(alloc, words, "ipdl checks .ipdl files", &mut wrong)?;
    }
    for words in ["version", "--version"] {
        check_call(alloc, words, "ipdl 1.0.0\nrattle-kit-", &mut wrong)?;
    }
    for row in FORMS.lines() {
        check_form(alloc, row, &mut wrong)?;
    }
    Ok(wrong)
}

#[test]
fn calls_that_ask(rt: HostRuntime) -> Result<(), Fail> {
    assert_eq!(rt; wrong_calls(rt.alloc())?.as_str(), "");
    Ok(())
}
