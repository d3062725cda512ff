//! What lists of words mean.

use command_words::{Command, RunOptions, Sources, WordsFault, read_words};
use ipdl_base::{Side, key_of};
use schedules::{Stop, Turn};
use std::alloc::{AllocError, Global};
use std::test::Fail;

/// Lists of words, and after `=>` what each means: the sync list after `=`, or `none`; the folders,
/// with `:` between them; and the files. For the command that prints frames, `<-` and the file of
/// frames follow, or `<2` if it converts them. After `!` are the script, the file, the word of turns
/// after `=`, the limit and the death of a run, and after `*` those of a run that is drawn. After `&` are the script, the file, the file of frames,
/// the side and the limit of a feed. After `^` are the script, the file, the transcript and the limit
/// of an audit; after `~` the script, the file, the limit and the death of a relay; after `+` the
/// script, the file, the limit and the most ways of an exploration. `%` precedes the rounds and the
/// actors of a generated case. The meaning is empty if the words are not a command. An empty word is
/// written as two single quotes.
const ROWS: &str = "x.ipdl => none . x.ipdl
x.ipdlh => none . x.ipdlh
a.ipdl b.ipdlh c.ipdl => none . a.ipdl b.ipdlh c.ipdl
a/PX.ipdl a/b/PY.ipdl => none . a/PX.ipdl a/b/PY.ipdl
.ipdl => none . .ipdl
run.ipdl => none . run.ipdl
-s l x.ipdl => =l . x.ipdl
-sl x.ipdl => =l . x.ipdl
-s=l x.ipdl => =l . x.ipdl
--sync-msg-list l x.ipdl => =l . x.ipdl
--sync-msg-list=l x.ipdl => =l . x.ipdl
--path d x.ipdl => none d x.ipdl
--path=d:e/f x.ipdl => none d:e/f x.ipdl
x.ipdl -s l --path d => =l d x.ipdl
a.ipdl -s l b.ipdl --path=c d.ipdl => =l c a.ipdl b.ipdl d.ipdl
--path d -s l x.ipdl => =l d x.ipdl
--path d:d x.ipdl => none d:d x.ipdl
-s= x.ipdl => = . x.ipdl
-s '' x.ipdl => = . x.ipdl
--sync-msg-list= x.ipdl => = . x.ipdl
-s - x.ipdl => =- . x.ipdl
-s -- x.ipdl =>
x.ipdl -s -- =>
-s -x x.ipdl =>
-s --path=b x.ipdl =>
x.ipdl -s =>
x.ipdl --path =>
-s-x x.ipdl => =-x . x.ipdl
-s-- x.ipdl => =-- . x.ipdl
-s==v x.ipdl => ==v . x.ipdl
-s=-x x.ipdl => =-x . x.ipdl
--sync-msg-list=-x x.ipdl => =-x . x.ipdl
--sync-msg-list==v x.ipdl => ==v . x.ipdl
-s x.ipdl y.ipdl => =x.ipdl . y.ipdl
-s run x.ipdl => =run . x.ipdl
-s x.ipdl =>
-s l -s l x.ipdl =>
-s l --sync-msg-list l x.ipdl =>
--sync-msg-list=l x.ipdl -sl =>
--path d x.ipdl --path d =>
--path=d --path=e x.ipdl =>
-- x.ipdl => none . x.ipdl
x.ipdl -- => none . x.ipdl
-- -x.ipdl => none . -x.ipdl
-s l -- --path.ipdl => =l . --path.ipdl
x.ipdl -- -- y.ipdl =>
-- x.ipdl -s l =>
-- --path=d x.ipdl =>
-- =>
-h =>
--help =>
-V x.ipdl =>
--version =>
-1 x.ipdl =>
-x.ipdl =>
--x.ipdl =>
--pat=d x.ipdl =>
--paths=d x.ipdl =>
-p d x.ipdl =>
-path d x.ipdl =>
--s=l x.ipdl =>
--limit 3 PA.ipdl =>
--schedule PC PA.ipdl =>
-é x.ipdl =>
-sé =>
-sé x.ipdl => =é . x.ipdl
 =>
'' =>
x.ipdl '' =>
x.txt =>
x.ipdl y.txt =>
x.ipdl y.IPDL =>
x =>
x.ipdlhh =>
- =>
help =>
run a =>
run x.ipdl =>
frames x.ipdl =>
frames =>
frames x.ipdl f => none . x.ipdl <- f
frames -s l x.ipdl f => =l . x.ipdl <- f
frames x.ipdl -sl --path d:e f => =l d:e x.ipdl <- f
frames x.ipdl f --to 2 => none . x.ipdl <2 f
frames --to=2 x.ipdl f => none . x.ipdl <2 f
frames --to 02 x.ipdl f => none . x.ipdl <2 f
frames --to=0002 x.ipdl f => none . x.ipdl <2 f
frames --to 1 x.ipdl f =>
frames --to 3 x.ipdl f =>
frames --to 20 x.ipdl f =>
frames --to 22 x.ipdl f =>
frames --to 12 x.ipdl f =>
frames --to +2 x.ipdl f =>
frames --to= x.ipdl f =>
frames --to '' x.ipdl f =>
frames --to two x.ipdl f =>
frames --to=-2 x.ipdl f =>
frames --to 2 --to 2 x.ipdl f =>
frames --to x.ipdl f =>
frames x.ipdl f --to =>
frames x.ipdl f g =>
frames x.ipdlh f =>
frames f x.ipdl =>
frames f.ipdl x.ipdl => none . f.ipdl <- x.ipdl
frames x.ipdl x.ipdl => none . x.ipdl <- x.ipdl
frames x.ipdl '' => none . x.ipdl <- 
frames '' f =>
frames -- x.ipdl -f => none . x.ipdl <- -f
frames x.ipdl -- --to => none . x.ipdl <- --to
frames x.ipdl -f =>
frames x.ipdl - => none . x.ipdl <- -
frames frames frames =>
frames frames.ipdl frames => none . frames.ipdl <- frames
frames --limit 3 x.ipdl f =>
frames --path a::b x.ipdl f =>
frames -t 2 x.ipdl f =>
-s l frames x.ipdl f =>
--to 2 frames x.ipdl f =>
--to 2 x.ipdl =>
x.ipdl --to 2 =>
-s l frames x.ipdl =>
gen x.ipdl =>
feed x.ipdl =>
feed --side parent s.ids x.ipdl f => none . & s.ids x.ipdl f parent 10000
feed s.ids x.ipdl f --side=child => none . & s.ids x.ipdl f child 10000
feed -sl --path d:e --limit 7 --side child s.ids x.ipdl f => =l d:e & s.ids x.ipdl f child 7
feed s.ids --limit=20000 x.ipdl --side parent -- -f => none . & s.ids x.ipdl -f parent 20000
feed s.ids x.ipdl f =>
feed --side s.ids x.ipdl f =>
feed --side Parent s.ids x.ipdl f =>
feed --side= s.ids x.ipdl f =>
feed --side parent: s.ids x.ipdl f =>
feed --side parent --side parent s.ids x.ipdl f =>
feed --side parent --side child s.ids x.ipdl f =>
feed --side parent s.ids x.ipdl =>
feed --side parent s.ids x.ipdl f g =>
feed --side parent s.ids f x.ipdl =>
feed --side parent s.ids x.ipdlh f =>
feed --side parent --limit 0 s.ids x.ipdl f =>
feed --side parent --limit 20001 s.ids x.ipdl f =>
feed --side parent --die child:3 s.ids x.ipdl f =>
feed --side parent --schedule PC s.ids x.ipdl f =>
feed --side parent --path a::b s.ids x.ipdl f =>
feed --side parent -s l -s m s.ids x.ipdl f =>
feed feed feed.ipdl feed --side child => none . & feed feed.ipdl feed child 10000
--side parent feed s.ids x.ipdl f =>
relay x.ipdl =>
relay s.ids x.ipdl => none . ~ s.ids x.ipdl 10000 -
relay -sl s.ids --path d:e x.ipdl => =l d:e ~ s.ids x.ipdl 10000 -
relay --limit 7 --die=child:3 s.ids x.ipdl => none . ~ s.ids x.ipdl 7 child:3
relay s.ids x.ipdl --die parent:0 -- => none . ~ s.ids x.ipdl 10000 parent:0
relay -- -s x.ipdl => none . ~ -s x.ipdl 10000 -
relay s.ids =>
relay s.ids x.ipdl t =>
relay x.ipdl s.ids =>
relay s.ids x.ipdlh =>
relay --limit 0 s.ids x.ipdl =>
relay --die child:20001 s.ids x.ipdl =>
relay --die both:1 s.ids x.ipdl =>
relay --schedule PC s.ids x.ipdl =>
relay --side parent s.ids x.ipdl =>
relay relay relay.ipdl => none . ~ relay relay.ipdl 10000 -
--limit 1 relay s.ids x.ipdl =>
audit x.ipdl =>
audit s.ids x.ipdl t => none . ^ s.ids x.ipdl t 10000
audit -sl --path d:e --limit 7 s.ids x.ipdl t => =l d:e ^ s.ids x.ipdl t 7
audit s.ids --limit=20000 x.ipdl -- -t => none . ^ s.ids x.ipdl -t 20000
audit s.ids x.ipdl =>
audit s.ids x.ipdl t u =>
audit s.ids t x.ipdl =>
audit s.ids x.ipdlh t =>
audit --limit 0 s.ids x.ipdl t =>
audit --limit 20001 s.ids x.ipdl t =>
audit --limit 1 --limit 1 s.ids x.ipdl t =>
audit --die child:3 s.ids x.ipdl t =>
audit --schedule PC s.ids x.ipdl t =>
audit --side parent s.ids x.ipdl t =>
audit audit audit.ipdl audit => none . ^ audit audit.ipdl audit 10000
--limit 1 audit s.ids x.ipdl t =>
waits x.ipdl => none . ? x.ipdl
waits =>
waits -s l x.ipdl => =l . ? x.ipdl
waits x.ipdl -sl --path d:e => =l d:e ? x.ipdl
waits x.ipdl y.ipdl =>
waits x.ipdlh =>
waits x.ipdl x.ipdl =>
waits waits =>
waits waits.ipdl => none . ? waits.ipdl
waits .ipdl => none . ? .ipdl
waits -- x.ipdl => none . ? x.ipdl
waits -x.ipdl =>
waits -- -x.ipdl => none . ? -x.ipdl
waits --to 2 x.ipdl =>
waits --path a::b x.ipdl =>
waits -s l -s m x.ipdl =>
-s l waits x.ipdl =>
run script.ids PA.ipdl => none . ! script.ids PA.ipdl - 10000 -
frames PA.ipdl f.bin => none . PA.ipdl <- f.bin
run s.ids x.ipdl => none . ! s.ids x.ipdl - 10000 -
run -sl s.ids --path d:e x.ipdl => =l d:e ! s.ids x.ipdl - 10000 -
run --schedule PCpc s.ids x.ipdl => none . ! s.ids x.ipdl =PCpc 10000 -
run s.ids x.ipdl --schedule=PC => none . ! s.ids x.ipdl =PC 10000 -
run --schedule= s.ids x.ipdl => none . ! s.ids x.ipdl = 10000 -
run --schedule '' s.ids x.ipdl => none . ! s.ids x.ipdl = 10000 -
run --schedule PX s.ids x.ipdl =>
run --schedule P,C s.ids x.ipdl =>
run --schedule P C s.ids x.ipdl =>
run --schedule P --schedule P s.ids x.ipdl =>
run --limit 1 s.ids x.ipdl => none . ! s.ids x.ipdl - 1 -
run --limit 20000 s.ids x.ipdl => none . ! s.ids x.ipdl - 20000 -
run --limit=0007 s.ids x.ipdl => none . ! s.ids x.ipdl - 7 -
run --limit 0 s.ids x.ipdl =>
run --limit 20001 s.ids x.ipdl =>
run --limit +7 s.ids x.ipdl =>
run --limit=-7 s.ids x.ipdl =>
run --limit 7a s.ids x.ipdl =>
run --limit= s.ids x.ipdl =>
run --limit 4294967303 s.ids x.ipdl =>
run --limit 18446744073709551623 s.ids x.ipdl =>
run --die child:9 s.ids x.ipdl => none . ! s.ids x.ipdl - 10000 child:9
run --die parent:0 s.ids x.ipdl => none . ! s.ids x.ipdl - 10000 parent:0
run --die=parent:020000 s.ids x.ipdl => none . ! s.ids x.ipdl - 10000 parent:20000
run --die parent:20001 s.ids x.ipdl =>
run --die child: s.ids x.ipdl =>
run --die child s.ids x.ipdl =>
run --die :9 s.ids x.ipdl =>
run --die Child:9 s.ids x.ipdl =>
run --die child:+9 s.ids x.ipdl =>
run --die child:9: s.ids x.ipdl =>
run --die child:1 --die parent:1 s.ids x.ipdl =>
run s.ids x.ipdlh =>
run x.ipdl s.ids =>
run s.ids x.ipdl y =>
run -- s.ids x.ipdl => none . ! s.ids x.ipdl - 10000 -
run -s.ids x.ipdl =>
run run run.ipdl => none . ! run run.ipdl - 10000 -
run --to 2 s.ids x.ipdl =>
-s l run s.ids x.ipdl =>
chart s.ids x.ipdl => none . * s.ids x.ipdl - 10000 -
chart -sl s.ids --path d:e --schedule PCpc --limit 7 --die child:9 x.ipdl => =l d:e * s.ids x.ipdl =PCpc 7 child:9
chart s.ids x.ipdl --schedule=PC => none . * s.ids x.ipdl =PC 10000 -
chart =>
chart s.ids =>
chart x.ipdl =>
chart s.ids x.ipdlh =>
chart s.ids x.ipdl y =>
chart --to 2 s.ids x.ipdl =>
chart --schedule PX s.ids x.ipdl =>
chart --limit 0 s.ids x.ipdl =>
chart --die child s.ids x.ipdl =>
chart chart chart.ipdl => none . * chart chart.ipdl - 10000 -
chart.ipdl => none . chart.ipdl
-s l chart s.ids x.ipdl =>
explore s.ids x.ipdl => none . + s.ids x.ipdl 10000 1000
explore -sl s.ids --path d:e --limit 7 --ways 9 x.ipdl => =l d:e + s.ids x.ipdl 7 9
explore --ways 1 s.ids x.ipdl => none . + s.ids x.ipdl 10000 1
explore --ways 10000 s.ids x.ipdl => none . + s.ids x.ipdl 10000 10000
explore s.ids x.ipdl --ways=0008 => none . + s.ids x.ipdl 10000 8
explore --ways 0 s.ids x.ipdl =>
explore --ways 10001 s.ids x.ipdl =>
explore --ways +8 s.ids x.ipdl =>
explore --ways= s.ids x.ipdl =>
explore --ways 4294967304 s.ids x.ipdl =>
explore --ways 8 --ways 8 s.ids x.ipdl =>
explore s.ids x.ipdl --ways =>
explore --limit 0 s.ids x.ipdl =>
explore --limit 20001 s.ids x.ipdl =>
explore --die child:9 s.ids x.ipdl =>
explore --schedule PC s.ids x.ipdl =>
explore --to 2 s.ids x.ipdl =>
explore =>
explore s.ids =>
explore x.ipdl =>
explore s.ids x.ipdlh =>
explore s.ids x.ipdl y =>
explore explore explore.ipdl => none . + explore explore.ipdl 10000 1000
explore.ipdl => none . explore.ipdl
-s l explore s.ids x.ipdl =>
run --ways 8 s.ids x.ipdl =>
gen 1 => % 1 4
gen 1000 => % 1000 4
gen 007 => % 7 4
gen --actors 1 1 => % 1 1
gen --actors=100 20 => % 20 100
gen 20 --actors 0030 => % 20 30
gen -- 1 => % 1 4
gen 0 =>
gen 1001 =>
gen +1 =>
gen -1 =>
gen -- -1 =>
gen 1a =>
gen '' =>
gen 4294967297 =>
gen 1 2 =>
gen =>
gen --actors 0 1 =>
gen --actors 101 1 =>
gen --actors +4 1 =>
gen --actors= 1 =>
gen --actors 4294967300 1 =>
gen --actors 1 --actors 1 1 =>
gen --actors 1 =>
gen 1 --actors =>
gen -a 1 1 =>
gen --limit 3 1 =>
gen --path d 1 =>
gen -s l 1 =>
gen gen =>
-s l gen 1 =>
gen.ipdl => none . gen.ipdl
a/PX.ipdl b/PX.ipdl =>
PX.ipdl ./PX.ipdl =>
PD.ipdl PD.ipdl => none . PD.ipdl
a.ipdl b.ipdl a.ipdl c.ipdl b.ipdl => none . a.ipdl b.ipdl c.ipdl
PX.ipdl PX.ipdlh => none . PX.ipdl PX.ipdlh
a/PX.ipdl a/PX.ipdl => none . a/PX.ipdl
--path '' x.ipdl =>
--path= x.ipdl =>
--path : x.ipdl =>
--path a: x.ipdl =>
--path :a x.ipdl =>
--path a::b x.ipdl =>
--path - x.ipdl => none - x.ipdl
--path -a x.ipdl =>
--path=-a x.ipdl => none -a x.ipdl
";

/// Appends the words, separated by a mark.
fn push_joined(line: &mut String, words: &[String], mark: &str) -> Result<(), AllocError> {
    for (i, word) in words.iter().enumerate() {
        if i > 0 {
            line.push_str(mark)?;
        }
        line.push_str(word.as_str())?;
    }
    Ok(())
}

/// Appends a sync list and folders, in the form of the rows.
fn push_shared(
    line: &mut String,
    list: &Option<String>,
    path: &[String],
) -> Result<(), AllocError> {
    match list {
        Some(list) => write!(line, "={list} ")?,
        None => line.push_str("none ")?,
    }
    push_joined(line, path, ":")?;
    line.push_str(" ")
}

/// Appends the letters of turns after `=`, or `-` if no turns are given.
fn push_schedule(line: &mut String, schedule: &Option<Vec<Turn>>) -> Result<(), AllocError> {
    let Some(turns) = schedule else {
        return line.push_str("-");
    };
    line.push_str("=")?;
    for turn in turns {
        line.push_str(letter_of(turn))?;
    }
    Ok(())
}

/// Returns the letter of a turn.
fn letter_of(turn: &Turn) -> &'static str {
    match (turn.side, turn.only_deliver) {
        (Side::Parent, false) => "P",
        (Side::Child, false) => "C",
        (Side::Parent, true) => "p",
        (Side::Child, true) => "c",
    }
}

/// Appends the death of an end, or `-` if no death is given.
fn push_death(line: &mut String, death: &Option<Stop>) -> Result<(), AllocError> {
    match death {
        None => line.push_str("-"),
        Some(
            Stop {
                side: Side::Parent,
                after,
            },
        ) => write!(line, "parent:{after}"),
        Some(
            Stop {
                side: Side::Child,
                after,
            },
        ) => write!(line, "child:{after}"),
    }
}

/// Returns the word of a side.
fn side_word(side: Side) -> &'static str {
    match side {
        Side::Parent => "parent",
        Side::Child => "child",
    }
}

/// Appends the sync list and the folders of a command, in the form of the rows.
fn push_sources(line: &mut String, sources: &Sources) -> Result<(), AllocError> {
    push_shared(line, &sources.list, sources.path.as_slice())
}

/// Appends a command that runs a script, in the form of the rows, with its mark.
fn push_run(
    line: &mut String,
    mark: &str,
    sources: &Sources,
    options: &RunOptions,
) -> Result<(), AllocError> {
    push_sources(line, sources)?;
    let script = options.script.as_str();
    let file = sources.file.as_str();
    let limit = options.limit;
    write!(line, "{mark} {script} {file} ")?;
    push_schedule(line, &options.schedule)?;
    write!(line, " {limit} ")?;
    push_death(line, &options.death)
}

/// Appends a command, in the form of the rows.
fn push_command(line: &mut String, command: &Command) -> Result<(), AllocError> {
    match command {
        Command::Compile { list, path, files } => {
            push_shared(line, list, path.as_slice())?;
            push_joined(line, files.as_slice(), " ")
        }
        Command::Frames(sources, options) => {
            push_sources(line, sources)?;
            let file = sources.file.as_str();
            let mark = if options.convert { "<2" } else { "<-" };
            let frames = options.frames.as_str();
            write!(line, "{file} {mark} {frames}")
        }
        Command::Waits(sources) => {
            push_sources(line, sources)?;
            let file = sources.file.as_str();
            write!(line, "? {file}")
        }
        Command::Run(sources, options) => push_run(line, "!", sources, options),
        Command::Gen { rounds, actors } => write!(line, "% {rounds} {actors}"),
        Command::Feed(sources, options) => {
            push_sources(line, sources)?;
            let script = options.script.as_str();
            let file = sources.file.as_str();
            let frames = options.frames.as_str();
            let word = side_word(options.side);
            let limit = options.limit;
            write!(line, "& {script} {file} {frames} {word} {limit}")
        }
        Command::Audit(sources, options) => {
            push_sources(line, sources)?;
            let script = options.script.as_str();
            let file = sources.file.as_str();
            let transcript = options.transcript.as_str();
            let limit = options.limit;
            write!(line, "^ {script} {file} {transcript} {limit}")
        }
        Command::Relay(sources, options) => {
            push_sources(line, sources)?;
            let script = options.script.as_str();
            let file = sources.file.as_str();
            let limit = options.limit;
            write!(line, "~ {script} {file} {limit} ")?;
            push_death(line, &options.death)
        }
        Command::Chart(sources, options) => push_run(line, "*", sources, options),
        Command::Explore(sources, options) => {
            push_sources(line, sources)?;
            let script = options.script.as_str();
            let file = sources.file.as_str();
            let limit = options.limit;
            let ways = options.ways;
            write!(line, "+ {script} {file} {limit} {ways}")
        }
    }
}

/// Returns what the words mean, in the form of the rows.
fn shown(alloc: Global, words: &[String]) -> Result<String, WordsFault> {
    let mut line = String::new(alloc);
    match read_words(alloc, words) {
        Ok(command) => push_command(&mut line, &command)?,
        Err(WordsFault::Usage) => {}
        Err(WordsFault::NoMemory) => return Err(WordsFault::NoMemory),
    }
    Ok(line)
}

/// Returns the words of a row.
pub fn words_of(alloc: Global, row: &str) -> Result<Vec<String>, AllocError> {
    let mut words = Vec::new(alloc);
    for word in row.split(' ') {
        if word == "''" {
            words.push(String::new(alloc))?;
        } else if !word.is_empty() {
            words.push(String::from_str(alloc, word)?)?;
        }
    }
    Ok(words)
}

/// Notes a row whose words mean something else.
fn check(alloc: Global, row: &str, wrong: &mut String) -> Result<(), Fail> {
    let (words, wanted) = row.split_once("=>").ok_or("a row")?;
    let words = words_of(alloc, words)?;
    let line = shown(alloc, words.as_slice())?;
    if line.as_str().trim_end() != wanted.trim() {
        writeln!(wrong, "{row}: {line}")?;
    }
    Ok(())
}

/// Returns the rows whose words mean something else, and how many rows there are.
fn checked(alloc: Global) -> Result<String, Fail> {
    let mut shown = String::new(alloc);
    let mut count = 0u32;
    for row in ROWS.lines() {
        check(alloc, row, &mut shown)?;
        count = count.wrapping_add(1);
    }
    write!(shown, "{count}")?;
    Ok(shown)
}

#[test]
fn lists_of_words(rt: HostRuntime) -> Result<(), Fail> {
    assert_eq!(rt; checked(rt.alloc())?.as_str(), "326");
    Ok(())
}

/// Returns this many different files.
fn many(alloc: Global, count: usize) -> Result<Vec<String>, AllocError> {
    let mut words = Vec::new(alloc);
    for i in 0..count {
        words.push(format!(in alloc; "d/P{i}.ipdl")?)?;
    }
    Ok(words)
}

/// Returns words with a file and this many folders.
fn far(alloc: Global, count: usize) -> Result<Vec<String>, AllocError> {
    let mut words = words_of(alloc, "x.ipdl --path")?;
    let mut dirs = String::new(alloc);
    for i in 0..count {
        if i > 0 {
            dirs.push_str(":")?;
        }
        dirs.push_str("d")?;
    }
    words.push(dirs)?;
    Ok(words)
}

/// Returns how many files the words name, if they are a command that compiles, or else `None`.
fn file_count(alloc: Global, words: &[String]) -> Option<usize> {
    match read_words(alloc, words) {
        Ok(Command::Compile { files, .. }) => Some(files.len()),
        _ => None,
    }
}

/// Returns how many files a command with this many names has.
fn count_of_files(alloc: Global, count: usize) -> Result<Option<usize>, AllocError> {
    Ok(file_count(alloc, many(alloc, count)?.as_slice()))
}

/// Returns the same if one of them is named twice.
fn count_with_repeated(alloc: Global, count: usize) -> Result<Option<usize>, AllocError> {
    let mut words = many(alloc, count)?;
    words.push(String::from_str(alloc, "d/P7.ipdl")?)?;
    Ok(file_count(alloc, words.as_slice()))
}

/// Returns how many files a command with this many folders names.
fn count_with_folders(alloc: Global, count: usize) -> Result<Option<usize>, AllocError> {
    Ok(file_count(alloc, far(alloc, count)?.as_slice()))
}

#[test]
fn limits_of_words(rt: HostRuntime) -> Result<(), Fail> {
    let alloc = rt.alloc();
    assert_eq!(rt; count_with_repeated(alloc, 4096)?, Some(4096));
    assert_eq!(rt; count_of_files(alloc, 4097)?, None);
    assert_eq!(rt; count_with_folders(alloc, 64)?, Some(1));
    assert_eq!(rt; count_with_folders(alloc, 65)?, None);
    assert!(rt; key_of(b"a/b/PX.ipdl") == b"PX.ipdl".as_slice());
    assert!(rt; key_of(b"PX.ipdl") == b"PX.ipdl".as_slice());
    Ok(())
}
