//! Feeds of generated files: honest frames that are whole, cut, with a bit turned, left out, or
//! repeated.

ghost use Rattle.ipdl_base.specs.Sound.{IsSound};
ghost use Rattle.handler_script.specs.Valid.{IsValid};

use super::alone::is_alone;
use super::feeds::bytes_of;
use super::given::script_of;
use handler_script::Script;
use history_of_text::schema_of;
use ipdl_base::{Schema, Side};
use law_checks::{Law, holds};
use std::alloc::Global;
use std::test::Fail;
use world_core::{FeedFault, FeedResult, feed};

/// How many files are generated from each case.
const FILES: u32 = 1_000;

/// Cases: the file of a protocol; then the script of the parent; and after `----` what an honest child
/// may send, each frame with the line of its delivery and the line that has its values. `====`
/// separates two cases.
const CASES: &str = "PQ.ipdl
parent main
send top PQ.Get()
send top PQ.Get()
end
parent on PQ.Get
resolve (7)
end
----
4950443204000000ffffff7f0100000008000000010000000000000005000000: parent deliver reply 1:   settle 1 resolved (5)
4950443204000000ffffff7f0200000000000000ffffffff0000000005000000: parent deliver request -1: parent take -1 at 2147483647 PQ.Tell(5)
4950443204000000ffffff7f0100000008000000020000000000000006000000: parent deliver reply 2:   settle 2 resolved (6)
4950443200000000ffffff7f0000000000000000feffffff00000000: parent deliver request -2: parent take -2 at 2147483647 PQ.Get()
4950443200000000000000000000ffff000000000000000000000000: parent deliver goodbye: parent shut NormalShutdown
====
PW.ipdl
parent main
send top PW.CallC()
send top PW.Tell(1)
send top PW.CallC()
end
parent on PW.CallP
send top PW.CallC()
return (10)
end
----
4950443200000000ffffff7f0000000003000000ffffffff01000000: parent deliver request -1: parent take -1 at 2147483647 PW.CallP()
4950443204000000ffffff7f0700000009000000020000000100000005000000: parent deliver reply 2: parent resume 2 ok (5)
4950443204000000ffffff7f0700000009000000010000000100000006000000: parent deliver reply 1: parent resume 1 ok (6)
4950443200000000ffffff7f0200000004000000feffffff00000000: parent deliver request -2: parent take -2 at 2147483647 PW.Poke()
4950443204000000ffffff7f0700000009000000040000000400000007000000: parent deliver reply 4: parent resume 4 ok (7)
====
POwn.ipdl
parent on POwn.PTmp
send made PTmp.Hi()
send top POwn.Mark(made)
end
----
4950443204000000ffffff7f0000000000000000ffffffff0000000004000000: parent deliver request -1:   built 4 PTmp
4950443200000000040000000000010000000000feffffff00000000: parent deliver request -2: parent take -2 at 4 PTmp.Hi()
4950443204000000ffffff7f0000000000000000fdffffff0000000008000000: parent deliver request -3:   built 8 PTmp
4950443200000000040000000200010000000000fcffffff00000000: parent deliver request -4: parent take -4 at 4 PTmp.__delete__()
4950443200000000080000000000010000000000fbffffff00000000: parent deliver request -5: parent take -5 at 8 PTmp.Hi()
====
PHub.ipdl
parent on PHub.PTab
send made PTab.Get()
return (true)
end
parent on PHub.Wait
return ($1)
end
----
4950443208000000ffffff7f0000000005000000ffffffffffffffff0400000000000000: parent deliver request -1:   built 4 PTab
495044320c000000ffffff7f0c00000040000000feffffff00000000040000000200000061620000: parent deliver request -2: parent take -2 at 2147483647 PHub.Set(#4, \"ab\")
495044320800000004000000050001000800000001000000000000000100000078000000: parent deliver reply 1:   settle 1 resolved (\"x\")
4950443208000000ffffff7f0200000003000000fdfffffffdffffff0100000005000000: parent deliver request -3: parent take -3 at 2147483647 PHub.Wait(@1 5)
4950443208000000ffffff7f0400000004000000fcffffff000000000100000004000000: parent deliver request -4: parent take -4 at 2147483647 PHub.Push(some #4)";

/// The least counts of the feeds of all generated files together: files; files that keep the law of one
/// end; deliveries; values of whole frames that are printed as they were sent; files that are as the
/// child sends them; and feeds that end without a fault, or with each fault.
///
/// There are 1,000 files for each of four cases. Of twenty frames, four have a bit turned, in one word
/// of ten, and one is cut. Of twenty places, one is left out, one has its frame twice, and one has the
/// first frame after its own. Over all places and bits, about 2,700 first frames are whole and in their
/// place, and 590 files are as the child sends them, so the first five counts are far below what is
/// expected. The counts for rules 1 to 4, 7 to 9, 11 to 13 and 15 and for stray replies are below what
/// is expected if only the first frame of each file were changed; those for rules 5, 6 and 14, for
/// short bytes and for no fault, if one frame of each file were. A route or a value that is another
/// actor's takes more than one bit, so that fault has no count.
const FLOORS: &str = "4000 file
4000 lawful
4000 delivery
4000 value
300 honest
300 no fault
25 short
80 stray
25 rule 1
50 rule 2
70 rule 3
40 rule 4
5 rule 5
1 rule 6
3 rule 7
20 rule 8
3 rule 9
1 rule 11
300 rule 12
30 rule 13
4 rule 14
80 rule 15";

/// A frame of a case, as hexadecimal digits, with the line of its delivery and the line that has its values.
#[derive(Clone, Copy)]
struct FrameRow<'a> {
    digits: &'a str,
    delivery: &'a str,
    saying: &'a str,
}

/// A file that is generated from frames: its bytes; its whole frames, in order, up to the first that is
/// not whole; and whether it is as the child sends it.
#[derive(Drop)]
struct MadeFile<'a> {
    bytes: Vec<u8>,
    whole: Vec<FrameRow<'a>>,
    all_whole: bool,
    honest: bool,
}

/// Pseudorandom numbers.
#[derive(Clone, Copy)]
struct Dice {
    state: u32,
}

impl Dice {
    /// Returns a number below this one.
    fn roll(&mut self, below: u32) -> u32 {
        self.state = self
            .state
            .wrapping_mul(1_664_525)
            .wrapping_add(1_013_904_223);
        (self.state >> 9).checked_rem(below).unwrap_or(0)
    }

    /// Returns a place in a frame, more often the first byte of a word of four bytes.
    fn place(&mut self) -> usize {
        let word = self.roll(10).wrapping_mul(4);
        let byte = self.roll(2).wrapping_mul(self.roll(4));
        word.wrapping_add(byte) as usize
    }
}

/// Returns the frame that a line of a case spells.
fn frame_row(line: &str) -> Option<FrameRow<'_>> {
    let (digits, rest) = line.split_once(": ")?;
    let (delivery, saying) = rest.split_once(": ")?;
    Some(FrameRow {
        digits,
        delivery,
        saying,
    })
}

/// Appends the bytes of a frame up to a place where it is cut, or all of them with a bit of the byte at
/// that place turned.
fn push_changed(
    frame: &[u8],
    place: usize,
    bit: Option<u32>,
    out: &mut Vec<u8>,
) -> Result<(), Fail> {
    for (at, byte) in frame.iter().enumerate() {
        match bit {
            None if at == place => return Ok(()),
            Some(bit) if at == place => out.push(*byte ^ 1u8.wrapping_shl(bit))?,
            _ => out.push(*byte)?,
        }
    }
    Ok(())
}

/// Appends a frame to a file, whole, cut, or with a bit turned.
fn push_frame<'a>(
    alloc: Global,
    dice: &mut Dice,
    row: FrameRow<'a>,
    file: &mut MadeFile<'a>,
) -> Result<(), Fail> {
    let act = dice.roll(20);
    let place = dice.place();
    let bit = dice.roll(8);
    let frame = bytes_of(alloc, row.digits)?;
    if act > 4 || place >= frame.len() {
        if file.all_whole {
            file.whole.push(row)?;
        }
        file.bytes.extend_from_slice(frame.as_slice())?;
        return Ok(());
    }
    file.all_whole = false;
    file.honest = false;
    let turned = if act == 0 { None } else { Some(bit) };
    push_changed(frame.as_slice(), place, turned, &mut file.bytes)
}

/// Returns a file of a case: each of its frames once, twice or not at all, and sometimes the first one
/// after it.
fn file_of<'a>(alloc: Global, dice: &mut Dice, frames: &'a str) -> Result<MadeFile<'a>, Fail> {
    let mut file = MadeFile {
        bytes: Vec::new(alloc),
        whole: Vec::new(alloc),
        all_whole: true,
        honest: true,
    };
    let mut first = None;
    for line in frames.lines() {
        let row = frame_row(line).ok_or("a frame without its lines")?;
        let begin = first.unwrap_or(row);
        first = Some(begin);
        let act = dice.roll(20);
        if act != 0 {
            push_frame(alloc, dice, row, &mut file)?;
        }
        if act == 1 {
            push_frame(alloc, dice, row, &mut file)?;
        }
        if act == 2 {
            push_frame(alloc, dice, begin, &mut file)?;
        }
        if act < 3 {
            file.honest = false;
        }
    }
    Ok(file)
}

/// Returns whether a text has this line.
fn has_line(text: &str, wanted: &str) -> bool {
    for line in text.lines() {
        if line == wanted {
            return true;
        }
    }
    false
}

/// Notes each delivery in what a feed prints. For each frame that was whole, notes a value if the text
/// has its delivery in order and the line of its values, or else a difference.
fn note_deliveries(text: &str, whole: &[FrameRow<'_>], log: &mut String) -> Result<(), Fail> {
    let mut next = 0usize;
    for line in text.lines() {
        if line.starts_with("parent deliver ") && line != "parent deliver broken" {
            log.push_str("delivery\n")?;
            if let Some(row) = whole.get(next) {
                let same = line == row.delivery && has_line(text, row.saying);
                log.push_str(if same { "value\n" } else { "difference\n" })?;
            }
            next = next.saturating_add(1);
        }
    }
    Ok(())
}

/// Notes the fault that is kept.
fn note_fault(fault: Option<FeedFault>, log: &mut String) -> Result<(), Fail> {
    match fault {
        None => writeln!(log, "no fault")?,
        Some(FeedFault::Short(_, _)) => writeln!(log, "short")?,
        Some(FeedFault::Bad(_, rule)) => writeln!(log, "rule {rule}")?,
        Some(FeedFault::Stray(_, _)) => writeln!(log, "stray")?,
        Some(FeedFault::WrongActor(_, _)) => writeln!(log, "wrong actor")?,
    }
    Ok(())
}

/// Returns how many lines of a text are equal to this one.
fn count_of(text: &str, wanted: &str) -> u32 {
    let mut count = 0u32;
    for line in text.lines() {
        if line == wanted {
            count = count.wrapping_add(1);
        }
    }
    count
}

/// Returns the notes on the feed of a file.
fn notes_of(
    alloc: Global,
    schema: &Schema,
    fed: &FeedResult,
    file: &MadeFile<'_>,
) -> Result<String, Fail>
    requires { IsSound schema.now }
{
    let mut notes = String::from_str(alloc, "file\n")?;
    if holds(alloc, Law::Fallen, schema, &fed.history)? && is_alone(schema, fed.history.lines()) {
        notes.push_str("lawful\n")?;
    }
    let lines = fed.transcript(alloc, schema)?;
    let text = str::from_utf8(lines.as_slice())?;
    note_deliveries(text, file.whole.as_slice(), &mut notes)?;
    note_fault(fed.fault, &mut notes)?;
    if file.honest && fed.fault.is_none() && count_of(notes.as_str(), "value") == 5 {
        notes.push_str("honest\n")?;
    }
    Ok(notes)
}

/// Notes the feeds of the files of a case.
fn note_feeds(
    alloc: Global,
    schema: &Schema,
    script: &Script,
    frames: &str,
    mut dice: Dice,
    log: &mut String,
) -> Result<(), Fail>
    requires sound { IsSound schema.now }
    requires valid { IsValid schema.now script.now }
{
    for _ in 0..FILES {
        let file = file_of(alloc, &mut dice, frames)?;
        let bytes = file.bytes.as_slice();
        let fed = feed(alloc, schema, script, Side::Parent, 100, bytes)?;
        let notes = notes_of(alloc, schema, &fed, &file)?;
        log.push_str(notes.as_str())?;
        let honest = count_of(notes.as_str(), "honest");
        if file.honest && honest == 0 {
            log.push_str("difference\n")?;
        }
    }
    Ok(())
}

/// Notes the feeds of a case that a text spells. `number` starts the pseudorandom numbers.
fn note_case(alloc: Global, text: &str, number: u32, log: &mut String) -> Result<(), Fail> {
    let (file, rest) = text.split_once("\n").ok_or("a case without its script")?;
    let (script, frames) = rest
        .split_once("----\n")
        .ok_or("a case without its frames")?;
    let schema = schema_of(alloc, file)?;
    let script = script_of(alloc, &schema, file, script)?;
    let dice = Dice { state: number };
    note_feeds(alloc, &schema, &script, frames, dice, log)
}

/// Returns the notes on all feeds.
fn noted(alloc: Global) -> Result<String, Fail> {
    let mut log = String::new(alloc);
    let mut number = 0u32;
    for case in CASES.split("====\n") {
        number = number.wrapping_add(1);
        note_case(alloc, case, number, &mut log)?;
    }
    Ok(log)
}

/// Returns the counts that are below their floor, and how many differences there are.
fn missing(alloc: Global) -> Result<String, Fail> {
    let log = noted(alloc)?;
    let mut shown = String::new(alloc);
    for line in FLOORS.lines() {
        let (floor, key) = line.split_once(" ").ok_or("a floor without its key")?;
        let count = count_of(log.as_str(), key);
        if count < floor.parse::<u32>()? {
            writeln!(shown, "{key}: {count}")?;
        }
    }
    let differences = count_of(log.as_str(), "difference");
    write!(shown, "{differences}")?;
    Ok(shown)
}

#[test]
fn made_files(rt: HostRuntime) -> Result<(), Fail> {
    assert_eq!(rt; missing(rt.alloc())?.as_str(), "0");
    Ok(())
}
