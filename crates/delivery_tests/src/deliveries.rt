//! Tests of what an end returns for packets of any bytes.
ghost use Rattle.std.specs.Prelude.{◌≡◌, ◌+◌, ◌<◌, ◌≤◌};
ghost use Rattle.ipdl_base.specs.Sound.{IsSound};

use super::checks::{bytes_of, check, digits_of};
use super::schemas::the_schema;
use channel_core::{DeliverAnswer, End, EndState, Packet};
use history::History;
use ipdl_base::{Items, Schema, Side, What};
use std::alloc::Global;
use std::test::Fail;

/// Rows `NAME: PACKETS: ANSWERS; LINES; SENT`: the packets that are delivered to the parent's end, one
/// after another, `-` for no bytes; the result of each; the lines of the end; and what it sends.
const DELIVERIES: &str =
    "a request: 4950443204000000ffffff7f0200010020000000ffffffff0000000005000000: Done; deliver -1;
two that are alike: 4950443204000000ffffff7f0200010020000000ffffffff0000000005000000 4950443204000000ffffff7f0200010020000000feffffff0000000006000000: Done Done; deliver -1, deliver -2, replaced -1, answer -1; 4950443204000000ffffff7f0300010018000000ffffffff0000000005000000
alike with one between: 4950443204000000ffffff7f0200010020000000ffffffff0000000005000000 4950443204000000ffffff7f0400010000000000feffffff0000000000000000 4950443204000000ffffff7f0200010020000000fdffffff0000000006000000: Done Done Done; deliver -1, deliver -2, deliver -3;
a constructor and its successor: 4950443204000000ffffff7f0000010000000000ffffffff0000000004000000 4950443204000000ffffff7f0000010000000000feffffff0000000008000000: Done Done; deliver -1, deliver -2;
a call: 4950443200000000ffffff7f0600010003000000ffffffffffffffff: Done; deliver -1;
only this side sends: 4950443200000000ffffff7f0800010000000000ffffffff00000000: Bad 12 11; ;
a number that is not the next: 4950443204000000ffffff7f0200010020000000feffffff0000000005000000 4950443204000000ffffff7f0200010020000000010000000000000005000000 4950443204000000ffffff7f0200010020000000ffffffff0000000005000000: Bad 20 12 Bad 20 12 Done; deliver -1;
a new id that is not the next: 4950443204000000ffffff7f0000010000000000ffffffff0000000006000000 4950443204000000ffffff7f0000010000000000ffffffff0000000008000000 4950443204000000ffffff7f0000010000000000ffffffff0000000004000000: Bad 28 13 Bad 28 13 Done; deliver -1;
a direction and a number: 4950443200000000ffffff7f0800010000000000feffffff00000000: Bad 12 11; ;
a number and a new id: 4950443204000000ffffff7f0000010000000000feffffff0000000008000000: Bad 20 12; ;
a new id and an actor: 4950443204000000ffffff7f0000010000000000ffffffff0000000008000000: Bad 28 13; ;
replies to nothing: 4950443204000000ffffff7f0300010008000000010000000000000001000000 4950443204000000ffffff7f0300010018000000010000000000000005000000 4950443204000000ffffff7f0700010009000000010000000100000001000000: Stray 1 Stray 1 Stray 1; ;
an actor of another protocol: 4950443200000000ffffff7f0000000000000000ffffffff00000000 4950443204000000ffffff7f0400010000000000ffffffff00000000ffffff7f: WrongActor 2147483647 0 WrongActor 2147483647 65540; ;
an actor that nobody knows: 49504432040000002c0000000200010020000000ffffffff0000000005000000: Done; deliver -1;
a goodbye, and more: 4950443200000000000000000000ffff000000000000000000000000 4950443204000000ffffff7f0200010020000000ffffffff0000000005000000: Done not open; goodbye;
a mark, and more: mark 4950443204000000ffffff7f0200010020000000ffffffff0000000005000000: Done not open; broken;
bytes that are too few and too many: - 4950443204000000ffffff7f0200010020000000ffffffff00000000 4950443204000000ffffff7f0200010020000000ffffffff000000000500000000: Bad 0 10 Bad 28 10 Bad 32 10; ;
the mark is not there: 0050443204000000ffffff7f0200010020000000ffffffff0000000005000000: Bad 0 15; ;";

/// The packet that a word spells.
fn packet_of(alloc: Global, word: &str) -> Result<Packet, Fail> {
    if word == "mark" {
        Ok(Packet::Broken)
    } else {
        Ok(Packet::Bytes(Items::from_vec(bytes_of(alloc, word)?)))
    }
}

fn answer_text(alloc: Global, answer: &DeliverAnswer) -> Result<String, Fail> {
    match answer {
        DeliverAnswer::Done => Ok(String::from_str(alloc, "Done")?),
        DeliverAnswer::NoMemory => Err("no memory".into()),
        DeliverAnswer::Bad(offset, rule) => Ok(format!(in alloc; "Bad {offset} {rule}")?),
        DeliverAnswer::Stray(seq) => Ok(format!(in alloc; "Stray {seq}")?),
        DeliverAnswer::WrongActor(id, number) => Ok(format!(in alloc; "WrongActor {id} {number}")?),
    }
}

/// Delivers a packet, if the end is open.
fn deliver_word(alloc: Global, end: &mut End<'_>, word: &str) -> Result<String, Fail>
    requires { end.old.end.delivered < 268435456 }
    ensures { end.new.end.delivered ≤ end.old.end.delivered + 1 }
{
    if end.state() != EndState::Open {
        return Ok(String::from_str(alloc, "not open")?);
    }
    let packet = packet_of(alloc, word)?;
    let answer = end.deliver(&packet);
    answer_text(alloc, &answer)
}

fn line_text(alloc: Global, what: &What) -> Result<String, Fail> {
    match what {
        What::DeliverRequest(seq) => Ok(format!(in alloc; "deliver {seq}")?),
        What::DeliverReply(seq) => Ok(format!(in alloc; "deliver reply {seq}")?),
        What::DeliverGoodbye => Ok(String::from_str(alloc, "goodbye")?),
        What::DeliverBroken => Ok(String::from_str(alloc, "broken")?),
        What::Replaced(seq) => Ok(format!(in alloc; "replaced {seq}")?),
        What::AnswerFault(seq, _) => Ok(format!(in alloc; "answer {seq}")?),
        _ => Ok(String::from_str(alloc, "other")?),
    }
}

/// Delivers up to three packets, one after another.
fn deliver_words(alloc: Global, end: &mut End<'_>, words: &str) -> Result<String, Fail>
    requires { end.old.end.delivered ≡ 0 }
{
    let mut left = words.split(" ");
    let mut text = String::new(alloc);
    for round in 0..3u32 {
        if let Some(word) = left.next() {
            let answer = deliver_word(alloc, end, word)?;
            if round > 0 {
                text.push_str(" ")?;
            }
            text.push_str(&answer)?;
        }
    }
    Ok(text)
}

/// The lines of an end.
fn lines_text(alloc: Global, end: &mut End<'_>) -> Result<String, Fail> {
    let mut history = History::new(alloc);
    end.drain(&mut history)?;
    let mut text = String::new(alloc);
    for line in history.lines() {
        if !text.is_empty() {
            text.push_str(", ")?;
        }
        let line = line_text(alloc, &line.what)?;
        text.push_str(&line)?;
    }
    Ok(text)
}

/// The oldest packet that an end sends, if any.
fn sent_text(alloc: Global, end: &mut End<'_>) -> Result<String, Fail> {
    match end.outgoing() {
        None => Ok(String::new(alloc)),
        Some(Packet::Broken) => Ok(String::from_str(alloc, "mark")?),
        Some(Packet::Bytes(frame)) => digits_of(alloc, frame.as_slice()),
    }
}

/// What becomes of packets that are delivered to an end.
fn end_text(alloc: Global, end: &mut End<'_>, words: &str) -> Result<String, Fail>
    requires { end.old.end.delivered ≡ 0 }
{
    let answers = deliver_words(alloc, end, words)?;
    let lines = lines_text(alloc, end)?;
    let sent = sent_text(alloc, end)?;
    Ok(format!(in alloc; "{answers}; {lines}; {sent}")?)
}

/// What becomes of the packets of a row, at a new end.
fn delivery_text(alloc: Global, schema: &Schema, words: &str) -> Result<String, Fail>
    requires { IsSound schema.now }
{
    if schema.protocol(1).is_none() {
        return Err("no top protocol".into());
    }
    let mut end = End::open(alloc, Side::Parent, schema, 1)?;
    let text = end_text(alloc, &mut end, words);
    drop(end);
    text
}

/// Makes the texts of all rows.
fn delivery_texts(alloc: Global, schema: &Schema) -> Result<String, Fail>
    requires { IsSound schema.now }
{
    let mut text = String::new(alloc);
    for row in DELIVERIES.split("\n") {
        let (name, rest) = row.split_once(": ").unwrap_or((row, ""));
        let (words, _) = rest.split_once(": ").unwrap_or((rest, ""));
        let found = delivery_text(alloc, schema, words)?;
        if !text.is_empty() {
            text.push_str("\n")?;
        }
        text.push_str(name)?;
        text.push_str(": ")?;
        text.push_str(words)?;
        text.push_str(": ")?;
        text.push_str(found.trim_end())?;
    }
    Ok(text)
}

#[test]
fn deliveries_to_an_end(rt: HostRuntime) -> Result<(), Fail> {
    let alloc = rt.alloc();
    let schema = the_schema(alloc)?;
    let found = delivery_texts(alloc, &schema)?;
    drop(schema);
    check(&rt, "deliveries", &found, DELIVERIES);
    Ok(())
}
