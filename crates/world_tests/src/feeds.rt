//! Worked feeds, and frames that an end refuses.

ghost use Rattle.ipdl_base.specs.Sound.{IsSound};
ghost use Rattle.handler_script.specs.Valid.{IsValid};

use super::courses::side_of;
use super::feed_rows::{FEEDS, REFUSED};
use super::given::script_of;
use handler_script::Script;
use history_of_text::schema_of;
use ipdl_base::{Schema, Side};
use law_checks::{Law, holds};
use std::alloc::Global;
use std::test::Fail;
use world_core::{FeedFault, FeedResult, feed};

/// The input of a feed: bytes, as hexadecimal digits, the side of its end, and the greatest number of
/// its events.
#[derive(Clone, Copy)]
struct Food<'a> {
    side: Side,
    limit: u32,
    digits: &'a str,
}

/// Returns the bytes that pairs of hexadecimal digits spell. Ignores other characters.
pub fn bytes_of(alloc: Global, digits: &str) -> Result<Vec<u8>, Fail> {
    let mut bytes = Vec::new(alloc);
    let mut high = None;
    for c in digits.chars() {
        if let Some(digit) = c.to_digit(16) {
            let digit = u8::try_from(digit)?;
            match high {
                None => high = Some(digit),
                Some(first) => {
                    bytes.push((first & 15) << 4 | (digit & 15))?;
                    high = None;
                }
            }
        }
    }
    Ok(bytes)
}

/// Returns the last line of what a feed prints.
fn ending_of(fed: &FeedResult, side: Side) -> &'static str {
    match (fed.spent, side) {
        (false, _) => "finished\n",
        (true, Side::Parent) => "spent parent\n",
        (true, Side::Child) => "spent child\n",
    }
}

/// Appends the fault that is kept.
fn push_fault(fault: Option<FeedFault>, out: &mut String) -> Result<(), Fail> {
    match fault {
        None => write!(out, "-")?,
        Some(FeedFault::Short(place, missing)) => write!(out, "Short {place} {missing}")?,
        Some(FeedFault::Bad(place, rule)) => write!(out, "Bad {place} {rule}")?,
        Some(FeedFault::Stray(place, number)) => write!(out, "Stray {place} {number}")?,
        Some(FeedFault::WrongActor(place, id)) => write!(out, "WrongActor {place} {id}")?,
    }
    Ok(())
}

/// Returns what a feed prints, and the fault that is kept.
fn fed_text(alloc: Global, schema: &Schema, fed: &FeedResult, side: Side) -> Result<String, Fail>
    requires { IsSound schema.now }
{
    if !holds(alloc, Law::Fallen, schema, &fed.history)? {
        return Ok(String::from_str(alloc, "a law that does not hold")?);
    }
    let lines = fed.transcript(alloc, schema)?;
    let mut text = String::from_str(alloc, str::from_utf8(lines.as_slice())?)?;
    text.push_str(ending_of(fed, side))?;
    push_fault(fed.fault, &mut text)?;
    Ok(text)
}

/// Returns what the feed of an end prints.
fn fed_by(alloc: Global, schema: &Schema, script: &Script, food: Food<'_>) -> Result<String, Fail>
    requires sound { IsSound schema.now }
    requires valid { IsValid schema.now script.now }
{
    if food.limit > 20_000 {
        return Err("a limit that is too large".into());
    }
    let bytes = bytes_of(alloc, food.digits)?;
    let fed = feed(
        alloc,
        schema,
        script,
        food.side,
        food.limit,
        bytes.as_slice(),
    )?;
    fed_text(alloc, schema, &fed, food.side)
}

/// Returns what a feed prints with the schema of a file and the script of a text.
fn printed(alloc: Global, file: &str, text: &str, food: Food<'_>) -> Result<String, Fail> {
    let schema = schema_of(alloc, file)?;
    let script = script_of(alloc, &schema, file, text)?;
    fed_by(alloc, &schema, &script, food)
}

/// Notes a worked feed that prints something else.
fn check_feed(alloc: Global, row: &str, wrong: &mut String) -> Result<(), Fail> {
    let (head, rest) = row.split_once("\n").ok_or("a row without its script")?;
    let (script, rest) = rest.split_once("----\n").ok_or("a row without its frames")?;
    let (digits, wanted) = rest
        .split_once("----\n")
        .ok_or("a row that prints nothing")?;
    let (name, head) = head.split_once(" ").ok_or("a row without its file")?;
    let (file, head) = head.split_once(" ").ok_or("a row without its side")?;
    let (side, limit) = head.split_once(" ").ok_or("a row without its limit")?;
    let food = Food {
        side: side_of(side)?,
        limit: limit.parse::<u32>()?,
        digits,
    };
    let found = printed(alloc, file, script, food)?;
    if found.as_str() != wanted.trim_end() {
        writeln!(wrong, "{name}: {found}")?;
    }
    Ok(())
}

/// Notes a frame that is not refused, or is refused with another fault.
fn check_refused(alloc: Global, row: &str, wrong: &mut String) -> Result<(), Fail> {
    let (name, rest) = row.split_once(": ").ok_or("a row without its end")?;
    let (end, rest) = rest.split_once(": ").ok_or("a row without its frame")?;
    let (digits, fault) = rest.split_once(": ").ok_or("a row without its fault")?;
    let (file, side) = end.split_once(" ").ok_or("an end without its side")?;
    let food = Food {
        side: side_of(side)?,
        limit: 100,
        digits,
    };
    let found = printed(alloc, file, "", food)?;
    let wanted = format!(in alloc;
        "{side} deliver broken\n{side} shut AbnormalShutdown\n  fall 2147483647 AbnormalShutdown\nfinished\n{fault}"
    )?;
    if found.as_str() != wanted.as_str() {
        writeln!(wrong, "{name}: {found}")?;
    }
    Ok(())
}

#[test]
fn worked_feeds(rt: HostRuntime) -> Result<(), Fail> {
    let mut wrong = String::new(rt.alloc());
    let mut count = 0u32;
    for row in FEEDS.split("====\n") {
        check_feed(rt.alloc(), row, &mut wrong)?;
        count = count.wrapping_add(1);
    }
    assert_eq!(rt; wrong.as_str(), "");
    assert_eq!(rt; count, 14);
    Ok(())
}

#[test]
fn refused_frames(rt: HostRuntime) -> Result<(), Fail> {
    let mut wrong = String::new(rt.alloc());
    let mut count = 0u32;
    for row in REFUSED.split("\n") {
        check_refused(rt.alloc(), row, &mut wrong)?;
        count = count.wrapping_add(1);
    }
    assert_eq!(rt; wrong.as_str(), "");
    assert_eq!(rt; count, 23);
    Ok(())
}
