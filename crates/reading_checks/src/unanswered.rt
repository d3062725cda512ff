//! The calls that have no answer after some lines.
ghost use Rattle.std.specs.Prelude.{◌≡◌, ◌≤◌, ◌↔◌, ◌++◌, length, take, reverse, IfOk, OnOk, IsTrue};
ghost use Rattle.std.specs.List.{list_any};
ghost use Rattle.ipdl_base.specs.Sound.{IsSound};
ghost use Rattle.history_reading.specs.Chain as the;
ghost use Rattle.history_reading.specs.Holds.{IsReadable, is_readable_list};
ghost use Rattle.history_reading.specs.Reading.{opening_reading, read};
ghost use Rattle.history_reading.specs.Readings.{reading_view};

use crate::readable::is_readable;
use crate::still::head_of;
use history::History;
use history_reading::{CallFrame, Reading, UnansweredCall};
use ipdl_base::{Line, Schema, What};
use nesting_core::Head;
use std::alloc::{AllocError, Global};

/// Whether a frame is the unanswered wait of the call whose line is at a place.
fn is_wait_from(frame: &CallFrame, place: usize) -> bool
    ensures { result ≡ the.is_wait_from place frame.now }
{
    match frame {
        CallFrame::Unanswered(call) => call.place == place,
        _ => false,
    }
}

/// Whether some frame is that wait.
fn has_wait_from(frames: &[CallFrame], place: usize) -> bool
    ensures { result ≡ list_any (the.is_wait_from place) (reverse frames.now) }
{
    frames.iter().rev().any(|frame| is_wait_from(frame, place))
}

/// Returns the head of the call that a line makes.
fn called(schema: &Schema, what: &What) -> Option<Head>
    requires { IsSound schema.now }
    ensures { result ≡ the.called schema.now what.now }
{
    match what {
        What::Call(n, transaction, _, number, _) => head_of(schema, *number, *n, *transaction),
        _ => None,
    }
}

/// Returns a line as a call, if it is one.
fn held_call(schema: &Schema, line: &Line) -> Option<UnansweredCall>
    requires { IsSound schema.now }
    ensures { result ≡ the.held_call schema.now line.now }
{
    match called(schema, &line.what) {
        Some(head) => Some(UnansweredCall {
            side: line.side,
            head,
        }),
        None => None,
    }
}

/// Returns a line at a place as an unanswered call, if it is one.
fn held_at(
    schema: &Schema,
    reading: &Reading<'_>,
    place: usize,
    line: &Line,
) -> Option<UnansweredCall>
    requires { IsSound schema.now }
    ensures { result ≡ the.held_at schema.now (reading_view reading.now) place line.now }
{
    if has_wait_from(reading.end(line.side).stack.outward(), place) {
        held_call(schema, line)
    } else {
        None
    }
}

/// Whether lines can be read if no lines were read before them.
fn all_readable<'h>(
    schema: &Schema,
    reading: &mut Reading<'h>,
    lines: &'h [Line],
) -> Result<bool, AllocError>
    requires sound { IsSound schema.now }
    requires new { reading_view reading.old ≡ opening_reading }
    ensures { IfOk result (λ yes. yes ≡ is_readable_list schema.now lines.now) }
{
    for line in lines {
        if !is_readable(schema, reading, line) {
            return Ok(false);
        }
        reading.note(schema, line)?;
    }
    Ok(true)
}

/// Whether lines can be read.
fn are_readable(alloc: Global, schema: &Schema, lines: &[Line]) -> Result<bool, AllocError>
    requires { IsSound schema.now }
    ensures { IfOk result (λ yes. yes ≡ is_readable_list schema.now lines.now) }
{
    let mut reading = Reading::new(alloc)?;
    let readable = all_readable(schema, &mut reading, lines);
    drop(reading);
    readable
}

/// Returns whether the first `lines` lines of a history are readable (docs/laws.md). Fails only if
/// memory runs out.
pub fn can_read(
    alloc: Global,
    schema: &Schema,
    history: &History,
    lines: usize,
) -> Result<bool, AllocError>
    requires sound { IsSound schema.now }
    requires within { lines ≤ length history.now.lines }
    ensures { IfOk result (λ yes. IsTrue yes ↔ IsReadable schema.now (take lines history.now.lines)) }
{
    are_readable(alloc, schema, &history.lines()[..lines])
}

/// Reads lines if no lines were read before them.
fn read_lines<'h>(
    schema: &Schema,
    reading: &mut Reading<'h>,
    lines: &'h [Line],
) -> Result<(), AllocError>
    requires sound { IsSound schema.now }
    requires new { reading_view reading.old ≡ opening_reading }
    ensures { OnOk result (reading_view reading.new ≡ read schema.now lines.now) }
{
    for line in lines {
        reading.note(schema, line)?;
    }
    Ok(())
}

/// Returns the unanswered calls of lines.
fn held_calls(
    alloc: Global,
    schema: &Schema,
    reading: &Reading<'_>,
    lines: &[Line],
) -> Result<Vec<UnansweredCall>, AllocError>
    requires { IsSound schema.now }
    ensures { IfOk result (λ calls. calls.items ≡ the.held_from schema.now (reading_view reading.now) 0 lines.now) }
{
    let mut calls = Vec::new(alloc);
    for (place, line) in lines.iter().enumerate() {
        if let Some(held) = held_at(schema, reading, place, line) {
            calls.push(held)?;
        }
    }
    Ok(calls)
}

/// Returns the calls of lines whose answers have not come, the oldest first, if no lines were read
/// before them.
fn read_calls<'h>(
    alloc: Global,
    schema: &Schema,
    reading: &mut Reading<'h>,
    lines: &'h [Line],
) -> Result<Vec<UnansweredCall>, AllocError>
    requires sound { IsSound schema.now }
    requires new { reading_view reading.old ≡ opening_reading }
    ensures { IfOk result (λ calls. calls.items ≡ the.chain_of schema.now lines.now) }
{
    read_lines(schema, reading, lines)?;
    held_calls(alloc, schema, reading, lines)
}

/// Returns the calls of lines whose answers have not come, the oldest first.
fn chain_of(
    alloc: Global,
    schema: &Schema,
    lines: &[Line],
) -> Result<Vec<UnansweredCall>, AllocError>
    requires { IsSound schema.now }
    ensures { IfOk result (λ calls. calls.items ≡ the.chain_of schema.now lines.now) }
{
    let mut reading = Reading::new(alloc)?;
    let calls = read_calls(alloc, schema, &mut reading, lines);
    drop(reading);
    calls
}

/// Returns the calls whose answers have not come after the first `lines` lines of a history, the
/// oldest first (docs/laws.md). Fails only if memory runs out. Its time is at most quadratic in the
/// lines.
pub fn chain(
    alloc: Global,
    schema: &Schema,
    history: &History,
    lines: usize,
) -> Result<Vec<UnansweredCall>, AllocError>
    requires sound { IsSound schema.now }
    requires within { lines ≤ length history.now.lines }
    requires readable { IsReadable schema.now (take lines history.now.lines) }
    ensures { IfOk result (λ calls. calls.items ≡ the.chain_of schema.now (take lines history.now.lines)) }
{
    chain_of(alloc, schema, &history.lines()[..lines])
}
