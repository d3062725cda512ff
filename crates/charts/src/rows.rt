//! The rows of what arrows, bars and waiting items join.
ghost use Rattle.std.specs.Prelude.{◌≡◌, ◌+◌, ◌∷◌, [], ℕ, ℤ, length, List, None, Some, IfOk, OnOk, if◌then◌else◌};
ghost use Rattle.std.specs.HashMap.{get};
ghost use Rattle.std.specs.Ordering.{int_eq};
ghost use Rattle.ipdl_base.specs.declared.line.Line.{Line as TheLine};
ghost use Rattle.ipdl_base.specs.declared.kinds.Side.{Side as TheSide};
ghost use Rattle.ipdl_base.specs.declared.schema.Schema.{Schema as TheSchema};
ghost use Rattle.ipdl_base.specs.Sound.{IsSound};
ghost use Rattle.charts.specs.Noted.{Knows, side_noted};
ghost use Rattle.charts.specs.Rows as rows;
ghost use Rattle.charts.specs.Rows.{side_rows};

use indexmap::IndexMap;
use ipdl_base::{Line, Schema, Side, What};
use std::alloc::{AllocError, Global};

/// The rows of a side.
#[derive(Clone, Copy)]
pub struct SideRows {
    /// The last row of the side.
    pub last: Option<usize>,
    /// Whether the side ends.
    pub ended: bool,
    /// The first row at which the other end's farewell arrives.
    pub farewell: Option<usize>,
    /// The first row at which an end of the channel is sent or arrives.
    pub closing: Option<usize>,
    /// The first row at which what waits in the outbox leaves, unless it is dropped before.
    pub leave: Option<usize>,
}

/// The rows of what arrows, bars and waiting items join, by the numbers of requests.
#[derive(Drop)]
pub struct Rows {
    /// Where a request arrives.
    pub arrivals: IndexMap<i32, usize>,
    /// Where a reply arrives.
    pub reply_arrivals: IndexMap<i32, usize>,
    /// Where a request no longer waits.
    pub departures: IndexMap<i32, usize>,
    /// Where a reply no longer waits.
    pub reply_departures: IndexMap<i32, usize>,
    /// Where a handler returns.
    pub returns: IndexMap<i32, usize>,
    /// Where a lazy send leaves, if it does.
    pub leaves: IndexMap<i32, Option<usize>>,
    /// The rows of the parent.
    pub parent: SideRows,
    /// The rows of the child.
    pub child: SideRows,
}

/// Returns the request that arrives.
fn arrival(what: &What) -> Option<i32>
    ensures { result ≡ rows.arrival what.now }
{
    match what {
        What::DeliverRequest(number) => Some(*number),
        _ => None,
    }
}

/// Returns the request whose reply arrives.
fn reply_arrival(what: &What) -> Option<i32>
    ensures { result ≡ rows.reply_arrival what.now }
{
    match what {
        What::DeliverReply(number) => Some(*number),
        _ => None,
    }
}

/// Returns the request that no longer waits.
fn departure(what: &What) -> Option<i32>
    ensures { result ≡ rows.departure what.now }
{
    match what {
        What::Take(number, ..) | What::Drop(number, ..) | What::Replaced(number) => Some(*number),
        _ => None,
    }
}

/// Returns the request whose reply no longer waits.
fn reply_departure(what: &What) -> Option<i32>
    ensures { result ≡ rows.reply_departure what.now }
{
    match what {
        What::TakeReply(number) | What::ResumeOk(number, _) | What::ResumeFault(number, _) => {
            Some(*number)
        }
        _ => None,
    }
}

/// Returns the request whose handler returns.
fn handler_return(what: &What) -> Option<i32>
    ensures { result ≡ rows.handler_return what.now }
{
    match what {
        What::Return(number) => Some(*number),
        _ => None,
    }
}

/// Returns whether a message may wait in the outbox.
fn is_lazy(schema: &Schema, number: u32) -> bool
    requires { IsSound schema.now }
    ensures { result ≡ rows.is_lazy schema.now number }
{
    match schema.message(number) {
        Some(message) => message.lazy,
        None => false,
    }
}

/// Returns the request that goes into the outbox.
fn lazy_send(schema: &Schema, what: &What) -> Option<i32>
    requires { IsSound schema.now }
    ensures { result ≡ rows.lazy_send schema.now what.now }
{
    match what {
        What::Send(number, _, message, _) => {
            if is_lazy(schema, *message) {
                Some(*number)
            } else {
                None
            }
        }
        _ => None,
    }
}

/// Returns whether what waits in the outbox leaves at a line.
fn empties_outbox(schema: &Schema, what: &What) -> bool
    requires { IsSound schema.now }
    ensures { result ≡ rows.empties_outbox schema.now what.now }
{
    match what {
        What::Send(_, _, message, _) => !is_lazy(schema, *message),
        What::Call(..)
        | What::Resolve(..)
        | What::Reject(..)
        | What::AnswerOk(..)
        | What::AnswerFault(..)
        | What::Flush(..)
        | What::Close
        | What::Die => true,
        _ => false,
    }
}

/// Returns whether the other end's farewell arrives.
fn is_farewell(what: &What) -> bool
    ensures { result ≡ rows.is_farewell what.now }
{
    matches!(what, What::DeliverGoodbye | What::DeliverBroken)
}

/// Returns whether an end closes or dies.
fn is_end(what: &What) -> bool
    ensures { result ≡ rows.is_end what.now }
{
    matches!(
        what,
        What::Close | What::Die | What::ShutNormal | What::ShutAbnormal
    )
}

/// Returns whether an end of the channel is sent or arrives at a side.
fn ends_channel(what: &What) -> bool
    ensures { result ≡ rows.ends_channel what.now }
{
    matches!(
        what,
        What::Close | What::Die | What::DeliverGoodbye | What::DeliverBroken
    )
}

/// Records the row at which a number is given, in place of a later one.
fn note(map: &mut IndexMap<i32, usize>, number: Option<i32>, row: usize) -> Result<(), AllocError>
    ensures { OnOk result ((n : ℤ) → get int_eq map.new n ≡ (if rows.is_number n number then Some row else get int_eq map.old n)) }
{
    if let Some(number) = number {
        map.insert(number, row)?;
    }
    Ok(())
}

/// Records the row at which a lazy send leaves, in place of that of a later one.
fn note_leave(
    map: &mut IndexMap<i32, Option<usize>>,
    number: Option<i32>,
    leave: Option<usize>,
) -> Result<(), AllocError>
    ensures { OnOk result ((n : ℤ) → get int_eq map.new n ≡ (if rows.is_number n number then Some leave else get int_eq map.old n)) }
{
    if let Some(number) = number {
        map.insert(number, leave)?;
    }
    Ok(())
}

/// Returns the row, or a later one if the test does not hold.
fn first_row(holds: bool, row: usize, later: Option<usize>) -> Option<usize>
    ensures { result ≡ (if holds then Some row else later) }
{
    if holds { Some(row) } else { later }
}

/// Returns the row at which what waits in an outbox leaves, by a line of its side and a later row.
fn leave_row(schema: &Schema, what: &What, row: usize, later: Option<usize>) -> Option<usize>
    requires { IsSound schema.now }
    ensures { result ≡ (if rows.is_farewell what.now then None else (if rows.empties_outbox schema.now what.now then Some row else later)) }
{
    if is_farewell(what) {
        None
    } else {
        first_row(empties_outbox(schema, what), row, later)
    }
}

impl SideRows {
    /// Returns the rows of a side of no lines.
    fn none() -> SideRows
        ensures { (schema : TheSchema) (row : ℕ) (side : TheSide) → result ≡ side_rows schema row side [] }
    {
        SideRows {
            last: None,
            ended: false,
            farewell: None,
            closing: None,
            leave: None,
        }
    }

    /// Returns the row to which a lifeline goes, of so many rows.
    pub fn bottom(self, count: usize) -> usize
        ensures { result ≡ rows.bottom self count }
    {
        if self.ended {
            self.last.unwrap_or(count)
        } else {
            count
        }
    }

    /// Returns the rows of a side with one more line before the others.
    fn with(self, schema: &Schema, side: Side, row: usize, line: &Line) -> SideRows
        requires { IsSound schema.now }
        ensures { (rest : List TheLine) → self ≡ side_rows schema.now (row + 1) side rest → result ≡ side_rows schema.now row side (line.now ∷ rest) }
    {
        if line.side != side {
            return self;
        }
        let what = &line.what;
        SideRows {
            last: first_row(self.last.is_none(), row, self.last),
            ended: is_end(what) || self.ended,
            farewell: first_row(is_farewell(what), row, self.farewell),
            closing: first_row(ends_channel(what), row, self.closing),
            leave: leave_row(schema, what, row, self.leave),
        }
    }
}

impl Rows {
    /// Creates the rows of no lines. Takes no memory.
    fn new(alloc: Global) -> Rows
        ensures { (schema : TheSchema) (row : ℕ) → Knows schema row [] result }
    {
        Rows {
            arrivals: IndexMap::new(alloc),
            reply_arrivals: IndexMap::new(alloc),
            departures: IndexMap::new(alloc),
            reply_departures: IndexMap::new(alloc),
            returns: IndexMap::new(alloc),
            leaves: IndexMap::new(alloc),
            parent: SideRows::none(),
            child: SideRows::none(),
        }
    }

    /// Returns the rows of a side.
    pub fn of_side(&self, side: Side) -> SideRows
        ensures { result ≡ side_noted self.now side }
    {
        match side {
            Side::Parent => self.parent,
            Side::Child => self.child,
        }
    }

    /// Records what a line gives that is before the others.
    fn note(&mut self, schema: &Schema, row: usize, line: &Line) -> Result<(), AllocError>
        requires { IsSound schema.now }
        ensures { OnOk result ((rest : List TheLine) → Knows schema.now (row + 1) rest self.old → Knows schema.now row (line.now ∷ rest) self.new) }
    {
        let what = &line.what;
        note(&mut self.arrivals, arrival(what), row)?;
        note(&mut self.reply_arrivals, reply_arrival(what), row)?;
        note(&mut self.departures, departure(what), row)?;
        note(&mut self.reply_departures, reply_departure(what), row)?;
        note(&mut self.returns, handler_return(what), row)?;
        let leave = self.of_side(line.side).leave;
        note_leave(&mut self.leaves, lazy_send(schema, what), leave)?;
        self.parent = self.parent.with(schema, Side::Parent, row, line);
        self.child = self.child.with(schema, Side::Child, row, line);
        Ok(())
    }

    /// Returns the rows of all that lines give, in one pass from the last line to the first. Fails only if memory runs out.
    pub fn of(alloc: Global, schema: &Schema, lines: &[Line]) -> Result<Rows, AllocError>
        requires { IsSound schema.now }
        ensures { IfOk result (Knows schema.now 0 lines.now) }
    {
        let mut rows = Rows::new(alloc);
        rows.note_all(schema, lines)?;
        Ok(rows)
    }

    /// Records what lines give, starting with no lines.
    fn note_all(&mut self, schema: &Schema, lines: &[Line]) -> Result<(), AllocError>
        requires sound { IsSound schema.now }
        requires new { Knows schema.now (length lines.now) [] self.old }
        ensures { OnOk result (Knows schema.now 0 lines.now self.new) }
    {
        let mut row = lines.len();
        while row > 0 {
            row -= 1;
            self.note(schema, row, &lines[row])?;
        }
        Ok(())
    }
}
