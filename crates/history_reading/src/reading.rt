//! What is read of both ends.
ghost use Rattle.std.specs.Prelude.{◌≡◌, OnOk, IfOk};
ghost use Rattle.ipdl_base.specs.Sound.{IsSound};
ghost use Rattle.history_reading.specs.EndReadings.{end_view};
ghost use Rattle.history_reading.specs.Reading as read;
ghost use Rattle.history_reading.specs.Readings.{reading_view};

use crate::end_reading::EndReading;
use ipdl_base::{Line, Schema, Side, What, is_effect};
use std::alloc::{AllocError, Global};

/// What is read from the lines of a history, end by end, with the side of the last event and the
/// number of lines.
#[derive(Drop)]
pub struct Reading<'h> {
    pub parent: EndReading<'h>,
    pub child: EndReading<'h>,
    pub last: Option<Side>,
    pub lines: usize,
}

impl<'h> Reading<'h> {
    /// Returns the reading of no lines.
    pub fn new(alloc: Global) -> Result<Reading<'h>, AllocError>
        ensures { IfOk result (λ reading. reading_view reading ≡ read.opening_reading) }
    {
        Ok(Reading {
            parent: EndReading::new(alloc)?,
            child: EndReading::new(alloc)?,
            last: None,
            lines: 0,
        })
    }

    /// Returns what is read of an end.
    pub fn end(&self, side: Side) -> &EndReading<'h>
        ensures { end_view result.now ≡ read.end_reading_of side (reading_view self.now) }
    {
        match side {
            Side::Parent => &self.parent,
            Side::Child => &self.child,
        }
    }

    /// Returns what is read of the other end.
    pub fn other(&self, side: Side) -> &EndReading<'h>
        ensures { end_view result.now ≡ read.other_of side (reading_view self.now) }
    {
        match side {
            Side::Parent => &self.child,
            Side::Child => &self.parent,
        }
    }

    /// Reads what a line of an end states.
    fn note_at(&mut self, schema: &Schema, side: Side, what: &'h What) -> Result<(), AllocError>
        requires { IsSound schema.now }
        ensures { OnOk result (reading_view self.new ≡ read.after_at schema.now side what.now (reading_view self.old)) }
    {
        let more = self.lines.checked_add(1).ok_or(AllocError)?;
        match side {
            Side::Parent => self.parent.note(schema, self.lines, what)?,
            Side::Child => self.child.note(schema, self.lines, what)?,
        }
        self.last = last_after(what, side, self.last);
        self.lines = more;
        Ok(())
    }

    /// Reads one more line.
    pub fn note(&mut self, schema: &Schema, line: &'h Line) -> Result<(), AllocError>
        requires { IsSound schema.now }
        ensures { OnOk result (reading_view self.new ≡ read.after schema.now (reading_view self.old) line.now) }
    {
        self.note_at(schema, line.side, &line.what)
    }
}

/// Returns the side of the last event after a line of an end.
fn last_after(what: &What, side: Side, before: Option<Side>) -> Option<Side>
    ensures { result ≡ read.last_after what.now side before }
{
    if is_effect(what) { before } else { Some(side) }
}
