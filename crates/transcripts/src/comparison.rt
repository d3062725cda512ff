//! The comparison of a text with the lines of a history.
ghost use Rattle.std.specs.Prelude.{◌≡◌, ◌≢◌, ◌+◌, ◌<◌, ◌≤◌, [], ◌∷◌, List, IfOk, OnOk, length};
ghost use Rattle.std.specs.Bool.{Decides};
ghost use Rattle.history.specs.Written.{HasWritten};
ghost use Rattle.ipdl_base.specs.declared.line.Line.{Line as OfLine};
ghost use Rattle.ipdl_base.specs.Sound.{IsSound};
ghost use Rattle.transcripts.specs.Compared.{HasCompared, HasPassed, IsWithin, events_in, most_text_bytes};

use crate::line::split_line;
use history::LineWriter;
use ipdl_base::{Line, Schema, is_effect};
use std::alloc::{AllocError, Global};

/// Whether lines are those of a text.
#[derive(Clone, Copy, Debug, PartialEq, Eq)]
pub enum LineMatch {
    /// All lines are those of the text.
    All,
    /// The text ends before them.
    Over,
    /// The text has another line.
    Other,
}

/// How far a text has been compared with the lines of a history: the number of equal lines, the number of events among
/// them, and the rest of the text. It stores the text of one line.
#[derive(Drop)]
pub struct Comparison<'t> {
    left: &'t [u8],
    lines: u32,
    events: u32,
    writer: LineWriter,
}

impl<'t> Comparison<'t> {
    /// Creates the comparison of a text of which nothing has been compared yet.
    pub fn new(alloc: Global, text: &'t [u8]) -> Comparison<'t>
        requires { length text.now ≤ most_text_bytes }
        ensures text { result.left.now ≡ text.entry.now }
        ensures passed { HasPassed [] result }
    {
        Comparison {
            left: text,
            lines: 0,
            events: 0,
            writer: LineWriter::new(alloc),
        }
    }

    /// Returns the rest of the text.
    pub fn left(&self) -> &'t [u8]
        ensures { result.now ≡ self.now.left.now }
    {
        self.left
    }

    /// Returns the number of equal lines.
    pub fn lines(&self) -> u32
        ensures { result ≡ self.now.lines }
    {
        self.lines
    }

    /// Returns the number of events among the equal lines.
    pub fn events(&self) -> u32
        ensures { result ≡ self.now.events }
    {
        self.events
    }

    // Counts a line that is that of the text, and continues with the text after it.
    fn pass(&mut self, line: &Line, following: &'t [u8])
        requires few { self.old.lines < most_text_bytes }
        requires events { self.old.events ≤ self.old.lines }
        ensures left { self.new.left.now ≡ following.entry.now }
        ensures lines { self.new.lines ≡ self.old.lines + 1 }
        ensures events { self.new.events ≡ self.old.events + events_in (line.now ∷ []) }
        ensures writer { self.new.writer ≡ self.old.writer }
    {
        self.left = following;
        self.lines += 1;
        if !is_effect(&line.what) {
            self.events += 1;
        }
    }

    // Compares the text of a line with the next line of the text. Fails only if memory runs out.
    fn compare_line(&mut self, schema: &Schema, line: &Line) -> Result<LineMatch, AllocError>
        requires sound { IsSound schema.now }
        requires within { IsWithin self.old }
        ensures within { OnOk result (IsWithin self.new) }
        ensures compared { IfOk result (λ found. (before : List OfLine) → HasPassed before self.old
            → HasCompared schema.now before (line.now ∷ []) self.old found self.new) }
    {
        if self.left.is_empty() {
            return Ok(LineMatch::Over);
        }
        self.writer.write(schema, line)?;
        let (next, following) = split_line(self.left);
        if are_same(next, self.writer.newest()) {
            self.pass(line, following);
            Ok(LineMatch::All)
        } else {
            Ok(LineMatch::Other)
        }
    }

    /// Compares the texts of lines, which follow those so far, with the rest of the text, as long as they are equal
    /// (docs/audit.md). Fails only if memory runs out.
    pub fn compare(&mut self, schema: &Schema, lines: &[Line]) -> Result<LineMatch, AllocError>
        requires sound { IsSound schema.now }
        requires within { IsWithin self.old }
        ensures { IfOk result (λ found. (before : List OfLine) → HasPassed before self.old → HasCompared schema.now before lines.now self.old found self.new) }
    {
        for line in lines {
            match self.compare_line(schema, line)? {
                LineMatch::All => {}
                found => return Ok(found),
            }
        }
        Ok(LineMatch::All)
    }
}

// Returns whether two texts are equal.
fn are_same(one: &[u8], other: &[u8]) -> bool
    ensures { Decides result (one.now ≡ other.now) }
{
    one == other
}
