//! Writes the lines of a history one at a time.
ghost use Rattle.std.specs.Prelude.{◌≡◌, ◌∷◌, ◌++◌, [], List, OnOk};
ghost use Rattle.ipdl_base.specs.Sound.{IsSound};
ghost use Rattle.history.specs.Text as text;
ghost use Rattle.history.specs.Written.{HasWritten, newest_text};

use crate::messages::Messages;
use crate::text::push_line;
use ipdl_base::{Line, Schema};
use std::alloc::{AllocError, Global};

/// Writes the lines of a history one at a time (docs/transcripts.md). Keeps only the text of the newest line,
/// and the messages of the numbers of requests.
#[derive(Drop)]
pub struct LineWriter {
    messages: Messages,
    newest: Vec<u8>,
}

impl LineWriter {
    /// Creates a writer that has written no line. Takes no memory.
    pub fn new(alloc: Global) -> LineWriter
        ensures { HasWritten [] result }
    {
        LineWriter {
            messages: Messages::new(alloc),
            newest: Vec::new(alloc),
        }
    }

    /// Writes the next line in place of the newest. Fails only if memory runs out, and then the text is
    /// unspecified.
    pub fn write(&mut self, schema: &Schema, line: &Line) -> Result<(), AllocError>
        requires { IsSound schema.now }
        ensures written { OnOk result ((lines : List Line) → HasWritten lines self.old → HasWritten (lines ++ line.now ∷ []) self.new) }
        ensures newest { OnOk result ((lines : List Line) → HasWritten lines self.old → newest_text self.new ≡ text.line_text schema.now lines line.now) }
    {
        self.newest.clear();
        push_line(&mut self.newest, schema, &self.messages, line)?;
        self.messages.note(line)
    }

    /// Returns the text of the newest line, with its line feed. Takes no memory.
    pub fn newest(&self) -> &[u8]
        ensures { result.now ≡ newest_text self.now }
    {
        self.newest.as_slice()
    }
}
