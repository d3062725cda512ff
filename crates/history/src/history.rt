//! The lines of a run.
ghost use Rattle.std.specs.Prelude.{◌≡◌, ◌+◌, ◌<◌, ◌≤◌, [], ◌∷◌, ◌++◌, OnOk, OnErr, IsOk};

use ipdl_base::Line;
use std::alloc::{AllocError, Global};
use std::marker::Model;

/// The lines of a run in their order. Contracts see them as a list, oldest first, with the number of further
/// lines that
/// there is room for (docs/transcripts.md).
#[derive(Drop)]
pub struct History {
    lines: Vec<Line>,
}

impl Model for History {
    ghost use Rattle.std.specs.Prelude.{◌-◌, vec_len, vec_capacity};
    ghost use Rattle.history.specs.HistoryView.{HistoryView};
    ghost use Rattle.ipdl_base.specs.contracts.value.Values as values;
    ghost use Rattle.std.specs.Coded.{codes};

    ghost Value = { HistoryView };

    ghost coded = { Prim.hlevel (codes, values.the_row.coded) };

    ghost view = { λ h. record { lines = h.lines.items; spare = vec_capacity h.lines - vec_len h.lines } };
}

impl History {
    /// Creates a history without lines. Takes no memory yet; later calls take it from `alloc`.
    pub fn new(alloc: Global) -> History
        ensures { result.lines ≡ [] }
    {
        History {
            lines: Vec::new(alloc),
        }
    }

    /// Makes room for `n` more lines. Fails only if memory runs out, and never if there is that room already.
    /// The room never gets smaller.
    pub fn reserve(&mut self, n: usize) -> Result<(), AllocError>
        ensures lines { self.new.lines ≡ self.old.lines }
        ensures ok { OnOk result (n ≤ self.new.spare) }
        ensures room { n ≤ self.old.spare → IsOk result }
        ensures spare { self.old.spare ≤ self.new.spare }
    {
        self.lines.reserve(n)
    }

    /// Appends a line. If memory runs out, nothing changes; if there is room, the call does not fail.
    pub fn push(&mut self, line: Line) -> Result<(), AllocError>
        ensures lines { OnOk result (self.new.lines ≡ self.old.lines ++ line ∷ []) }
        ensures unchanged { OnErr result (self.new ≡ self.old) }
        ensures room { 0 < self.old.spare → IsOk result }
        ensures spare { self.old.spare ≤ self.new.spare + 1 }
    {
        self.lines.reserve(1)?;
        self.lines.push(line)?;
        Ok(())
    }

    /// Returns the lines, oldest first. Takes no memory.
    pub fn lines(&self) -> &[Line]
        ensures { result.now ≡ self.now.lines }
    {
        self.lines.as_slice()
    }
}
