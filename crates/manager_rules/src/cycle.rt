//! Searches for cycles of managers.

ghost use Rattle.std.specs.Prelude.{◌≡◌, ◌<◌, ◌↔◌, ◌∷◌, ◌==◌, [], length, IfOk, OnOk, IsTrue};
ghost use Rattle.std.specs.Prelude.{not};
ghost use Rattle.std.specs.List.{filter};
ghost use Rattle.name_table.specs.Marks.{Marks};
ghost use Rattle.manager_rules.specs.Knowing.{IsKnown};
ghost use Rattle.manager_rules.specs.Managers.{IsInCycle};

use crate::known::ManagementGraph;
use std::alloc::{AllocError, Global};

/// Marks a file, and adds it to the work if it had no mark. A number without a file gets no mark.
fn mark(file: u32, marks: &mut Vec<bool>, work: &mut Vec<u32>) -> Result<(), AllocError>
    ensures { OnOk result (Marks (file ∷ []) marks.old.items work.old.items marks.new.items work.new.items) }
{
    let index = file as usize;
    if index < marks.len() && !marks[index] {
        work.push(file)?;
        marks[index] = true;
    }
    Ok(())
}

/// Marks each of these files.
fn mark_all(files: &[u32], marks: &mut Vec<bool>, work: &mut Vec<u32>) -> Result<(), AllocError>
    ensures { OnOk result (Marks files.now marks.old.items work.old.items marks.new.items work.new.items) }
{
    for file in files {
        mark(*file, marks, work)?;
    }
    Ok(())
}

/// Returns these files without one of them.
fn without(alloc: Global, files: &[u32], one: u32) -> Result<Vec<u32>, AllocError>
    ensures { IfOk result (λ others. others.items ≡ filter (λ n. not (n == one)) files.now) }
{
    files
        .iter()
        .copied()
        .filter(|file| *file != one)
        .collect(alloc)
}

/// Returns whether managers lead from the protocol of a file to another protocol and back: whether
/// a manager other than itself leads back to it. Each file is looked at once.
pub fn is_in_cycle(
    alloc: Global,
    known: &ManagementGraph<'_, '_>,
    from: u32,
) -> Result<bool, AllocError>
    requires known { IsKnown known.now }
    requires within { from < length known.now.program.now }
    ensures { IfOk result (λ is. IsTrue is ↔ IsInCycle known.now.program.now from) }
{
    let others = without(alloc, known.managers_of(from), from)?;
    if others.is_empty() {
        return Ok(false);
    }
    let mut marks = Vec::from_elem(alloc, false, known.program.len())?;
    let mut work = Vec::new(alloc);
    mark_all(others.as_slice(), &mut marks, &mut work)?;
    while let Some(file) = work.pop() {
        if file == from {
            return Ok(true);
        }
        mark_all(known.managers_of(file), &mut marks, &mut work)?;
    }
    Ok(false)
}
