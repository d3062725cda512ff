//! Marks the nodes that are derived, by a list of work.

ghost use Rattle.std.specs.Prelude.{◌≡◌, ◌↔◌, ◌<◌, ◌≤◌, ◌∷◌, [], ℕ, length, slice_index, vec_len, IsTrue, OnOk};
ghost use Rattle.std.specs.List.{Contains};
ghost use Rattle.least_fixed_points.specs.Marking.{IsMarked, Marks, Knows, HasReason, Visits};

use crate::nodes::{Need, Node};
use std::alloc::AllocError;

/// Returns whether a node is marked.
fn is_marked(marks: &[bool], node: usize) -> bool
    ensures { IsTrue result ↔ IsMarked marks.now node }
{
    match marks.get(node) {
        Some(mark) => *mark,
        None => false,
    }
}

/// Marks a node, and adds it to the work if it had no mark.
fn mark(node: usize, marks: &mut Vec<bool>, work: &mut Vec<usize>) -> Result<(), AllocError>
    requires { node < vec_len marks.old }
    ensures { OnOk result (Marks node marks.old.items work.old.items marks.new.items work.new.items) }
{
    if !marks[node] {
        work.push(node)?;
        marks[node] = true;
    }
    Ok(())
}

/// Returns the first index, from `from` on, of a part without a mark, or the number of parts if all
/// are marked.
fn first_unmarked(parts: &[usize], from: usize, marks: &[bool]) -> usize
    ensures passed { (j : ℕ) → from ≤ j → j < result → j < length parts.now → IsMarked marks.now (slice_index parts.now j) }
    ensures stop { result < length parts.now → ¬ IsMarked marks.now (slice_index parts.now result) }
{
    let mut at = from;
    while at < parts.len() && is_marked(marks, parts[at]) {
        at += 1;
    }
    at
}

/// Marks a node that has no mark yet, if what it needs is marked. Parts of a node that needs all of
/// its parts are not looked at again once they were found marked.
fn visit(
    user: usize,
    nodes: &[Node],
    seen: &mut Vec<usize>,
    marks: &mut Vec<bool>,
    work: &mut Vec<usize>,
) -> Result<(), AllocError>
    requires knows { Knows nodes.now marks.old.items seen.old.items }
    requires reason { HasReason nodes.now user }
    ensures { OnOk result (Visits nodes.now (user ∷ []) marks.old.items work.old.items marks.new.items work.new.items seen.new.items) }
{
    let Some(node) = nodes.get(user) else {
        return Ok(());
    };
    if is_marked(marks.as_slice(), user) {
        return Ok(());
    }
    match node.need {
        Need::One => mark(user, marks, work),
        Need::All => {
            let at = first_unmarked(node.parts.as_slice(), seen[user], marks.as_slice());
            seen[user] = at;
            if at < node.parts.len() {
                Ok(())
            } else {
                mark(user, marks, work)
            }
        }
    }
}

/// Visits each of these nodes.
pub fn visit_all(
    users: &[usize],
    nodes: &[Node],
    seen: &mut Vec<usize>,
    marks: &mut Vec<bool>,
    work: &mut Vec<usize>,
) -> Result<(), AllocError>
    requires knows { Knows nodes.now marks.old.items seen.old.items }
    requires reason { (user : ℕ) → Contains users.now user → HasReason nodes.now user }
    ensures { OnOk result (Visits nodes.now users.now marks.old.items work.old.items marks.new.items work.new.items seen.new.items) }
{
    for user in users {
        visit(*user, nodes, seen, marks, work)?;
    }
    Ok(())
}
