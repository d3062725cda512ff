//! The nodes of a least fixed point, and which of them are derived.

ghost use Rattle.std.specs.Prelude.{◌≡◌, ◌↔◌, ℕ, Some, slice_get, IfOk};
ghost use Rattle.std.specs.List.{Contains};

use crate::marking::visit_all;
use crate::users::users;
use std::alloc::{AllocError, Global};

/// The parts that a node needs.
#[derive(Clone, Copy)]
pub enum Need {
    /// All of its parts. A node without parts is derived.
    All,
    /// One of its parts. A node without parts is not derived.
    One,
}

/// A node, with the numbers of the nodes that are its parts. A number without a node is a part that
/// is never derived.
#[derive(Drop)]
pub struct Node {
    /// Whether it needs all of its parts or one.
    pub need: Need,
    /// The numbers of its parts.
    pub parts: Vec<usize>,
}

ghost use Rattle.least_fixed_points.specs.Derived.{AreMarks};
ghost use Rattle.least_fixed_points.specs.Starting.{NeedsAll};

/// Returns the nodes that need all of their parts.
fn starters(alloc: Global, nodes: &[Node]) -> Result<Vec<usize>, AllocError>
    ensures { IfOk result (λ starters. (k : ℕ) → Contains starters.items k ↔ NeedsAll nodes.now k) }
{
    let mut starters = Vec::new(alloc);
    for (number, node) in nodes.iter().enumerate() {
        match node.need {
            Need::All => starters.push(number)?,
            Need::One => {}
        }
    }
    Ok(starters)
}

/// Returns for each node whether it is derived: whether it is in the least set of nodes that has
/// each node that needs all of its parts and has all of them in the set, and each node that needs
/// one of its parts and has one in the set. Takes time in proportion to the nodes and their parts.
/// Fails only if memory runs out.
pub fn least_fixed_point(alloc: Global, nodes: &[Node]) -> Result<Vec<bool>, AllocError>
    ensures { IfOk result (λ marks. AreMarks nodes.now marks.items) }
{
    let users = users(alloc, nodes)?;
    let mut marks = Vec::from_elem(alloc, false, nodes.len())?;
    let mut seen = Vec::from_elem(alloc, 0, nodes.len())?;
    let mut work = Vec::new(alloc);
    let starters = starters(alloc, nodes)?;
    visit_all(starters.as_slice(), nodes, &mut seen, &mut marks, &mut work)?;
    while let Some(part) = work.pop() {
        if let Some(row) = users.get(part) {
            visit_all(row.as_slice(), nodes, &mut seen, &mut marks, &mut work)?;
        }
    }
    Ok(marks)
}
