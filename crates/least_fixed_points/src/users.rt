//! For each node, the nodes that have it as a part.

ghost use Rattle.std.specs.Prelude.{◌≡◌, ◌↔◌, ◌<◌, ℕ, IfOk, OnOk, length};
ghost use Rattle.least_fixed_points.specs.Marking.{AddsUser, AddsUsers, AreUsers, HasUser};

use crate::nodes::Node;
use std::alloc::{AllocError, Global};

/// Adds a user of a part, if the part has a row.
fn add_user(part: usize, user: usize, users: &mut Vec<Vec<usize>>) -> Result<(), AllocError>
    ensures { OnOk result (AddsUser part user users.old.items users.new.items) }
{
    if part < users.len() {
        users[part].push(user)?;
    }
    Ok(())
}

/// Adds a user of each of these parts.
fn add_users(parts: &[usize], user: usize, users: &mut Vec<Vec<usize>>) -> Result<(), AllocError>
    ensures { OnOk result (AddsUsers parts.now user users.old.items users.new.items) }
{
    for part in parts {
        add_user(*part, user, users)?;
    }
    Ok(())
}

/// Returns `count` empty rows, one for each node.
fn rows(alloc: Global, count: usize) -> Result<Vec<Vec<usize>>, AllocError>
    ensures size { IfOk result (λ rows. length rows.items ≡ count) }
    ensures empty { IfOk result (λ rows. (p u : ℕ) → ¬ HasUser rows.items p u) }
{
    let mut rows = Vec::with_capacity(alloc, count)?;
    for _ in 0..count {
        rows.push(Vec::new(alloc))?;
    }
    Ok(rows)
}

/// Returns for each node the nodes that have it as a part.
pub fn users(alloc: Global, nodes: &[Node]) -> Result<Vec<Vec<usize>>, AllocError>
    ensures { IfOk result (λ users. AreUsers nodes.now users.items) }
{
    let mut users = rows(alloc, nodes.len())?;
    for (user, node) in nodes.iter().enumerate() {
        add_users(node.parts.as_slice(), user, &mut users)?;
    }
    Ok(users)
}
