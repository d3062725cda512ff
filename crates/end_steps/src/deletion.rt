//! The fall that a destructor causes.
ghost use Rattle.std.specs.Prelude.{◌+◌, ◌≤◌, length};
ghost use Rattle.end_steps.specs.Deletions.{HasDeleted};
ghost use Rattle.end_parts.specs.PromiseRequests.{pending_in};

use crate::closing::{FallCause, destroy_subtree};
use actor_tree::Tree;
use end_parts::{EndOutput, PromiseEntries};
use ipdl_base::{Kind, Side};

/// Lets the actor that a request went to fall with its subtree, if the request was a destructor's.
/// The lines are among those that the end owes, so it takes no memory.
pub fn delete_by(
    kind: Kind,
    side: Side,
    route: i32,
    tree: &mut Tree,
    promises: &mut PromiseEntries,
    out: &mut EndOutput,
)
    requires { length tree.old + pending_in promises.old ≤ out.old.line_spare }
    ensures { HasDeleted kind side route tree.old promises.old out.old tree.new promises.new out.new }
{
    match kind {
        Kind::Normal | Kind::Constructor(_) => {}
        Kind::Delete => delete(side, route, tree, promises, out),
    }
}

// Destroys an actor with its subtree.
fn delete(side: Side, id: i32, tree: &mut Tree, promises: &mut PromiseEntries, out: &mut EndOutput)
    requires { length tree.old + pending_in promises.old ≤ out.old.line_spare }
    ensures { HasDeleted Kind.Delete side id tree.old promises.old out.old tree.new promises.new out.new }
{
    let before = out.line_spare();
    destroy_subtree(side, id, FallCause::Deletion(id), tree, promises, out);
    out.pay(before.saturating_sub(out.line_spare()));
}
