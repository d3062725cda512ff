//! The actor that a constructor's request builds.
ghost use Rattle.std.specs.Prelude.{◌≡◌, ◌+◌, ◌≤◌, OnOk, OnErr};
ghost use Rattle.end_steps.specs.BuiltActors.{built_by, with_built, with_built_line, IsFree};

use actor_tree::{Actor, Tree, TreeFault};
use end_parts::EndOutput;
use ipdl_base::{Kind, Line, Message, MessageRow, Side, What};
use std::alloc::AllocError;

/// Returns the actor that a request builds under the one that it goes to, or `None` if it is not a
/// constructor's.
pub fn built_by(row: &MessageRow, message: &Message) -> Option<Actor>
    ensures { result ≡ built_by row.now.kind message.now.made message.now.route }
{
    match row.kind {
        Kind::Constructor(protocol) => Some(Actor {
            id: message.made,
            protocol,
            manager: message.route,
        }),
        Kind::Normal | Kind::Delete => None,
    }
}

/// Builds an actor, if there is one to build, whose id nobody has and whose manager lives. If
/// memory runs out, nothing changes.
pub fn build_actor(tree: &mut Tree, built: Option<Actor>) -> Result<(), AllocError>
    requires { IsFree tree.old built }
    ensures ok { OnOk result (tree.new ≡ with_built built tree.old) }
    ensures err { OnErr result (tree.new ≡ tree.old) }
{
    match built {
        None => Ok(()),
        Some(actor) => match tree.insert(actor.id, actor.protocol, actor.manager) {
            Ok(()) => Ok(()),
            Err(TreeFault::NoMemory) => Err(AllocError),
            Err(TreeFault::Present(_) | TreeFault::NoManager(_)) => unreachable!(),
        },
    }
}

/// Prints that an actor was built, if one was. From then on the line of its fall is owed.
pub fn push_built(side: Side, built: Option<Actor>, out: &mut EndOutput)
    requires { out.old.lines_owed + 2 ≤ out.old.line_spare }
    ensures { out.new ≡ with_built_line side built out.old }
{
    match built {
        None => {}
        Some(actor) => {
            out.push_line(Line {
                side,
                what: What::Built(actor.id, actor.protocol),
            });
            out.owe(1);
        }
    }
}
