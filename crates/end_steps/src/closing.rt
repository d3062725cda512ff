//! Rejected promises, failed waits, falling actors, and the closing of an end.
ghost use Rattle.std.specs.Prelude.{◌≡◌, ◌+◌, ◌≤◌, true, length};
ghost use Rattle.ipdl_base.specs.declared.kinds.Reason.TheVariants.{ActorDestroyed, ChannelClosed};
ghost use Rattle.channel_model.specs.Names.{without_resolvers};
ghost use Rattle.promise_table.specs.Promises.{is_pending_of};
ghost use Rattle.end_steps.specs.FailedWaits.{unanswered_in, HasFailed};
ghost use Rattle.end_steps.specs.Falls.{destroy_by, HasFallen, HasClosed};
ghost use Rattle.end_parts.specs.PromiseRequests.{pending_in};
ghost use Rattle.end_steps.specs.Rejections.{HasRejected};

use actor_tree::{Actor, Tree, falls_once};
use end_parts::{EndOutput, NameEntries, PromiseEntries, StackEntries};
use ipdl_base::{Destroy, Line, Reason, Side, TOP_ID, What};

/// Rejects all pending promises, oldest first, each with its line. Takes no memory.
pub fn reject_all(side: Side, promises: &mut PromiseEntries, out: &mut EndOutput)
    requires { pending_in promises.old ≤ out.old.line_spare }
    ensures { HasRejected side (λ p. true) ChannelClosed promises.old out.old promises.new out.new }
{
    while let Some(seq) = promises.reject_next(Reason::ChannelClosed) {
        out.push_line(Line {
            side,
            what: What::Rejected(seq, Reason::ChannelClosed),
        });
    }
}

// Rejects all pending promises of an actor, oldest first, each with its line.
fn reject_all_of(side: Side, actor: &Actor, promises: &mut PromiseEntries, out: &mut EndOutput)
    requires { pending_in promises.old ≤ out.old.line_spare }
    ensures { HasRejected side (is_pending_of actor.now.id) ActorDestroyed promises.old out.old promises.new out.new }
{
    while let Some(seq) = promises.reject_next_of(actor.id, Reason::ActorDestroyed) {
        out.push_line(Line {
            side,
            what: What::Rejected(seq, Reason::ActorDestroyed),
        });
    }
}

/// Fails all waits without an answer, innermost first, each with its line. Takes no memory.
pub fn fail_all(side: Side, stack: &mut StackEntries, out: &mut EndOutput)
    requires { length (unanswered_in stack.old) ≤ out.old.line_spare }
    ensures { HasFailed side stack.old out.old stack.new out.new }
{
    while let Some(seq) = stack.fail_next() {
        out.push_line(Line {
            side,
            what: What::Fails(seq),
        });
    }
}

/// Why actors fall: the actor of an id is deleted, or the end closes.
#[derive(Clone, Copy)]
pub enum FallCause {
    Deletion(i32),
    Closing(Destroy),
}

// Returns the reason for which an actor falls.
fn destroy_by(cause: FallCause, actor: &Actor) -> Destroy
    ensures { result ≡ destroy_by cause actor.now.id }
{
    match cause {
        FallCause::Deletion(id) => {
            if actor.id == id {
                Destroy::Deletion
            } else {
                Destroy::AncestorDeletion
            }
        }
        FallCause::Closing(destroy) => destroy,
    }
}

/// Lets the subtree of an id fall: rejects the promises of each actor and prints its lines. Takes
/// no memory.
pub fn destroy_subtree(
    side: Side,
    id: i32,
    cause: FallCause,
    tree: &mut Tree,
    promises: &mut PromiseEntries,
    out: &mut EndOutput,
)
    requires { length tree.old + pending_in promises.old ≤ out.old.line_spare }
    ensures { HasFallen side id (destroy_by cause) tree.old promises.old out.old tree.new promises.new out.new }
{
    falls_once();
    let mut falling = tree.fall(id);
    while let Some(actor) = falling.next() {
        reject_all_of(side, &actor, promises, out);
        let destroy = destroy_by(cause, &actor);
        out.push_line(Line {
            side,
            what: What::Fall(actor.id, destroy),
        });
    }
}

/// Closes the parts of an end. Takes no memory.
pub fn close_parts(
    side: Side,
    destroy: Destroy,
    tree: &mut Tree,
    promises: &mut PromiseEntries,
    names: &mut NameEntries,
    out: &mut EndOutput,
)
    requires { length tree.old + pending_in promises.old ≤ out.old.line_spare }
    ensures parts { HasClosed side destroy tree.old promises.old out.old tree.new promises.new out.new }
    ensures names { names.new.names ≡ without_resolvers names.old.names }
{
    reject_all(side, promises, out);
    destroy_subtree(
        side,
        TOP_ID,
        FallCause::Closing(destroy),
        tree,
        promises,
        out,
    );
    names.drop_resolvers();
}
