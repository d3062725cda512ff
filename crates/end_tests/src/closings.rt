//! Tests of rejected promises, falls and failed waits.
ghost use Rattle.std.specs.Prelude.{◌≡◌, ◌≤◌, [], ◌∷◌};
ghost use Rattle.actor_tree.specs.Tree.{top};

use super::checks::check;
use super::outputs::push_lines;
use super::parts::{Case, told};
use super::schemas::{ASK, CALL, TOP, insert_kid};
use super::stacks::head_of;
use actor_tree::Tree;
use end_parts::{EndOutput, PromiseEntries, StackEntries};
use end_steps::{FallCause, destroy_subtree, fail_all, reject_all};
use ipdl_base::Side;
use std::alloc::{AllocError, Global};
use std::test::Fail;

/// The promises of the top actor that pend are rejected.
pub fn rejection(
    alloc: Global,
    promises: &mut PromiseEntries,
    out: &mut EndOutput,
    log: &mut String,
) -> Result<(), AllocError>
    requires no_promise { promises.old ≡ [] }
    requires room { 3 ≤ out.old.line_spare }
{
    promises.make(1, TOP, ASK)?;
    promises.make(2, TOP, ASK)?;
    reject_all(Side::Parent, promises, out);
    push_lines(alloc, log, out)
}

/// Destroys an actor with its promise.
fn let_kid_fall(
    tree: &mut Tree,
    promises: &mut PromiseEntries,
    out: &mut EndOutput,
) -> Result<(), AllocError>
    requires tree { tree.old ≡ top 1 ∷ [] }
    requires no_promise { promises.old ≡ [] }
    requires room { 3 ≤ out.old.line_spare }
{
    insert_kid(tree)?;
    promises.make(1, 6, ASK)?;
    let cause = FallCause::Deletion(6);
    destroy_subtree(Side::Parent, 6, cause, tree, promises, out);
    Ok(())
}

/// An actor falls with its promise.
pub fn fall(
    alloc: Global,
    promises: &mut PromiseEntries,
    out: &mut EndOutput,
    log: &mut String,
) -> Result<(), AllocError>
    requires no_promise { promises.old ≡ [] }
    requires room { 3 ≤ out.old.line_spare }
{
    let mut tree = Tree::new(alloc, 1)?;
    let done = let_kid_fall(&mut tree, promises, out);
    drop(tree);
    done?;
    push_lines(alloc, log, out)
}

/// A wait fails.
pub fn failure(
    alloc: Global,
    stack: &mut StackEntries,
    out: &mut EndOutput,
    log: &mut String,
) -> Result<(), AllocError>
    requires no_frame { stack.old ≡ [] }
    requires room { 3 ≤ out.old.line_spare }
{
    stack.push_wait(head_of(1), TOP, CALL);
    fail_all(Side::Parent, stack, out);
    push_lines(alloc, log, out)
}

#[test]
fn closings_of_an_end(rt: HostRuntime) -> Result<(), Fail> {
    let cases = [Case::Rejection, Case::Fall, Case::Failure];
    let found = told(rt.alloc(), &cases)?;
    check(
        &rt,
        found.as_str(),
        "rejected rejected \nrejected fall \nfails \n",
    );
    Ok(())
}
