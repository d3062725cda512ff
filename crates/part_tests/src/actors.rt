//! Tests of trees of actors, and of falls.
ghost use Rattle.std.specs.Prelude.{◌≡◌, IfOk};
ghost use Rattle.actor_tree.specs.Fall.{post_order, others};

use super::checks::{check, cut};
use actor_tree::{
    Actor, Tree, TreeFault, falls_in_order, falls_later, falls_once, gives_subtree, leaves_nobody,
    root_falls,
};
use std::alloc::{AllocError, Global};
use std::process::Abort;
use std::test::Fail;

/// Who is let in, who falls with an id, and who lives then. First two actors of one id and managers that
/// do not live, then a line of actors of which one falls with those that it manages, and the same line
/// where the id does not live, then two managers of others, and last an actor of id 0, which is not the
/// manager of the top actor.
const ROWS: &str = "insert 4 2147483647: inserted
insert 4 2147483647: 4 is present
insert 4 12: 4 is present
insert 8 12: no manager 12
fall 2147483647: 4 2147483647
lookup 4: none
lookup 2147483647: none

insert 4 2147483647: inserted
insert 8 4: inserted
insert 12 8: inserted
fall 4: 12 8 4
lookup 12: none
lookup 8: none
lookup 4: none
lookup 2147483647: 2147483647 0 0

insert 4 2147483647: inserted
insert 8 4: inserted
insert 12 8: inserted
fall 16:
lookup 2147483647: 2147483647 0 0
lookup 4: 4 1 2147483647
lookup 8: 8 1 4
lookup 12: 12 1 8

insert 4 2147483647: inserted
insert 8 2147483647: inserted
insert 12 8: inserted
insert 16 4: inserted
insert 20 4: inserted
fall 2147483647: 16 20 4 12 8 2147483647
lookup 16: none
lookup 20: none
lookup 4: none
lookup 12: none
lookup 8: none
lookup 2147483647: none

insert 0 2147483647: inserted
insert -4 0: inserted
fall 0: -4 0
lookup -4: none
lookup 0: none
lookup 2147483647: 2147483647 0 0";

/// The first that falls, while the top actor still lives.
const FIRST_FALLS: &str = "insert 4 2147483647: inserted
lookup 4: 4 1 2147483647
first 2147483647: 4 1 2147483647
lookup 2147483647: 2147483647 7 0";

/// Lets the whole subtree of an id fall, as a caller does.
fn fall_all(alloc: Global, tree: &mut Tree, id: i32) -> Result<Vec<Actor>, AllocError>
    ensures given { IfOk result (λ given. given.items ≡ post_order id tree.old) }
    ensures left { IfOk result (λ _. tree.new ≡ others (post_order id tree.old) tree.old) }
{
    gives_subtree();
    let mut fallen = Vec::new(alloc);
    let mut falling = tree.fall(id);
    while let Some(actor) = falling.next() {
        fallen.push(actor)?;
    }
    Ok(fallen)
}

/// The ids of those who fall with an id.
fn fallen_text(alloc: Global, tree: &mut Tree, id: i32) -> Result<String, Fail> {
    let fallen = fall_all(alloc, tree, id)?;
    let mut text = String::new(alloc);
    for actor in &fallen {
        let id = actor.id;
        write!(text, " {id}")?;
    }
    Ok(text)
}

fn actor_text(alloc: Global, actor: Option<Actor>) -> Result<String, Fail> {
    let Some(actor) = actor else {
        return Ok(String::from_str(alloc, " none")?);
    };
    let Actor {
        id,
        protocol,
        manager,
    } = actor;
    Ok(format!(in alloc; " {id} {protocol} {manager}")?)
}

fn inserted_text(alloc: Global, answer: Result<(), TreeFault>) -> Result<String, Fail> {
    match answer {
        Ok(()) => Ok(String::from_str(alloc, " inserted")?),
        Err(TreeFault::Present(id)) => Ok(format!(in alloc; " {id} is present")?),
        Err(TreeFault::NoManager(id)) => Ok(format!(in alloc; " no manager {id}")?),
        Err(TreeFault::NoMemory) => Err("no memory".into()),
    }
}

/// Makes a call and writes its result, after a blank.
fn answer(alloc: Global, tree: &mut Tree, call: &str) -> Result<String, Fail> {
    let (word, arguments) = cut(call, " ");
    let (id, manager) = cut(arguments, " ");
    let id = id.parse::<i32>()?;
    match word {
        "insert" => inserted_text(alloc, tree.insert(id, 1, manager.parse::<i32>()?)),
        "lookup" => actor_text(alloc, tree.lookup(id)),
        "first" => actor_text(alloc, tree.fall(id).next()),
        _ => fallen_text(alloc, tree, id),
    }
}

/// Makes the calls of the lines `CALL: ANSWER` on a tree whose top actor has this protocol.
fn run(rt: &impl Abort, alloc: Global, protocol: u32, lines: &str) -> Result<(), Fail> {
    let mut tree = Tree::new(alloc, protocol)?;
    for line in lines.split("\n") {
        let (call, wanted) = cut(line, ":");
        let found = answer(alloc, &mut tree, call)?;
        check(rt, line, found.as_str(), wanted);
    }
    Ok(())
}

#[test]
fn calls(rt: HostRuntime) -> Result<(), Fail> {
    run(&rt, rt.alloc(), 7, FIRST_FALLS)
}

#[test]
fn rows(rt: HostRuntime) -> Result<(), Fail> {
    for lines in ROWS.split("\n\n") {
        run(&rt, rt.alloc(), 0, lines)?;
    }
    Ok(())
}

/// The laws of falling, for every tree.
#[test]
fn laws(_rt: HostRuntime) {
    leaves_nobody();
    falls_in_order();
    falls_later();
    falls_once();
    root_falls();
}
