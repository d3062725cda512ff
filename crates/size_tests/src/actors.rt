//! Trees of many actors, each of which falls whole.
use actor_tree::Tree;
use std::alloc::Global;
use std::test::Fail;

/// The id of the top actor.
const TOP: i32 = 2147483647;

/// Who manages the actors from 2 on; the top actor manages the actor 1.
#[derive(Clone, Copy)]
enum Shape {
    /// The actor of half the number.
    Halves,
    /// The actor that was made before.
    Line,
    /// The actor 1.
    Fan,
}

fn manager(shape: Shape, id: i32) -> i32 {
    if id < 2 {
        return TOP;
    }
    match shape {
        Shape::Halves => id / 2,
        Shape::Line => id - 1,
        Shape::Fan => 1,
    }
}

/// The first of halves that falls with an actor: down to double the number as long as there is one.
fn first_of_halves(id: i32, count: i32) -> i32 {
    let mut first = id;
    for _ in 0..32 {
        if 0 < first && first <= count / 2 {
            first *= 2;
        }
    }
    first
}

fn first_fallen(shape: Shape, count: i32) -> i32 {
    match shape {
        Shape::Halves => first_of_halves(1, count),
        Shape::Line => count,
        Shape::Fan => 2,
    }
}

/// Who falls after an actor: the first that falls with its next younger sibling, or its manager.
fn next_fallen(shape: Shape, id: i32, count: i32) -> i32 {
    match shape {
        Shape::Halves if id % 2 == 0 && id < count => first_of_halves(id + 1, count),
        Shape::Fan if 1 < id && id < count => id + 1,
        _ => manager(shape, id),
    }
}

fn make(tree: &mut Tree, shape: Shape, count: i32) -> bool {
    for earlier in 0..count {
        let id = earlier + 1;
        if tree.insert(id, 0, manager(shape, id)).is_err() {
            return false;
        }
    }
    true
}

/// Whether the actors fall in their order, and the top actor last.
fn fall_in_order(tree: &mut Tree, shape: Shape, count: i32) -> bool {
    let mut wanted = first_fallen(shape, count);
    let mut falling = tree.fall(TOP);
    for _ in 0..count {
        match falling.next() {
            Some(actor) if actor.id == wanted => wanted = next_fallen(shape, wanted, count),
            _ => return false,
        }
    }
    let last = falling.next();
    matches!(last, Some(actor) if actor.id == wanted && wanted == TOP) && falling.next().is_none()
}

fn run(alloc: Global, shape: Shape, count: i32) -> Result<(), Fail> {
    let mut tree = Tree::new(alloc, 0)?;
    if !make(&mut tree, shape, count) {
        return Err("no memory".into());
    }
    if !fall_in_order(&mut tree, shape, count) {
        return Err("an actor falls out of its order".into());
    }
    Ok(())
}

#[test]
fn size_links_in_halves(rt: HostRuntime) -> Result<(), Fail> {
    run(rt.alloc(), Shape::Halves, 300000)?;
    run(rt.alloc(), Shape::Halves, 600000)
}

#[test]
fn size_links_in_a_line(rt: HostRuntime) -> Result<(), Fail> {
    run(rt.alloc(), Shape::Line, 300000)?;
    run(rt.alloc(), Shape::Line, 600000)
}

#[test]
fn size_links_in_a_fan(rt: HostRuntime) -> Result<(), Fail> {
    run(rt.alloc(), Shape::Fan, 300000)?;
    run(rt.alloc(), Shape::Fan, 600000)
}
