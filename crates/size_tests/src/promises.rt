//! Many promises, rejected actor by actor.
use ipdl_base::{Reason, Values};
use promise_table::{Outcome, Promises, Settling};
use std::alloc::Global;
use std::test::Fail;

/// The number of actors that have the promises, in turn.
const ACTORS: i32 = 1000;

/// Makes the promises of the numbers up to a count. A number that was not made cannot be settled.
fn make(promises: &mut Promises, count: i32) -> bool {
    for seq in 0..count {
        match promises.settle(seq, Outcome::Resolved(Values::Nothing)) {
            Settling::Unknown => {}
            Settling::Now | Settling::Already => return false,
        }
        if promises.make(seq, seq % ACTORS).is_err() {
            return false;
        }
    }
    true
}

/// Whether the promises of an actor are rejected oldest first.
fn reject_in_order(promises: &mut Promises, actor: i32, count: i32) -> bool {
    for step in 0..count / ACTORS {
        match promises.reject_of(actor, Reason::ActorDestroyed) {
            Some(seq) if seq / ACTORS == step && seq % ACTORS == actor => {}
            _ => return false,
        }
    }
    promises.reject_of(actor, Reason::ActorDestroyed).is_none()
}

fn run(alloc: Global, count: i32) -> Result<(), Fail> {
    let mut promises = Promises::new(alloc)?;
    if !make(&mut promises, count) {
        return Err("no memory".into());
    }
    for actor in 0..ACTORS {
        if !reject_in_order(&mut promises, actor, count) {
            return Err("a promise is rejected out of its order".into());
        }
    }
    match promises.reject_all(Reason::ActorDestroyed) {
        None => Ok(()),
        Some(_) => Err("a promise pends that was rejected".into()),
    }
}

#[test]
fn size_links_by_actor(rt: HostRuntime) -> Result<(), Fail> {
    run(rt.alloc(), 300000)?;
    run(rt.alloc(), 600000)
}
