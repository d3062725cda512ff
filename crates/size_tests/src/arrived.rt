//! Many arrived items, of two classes and on many routes.
use ipdl_base::{Body, Compress, Level, Message, Side, Values};
use pending_queue::{DeferralContext, Item, Pending};
use std::alloc::Global;
use std::test::Fail;

/// The number of routes on which the requests of one type arrive in turn.
const ROUTES: i32 = 100000;

/// An async request. Its `seq` is its number in the order of arrival.
fn request(number: u32, route: i32, seq: i32, level: Level) -> Item {
    Item::Message {
        message: Message {
            route,
            number,
            seq,
            transaction: 0,
            made: 0,
            body: Body::Request(Values::Nothing),
        },
        sync: false,
        level,
    }
}

fn awaiting(level: Option<Level>) -> DeferralContext {
    DeferralContext {
        side: Side::Parent,
        level,
        transaction: 0,
    }
}

/// Takes the first item, and returns whether it is the one of that `seq`.
fn takes(pending: &mut Pending, holding: &DeferralContext, wanted: i32) -> bool {
    match pending.take_first(holding) {
        Some(Item::Message { message, .. }) => message.seq == wanted,
        Some(Item::Broken) | None => false,
    }
}

fn push_level(pending: &mut Pending, level: Level, count: i32) -> bool {
    for seq in 0..count {
        if pending
            .push(request(2, 1, seq, level), Compress::Plain)
            .is_err()
        {
            return false;
        }
    }
    true
}

fn take_in_order(pending: &mut Pending, holding: &DeferralContext, count: i32) -> bool {
    for seq in 0..count {
        if !takes(pending, holding, seq) {
            return false;
        }
    }
    pending.take_first(holding).is_none()
}

fn by_class(alloc: Global, count: i32) -> Result<(), Fail> {
    let mut pending = Pending::new(alloc)?;
    if !(push_level(&mut pending, Level::Not, count)
        && push_level(&mut pending, Level::InsideCpow, count))
    {
        return Err("no memory".into());
    }
    if !take_in_order(&mut pending, &awaiting(Some(Level::InsideSync)), count) {
        return Err("an item that is not deferred is taken out of its order".into());
    }
    if !take_in_order(&mut pending, &awaiting(None), count) {
        return Err("an item is taken out of its order".into());
    }
    Ok(())
}

/// Every third item is of one type that compresses, on the routes in turn; the others are plain and of another type.
fn push_turn(pending: &mut Pending, seq: i32) -> bool {
    let pushed = if seq % 3 == 0 {
        pending.push(request(4, seq / 3 % ROUTES, seq, Level::Not), Compress::All)
    } else {
        pending.push(request(2, 1, seq, Level::Not), Compress::Plain)
    };
    pushed.is_ok()
}

fn push_turns(pending: &mut Pending, count: i32) -> bool {
    for seq in 0..count {
        if !push_turn(pending, seq) {
            return false;
        }
    }
    true
}

/// Whether an item is replaced by a later one of its type and route.
fn made_way(seq: i32, count: i32) -> bool {
    seq % 3 == 0 && seq / 3 < count / 3 - ROUTES
}

fn by_route(alloc: Global, count: i32) -> Result<(), Fail> {
    let mut pending = Pending::new(alloc)?;
    if !push_turns(&mut pending, count) {
        return Err("no memory".into());
    }
    let holding = awaiting(None);
    for seq in 0..count {
        if !made_way(seq, count) && !takes(&mut pending, &holding, seq) {
            return Err("an item is taken out of its order".into());
        }
    }
    if !pending.is_empty() {
        return Err("an item stays that made way".into());
    }
    Ok(())
}

#[test]
fn size_links_by_class(rt: HostRuntime) -> Result<(), Fail> {
    by_class(rt.alloc(), 150000)?;
    by_class(rt.alloc(), 300000)
}

#[test]
fn size_links_by_route(rt: HostRuntime) -> Result<(), Fail> {
    by_route(rt.alloc(), 300000)?;
    by_route(rt.alloc(), 600000)
}
