//! The law Fallen: which actors fall, and in which order.
ghost use Rattle.std.specs.Prelude.{◌≡◌, ℤ, reverse};
ghost use Rattle.history_reading.specs.Fallen as the;
ghost use Rattle.history_reading.specs.EndReadings.{end_view};

use history_reading::{ActorPlace, BuiltActor, Cause, EndReading, NumberList, actor_place};
use ipdl_base::{Destroy, What};

/// Whether a living actor has this manager.
fn manages_living(built: &[BuiltActor], fallen: &NumberList, id: i32) -> bool
    ensures { result ≡ the.manages_living_of fallen.now built.now id }
{
    built
        .iter()
        .any(|actor| actor.manager == id && !fallen.has(actor.id))
}

/// Whether a younger actor of the same manager has fallen in the event.
fn younger_fell(falls: &[ActorPlace], actor: &ActorPlace) -> bool
    ensures { result ≡ the.younger_fell_of falls.now actor.now }
{
    falls.iter().any(|other| other.manager == actor.manager && actor.place < other.place)
}

/// Whether nobody lives.
fn is_empty(built: &[BuiltActor], fallen: &NumberList) -> bool
    ensures { result ≡ the.all_fallen fallen.now built.now }
{
    built.iter().all(|actor| fallen.has(actor.id))
}

/// Whether an actor is below another among the actors that were built.
fn is_below(built: &[BuiltActor], id: i32, top: i32) -> bool
    ensures { result ≡ the.is_below built.now id top }
{
    let mut current = id;
    for index in (0..built.len()).rev() {
        let actor = built[index];
        if actor.id == current {
            if actor.manager == top {
                return true;
            }
            current = actor.manager;
        }
    }
    false
}

/// Whether both reasons are the same.
fn same_destroy(a: Destroy, b: Destroy) -> bool
    ensures { result ≡ the.same_destroy a b }
{
    matches!(
        (a, b),
        (Destroy::Deletion, Destroy::Deletion)
            | (Destroy::AncestorDeletion, Destroy::AncestorDeletion)
            | (Destroy::NormalShutdown, Destroy::NormalShutdown)
            | (Destroy::AbnormalShutdown, Destroy::AbnormalShutdown)
    )
}

/// Whether a destructor destroys an actor for this reason, where `top` is the actor that it
/// deletes.
fn is_deleted(built: &[BuiltActor], top: i32, id: i32, why: Destroy) -> bool
    ensures { result ≡ the.is_deleted built.now top id why }
{
    match why {
        Destroy::Deletion => id == top,
        Destroy::AncestorDeletion => is_below(built, id, top),
        Destroy::NormalShutdown | Destroy::AbnormalShutdown => false,
    }
}

/// Whether the event destroys an actor for this reason.
#[tactic(auto, unfolding(history_reading::specs::Fallen::lets_fall))]
fn lets_fall(built: &[BuiltActor], cause: Cause, id: i32, why: Destroy) -> bool
    ensures { result ≡ the.lets_fall built.now cause id why }
{
    match cause {
        Cause::Nobody => false,
        Cause::Delete(top) => is_deleted(built, top, id, why),
        Cause::Closing(reason) => same_destroy(why, reason),
    }
}

/// Whether a younger actor of the same manager as this one has fallen in the event.
fn has_younger_fall(own: &EndReading<'_>, id: i32) -> bool
    ensures { result ≡ the.younger_fell (end_view own.now) id }
{
    let standing = actor_place(own.built.as_slice(), id);
    younger_fell(own.falls.as_slice(), &standing)
}

/// Whether an actor manages a living one.
fn has_living_below(own: &EndReading<'_>, id: i32) -> bool
    ensures { result ≡ the.manages_living (end_view own.now) id }
{
    manages_living(own.built.as_slice(), &own.fallen, id)
}

/// Whether an actor is the next to fall.
#[tactic(auto, unfolding(history_reading::specs::Fallen::is_next))]
fn is_next(own: &EndReading<'_>, id: i32) -> bool
    ensures { result ≡ the.is_next (end_view own.now) id }
{
    !has_living_below(own, id) && !has_younger_fall(own, id)
}

/// Whether an actor that lives may fall now.
fn falls_now(own: &EndReading<'_>, id: i32, why: Destroy) -> bool
    ensures { result ≡ the.falls_now (end_view own.now) id why }
{
    is_next(own, id) && lets_fall(own.built.as_slice(), own.cause, id, why)
}

/// Whether an actor may fall now.
fn may_fall(own: &EndReading<'_>, id: i32, why: Destroy) -> bool
    ensures { result ≡ the.may_fall (end_view own.now) id why }
{
    own.lives(id) && falls_now(own, id, why)
}

/// Whether a line obeys the law.
pub fn fallen_line(own: &EndReading<'_>, what: &What) -> bool
    ensures { result ≡ the.fallen_line (end_view own.now) what.now }
{
    match what {
        What::Built(_, _) => !own.fallen.has(own.event.route()),
        What::Fall(id, why) => may_fall(own, *id, *why),
        _ => true,
    }
}

/// Whether no actor lives at an end that has closed.
pub fn fallen_moment(own: &EndReading<'_>) -> bool
    ensures { result ≡ the.fallen_moment (end_view own.now) }
{
    !own.over || is_empty(own.built.as_slice(), &own.fallen)
}
