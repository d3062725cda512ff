//! Tests of the effects of an event.
ghost use Rattle.std.specs.Prelude.{◌≡◌, ◌≤◌, length};
ghost use Rattle.std.specs.List.{list_any, prefix_len};
ghost use Rattle.history_reading.specs.Settled.{is_fall_of};
ghost use Rattle.history_reading.specs.Waits as waits;
ghost use Rattle.law_statements.specs.Packets.{number_settled};
ghost use Rattle.order_statements.specs.Effects.{lets_go};
ghost use Rattle.order_checks.specs.EffectTests as the;

use history_reading::NumberList;
use ipdl_base::{Line, Reason, What, is_effect};

/// Whether a line is an effect.
#[tactic(auto, unfolding(crate::specs::EffectTests::is_effect_line))]
fn is_effect_line(line: &Line) -> bool
    ensures { result ≡ the.is_effect_line line.now }
{
    is_effect(&line.what)
}

/// Returns the number of effects that lines begin with.
fn count_effects(following: &[Line]) -> usize
    ensures count { result ≡ prefix_len the.is_effect_line following.now }
    ensures within { result ≤ length following.now }
{
    for (index, line) in following.iter().enumerate() {
        if !is_effect_line(line) {
            return index;
        }
    }
    following.len()
}

/// Returns the effects that lines begin with.
pub fn effects_next(following: &[Line]) -> &[Line]
    ensures { the.whats result.now ≡ the.effects_next following.now }
{
    &following[..count_effects(following)]
}

/// Whether there is no effect.
pub fn is_none(effects: &[Line]) -> bool
    ensures { result ≡ the.is_none (the.whats effects.now) }
{
    matches!(effects, [])
}

/// Whether both are the same reason.
pub fn same_reason(a: Reason, b: Reason) -> bool
    ensures { result ≡ waits.same_reason a b }
{
    matches!(
        (a, b),
        (Reason::ChannelClosed, Reason::ChannelClosed)
            | (Reason::HandlerRejected, Reason::HandlerRejected)
            | (Reason::ActorDestroyed, Reason::ActorDestroyed)
            | (Reason::ResolverDestroyed, Reason::ResolverDestroyed)
    )
}

/// Whether an effect is the answer with a fault to the request of a number.
fn is_fault_to(what: &What, n: i32, why: Reason) -> bool
    ensures { result ≡ the.is_fault_to n why what.now }
{
    match what {
        What::AnswerFault(m, given) => *m == n && same_reason(*given, why),
        _ => false,
    }
}

/// Whether the only effect is that answer.
pub fn is_fault_alone(effects: &[Line], n: i32, why: Reason) -> bool
    ensures { result ≡ the.is_fault_alone n why (the.whats effects.now) }
{
    match effects {
        [line] => is_fault_to(&line.what, n, why),
        _ => false,
    }
}

/// Whether the first effect is that answer.
pub fn is_fault_first(effects: &[Line], n: i32, why: Reason) -> bool
    ensures { result ≡ the.is_fault_first n why (the.whats effects.now) }
{
    match effects {
        [line, ..] => is_fault_to(&line.what, n, why),
        [] => false,
    }
}

/// Whether the only effect is that answer if it is due, and there is no effect otherwise.
pub fn is_fault_due(effects: &[Line], due: bool, n: i32, why: Reason) -> bool
    ensures { result ≡ the.is_fault_due due n why (the.whats effects.now) }
{
    if due {
        is_fault_alone(effects, n, why)
    } else {
        is_none(effects)
    }
}

/// Whether an effect is the answer of a returning handler to the sync request of a number.
fn is_returned(what: &What, n: i32) -> bool
    ensures { result ≡ the.is_returned n what.now }
{
    match what {
        What::AnswerOk(m, _) => *m == n,
        What::AnswerFault(m, why) => *m == n && same_reason(*why, Reason::HandlerRejected),
        _ => false,
    }
}

/// Whether the first effect is that answer.
pub fn is_return_first(effects: &[Line], n: i32) -> bool
    ensures { result ≡ the.is_return_first n (the.whats effects.now) }
{
    match effects {
        [line, ..] => is_returned(&line.what, n),
        [] => false,
    }
}

/// Returns the number of the promise that a line settles.
fn number_settled(what: &What) -> Option<i32>
    ensures { result ≡ number_settled what.now }
{
    match what {
        What::Resolved(n, _) | What::Rejected(n, _) => Some(*n),
        _ => None,
    }
}

/// Whether an effect settles the promise of a number.
fn is_settling_of(what: &What, n: i32) -> bool
    ensures { result ≡ the.is_settling_of n what.now }
{
    match number_settled(what) {
        Some(m) => m == n,
        None => false,
    }
}

/// Whether the only effect settles it.
pub fn is_settling_alone(effects: &[Line], n: i32) -> bool
    ensures { result ≡ the.is_settling_alone n (the.whats effects.now) }
{
    match effects {
        [line] => is_settling_of(&line.what, n),
        _ => false,
    }
}

/// Whether an effect builds an actor of a protocol that has not fallen.
fn is_birth(what: &What, fallen: &NumberList, protocol: u32) -> bool
    ensures { result ≡ the.is_birth fallen.now protocol what.now }
{
    match what {
        What::Built(id, built) => *built == protocol && !fallen.has(*id),
        _ => false,
    }
}

/// Whether the only effect builds it.
pub fn is_birth_alone(effects: &[Line], fallen: &NumberList, protocol: u32) -> bool
    ensures { result ≡ the.is_birth_alone fallen.now protocol (the.whats effects.now) }
{
    match effects {
        [line] => is_birth(&line.what, fallen, protocol),
        _ => false,
    }
}

/// Whether a line is the answer for a destroyed resolver.
fn lets_go(what: &What) -> bool
    ensures { result ≡ lets_go what.now }
{
    matches!(what, What::AnswerFault(_, Reason::ResolverDestroyed))
}

/// Whether the only effect builds it, or the only one after an answer for a destroyed resolver.
pub fn is_birth_last(effects: &[Line], fallen: &NumberList, protocol: u32) -> bool
    ensures { result ≡ the.is_birth_last fallen.now protocol (the.whats effects.now) }
{
    match effects {
        [line] => is_birth(&line.what, fallen, protocol),
        [lost, line] => lets_go(&lost.what) && is_birth(&line.what, fallen, protocol),
        _ => false,
    }
}

/// Whether a line is the fall of an actor.
fn is_fall_of(what: &What, id: i32) -> bool
    ensures { result ≡ is_fall_of id what.now }
{
    match what {
        What::Fall(fallen, _) => *fallen == id,
        _ => false,
    }
}

/// Whether an actor falls among effects.
fn falls(effects: &[Line], id: i32) -> bool
    ensures { result ≡ list_any (λ line. is_fall_of id line.what) effects.now }
{
    effects.iter().any(|line| is_fall_of(&line.what, id))
}

/// Whether an actor has fallen, at the latest in the event.
pub fn has_fallen(effects: &[Line], fallen: &NumberList, id: i32) -> bool
    ensures { result ≡ the.has_fallen fallen.now id (the.whats effects.now) }
{
    fallen.has(id) || falls(effects, id)
}
