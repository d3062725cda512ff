//! Whether a line takes, of what waits, the first packet that its end does not defer.
ghost use Rattle.std.specs.Prelude.{◌≡◌, ◌≤◌, find, length, not, option_map};
ghost use Rattle.std.specs.List.{list_all, prefix_len, take_while};
ghost use Rattle.ipdl_base.specs.Sound.{IsSound};
ghost use Rattle.history_reading.specs.EndReadings.{end_view};
ghost use Rattle.history_reading.specs.Numbers.{same_packet};
ghost use Rattle.history_reading.specs.Still as still;
ghost use Rattle.reading_checks.specs.Deferrals.{deferral_view};
ghost use Rattle.order_statements.specs.Order as order;
ghost use Rattle.order_checks.specs.OrderTests as the;

use history_reading::{EndReading, PacketKind};
use ipdl_base::{Level, Schema, Side, What};
use nesting_core::Head;
use reading_checks::{DeferralState, deferral_of, defers_packet, request_head};

/// What deferral looks at of a packet.
#[derive(Clone, Copy)]
pub enum Arrival {
    Request(Head),
    Reply,
    Goodbye,
    Mark,
}

/// What deferral looks at of a packet that the other end has sent.
fn arrival_of(schema: &Schema, other: &EndReading<'_>, packet: PacketKind) -> Option<Arrival>
    requires { IsSound schema.now }
    ensures { option_map the.arrival_view result ≡ the.packet_arrival schema.now (end_view other.now) packet }
{
    match packet {
        PacketKind::Request(n) => match request_head(schema, other, n) {
            Some(head) => Some(Arrival::Request(head)),
            None => None,
        },
        PacketKind::Reply(_) => Some(Arrival::Reply),
        PacketKind::Goodbye => Some(Arrival::Goodbye),
        PacketKind::Broken => Some(Arrival::Mark),
    }
}

/// Whether a level is below `InsideCpow`.
fn is_below_cpow(level: Level) -> bool
    ensures { result ≡ the.is_below_cpow level }
{
    !matches!(level, Level::InsideCpow)
}

/// Whether a packet waits while any call waits.
fn is_async(arrival: Arrival) -> bool
    ensures { result ≡ the.is_async (the.arrival_view arrival) }
{
    match arrival {
        Arrival::Request(head) => !head.sync && is_below_cpow(head.level),
        Arrival::Reply => true,
        Arrival::Goodbye | Arrival::Mark => false,
    }
}

/// Whether a sync request is not nested, or of level `InsideSync` and another transaction.
fn is_of_another(transaction: i32, level: Level, other: i32) -> bool
    ensures { result ≡ the.is_of_another transaction level other }
{
    match level {
        Level::Not => true,
        Level::InsideSync => transaction != other,
        Level::InsideCpow => false,
    }
}

/// Whether a packet is such a request.
fn is_call_of_another(transaction: i32, arrival: Arrival) -> bool
    ensures { result ≡ the.is_call_of_another transaction (the.arrival_view arrival) }
{
    match arrival {
        Arrival::Request(head) => {
            head.sync && is_of_another(transaction, head.level, head.transaction)
        }
        _ => false,
    }
}

/// Whether a packet is a sync request below level `InsideCpow`.
fn is_call_below_cpow(arrival: Arrival) -> bool
    ensures { result ≡ the.is_call_below_cpow (the.arrival_view arrival) }
{
    match arrival {
        Arrival::Request(head) => head.sync && is_below_cpow(head.level),
        _ => false,
    }
}

/// Whether an end is the parent's.
fn is_parent(side: Side) -> bool
    ensures { result ≡ the.is_parent side }
{
    matches!(side, Side::Parent)
}

/// Whether a request may be taken before an older packet.
fn request_overtakes(side: Side, head: Head, older: Arrival) -> bool
    ensures { result ≡ the.request_overtakes side head.sync head.level head.transaction (the.arrival_view older) }
{
    match head.level {
        Level::Not => false,
        Level::InsideSync => {
            head.sync
                && (is_async(older)
                    || (is_parent(side) && is_call_of_another(head.transaction, older)))
        }
        Level::InsideCpow => is_parent(side) && (is_async(older) || is_call_below_cpow(older)),
    }
}

/// Whether a packet may be taken before an older one.
fn may_overtake(side: Side, taken: Arrival, older: Arrival) -> bool
    ensures { result ≡ the.may_overtake side (the.arrival_view taken) (the.arrival_view older) }
{
    match taken {
        Arrival::Request(head) => request_overtakes(side, head, older),
        _ => false,
    }
}

/// Whether one may be, by what the other end has sent.
fn packet_overtakes(
    schema: &Schema,
    side: Side,
    other: &EndReading<'_>,
    packet: PacketKind,
    older: PacketKind,
) -> bool
    requires { IsSound schema.now }
    ensures { result ≡ the.packet_overtakes schema.now side (end_view other.now) packet older }
{
    match (
        arrival_of(schema, other, packet),
        arrival_of(schema, other, older),
    ) {
        (Some(taken), Some(waiting)) => may_overtake(side, taken, waiting),
        _ => false,
    }
}

/// The first packet that is not deferred.
fn first_free<'a>(
    schema: &Schema,
    other: &EndReading<'_>,
    deferral: &DeferralState,
    waiting: &'a [PacketKind],
) -> Option<&'a PacketKind>
    requires { IsSound schema.now }
    ensures { option_map (λ packet. packet.now) result ≡ find (λ packet. not (still.defers_packet schema.now (end_view other.now) (deferral_view deferral.now) packet)) waiting.now }
{
    waiting
        .iter()
        .find(|packet| !defers_packet(schema, other, deferral, **packet))
}

/// Whether that is this one.
fn is_first_free(
    schema: &Schema,
    other: &EndReading<'_>,
    deferral: &DeferralState,
    packet: PacketKind,
    waiting: &[PacketKind],
) -> bool
    requires { IsSound schema.now }
    ensures { result ≡ the.is_first_free (still.defers_packet schema.now (end_view other.now) (deferral_view deferral.now)) packet waiting.now }
{
    match first_free(schema, other, deferral, waiting) {
        Some(first) => first.same(&packet),
        None => false,
    }
}

/// How many packets are deferred before the first that is not.
fn count_deferred(
    schema: &Schema,
    other: &EndReading<'_>,
    deferral: &DeferralState,
    waiting: &[PacketKind],
) -> usize
    requires { IsSound schema.now }
    ensures count { result ≡ prefix_len (still.defers_packet schema.now (end_view other.now) (deferral_view deferral.now)) waiting.now }
    ensures within { result ≤ length waiting.now }
{
    waiting
        .iter()
        .take_while(|packet| defers_packet(schema, other, deferral, **packet))
        .count()
}

/// Whether a packet may be taken before some older ones.
fn overtakes_all(
    schema: &Schema,
    side: Side,
    other: &EndReading<'_>,
    packet: PacketKind,
    older: &[PacketKind],
) -> bool
    requires { IsSound schema.now }
    ensures { result ≡ list_all (the.packet_overtakes schema.now side (end_view other.now) packet) older.now }
{
    older
        .iter()
        .all(|one| packet_overtakes(schema, side, other, packet, *one))
}

/// Whether a packet is the first that is not deferred, and may be taken before all that are older.
fn takes_first_free(
    schema: &Schema,
    side: Side,
    own: &EndReading<'_>,
    other: &EndReading<'_>,
    packet: PacketKind,
    waiting: &[PacketKind],
) -> bool
    requires { IsSound schema.now }
    ensures { result ≡ the.takes_first_free (the.is_deferred schema.now side (end_view own.now) (end_view other.now)) (the.packet_overtakes schema.now side (end_view other.now) packet) packet waiting.now }
{
    let deferral = deferral_of(schema, side, own, other);
    let older = count_deferred(schema, other, &deferral, waiting);
    is_first_free(schema, other, &deferral, packet, waiting)
        && overtakes_all(schema, side, other, packet, &waiting[..older])
}

/// Whether all packets are this one.
fn are_all(waiting: &[PacketKind], packet: PacketKind) -> bool
    ensures { result ≡ list_all (λ p. same_packet p packet) waiting.now }
{
    waiting.iter().all(|one| one.same(&packet))
}

/// Whether nothing else waits, and no call of the end waits for its answer.
fn waits_alone(own: &EndReading<'_>, waiting: &[PacketKind], packet: PacketKind) -> bool
    ensures { result ≡ the.waits_alone (end_view own.now) waiting.now packet }
{
    are_all(waiting, packet) && !own.stack.has_unanswered()
}

/// Whether a packet is taken in order, by a line that closes the end or by one that does not.
fn is_taken_in_order(
    schema: &Schema,
    side: Side,
    own: &EndReading<'_>,
    other: &EndReading<'_>,
    waiting: &[PacketKind],
    shut: bool,
    packet: PacketKind,
) -> bool
    requires { IsSound schema.now }
    ensures { result ≡ the.is_taken_in_order schema.now side (end_view own.now) (end_view other.now) waiting.now shut packet }
{
    takes_first_free(schema, side, own, other, packet, waiting)
        && (!shut || waits_alone(own, waiting, packet))
}

/// The packet that a line takes, or drops.
fn packet_taken(what: &What) -> Option<PacketKind>
    ensures { result ≡ order.packet_taken what.now }
{
    match what {
        What::Take(n, _, _, _) | What::Drop(n, _, _, _) => Some(PacketKind::Request(*n)),
        What::TakeReply(n) => Some(PacketKind::Reply(*n)),
        What::ShutNormal => Some(PacketKind::Goodbye),
        What::ShutAbnormal => Some(PacketKind::Broken),
        _ => None,
    }
}

/// Whether a line closes its end because the other has ended.
fn is_shut(what: &What) -> bool
    ensures { result ≡ order.is_shut what.now }
{
    matches!(what, What::ShutNormal | What::ShutAbnormal)
}

/// Whether a line takes in order, by what is read of its end and of the other before it, and by the packets that wait at its
/// end.
pub fn order_line(
    schema: &Schema,
    side: Side,
    own: &EndReading<'_>,
    other: &EndReading<'_>,
    waiting: &[PacketKind],
    what: &What,
) -> bool
    requires { IsSound schema.now }
    ensures { result ≡ the.order_line schema.now side (end_view own.now) (end_view other.now) waiting.now what.now }
{
    match packet_taken(what) {
        Some(packet) => {
            is_taken_in_order(schema, side, own, other, waiting, is_shut(what), packet)
        }
        None => true,
    }
}
