//! The lock of the table. The side that holds it has the link.

ghost use Rattle.std.specs.Prelude.{◌≡◌, ◌≤◌, ◌+◌, ◌%◌, ◌*◌, ◌<◌, ◌^◌, IfSome, IfNone, length};
ghost use Rattle.thread_link.specs.LinkRule.{number_of, seen_by};
ghost use Rattle.thread_link.specs.Seats.{Adds, HasGiven, HasTaken, IsHolder, IsSeatOf, IsShaped};
ghost use Rattle.world_core.specs.Halves.{IsHome};

use crate::parts::{Count, Lock, Release, SharedLink};
use crate::pass::{Board, SideSeat};
use ipdl_base::Side;
use std::sync::Wait;
use std::time::Duration;

/// The greatest number of pieces in which a side waits for the other one to begin, and the length of
/// each: one second in all.
const MOST_PIECES: u32 = 100;

const PIECE_MILLIS: u64 = 10;

// Returns the number that marks a side as the holder of the link.
fn number(side: Side) -> u64
    ensures { result ≡ number_of side }
{
    match side {
        Side::Parent => 1,
        Side::Child => 2,
    }
}

/// Returns the first word of the table if no side holds the link and the history has this number of
/// lines.
pub fn free_word(lines: usize) -> u64
    requires { 4 * lines < 2 ^ 64 }
    ensures { result ≡ 4 * lines }
{
    4 * (lines as u64)
}

// Returns the low half of a word, on which threads sleep.
fn low_half(word: u64) -> u32 {
    (word & 0xFFFF_FFFF) as u32
}

// Takes the link if the word is still `found`.
fn try_take(board: &Board<'_>, seat: &mut SideSeat, side: Side, found: u64) -> Option<SharedLink>
    requires board { IsShaped board.now.table_id × (seat.old.table_id ≡ board.now.table_id) }
    requires seat { IsSeatOf side seat.old }
    requires free { found % 4 ≡ 0 }
    ensures taken { IfSome result (λ shared. HasTaken side seat.old seat.new shared) }
    ensures same { IfNone result ((seat.new.table_id ≡ seat.old.table_id) × (seat.new.me ≡ seat.old.me)) }
{
    if board.compare_exchange::<Lock>(seat, 0, found, found + number(side)) != found {
        return None;
    }
    let Some(shared) = board.exchange(seat, 0, None) else {
        unreachable!()
    };
    Some(shared)
}

/// Waits until no side holds the link, and takes it.
pub fn take<R: Wait>(rt: &R, board: &Board<'_>, seat: &mut SideSeat, side: Side) -> SharedLink
    requires board { IsShaped board.now.table_id × (seat.old.table_id ≡ board.now.table_id) }
    requires seat { IsSeatOf side seat.old }
    ensures { HasTaken side seat.old seat.new result }
{
    for _ in rt.forever() {
        let found = board.peek(0);
        if found % 4 != 0 {
            board.park(rt, 0, low_half(found));
        } else if let Some(shared) = try_take(board, seat, side, found) {
            return shared;
        }
    }
    unreachable!()
}

/// Counts a turn, and returns how many there have been, including this one.
pub fn count(board: &Board<'_>, seat: &mut SideSeat) -> u64
    requires board { IsShaped board.now.table_id × (seat.old.table_id ≡ board.now.table_id) }
    ensures table { seat.new.table_id ≡ seat.old.table_id }
    ensures me { seat.new.me ≡ seat.old.me }
{
    board.fetch_add::<Count>(seat, 1, 1).wrapping_add(1)
}

/// Sleeps while there have been `turns` turns, and returns whether the side must continue. If all of
/// them were the side's own, the other side has not begun yet: then the side sleeps for about a second
/// at most, and continues only if there was another turn.
pub fn sleep<R: Wait>(rt: &R, board: &Board<'_>, turns: u64, own: u64) -> bool
    requires { IsShaped board.now.table_id }
{
    if own < turns {
        board.park(rt, 1, low_half(turns));
        return true;
    }
    for _ in 0..MOST_PIECES {
        board.park_timeout(rt, 1, low_half(turns), Duration::from_millis(PIECE_MILLIS));
        if board.peek(1) != turns {
            return true;
        }
    }
    false
}

/// Counts the turn, gives the link back, and wakes a side that waits for the link or for a turn. Lines
/// of the side may have been added to the link. Returns how many turns there have been, including this
/// one.
pub fn give(board: &Board<'_>, seat: &mut SideSeat, side: Side, shared: SharedLink) -> u64
    requires board { IsShaped board.now.table_id × (seat.old.table_id ≡ board.now.table_id) }
    requires seat { IsHolder side seat.old }
    requires adds { Adds side (seen_by side seat.old.me.0) shared.link.lines }
    requires home { IsHome seat.old.me.0.setting shared.link }
    requires short { 4 * length shared.link.lines < 2 ^ 64 }
    ensures { HasGiven side seat.old seat.new shared }
{
    let word = free_word(shared.link.lines());
    let turns = count(board, seat);
    drop(board.exchange(seat, 0, Some(shared)));
    board.store::<Release>(seat, 0, word);
    board.wake_one(0);
    board.wake_one(1);
    turns
}
