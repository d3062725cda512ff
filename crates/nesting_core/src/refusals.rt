//! Why a stack refuses a sync send. The slices have the outermost frame first.
ghost use Rattle.std.specs.Prelude.{◌≡◌, ◌==◌, ◌&&◌, reverse, length};
ghost use Rattle.nesting_core.specs.Refusals.{has_level, is_below, is_nested_in_normal, is_inside_cpow, is_level_too_low};

use crate::frame::{Head, SendHead, StackFrame};
use crate::innermost::{innermost_dispatch, innermost_sync_dispatch, innermost_wait};
use ipdl_base::Level;

/// Whether there is a message, and it is of this level.
fn has_level(level: Level, found: Option<Head>) -> bool
    ensures { result ≡ has_level level found }
{
    match found {
        Some(head) => head.level == level,
        None => false,
    }
}

/// Whether there is a message, and this level is below its level.
fn is_below(level: Level, found: Option<Head>) -> bool
    ensures { result ≡ is_below level found }
{
    match found {
        Some(head) => level.rank() < head.level.rank(),
        None => false,
    }
}

pub(crate) fn is_nested_in_normal(frames: &[StackFrame], head: &SendHead) -> bool
    ensures { result ≡ is_nested_in_normal (reverse frames.now) head.now }
{
    head.sync && has_level(Level::Not, innermost_sync_dispatch(frames)) && head.level != Level::Not
}

pub(crate) fn is_inside_cpow(frames: &[StackFrame], head: &SendHead) -> bool
    ensures { result ≡ is_inside_cpow (reverse frames.now) head.now }
{
    head.sync && has_level(Level::InsideCpow, innermost_dispatch(frames))
}

pub(crate) fn is_level_too_low(frames: &[StackFrame], head: &SendHead) -> bool
    ensures { result ≡ is_level_too_low (reverse frames.now) head.now }
{
    head.sync
        && (is_below(head.level, innermost_sync_dispatch(frames))
            || is_below(head.level, innermost_wait(frames)))
}
