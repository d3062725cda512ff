//! The innermost frames of each kind, in a slice that has the outermost frame first.
ghost use Rattle.std.specs.Prelude.{◌≡◌, reverse};
ghost use Rattle.nesting_core.specs.Frames.{has_wait, innermost, innermost_dispatch, innermost_sync_dispatch, innermost_wait, is_inside_sync, is_unanswered};

use crate::frame::{Head, StackFrame};

pub(crate) fn innermost_dispatch(frames: &[StackFrame]) -> Option<Head>
    ensures { result ≡ innermost_dispatch (reverse frames.now) }
{
    let found = frames.iter().rev().find(|frame| frame.is_dispatch());
    found.map(|frame| frame.head())
}

pub(crate) fn innermost_sync_dispatch(frames: &[StackFrame]) -> Option<Head>
    ensures { result ≡ innermost_sync_dispatch (reverse frames.now) }
{
    let found = frames.iter().rev().find(|frame| frame.is_sync_dispatch());
    found.map(|frame| frame.head())
}

pub(crate) fn innermost_wait(frames: &[StackFrame]) -> Option<Head>
    ensures { result ≡ innermost_wait (reverse frames.now) }
{
    let found = frames.iter().rev().find(|frame| frame.is_wait());
    found.map(|frame| frame.head())
}

pub(crate) fn innermost_unanswered(frames: &[StackFrame]) -> Option<Head>
    ensures { result ≡ innermost is_unanswered (reverse frames.now) }
{
    let found = frames.iter().rev().find(|frame| frame.is_unanswered());
    found.map(|frame| frame.head())
}

pub(crate) fn innermost_inside_sync(frames: &[StackFrame]) -> Option<Head>
    ensures { result ≡ innermost is_inside_sync (reverse frames.now) }
{
    let found = frames.iter().rev().find(|frame| frame.is_inside_sync());
    found.map(|frame| frame.head())
}

pub(crate) fn has_wait(frames: &[StackFrame]) -> bool
    ensures { result ≡ has_wait (reverse frames.now) }
{
    frames.iter().rev().any(|frame| frame.is_wait())
}
