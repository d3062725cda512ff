//! The stack of one end.
ghost use Rattle.std.specs.Prelude.{◌≡◌, ◌↔◌, ◌<◌, ◌≤◌, [], ◌∷◌, length, take, reverse, IsTrue, IfNone};
ghost use Rattle.std.specs.Bool.{OnTrue, OnFalse};
ghost use Rattle.nesting_core.specs.Answers.{awaited, with_answer};
ghost use Rattle.nesting_core.specs.Deferral.{defers, inner_transaction, transaction_of};
ghost use Rattle.nesting_core.specs.Frames.{has_wait};
ghost use Rattle.nesting_core.specs.Refusals.{refusal_of};
ghost use Rattle.nesting_core.specs.Room.{FitsRoom, LeavesRoom};
ghost use Rattle.nesting_core.specs.Top.{after_pop, popped_of, top_of};
ghost use Rattle.ipdl_base.specs.declared.kinds.Reason.TheVariants.{ChannelClosed};
ghost use Rattle.nesting_core.specs.declared.frame.Answer.TheVariants.{Fault};
ghost use Rattle.nesting_core.specs.declared.frame.StackFrame.TheVariants.{Dispatch, Wait};

use crate::frame::{Answer, Head, PoppedFrame, SendHead, StackFrame, StackTop};
use crate::innermost::{has_wait, innermost_inside_sync, innermost_unanswered};
use crate::refusals::{is_inside_cpow, is_level_too_low, is_nested_in_normal};
use ipdl_base::{Level, Reason, SendRefusal, Side, defers_request};
use std::marker::Model;
use std::{array, mem};

/// The number of frames that a stack has room for.
const ROOM: usize = 64;

/// The number of frames from which no further sync message is sent: its wait leaves room for a
/// dispatch.
const SEND_LIMIT: usize = 63;

/// The content of an array entry that is no frame of the stack.
const VACANT: StackFrame = StackFrame::Dispatch(Head {
    sync: false,
    level: Level::Not,
    seq: 0,
    transaction: 0,
});

/// The frames of an end. Contracts see them as a list, the innermost first.
#[derive(Drop)]
pub struct Stack {
    /// The frames, the outermost first, followed by vacant entries.
    frames: [StackFrame; ROOM],
    len: usize,
}

impl Model for Stack {
    ghost use Rattle.std.specs.Prelude.{List, ◌≤◌, take, reverse};
    ghost use Rattle.std.specs.Coded.{codes};
    ghost use Rattle.ipdl_base.specs.contracts.value.Values as values;
    ghost use Rattle.nesting_core.specs.declared.frame.StackFrame.{StackFrame};
    ghost use Rattle.nesting_core.specs.Room.{FitsRoom};

    ghost Value = { List StackFrame };

    ghost coded = { Prim.hlevel (codes, values.the_row.coded) };

    ghost view = { λ s. reverse (take s.len s.frames) };

    ghost invariant = { λ s. (s.len ≤ 64) × FitsRoom (reverse (take s.len s.frames)) };
}

impl Stack {
    /// Returns the stack without frames.
    pub fn new() -> Stack
        ensures { result ≡ [] }
    {
        let frames = array::from_fn(|_| VACANT);
        Stack { frames, len: 0 }
    }

    /// Returns the number of frames, at most 64. There are fewer than 64 frames below each
    /// dispatch, and fewer than 63 below each wait.
    pub fn len(&self) -> usize
        ensures count { result ≡ length self.now }
        ensures bound { length self.now ≤ 64 }
        ensures room { FitsRoom self.now }
    {
        self.outward().len()
    }

    /// Returns the frame on top. Unless it is a dispatch, there is room for one.
    pub fn top(&self) -> StackTop
        ensures frame { result ≡ top_of self.now }
        ensures room { LeavesRoom result (length self.now) }
    {
        top(self.outward())
    }

    /// Whether the stack has a wait, answered or not.
    pub fn has_wait(&self) -> bool
        ensures { result ≡ has_wait self.now }
    {
        has_wait(self.outward())
    }

    /// Returns the number of the innermost wait whose answer has not come, or `None`.
    pub fn awaited(&self) -> Option<i32>
        ensures { result ≡ awaited self.now }
    {
        innermost_unanswered(self.outward()).map(|head| head.seq)
    }

    /// Returns the transaction of a sync message that is sent now with this number.
    pub fn transaction(&self, seq: i32) -> i32
        ensures { result ≡ transaction_of self.now seq }
    {
        self.inner_transaction().unwrap_or(seq)
    }

    /// Whether an end on this side defers a request that arrived. An end defers only if a wait is
    /// on top whose answer has not come.
    pub fn defers(&self, side: Side, head: &Head) -> bool
        ensures { result ≡ defers side self.now head.now }
    {
        match self.top() {
            StackTop::Unanswered(wait) => {
                let inner = self.inner_transaction();
                defers_request(
                    side,
                    wait.level,
                    inner,
                    head.sync,
                    head.level,
                    head.transaction,
                )
            }
            _ => false,
        }
    }

    /// Returns why a send is refused: the first of `NestedInNormal`, `InsideCpow`, `LevelTooLow`
    /// and `TooDeep` that holds. An async send is never refused.
    pub fn refusal(&self, head: &SendHead) -> Option<SendRefusal>
        ensures { result ≡ refusal_of self.now head.now }
    {
        let frames = self.outward();
        if is_nested_in_normal(frames, head) {
            Some(SendRefusal::NestedInNormal)
        } else if is_inside_cpow(frames, head) {
            Some(SendRefusal::InsideCpow)
        } else if is_level_too_low(frames, head) {
            Some(SendRefusal::LevelTooLow)
        } else if head.sync && frames.len() >= SEND_LIMIT {
            Some(SendRefusal::TooDeep)
        } else {
            None
        }
    }

    /// Pushes a dispatch.
    pub fn push_dispatch(&mut self, head: Head)
        requires { length self.old < 64 }
        ensures { self.new ≡ Dispatch head ∷ self.old }
    {
        self.frames[self.len] = StackFrame::Dispatch(head);
        self.len += 1;
    }

    /// Pushes a wait whose answer has not come.
    pub fn push_wait(&mut self, head: Head)
        requires { length self.old < 63 }
        ensures { self.new ≡ Wait head None ∷ self.old }
    {
        self.frames[self.len] = StackFrame::Wait(head, None);
        self.len += 1;
    }

    /// Stores an answer in the innermost wait whose answer has not come. Returns false, and changes
    /// nothing, if there is no such wait or it has another number.
    pub fn answer(&mut self, seq: i32, answer: Answer) -> bool
        ensures found { IsTrue result ↔ (awaited self.old ≡ Some seq) }
        ensures stored { OnTrue result (self.new ≡ with_answer answer self.old) }
        ensures unchanged { OnFalse result (self.new ≡ self.old) }
    {
        if self.awaited() != Some(seq) {
            return false;
        }
        self.store(answer);
        true
    }

    /// Answers the innermost wait whose answer has not come by the fault `ChannelClosed`, and
    /// returns its number. Returns `None`, and changes nothing, if there is no such wait.
    pub fn fail_next(&mut self) -> Option<i32>
        ensures number { result ≡ awaited self.old }
        ensures failed { self.new ≡ with_answer (Fault ChannelClosed) self.old }
        ensures unchanged { IfNone result (self.new ≡ self.old) }
    {
        let seq = self.awaited();
        self.store(Answer::Fault(Reason::ChannelClosed));
        seq
    }

    /// Pops the top frame. Returns `None`, and changes nothing, if there is no frame or it is a
    /// wait whose answer has not come.
    pub fn pop(&mut self) -> Option<PoppedFrame>
        ensures popped { result ≡ popped_of self.old }
        ensures left { self.new ≡ after_pop self.old }
    {
        match self.top() {
            StackTop::Empty | StackTop::Unanswered(_) => None,
            StackTop::Dispatch(_) | StackTop::Answered(_) => match self.take_top() {
                StackFrame::Dispatch(head) => Some(PoppedFrame::Dispatch(head)),
                StackFrame::Wait(head, Some(answer)) => Some(PoppedFrame::Wait(head, answer)),
                StackFrame::Wait(_, None) => unreachable!(),
            },
        }
    }

    /// Removes all frames.
    pub fn clear(&mut self)
        ensures { self.new ≡ [] }
    {
        *self = Stack::new();
    }

    /// Returns the frames, the outermost first.
    fn outward(&self) -> &[StackFrame]
        ensures frames { reverse result.now ≡ self.now }
        ensures bound { length result.now ≤ 64 }
        ensures room { FitsRoom self.now }
    {
        &self.frames[..self.len]
    }

    fn inner_transaction(&self) -> Option<i32>
        ensures { result ≡ inner_transaction self.now }
    {
        innermost_inside_sync(self.outward()).map(|head| head.transaction)
    }

    /// Stores an answer in the innermost wait whose answer has not come, if there is one.
    fn store(&mut self, answer: Answer)
        ensures { self.new ≡ with_answer answer self.old }
    {
        store(&mut self.frames, self.len, answer);
    }

    /// Removes and returns the top frame.
    fn take_top(&mut self) -> StackFrame
        requires { 0 < length self.old }
        ensures { self.old ≡ result ∷ self.new }
    {
        self.len -= 1;
        mem::replace(&mut self.frames[self.len], VACANT)
    }
}

/// Returns the last frame, by its head.
fn top(frames: &[StackFrame]) -> StackTop
    ensures { result ≡ top_of (reverse frames.now) }
{
    match frames.last() {
        None => StackTop::Empty,
        Some(StackFrame::Dispatch(head)) => StackTop::Dispatch(*head),
        Some(StackFrame::Wait(head, None)) => StackTop::Unanswered(*head),
        Some(StackFrame::Wait(head, Some(_))) => StackTop::Answered(*head),
    }
}

/// Stores an answer in the last of the first `len` frames that is a wait whose answer has not come, if
/// there is one.
fn store(frames: &mut [StackFrame], len: usize, answer: Answer)
    requires { len ≤ length frames.old }
    ensures { reverse (take len frames.new) ≡ with_answer answer (reverse (take len frames.old)) }
{
    for index in (0..len).rev() {
        if frames[index].is_unanswered() {
            let head = frames[index].head();
            frames[index] = StackFrame::Wait(head, Some(answer));
            return;
        }
    }
}
