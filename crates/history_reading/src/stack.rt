//! The stack of an end, as its lines show it.
ghost use Rattle.std.specs.Prelude.{◌≡◌, ◌∷◌, [], OnOk, OnErr, find, slice_get, option_map, reverse};
ghost use Rattle.std.specs.List.{list_any};
ghost use Rattle.history_reading.specs.EndReading.{awaited, awaits, frame_seq, has_unanswered, is_unanswered, is_wait_for};
ghost use Rattle.history_reading.specs.Reading.{answered, answered_frame, below_top};

use crate::parts::{Call, CallFrame};
use std::alloc::{AllocError, Global};
use std::marker::Model;

impl CallFrame {
    /// Whether the frame is a wait that is not answered.
    pub fn is_unanswered(&self) -> bool
        ensures { result ≡ is_unanswered self.now }
    {
        matches!(self, CallFrame::Unanswered(_))
    }

    /// Returns the number of the frame's request.
    pub fn seq(&self) -> i32
        ensures { result ≡ frame_seq self.now }
    {
        match self {
            CallFrame::Dispatch(handled) => handled.seq,
            CallFrame::Unanswered(call) | CallFrame::Answered(call) => call.seq,
        }
    }

    /// Whether the frame is the unanswered wait of this number.
    pub fn is_wait_for(&self, n: i32) -> bool
        ensures { result ≡ is_wait_for n self.now }
    {
        match self {
            CallFrame::Unanswered(call) => call.seq == n,
            _ => false,
        }
    }
}

impl CallFrame {
    /// Returns the frame, answered if it is a wait.
    fn answered(self) -> CallFrame
        ensures { result ≡ answered_frame self }
    {
        match self {
            CallFrame::Unanswered(call) => CallFrame::Answered(call),
            frame => frame,
        }
    }
}

/// The frames of an end. Contracts see them as a list, the innermost first.
#[derive(Drop)]
pub struct CallStack {
    /// The frames, the outermost first.
    frames: Vec<CallFrame>,
}

impl Model for CallStack {
    ghost use Rattle.std.specs.Prelude.{List, reverse};
    ghost use Rattle.history_reading.specs.declared.parts.CallFrame.{CallFrame};

    ghost Value = { List CallFrame };

    ghost view = { λ a. reverse a.frames.items };
}

impl CallStack {
    /// Returns a stack without frames. Takes no memory.
    pub fn new(alloc: Global) -> CallStack
        ensures { result ≡ [] }
    {
        CallStack {
            frames: Vec::new(alloc),
        }
    }

    /// Pushes a frame.
    pub fn push(&mut self, frame: CallFrame) -> Result<(), AllocError>
        ensures { OnOk result (self.new ≡ frame ∷ self.old) }
    {
        self.frames.push(frame)?;
        Ok(())
    }

    /// Returns the frame on top.
    pub fn top(&self) -> Option<CallFrame>
        ensures { result ≡ slice_get self.now 0 }
    {
        self.frames.last().copied()
    }

    /// Returns the frames, the outermost first.
    pub fn outward(&self) -> &[CallFrame]
        ensures { reverse result.now ≡ self.now }
    {
        self.frames.as_slice()
    }

    /// Pops the top frame, if there is one.
    pub fn pop(&mut self)
        ensures { self.new ≡ below_top self.old }
    {
        self.frames.pop();
    }

    /// Removes all frames.
    pub fn clear(&mut self)
        ensures { self.new ≡ [] }
    {
        self.frames.clear();
    }

    /// Answers the innermost unanswered wait of a number, if there is one.
    pub fn answer(&mut self, n: i32)
        ensures { self.new ≡ answered n self.old }
    {
        answer(self.frames.as_mut_slice(), n);
    }

    /// Whether the innermost unanswered wait is the one of this number.
    pub fn awaits(&self, n: i32) -> bool
        ensures { result ≡ awaits self.now n }
    {
        awaits(self.frames.as_slice(), n)
    }

    /// Whether some wait is not answered.
    pub fn has_unanswered(&self) -> bool
        ensures { result ≡ has_unanswered self.now }
    {
        has_unanswered(self.frames.as_slice())
    }
}

/// Returns the number of the last unanswered wait.
fn awaited(frames: &[CallFrame]) -> Option<i32>
    ensures { result ≡ awaited (reverse frames.now) }
{
    let found = frames.iter().rev().find(|frame| frame.is_unanswered());
    found.map(|frame| frame.seq())
}

/// Whether the last unanswered wait is the one of this number.
fn awaits(frames: &[CallFrame], n: i32) -> bool
    ensures { result ≡ awaits (reverse frames.now) n }
{
    match awaited(frames) {
        Some(seq) => seq == n,
        None => false,
    }
}

/// Whether some wait is not answered.
fn has_unanswered(frames: &[CallFrame]) -> bool
    ensures { result ≡ has_unanswered (reverse frames.now) }
{
    frames.iter().rev().any(|frame| frame.is_unanswered())
}

/// Answers the last unanswered wait of a number, if there is one.
fn answer(frames: &mut [CallFrame], n: i32)
    ensures { reverse frames.new ≡ answered n (reverse frames.old) }
{
    for index in (0..frames.len()).rev() {
        if frames[index].is_wait_for(n) {
            frames[index] = frames[index].answered();
            return;
        }
    }
}
