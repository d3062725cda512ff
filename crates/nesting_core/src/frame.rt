//! The frames of a stack, and what goes onto it and comes off it.
ghost use Rattle.std.specs.Prelude.{◌≡◌};
ghost use Rattle.nesting_core.specs.Frames.{head_of, is_dispatch, is_inside_sync, is_sync_dispatch, is_unanswered, is_wait};

use ipdl_base::{Level, Reason, Values};

/// What a stack keeps of a message that is handled or whose reply is awaited.
#[derive(Clone, Copy, Debug, PartialEq, Eq)]
pub struct Head {
    /// Whether the sender of the message waits for its reply.
    pub sync: bool,
    pub level: Level,
    /// The number of the request, positive from the parent and negative from the child.
    pub seq: i32,
    /// The number of the request that began the chain of calls to which it belongs.
    pub transaction: i32,
}

/// What decides whether a message may be sent.
#[derive(Clone, Copy)]
pub struct SendHead {
    pub sync: bool,
    pub level: Level,
}

/// The end of a wait: the values of the reply, or the reason why there are none.
#[derive(Drop)]
pub enum Answer {
    Ok(Values),
    Fault(Reason),
}

/// A frame of a stack: a message that is handled, or a wait for the reply to one, with its answer
/// once it has come.
#[derive(Drop)]
pub enum StackFrame {
    Dispatch(Head),
    Wait(Head, Option<Answer>),
}

/// A frame that was popped; a wait has its answer.
#[derive(Drop)]
pub enum PoppedFrame {
    Dispatch(Head),
    Wait(Head, Answer),
}

/// The frame on top of a stack, by its head.
#[derive(Clone, Copy, Debug, PartialEq, Eq)]
pub enum StackTop {
    Empty,
    Dispatch(Head),
    Unanswered(Head),
    Answered(Head),
}

impl StackFrame {
    pub(crate) fn head(&self) -> Head
        ensures { result ≡ head_of self.now }
    {
        match self {
            StackFrame::Dispatch(head) => *head,
            StackFrame::Wait(head, _) => *head,
        }
    }

    pub(crate) fn is_dispatch(&self) -> bool
        ensures { result ≡ is_dispatch self.now }
    {
        matches!(self, StackFrame::Dispatch(_))
    }

    pub(crate) fn is_sync_dispatch(&self) -> bool
        ensures { result ≡ is_sync_dispatch self.now }
    {
        match self {
            StackFrame::Dispatch(head) => head.sync,
            StackFrame::Wait(_, _) => false,
        }
    }

    pub(crate) fn is_wait(&self) -> bool
        ensures { result ≡ is_wait self.now }
    {
        matches!(self, StackFrame::Wait(_, _))
    }

    pub(crate) fn is_unanswered(&self) -> bool
        ensures { result ≡ is_unanswered self.now }
    {
        matches!(self, StackFrame::Wait(_, None))
    }

    pub(crate) fn is_inside_sync(&self) -> bool
        ensures { result ≡ is_inside_sync self.now }
    {
        let head = self.head();
        head.sync && head.level == Level::InsideSync
    }
}
