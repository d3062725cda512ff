//! The stack of an end: calls inside calls, with what the end keeps beside each frame.
ghost use Rattle.std.specs.Prelude.{◌≡◌, ◌<◌, ◌≤◌, [], ◌∷◌, ◌++◌, false, drop, find, length, map, option_map, reverse, None, Some, IsSome, IsSomeAnd, IfOk, vec_len, vec_capacity};
ghost use Rattle.std.specs.Prelude.{◌==◌, ◌&&◌};
ghost use Rattle.std.specs.Ordering.{int_eq};
ghost use Rattle.nesting_core.specs.declared.frame.StackFrame.TheVariants.{Dispatch, Wait};
ghost use Rattle.std.specs.Bool.{OnTrue};
ghost use Rattle.nesting_core.specs.Deferral.{level_under, transaction_of};
ghost use Rattle.nesting_core.specs.Frames.{has_wait};
ghost use Rattle.nesting_core.specs.Refusals.{refusal_of};
ghost use Rattle.nesting_core.specs.Top.{top_of};
ghost use Rattle.ipdl_base.specs.declared.kinds.Reason.TheVariants.{ChannelClosed};
ghost use Rattle.nesting_core.specs.declared.frame.Answer.TheVariants.{Fault};
ghost use Rattle.nesting_core.specs.Answers.{awaited, with_answer};
ghost use Rattle.nesting_core.specs.Plain.{plain_answer};
ghost use Rattle.channel_model.specs.Answers.{has_resolver, resolver_in, released};
ghost use Rattle.channel_model.specs.Deliveries.{with_frames};
ghost use Rattle.channel_model.specs.Returns.{dispatch_answered, dispatch_on_top};
ghost use Rattle.channel_model.specs.Takes.{takes_under};
ghost use Rattle.end_parts.specs.CopiedAnswers.{IsCopied};
ghost use Rattle.end_parts.specs.Replies.{answered_of, is_waited_for_in};
ghost use Rattle.end_parts.specs.StackDetails.{dispatch_entry, deferral_context_by, is_resolver_detail, is_resolver_of, released_detail, with_copy};
ghost use Rattle.end_parts.specs.Resumed.{IsTakenOff, IsWaitPopped, IsResumed};

use crate::copied_answer::CopiedAnswer;
use crate::reply::{AnsweredRequest, RequestKey, is_replied_to};
use ipdl_base::{Level, Message, SendRefusal, Side, Values};
use nesting_core::{Head, PoppedFrame, SendHead, Stack, StackTop};
use pending_queue::DeferralContext;
use std::alloc::{AllocError, Global};
use std::marker::Model;

/// What an end keeps beside a frame of its stack.
#[derive(Drop)]
pub struct EntryDetail {
    /// The request; its number is that of the frame.
    request: RequestKey,
    /// Whether the frame is a wait without an answer.
    is_unanswered: bool,
    /// Whether it is a dispatch whose resolver is neither used nor kept.
    resolves: bool,
    /// A second copy of the values of its answer.
    answer_copy: Option<Values>,
}

/// The stack of an end: its frames, with what the end keeps beside them. Contracts see the entries,
/// innermost first, with their boxes at one place. Only `new` takes memory.
#[derive(Drop)]
pub struct StackEntries {
    frames: Stack,
    /// One detail for each frame, the outermost first.
    details: Vec<EntryDetail>,
}

impl Model for StackEntries {
    ghost use Rattle.std.specs.Prelude.{◌≤◌, List, reverse, vec_capacity};
    ghost use Rattle.channel_model.specs.Ends.{StackEntry};
    ghost use Rattle.end_parts.specs.StackDetails.{entries_of, AreDetails};
    ghost use Rattle.ipdl_base.specs.contracts.value.Values as values;
    ghost use Rattle.std.specs.Coded.{codes};

    ghost Value = { List StackEntry };

    ghost coded = { Prim.hlevel (codes, values.the_row.coded) };

    ghost view = { λ a. entries_of a.frames (reverse a.details.items) };

    ghost invariant = { λ a. AreDetails a.frames (reverse a.details.items) × (64 ≤ vec_capacity a.details) };
}

impl StackEntries {
    ghost use Rattle.end_parts.specs.StackDetails.{frames_in};

    /// Returns an empty stack, with room for the greatest number of entries.
    pub fn new(alloc: Global) -> Result<StackEntries, AllocError>
        ensures { IfOk result (λ entries. entries ≡ []) }
    {
        let mut details = Vec::new(alloc);
        details.reserve(64)?;
        Ok(StackEntries {
            frames: Stack::new(),
            details,
        })
    }

    /// Whether any frame is a wait, answered or not.
    pub fn has_wait(&self) -> bool
        ensures { result ≡ has_wait (frames_in self.now) }
    {
        self.frames.has_wait()
    }

    /// Returns the frame on top.
    pub fn top(&self) -> StackTop
        ensures { result ≡ top_of (frames_in self.now) }
    {
        self.frames.top()
    }

    /// Whether an item that has arrived may be taken on top of these entries. If so, there is room
    /// for a dispatch.
    pub fn takes(&self) -> bool
        ensures takes { result ≡ takes_under (top_of (frames_in self.now)) }
        ensures room { OnTrue result (length self.now < 64) }
    {
        takes_under(self.frames.top())
    }

    /// Returns what an end of this side with these entries awaits.
    pub fn deferral_context(&self, side: Side) -> DeferralContext
        ensures { result ≡ deferral_context_by side (frames_in self.now) }
    {
        DeferralContext {
            side,
            level: level_under(self.frames.top()),
            transaction: self.frames.transaction(0),
        }
    }

    /// Returns why the stack refuses a send.
    pub fn refusal(&self, head: &SendHead) -> Option<SendRefusal>
        ensures { result ≡ refusal_of (frames_in self.now) head.now }
    {
        self.frames.refusal(head)
    }

    /// Returns the transaction of a sync message that is sent now with this number.
    pub fn transaction(&self, seq: i32) -> i32
        ensures { result ≡ transaction_of (frames_in self.now) seq }
    {
        self.frames.transaction(seq)
    }

    /// Pushes a wait whose answer has not come.
    pub fn push_wait(&mut self, head: Head, route: i32, number: u32)
        requires { length self.old < 63 }
        ensures { self.new ≡ record { frame = Wait head None; route = route; number = number; resolves = false } ∷ self.old }
    {
        push_spare(
            &mut self.details,
            EntryDetail {
                request: RequestKey {
                    seq: head.seq,
                    route,
                    number,
                },
                is_unanswered: true,
                resolves: false,
                answer_copy: None,
            },
        );
        self.frames.push_wait(head);
    }

    /// Pushes a dispatch; `resolves` is whether it has its resolver.
    pub fn push_dispatch(&mut self, head: Head, route: i32, number: u32, resolves: bool)
        requires { length self.old < 64 }
        ensures { self.new ≡ record { frame = Dispatch head; route = route; number = number; resolves = resolves } ∷ self.old }
    {
        push_spare(
            &mut self.details,
            EntryDetail {
                request: RequestKey {
                    seq: head.seq,
                    route,
                    number,
                },
                is_unanswered: false,
                resolves,
                answer_copy: None,
            },
        );
        self.frames.push_dispatch(head);
    }

    /// Pops the frame on top if it is a wait with its answer. Otherwise returns `None`, and nothing
    /// changes.
    pub fn take_answered(&mut self) -> Option<ResumedCall>
        ensures { IsTakenOff self.old result self.new }
    {
        match self.frames.top() {
            StackTop::Empty | StackTop::Dispatch(_) | StackTop::Unanswered(_) => None,
            StackTop::Answered(_) => {
                let frame = self.frames.pop();
                let detail = self.details.pop();
                Some(resumed_call(frame, detail))
            }
        }
    }

    /// Returns the entry on top if it is a dispatch.
    pub fn dispatch_on_top(&self) -> Option<DispatchEntry>
        ensures { option_map dispatch_entry result ≡ dispatch_on_top self.now }
    {
        match self.frames.top() {
            StackTop::Empty | StackTop::Unanswered(_) | StackTop::Answered(_) => None,
            StackTop::Dispatch(head) => match self.details.last() {
                None => unreachable!(),
                Some(detail) => Some(DispatchEntry {
                    head,
                    route: detail.request.route,
                    number: detail.request.number,
                    resolves: detail.resolves,
                }),
            },
        }
    }

    /// Pops the dispatch on top.
    pub fn pop_dispatch(&mut self)
        requires { IsSome (dispatch_on_top self.old) }
        ensures { self.new ≡ drop 1 self.old }
    {
        self.frames.pop();
        self.details.pop();
    }

    /// Notes that the resolver of the request of a number is used or kept, if its dispatch has it.
    pub fn release(&mut self, seq: i32)
        ensures { self.new ≡ released seq self.old }
    {
        release_details(self.details.as_mut_slice(), seq);
    }

    /// Whether a dispatch has the resolver of the request of this number, neither used nor kept,
    /// and the innermost such dispatch is that of a request of this message to this actor.
    pub fn has_resolver(&self, request: &RequestKey) -> bool
        ensures { result ≡ is_resolver_of request.now.route request.now.number (option_map resolver_in (find (has_resolver request.now.seq) self.now)) }
    {
        match innermost_resolver(self.details.as_slice(), request) {
            None => false,
            Some(detail) => is_alike(&detail.request, request),
        }
    }

    /// Whether the innermost wait without an answer is one for this reply.
    pub fn is_waited_for(&self, reply: &Message) -> bool
        ensures { result ≡ is_waited_for_in self.now reply.now }
    {
        match innermost_unanswered(self.details.as_slice()) {
            None => false,
            Some(detail) => is_replied_to(reply, &detail.request),
        }
    }

    /// Stores the answer of the innermost wait without one, which has this number.
    pub fn answer_wait(&mut self, seq: i32, given: CopiedAnswer)
        requires awaited { awaited (frames_in self.old) ≡ Some seq }
        requires copied { IsCopied given }
        ensures { self.new ≡ with_frames (with_answer (plain_answer given.answer) (frames_in self.old)) self.old }
    {
        let CopiedAnswer { answer, copy } = given;
        self.frames.answer(seq, answer);
        keep_copy(self.details.as_mut_slice(), copy);
    }

    /// Fails the innermost wait without an answer and returns its number. Otherwise returns `None`,
    /// and nothing changes.
    pub fn fail_next(&mut self) -> Option<i32>
        ensures number { result ≡ awaited (frames_in self.old) }
        ensures failed { self.new ≡ with_frames (with_answer (Fault ChannelClosed) (frames_in self.old)) self.old }
    {
        let seq = self.frames.fail_next();
        keep_copy(self.details.as_mut_slice(), None);
        seq
    }

    /// Removes all entries.
    pub fn clear(&mut self)
        ensures { self.new ≡ [] }
    {
        self.frames.clear();
        self.details.clear();
    }
}

/// A call that resumes: its wait was popped, with its answer.
#[derive(Drop)]
pub struct ResumedCall {
    /// The number of the request.
    pub seq: i32,
    /// The number of the request's message.
    pub number: u32,
    pub given: CopiedAnswer,
}

/// The entry of a dispatch.
#[derive(Clone, Copy)]
pub struct DispatchEntry {
    pub head: Head,
    /// The id of the actor that the request went to.
    pub route: i32,
    /// The number of the request's message.
    pub number: u32,
    /// Whether its resolver is neither used nor kept.
    pub resolves: bool,
}

impl DispatchEntry {
    /// Returns what the answer to the request of this dispatch repeats.
    pub fn answered(&self) -> AnsweredRequest
        ensures { answered_of result ≡ dispatch_answered (dispatch_entry self.now) }
    {
        AnsweredRequest {
            seq: self.head.seq,
            route: self.route,
            number: self.number,
            transaction: self.head.transaction,
        }
    }
}

// Whether an item that has arrived may be taken on top of this frame.
fn takes_under(top: StackTop) -> bool
    ensures { result ≡ takes_under top }
{
    match top {
        StackTop::Empty | StackTop::Unanswered(_) => true,
        StackTop::Dispatch(_) | StackTop::Answered(_) => false,
    }
}

// Returns the level of the message whose reply is awaited, if this frame is on top.
fn level_under(top: StackTop) -> Option<Level>
    ensures { result ≡ level_under top }
{
    match top {
        StackTop::Unanswered(head) => Some(head.level),
        StackTop::Empty | StackTop::Dispatch(_) | StackTop::Answered(_) => None,
    }
}

// Returns the call that resumes from a popped wait with its answer.
fn resumed_call(frame: Option<PoppedFrame>, detail: Option<EntryDetail>) -> ResumedCall
    requires wait { IsSomeAnd frame IsWaitPopped }
    requires detail { IsSome detail }
    ensures { IsResumed frame detail result }
{
    match (frame, detail) {
        (Some(PoppedFrame::Wait(head, answer)), Some(detail)) => {
            let EntryDetail {
                request,
                is_unanswered: _is_unanswered,
                resolves: _resolves,
                answer_copy,
            } = detail;
            ResumedCall {
                seq: head.seq,
                number: request.number,
                given: CopiedAnswer {
                    answer,
                    copy: answer_copy,
                },
            }
        }
        _ => unreachable!(),
    }
}

// Appends a detail where there is room.
fn push_spare(details: &mut Vec<EntryDetail>, detail: EntryDetail)
    requires { vec_len details.old < vec_capacity details.old }
    ensures items { details.new.items ≡ details.old.items ++ detail ∷ [] }
    ensures capacity { vec_capacity details.old ≤ vec_capacity details.new }
{
    if details.push(detail).is_err() {
        unreachable!();
    }
}

// Notes that the resolver of a detail is used or kept, if it is that of the request of this number.
fn release_detail(detail: &mut EntryDetail, seq: i32)
    ensures { detail.new ≡ released_detail seq detail.old }
{
    if detail.resolves && detail.request.seq == seq {
        detail.resolves = false;
    }
}

// Does the same for all details.
fn release_details(details: &mut [EntryDetail], seq: i32)
    ensures { reverse details.new ≡ map (released_detail seq) (reverse details.old) }
{
    match details.split_last_mut() {
        None => {}
        Some((last, rest)) => {
            release_detail(last, seq);
            release_details(rest, seq);
        }
    }
}

// Keeps the copy of an answer beside the innermost wait that had none.
fn keep_copy(details: &mut [EntryDetail], copy: Option<Values>)
    ensures { reverse details.new ≡ with_copy copy (reverse details.old) }
{
    match details.split_last_mut() {
        None => {}
        Some((last, rest)) => {
            if last.is_unanswered {
                last.is_unanswered = false;
                last.answer_copy = copy;
            } else {
                keep_copy(rest, copy);
            }
        }
    }
}

// Returns the innermost detail of a wait without an answer.
fn innermost_unanswered(details: &[EntryDetail]) -> Option<&EntryDetail>
    ensures { option_map (λ d. d.now) result ≡ find (λ d. d.is_unanswered) (reverse details.now) }
{
    details.iter().rev().find(|detail| detail.is_unanswered)
}

// Whether two requests are of one message and to one actor.
fn is_alike(one: &RequestKey, other: &RequestKey) -> bool
    ensures { result ≡ (int_eq one.now.route other.now.route && (one.now.number == other.now.number)) }
{
    one.route == other.route && one.number == other.number
}

// Returns the innermost detail of a dispatch that has the resolver of the request of this number.
fn innermost_resolver<'a>(
    details: &'a [EntryDetail],
    request: &RequestKey,
) -> Option<&'a EntryDetail>
    ensures { option_map (λ d. d.now) result ≡ find (is_resolver_detail request.now.seq) (reverse details.now) }
{
    details.iter().rev().find(|detail| detail.resolves && detail.request.seq == request.seq)
}
