//! Closing, dying, resumed calls, flushes, and what the owner fetches.
ghost use Rattle.std.specs.Prelude.{◌≡◌, ◌≤◌, true, false, [], ◌∷◌, length, None, Some, IsOk, MatchOption, OnOk, OnErr};
ghost use Rattle.channel_model.specs.Acts.{close_refusal, may_die};
ghost use Rattle.channel_model.specs.Events as event;
ghost use Rattle.channel_model.specs.Returns.{may_flush};
ghost use Rattle.channel_model.specs.Sends.{may_act};
ghost use Rattle.end_parts.specs.MovedLines.{HasMoved};

use super::{End, is_open};
use crate::answers::CloseAnswer;
use end_parts::{CopiedAnswer, Packet, receive_answer, resume_line};
use end_steps::close_parts;
use history::History;
use ipdl_base::{Destroy, EndState, Line, SendRefusal, What};
use nesting_core::Answer;
use std::alloc::AllocError;

impl<'s> End<'s> {
    ghost use Rattle.channel_core.specs.Answers.{CloseGives, ResumeGives};
    ghost use Rattle.channel_core.specs.Steps.{IsStep};

    /// Closes the end, rejects its promises and destroys its actors. This is the step of a close.
    /// Returns `Refused` exactly if the end is not open, or a call waits or may resume. Takes no
    /// memory unless the close is refused.
    pub fn close(&mut self) -> CloseAnswer
        requires { may_act self.old.end ≡ true }
        ensures { CloseGives self.old result self.new }
    {
        match self.close_refusal() {
            Some(cause) => self.refuse_close(cause),
            None => {
                self.close_now();
                CloseAnswer::Done
            }
        }
    }

    // Returns why a close is refused.
    fn close_refusal(&self) -> Option<SendRefusal>
        ensures { result ≡ close_refusal self.now.end }
    {
        if !is_open(self.state) {
            Some(SendRefusal::Closed)
        } else if self.stack.has_wait() {
            Some(SendRefusal::InCall)
        } else {
            None
        }
    }

    // Prints that a close is refused.
    fn refuse_close(&mut self, cause: SendRefusal) -> CloseAnswer
        requires may { may_act self.old.end ≡ true }
        requires refused { close_refusal self.old.end ≡ Some cause }
        ensures { CloseGives self.old result self.new }
    {
        match self.out.reserve(1, 0) {
            Err(_) => CloseAnswer::NoMemory,
            Ok(()) => {
                self.out.push_line(Line {
                    side: self.side,
                    what: What::RefusedClose(cause),
                });
                CloseAnswer::Refused(cause)
            }
        }
    }

    // Closes an end if nothing refuses it.
    fn close_now(&mut self)
        requires may { may_act self.old.end ≡ true }
        requires free { close_refusal self.old.end ≡ None }
        ensures { IsStep self.old event.close self.new }
    {
        let before = self.out.line_spare();
        self.out.push_line(Line {
            side: self.side,
            what: What::Close,
        });
        self.out.put_goodbye();
        close_parts(
            self.side,
            Destroy::NormalShutdown,
            &mut self.tree,
            &mut self.promises,
            &mut self.names,
            &mut self.out,
        );
        self.out.pay(before.saturating_sub(self.out.line_spare()));
        self.pending.clear();
        self.state = EndState::Closed;
    }

    /// Ends in a death: what the end has sent is followed by a mark, and nothing is settled. This
    /// is the step of a death. Takes no memory.
    pub fn die(&mut self)
        requires { may_die self.old.end ≡ true }
        ensures { IsStep self.old event.die self.new }
    {
        self.out.push_line(Line {
            side: self.side,
            what: What::Die,
        });
        self.out.pay(1);
        self.out.put_mark(is_open(self.state));
        self.state = EndState::Dead;
        self.stack.clear();
        self.pending.clear();
    }

    /// Resumes the call on top with its answer, as its sender receives it. This is the step of a
    /// resume. Returns `None` exactly if no call that has its answer is on top. Takes no memory.
    pub fn resume(&mut self) -> Option<Answer>
        ensures { ResumeGives self.old result self.new }
    {
        let call = self.stack.take_answered()?;
        let Some(row) = self.schema.message(call.number) else {
            unreachable!();
        };
        let received = receive_answer(self.schema, &self.tree, row, call.given);
        let CopiedAnswer { answer, copy } = received;
        let what = resume_line(call.seq, &answer, copy);
        self.out.push_line(Line {
            side: self.side,
            what,
        });
        self.out.pay(1);
        Some(answer)
    }

    /// Moves the requests of the outbox to the packets, and returns their number. This is the step
    /// of a flush. If nothing can be flushed, returns 0 and changes nothing. Takes no memory.
    pub fn flush(&mut self) -> u32
        ensures nothing { may_flush self.old.end ≡ false → (self.new ≡ self.old) × (result ≡ 0) }
        ensures flushed { may_flush self.old.end ≡ true → IsStep self.old event.flush self.new × (result ≡ length self.old.end.outbox) }
    {
        let count = self.out.waiting();
        if count == 0 {
            return 0;
        }
        self.out.push_line(Line {
            side: self.side,
            what: What::Flush(count as u32),
        });
        self.out.pay(1);
        self.out.flush();
        count as u32
    }

    /// Whether something can be flushed. Takes no memory.
    pub fn can_flush(&self) -> bool
        ensures { result ≡ may_flush self.now.end }
    {
        is_open(self.state) && self.out.waiting() != 0
    }

    /// Hands out the oldest packet that was not handed out, or `None`. Takes no memory.
    pub fn outgoing(&mut self) -> Option<Packet>
        ensures { MatchOption result ((self.old.packets ≡ []) × (self.new ≡ self.old))
            (λ packet. self.old ≡ record self.new { packets = packet ∷ self.new.packets }) }
    {
        self.out.take_packet()
    }

    /// Moves the lines to a history. If memory runs out, no line is moved; that cannot happen if
    /// the history has room for them.
    pub fn drain(&mut self, into: &mut History) -> Result<(), AllocError>
        ensures ok { OnOk result ((self.new ≡ record self.old { lines = [] }) × HasMoved self.old.lines into.old into.new) }
        ensures err { OnErr result ((self.new ≡ self.old) × (into.new.lines ≡ into.old.lines)) }
        ensures room { length self.old.lines ≤ into.old.spare → IsOk result }
    {
        self.out.drain(into)
    }
}
