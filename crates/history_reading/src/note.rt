//! Reads the lines of an end.
ghost use Rattle.std.specs.Prelude.{◌≡◌, pos, OnOk, [], ◌∷◌};
ghost use Rattle.ipdl_base.specs.Sound.{IsSound};
ghost use Rattle.ipdl_base.specs.declared.kinds.Destroy.TheVariants.{NormalShutdown};
ghost use Rattle.history_reading.specs.declared.parts.Cause.TheVariants as cause;
ghost use Rattle.history_reading.specs.declared.parts.EventKind.TheVariants as event;
ghost use Rattle.history_reading.specs.declared.parts.CallFrame.TheVariants as frame;
ghost use Rattle.history_reading.specs.declared.parts.PacketKind.TheVariants as seen;
ghost use Rattle.history_reading.specs.EndReading.{is_sync_request};
ghost use Rattle.history_reading.specs.EndReadings.{end_view};
ghost use Rattle.history_reading.specs.Views.{request_view, reply_view};
ghost use Rattle.history_reading.specs.Reading as read;
ghost use Rattle.history_reading.specs.Rows.{delete_cause};
ghost use Rattle.history_reading.specs.SentPacket as told;

use crate::end_reading::EndReading;
use crate::parts::{Call, CallFrame, Cause, EventKind, HandledRequest, PacketKind};
use crate::rows::{delete_cause, is_constructor, is_sync_number, wants_number};
use crate::sent_packet::{ReplyContent, Request, SentPacket};
use ipdl_base::{Destroy, Schema, Values, What};
use std::alloc::AllocError;

impl<'h> EndReading<'h> {
    /// Begins an event in which no actor falls.
    fn quiet(&mut self)
        ensures { end_view self.new ≡ read.quiet (end_view self.old) }
    {
        self.begin(EventKind::Other, Cause::Nobody);
    }

    /// Notes the sending of a request that makes no actor, or the next one.
    fn send(
        &mut self,
        schema: &Schema,
        seq: i32,
        transaction: i32,
        route: i32,
        number: u32,
        values: &'h Values,
    ) -> Result<(), AllocError>
        requires { IsSound schema.now }
        ensures { OnOk result (end_view self.new ≡ read.sending schema.now seq transaction route number values.now (end_view self.old)) }
    {
        let more = self.made.checked_add(1).ok_or(AllocError)?;
        let constructs = is_constructor(schema, number);
        let made = if constructs { more } else { 0 };
        self.tell(SentPacket::Request(Request {
            seq,
            transaction,
            sync: is_sync_number(schema, number),
            wants: wants_number(schema, number),
            route,
            number,
            made,
            values,
        }))?;
        if constructs {
            self.made = more;
        }
        Ok(())
    }

    fn note_send(
        &mut self,
        schema: &Schema,
        seq: i32,
        route: i32,
        number: u32,
        values: &'h Values,
    ) -> Result<(), AllocError>
        requires { IsSound schema.now }
        ensures { OnOk result (end_view self.new
            ≡ read.begun (event.Sends seq route) (delete_cause schema.now number route)
            (read.sending schema.now seq (pos 0) route number values.now (end_view self.old))) }
    {
        self.send(schema, seq, 0, route, number, values)?;
        self.begin(
            EventKind::Sends(seq, route),
            delete_cause(schema, number, route),
        );
        Ok(())
    }

    fn note_call(
        &mut self,
        schema: &Schema,
        call: Call,
        route: i32,
        values: &'h Values,
    ) -> Result<(), AllocError>
        requires { IsSound schema.now }
        ensures { OnOk result (end_view self.new ≡ read.begun (event.Sends call.seq route) cause.Nobody
            (read.pushing (frame.Unanswered call)
            (read.sending schema.now call.seq call.transaction route call.number values.now (end_view self.old)))) }
    {
        self.send(
            schema,
            call.seq,
            call.transaction,
            route,
            call.number,
            values,
        )?;
        self.push(CallFrame::Unanswered(call))?;
        self.begin(EventKind::Sends(call.seq, route), Cause::Nobody);
        Ok(())
    }

    fn note_said(&mut self, n: i32, said: ReplyContent<'h>) -> Result<(), AllocError>
        ensures { OnOk result (end_view self.new ≡ read.telling (told.said n (reply_view said.entry)) (end_view self.old)) }
    {
        self.tell(SentPacket::Reply(n, said))
    }

    fn note_quiet_said(&mut self, n: i32, said: ReplyContent<'h>) -> Result<(), AllocError>
        ensures { OnOk result (end_view self.new ≡ read.quiet (read.telling (told.said n (reply_view said.entry)) (end_view self.old))) }
    {
        self.tell(SentPacket::Reply(n, said))?;
        self.quiet();
        Ok(())
    }

    fn note_close(&mut self) -> Result<(), AllocError>
        ensures { OnOk result (end_view self.new ≡ read.closing_by_act (end_view self.old)) }
    {
        self.tell(SentPacket::Goodbye)?;
        self.close(Destroy::NormalShutdown);
        self.ended = true;
        Ok(())
    }

    fn note_request(&mut self, n: i32) -> Result<(), AllocError>
        ensures { OnOk result (end_view self.new ≡ read.quiet (read.arriving (seen.Request n) (end_view self.old))) }
    {
        self.arrive(PacketKind::Request(n))?;
        self.quiet();
        Ok(())
    }

    /// Whether the end's request of a number is sync.
    pub fn is_sync_request(&self, n: i32) -> bool
        ensures { result ≡ is_sync_request (end_view self.now) n }
    {
        match self.sent.request(n) {
            Some(request) => request.sync,
            None => false,
        }
    }

    fn note_reply(&mut self, n: i32) -> Result<(), AllocError>
        ensures { OnOk result (end_view self.new ≡ read.replying n (end_view self.old)) }
    {
        if self.is_sync_request(n) {
            self.deliver(PacketKind::Reply(n))?;
            self.answer(n);
        } else {
            self.arrive(PacketKind::Reply(n))?;
        }
        Ok(())
    }

    fn note_quiet_reply(&mut self, n: i32) -> Result<(), AllocError>
        ensures { OnOk result (end_view self.new ≡ read.quiet (read.replying n (end_view self.old))) }
    {
        self.note_reply(n)?;
        self.quiet();
        Ok(())
    }

    fn note_end(&mut self, packet: PacketKind) -> Result<(), AllocError>
        ensures { OnOk result (end_view self.new ≡ read.begun event.Ends cause.Nobody (read.draining packet (end_view self.old))) }
    {
        self.drain(packet)?;
        self.begin(EventKind::Ends, Cause::Nobody);
        Ok(())
    }

    fn note_take(&mut self, handled: HandledRequest) -> Result<(), AllocError>
        ensures { OnOk result (end_view self.new ≡ read.begun (event.Takes handled.seq handled.route) cause.Nobody
            (read.pushing (frame.Dispatch handled) (read.going handled.seq (end_view self.old)))) }
    {
        self.go(handled.seq)?;
        self.push(CallFrame::Dispatch(handled))?;
        self.begin(EventKind::Takes(handled.seq, handled.route), Cause::Nobody);
        Ok(())
    }

    fn note_drop(&mut self, n: i32) -> Result<(), AllocError>
        ensures { OnOk result (end_view self.new ≡ read.quiet (read.going n (end_view self.old))) }
    {
        self.go(n)?;
        self.quiet();
        Ok(())
    }

    fn note_take_reply(&mut self, n: i32) -> Result<(), AllocError>
        ensures { OnOk result (end_view self.new ≡ read.taking_reply n (end_view self.old)) }
    {
        self.leave(PacketKind::Reply(n));
        self.replies.push(n)?;
        self.quiet();
        Ok(())
    }

    fn note_return(&mut self, schema: &Schema)
        requires { IsSound schema.now }
        ensures { end_view self.new ≡ read.popping (read.return_cause schema.now (end_view self.old).stack) (end_view self.old) }
    {
        let cause = match self.stack.top() {
            Some(CallFrame::Dispatch(handled)) => delete_cause(
                schema,
                handled.number,
                handled.route,
            ),
            _ => Cause::Nobody,
        };
        self.pop(cause);
    }

    fn note_replaced(&mut self, n: i32) -> Result<(), AllocError>
        ensures { OnOk result (end_view self.new ≡ read.replacing n (end_view self.old)) }
    {
        self.leave(PacketKind::Request(n));
        self.replaced.push(n)
    }

    fn note_fails(&mut self, n: i32) -> Result<(), AllocError>
        ensures { OnOk result (end_view self.new ≡ read.failing n (end_view self.old)) }
    {
        self.answer(n);
        self.failed.push(n)
    }

    fn note_settled(&mut self, n: i32) -> Result<(), AllocError>
        ensures { OnOk result (end_view self.new ≡ read.settling n (end_view self.old)) }
    {
        self.settled.push(n)
    }
}

impl<'h> EndReading<'h> {
    /// Reads one more line of the end, which is at a place in the history.
    pub fn note(&mut self, schema: &Schema, place: usize, what: &'h What) -> Result<(), AllocError>
        requires { IsSound schema.now }
        ensures { OnOk result (end_view self.new ≡ read.after_what schema.now place what.now (end_view self.old)) }
    {
        match what {
            What::Send(n, route, number, values) => {
                self.note_send(schema, *n, *route, *number, values)
            }
            What::Call(n, transaction, route, number, values) => {
                let call = Call {
                    seq: *n,
                    transaction: *transaction,
                    number: *number,
                    place,
                };
                self.note_call(schema, call, *route, values)
            }
            What::Resolve(n, values) => self.note_quiet_said(*n, ReplyContent::Resolved(values)),
            What::Reject(n) => self.note_quiet_said(*n, ReplyContent::Rejected),
            What::Close => self.note_close(),
            What::Die => self.die(),
            What::DeliverRequest(n) => self.note_request(*n),
            What::DeliverReply(n) => self.note_quiet_reply(*n),
            What::DeliverGoodbye => self.note_end(PacketKind::Goodbye),
            What::DeliverBroken => self.note_end(PacketKind::Broken),
            What::Take(n, route, number, _) => {
                let handled = HandledRequest {
                    seq: *n,
                    route: *route,
                    number: *number,
                };
                self.note_take(handled)
            }
            What::Drop(n, _, _, _) => self.note_drop(*n),
            What::TakeReply(n) => self.note_take_reply(*n),
            What::ShutNormal => {
                self.close(Destroy::NormalShutdown);
                Ok(())
            }
            What::ShutAbnormal => {
                self.close(Destroy::AbnormalShutdown);
                Ok(())
            }
            What::Return(_) => {
                self.note_return(schema);
                Ok(())
            }
            What::ResumeOk(_, _) | What::ResumeFault(_, _) => {
                self.pop(Cause::Nobody);
                Ok(())
            }
            What::Built(id, _) => self.build(*id),
            What::Replaced(n) => self.note_replaced(*n),
            What::AnswerOk(n, values) => self.note_said(*n, ReplyContent::Ok(values)),
            What::AnswerFault(n, reason) => self.note_said(*n, ReplyContent::Fault(*reason)),
            What::Fails(n) => self.note_fails(*n),
            What::Resolved(n, _) | What::Rejected(n, _) => self.note_settled(*n),
            What::Fall(id, _) => self.fall(*id),
            What::RefusedSend(..)
            | What::RefusedClose(..)
            | What::RefusedResolve(..)
            | What::RefusedReject(..)
            | What::Keep(..)
            | What::Let(..)
            | What::Flush(..) => {
                self.quiet();
                Ok(())
            }
        }
    }
}
