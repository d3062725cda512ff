//! Sends of requests, by their kinds.
ghost use Rattle.std.specs.Prelude.{◌≡◌, ◌≢◌, ◌<◌, true, false, None, Some, option_map};
ghost use Rattle.ipdl_base.specs.declared.schema.Kind.TheVariants.{Normal, Delete};
ghost use Rattle.ipdl_base.specs.Plain.{plain_body, plain_message, plain_values};
ghost use Rattle.channel_model.specs.Numbers.{is_constructor};
ghost use Rattle.end_steps.specs.SentRequests.{values_carried};

use super::{End, is_open};
use crate::answers::SendAnswer;
use crate::ready_name::{give_name, make_name};
use crate::ready_request::{copied_line, make_frame, push_wait};
use end_parts::Packet;
use end_steps::{
    await_reply, build_actor, built_by, delete_by, next_request, push_built, send_line,
    send_refusal,
};
use ipdl_base::{Kind, Line, Message, MessageRow, Name, SendRefusal, Values, What};

impl<'s> End<'s> {
    ghost use Rattle.channel_core.specs.Answers.{SendGives, refusal_of_send};
    ghost use Rattle.channel_core.specs.Sending.{IsAccepted};
    ghost use Rattle.channel_core.specs.Steps.{MaySend};

    /// Sends a request of the message of a number to an actor, or returns why not. This is the step
    /// of a send. If `name` is given, it is bound to the actor that a constructor makes. Returns
    /// `Refused` exactly if a cause holds, with the first of them (docs/channel.md). A request that
    /// is refused copies no value.
    pub fn send(
        &mut self,
        route: i32,
        number: u32,
        values: &Values,
        name: Option<&Name>,
    ) -> SendAnswer
        requires may { MaySend self.old number (plain_values values.now) (option_map (λ n. n.now) name) }
        requires few { self.old.end.sent < 268435456 }
        ensures { SendGives self.old route number (plain_values values.now) (option_map (λ n. n.now) name.entry) result self.new }
    {
        let schema = self.schema;
        let Some(row) = schema.message(number) else {
            unreachable!();
        };
        let refused = send_refusal(
            is_open(self.state),
            schema,
            &self.tree,
            &self.stack,
            row,
            route,
            values,
        );
        match refused {
            Some(cause) => self.refuse_send(cause, route, number, values, name),
            None => {
                let built = next_request(
                    self.alloc,
                    self.side,
                    self.sent,
                    self.constructors_sent,
                    &self.stack,
                    row,
                    route,
                    values,
                );
                let Ok(message) = built else {
                    return SendAnswer::NoMemory;
                };
                self.send_accepted(row, message, name)
            }
        }
    }

    // Prints that a send is refused.
    fn refuse_send(
        &mut self,
        cause: SendRefusal,
        route: i32,
        number: u32,
        values: &Values,
        name: Option<&Name>,
    ) -> SendAnswer
        requires may { MaySend self.old number (plain_values values.now) (option_map (λ n. n.now) name) }
        requires refused { refusal_of_send self.old route number (plain_values values.now) ≡ Some cause }
        ensures { SendGives self.old route number (plain_values values.now) (option_map (λ n. n.now) name.entry) result self.new }
    {
        match self.out.reserve(1, 0) {
            Err(_) => SendAnswer::NoMemory,
            Ok(()) => {
                self.out.push_line(Line {
                    side: self.side,
                    what: What::RefusedSend(cause, number),
                });
                SendAnswer::Refused(cause)
            }
        }
    }

    // Sends a request that nothing refuses.
    fn send_accepted(
        &mut self,
        row: &MessageRow,
        message: Message,
        name: Option<&Name>,
    ) -> SendAnswer
        requires { IsAccepted self.old row.now (plain_message message) (values_carried (plain_body message.body)) (option_map (λ n. n.now) name) }
        ensures { SendGives self.old message.route row.now.number (values_carried (plain_body message.body)) (option_map (λ n. n.now) name.entry) result self.new }
    {
        match row.kind {
            Kind::Normal => {
                if row.lazy {
                    self.send_lazy(row, message)
                } else {
                    self.send_eager(row, message)
                }
            }
            Kind::Constructor(_) => self.send_constructor(row, message, name),
            Kind::Delete => self.send_destructor(row, message),
        }
    }

    // Sends a request that is neither lazy nor makes or deletes an actor.
    fn send_eager(&mut self, row: &MessageRow, message: Message) -> SendAnswer
        requires normal { row.now.kind ≡ Normal }
        requires eager { row.now.lazy ≡ false }
        requires accepted { IsAccepted self.old row.now (plain_message message) (values_carried (plain_body message.body)) None }
        ensures { SendGives self.old message.route row.now.number (values_carried (plain_body message.body)) None result self.new }
    {
        // Room for its line, and for the two of its wait or the one of its promise.
        let frame = make_frame(self.alloc, self.schema, &message, 3, 1, &mut self.out);
        let Ok(frame) = frame else {
            return SendAnswer::NoMemory;
        };
        let awaited = await_reply(row, &message, &mut self.stack, &mut self.promises);
        let Ok(()) = awaited else {
            return SendAnswer::NoMemory;
        };
        let seq = message.seq;
        let made = message.made;
        let what = send_line(row, message);
        self.out.push_line(Line {
            side: self.side,
            what,
        });
        self.out.put(Packet::Bytes(frame));
        self.out.owe(2);
        self.sent += 1;
        SendAnswer::Sent { seq, made }
    }

    // Sends a lazy request, which goes into the outbox.
    fn send_lazy(&mut self, row: &MessageRow, message: Message) -> SendAnswer
        requires normal { row.now.kind ≡ Normal }
        requires lazy { row.now.lazy ≡ true }
        requires accepted { IsAccepted self.old row.now (plain_message message) (values_carried (plain_body message.body)) None }
        ensures { SendGives self.old message.route row.now.number (values_carried (plain_body message.body)) None result self.new }
    {
        // Room for its line, and for those of its promise and of its place in the outbox.
        let frame = make_frame(self.alloc, self.schema, &message, 3, 1, &mut self.out);
        let Ok(frame) = frame else {
            return SendAnswer::NoMemory;
        };
        let line = copied_line(self.alloc, row, &message);
        let Ok(what) = line else {
            return SendAnswer::NoMemory;
        };
        let reserved = self.out.reserve_lazy();
        let Ok(()) = reserved else {
            return SendAnswer::NoMemory;
        };
        let awaited = await_reply(row, &message, &mut self.stack, &mut self.promises);
        let Ok(()) = awaited else {
            return SendAnswer::NoMemory;
        };
        let seq = message.seq;
        let made = message.made;
        self.out.push_line(Line {
            side: self.side,
            what,
        });
        self.out.push_lazy(message, frame);
        self.out.owe(2);
        self.sent += 1;
        SendAnswer::Sent { seq, made }
    }

    // Sends a constructor: its actor is built, and a name is bound to it if there is one.
    fn send_constructor(
        &mut self,
        row: &MessageRow,
        message: Message,
        name: Option<&Name>,
    ) -> SendAnswer
        requires constructor { is_constructor row.now.kind ≡ true }
        requires accepted { IsAccepted self.old row.now (plain_message message) (values_carried (plain_body message.body)) (option_map (λ n. n.now) name) }
        ensures { SendGives self.old message.route row.now.number (values_carried (plain_body message.body)) (option_map (λ n. n.now) name.entry) result self.new }
    {
        // Room for its line, for that of a resolver that the name destroys, for those of its actor
        // and of the fall of that, and for the two of its wait.
        let frame = make_frame(self.alloc, self.schema, &message, 6, 2, &mut self.out);
        let Ok(frame) = frame else {
            return SendAnswer::NoMemory;
        };
        let named = make_name(self.alloc, self.schema, name, &mut self.names);
        let Ok(named) = named else {
            return SendAnswer::NoMemory;
        };
        let actor = built_by(row, &message);
        let built = build_actor(&mut self.tree, actor);
        let Ok(()) = built else {
            return SendAnswer::NoMemory;
        };
        push_wait(row, &message, &mut self.stack);
        let seq = message.seq;
        let made = message.made;
        let what = send_line(row, message);
        self.out.push_line(Line {
            side: self.side,
            what,
        });
        self.out.put(Packet::Bytes(frame));
        give_name(self.side, named, made, &mut self.names, &mut self.out);
        push_built(self.side, actor, &mut self.out);
        self.out.owe(2);
        self.sent += 1;
        self.constructors_sent += 1;
        SendAnswer::Sent { seq, made }
    }

    // Sends a destructor: the actor that it goes to falls with its subtree.
    fn send_destructor(&mut self, row: &MessageRow, message: Message) -> SendAnswer
        requires delete { row.now.kind ≡ Delete }
        requires accepted { IsAccepted self.old row.now (plain_message message) (values_carried (plain_body message.body)) None }
        ensures { SendGives self.old message.route row.now.number (values_carried (plain_body message.body)) None result self.new }
    {
        // Room for its line: those of the actors that fall, and of their promises, are owed.
        let frame = make_frame(self.alloc, self.schema, &message, 1, 1, &mut self.out);
        let Ok(frame) = frame else {
            return SendAnswer::NoMemory;
        };
        let seq = message.seq;
        let made = message.made;
        let route = message.route;
        let what = send_line(row, message);
        self.out.push_line(Line {
            side: self.side,
            what,
        });
        self.out.put(Packet::Bytes(frame));
        delete_by(
            row.kind,
            self.side,
            route,
            &mut self.tree,
            &mut self.promises,
            &mut self.out,
        );
        self.sent += 1;
        SendAnswer::Sent { seq, made }
    }
}
