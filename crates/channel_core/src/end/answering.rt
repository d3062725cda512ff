//! Answers by resolvers, kept resolvers, and names.
ghost use Rattle.std.specs.Prelude.{◌≡◌, ◌+◌, ◌<◌, ◌≤◌, ◌++◌, length, true, if◌then◌else◌, None, Some, IfOk, IfSome, IsSome, OnOk, OnErr, option_and_then, option_map};
ghost use Rattle.ipdl_base.specs.Plain.{plain_message, plain_values};
ghost use Rattle.ipdl_base.specs.Sound.{IsSound, message_of};
ghost use Rattle.value_types.specs.Fits.{Fits};
ghost use Rattle.channel_model.specs.Answers.{handled_resolver, resolver_of};
ghost use Rattle.channel_model.specs.Ends as model;
ghost use Rattle.channel_model.specs.Events as event;
ghost use Rattle.channel_model.specs.Names.{held_by_name, holding, without_name};
ghost use Rattle.channel_model.specs.Outputs.{is_closed, line_at, resolver_answered};
ghost use Rattle.channel_model.specs.Sends.{may_act};
ghost use Rattle.end_parts.specs.NameContents.{named_by};
ghost use Rattle.end_parts.specs.OutputView.{with_line};
ghost use Rattle.end_parts.specs.PlainLines.{plain_what};
ghost use Rattle.end_steps.specs.Renamings.{with_destroyed};
ghost use Rattle.end_parts.specs.Replies.{answered_of, line_of_reply};
ghost use Rattle.channel_core.specs.Answers.{with_resolver};
ghost use Rattle.channel_core.specs.ResolverReplies.{IsCheckOf, IsReplyCheck, HasReserved, HasSaid, HasReplied, IsPushed, IsRefusedWith, FitsCheck, names_answered, reply_by, stack_answered};
ghost use Rattle.channel_core.specs.EndView.{frame_packet};

use super::{End, is_open};
use crate::answers::{KeepAnswer, NamedAnswer, ResolveAnswer};
use crate::resolver::Resolver;
use end_parts::{
    AnsweredRequest, EndOutput, NameContent, NameEntries, Named, Packet, StackEntries, frame_of,
    refused_line, reply_line, resolver_reply, shown_id,
};
use end_steps::{DestroyedReply, NewName, answer_refusal, new_name, push_destroyed};
use ipdl_base::{EndState, Line, Message, Name, Schema, SendRefusal, Side, Values, What};
use std::alloc::{AllocError, Global};

// Whether a reply may be sent.
#[derive(Drop)]
enum ReplyCheck {
    // The reply is refused, for the first cause that holds.
    Refused(SendRefusal),
    // The reply may be sent.
    Accepted(Message),
}

impl<'s> End<'s> {
    ghost use Rattle.channel_core.specs.Answers.{AnswerGives, ResolveGives, NamedGives, KeepGives};
    ghost use Rattle.channel_core.specs.Steps.{IsStep, MayAnswer};

    /// Answers a request with values, by the resolver of its handler. This is the step of an
    /// answer. Returns `Refused` exactly if a cause holds, with the first of them: the end is not
    /// open, the values are too large, or one of their actors is dead.
    pub fn resolve(&mut self, resolver: Resolver, values: &Values) -> ResolveAnswer
        requires own { handled_resolver self.old.end resolver.seq ≡ Some resolver }
        requires may { MayAnswer self.old (event.handled resolver.seq) (Some (plain_values values.now)) }
        ensures { ResolveGives self.old resolver (Some (plain_values values.now)) result self.new }
    {
        let answer = self.answer_handled(&resolver, Some(values));
        with_resolver(answer, resolver)
    }

    /// Rejects a request by the resolver of its handler: its sender gets the fault HandlerRejected.
    /// Returns `Refused` exactly if the end is not open.
    pub fn reject(&mut self, resolver: Resolver) -> ResolveAnswer
        requires own { handled_resolver self.old.end resolver.seq ≡ Some resolver }
        requires may { MayAnswer self.old (event.handled resolver.seq) None }
        ensures { ResolveGives self.old resolver None result self.new }
    {
        let answer = self.answer_handled(&resolver, None);
        with_resolver(answer, resolver)
    }

    // Answers a request by the resolver of its handler, with values or by HandlerRejected.
    fn answer_handled(&mut self, resolver: &Resolver, values: Option<&Values>) -> NamedAnswer
        requires own { handled_resolver self.old.end resolver.now.seq ≡ Some resolver.now }
        requires may { MayAnswer self.old (event.handled resolver.now.seq) (option_map (λ vs. plain_values vs.now) values) }
        ensures { AnswerGives self.old (event.handled resolver.now.seq) (option_map (λ vs. plain_values vs.now) values.entry) result self.new }
    {
        let request = resolver.answered();
        let Ok(check) = self.check_reply(request.number, Some(&request), values) else {
            return NamedAnswer::NoMemory;
        };
        let answer = push_answer(
            self.alloc,
            self.schema,
            self.side,
            check,
            values,
            &mut self.out,
        );
        use_handled(&answer, request.seq, &mut self.stack);
        answer
    }

    // Returns whether a reply to a request of the message of this number may be sent, if there is a
    // resolver for it. Fails only if memory runs out.
    fn check_reply(
        &self,
        number: u32,
        request: Option<&AnsweredRequest>,
        values: Option<&Values>,
    ) -> Result<ReplyCheck, AllocError>
        requires row { IsSome (message_of self.now.schema number) }
        requires small { IfSome request (λ q. q.now.number < 4294967295) }
        ensures { IfOk result (λ check. IsReplyCheck self.now number
            (option_map (λ q. answered_of q.now) request.entry)
            (option_map (λ vs. plain_values vs.now) values.entry) check) }
    {
        let schema = self.schema;
        let Some(row) = schema.message(number) else {
            unreachable!()
        };
        let reply = reply_by(self.alloc, request, values)?;
        let refusal = answer_refusal(is_open(self.state), schema, &self.tree, row, reply.as_ref());
        Ok(checked_reply(refusal, reply))
    }

    /// Keeps the resolver of a handler under a name, in place of what that was bound to. A closed
    /// end keeps nothing.
    pub fn keep(&mut self, resolver: Resolver, name: &Name) -> KeepAnswer
        requires own { handled_resolver self.old.end resolver.seq ≡ Some resolver }
        requires may { may_act self.old.end ≡ true }
        ensures { KeepGives self.old resolver name.now result self.new }
    {
        let new = new_name(
            self.alloc,
            self.schema,
            is_open(self.state),
            name,
            &mut self.names,
            &mut self.out,
        );
        match new {
            Err(_) => KeepAnswer::NoMemory(resolver),
            Ok(new) => {
                let NewName {
                    shown,
                    held,
                    destroyed,
                } = new;
                let seq = resolver.seq();
                push_named(self.side, What::Keep(seq, shown), destroyed, &mut self.out);
                self.stack.release(seq);
                hold_resolver(self.state, held, resolver, &mut self.names);
                KeepAnswer::Kept
            }
        }
    }

    /// Binds a name to an actor, in place of what it was bound to. An id that is not positive
    /// unbinds the name. Fails only if memory runs out, and then nothing changes.
    pub fn name_actor(&mut self, name: &Name, id: i32) -> Result<(), AllocError>
        requires { may_act self.old.end ≡ true }
        ensures ok { OnOk result (IsStep self.old (event.name name.now id) self.new) }
        ensures err { OnErr result (self.new ≡ self.old) }
    {
        let NewName {
            shown,
            held,
            destroyed,
        } = new_name(
            self.alloc,
            self.schema,
            is_open(self.state),
            name,
            &mut self.names,
            &mut self.out,
        )?;
        let line = What::Let(shown, shown_id(id));
        push_named(self.side, line, destroyed, &mut self.out);
        self.names.hold_actor(held, id);
        Ok(())
    }

    /// Returns what a name is bound to. Takes no memory.
    pub fn named(&self, name: &Name) -> Named
        ensures { result ≡ named_by (held_by_name name.now self.now.end.names) }
    {
        self.names.named(name)
    }

    /// Answers a request of this message with values, by the resolver of a name. Returns `Refused`
    /// exactly if a cause holds, with the first of them: the end is not open, the name has no such
    /// resolver, the values are too large, or one of their actors is dead.
    pub fn resolve_named(&mut self, name: &Name, number: u32, values: &Values) -> NamedAnswer
        requires { MayAnswer self.old (event.kept name.now number) (Some (plain_values values.now)) }
        ensures { NamedGives self.old name.now number (Some (plain_values values.now)) result self.new }
    {
        self.answer_named(name, number, Some(values))
    }

    /// Rejects a request of this message by the resolver of a name: its sender gets the fault
    /// HandlerRejected. Returns `Refused` exactly if the end is not open, or the name has no such
    /// resolver.
    pub fn reject_named(&mut self, name: &Name, number: u32) -> NamedAnswer
        requires { MayAnswer self.old (event.kept name.now number) None }
        ensures { NamedGives self.old name.now number None result self.new }
    {
        self.answer_named(name, number, None)
    }

    // Answers a request of this message by the resolver of a name, with values or by
    // HandlerRejected.
    fn answer_named(&mut self, name: &Name, number: u32, values: Option<&Values>) -> NamedAnswer
        requires { MayAnswer self.old (event.kept name.now number) (option_map (λ vs. plain_values vs.now) values) }
        ensures { AnswerGives self.old (event.kept name.now number) (option_map (λ vs. plain_values vs.now) values.entry) result self.new }
    {
        let request = named_request(&self.names, name, number);
        let Ok(check) = self.check_reply(number, request.as_ref(), values) else {
            return NamedAnswer::NoMemory;
        };
        let answer = push_answer(
            self.alloc,
            self.schema,
            self.side,
            check,
            values,
            &mut self.out,
        );
        use_kept(&answer, name, &mut self.names);
        answer
    }
}

// Returns the result of an answer, with the resolver if it was not used.
fn with_resolver(answer: NamedAnswer, resolver: Resolver) -> ResolveAnswer
    ensures { result ≡ with_resolver answer resolver }
{
    match answer {
        NamedAnswer::Sent => ResolveAnswer::Sent,
        NamedAnswer::Refused(cause) => ResolveAnswer::Refused(cause, resolver),
        NamedAnswer::NoMemory => ResolveAnswer::NoMemory(resolver),
    }
}

// Returns what the answer by the resolver of a name repeats, if that is of a request of this
// message.
fn named_request(names: &NameEntries, name: &Name, number: u32) -> Option<AnsweredRequest>
    ensures { option_map answered_of result ≡ option_map resolver_answered (option_and_then (resolver_of number) (held_by_name name.now names.now.names)) }
{
    let request = names.resolver_held(name)?;
    if request.number == number {
        Some(request)
    } else {
        None
    }
}

// Returns the reply by a resolver, if there is one. Fails only if memory runs out.
fn reply_by(
    alloc: Global,
    request: Option<&AnsweredRequest>,
    values: Option<&Values>,
) -> Result<Option<Message>, AllocError>
    requires { IfSome request (λ q. q.now.number < 4294967295) }
    ensures { IfOk result (λ reply. option_map plain_message reply
        ≡ reply_by (option_map (λ q. answered_of q.now) request.entry)
        (option_map (λ vs. plain_values vs.now) values.entry)) }
{
    match request {
        None => Ok(None),
        Some(request) => Ok(Some(resolver_reply(alloc, request, values)?)),
    }
}

// Returns what a check of a reply finds, by the refusal and the reply.
fn checked_reply(refusal: Option<SendRefusal>, reply: Option<Message>) -> ReplyCheck
    requires { refusal ≡ None → IsSome reply }
    ensures { IsCheckOf refusal reply result }
{
    match (refusal, reply) {
        (Some(cause), _) => ReplyCheck::Refused(cause),
        (None, Some(reply)) => ReplyCheck::Accepted(reply),
        (None, None) => unreachable!(),
    }
}

// Prints that an answer is refused, for which it needs memory.
fn refuse_answer(
    side: Side,
    cause: SendRefusal,
    values: Option<&Values>,
    out: &mut EndOutput,
) -> NamedAnswer
    ensures { IsRefusedWith side cause (option_map (λ vs. plain_values vs.now) values.entry) out.old result out.new }
{
    match out.reserve(1, 0) {
        Err(_) => NamedAnswer::NoMemory,
        Ok(()) => {
            out.push_line(Line {
                side,
                what: refused_line(cause, values),
            });
            NamedAnswer::Refused(cause)
        }
    }
}

// Prints an answer and appends its reply. Fails only if memory runs out.
fn push_reply(
    alloc: Global,
    schema: &Schema,
    side: Side,
    reply: Message,
    out: &mut EndOutput,
) -> Result<(), AllocError>
    requires sound { IsSound schema.now }
    requires fits { Fits schema.now reply }
    ensures ok { OnOk result (HasReplied (line_at side (line_of_reply (plain_message reply))) (frame_packet schema.now (plain_message reply)) out.old out.new) }
    ensures err { OnErr result (HasReserved out.old out.new) }
{
    let frame = frame_of(alloc, schema, &reply)?;
    out.reserve(1, 1)?;
    out.push_line(Line {
        side,
        what: reply_line(reply),
    });
    out.put(Packet::Bytes(frame));
    Ok(())
}

// Prints what a check of a reply has found, and appends the reply if it is accepted. If memory runs
// out, nothing that is seen changes.
fn push_answer(
    alloc: Global,
    schema: &Schema,
    side: Side,
    check: ReplyCheck,
    values: Option<&Values>,
    out: &mut EndOutput,
) -> NamedAnswer
    requires sound { IsSound schema.now }
    requires fits { FitsCheck schema.now check }
    ensures { IsPushed schema.now side (option_map (λ vs. plain_values vs.now) values.entry) check out.old result out.new }
{
    match check {
        ReplyCheck::Refused(cause) => refuse_answer(side, cause, values, out),
        ReplyCheck::Accepted(reply) => match push_reply(alloc, schema, side, reply, out) {
            Ok(()) => NamedAnswer::Sent,
            Err(_) => NamedAnswer::NoMemory,
        },
    }
}

// Notes that the resolver of a handler is used, if an answer by it was sent.
fn use_handled(answer: &NamedAnswer, seq: i32, stack: &mut StackEntries)
    ensures { stack.new ≡ stack_answered answer.now seq stack.old }
{
    match answer {
        NamedAnswer::Sent => stack.release(seq),
        NamedAnswer::Refused(_) | NamedAnswer::NoMemory => {}
    }
}

// Notes that the resolver of a name is used, if an answer by it was sent.
fn use_kept(answer: &NamedAnswer, name: &Name, names: &mut NameEntries)
    ensures { names.new.names ≡ names_answered answer.now name.now names.old.names }
{
    match answer {
        NamedAnswer::Sent => names.remove(name),
        NamedAnswer::Refused(_) | NamedAnswer::NoMemory => {}
    }
}

// Prints the line of a new binding of a name, and answers for the resolver that it destroys.
fn push_named(side: Side, line: What, destroyed: Option<DestroyedReply>, out: &mut EndOutput)
    requires lines { 2 ≤ out.old.line_spare }
    requires packets { length out.old.frames + 1 ≤ out.old.packet_spare }
    ensures { out.new ≡ with_destroyed side (with_line out.old (line_at side (plain_what line))) destroyed }
{
    out.push_line(Line { side, what: line });
    push_destroyed(side, destroyed, out);
}

// Binds a name to a resolver, in place of what it was bound to; does nothing at a closed end.
fn hold_resolver(state: EndState, name: Name, resolver: Resolver, names: &mut NameEntries)
    requires { 0 < names.old.spare }
    ensures { names.new.names ≡ without_name name names.old.names ++ holding name (if is_closed state then None else Some (model.resolver resolver)) }
{
    if state == EndState::Closed {
        names.remove(&name);
    } else {
        names.hold(name, NameContent::Resolver(resolver.into_kept()));
    }
}
