//! Takes of arrived items, and returns of handlers.
ghost use Rattle.std.specs.Prelude.{◌≡◌, ◌+◌, ◌<◌, ◌≤◌, true, ◌∷◌, Some, is_some, length, option_map, OnSome, OnOk, OnErr};
ghost use Rattle.actor_tree.specs.Tree.{without};
ghost use Rattle.ipdl_base.specs.declared.message.Body.TheVariants as request;
ghost use Rattle.ipdl_base.specs.Plain.{plain_body, plain_message, plain_values};
ghost use Rattle.pending_queue.specs.Compression.{is_request};
ghost use Rattle.channel_model.specs.Events as event;
ghost use Rattle.end_parts.specs.PlainLines.{plain_what};
ghost use Rattle.channel_model.specs.Takes.{dispatch_of, deferral_context_of, taken_next, takes_in_state};
ghost use Rattle.channel_model.specs.ValueActors.{nulled};
ghost use Rattle.end_steps.specs.BuiltActors.{with_built, IsFree};
ghost use Rattle.channel_core.specs.NextItems.{farewell_line, farewell_reason, kind_of_item, resolver_by};
ghost use Rattle.ipdl_base.specs.declared.value.Values.{Values as OfValues};
ghost use Rattle.channel_core.specs.Taken.{IsHandling};

use super::{End, is_open};
use crate::answers::{FinishAnswer, Handling, TakeAnswer};
use crate::resolver::Resolver;
use actor_tree::{Actor, Tree};
use end_parts::{CopiedAnswer, EndOutput, StackEntries, null_dead_beside, receive_answer};
use end_steps::{
    AnswerPacket, RequestPlan, answer_of, build_actor, close_parts, copy_next, delete_by,
    plan_next, push_built, put_answer, return_packet, settle_promise, take_message,
};
use ipdl_base::{
    Body, Destroy, EndState, Line, Message, MessageRow, Schema, Semantics, Values, What,
};
use nesting_core::Head;
use pending_queue::{DeferralContext, Item};
use std::alloc::AllocError;
use value_types::boxes_say_nothing;

/// How the other side ends: by its goodbye, or by the mark of its death.
#[derive(Clone, Copy)]
enum Farewell {
    Goodbye,
    Mark,
}

/// What kind an item is of.
#[derive(Clone, Copy)]
enum ItemKind {
    Request,
    /// The values or the fault that settle a promise.
    Reply,
    Farewell(Farewell),
}

impl<'s> End<'s> {
    ghost use Rattle.channel_core.specs.Answers.{FinishGives, IsHandedBack};
    ghost use Rattle.channel_core.specs.NextItems.{next_kind, IsNextDrop, IsNextHandling, IsNextReply};
    ghost use Rattle.channel_core.specs.Steps.{IsStep, MayReturn};
    ghost use Rattle.channel_core.specs.Taken.{TakeGives};

    /// Takes the oldest item that has arrived and is not deferred. This is the step of a take.
    /// Returns `Nothing` exactly if nothing can be taken.
    pub fn take(&mut self) -> TakeAnswer
        ensures { TakeGives self.old result self.new }
    {
        match self.next_kind() {
            None => TakeAnswer::Nothing,
            Some(ItemKind::Request) => self.take_request(),
            Some(ItemKind::Reply) => self.take_reply(),
            Some(ItemKind::Farewell(farewell)) => self.shut(farewell),
        }
    }

    /// Whether something can be taken. Takes no memory.
    pub fn can_take(&self) -> bool
        ensures { result ≡ is_some (taken_next self.now.end) }
    {
        self.next_kind().is_some()
    }

    // Returns the kind of the item that is taken next, or `None` if nothing can be taken.
    fn next_kind(&self) -> Option<ItemKind>
        ensures kind { result ≡ next_kind self.now }
        ensures room { OnSome result (length self.now.end.stack < 64) }
    {
        if !takes_in_state(self.state) || !self.stack.takes() {
            return None;
        }
        let holding = self.stack.deferral_context(self.side);
        match self.pending.first(&holding) {
            None => None,
            Some(item) => Some(kind_of_item(item)),
        }
    }

    // Takes a request.
    fn take_request(&mut self) -> TakeAnswer
        requires kind { next_kind self.old ≡ Some ItemKind.Request }
        requires room { length self.old.end.stack < 64 }
        ensures { TakeGives self.old result self.new }
    {
        boxes_say_nothing();
        let holding = self.stack.deferral_context(self.side);
        let plan = plan_next(
            self.alloc,
            self.schema,
            is_open(self.state),
            &self.tree,
            &self.pending,
            &holding,
        );
        match plan {
            Err(_) => TakeAnswer::NoMemory,
            Ok(RequestPlan::Drop(id, packet)) => self.drop_request(&holding, id, packet),
            Ok(RequestPlan::Handle(shown, built)) => self.handle_request(&holding, shown, built),
        }
    }

    // Drops the next request, for the actor of an id.
    fn drop_request(
        &mut self,
        holding: &DeferralContext,
        id: i32,
        packet: Option<AnswerPacket>,
    ) -> TakeAnswer
        requires holding { holding.now ≡ deferral_context_of self.old.end }
        requires next { IsNextDrop self.old id packet }
        ensures { TakeGives self.old result self.new }
    {
        if self.out.reserve(2, 1).is_err() {
            return TakeAnswer::NoMemory;
        }
        let message = take_message(&mut self.pending, holding);
        self.out.push_line(Line {
            side: self.side,
            what: What::Drop(message.seq, message.route, message.number, id),
        });
        put_answer(self.side, packet, &mut self.out);
        TakeAnswer::Dropped
    }

    // Handles the next request, with these values in its line, and builds its actor.
    fn handle_request(
        &mut self,
        holding: &DeferralContext,
        shown: Values,
        built: Option<Actor>,
    ) -> TakeAnswer
        requires holding { holding.now ≡ deferral_context_of self.old.end }
        requires next { IsNextHandling self.old (plain_values shown) built }
        requires room { length self.old.end.stack < 64 }
        ensures { TakeGives self.old result self.new }
    {
        if reserve_and_build(built, &mut self.tree, &mut self.out).is_err() {
            return TakeAnswer::NoMemory;
        }
        let message = take_message(&mut self.pending, holding);
        let Some(row) = self.schema.message(message.number) else {
            unreachable!();
        };
        self.out.push_line(Line {
            side: self.side,
            what: What::Take(message.seq, message.route, message.number, shown),
        });
        push_built(self.side, built, &mut self.out);
        push_dispatch(row, &message, &mut self.stack);
        TakeAnswer::Handle(handling_of(self.schema, &self.tree, row, message))
    }

    // Takes a reply.
    fn take_reply(&mut self) -> TakeAnswer
        requires { next_kind self.old ≡ Some ItemKind.Reply }
        ensures { TakeGives self.old result self.new }
    {
        let holding = self.stack.deferral_context(self.side);
        match copy_next(self.alloc, &self.pending, &holding) {
            Err(_) => TakeAnswer::NoMemory,
            Ok(copy) => self.settle_reply(&holding, copy),
        }
    }

    // Takes the next reply, with a second copy of its values.
    fn settle_reply(&mut self, holding: &DeferralContext, copy: Option<Values>) -> TakeAnswer
        requires holding { holding.now ≡ deferral_context_of self.old.end }
        requires next { IsNextReply self.old copy }
        ensures { TakeGives self.old result self.new }
    {
        if self.out.reserve(2, 0).is_err() {
            return TakeAnswer::NoMemory;
        }
        let message = take_message(&mut self.pending, holding);
        let Some(row) = self.schema.message(message.number) else {
            unreachable!();
        };
        self.out.push_line(Line {
            side: self.side,
            what: What::TakeReply(message.seq),
        });
        let seq = message.seq;
        let given = CopiedAnswer {
            answer: answer_of(message.body),
            copy,
        };
        let received = receive_answer(self.schema, &self.tree, row, given);
        settle_promise(self.side, seq, received, &mut self.promises, &mut self.out);
        TakeAnswer::Settled
    }

    // Takes a goodbye or a mark, and closes the end.
    fn shut(&mut self, farewell: Farewell) -> TakeAnswer
        requires { next_kind self.old ≡ Some (ItemKind.Farewell farewell) }
        ensures { TakeGives self.old result self.new }
    {
        if self.out.reserve(1, 0).is_err() {
            return TakeAnswer::NoMemory;
        }
        self.out.push_line(Line {
            side: self.side,
            what: line_of(farewell),
        });
        let before = self.out.line_spare();
        close_parts(
            self.side,
            reason_of(farewell),
            &mut self.tree,
            &mut self.promises,
            &mut self.names,
            &mut self.out,
        );
        self.out.pay(before.saturating_sub(self.out.line_spare()));
        self.pending.clear();
        self.state = EndState::Closed;
        TakeAnswer::Shut
    }

    /// Returns from the handler on top. This is the step of a return. The resolver is that of its
    /// request, if it was neither used nor kept; it is destroyed. Only a sync message with returns
    /// has values.
    pub fn finish(&mut self, resolver: Option<Resolver>, values: Option<&Values>) -> FinishAnswer
        requires may { MayReturn self.old (option_map (λ vs. plain_values vs.now) values) }
        requires back { IsHandedBack self.old resolver }
        ensures { FinishGives self.old resolver (option_map (λ vs. plain_values vs.now) values.entry) result self.new }
    {
        match self.return_handler(values) {
            Ok(()) => FinishAnswer::Done,
            Err(_) => FinishAnswer::NoMemory(resolver),
        }
    }

    // Returns from the handler on top. Fails only if memory runs out.
    fn return_handler(&mut self, values: Option<&Values>) -> Result<(), AllocError>
        requires { MayReturn self.old (option_map (λ vs. plain_values vs.now) values) }
        ensures ok { OnOk result (IsStep self.old (event.return (option_map (λ vs. plain_values vs.now) values.entry)) self.new) }
        ensures err { OnErr result (self.new ≡ self.old) }
    {
        let Some(entry) = self.stack.dispatch_on_top() else {
            unreachable!();
        };
        let Some(row) = self.schema.message(entry.number) else {
            unreachable!();
        };
        let packet = return_packet(
            self.alloc,
            self.schema,
            is_open(self.state),
            &self.tree,
            row,
            &entry,
            values,
        )?;
        self.out.reserve(2, 1)?;
        self.stack.pop_dispatch();
        self.out.push_line(Line {
            side: self.side,
            what: What::Return(entry.head.seq),
        });
        put_answer(self.side, packet, &mut self.out);
        delete_by(
            row.kind,
            self.side,
            entry.route,
            &mut self.tree,
            &mut self.promises,
            &mut self.out,
        );
        Ok(())
    }
}

// Whether an end of this state takes items.
fn takes_in_state(state: EndState) -> bool
    ensures { result ≡ takes_in_state state }
{
    match state {
        EndState::Open | EndState::Draining => true,
        EndState::Closed | EndState::Dead => false,
    }
}

// Returns the line of a farewell that is taken.
fn line_of(farewell: Farewell) -> What
    ensures { plain_what result ≡ farewell_line farewell }
{
    match farewell {
        Farewell::Goodbye => What::ShutNormal,
        Farewell::Mark => What::ShutAbnormal,
    }
}

// Returns the reason for which an end then closes.
fn reason_of(farewell: Farewell) -> Destroy
    ensures { result ≡ farewell_reason farewell }
{
    match farewell {
        Farewell::Goodbye => Destroy::NormalShutdown,
        Farewell::Mark => Destroy::AbnormalShutdown,
    }
}

// Returns the kind of an item.
fn kind_of_item(item: &Item) -> ItemKind
    ensures { result ≡ kind_of_item item.now }
{
    match item {
        Item::Broken => ItemKind::Farewell(Farewell::Mark),
        Item::Message { message, .. } => match &message.body {
            Body::Request(_) => ItemKind::Request,
            Body::Reply(_) | Body::Fault(_) => ItemKind::Reply,
            Body::Goodbye => ItemKind::Farewell(Farewell::Goodbye),
        },
    }
}

// Makes room for the lines of a request that is handled, and builds its actor. If memory runs out,
// nothing changes.
fn reserve_and_build(
    built: Option<Actor>,
    tree: &mut Tree,
    out: &mut EndOutput,
) -> Result<(), AllocError>
    requires { IsFree tree.old built }
    ensures same { out.new ≡ record out.old { line_spare = out.new.line_spare; packet_spare = out.new.packet_spare } }
    ensures more_lines { out.old.line_spare ≤ out.new.line_spare }
    ensures more_packets { out.old.packet_spare ≤ out.new.packet_spare }
    ensures lines { OnOk result (out.old.lines_owed + 3 ≤ out.new.line_spare) }
    ensures built { OnOk result (tree.new ≡ with_built built tree.old) }
    ensures same_tree { OnErr result (tree.new ≡ tree.old) }
{
    out.reserve(3, 0)?;
    build_actor(tree, built)
}

// Pushes the dispatch of a request.
fn push_dispatch(row: &MessageRow, message: &Message, stack: &mut StackEntries)
    requires { length stack.old < 64 }
    ensures { stack.new ≡ dispatch_of row.now message.now ∷ stack.old }
{
    let is_sync = row.semantics == Semantics::Sync;
    let head = Head {
        sync: is_sync,
        level: row.level,
        seq: message.seq,
        transaction: message.transaction,
    };
    stack.push_dispatch(
        head,
        message.route,
        message.number,
        !is_sync && row.returns.is_some(),
    );
}

// Returns a request as it is handled, after its actor was built.
fn handling_of(schema: &Schema, tree: &Tree, row: &MessageRow, message: Message) -> Handling
    requires { is_request message.body ≡ true }
    ensures { (given : OfValues) → plain_body message.body ≡ request.Request given
        → IsHandling (plain_message message) row.now
        (nulled schema.now (without message.made tree.now) row.now.params given) result }
{
    let Message {
        route,
        number,
        seq,
        made,
        body,
        ..
    } = message;
    Handling {
        route,
        number,
        seq,
        made,
        values: handled_values(schema, tree, row, made, body),
        resolver: resolver_for(row, seq, route, number),
    }
}

// Returns the values of a request, with null for the actors of nullable types that did not live
// before it built its own.
fn handled_values(schema: &Schema, tree: &Tree, row: &MessageRow, made: i32, body: Body) -> Values
    requires { is_request body ≡ true }
    ensures { (given : OfValues) → plain_body body ≡ request.Request given
        → plain_values result ≡ nulled schema.now (without made tree.now) row.now.params given }
{
    match body {
        Body::Request(values) => {
            let mut values = values;
            null_dead_beside(&mut values, schema, tree, made, row.params.as_slice());
            values
        }
        Body::Reply(_) | Body::Fault(_) | Body::Goodbye => unreachable!(),
    }
}

// Returns the resolver for a request, if its message is async with returns.
fn resolver_for(row: &MessageRow, seq: i32, route: i32, number: u32) -> Option<Resolver>
    ensures { result ≡ resolver_by row.now seq route number }
{
    if row.semantics != Semantics::Sync && row.returns.is_some() {
        Some(Resolver::of_request(seq, route, number))
    } else {
        None
    }
}
