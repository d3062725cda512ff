//! Reads lines, values and messages from the text of a transcript.
use history::{History, Line, What};
use ipdl_base::{Destroy, Name, Reason, Schema, SendRefusal, Side, Value, Values};
use std::alloc::Global;
use std::test::Fail;

/// A reader of the lines of a transcript.
#[derive(Drop)]
struct Reader<'t> {
    rest: &'t [u8],
}

/// The greatest depth to which values may nest, where a list is as deep as it is long.
const DEPTH: u8 = 250;

/// The causes of refusals, by their words.
const CAUSES: &[(&[u8], SendRefusal)] = &[
    (b"Closed", SendRefusal::Closed),
    (b"DeadActor", SendRefusal::DeadActor),
    (b"NestedInNormal", SendRefusal::NestedInNormal),
    (b"InsideCpow", SendRefusal::InsideCpow),
    (b"LevelTooLow", SendRefusal::LevelTooLow),
    (b"TooDeep", SendRefusal::TooDeep),
    (b"TooLarge", SendRefusal::TooLarge),
    (b"InCall", SendRefusal::InCall),
    (b"DeadValue", SendRefusal::DeadValue),
];

/// Returns whether a byte may be part of a word or a number.
fn is_word_byte(byte: u8) -> bool {
    byte.is_ascii_alphanumeric() || byte == b'_' || byte == b'-'
}

/// Returns a name of these bytes, or `None` if memory runs out.
fn name_of(alloc: Global, bytes: &[u8]) -> Option<Name> {
    Name::from_slice(alloc, bytes).ok()
}

impl<'t> Reader<'t> {
    /// Passes `count` bytes and returns them.
    fn pass(&mut self, count: usize) -> &'t [u8] {
        let rest = self.rest;
        self.rest = rest.get(count..).unwrap_or(&[]);
        rest.get(..count).unwrap_or(&[])
    }

    /// Returns whether these bytes come next, and passes them if so.
    fn eat(&mut self, word: &[u8]) -> bool {
        let comes = self.rest.get(..word.len()) == Some(word);
        if comes {
            self.pass(word.len());
        }
        comes
    }

    /// Passes these bytes if they come next, and returns `None` otherwise.
    fn expect(&mut self, word: &[u8]) -> Option<()> {
        if self.eat(word) { Some(()) } else { None }
    }

    /// Reads the word or number that comes next.
    fn word(&mut self) -> &'t [u8] {
        let end = self.rest.iter().position(|byte| !is_word_byte(*byte));
        match end {
            Some(end) => self.pass(end),
            None => self.pass(self.rest.len()),
        }
    }

    /// Reads the bytes before the next quote.
    fn quoted(&mut self) -> &'t [u8] {
        match self.rest.iter().position(|byte| *byte == b'"') {
            Some(end) => self.pass(end),
            None => self.pass(self.rest.len()),
        }
    }

    /// Reads the number that comes next.
    fn number(&mut self) -> Option<i32> {
        let word = self.word();
        str::from_utf8(word).ok()?.parse::<i32>().ok()
    }

    /// Reads the message that comes next, as `P.M`.
    fn message(&mut self, schema: &Schema) -> Option<u32> {
        let protocol_name = self.word();
        self.expect(b".")?;
        let message_name = self.word();
        for protocol in schema.protocols.as_slice() {
            if protocol.name.as_slice() == protocol_name {
                for message in protocol.messages.as_slice() {
                    if message.name.as_slice() == message_name {
                        return Some(message.number);
                    }
                }
            }
        }
        None
    }

    /// Reads the protocol that comes next.
    fn protocol(&mut self, schema: &Schema) -> Option<u32> {
        let name = self.word();
        for (number, protocol) in schema.protocols.as_slice().iter().enumerate() {
            if protocol.name.as_slice() == name {
                return Some(u32::try_from(number).ok()?);
            }
        }
        None
    }

    /// Reads the reason that comes next.
    fn reason(&mut self) -> Option<Reason> {
        if self.eat(b"ChannelClosed") {
            Some(Reason::ChannelClosed)
        } else if self.eat(b"HandlerRejected") {
            Some(Reason::HandlerRejected)
        } else if self.eat(b"ActorDestroyed") {
            Some(Reason::ActorDestroyed)
        } else {
            self.expect(b"ResolverDestroyed")?;
            Some(Reason::ResolverDestroyed)
        }
    }

    /// Reads the reason of a fall that comes next.
    fn destroy(&mut self) -> Option<Destroy> {
        if self.eat(b"Deletion") {
            Some(Destroy::Deletion)
        } else if self.eat(b"AncestorDeletion") {
            Some(Destroy::AncestorDeletion)
        } else if self.eat(b"NormalShutdown") {
            Some(Destroy::NormalShutdown)
        } else {
            self.expect(b"AbnormalShutdown")?;
            Some(Destroy::AbnormalShutdown)
        }
    }

    /// Reads the cause of a refusal that comes next.
    fn refusal(&mut self) -> Option<SendRefusal> {
        let word = self.word();
        let (_, cause) = CAUSES.iter().find(|(name, _)| *name == word)?;
        Some(*cause)
    }

    /// Reads the value that comes next, without its type.
    #[cycle(values)]
    fn value(&mut self, alloc: Global, depth: u8) -> Option<Value> {
        if depth == 0 {
            return None;
        }
        if self.eat(b"true") {
            Some(Value::Bool(true))
        } else if self.eat(b"false") {
            Some(Value::Bool(false))
        } else if self.eat(b"null") {
            Some(Value::Actor(0))
        } else if self.eat(b"none") {
            Some(Value::Maybe(None))
        } else if self.eat(b"some ") {
            let held = self.value(alloc, depth - 1)?;
            Some(Value::Maybe(Some(Box::new(alloc, held).ok()?)))
        } else if self.eat(b"#") {
            Some(Value::Actor(self.number()?))
        } else if self.eat(b"\"") {
            let text = name_of(alloc, self.quoted())?;
            self.expect(b"\"")?;
            Some(Value::Text(text))
        } else if self.eat(b"{") {
            Some(Value::Struct(self.values(alloc, b"}", depth - 1)?))
        } else if self.eat(b"[") {
            Some(Value::Array(self.values(alloc, b"]", depth - 1)?))
        } else if self.eat(b"@") {
            let index = u32::try_from(self.number()?).ok()?;
            self.expect(b" ")?;
            let held = self.value(alloc, depth - 1)?;
            Some(Value::Union(index, Box::new(alloc, held).ok()?))
        } else {
            Some(Value::Int(i128::from(self.number()?)))
        }
    }

    /// Reads the values before `end`.
    #[cycle(values)]
    fn values(&mut self, alloc: Global, end: &[u8], depth: u8) -> Option<Values> {
        if depth == 0 {
            return None;
        }
        if self.eat(end) {
            return Some(Values::Nothing);
        }
        let _ = self.eat(b", ");
        let first = self.value(alloc, depth - 1)?;
        let rest = self.values(alloc, end, depth - 1)?;
        Some(Values::First(Box::new(alloc, first).ok()?, Box::new(alloc, rest).ok()?))
    }

    /// Reads values in parentheses.
    fn listed(&mut self, alloc: Global) -> Option<Values> {
        self.expect(b"(")?;
        self.values(alloc, b")", DEPTH)
    }

    /// Reads the rest of a send.
    fn send(&mut self, alloc: Global, schema: &Schema) -> Option<What> {
        let n = self.number()?;
        self.expect(b" to ")?;
        let route = self.number()?;
        self.expect(b" ")?;
        let message = self.message(schema)?;
        Some(What::Send(n, route, message, self.listed(alloc)?))
    }

    /// Reads the rest of a call.
    fn call(&mut self, alloc: Global, schema: &Schema) -> Option<What> {
        let n = self.number()?;
        self.expect(b"/")?;
        let transaction = self.number()?;
        self.expect(b" to ")?;
        let route = self.number()?;
        self.expect(b" ")?;
        let message = self.message(schema)?;
        Some(What::Call(n, transaction, route, message, self.listed(alloc)?))
    }

    /// Reads the rest of a take.
    fn take(&mut self, alloc: Global, schema: &Schema) -> Option<What> {
        let n = self.number()?;
        self.expect(b" at ")?;
        let route = self.number()?;
        self.expect(b" ")?;
        let message = self.message(schema)?;
        Some(What::Take(n, route, message, self.listed(alloc)?))
    }

    /// Reads the rest of a drop.
    fn dropped(&mut self, schema: &Schema) -> Option<What> {
        let n = self.number()?;
        self.expect(b" at ")?;
        let route = self.number()?;
        self.expect(b" ")?;
        let message = self.message(schema)?;
        self.expect(b" for ")?;
        Some(What::Drop(n, route, message, self.number()?))
    }

    /// Reads the rest of a refusal.
    fn refused(&mut self, schema: &Schema) -> Option<What> {
        let cause = self.refusal()?;
        self.expect(b" ")?;
        if self.eat(b"close") {
            Some(What::RefusedClose(cause))
        } else if self.eat(b"resolve") {
            Some(What::RefusedResolve(cause))
        } else if self.eat(b"reject") {
            Some(What::RefusedReject(cause))
        } else {
            Some(What::RefusedSend(cause, self.message(schema)?))
        }
    }

    /// Reads the rest of a call that continues.
    fn resume(&mut self, alloc: Global) -> Option<What> {
        let n = self.number()?;
        if self.eat(b" ok ") {
            Some(What::ResumeOk(n, self.listed(alloc)?))
        } else {
            self.expect(b" fault ")?;
            Some(What::ResumeFault(n, self.reason()?))
        }
    }

    /// Reads the rest of a resolve.
    fn resolve(&mut self, alloc: Global) -> Option<What> {
        let n = self.number()?;
        self.expect(b" ")?;
        Some(What::Resolve(n, self.listed(alloc)?))
    }

    /// Reads the rest of a resolver that is kept.
    fn keep(&mut self, alloc: Global) -> Option<What> {
        let n = self.number()?;
        self.expect(b" ")?;
        Some(What::Keep(n, name_of(alloc, self.word())?))
    }

    /// Reads the rest of an actor that is named.
    fn named(&mut self, alloc: Global) -> Option<What> {
        let name = name_of(alloc, self.word())?;
        self.expect(b" ")?;
        Some(What::Let(name, self.number()?))
    }

    /// Reads a delivery or a shutting.
    fn arrival(&mut self) -> Option<What> {
        if self.eat(b"deliver request ") {
            Some(What::DeliverRequest(self.number()?))
        } else if self.eat(b"deliver reply ") {
            Some(What::DeliverReply(self.number()?))
        } else if self.eat(b"deliver goodbye") {
            Some(What::DeliverGoodbye)
        } else if self.eat(b"deliver broken") {
            Some(What::DeliverBroken)
        } else if self.eat(b"shut NormalShutdown") {
            Some(What::ShutNormal)
        } else {
            self.expect(b"shut AbnormalShutdown")?;
            Some(What::ShutAbnormal)
        }
    }

    /// Reads an event.
    fn event(&mut self, alloc: Global, schema: &Schema) -> Option<What> {
        if self.eat(b"send ") {
            self.send(alloc, schema)
        } else if self.eat(b"call ") {
            self.call(alloc, schema)
        } else if self.eat(b"refused ") {
            self.refused(schema)
        } else if self.eat(b"resolve ") {
            self.resolve(alloc)
        } else if self.eat(b"reject ") {
            Some(What::Reject(self.number()?))
        } else if self.eat(b"keep ") {
            self.keep(alloc)
        } else if self.eat(b"let ") {
            self.named(alloc)
        } else if self.eat(b"close") {
            Some(What::Close)
        } else if self.eat(b"die") {
            Some(What::Die)
        } else if self.eat(b"take reply ") {
            Some(What::TakeReply(self.number()?))
        } else if self.eat(b"take ") {
            self.take(alloc, schema)
        } else if self.eat(b"drop ") {
            self.dropped(schema)
        } else if self.eat(b"return ") {
            Some(What::Return(self.number()?))
        } else if self.eat(b"resume ") {
            self.resume(alloc)
        } else if self.eat(b"flush ") {
            Some(What::Flush(u32::try_from(self.number()?).ok()?))
        } else {
            self.arrival()
        }
    }

    /// Reads the rest of an answer.
    fn answer(&mut self, alloc: Global) -> Option<What> {
        let n = self.number()?;
        if self.eat(b" ok ") {
            Some(What::AnswerOk(n, self.listed(alloc)?))
        } else {
            self.expect(b" fault ")?;
            Some(What::AnswerFault(n, self.reason()?))
        }
    }

    /// Reads the rest of a settling.
    fn settle(&mut self, alloc: Global) -> Option<What> {
        let n = self.number()?;
        if self.eat(b" resolved ") {
            Some(What::Resolved(n, self.listed(alloc)?))
        } else {
            self.expect(b" rejected ")?;
            Some(What::Rejected(n, self.reason()?))
        }
    }

    /// Reads an effect.
    fn effect(&mut self, alloc: Global, schema: &Schema) -> Option<What> {
        if self.eat(b"built ") {
            let id = self.number()?;
            self.expect(b" ")?;
            Some(What::Built(id, self.protocol(schema)?))
        } else if self.eat(b"replaced ") {
            Some(What::Replaced(self.number()?))
        } else if self.eat(b"answer ") {
            self.answer(alloc)
        } else if self.eat(b"fails ") {
            Some(What::Fails(self.number()?))
        } else if self.eat(b"settle ") {
            self.settle(alloc)
        } else {
            self.expect(b"fall ")?;
            let id = self.number()?;
            self.expect(b" ")?;
            Some(What::Fall(id, self.destroy()?))
        }
    }
}

/// Reads a line of a transcript with its end, where `before` is the end of the preceding event.
fn line_of(alloc: Global, schema: &Schema, before: Side, text: &[u8]) -> Option<Line> {
    let mut reader = Reader { rest: text };
    let (side, what) = if reader.eat(b"  ") {
        (before, reader.effect(alloc, schema)?)
    } else if reader.eat(b"parent ") {
        (Side::Parent, reader.event(alloc, schema)?)
    } else {
        reader.expect(b"child ")?;
        (Side::Child, reader.event(alloc, schema)?)
    };
    if reader.rest.is_empty() {
        Some(Line { side, what })
    } else {
        None
    }
}

/// Reads the history from the lines of a transcript. Fails if a line has another form or memory runs out.
pub fn history_of(alloc: Global, schema: &Schema, text: &str) -> Result<History, Fail> {
    let mut history = History::new(alloc);
    let mut side = Side::Parent;
    for piece in text.lines() {
        let line = line_of(alloc, schema, side, piece.as_bytes()).ok_or("another form of line")?;
        side = line.side;
        history.push(line)?;
    }
    Ok(history)
}

/// Reads values in parentheses, as a transcript writes them. Fails if the text has another form.
pub fn values_of(alloc: Global, text: &str) -> Result<Values, Fail> {
    let mut reader = Reader {
        rest: text.as_bytes(),
    };
    Ok(reader.listed(alloc).ok_or("another form of values")?)
}

/// Returns the number of the message that a text names as `P.M`. Fails if the schema has no such message.
pub fn message_of(schema: &Schema, text: &str) -> Result<u32, Fail> {
    let mut reader = Reader {
        rest: text.as_bytes(),
    };
    Ok(reader.message(schema).ok_or("no message of the schema")?)
}
