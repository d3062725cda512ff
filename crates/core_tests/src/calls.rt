//! An end under test, and its calls as texts.
ghost use Rattle.ipdl_base.specs.Sound.{IsSound};

use super::answers::{named_word, refusal_word, state_word, top_word};
use super::conditions::{
    is_handed_back, may_act, may_answer_by, may_answer_named, may_return, may_send,
};
use channel_core::{
    CloseAnswer, DeliverAnswer, End, EndState, FinishAnswer, Handling, KeepAnswer, NamedAnswer,
    Packet, ResolveAnswer, Resolver, SendAnswer, TakeAnswer,
};
use history::History;
use history_of_text::{message_of, values_of};
use ipdl_base::{Items, Name, Schema, SendRefusal, Side, Values};
use std::alloc::Global;
use std::collections::VecDeque;
use std::marker::Model;
use std::test::Fail;

/// The number of requests that an end may send, or have delivered.
const MOST_REQUESTS: u32 = 268435456;

/// An end with the resolvers that its handlers were given, and the packets that come to it.
#[derive(Drop)]
pub struct TestedEnd<'s> {
    alloc: Global,
    schema: &'s Schema,
    end: End<'s>,
    resolvers: Vec<Resolver>,
    arriving: VecDeque<Packet>,
}

impl<'s> Model for TestedEnd<'s> {
    ghost use Rattle.std.specs.Prelude.{◌≡◌};
    ghost use Rattle.std.specs.Coded.{codes};
    ghost use Rattle.ipdl_base.specs.Sound.{IsSound};
    ghost use Rattle.ipdl_base.specs.contracts.value.Values as values;
    ghost use Rattle.ipdl_base.specs.contracts.schema.Shape as shape;
    ghost use Rattle.channel_core.specs.EndView.{EndView};

    ghost Value = { EndView };

    ghost coded = { Prim.hlevel (codes, values.the_row.coded, shape.the_row.coded) };

    ghost view = { λ a. a.end };

    ghost invariant = { λ a. IsSound a.schema.now × (a.end.schema ≡ a.schema.now) };
}

/// The number before the first blank, and the text after that.
fn number_and_rest(text: &str) -> Result<(i32, &str), Fail> {
    let (number, rest) = text.split_once(" ").ok_or("a number alone")?;
    Ok((number.parse::<i32>()?, rest))
}

/// The packet whose bytes pairs of hexadecimal digits spell.
fn packet_of(alloc: Global, digits: &str) -> Result<Packet, Fail> {
    let mut bytes = Vec::new(alloc);
    let mut high = None;
    for c in digits.chars() {
        let digit = u8::try_from(c.to_digit(16).ok_or("no digit")?)?;
        match high {
            None => high = Some(digit),
            Some(first) => {
                bytes.push((first & 15) << 4 | (digit & 15))?;
                high = None;
            }
        }
    }
    Ok(Packet::Bytes(Items::from_vec(bytes)))
}

/// A message and its values, from `P.M(values)`.
fn message_and_values(alloc: Global, schema: &Schema, text: &str) -> Result<(u32, Values), Fail> {
    let (message, _) = text.split_once("(").ok_or("a message without values")?;
    let values = text.strip_prefix(message).unwrap_or("");
    Ok((message_of(schema, message)?, values_of(alloc, values)?))
}

impl<'s> TestedEnd<'s> {
    /// An end of a protocol, as it begins.
    pub fn open(
        alloc: Global,
        side: Side,
        schema: &'s Schema,
        top: u32,
    ) -> Result<TestedEnd<'s>, Fail>
        requires { IsSound schema.now }
    {
        if top as usize >= schema.protocols.len() {
            return Err("no protocol".into());
        }
        Ok(TestedEnd {
            alloc,
            schema,
            end: End::open(alloc, side, schema, top)?,
            resolvers: Vec::new(alloc),
            arriving: VecDeque::new(alloc),
        })
    }

    /// Moves the lines to a history.
    pub fn drain(&mut self, lines: &mut History) -> Result<(), Fail> {
        Ok(self.end.drain(lines)?)
    }

    /// Moves the packets to the other end, and returns their number.
    pub fn hand_over(&mut self, other: &mut TestedEnd) -> Result<u32, Fail> {
        let mut count = 0u32;
        while let Some(packet) = self.end.outgoing() {
            other.arriving.push_back(packet)?;
            count = count.wrapping_add(1);
        }
        Ok(count)
    }

    /// Returns the result of a call of an end, as text, or `None` if memory ran out.
    pub fn call(&mut self, text: &str) -> Result<Option<String>, Fail> {
        let (word, rest) = text.split_once(" ").unwrap_or((text, ""));
        match word {
            "send" => self.send(None, rest),
            "new" => self.send_named(rest),
            "resolve" => self.resolve_by(rest),
            "reject" => self.reject_by(rest),
            "keep" => self.keep(rest),
            "let" => self.name_actor(rest),
            "close" => self.close(),
            "die" => self.die(),
            "deliver" => self.deliver_next(),
            "bytes" => self.deliver_bytes(rest),
            "take" => self.take(),
            "return" => self.finish(rest),
            "resume" => self.resume(),
            "flush" => self.flush(),
            _ => self.look(word, rest),
        }
    }

    fn flush(&mut self) -> Result<Option<String>, Fail> {
        let count = self.end.flush();
        Ok(Some(format!(in self.alloc; "{count}")?))
    }

    /// A request to an actor, from `ROUTE P.M(values)`.
    fn send(&mut self, name: Option<&Name>, text: &str) -> Result<Option<String>, Fail> {
        let (route, text) = number_and_rest(text)?;
        let (number, values) = message_and_values(self.alloc, self.schema, text)?;
        if !may_send(self.schema, &self.end, number, &values, name)
            || self.end.sent() >= MOST_REQUESTS
        {
            return Err("no send of this end".into());
        }
        match self.end.send(route, number, &values, name) {
            SendAnswer::Sent { seq, made } => Ok(Some(format!(in self.alloc;
                "sent {seq} {made}"
            )?)),
            SendAnswer::Refused(cause) => self.refused(cause),
            SendAnswer::NoMemory => Ok(None),
        }
    }

    /// A constructor whose actor gets a name, from `NAME ROUTE P.M(values)`.
    fn send_named(&mut self, text: &str) -> Result<Option<String>, Fail> {
        let (name, text) = text.split_once(" ").ok_or("a name alone")?;
        let name = Name::from_slice(self.alloc, name.as_bytes())?;
        self.send(Some(&name), text)
    }

    fn refused(&self, cause: SendRefusal) -> Result<Option<String>, Fail> {
        Ok(Some(format!(in self.alloc; "refused {}", refusal_word(cause))?))
    }

    fn word(&self, word: &str) -> Result<Option<String>, Fail> {
        Ok(Some(String::from_str(self.alloc, word)?))
    }

    /// The resolver of the request of a number.
    fn resolver(&mut self, seq: i32) -> Result<Resolver, Fail> {
        let place = self
            .resolvers
            .iter()
            .position(|r| r.seq() == seq)
            .ok_or("no resolver")?;
        Ok(self.resolvers.swap_remove(place))
    }

    /// An answer by a resolver, from `SEQ (values)`, or by a name, from `NAME P.M(values)`.
    fn resolve_by(&mut self, text: &str) -> Result<Option<String>, Fail> {
        let (first, values) = text.split_once(" ").ok_or("an answer alone")?;
        match first.parse::<i32>() {
            Ok(seq) => self.resolve(seq, values),
            Err(_) => self.resolve_named(text),
        }
    }

    fn resolve(&mut self, seq: i32, values: &str) -> Result<Option<String>, Fail> {
        let values = values_of(self.alloc, values)?;
        let resolver = self.resolver(seq)?;
        if !may_answer_by(self.schema, &self.end, &resolver, Some(&values)) {
            return Err("no answer of this end".into());
        }
        let answer = self.end.resolve(resolver, &values);
        self.answered(answer)
    }

    fn answered(&mut self, answer: ResolveAnswer) -> Result<Option<String>, Fail> {
        match answer {
            ResolveAnswer::Sent => self.word("sent"),
            ResolveAnswer::Refused(cause, resolver) => {
                self.resolvers.push(resolver)?;
                self.refused(cause)
            }
            ResolveAnswer::NoMemory(resolver) => {
                self.resolvers.push(resolver)?;
                Ok(None)
            }
        }
    }

    fn resolve_named(&mut self, text: &str) -> Result<Option<String>, Fail> {
        let (name, text) = text.split_once(" ").ok_or("a name alone")?;
        let (number, values) = message_and_values(self.alloc, self.schema, text)?;
        let name = Name::from_slice(self.alloc, name.as_bytes())?;
        if !may_answer_named(self.schema, &self.end, &name, number, Some(&values)) {
            return Err("no answer of this end".into());
        }
        let answer = self.end.resolve_named(&name, number, &values);
        self.named_answer(answer)
    }

    fn named_answer(&self, answer: NamedAnswer) -> Result<Option<String>, Fail> {
        match answer {
            NamedAnswer::Sent => self.word("sent"),
            NamedAnswer::Refused(cause) => self.refused(cause),
            NamedAnswer::NoMemory => Ok(None),
        }
    }

    /// A rejection by a resolver, from `SEQ`, or by a name, from `NAME P.M`.
    fn reject_by(&mut self, text: &str) -> Result<Option<String>, Fail> {
        match text.parse::<i32>() {
            Ok(seq) => self.reject(seq),
            Err(_) => self.reject_named(text),
        }
    }

    fn reject(&mut self, seq: i32) -> Result<Option<String>, Fail> {
        let resolver = self.resolver(seq)?;
        if !may_answer_by(self.schema, &self.end, &resolver, None) {
            return Err("no answer of this end".into());
        }
        let answer = self.end.reject(resolver);
        self.answered(answer)
    }

    fn reject_named(&mut self, text: &str) -> Result<Option<String>, Fail> {
        let (name, message) = text.split_once(" ").ok_or("a name alone")?;
        let name = Name::from_slice(self.alloc, name.as_bytes())?;
        let number = message_of(self.schema, message)?;
        if !may_answer_named(self.schema, &self.end, &name, number, None) {
            return Err("no answer of this end".into());
        }
        let answer = self.end.reject_named(&name, number);
        self.named_answer(answer)
    }

    /// A resolver that is kept, from `SEQ NAME`.
    fn keep(&mut self, text: &str) -> Result<Option<String>, Fail> {
        let (seq, name) = number_and_rest(text)?;
        let name = Name::from_slice(self.alloc, name.as_bytes())?;
        let resolver = self.resolver(seq)?;
        if !self.end.has_resolver(&resolver) || !may_act(&self.end) {
            return Err("a resolver of another end".into());
        }
        match self.end.keep(resolver, &name) {
            KeepAnswer::Kept => self.word("kept"),
            KeepAnswer::NoMemory(resolver) => {
                self.resolvers.push(resolver)?;
                Ok(None)
            }
        }
    }

    /// A name for an actor, from `ID NAME`.
    fn name_actor(&mut self, text: &str) -> Result<Option<String>, Fail> {
        let (id, name) = number_and_rest(text)?;
        let name = Name::from_slice(self.alloc, name.as_bytes())?;
        if !may_act(&self.end) {
            return Err("the end may not act".into());
        }
        match self.end.name_actor(&name, id) {
            Ok(()) => self.word("named"),
            Err(_) => Ok(None),
        }
    }

    fn close(&mut self) -> Result<Option<String>, Fail> {
        if !may_act(&self.end) {
            return Err("the end may not act".into());
        }
        match self.end.close() {
            CloseAnswer::Done => self.word("done"),
            CloseAnswer::Refused(cause) => self.refused(cause),
            CloseAnswer::NoMemory => Ok(None),
        }
    }

    fn die(&mut self) -> Result<Option<String>, Fail> {
        match self.end.state() {
            EndState::Dead => Err("the end is dead".into()),
            EndState::Open | EndState::Draining | EndState::Closed => {
                self.end.die();
                self.word("done")
            }
        }
    }

    fn deliver(&mut self, packet: &Packet) -> Result<Option<String>, Fail> {
        match self.end.state() {
            EndState::Open => {}
            EndState::Draining | EndState::Closed | EndState::Dead => {
                return Err("the end is not open".into());
            }
        }
        if self.end.delivered() >= MOST_REQUESTS {
            return Err("too many requests".into());
        }
        match self.end.deliver(packet) {
            DeliverAnswer::Done => self.word("done"),
            DeliverAnswer::Bad(offset, rule) => {
                Ok(Some(format!(in self.alloc; "bad {offset} {rule}")?))
            }
            DeliverAnswer::Stray(seq) => Ok(Some(format!(in self.alloc; "stray {seq}")?)),
            DeliverAnswer::WrongActor(id, number) => {
                Ok(Some(format!(in self.alloc; "wrong actor {id} {number}")?))
            }
            DeliverAnswer::NoMemory => Ok(None),
        }
    }

    /// Delivers the next packet, which stays where memory runs out.
    fn deliver_next(&mut self) -> Result<Option<String>, Fail> {
        let packet = self.arriving.pop_front().ok_or("no packet")?;
        let answer = self.deliver(&packet)?;
        if answer.is_none() {
            self.arriving.push_front(packet)?;
        }
        Ok(answer)
    }

    fn deliver_bytes(&mut self, digits: &str) -> Result<Option<String>, Fail> {
        let packet = packet_of(self.alloc, digits)?;
        self.deliver(&packet)
    }

    fn take(&mut self) -> Result<Option<String>, Fail> {
        match self.end.take() {
            TakeAnswer::Handle(handling) => self.handled(handling),
            TakeAnswer::Dropped => self.word("dropped"),
            TakeAnswer::Settled => self.word("settled"),
            TakeAnswer::Shut => self.word("shut"),
            TakeAnswer::Nothing => self.word("nothing"),
            TakeAnswer::NoMemory => Ok(None),
        }
    }

    fn handled(&mut self, handling: Handling) -> Result<Option<String>, Fail> {
        let Handling {
            route,
            number,
            seq,
            made,
            values,
            resolver,
        } = handling;
        drop(values);
        let with = if resolver.is_some() { " resolver" } else { "" };
        if let Some(resolver) = resolver {
            self.resolvers.push(resolver)?;
        }
        Ok(Some(format!(in self.alloc; "handle {seq} at {route} {number} makes {made}{with}")?))
    }

    /// The handler on top returns, with values or without.
    fn finish(&mut self, text: &str) -> Result<Option<String>, Fail> {
        let values = if text.is_empty() {
            None
        } else {
            Some(values_of(self.alloc, text)?)
        };
        let resolver = self.handed_back()?;
        if !may_return(self.schema, &self.end, values.as_ref())
            || !is_handed_back(&self.end, resolver.as_ref())
        {
            return Err("no return of this end".into());
        }
        let answer = self.end.finish(resolver, values.as_ref());
        self.finished(answer)
    }

    /// The resolver of the handler on top, if it has one.
    fn handed_back(&mut self) -> Result<Option<Resolver>, Fail> {
        match self.end.running() {
            None => Err("no handler".into()),
            Some(running) if running.has_resolver => Ok(Some(self.resolver(running.seq)?)),
            Some(_) => Ok(None),
        }
    }

    fn finished(&mut self, answer: FinishAnswer) -> Result<Option<String>, Fail> {
        match answer {
            FinishAnswer::Done => self.word("done"),
            FinishAnswer::NoMemory(None) => Ok(None),
            FinishAnswer::NoMemory(Some(resolver)) => {
                self.resolvers.push(resolver)?;
                Ok(None)
            }
        }
    }

    fn resume(&mut self) -> Result<Option<String>, Fail> {
        match self.end.resume() {
            Some(_) => self.word("goes on"),
            None => self.word("none"),
        }
    }

    /// Returns the result of a look, as text.
    fn look(&self, word: &str, rest: &str) -> Result<Option<String>, Fail> {
        match word {
            "state" => self.word(state_word(self.end.state())),
            "top" => self.word(top_word(self.end.top())),
            "lives" => {
                let id = rest.parse::<i32>()?;
                match self.end.lives(id) {
                    Some(protocol) => Ok(Some(format!(in self.alloc; "{protocol}")?)),
                    None => self.word("no"),
                }
            }
            "named" => {
                let name = Name::from_slice(self.alloc, rest.as_bytes())?;
                self.word(named_word(&self.end.named(&name)))
            }
            "counts" => {
                Ok(Some(format!(in self.alloc; "{} {}", self.end.sent(), self.end.delivered())?))
            }
            "next" => self.next_packet(),
            _ => Err("no call".into()),
        }
    }

    /// The next packet that comes to the end, as pairs of hexadecimal digits.
    fn next_packet(&self) -> Result<Option<String>, Fail> {
        match self.arriving.front() {
            None => self.word("none"),
            Some(Packet::Broken) => self.word("mark"),
            Some(Packet::Bytes(bytes)) => {
                let mut text = String::new(self.alloc);
                for byte in bytes.as_slice() {
                    write!(text, "{byte:02x}")?;
                }
                Ok(Some(text))
            }
        }
    }
}
