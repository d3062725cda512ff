//! What is at two ends and on both links, by the lines of a history, and its weight by the table of
//! docs/nesting.md.
ghost use Rattle.ipdl_base.specs.Sound.{IsSound};

use ipdl_base::{Line, MessageRow, Schema, Semantics, Side, What};
use std::alloc::{AllocError, Global};

/// A handler that runs, and whether it owes the reply to a sync request or has its resolver.
#[derive(Clone, Copy)]
struct Handler {
    seq: i32,
    owes: bool,
}

/// What is at one end, and on the link toward it.
#[derive(Drop)]
pub struct EndLoad {
    open: bool,
    outbox: u32,
    coming_requests: u32,
    coming_others: u32,
    arrived_requests: u32,
    arrived_others: u32,
    handlers: Vec<Handler>,
    calls: Vec<i32>,
    waits: u32,
    kept: Vec<i32>,
}

impl EndLoad {
    fn new(alloc: Global) -> EndLoad {
        EndLoad {
            open: true,
            outbox: 0,
            coming_requests: 0,
            coming_others: 0,
            arrived_requests: 0,
            arrived_others: 0,
            handlers: Vec::new(alloc),
            calls: Vec::new(alloc),
            waits: 0,
            kept: Vec::new(alloc),
        }
    }

    fn weight(&self) -> u32 {
        let mut weight = self.outbox.wrapping_mul(6);
        weight = weight.wrapping_add(self.arrived_requests.wrapping_mul(4));
        weight = weight.wrapping_add(self.arrived_others);
        for handler in self.handlers.as_slice() {
            weight = weight.wrapping_add(if handler.owes { 3 } else { 1 });
        }
        weight = weight.wrapping_add(self.waits);
        if self.open {
            weight = weight.wrapping_add(self.coming_requests.wrapping_mul(5));
            weight = weight.wrapping_add(self.coming_others.wrapping_mul(2));
        }
        weight
    }

    fn kept_weight(&self) -> u32 {
        let mut weight = 0u32;
        for _resolver in self.kept.as_slice() {
            weight = weight.wrapping_add(2);
        }
        weight
    }

    /// A request leaves the outbox with all that waits there.
    fn flush(&mut self, other: &mut EndLoad) {
        other.coming_requests = other.coming_requests.wrapping_add(self.outbox);
        self.outbox = 0;
    }

    fn put_request(&mut self, other: &mut EndLoad) {
        self.flush(other);
        other.coming_requests = other.coming_requests.wrapping_add(1);
    }

    fn put_other(&mut self, other: &mut EndLoad) {
        self.flush(other);
        other.coming_others = other.coming_others.wrapping_add(1);
    }

    /// The handler of a request has no resolver any more.
    fn release(&mut self, seq: i32) {
        for handler in self.handlers.as_mut_slice() {
            if handler.seq == seq {
                handler.owes = false;
            }
        }
    }

    /// No name holds the resolver of a request.
    fn lose(&mut self, seq: i32) {
        self.kept.retain(|kept| *kept != seq);
    }

    fn answer(&mut self, other: &mut EndLoad, seq: i32) {
        self.release(seq);
        self.lose(seq);
        self.put_other(other);
    }

    fn close(&mut self) {
        self.open = false;
        self.arrived_requests = 0;
        self.arrived_others = 0;
        self.kept.clear();
    }

    fn die(&mut self, other: &mut EndLoad) {
        if self.open {
            self.put_other(other);
        }
        self.close();
        self.outbox = 0;
        self.handlers.clear();
        self.waits = 0;
    }

    fn send(&mut self, other: &mut EndLoad, lazy: bool) {
        if lazy {
            self.outbox = self.outbox.wrapping_add(1);
        } else {
            self.put_request(other);
        }
    }

    fn deliver_reply(&mut self, seq: i32) {
        self.coming_others = self.coming_others.wrapping_sub(1);
        if !self.calls.as_slice().contains(&seq) {
            self.arrived_others = self.arrived_others.wrapping_add(1);
        }
    }

    fn deliver_farewell(&mut self) {
        self.coming_others = self.coming_others.wrapping_sub(1);
        self.arrived_others = self.arrived_others.wrapping_add(1);
        self.open = false;
    }
}

/// Whether a message is sync or makes a promise.
fn owes_reply(row: &MessageRow) -> bool {
    matches!(row.semantics, Semantics::Sync) || row.returns.is_some()
}

/// What one line changes at its end and at the other.
fn note(
    schema: &Schema,
    what: &What,
    own: &mut EndLoad,
    other: &mut EndLoad,
) -> Result<(), AllocError>
    requires { IsSound schema.now }
{
    match what {
        What::Send(_, _, number, _) => {
            let lazy = schema.message(*number).is_some_and(|row| row.lazy);
            own.send(other, lazy);
        }
        What::Call(seq, _, _, _, _) => {
            own.put_request(other);
            own.waits = own.waits.wrapping_add(1);
            own.calls.push(*seq)?;
        }
        What::Resolve(seq, _)
        | What::Reject(seq)
        | What::AnswerOk(seq, _)
        | What::AnswerFault(seq, _) => own.answer(other, *seq),
        What::Keep(seq, _) => {
            own.release(*seq);
            own.kept.push(*seq)?;
        }
        What::Close => {
            own.put_other(other);
            own.close();
        }
        What::Die => own.die(other),
        What::DeliverRequest(_) => {
            own.coming_requests = own.coming_requests.wrapping_sub(1);
            own.arrived_requests = own.arrived_requests.wrapping_add(1);
        }
        What::DeliverReply(seq) => own.deliver_reply(*seq),
        What::DeliverGoodbye | What::DeliverBroken => own.deliver_farewell(),
        What::Take(seq, _, number, _) => {
            own.arrived_requests = own.arrived_requests.wrapping_sub(1);
            let owes = schema.message(*number).is_some_and(|row| owes_reply(row));
            own.handlers.push(Handler { seq: *seq, owes })?;
        }
        What::Drop(..) | What::Replaced(_) => {
            own.arrived_requests = own.arrived_requests.wrapping_sub(1);
        }
        What::TakeReply(_) => own.arrived_others = own.arrived_others.wrapping_sub(1),
        What::ShutNormal | What::ShutAbnormal => own.close(),
        What::Return(_) => {
            let _returned = own.handlers.pop();
        }
        What::ResumeOk(..) | What::ResumeFault(..) => own.waits = own.waits.wrapping_sub(1),
        What::Flush(_) => own.flush(other),
        _ => (),
    }
    Ok(())
}

/// What is at both ends and on both links.
#[derive(Drop)]
pub struct Load {
    parent: EndLoad,
    child: EndLoad,
}

impl Load {
    /// Returns a world in which nothing has happened.
    pub fn new(alloc: Global) -> Load {
        Load {
            parent: EndLoad::new(alloc),
            child: EndLoad::new(alloc),
        }
    }

    /// The weight of the world.
    pub fn weight(&self) -> u32 {
        self.parent.weight().wrapping_add(self.child.weight())
    }

    /// The full weight, in which kept resolvers count.
    pub fn full_weight(&self) -> u32 {
        let kept = self
            .parent
            .kept_weight()
            .wrapping_add(self.child.kept_weight());
        self.weight().wrapping_add(kept)
    }

    /// Reads one line.
    pub fn note(&mut self, schema: &Schema, line: &Line) -> Result<(), AllocError>
        requires { IsSound schema.now }
    {
        match line.side {
            Side::Parent => note(schema, &line.what, &mut self.parent, &mut self.child),
            Side::Child => note(schema, &line.what, &mut self.child, &mut self.parent),
        }
    }
}
