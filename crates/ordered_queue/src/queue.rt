//! A queue that two threads share, with passes to push and to pop.

ghost use Rattle.std.specs.Prelude.{◌≡◌, ◌++◌, List, length, true, IfOk, IfNone, IfSome, MatchResult};
ghost use Rattle.crossbeam_queue.specs.SegTies.{IsSegPassOf};
ghost use Rattle.ordered_queue.specs.Passes.{IsParted, IsWhole, MayBoth, MayPop, MayPush, view_of};
ghost use Rattle.ordered_queue.specs.InOrder.{first_view, with_popped, with_pushed};

use crate::view::{InOrder, Parting, PassView, Pop, Push, Reunion};
use crossbeam_queue::{RuledSegQueue, SegPass};
use std::alloc::{AllocError, Global};
use std::sync::Wait;

/// The right to push to a queue, to pop from it, or both. Has no bytes.
pub type QueuePass<T> = SegPass<T, PassView<T>>;

/// A queue that is in order.
pub struct OrderedQueue<T> {
    queue: RuledSegQueue<T, PassView<T>, InOrder>,
}

impl<T: Drop> OrderedQueue<T> {
    /// Returns an empty queue, with a pass that may push and pop. Fails only if memory runs out.
    pub fn new(alloc: Global) -> Result<(OrderedQueue<T>, QueuePass<T>), AllocError>
        ensures { IfOk result (λ made. IsSegPassOf made.0.queue made.1 × (view_of made.1 ≡ first_view)) }
    {
        let (queue, pass) = RuledSegQueue::with_rule(alloc)?;
        Ok((OrderedQueue { queue }, pass))
    }

    /// Splits a pass: afterwards the old one may push, and the new one may pop.
    pub fn part(&self, pass: &mut QueuePass<T>) -> QueuePass<T>
        requires { MayBoth self.now.queue pass.old }
        ensures { IsParted self.now.queue (view_of pass.old) pass.new result }
    {
        self.queue.another::<Parting>(pass)
    }

    /// Joins a pass that may push with one that may pop. Afterwards the first may do both.
    pub fn join(&self, pass: &mut QueuePass<T>, other: QueuePass<T>)
        requires pass { MayPush self.now.queue pass.old }
        requires other { MayPop self.now.queue other }
        ensures { IsWhole self.now.queue pass.old other pass.new }
    {
        self.queue.absorb::<Reunion>(pass, other);
    }

    /// Pushes a value. Fails only if memory runs out, and then pushes nothing.
    pub fn push<R: Wait>(&self, rt: &R, pass: &mut QueuePass<T>, value: T) -> Result<(), AllocError>
        requires { MayPush self.now.queue pass.old }
        ensures pass { IsSegPassOf self.now.queue pass.new }
        ensures pushed { MatchResult result (λ _. view_of pass.new ≡ with_pushed (view_of pass.old) value) (λ _. view_of pass.new ≡ view_of pass.old) }
    {
        match self.queue.push_as::<Push, R>(rt, pass, value) {
            Ok(()) => Ok(()),
            Err(_) => Err(AllocError),
        }
    }

    /// Pops the oldest value, or returns `None` if the queue was empty at one moment of the call.
    pub fn pop<R: Wait>(&self, rt: &R, pass: &mut QueuePass<T>) -> Option<T>
        requires { MayPop self.now.queue pass.old }
        ensures pass { IsSegPassOf self.now.queue pass.new }
        ensures some { IfSome result (λ value. view_of pass.new ≡ with_popped (view_of pass.old) value) }
        ensures none { IfNone result (view_of pass.new ≡ view_of pass.old) }
        ensures empty { IfNone result ((view_of pass.old).pushes ≡ true → (view_of pass.old).pushed ≡ (view_of pass.old).popped) }
    {
        self.queue.pop_as::<Pop, R>(rt, pass)
    }

    /// Returns how many values were in the queue at one moment of the call.
    pub fn len<R: Wait>(&self, rt: &R, pass: &mut QueuePass<T>) -> usize
        requires { MayBoth self.now.queue pass.old }
        ensures pass { IsSegPassOf self.now.queue pass.new × (view_of pass.new ≡ view_of pass.old) }
        ensures held { (held : List T) × (length held ≡ result) × ((view_of pass.old).pushed ≡ (view_of pass.old).popped ++ held) }
    {
        self.queue.len_as::<Pop, R>(rt, pass)
    }
}

impl<T: Drop> Drop for OrderedQueue<T> {
    fn drop(self) {
        let OrderedQueue { queue } = self;
        queue.destroy();
    }
}
