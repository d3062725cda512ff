//! What passes know, the rule of a queue, and the steps on it.

use crossbeam_queue::protocol::{Join, Lesson, Outcome, Protocol, Split};
use std::collections::LinkedList;

/// What a pass knows: whether it may push and pop, and what was pushed and popped with it, the oldest
/// first. No value of this type is made.
pub struct PassView<T> {
    /// Whether the pass may push.
    pub pushes: bool,
    /// Whether the pass may pop.
    pub pops: bool,
    /// What was pushed with the pass, the oldest first.
    pub pushed: LinkedList<T>,
    /// What was popped with the pass, the oldest first.
    pub popped: LinkedList<T>,
}

/// The rule of a queue.
pub struct InOrder;

impl<T> Protocol<T, PassView<T>> for InOrder {
    ghost use Rattle.ordered_queue.specs.InOrder.{IsInOrder, first_view};

    ghost holds = { IsInOrder };

    ghost first = { first_view };
}

/// Splits a pass into one that pushes and one that pops.
pub struct Parting;

impl<T> Split<PassView<T>> for Parting {
    ghost use Rattle.ordered_queue.specs.InOrder.{pushing_part, popping_part};

    ghost left = { pushing_part };

    ghost right = { popping_part };
}

/// Joins a pass that pushes with one that pops.
pub struct Reunion;

impl<T> Join<PassView<T>> for Reunion {
    ghost use Rattle.ordered_queue.specs.InOrder.{spent_view, whole};

    ghost both = { whole };

    ghost spent = { spent_view };
}

/// Pushes a value.
pub struct Push;

impl<T> Outcome<T, PassView<T>> for Push {
    ghost use Rattle.std.specs.Prelude.{◌≡◌};
    ghost use Rattle.ordered_queue.specs.InOrder.{with_pushed};

    ghost then = { λ v x w. w ≡ with_pushed v x };
}

/// Pops a value, or finds the queue empty.
pub struct Pop;

impl<T> Outcome<T, PassView<T>> for Pop {
    ghost use Rattle.std.specs.Prelude.{◌≡◌};
    ghost use Rattle.ordered_queue.specs.InOrder.{with_popped};

    ghost then = { λ v x w. w ≡ with_popped v x };
}

impl<T> Lesson<T, PassView<T>> for Pop {
    ghost use Rattle.ordered_queue.specs.InOrder.{Knows};

    ghost fact = { Knows };
}
