//! The requests that each end has answered.
ghost use Rattle.std.specs.Prelude.{◌≡◌, ◌∷◌, ◌++◌, [], OnOk, List};
ghost use Rattle.ipdl_base.specs.declared.line.Line as declared;
ghost use Rattle.order_statements.specs.Shape.{number_answered};
ghost use Rattle.order_checks.specs.Answered.{AnswersOne, AreAnswered, numbers_of};

use history_reading::NumberList;
use ipdl_base::{Line, Side, What};
use std::alloc::{AllocError, Global};

/// Returns the number of the request that a line answers.
pub fn number_answered(what: &What) -> Option<i32>
    ensures { result ≡ number_answered what.now }
{
    match what {
        What::Resolve(n, _) | What::Reject(n) | What::AnswerOk(n, _) | What::AnswerFault(n, _) =>
            Some(*n),
        _ => None,
    }
}

/// The numbers of the requests that each end has answered.
#[derive(Drop)]
pub struct AnsweredNumbers {
    parent: NumberList,
    child: NumberList,
}

impl AnsweredNumbers {
    /// Returns the numbers after no lines. Takes no memory.
    pub fn new(alloc: Global) -> AnsweredNumbers
        ensures { AreAnswered [] result }
    {
        AnsweredNumbers {
            parent: NumberList::new(alloc),
            child: NumberList::new(alloc),
        }
    }

    /// Returns the numbers of the requests that an end has answered.
    pub fn of(&self, side: Side) -> &NumberList
        ensures { result.now ≡ numbers_of side self.now }
    {
        match side {
            Side::Parent => &self.parent,
            Side::Child => &self.child,
        }
    }

    /// Adds the number of a request that an end answers.
    fn push(&mut self, side: Side, n: i32) -> Result<(), AllocError>
        ensures { OnOk result (AnswersOne side n self.old self.new) }
    {
        match side {
            Side::Parent => self.parent.push(n),
            Side::Child => self.child.push(n),
        }
    }

    /// Reads one more line.
    pub fn note(&mut self, line: &Line) -> Result<(), AllocError>
        ensures { OnOk result ((lines : List declared.Line) → AreAnswered lines self.old → AreAnswered (lines ++ line.now ∷ []) self.new) }
    {
        match number_answered(&line.what) {
            Some(n) => self.push(line.side, n),
            None => Ok(()),
        }
    }
}
