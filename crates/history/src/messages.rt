//! The messages of the numbers of requests, by the lines so far.
ghost use Rattle.std.specs.Prelude.{◌≡◌, ◌∷◌, ◌++◌, [], List, OnOk};
ghost use Rattle.std.specs.HashMap.{get};
ghost use Rattle.std.specs.Ordering.{int_eq};
ghost use Rattle.history.specs.Messages.{given};
ghost use Rattle.history.specs.Noted.{Gives, Knows, noted_at};

use indexmap::IndexMap;
use ipdl_base::{Line, Side, What};
use std::alloc::{AllocError, Global};

/// The messages of the numbers of requests at each end, as the lines so far give them.
#[derive(Drop)]
pub struct Messages {
    parent: IndexMap<i32, u32>,
    child: IndexMap<i32, u32>,
}

impl Messages {
    /// Creates an empty map, which agrees with no lines.
    pub fn new(alloc: Global) -> Messages
        ensures { Knows [] result }
    {
        Messages {
            parent: IndexMap::new(alloc),
            child: IndexMap::new(alloc),
        }
    }

    /// Returns the message of a number at an end, or `None` if no line has given it one.
    pub fn find(&self, side: Side, number: i32) -> Option<u32>
        ensures { result ≡ noted_at self.now side number }
    {
        match side {
            Side::Parent => self.parent.get(&number).copied(),
            Side::Child => self.child.get(&number).copied(),
        }
    }

    /// Records the message of a number at an end.
    fn give(&mut self, side: Side, number: i32, message: u32) -> Result<(), AllocError>
        ensures { OnOk result (Gives self.old self.new side number message) }
    {
        match side {
            Side::Parent => {
                self.parent.insert(number, message)?;
            }
            Side::Child => {
                self.child.insert(number, message)?;
            }
        }
        Ok(())
    }

    /// Records what the next line gives.
    pub fn note(&mut self, line: &Line) -> Result<(), AllocError>
        ensures { OnOk result ((lines : List Line) → Knows lines self.old → Knows (lines ++ line.now ∷ []) self.new) }
    {
        match given(&line.what) {
            Some((number, message)) => self.give(line.side, number, message),
            None => Ok(()),
        }
    }
}

/// Returns the number of a request and its message, if a line gives them.
fn given(what: &What) -> Option<(i32, u32)>
    ensures { result ≡ given what.now }
{
    match what {
        What::Send(number, _, message, _)
        | What::Call(number, _, _, message, _)
        | What::Take(number, _, message, _) => Some((*number, *message)),
        _ => None,
    }
}
