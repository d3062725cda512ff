//! The two sides of a channel: the other one, and which of them sends a message.
ghost use Rattle.std.specs.Prelude.{◌≡◌};
ghost use Rattle.ipdl_base.specs.Sides.{other, sends};

use crate::kinds::{Direction, Side};

/// The id of the top actor, which is the greatest id (docs/profile.md).
pub const TOP_ID: i32 = 2_147_483_647;

/// The number of a goodbye (docs/frames.md).
pub const GOODBYE_NUMBER: u32 = 0xffff_0000;

impl Side {
    /// Returns the other side.
    pub fn other(self) -> Side
        ensures { result ≡ other self }
    {
        match self {
            Side::Parent => Side::Child,
            Side::Child => Side::Parent,
        }
    }

    /// Returns whether the side sends the messages of a direction.
    pub fn sends(self, direction: Direction) -> bool
        ensures { result ≡ sends self direction }
    {
        match (self, direction) {
            (_, Direction::Both) => true,
            (Side::Parent, Direction::Child) => true,
            (Side::Child, Direction::Parent) => true,
            (Side::Parent, Direction::Parent) => false,
            (Side::Child, Direction::Child) => false,
        }
    }
}
