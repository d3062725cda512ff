//! The strength of messages and protocols, which decides what converts to what.

ghost use Rattle.std.specs.Prelude.{◌≡◌, ◌↔◌, IsTrue};
ghost use Rattle.name_table.specs.Kinds.{level_number, strength_of_message, strength_of_protocol, Converts};

use crate::kinds::{message_level, protocol_level};
use ipdl_base::{Level, Semantics};
use ipdl_syntax::{MessageDecl, ProtocolDecl};

/// The strength of a message or a protocol: its levels, from the least to the most, and its semantics.
#[derive(Clone, Copy, Debug, PartialEq, Eq)]
pub struct Strength {
    /// The least level.
    pub least: Level,
    /// The highest level.
    pub most: Level,
    /// The semantics.
    pub semantics: Semantics,
}

/// Returns a level as a number: 0, 1 or 2.
fn number_of(level: Level) -> u8
    ensures { result ≡ level_number level }
{
    match level {
        Level::Not => 0,
        Level::InsideSync => 1,
        Level::InsideCpow => 2,
    }
}

impl Strength {
    /// Returns the strength of a message, which has its own level alone.
    pub fn of_message(message: &MessageDecl) -> Strength
        ensures { result ≡ strength_of_message message.now }
    {
        let level = message_level(message);
        Strength {
            least: level,
            most: level,
            semantics: message.semantics,
        }
    }

    /// Returns the strength of a protocol, which has all levels up to its own.
    pub fn of_protocol(protocol: &ProtocolDecl) -> Strength
        ensures { result ≡ strength_of_protocol protocol.now }
    {
        Strength {
            least: Level::Not,
            most: protocol_level(protocol),
            semantics: protocol.semantics,
        }
    }

    /// Returns whether this strength converts to the other.
    pub fn converts_to(self, other: Strength) -> bool
        ensures { IsTrue result ↔ Converts self other }
    {
        number_of(other.least) <= number_of(self.least)
            && number_of(self.most) <= number_of(other.most)
            && (self.semantics == Semantics::Async || other.semantics == Semantics::Sync)
    }
}
