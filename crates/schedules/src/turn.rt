//! A turn of a side.
ghost use Rattle.std.specs.Prelude.{◌≡◌, false};

use ipdl_base::Side;

/// A turn of a side: the next step of its own, or else a delivery to it; or a delivery alone (docs/scripts.md).
#[derive(Clone, Copy, Debug, PartialEq, Eq)]
pub struct Turn {
    /// The side whose turn it is.
    pub side: Side,
    /// Whether the turn allows a delivery alone.
    pub only_deliver: bool,
}

impl Turn {
    /// Returns the turn in which `side` may do all that a turn allows: its own step, or else a delivery.
    pub fn whole(side: Side) -> Self
        ensures { result ≡ record { side = side; only_deliver = false } }
    {
        Self {
            side,
            only_deliver: false,
        }
    }
}
