//! The exchange of a link, its passes, and the types of its table.

ghost use Rattle.thread_link.specs.Seats.{IsSeatOf, IsShaped};

use crate::parts::{LinkRule, SeatView, SharedLink, Topic};
use atomic_table::{Seat, Shared, Table};
use ipdl_base::Side;
use std::alloc::Global;

/// A seat at the table of a link: what one side knows and carries.
pub type SideSeat = Seat<Option<SharedLink>, SeatView>;

/// The part of the table that both threads share.
pub type Board<'s> = Shared<Option<SharedLink>, SeatView, Topic<'s>, LinkRule>;

/// The table of a link, as its owner has it.
pub type LinkTable<'s> = Table<Option<SharedLink>, SeatView, Topic<'s>, LinkRule, Global>;

/// The link of a run, which two threads share (docs/threads.md).
#[derive(Drop)]
pub struct Exchange<'s> {
    pub(crate) table: LinkTable<'s>,
    pub(crate) ghost shape: { IsShaped table.shared.table_id },
}

/// The right of one side to meet the link of an exchange. Contracts see the side and the lines of the
/// history that it has seen.
#[derive(Drop)]
pub struct Pass {
    pub(crate) side: Side,
    pub(crate) seat: SideSeat,
    pub(crate) ghost is_pass: { IsSeatOf side seat },
}

impl Pass {
    ghost use Rattle.std.specs.Prelude.{◌≡◌};

    /// Returns the side that the pass belongs to. Takes no memory.
    pub fn side(&self) -> Side
        ensures { result ≡ self.now.side }
    {
        self.side
    }
}
