//! A sync list as a list of its sections.

ghost use Rattle.std.specs.Prelude.{◌≡◌};
ghost use Rattle.sync_list.specs.declared.list.ListFault.TheVariants.{NoMemory};

use ipdl_base::{Items, Name};
use std::alloc::{AllocError, AllocFailed};

/// A section of a sync list, which names a protocol and a message that may be sync.
#[derive(Debug, Drop, PartialEq)]
pub struct Section {
    /// The protocol's short name.
    pub protocol: Name,
    /// The name of the message.
    pub message: Name,
    /// Whether the section has a description that is not empty.
    pub described: bool,
    /// The number of its line, counted from 1.
    pub line: u32,
}

/// The sections of a sync list, in text order.
pub type SyncList = Items<Section>;

/// Why a text was not read as a sync list.
#[derive(Clone, Copy, Debug, PartialEq, Eq)]
pub enum ListFault {
    /// The first line that is not of the format, by its number, counted from 1.
    Line(u32),
    /// Memory ran out.
    NoMemory,
}

impl From<AllocError> for ListFault {
    ghost from_gives = { λ _ fault. fault ≡ NoMemory };

    fn from(_: AllocError) -> ListFault {
        ListFault::NoMemory
    }
}

impl<T: Drop> From<AllocFailed<T>> for ListFault {
    ghost from_gives = { λ _ fault. fault ≡ NoMemory };

    fn from(_: AllocFailed<T>) -> ListFault {
        ListFault::NoMemory
    }
}
