//! Calls without an answer.
use ipdl_base::Side;
use nesting_core::Head;

/// A call whose answer has not come: the end that waits, and what its stack keeps of the call.
#[derive(Clone, Copy, Debug, PartialEq, Eq)]
pub struct UnansweredCall {
    pub side: Side,
    pub head: Head,
}
