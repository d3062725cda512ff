//! Whether lines can be read, which calls have no answer after them, and whether nothing but acts is
//! possible at the ends (docs/laws.md).
#![tactic(auto)]

mod readable;
mod still;
mod unanswered;

pub use history_reading::UnansweredCall;
pub use readable::{is_readable, same_side};
pub use still::{
    DeferralState, block_each_other, deferral_of, defers_packet, is_still, request_head,
};
pub use unanswered::{can_read, chain};
