//! The five laws of histories as statements on the lines of a history, without any state (docs/laws.md). The
//! tests of
//! `history_reading` decide them. No function of this crate computes anything.
#![tactic(auto)]

mod laws;

pub use laws::{
    decides_chain, decides_fallen, decides_living, decides_prefix, decides_readable,
    decides_settled, decides_waits, laws_want_readable_lines,
};
