//! Files and sinks in memory, for tests. A test gives the calls that fail, and the contracts say exactly what each call
//! answers (docs/theorems.md, "The outside").
#![tactic(auto)]

mod memory;

pub use memory::{MemoryFiles, MemorySink};
