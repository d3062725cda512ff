//! The files and the streams of the machine, as `Files` and `Sink` of `ipdl_base`. Failed reads and writes are counted, and
//! the bytes that writes took are recorded for contracts (docs/theorems.md, "The outside").
#![tactic(auto)]

mod files;
mod streams;
mod write_log;

pub use files::RealFiles;
pub use streams::RealSink;
pub use write_log::{StreamWrite, WriteLog};
