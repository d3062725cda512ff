//! Real streams. The contract of a write says which bytes the stream took.
ghost use Rattle.std.specs.Prelude.{◌≡◌, ◌<◌, ◌≤◌, IfSome, Some, length};
ghost use Rattle.host_io.specs.Streams.{Puts};

use crate::write_log::{StreamWrite, WriteLog};
use ipdl_base::{Sink, WriteAnswer};
use std::io::{ErrorKind, Write};

/// A real stream. Counts the writes that fail, and those that take no byte of a piece that has some. The bytes that the
/// writes took are recorded for contracts alone.
#[derive(Drop)]
pub struct RealSink<W> {
    writer: W,
    faults: u64,
    log: WriteLog,
}

impl<W: Write> RealSink<W> {
    ghost use Rattle.host_io.specs.Streams.{IsUnused};

    /// Wraps a stream, with no bytes written and no failed writes.
    pub fn new(writer: W) -> RealSink<W>
        ensures { IsUnused result }
    {
        RealSink {
            writer,
            faults: 0,
            log: WriteLog::new(),
        }
    }
}

/// Writes a prefix of a piece to a stream, and returns its length, or `None` if the stream fails or takes no byte of a piece
/// that has some.
fn write_some<W: Write>(writer: &mut W, piece: &[u8]) -> Option<usize>
    ensures bound { IfSome result (λ n. n ≤ length piece.now) }
    ensures some { IfSome result (λ n. 0 < length piece.now → 1 ≤ n) }
    ensures put { Puts result (W.contents writer.old) (W.contents writer.new) piece.now }
{
    for _ in 0..u64::MAX {
        match writer.write(piece) {
            Ok(0) if !piece.is_empty() => return None,
            Ok(n) => return Some(n),
            Err(error) if error.kind() == ErrorKind::Interrupted => {}
            Err(_) => return None,
        }
    }
    None
}

impl<W: Write> Sink for RealSink<W> {
    ghost written = { λ s. Some s.log.bytes };

    ghost faults = { λ s. s.faults };

    fn write(&mut self, piece: &[u8]) -> WriteAnswer {
        match write_some(&mut self.writer, piece) {
            Some(n) => {
                self.log = self.log.then(&StreamWrite { taken: &piece[..n] });
                WriteAnswer::Took(n)
            }
            None => {
                self.faults = self.faults.saturating_add(1);
                WriteAnswer::Failed
            }
        }
    }
}
