//! The writing of an answer.
ghost use Rattle.std.specs.Prelude.{◌≡◌, ◌⊎◌, OnOk, OnErr};
ghost use Rattle.ipdl_base.specs.Outside.{Appends, Rose};
ghost use Rattle.ipdl_top.specs.Written.{AppendsPrefix, WritesAll, WritesPrefix};

use crate::answer::CommandAnswer;
use ipdl_base::{Sink, WriteAnswer};

/// A write failed.
#[derive(Clone, Copy, Debug, PartialEq, Eq)]
pub struct WriteFault;

/// Writes all of a text, piece by piece. If a write fails, a prefix of the text is written.
fn write_all<S: Sink>(sink: &mut S, text: &[u8]) -> Result<(), WriteFault>
    ensures ok { OnOk result (Appends (S.written sink.old) (S.written sink.new) text.now) }
    ensures front { OnErr result (AppendsPrefix (S.written sink.old) (S.written sink.new) text.now) }
    ensures failed { OnErr result (Rose (S.faults sink.old) (S.faults sink.new)) }
{
    let mut rest = text;
    'pieces: while !rest.is_empty() {
        match sink.write(rest) {
            WriteAnswer::Took(n) => {
                let (_, left) = rest.split_at(n);
                rest = left;
            }
            WriteAnswer::Failed => return Err(WriteFault),
        }
    }
    Ok(())
}

/// Writes an answer: its text for `out`, and then its text for `err`. If a write fails, nothing is written after it.
pub fn write_answer<O: Sink, E: Sink>(
    answer: &CommandAnswer,
    out: &mut O,
    err: &mut E,
) -> Result<(), WriteFault>
    ensures all { OnOk result (WritesAll answer.now
        (record { old = O.written out.old; new = O.written out.new })
        (record { old = E.written err.old; new = E.written err.new })) }
    ensures front { OnErr result (WritesPrefix answer.now
        (record { old = O.written out.old; new = O.written out.new })
        (record { old = E.written err.old; new = E.written err.new })) }
    ensures failed { OnErr result (Rose (O.faults out.old) (O.faults out.new) ⊎ Rose (E.faults err.old) (E.faults err.new)) }
{
    write_all(out, answer.out.as_slice())?;
    write_all(err, answer.err.as_slice())
}
