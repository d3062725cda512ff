//! The interruptions of waits, as lines show them, beside the report of what may interrupt.
ghost use Rattle.ipdl_base.specs.Sound.{IsSound};

use history::{History, What};
use history_of_text::{history_of, schema_of};
use ipdl_base::{Schema, Side};
use std::alloc::{AllocError, Global};
use std::test::Fail;
use wait_report::{Pair, pairs};

/// A frame of an end, by its lines: a call, which waits until it is answered, or a request that is
/// handled.
#[derive(Clone, Copy)]
struct Frame {
    seq: i32,
    number: u32,
    waits: bool,
}

/// The call of a number is answered.
fn answer(stack: &mut Vec<Frame>, seq: i32) {
    for frame in stack.as_mut_slice() {
        if frame.seq == seq {
            frame.waits = false;
        }
    }
}

/// The stack of an end after one more of its lines.
fn note(stack: &mut Vec<Frame>, what: &What) -> Result<(), AllocError> {
    match what {
        What::Call(seq, _, _, number, _) => stack.push(Frame {
            seq: *seq,
            number: *number,
            waits: true,
        })?,
        What::Take(seq, _, number, _) => stack.push(Frame {
            seq: *seq,
            number: *number,
            waits: false,
        })?,
        What::Return(_) | What::ResumeOk(_, _) | What::ResumeFault(_, _) => {
            let _ = stack.pop();
        }
        What::DeliverReply(seq) | What::Fails(seq) => answer(stack, *seq),
        What::Die => stack.clear(),
        _ => {}
    }
    Ok(())
}

/// The pair that a line shows, which takes a request while the innermost call waits.
fn shown(stack: &[Frame], side: Side, what: &What) -> Option<Pair> {
    let What::Take(_, _, takes, _) = what else {
        return None;
    };
    let top = stack.last()?;
    if !top.waits {
        return None;
    }
    Some(Pair {
        side,
        waits: top.number,
        takes: *takes,
    })
}

/// Counts the lines that take a request while a call waits, and those of them that take one that may
/// not interrupt it, by the report of what may.
#[derive(Clone, Copy)]
pub struct TakeCounts {
    pub taken: u32,
    pub unlisted: u32,
}

impl TakeCounts {
    /// Counts one more, which the report lists or not.
    fn count(&mut self, is_listed: bool) {
        self.taken = self.taken.wrapping_add(1);
        if !is_listed {
            self.unlisted = self.unlisted.wrapping_add(1);
        }
    }
}

/// The counts of the takes that the lines of a history show.
pub fn take_counts_of(
    alloc: Global,
    schema: &Schema,
    top: u32,
    history: &History,
) -> Result<TakeCounts, Fail>
    requires { IsSound schema.now }
{
    if top as usize >= schema.protocols.len() {
        return Err("no such top protocol".into());
    }
    let listed = pairs(alloc, schema, top)?;
    let mut parent = Vec::new(alloc);
    let mut child = Vec::new(alloc);
    let mut found = TakeCounts {
        taken: 0,
        unlisted: 0,
    };
    for line in history.lines() {
        let stack = match line.side {
            Side::Parent => &mut parent,
            Side::Child => &mut child,
        };
        if let Some(pair) = shown(stack.as_slice(), line.side, &line.what) {
            found.count(listed.as_slice().contains(&pair));
        }
        note(stack, &line.what)?;
    }
    Ok(found)
}

/// Returns the number of these lines of PW that take a request while a call waits, and of those that
/// are unlisted.
fn counts_of(alloc: Global, lines: &str) -> Result<(u32, u32), Fail> {
    let schema = schema_of(alloc, "PW.ipdl")?;
    let history = history_of(alloc, &schema, lines)?;
    let found = take_counts_of(alloc, &schema, 0, &history)?;
    Ok((found.taken, found.unlisted))
}

/// A message of level `inside_cpow` may interrupt the parent's call, one of level `not` may not; and
/// nothing interrupts a call that is answered.
#[test]
fn interruptions(rt: HostRuntime) -> Result<(), Fail> {
    let alloc = rt.alloc();
    let listed = "parent call 1/1 to 2147483647 PW.CallC()
parent take -1 at 2147483647 PW.Poke()
";
    assert_eq!(rt; counts_of(alloc, listed)?, (1, 0));
    let other = "parent call 1/1 to 2147483647 PW.CallC()
parent take -1 at 2147483647 PW.Base()
";
    assert_eq!(rt; counts_of(alloc, other)?, (1, 1));
    let following = "parent call 1/1 to 2147483647 PW.CallC()
parent deliver reply 1
parent take -1 at 2147483647 PW.Base()
";
    assert_eq!(rt; counts_of(alloc, following)?, (0, 0));
    Ok(())
}
