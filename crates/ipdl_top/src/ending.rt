//! The answer that says how a run or a relay ended.
ghost use Rattle.std.specs.Prelude.{◌≡◌, ◌++◌, IfOk};
ghost use Rattle.script_runs.specs.Endings.{ending_line as line_of};
ghost use Rattle.script_steps.specs.Turns.{at_limit};
ghost use Rattle.ipdl_top.specs.Ended as told;
ghost use Rattle.ipdl_top.specs.Ended.{IsEndedAnswer, answer_of, ending_by};

use crate::answer::CommandAnswer;
use crate::status::Status;
use ipdl_base::{Items, Side};
use std::alloc::{AllocError, Global};
use world_core::RunAnswer;

/// Returns the side that has the most events, if a run or a relay ended so, and `None` if it is finished. Fails if memory ran out
/// in it.
pub fn spent_of(ending: RunAnswer) -> Result<Option<Side>, AllocError>
    ensures { IfOk result (λ spent. ending ≡ answer_of (ending_by spent)) }
{
    match ending {
        RunAnswer::Finished => Ok(None),
        RunAnswer::Spent(side) => Ok(Some(side)),
        RunAnswer::NoMemory => Err(AllocError),
    }
}

/// Returns the line that says that a side is spent.
pub fn spent_line(side: Side) -> &'static [u8]
    ensures { result.now ≡ line_of (at_limit side) }
{
    match side {
        Side::Parent => b"spent parent\n",
        Side::Child => b"spent child\n",
    }
}

/// Returns the line that says how a run or a relay ended.
fn ending_line(spent: Option<Side>) -> &'static [u8]
    ensures { result.now ≡ line_of (ending_by spent) }
{
    match spent {
        Some(side) => spent_line(side),
        None => b"finished\n",
    }
}

/// Returns a text, and after it the line that says how a run or a relay ended. Fails only if memory runs out.
pub fn with_ending(text: Vec<u8>, spent: Option<Side>) -> Result<Vec<u8>, AllocError>
    ensures { IfOk result (λ out. out.items ≡ text.items ++ line_of (ending_by spent)) }
{
    let mut out = text;
    out.extend_from_slice(ending_line(spent))?;
    Ok(out)
}

/// Returns how the command ends, by how the run or the relay did.
fn status_of(spent: Option<Side>) -> Status
    ensures { result ≡ told.run_status (ending_by spent) }
{
    match spent {
        Some(_) => Status::Spent,
        None => Status::Done,
    }
}

/// Returns the answer whose output is this, of a run or a relay that ended so.
pub fn answer_with(alloc: Global, out: Vec<u8>, spent: Option<Side>) -> CommandAnswer
    ensures { result ≡ told.answer_with out.items (ending_by spent) }
{
    CommandAnswer {
        status: status_of(spent),
        out: Items::from_vec(out),
        err: Items::from_vec(Vec::new(alloc)),
    }
}

/// Returns the answer that is a text, and after it how the run or the relay ended. Fails only if memory runs out, there or in
/// the run.
pub fn ended_answer(
    alloc: Global,
    text: Vec<u8>,
    ending: RunAnswer,
) -> Result<CommandAnswer, AllocError>
    ensures { IfOk result (IsEndedAnswer (told.ended_answer text.items) ending) }
{
    let spent = spent_of(ending)?;
    let out = with_ending(text, spent)?;
    Ok(answer_with(alloc, out, spent))
}
