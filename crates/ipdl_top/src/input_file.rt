//! The input file of a command: a file of frames, or a text to audit.
ghost use Rattle.std.specs.Prelude.{◌≡◌, ◌≤◌, ◌++◌, ℕ, [], IfOk, List, Option, length};
ghost use Rattle.ipdl_base.specs.Outside.{HasAtMost, IsHeldWithin};
ghost use Rattle.ipdl_top.specs.declared.answer.CommandAnswer.{CommandAnswer as TheAnswer};
ghost use Rattle.ipdl_top.specs.Inputs.{SaysByInput, bad_input_answer};

use crate::answer::CommandAnswer;
use crate::status::Status;
use ipdl_base::FileBytes;
use std::alloc::{AllocError, Global};

/// The input file of a command, as it was found.
#[derive(Drop)]
pub struct InputFile<'c> {
    /// The name of the file.
    pub name: &'c str,
    /// What was found of the file.
    pub found: &'c FileBytes,
    /// The status if the file is not what the command reads.
    pub fault: Status,
}

/// A command that answers by the bytes of its input file.
pub trait ByInput: Drop {
    /// What the command requires.
    ghost Ready: { Self → Type 0 };

    /// The most bytes that the command takes.
    ghost most: { Self → ℕ };

    /// What the command says of the bytes.
    ghost Says: { Self → List ℕ → TheAnswer → Type 0 };

    /// Answers the command. Fails only if memory runs out.
    fn by_input(self, alloc: Global, bytes: &[u8]) -> Result<CommandAnswer, AllocError>
        requires ready { Ready self }
        requires few { length bytes.now ≤ most self }
        ensures { IfOk result (Says self bytes.now) };
}

/// Returns the answer that a file of this name is not what the command reads, for this reason. Fails only if memory runs out.
pub fn fault_answer(
    alloc: Global,
    fault: Status,
    name: &str,
    reason: &str,
) -> Result<CommandAnswer, AllocError>
    ensures { IfOk result (λ answer. answer ≡ bad_input_answer fault [] (name.now ++ reason.now)) }
{
    let mut line = Vec::from_slice(alloc, name.as_bytes())?;
    line.extend_from_slice(reason.as_bytes())?;
    Ok(CommandAnswer::of_bad_input(fault, Vec::new(alloc), line))
}

/// Answers a command by what was found of its input file: that the file is absent or too large, or what the command says of
/// the bytes. Fails only if memory runs out.
pub fn answer_by_input<C: ByInput>(
    alloc: Global,
    input: &InputFile<'_>,
    command: C,
) -> Result<CommandAnswer, AllocError>
    requires ready { C.Ready command }
    requires small { HasAtMost (C.most command) input.now.found.now }
    ensures { IfOk result (λ answer. (bytes : Option (List ℕ)) → IsHeldWithin (C.most command) bytes input.now.found.now
        → SaysByInput input.now.fault (C.most command) (C.Says command) input.now.name.now bytes answer) }
{
    match input.found {
        FileBytes::Absent => fault_answer(alloc, input.fault, input.name, ":0: absent\n"),
        FileBytes::Larger => fault_answer(alloc, input.fault, input.name, ":0: larger\n"),
        FileBytes::Bytes(bytes) => command.by_input(alloc, bytes.as_slice()),
    }
}
