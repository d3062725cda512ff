//! What each command does with what was found of its files, before it does what is its own: a report on the files answers
//! it, or else a report on the script.
ghost use Rattle.std.specs.Prelude.{ℕ, IfOk, List, Option};
ghost use Rattle.handler_script.specs.declared.script.Script.{Script as TheScript};
ghost use Rattle.handler_script.specs.Valid.{IsValid};
ghost use Rattle.ipdl_base.specs.declared.schema.Schema.{Schema as TheSchema};
ghost use Rattle.ipdl_base.specs.Sound.{IsSound};
ghost use Rattle.ipdl_top.specs.declared.answer.CommandAnswer.{CommandAnswer as TheAnswer};
ghost use Rattle.ipdl_top.specs.Scripts.{SaysByScript};
ghost use Rattle.ipdl_top.specs.Steps.{HasTopOf, IfClean, IsHeld, IsSmall, IsSoundChecked, IsToldOf};

use crate::answer::CommandAnswer;
use crate::checked::CheckResult;
use crate::exit::keep_until_exit;
use crate::scripts::{ScriptCheck, ScriptFile, script_checked};
use crate::status::Status;
use handler_script::Script;
use ipdl_base::Schema;
use std::alloc::{AllocError, Global};

/// A command that answers by the schema of its program.
pub trait BySchema: Drop {
    /// What the command requires.
    ghost Ready: { Self → Type 0 };

    /// What the command requires of the schema.
    ghost Fits: { Self → TheSchema → Type 0 };

    /// What the command says of the schema.
    ghost Says: { Self → TheSchema → TheAnswer → Type 0 };

    /// Answers the command. Fails only if memory runs out.
    fn by_schema(self, alloc: Global, schema: &Schema) -> Result<CommandAnswer, AllocError>
        requires sound { IsSound schema.now }
        requires ready { Ready self }
        requires fits { Fits self schema.now }
        ensures { IfOk result (Says self schema.now) };
}

/// A command that answers by the schema of its program and a script that is valid for it.
pub trait ByScript: Drop {
    /// What the command requires.
    ghost Ready: { Self → Type 0 };

    /// What the command says of the schema and the script.
    ghost Says: { Self → TheSchema → TheScript → TheAnswer → Type 0 };

    /// Answers the command. Fails only if memory runs out.
    fn by_script(
        self,
        alloc: Global,
        schema: &Schema,
        script: &Script,
    ) -> Result<CommandAnswer, AllocError>
        requires sound { IsSound schema.now }
        requires valid { IsValid schema.now script.now }
        requires ready { Ready self }
        ensures { IfOk result (Says self schema.now script.now) };
}

/// Answers a command by what was found of the files of its program: the report on them, or what the command says of the
/// schema. Keeps the schema until the process ends. Fails only if memory runs out.
pub fn answer_by_schema<C: BySchema>(
    alloc: Global,
    checked: CheckResult,
    command: C,
) -> Result<CommandAnswer, AllocError>
    requires sound { IsSoundChecked checked }
    requires ready { C.Ready command }
    requires fits { IfClean (C.Fits command) checked }
    ensures { IfOk result (IsToldOf (C.Says command) checked) }
{
    match checked {
        CheckResult::Broken(report) => CommandAnswer::of_report(alloc, Status::Broken, &report),
        CheckResult::Clean(schema) => {
            let answer = command.by_schema(alloc, &schema);
            keep_until_exit(schema);
            answer
        }
    }
}

/// A command by a script, as one by a schema: the report on the script, or what the command says of the script.
#[derive(Drop)]
pub struct WithScript<'c, C> {
    /// The script, as it was found.
    pub script: ScriptFile<'c>,
    /// The command.
    pub command: C,
}

impl<'c, C: ByScript> BySchema for WithScript<'c, C> {
    ghost Ready = { λ c. IsSmall c.script.found.now × C.Ready c.command };

    ghost Fits = { λ c schema. HasTopOf c.script.file.now schema };

    ghost Says = { λ c schema answer. (text : Option (List ℕ)) → IsHeld text c.script.found.now
        → SaysByScript (C.Says c.command schema) c.script.name.now text c.script.file.now schema answer };

    fn by_schema(self, alloc: Global, schema: &Schema) -> Result<CommandAnswer, AllocError> {
        let WithScript { script, command } = self;
        match script_checked(alloc, schema, &script)? {
            ScriptCheck::Broken(report) => {
                CommandAnswer::of_report(alloc, Status::BadScript, &report)
            }
            ScriptCheck::Valid(script) => command.by_script(alloc, schema, &script),
        }
    }
}
