//! The answer of an audit.
ghost use Rattle.std.specs.Prelude.{◌≡◌, ◌≤◌, ℕ, IfOk, List, Option, string_bytes};
ghost use Rattle.handler_script.specs.Valid.{IsValid};
ghost use Rattle.ipdl_base.specs.Outside.{HasAtMost, IsHeldWithin};
ghost use Rattle.ipdl_base.specs.Sound.{IsSound};
ghost use Rattle.transcripts.specs.Compared.{most_text_bytes};
ghost use Rattle.world_core.specs.Worlds.{most_events};
ghost use Rattle.ipdl_top.specs.Audit as told;
ghost use Rattle.ipdl_top.specs.Audit.{SaysAudit, SaysAudited, SaysAuditedOf, audit_answer, bad_line_answer};
ghost use Rattle.ipdl_top.specs.Steps.{HasTop, IsHeld, IsSmall, IsSoundChecked, IsToldOf};

use crate::answer::CommandAnswer;
use crate::audit::outcome::Audit;
use crate::audit::text::audit_text;
use crate::checked::CheckResult;
use crate::input_file::{ByInput, InputFile, answer_by_input, fault_answer};
use crate::pipeline::{ByScript, WithScript, answer_by_schema};
use crate::scripts::ScriptFile;
use crate::status::Status;
use command_words::AuditOptions;
use handler_script::Script;
use ipdl_base::{FileBytes, Rule, Schema};
use std::alloc::{AllocError, Global};

/// Returns the answer that the text of a file of this name breaks a rule at the line of this number.
fn broken_answer(
    alloc: Global,
    name: &str,
    at: u32,
    rule: Rule,
) -> Result<CommandAnswer, AllocError>
    ensures { IfOk result (λ answer. answer ≡ bad_line_answer name.now at rule) }
{
    let why = format!(in alloc; ":{at}: {rule}\n")?;
    fault_answer(alloc, Status::BadTranscript, name, why.as_str())
}

/// Returns the answer that a run may print a text, which has this number of events. Fails only if memory runs out.
fn legal_answer(alloc: Global, events: u32) -> Result<CommandAnswer, AllocError>
    ensures { IfOk result (λ answer. answer ≡ told.legal_answer events) }
{
    let text = format!(in alloc; "legal {events}\n")?;
    Ok(CommandAnswer::of_table(alloc, text.into_bytes()))
}

/// Returns the answer by what an audit finds of the text of a file of this name.
fn found_answer(alloc: Global, name: &str, found: Audit) -> Result<CommandAnswer, AllocError>
    ensures { IfOk result (λ answer. answer ≡ audit_answer name.now found) }
{
    match found {
        Audit::Legal(events) => legal_answer(alloc, events),
        Audit::Early(at) => broken_answer(alloc, name, at, Rule::EARLY_END),
        Audit::NoStep(at) => broken_answer(alloc, name, at, Rule::NO_SUCH_STEP),
    }
}

/// The audit of a text by a script.
#[derive(Drop)]
struct AuditOfScript<'w> {
    schema: &'w Schema,
    script: &'w Script,
    options: &'w AuditOptions,
}

impl<'w> ByInput for AuditOfScript<'w> {
    ghost Ready = { λ c. IsSound c.schema.now × IsValid c.schema.now c.script.now × (c.options.now.limit ≤ most_events) };

    ghost most = { λ c. most_text_bytes };

    ghost Says = { λ c bytes. SaysAudited c.options.now.limit (string_bytes c.options.now.transcript) bytes c.schema.now c.script.now };

    fn by_input(self, alloc: Global, bytes: &[u8]) -> Result<CommandAnswer, AllocError> {
        let AuditOfScript {
            schema,
            script,
            options,
        } = self;
        let found = audit_text(alloc, schema, script, options.limit, bytes)?;
        found_answer(alloc, options.transcript.as_str(), found)
    }
}

/// A text to audit.
#[derive(Drop)]
struct AuditCommand<'w> {
    options: &'w AuditOptions,
    text: &'w FileBytes,
}

impl<'w> ByScript for AuditCommand<'w> {
    ghost Ready = { λ c. (c.options.now.limit ≤ most_events) × HasAtMost most_text_bytes c.text.now };

    ghost Says = { λ c schema script answer. (bytes : Option (List ℕ)) → IsHeldWithin most_text_bytes bytes c.text.now
        → SaysAuditedOf c.options.now.limit (string_bytes c.options.now.transcript) bytes schema script answer };

    fn by_script(
        self,
        alloc: Global,
        schema: &Schema,
        script: &Script,
    ) -> Result<CommandAnswer, AllocError> {
        let AuditCommand { options, text } = self;
        let input = InputFile {
            name: options.transcript.as_str(),
            found: text,
            fault: Status::BadTranscript,
        };
        let command = AuditOfScript {
            schema,
            script,
            options,
        };
        answer_by_input(alloc, &input, command)
    }
}

/// Answers the command that audits a text: the report on the files, or the rules that the script breaks, or that there is no
/// text to read, or how many events a run has that may print the text, or at which of its lines no run does (docs/audit.md).
/// Fails only if memory runs out.
pub fn answer_audit(
    alloc: Global,
    checked: CheckResult,
    file: &str,
    options: &AuditOptions,
    script: &FileBytes,
    text: &FileBytes,
) -> Result<CommandAnswer, AllocError>
    requires small { IsSmall script.now }
    requires text { HasAtMost most_text_bytes text.now }
    requires sound { IsSoundChecked checked }
    requires top { HasTop file.now checked }
    requires limit { options.now.limit ≤ most_events }
    ensures { IfOk result (λ answer. (held bytes : Option (List ℕ)) → IsHeld held script.now → IsHeldWithin most_text_bytes bytes text.now
        → IsToldOf (SaysAudit options.now.limit (string_bytes options.now.script) held (string_bytes options.now.transcript) bytes file.now) checked answer) }
{
    let script = ScriptFile {
        file,
        name: options.script.as_str(),
        found: script,
    };
    let command = AuditCommand { options, text };
    answer_by_schema(alloc, checked, WithScript { script, command })
}
