//! The result of checking the files of a command.
use ipdl_base::{Report, Schema};

/// What was found of the files of a command.
#[derive(Drop)]
pub enum CheckResult {
    /// The files, or their program, break rules. The report has them.
    Broken(Report),
    /// The files break no rule. The schema is that of their program.
    Clean(Schema),
}
