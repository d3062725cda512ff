//! The command that audits a text: whether it is what a run of a script may print (docs/audit.md).
mod answer;
mod outcome;
mod text;

pub use self::answer::answer_audit;
pub use self::outcome::Audit;
pub use self::text::audit_text;
