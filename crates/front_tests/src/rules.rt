//! Tests of the rules on types, messages and managers.

ghost use Rattle.ipdl_syntax.specs.Programs.{IsProgram};

use super::given::{files, note, program, show};
use super::manager_rows::{MANAGERS, MANAGERS_COUNT};
use super::message_rows::{MESSAGES, MESSAGES_COUNT};
use super::type_rows::{TYPES, TYPES_COUNT};
use findings::sort_findings;
use ipdl_base::Findings;
use ipdl_syntax::Program;
use name_table::Names;
use program_schema::add_of_protocols;
use std::alloc::Global;
use std::test::Fail;
use type_rules::add_of_types;

/// A group of rules on programs.
#[derive(Clone, Copy)]
pub enum Rules {
    Types,
    Protocols,
}

impl Rules {
    /// Returns the findings of the rules in a program.
    pub fn findings(self, alloc: Global, program: &Program) -> Result<Findings, Fail>
        requires { IsProgram program.now }
    {
        if program.len() > 4096 {
            return Err("too many files".into());
        }
        let names = Names::build(alloc, program)?;
        let mut found = Vec::new(alloc);
        match self {
            Rules::Types => add_of_types(alloc, program, &names, &mut found)?,
            Rules::Protocols => add_of_protocols(alloc, program, &names, &mut found)?,
        }
        Ok(sort_findings(found))
    }
}

/// Returns the findings of the rules in the program that the first of these files reaches.
fn found(alloc: Global, rules: Rules, pieces: &str) -> Result<String, Fail> {
    let (word, _) = pieces.split_once("\n").ok_or("a file without its name")?;
    let program = program(alloc, files(alloc, pieces, 0)?, word)?;
    let findings = rules.findings(alloc, &program)?;
    Ok(show(alloc, &findings)?)
}

/// Records a row if the rules have other findings than expected. A row is two lines, its subject
/// and the findings, and then each file after `@ `.
fn check(alloc: Global, rules: Rules, row: &str, wrong: &mut String) -> Result<(), Fail> {
    let (head, pieces) = row.split_once("@ ").ok_or("a row without a file")?;
    let (about, wanted) = head.split_once("\n").ok_or("a row without its lines")?;
    let found = found(alloc, rules, pieces)?;
    Ok(note(about, found.as_str(), wanted.trim_end_matches("\n"), wrong)?)
}

/// Returns the wrong rows of a table, and the number of its programs.
fn checked(alloc: Global, rules: Rules, table: &str) -> Result<String, Fail> {
    let mut shown = String::new(alloc);
    let mut count = 0u32;
    for row in table.split("====\n") {
        check(alloc, rules, row, &mut shown)?;
        count = count.wrapping_add(1);
    }
    write!(shown, "{count}")?;
    Ok(shown)
}

#[test]
fn programs(rt: HostRuntime) -> Result<(), Fail> {
    let alloc = rt.alloc();
    assert_eq!(rt; checked(alloc, Rules::Types, TYPES)?.as_str(), TYPES_COUNT);
    assert_eq!(rt;
        checked(alloc, Rules::Protocols, MANAGERS)?.as_str(),
        MANAGERS_COUNT
    );
    assert_eq!(rt;
        checked(alloc, Rules::Protocols, MESSAGES)?.as_str(),
        MESSAGES_COUNT
    );
    Ok(())
}
