//! Tests of the rules on large programs.

use super::given::{files, program};
use super::rules::Rules;
use ipdl_base::{Finding, Findings, Rule};
use memory_files::MemoryFiles;
use std::alloc::{AllocError, Global};
use std::test::Fail;

/// The number of protocols in the ring, which is the number of files that a program may have.
const PROTOCOLS: u32 = 4096;

/// The number of types in a chain.
const TYPES: u32 = 20_000;

/// Returns the text of the protocol with this number in a ring. The protocol before it manages it.
fn ring_text(
    alloc: Global,
    number: u32,
    before: u32,
    following: u32,
) -> Result<String, AllocError> {
    format!(in alloc;
        "include protocol P{following};\ninclude protocol P{before};\nprotocol P{number} {{\n  manager P{before};\n  manages P{following};\nparent:\n  async P{following}();\n  async __delete__();\n}};\n"
    )
}

/// Returns a ring of protocols. Each manages the next.
fn ring(alloc: Global) -> Result<MemoryFiles, AllocError> {
    let mut files = Vec::new(alloc);
    for number in 0..PROTOCOLS {
        let before = (number % PROTOCOLS + PROTOCOLS - 1) % PROTOCOLS;
        let following = (number % PROTOCOLS + 1) % PROTOCOLS;
        let text = ring_text(alloc, number, before, following)?;
        let name = format!(in alloc; "P{number}.ipdl")?;
        files.push((name, text.into_bytes()))?;
    }
    Ok(MemoryFiles::new(files, Vec::new(alloc)))
}

/// Returns a chain of types. Each contains the next, and the last contains `end`.
fn chain(alloc: Global, open: &str, close: &str, end: &str) -> Result<String, AllocError> {
    let mut text = String::new(alloc);
    for number in 0..TYPES {
        let next = number % TYPES + 1;
        write!(text, "{open} S{number} {{ S{next}{close}; }};\n")?;
    }
    write!(
        text,
        "{open} S{TYPES} {{ {end}{close}; }};\nprotocol PA {{ }};\n"
    )?;
    Ok(text)
}

/// Returns a protocol with this number of messages, each on a line of its own from the third line on.
fn protocol_of(alloc: Global, messages: u32) -> Result<String, AllocError> {
    let mut text = String::from_str(alloc, "protocol PA {\nparent:\n")?;
    for number in 0..messages {
        write!(text, "  async M{number}();\n")?;
    }
    text.push_str("};\n")?;
    Ok(text)
}

/// Appends the number of findings, if all are of this rule.
fn push_count(findings: &Findings, rule: Rule, out: &mut String) -> Result<(), AllocError> {
    if findings.as_slice().iter().all(|f| f.rule == rule) {
        write!(out, "{} ", findings.len())
    } else {
        out.push_str("another rule ")
    }
}

/// Returns the findings of the rules in a program of one file.
fn found(alloc: Global, rules: Rules, text: &str) -> Result<Findings, Fail> {
    let pieces = format!(in alloc; "@ PA.ipdl\n{text}")?;
    let program = program(alloc, files(alloc, pieces.as_str(), 0)?, "PA.ipdl")?;
    rules.findings(alloc, &program)
}

/// Appends the number of messages beyond the limit in a protocol with this number of messages. All
/// are after the permitted ones.
fn push_too_many(alloc: Global, messages: u32, out: &mut String) -> Result<(), Fail> {
    let text = protocol_of(alloc, messages)?;
    let findings = found(alloc, Rules::Protocols, text.as_str())?;
    let following = |f: &Finding| f.place.line > 32_770 && f.place.column == 9;
    if findings.as_slice().iter().all(following) {
        push_count(&findings, Rule::TOO_MANY_MESSAGES, out)?;
    }
    Ok(())
}

/// Appends the number of protocols of the ring that manage themselves through others.
fn push_cycles(alloc: Global, out: &mut String) -> Result<(), Fail> {
    let program = program(alloc, ring(alloc)?, "P0.ipdl")?;
    let findings = Rules::Protocols.findings(alloc, &program)?;
    Ok(push_count(&findings, Rule::MANAGER_CYCLE, out)?)
}

/// Returns the findings on large protocols.
fn protocols(alloc: Global) -> Result<String, Fail> {
    let mut shown = String::new(alloc);
    push_too_many(alloc, 32_768, &mut shown)?;
    push_too_many(alloc, 32_770, &mut shown)?;
    push_cycles(alloc, &mut shown)?;
    Ok(shown)
}

#[test]
fn large_protocols(rt: HostRuntime) -> Result<(), Fail> {
    assert_eq!(rt; protocols(rt.alloc())?.as_str(), "0 2 4096 ");
    Ok(())
}

/// Appends the number of types of a chain that are not defined.
fn push_undefined(
    alloc: Global,
    open: &str,
    close: &str,
    end: &str,
    out: &mut String,
) -> Result<(), Fail> {
    let text = chain(alloc, open, close, end)?;
    let findings = found(alloc, Rules::Types, text.as_str())?;
    Ok(push_count(&findings, Rule::UNDEFINED_TYPE, out)?)
}

/// Returns the findings on chains of structs and of unions that end with a builtin type or with
/// their first type.
fn types(alloc: Global) -> Result<String, Fail> {
    let mut shown = String::new(alloc);
    push_undefined(alloc, "struct", " f", "int32_t", &mut shown)?;
    push_undefined(alloc, "struct", " f", "S0", &mut shown)?;
    push_undefined(alloc, "union", "", "int32_t", &mut shown)?;
    push_undefined(alloc, "union", "", "S0", &mut shown)?;
    Ok(shown)
}

#[test]
fn large_types(rt: HostRuntime) -> Result<(), Fail> {
    assert_eq!(rt; types(rt.alloc())?.as_str(), "0 20001 0 20001 ");
    Ok(())
}
