//! The rules that files break by how they are read and named.

ghost use Rattle.std.specs.Prelude.{◌≡◌, ◌↔◌, ◌≤◌, ℕ, IfOk, OnOk, IsTrue, length};
ghost use Rattle.std.specs.List.{Contains};
ghost use Rattle.ipdl_base.specs.declared.finding.Finding.{Finding};
ghost use Rattle.findings.specs.Gains.{Gains};
ghost use Rattle.include_graph.specs.Additions.{finding_at, is_absent_at, IsFoundFor, IsFoundAmong, IsFoundOfName, IsFoundIn, IsFoundOf};
ghost use Rattle.include_graph.specs.Rules.{whole_file as the_whole_file};

use crate::content::Content;
use crate::keys::bears_name;
use crate::walk::{ReachedFile, Target};
use ipdl_base::{Finding, Name, Place, Rule};
use ipdl_syntax::{Include, Unit};
use std::alloc::{AllocError, Global};

/// Adds a finding of this rule at this place.
fn add(rule: Rule, place: Place, found: &mut Vec<Finding>) -> Result<(), AllocError>
    ensures { OnOk result (Gains (λ f. f ≡ finding_at rule place) found.old.items found.new.items) }
{
    found.push(Finding { place, rule })?;
    Ok(())
}

/// Returns the place that means a whole file.
fn whole_file(number: u32) -> Place
    ensures { result ≡ the_whole_file number }
{
    Place {
        file: number,
        line: 0,
        column: 0,
    }
}

/// Adds the finding on the name of the protocol, if the file of this key has a protocol.
fn add_of_name(key: &[u8], unit: &Unit, found: &mut Vec<Finding>) -> Result<(), AllocError>
    ensures { OnOk result (Gains (IsFoundOfName key.now unit.now) found.old.items found.new.items) }
{
    match &unit.protocol {
        None => Ok(()),
        Some(protocol) => {
            if bears_name(protocol.full.as_slice(), key) {
                Ok(())
            } else {
                add(Rule::MISNAMED_PROTOCOL, protocol.place, found)
            }
        }
    }
}

/// Returns whether the file of this number is absent.
fn is_absent_at(files: &[ReachedFile], number: u32) -> bool
    ensures { result ≡ is_absent_at files.now number }
{
    match files.get(number as usize) {
        Some(file) => matches!(&file.source.content, Content::Absent),
        None => false,
    }
}

/// Adds the findings on an include and on what it leads to.
fn add_for(
    include: &Include,
    target: Target,
    files: &[ReachedFile],
    found: &mut Vec<Finding>,
) -> Result<(), AllocError>
    ensures { OnOk result (Gains (IsFoundFor files.now include.now target) found.old.items found.new.items) }
{
    match target {
        Target::Nothing => Ok(()),
        Target::LeftOut => add(Rule::TOO_LARGE, include.place, found),
        Target::File(number) => {
            if is_absent_at(files, number) {
                add(Rule::FILE_NOT_FOUND, include.place, found)
            } else {
                Ok(())
            }
        }
    }
}

/// Adds the findings on includes.
fn add_among(
    includes: &[Include],
    targets: &[Target],
    files: &[ReachedFile],
    found: &mut Vec<Finding>,
) -> Result<(), AllocError>
    ensures { OnOk result (Gains (IsFoundAmong files.now includes.now targets.now) found.old.items found.new.items) }
{
    for (include, target) in includes.iter().zip(targets) {
        add_for(include, *target, files, found)?;
    }
    Ok(())
}

/// Adds the findings on the file of this number and key. `word` is whether a word names it.
fn add_in(
    number: u32,
    word: bool,
    key: &[u8],
    file: &ReachedFile,
    files: &[ReachedFile],
    found: &mut Vec<Finding>,
) -> Result<(), AllocError>
    ensures { OnOk result (Gains (IsFoundIn files.now number word key.now file.now.source.content file.now.targets.items) found.old.items found.new.items) }
{
    match &file.source.content {
        Content::Absent => {
            if word {
                add(Rule::FILE_NOT_FOUND, whole_file(number), found)
            } else {
                Ok(())
            }
        }
        Content::Large => add(Rule::TOO_LARGE, whole_file(number), found),
        Content::BadToken(place) => add(Rule::BAD_TOKEN, *place, found),
        Content::SyntaxFault(place) => add(Rule::SYNTAX_FAULT, *place, found),
        Content::Read(unit) => {
            add_of_name(key, unit, found)?;
            add_among(
                unit.includes.as_slice(),
                file.targets.as_slice(),
                files,
                found,
            )
        }
    }
}

/// Returns the findings on the files of these keys, in some order. The first `words` keys are named
/// by words.
pub fn found_in(
    alloc: Global,
    words: usize,
    keys: &[Name],
    files: &[ReachedFile],
) -> Result<Vec<Finding>, AllocError>
    requires size { length files.now ≡ length keys.now }
    requires few { length keys.now ≤ 4096 }
    ensures { IfOk result (λ found. (f : Finding) → Contains found.items f ↔ ((number : ℕ) × IsFoundOf words keys.now files.now number f)) }
{
    let mut found = Vec::new(alloc);
    for (number, file) in files.iter().enumerate() {
        let Some(key) = keys.get(number) else {
            unreachable!()
        };
        let word = number < words;
        add_in(number as u32, word, key.as_slice(), file, files, &mut found)?;
    }
    Ok(found)
}
