//! Reads the text of a sync list, line by line.

ghost use Rattle.std.specs.Prelude.{◌≡◌, false, ℕ, ◌+◌, ◌≤◌, ◌⊎◌, ◌&&◌, List, [], ◌∷◌, ◌++◌, length};
ghost use Rattle.std.specs.Prelude.{Ok, Err, IfOk, IfErr, OnOk};
ghost use Rattle.std.specs.List.{Contains};
ghost use Rattle.ipdl_base.specs.declared.files.TheConstants.{MOST_BYTES};
ghost use Rattle.sync_list.specs.declared.list.ListFault.TheVariants.{NoMemory};
ghost use Rattle.sync_list.specs.declared.list.ListFault.{ListFault};
ghost use Rattle.sync_list.specs.declared.list.Section.{Section};
ghost use Rattle.sync_list.specs.Forms.{LineForm, section};
ghost use Rattle.sync_list.specs.Lists.{description, IsListOf, IsFault, Gives};
ghost use Rattle.sync_list.specs.Marked.{marked};
ghost use Rattle.std.specs.Str.{bytes_eq};

use crate::line::{ListLine, are_blanks, line_of};
use crate::list::{ListFault, Section, SyncList};
use crate::names::MessagePair;
use ipdl_base::{Items, Name};
use std::alloc::{AllocError, Global};
use std::collections::HashSet;

/// Returns whether a value of this word is a description that is not empty. `filled` is whether the
/// value has a byte that is not blank.
fn describes(word: &[u8], filled: bool) -> bool
    ensures { result ≡ (bytes_eq word.now description && filled) }
{
    filled && word == b"description".as_slice()
}

/// Marks the last section as described if `described` is true.
fn mark_last(sections: &mut Vec<Section>, described: bool)
    ensures { sections.new.items ≡ marked described sections.old.items }
{
    if let Some(section) = sections.last_mut() {
        section.described |= described;
    }
}

/// Returns a section of these names that begins at the line of this number.
fn new_section(
    alloc: Global,
    protocol: &[u8],
    message: &[u8],
    number: u32,
) -> Result<Section, AllocError>
    ensures { IfOk result (λ section. section ≡ record { protocol = protocol.now; message = message.now; described = false; line = number }) }
{
    Ok(Section {
        protocol: Name::from_slice(alloc, protocol)?,
        message: Name::from_slice(alloc, message)?,
        described: false,
        line: number,
    })
}

/// The state of a reading of a sync list.
#[derive(Drop)]
pub struct ListReader<'a> {
    /// The sections that have been read.
    pub sections: Vec<Section>,
    /// The names of these sections.
    pub seen: HashSet<MessagePair<'a>>,
    /// The word whose value the next line can continue, or `None`.
    pub unfinished: Option<&'a [u8]>,
}

impl<'a> ListReader<'a> {
    ghost use Rattle.sync_list.specs.Reading.{HasRead, ReadsLine, Begins, IsValueOf, IsBad};

    /// Begins a reading with no lines.
    fn new(alloc: Global) -> ListReader<'a>
        ensures { HasRead [] result }
    {
        ListReader {
            sections: Vec::new(alloc),
            seen: HashSet::new(alloc),
            unfinished: None,
        }
    }

    /// Begins the section of these names at the line of this number.
    fn begin(
        &mut self,
        alloc: Global,
        protocol: &'a [u8],
        message: &'a [u8],
        number: u32,
    ) -> Result<(), ListFault>
        ensures ok { OnOk result ((forms : List LineForm) → HasRead forms self.old → length forms + 1 ≡ number
            → Begins forms protocol.now message.now self.new) }
        ensures err { IfErr result (λ fault. (fault ≡ NoMemory)
            ⊎ ((fault ≡ ListFault.Line number)
            × ((forms : List LineForm) → HasRead forms self.old → Contains forms (section protocol.now message.now)))) }
    {
        let names = (protocol, message);
        let is_new = self.seen.insert(names)?;
        if !is_new {
            return Err(ListFault::Line(number));
        }
        let begun = new_section(alloc, protocol, message, number)?;
        self.sections.push(begun)?;
        self.unfinished = None;
        Ok(())
    }

    /// Takes a line that has a value of the word or continues it. `filled` is whether this line's
    /// part of the value has a byte that is not blank.
    fn take_value(&mut self, word: &'a [u8], filled: bool)
        ensures { (forms : List LineForm) (form : LineForm) → HasRead forms self.old → IsValueOf word.now filled form
            → HasRead (forms ++ form ∷ []) self.new }
    {
        mark_last(&mut self.sections, describes(word, filled));
        self.unfinished = Some(word);
    }

    /// Reads the next line, which has this number.
    fn read(&mut self, alloc: Global, line: &'a [u8], number: u32) -> Result<(), ListFault>
        ensures ok { OnOk result ((forms : List LineForm) → HasRead forms self.old → length forms + 1 ≡ number → ReadsLine forms line.now self.new) }
        ensures err { IfErr result (λ fault. (fault ≡ NoMemory)
            ⊎ ((fault ≡ ListFault.Line number) × ((forms : List LineForm) → HasRead forms self.old → IsBad forms line.now))) }
    {
        match line_of(line) {
            ListLine::Blank | ListLine::Comment => {
                self.unfinished = None;
                Ok(())
            }
            ListLine::Section(protocol, message) => self.begin(alloc, protocol, message, number),
            ListLine::Value(word, value) => {
                if self.sections.is_empty() {
                    return Err(ListFault::Line(number));
                }
                self.take_value(word, !are_blanks(value));
                Ok(())
            }
            ListLine::Indented => {
                let Some(word) = self.unfinished else {
                    return Err(ListFault::Line(number));
                };
                self.take_value(word, true);
                Ok(())
            }
            ListLine::Other => Err(ListFault::Line(number)),
        }
    }
}

/// Reads the text of a sync list, or fails at the first line that is not of the format.
fn read_lines(alloc: Global, text: &[u8]) -> Result<SyncList, ListFault>
    requires { length text.now ≤ MOST_BYTES }
    ensures list { IfOk result (IsListOf text.now) }
    ensures fault { IfErr result (λ fault. (fault ≡ NoMemory) ⊎ IsFault text.now fault) }
{
    let mut reader = ListReader::new(alloc);
    let mut number = 0;
    for line in text.split(|b| *b == b'\n') {
        number += 1;
        reader.read(alloc, line, number)?;
    }
    Ok(Items::from_vec(reader.sections))
}

/// Reads the text of a sync list (docs/sync_list.md). `ListFault::Line` is the first line that is
/// not of the format. Takes time in proportion to the text.
pub fn read_list(alloc: Global, text: &[u8]) -> Result<SyncList, ListFault>
    requires { length text.now ≤ MOST_BYTES }
    ensures list { IfOk result (IsListOf text.now) }
    ensures fault { IfErr result (λ fault. (fault ≡ NoMemory) ⊎ IsFault text.now fault) }

    // The result is the text's list or its fault, unless memory runs out.
    ensures only_list { (list : List Section) → IsListOf text.now list → Gives result (Ok list) }
    ensures only_fault { (fault : ListFault) → IsFault text.now fault → Gives result (Err fault) }
{
    read_lines(alloc, text)
}
