//! The names of a program, by which the sections of a sync list are looked up.

ghost use Rattle.std.specs.Prelude.{◌≡◌, ◌↔◌, List, IfOk, OnOk, IsTrue};
ghost use Rattle.std.specs.List.{Any};
ghost use Rattle.ipdl_base.specs.declared.kinds.Semantics.TheVariants.{Sync};
ghost use Rattle.ipdl_syntax.specs.declared.program.Entry.{Entry};
ghost use Rattle.sync_list.specs.Broken.{Lists, IsRead, HasMessage, NamesAsync, NamesAbsent};
ghost use Rattle.sync_list.specs.Sets.{same_name, same_pair, KeysAre, AddsKeys};

use crate::list::Section;
use ipdl_base::{Semantics, short_name};
use ipdl_syntax::{Entry, MessageDecl};
use std::alloc::{AllocError, Global};
use std::collections::HashSet;

/// The short name of a protocol and the name of a message.
pub type MessagePair<'a> = (&'a [u8], &'a [u8]);

/// The names of the protocols of a program and of their messages.
#[derive(Drop)]
pub struct ProgramNames<'a> {
    /// The short names of the protocols.
    pub protocols: HashSet<&'a [u8]>,
    /// The sync messages.
    pub syncs: HashSet<MessagePair<'a>>,
    /// The async messages.
    pub asyncs: HashSet<MessagePair<'a>>,
}

/// Returns the names of a section.
fn names_of(section: &Section) -> MessagePair<'_>
    ensures protocol { result.0.now ≡ section.now.protocol }
    ensures message { result.1.now ≡ section.now.message }
{
    (section.protocol.as_slice(), section.message.as_slice())
}

/// Returns the names of the sections of a list.
pub fn listed(alloc: Global, list: &[Section]) -> Result<HashSet<MessagePair<'_>>, AllocError>
    ensures { IfOk result (λ set. KeysAre same_pair set (λ pair. Lists list.now pair.0.now pair.1.now)) }
{
    let mut names = HashSet::new(alloc);
    for section in list {
        names.insert(names_of(section))?;
    }
    Ok(names)
}

/// Returns the short names of the protocols of a program.
fn protocols_of(alloc: Global, program: &[Entry]) -> Result<HashSet<&[u8]>, AllocError>
    ensures { IfOk result (λ set. KeysAre same_name set (λ name. IsRead program.now name.now)) }
{
    let mut names = HashSet::new(alloc);
    for entry in program {
        if let Some(protocol) = &entry.unit.protocol {
            names.insert(short_name(protocol.full.as_slice()))?;
        }
    }
    Ok(names)
}

/// Adds those messages of the protocol of this short name that have these semantics.
fn add_messages<'a>(
    protocol: &'a [u8],
    messages: &'a [MessageDecl],
    semantics: Semantics,
    names: &mut HashSet<MessagePair<'a>>,
) -> Result<(), AllocError>
    ensures { OnOk result (AddsKeys same_pair names.old names.new
        (λ pair. (protocol.now ≡ pair.0.now) × Any (λ m. (m.semantics ≡ semantics) × (m.name ≡ pair.1.now)) messages.now)) }
{
    for message in messages {
        if message.semantics == semantics {
            names.insert((protocol, message.name.as_slice()))?;
        }
    }
    Ok(())
}

/// Returns the messages of these semantics of the protocols of a program.
fn messages_of(
    alloc: Global,
    program: &[Entry],
    semantics: Semantics,
) -> Result<HashSet<MessagePair<'_>>, AllocError>
    ensures { IfOk result (λ set. KeysAre same_pair set (λ pair. HasMessage semantics program.now pair.0.now pair.1.now)) }
{
    let mut names = HashSet::new(alloc);
    for entry in program {
        if let Some(protocol) = &entry.unit.protocol {
            let name = short_name(protocol.full.as_slice());
            add_messages(name, protocol.messages.as_slice(), semantics, &mut names)?;
        }
    }
    Ok(names)
}

impl<'a> ProgramNames<'a> {
    ghost use Rattle.sync_list.specs.Knowing.{Knows};

    /// Collects the names of a program.
    pub fn of(alloc: Global, program: &'a [Entry]) -> Result<ProgramNames<'a>, AllocError>
        ensures { IfOk result (Knows program.now) }
    {
        Ok(ProgramNames {
            protocols: protocols_of(alloc, program)?,
            syncs: messages_of(alloc, program, Semantics::Sync)?,
            asyncs: messages_of(alloc, program, Semantics::Async)?,
        })
    }

    /// Returns whether the section names a protocol of the program.
    fn is_read(&self, section: &Section) -> bool
        ensures { (program : List Entry) → Knows program self.now → IsTrue result ↔ IsRead program section.now.protocol }
    {
        self.protocols.contains(&section.protocol.as_slice())
    }

    /// Returns whether the section names a sync message.
    fn names_sync(&self, section: &Section) -> bool
        ensures { (program : List Entry) → Knows program self.now → IsTrue result ↔ HasMessage Sync program section.now.protocol section.now.message }
    {
        self.syncs.contains(&names_of(section))
    }

    /// Returns whether the section names an async message.
    pub fn names_async(&self, section: &Section) -> bool
        ensures { (program : List Entry) → Knows program self.now → IsTrue result ↔ NamesAsync program section.now }
    {
        self.asyncs.contains(&names_of(section))
    }

    /// Returns whether the section names a protocol of the program and a message that this protocol
    /// lacks.
    pub fn names_absent(&self, section: &Section) -> bool
        ensures { (program : List Entry) → Knows program self.now → IsTrue result ↔ NamesAbsent program section.now }
    {
        if !self.is_read(section) {
            return false;
        }
        !self.names_sync(section) && !self.names_async(section)
    }
}
