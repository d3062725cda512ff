//! A protocol whose rules are tested, with the names of its messages.

ghost use Rattle.std.specs.Prelude.{◌≡◌, ◌≢◌, ◌↔◌, [], IfOk, IsTrue, codes};
ghost use Rattle.manager_rules.specs.Broken.{HasMessage};
ghost use Rattle.manager_rules.specs.Subjects.{HasNames};

use ipdl_syntax::{MessageDecl, ProtocolDecl};
use std::alloc::{AllocError, Global};
use std::collections::HashSet;

/// A protocol whose rules are tested.
#[derive(Drop)]
pub struct Subject<'a> {
    /// The number of its file.
    pub file: u32,
    /// The protocol itself.
    pub protocol: &'a ProtocolDecl,
    /// The names of its messages.
    pub messages: HashSet<&'a [u8]>,
}

/// Returns the names of these messages.
fn message_names(alloc: Global, messages: &[MessageDecl]) -> Result<HashSet<&[u8]>, AllocError>
    ensures { IfOk result (HasNames messages.now) }
{
    let mut names = HashSet::with_capacity(alloc, messages.len())?;
    for message in messages {
        names.insert(message.name.as_slice())?;
    }
    Ok(names)
}

impl<'a> Subject<'a> {
    ghost use Rattle.std.specs.Prelude.{List};
    ghost use Rattle.ipdl_syntax.specs.declared.program.Entry.{Entry};
    ghost use Rattle.manager_rules.specs.Subjects.{IsSubject};

    /// Takes a protocol, which is that of this file, as a subject.
    pub fn of(
        alloc: Global,
        file: u32,
        protocol: &'a ProtocolDecl,
    ) -> Result<Subject<'a>, AllocError>
        ensures file { IfOk result (λ subject. subject.file ≡ file) }
        ensures protocol { IfOk result (λ subject. subject.protocol.now ≡ protocol.now) }
        ensures messages { IfOk result (λ subject. HasNames protocol.now.messages subject.messages) }
    {
        let messages = message_names(alloc, protocol.messages.as_slice())?;
        Ok(Subject {
            file,
            protocol,
            messages,
        })
    }

    /// Returns whether the protocol has a message of this name.
    pub fn has_message(&self, name: &[u8]) -> bool
        requires { HasNames self.now.protocol.now.messages self.now.messages }
        ensures { IsTrue result ↔ HasMessage self.now.protocol.now name.now }
    {
        self.messages.contains(&name)
    }

    /// Returns whether the protocol has managers and no destructor.
    pub fn lacks_destructor(&self) -> bool
        requires { HasNames self.now.protocol.now.messages self.now.messages }
        ensures { IsTrue result ↔ ((self.now.protocol.now.managers ≢ []) × ¬ HasMessage self.now.protocol.now (codes "__delete__")) }
    {
        !self.protocol.managers.is_empty() && !self.has_message(b"__delete__".as_slice())
    }
}
