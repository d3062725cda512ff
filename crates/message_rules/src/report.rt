//! Adds the findings of the rules on messages.

ghost use Rattle.std.specs.Prelude.{◌≡◌, ◌⊎◌, ◌++◌, map, OnOk, IsSomeAnd};
ghost use Rattle.std.specs.List.{Any};
ghost use Rattle.findings.specs.Gains.{Gains, AtSome};
ghost use Rattle.findings.specs.Repeats.{IsRepeatedAt};
ghost use Rattle.message_rules.specs.Breaches.{IsFoundOf};
ghost use Rattle.message_rules.specs.Broken.{BrokenAt, returns_of};
ghost use Rattle.message_rules.specs.Gathered.{IsFoundIn, IsRepeatedIn};

use crate::kinds::{kind_among, managed_names};
use crate::message::add_of_message;
use crate::params::add_repeated_of;
use ipdl_base::Finding;
use ipdl_syntax::{Entry, MessageDecl, Program, ProtocolDecl};
use std::alloc::{AllocError, Global};

/// Adds the findings of each message of a protocol by itself.
fn add_in(
    alloc: Global,
    protocol: &ProtocolDecl,
    found: &mut Vec<Finding>,
) -> Result<(), AllocError>
    ensures { OnOk result (Gains (IsFoundIn protocol.now) found.old.items found.new.items) }
{
    let managed = managed_names(alloc, protocol.manages.as_slice())?;
    for (index, message) in protocol.messages.as_slice().iter().enumerate() {
        let kind = kind_among(&managed, message);
        add_of_message(protocol, index, message, kind, found)?;
    }
    Ok(())
}

/// Adds the findings of the parameters and returns of messages.
fn add_repeated_in(
    alloc: Global,
    messages: &[MessageDecl],
    found: &mut Vec<Finding>,
) -> Result<(), AllocError>
    ensures { OnOk result (Gains (IsRepeatedIn messages.now) found.old.items found.new.items) }
{
    let mut names = Vec::new(alloc);
    for message in messages {
        add_repeated_of(alloc, message, &mut names, found)?;
    }
    Ok(())
}

/// Adds the findings of a file's protocol, if it has one.
fn add_of_entry(alloc: Global, entry: &Entry, found: &mut Vec<Finding>) -> Result<(), AllocError>
    ensures { OnOk result (Gains (λ f. IsSomeAnd entry.now.unit.protocol (λ p. IsFoundIn p f ⊎ IsRepeatedIn p.messages f)) found.old.items found.new.items) }
{
    if let Some(protocol) = &entry.unit.protocol {
        add_in(alloc, protocol, found)?;
        add_repeated_in(alloc, protocol.messages.as_slice(), found)?;
    }
    Ok(())
}

/// Adds the findings of the rules B10 to B14, B16 and B22 to B24 that a program breaks
/// (docs/protocols.md), in some order. Fails only if memory runs out.
pub fn add_of_messages(
    alloc: Global,
    program: &Program,
    found: &mut Vec<Finding>,
) -> Result<(), AllocError>
    ensures { OnOk result (Gains (BrokenAt program.now) found.old.items found.new.items) }
{
    for entry in program.as_slice() {
        add_of_entry(alloc, entry, found)?;
    }
    Ok(())
}
