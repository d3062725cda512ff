//! The kind of a message, by a set of the names of managed protocols.

ghost use Rattle.std.specs.Prelude.{IfOk};
ghost use Rattle.ipdl_syntax.specs.declared.tree.ProtocolDecl.{ProtocolDecl};
ghost use Rattle.name_table.specs.Kinds.{IsKindOf};
ghost use Rattle.message_rules.specs.Breaches.{HasNames};

use ipdl_syntax::{MessageDecl, NameAt};
use name_table::MessageKind;
use std::alloc::{AllocError, Global};
use std::collections::HashSet;

/// Returns the names of the protocols that a protocol manages.
pub fn managed_names(alloc: Global, manages: &[NameAt]) -> Result<HashSet<&[u8]>, AllocError>
    ensures { IfOk result (λ set. HasNames set manages.now) }
{
    let mut names = HashSet::new(alloc);
    for managed in manages {
        names.insert(managed.name.as_slice())?;
    }
    Ok(names)
}

/// Returns the kind of a message in a protocol that manages these.
pub fn kind_among(managed: &HashSet<&[u8]>, message: &MessageDecl) -> MessageKind
    ensures { (p : ProtocolDecl) → HasNames managed.now p.manages → IsKindOf p message.now result }
{
    let name = message.name.as_slice();
    if name == b"__delete__".as_slice() {
        MessageKind::Destructor
    } else if managed.contains(&name) {
        MessageKind::Constructor
    } else {
        MessageKind::Normal
    }
}
