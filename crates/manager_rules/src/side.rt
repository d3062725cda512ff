//! The two relations in which a protocol names others.

ghost use Rattle.std.specs.Prelude.{◌≡◌};

use ipdl_syntax::{Entry, NameAt, ProtocolDecl};

/// A relation in which a protocol names other protocols.
#[derive(Clone, Copy)]
pub enum Relation {
    /// The protocol names its managers.
    Managers,
    /// The protocol names the protocols that it manages.
    Managed,
}

impl Relation {
    ghost use Rattle.manager_rules.specs.Sides.{names_on, names_in, other_side};

    /// Returns the other relation.
    pub fn other(self) -> Relation
        ensures { result ≡ other_side self }
    {
        match self {
            Relation::Managers => Relation::Managed,
            Relation::Managed => Relation::Managers,
        }
    }

    /// Returns the names that a protocol has in this relation.
    pub fn names_of(self, protocol: &ProtocolDecl) -> &[NameAt]
        ensures { result.now ≡ names_on self protocol.now }
    {
        match self {
            Relation::Managers => protocol.managers.as_slice(),
            Relation::Managed => protocol.manages.as_slice(),
        }
    }

    /// Returns the names that a file's protocol has in this relation, or no names if the file has
    /// no protocol.
    pub fn names_in(self, entry: &Entry) -> &[NameAt]
        ensures { result.now ≡ names_in self entry.now }
    {
        match &entry.unit.protocol {
            Some(protocol) => self.names_of(protocol),
            None => &[],
        }
    }
}
