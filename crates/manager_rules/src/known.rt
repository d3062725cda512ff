//! The relations of management between the protocols of a program.

ghost use Rattle.std.specs.Prelude.{◌≡◌, ◌≢◌, ◌≤◌, ◌↔◌, ℕ, length, Some, IfOk, IfSome, IfNone, IsTrue};
ghost use Rattle.std.specs.List.{Contains};
ghost use Rattle.ipdl_syntax.specs.declared.tree.ProtocolDecl.{ProtocolDecl};
ghost use Rattle.name_table.specs.Decls.{FindsOneProtocol, protocol_of};
ghost use Rattle.manager_rules.specs.Managers.{HasManager};
ghost use Rattle.manager_rules.specs.Rows.{AreRows};
ghost use Rattle.manager_rules.specs.Sides.{HasBond};

use crate::rows::{ManagerRow, find_one, row_at, rows};
use crate::side::Relation;
use ipdl_base::Name;
use ipdl_syntax::{Entry, ProtocolDecl};
use name_table::{Names, protocol_of};
use std::alloc::{AllocError, Global};

/// A program, the table of its names, and for each protocol the protocols that it names.
#[derive(Drop)]
pub struct ManagementGraph<'a, 'p> {
    /// The program.
    pub program: &'a [Entry],
    /// The table of its names.
    pub names: &'a Names<'p>,
    /// For each file, the managers that its protocol names.
    pub managers: Vec<ManagerRow>,
    /// For each file, the protocols that its protocol manages.
    pub managed: Vec<ManagerRow>,
}

impl<'a, 'p> ManagementGraph<'a, 'p> {
    ghost use Rattle.manager_rules.specs.Knowing.{IsKnown};

    /// Builds the relations of a program.
    pub fn of(
        alloc: Global,
        program: &'a [Entry],
        names: &'a Names<'p>,
    ) -> Result<ManagementGraph<'a, 'p>, AllocError>
        requires few { length program.now ≤ 4096 }
        requires of_program { names.now ≡ program.now }
        ensures known { IfOk result IsKnown }
        ensures program { IfOk result (λ known. known.program.now ≡ program.now) }
    {
        Ok(ManagementGraph {
            program,
            names,
            managers: rows(alloc, program, names, Relation::Managers)?,
            managed: rows(alloc, program, names, Relation::Managed)?,
        })
    }

    /// Returns the rows of one of the relations.
    fn rows(&self, side: Relation) -> &[ManagerRow]
        requires { IsKnown self.now }
        ensures { AreRows side self.now.program.now result.now }
    {
        match side {
            Relation::Managers => self.managers.as_slice(),
            Relation::Managed => self.managed.as_slice(),
        }
    }

    /// Returns whether the protocol of a file names that of another file in this relation.
    pub fn has_bond(&self, side: Relation, file: u32, other: u32) -> bool
        requires { IsKnown self.now }
        ensures { IsTrue result ↔ HasBond side self.now.program.now file other }
    {
        match row_at(self.rows(side), file) {
            Some(row) => row.set.contains(&other),
            None => false,
        }
    }

    /// Returns the files of the managers of a file's protocol.
    pub fn managers_of(&self, file: u32) -> &[u32]
        requires { IsKnown self.now }
        ensures { (other : ℕ) → Contains result.now other ↔ HasManager self.now.program.now file other }
    {
        match row_at(self.rows(Relation::Managers), file) {
            Some(row) => row.files.as_slice(),
            None => &[],
        }
    }

    /// Returns the protocol that a name finds in a file, with the number of its own file, or `None`
    /// if the name does not find exactly one.
    pub fn find(&self, file: u32, name: &Name) -> Option<(u32, &'a ProtocolDecl)>
        requires { IsKnown self.now }
        ensures some { IfSome result (λ found. FindsOneProtocol self.now.program.now file name.now found.0
            × (protocol_of self.now.program.now found.0 ≡ Some found.1.now)) }
        ensures none { IfNone result ((other : ℕ) (q : ProtocolDecl)
            → FindsOneProtocol self.now.program.now file name.now other
            → protocol_of self.now.program.now other ≢ Some q) }
    {
        let other = find_one(self.names, file, name)?;
        let protocol = protocol_of(self.program, other)?;
        Some((other, protocol))
    }
}
