//! What the rows of a schema are made from.

ghost use Rattle.std.specs.Prelude.{◌≡◌, IsSome, IfOk, Some};
ghost use Rattle.name_table.specs.Declares.{full_name_of};
ghost use Rattle.name_table.specs.Decls.{FindsOneProtocol, protocol_of};
ghost use Rattle.program_schema.specs.Numbers.{IsProtocolNumber, IsTypeNumber, place_of};
ghost use Rattle.program_schema.specs.SchemaOf.{IsNumberOfName};
ghost use Rattle.actor_tables.specs.Numbered.{decl_of, numbering_of};
ghost use Rattle.actor_tables.specs.SchemaSource.{IsSource, FindsSoleProtocol};

use crate::numbers::{SchemaNumbers, TypeId};
use ipdl_base::Name;
use ipdl_syntax::Entry;
use name_table::{DeclId, Found, Names};
use std::alloc::{AllocError, Global};

/// What the rows of a schema are made from: a program, the table of its names, and its numbers.
#[derive(Drop)]
pub struct SchemaSource<'s, 'p> {
    /// The program.
    pub program: &'s [Entry],
    /// The table of its names.
    pub names: &'s Names<'p>,
    /// The numbers of its protocols and types.
    pub numbers: SchemaNumbers,
}

impl SchemaSource<'_, '_> {
    /// Returns the number of the protocol of a file.
    pub fn protocol_number(&self, file: u32) -> u32
        requires source { IsSource self.now }
        requires there { IsSome (protocol_of self.now.program.now file) }
        ensures { IsProtocolNumber (numbering_of self.now.numbers) result file }
    {
        match self.numbers.of_files.get(file as usize) {
            Some(number) => *number,
            None => unreachable!(),
        }
    }

    /// Returns the number of a struct or a union.
    pub fn type_number(&self, id: TypeId) -> u32
        requires source { IsSource self.now }
        requires there { IsSome (place_of self.now.program.now (decl_of id)) }
        ensures { IsTypeNumber (numbering_of self.now.numbers) result (decl_of id) }
    {
        match self.numbers.of_types.get(&id) {
            Some(number) => *number,
            None => unreachable!(),
        }
    }

    /// Returns the number of the one protocol that a name finds in a file.
    pub fn number_of_name(&self, file: u32, name: &Name) -> u32
        requires source { IsSource self.now }
        requires sole { FindsSoleProtocol self.now.program.now file name.now }
        ensures { IsNumberOfName self.now.program.now (numbering_of self.now.numbers) file name.now result }
    {
        let Found::One(id) = self.names.find_protocol(file, name) else {
            unreachable!();
        };
        let DeclId::Protocol(other) = id else {
            unreachable!();
        };
        self.protocol_number(other)
    }
}

/// Returns the full text of a `using`.
pub fn using_name(
    alloc: Global,
    program: &[Entry],
    file: u32,
    index: usize,
) -> Result<Name, AllocError>
    requires { IsSome (full_name_of program.now (DeclId.Using file index)) }
    ensures { IfOk result (λ name. full_name_of program.now (DeclId.Using file index) ≡ Some name) }
{
    match program.get(file as usize) {
        Some(entry) => match entry.unit.usings.as_slice().get(index) {
            Some(item) => item.full.copy(alloc),
            None => unreachable!(),
        },
        None => unreachable!(),
    }
}
