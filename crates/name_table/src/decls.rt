//! Finds declarations of a program by their numbers.

ghost use Rattle.std.specs.Prelude.{◌≡◌, option_map};
ghost use Rattle.name_table.specs.Decls.{protocol_of as the_protocol_of, struct_of as the_struct_of, union_of as the_union_of};

use ipdl_syntax::{Entry, ProtocolDecl, StructDecl, UnionDecl};

/// Returns the protocol of the file of this number in a program, or `None`.
pub fn protocol_of(program: &[Entry], file: u32) -> Option<&ProtocolDecl>
    ensures { option_map (λ p. p.now) result ≡ the_protocol_of program.now file }
{
    program.get(file as usize)?.unit.protocol.as_ref()
}

/// Returns the struct at this index in the list of the file of this number, or `None`.
pub fn struct_of(program: &[Entry], file: u32, place: usize) -> Option<&StructDecl>
    ensures { option_map (λ s. s.now) result ≡ the_struct_of program.now file place }
{
    let entry = program.get(file as usize)?;
    entry.unit.structs.as_slice().get(place)
}

/// Returns the union at this index in the list of the file of this number, or `None`.
pub fn union_of(program: &[Entry], file: u32, place: usize) -> Option<&UnionDecl>
    ensures { option_map (λ u. u.now) result ≡ the_union_of program.now file place }
{
    let entry = program.get(file as usize)?;
    entry.unit.unions.as_slice().get(place)
}
