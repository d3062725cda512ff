//! For each text, the declarations that are listed under it.

ghost use Rattle.std.specs.Prelude.{◌≡◌, ◌≤◌, ◌∷◌, ◌++◌, [], map, ℕ, List, length, if◌then◌else◌, IfOk, OnOk};
ghost use Rattle.std.specs.Str.{bytes_eq};
ghost use Rattle.name_table.specs.declared.decl.DeclId.TheVariants as decl;
ghost use Rattle.name_table.specs.Rows.{numbered, declared_in, row_of, Lists, AreRows};

use crate::decl::DeclId;
use crate::texts::before_argument;
use indexmap::IndexMap;
use ipdl_base::short_name;
use ipdl_syntax::{Entry, StructDecl, UnionDecl, Using};
use std::alloc::{AllocError, Global};

/// For each text, the declarations that are listed under it, in order.
pub type Rows<'p> = IndexMap<&'p [u8], Vec<DeclId>>;

/// Lists a declaration under a text.
fn list<'p>(
    alloc: Global,
    text: &'p [u8],
    id: DeclId,
    rows: &mut Rows<'p>,
) -> Result<(), AllocError>
    ensures { OnOk result ((other : List ℕ) → row_of rows.new other ≡ row_of rows.old other ++ (if bytes_eq other text.now then id ∷ [] else [])) }
{
    match rows.get_mut(text) {
        Some(row) => row.push(id)?,
        None => {
            let mut row = Vec::with_capacity(alloc, 1)?;
            row.push(id)?;
            rows.insert(text, row)?;
        }
    }
    Ok(())
}

/// Lists a declaration under each text that its full name gives.
fn declare<'p>(
    alloc: Global,
    id: DeclId,
    full: &'p [u8],
    rows: &mut Rows<'p>,
) -> Result<(), AllocError>
    ensures { OnOk result (Lists ((id, full.now) ∷ []) rows.old rows.new) }
{
    let front = before_argument(full);
    list(alloc, front, id, rows)?;
    let last = short_name(full);
    if front.len() == full.len() && last.len() < full.len() {
        list(alloc, last, id, rows)?;
    }
    Ok(())
}

/// Lists the usings of the file of this number.
fn declare_usings<'p>(
    alloc: Global,
    file: u32,
    usings: &'p [Using],
    rows: &mut Rows<'p>,
) -> Result<(), AllocError>
    ensures { OnOk result (Lists (numbered (decl.Using file) 0 (map (λ d. d.full) usings.now)) rows.old rows.new) }
{
    for (place, item) in usings.iter().enumerate() {
        declare(
            alloc,
            DeclId::Using(file, place),
            item.full.as_slice(),
            rows,
        )?;
    }
    Ok(())
}

/// Lists the structs of the file of this number.
fn declare_structs<'p>(
    alloc: Global,
    file: u32,
    structs: &'p [StructDecl],
    rows: &mut Rows<'p>,
) -> Result<(), AllocError>
    ensures { OnOk result (Lists (numbered (decl.Struct file) 0 (map (λ d. d.full) structs.now)) rows.old rows.new) }
{
    for (place, item) in structs.iter().enumerate() {
        declare(
            alloc,
            DeclId::Struct(file, place),
            item.full.as_slice(),
            rows,
        )?;
    }
    Ok(())
}

/// Lists the unions of the file of this number.
fn declare_unions<'p>(
    alloc: Global,
    file: u32,
    unions: &'p [UnionDecl],
    rows: &mut Rows<'p>,
) -> Result<(), AllocError>
    ensures { OnOk result (Lists (numbered (decl.Union file) 0 (map (λ d. d.full) unions.now)) rows.old rows.new) }
{
    for (place, item) in unions.iter().enumerate() {
        declare(
            alloc,
            DeclId::Union(file, place),
            item.full.as_slice(),
            rows,
        )?;
    }
    Ok(())
}

/// Lists the declarations of the file of this number.
fn declare_file<'p>(
    alloc: Global,
    file: u32,
    entry: &'p Entry,
    rows: &mut Rows<'p>,
) -> Result<(), AllocError>
    ensures { OnOk result (Lists (declared_in file entry.now) rows.old rows.new) }
{
    declare_usings(alloc, file, entry.unit.usings.as_slice(), rows)?;
    declare_structs(alloc, file, entry.unit.structs.as_slice(), rows)?;
    declare_unions(alloc, file, entry.unit.unions.as_slice(), rows)?;
    if let Some(protocol) = &entry.unit.protocol {
        declare(
            alloc,
            DeclId::Protocol(file),
            protocol.full.as_slice(),
            rows,
        )?;
    }
    Ok(())
}

/// Returns the rows of all declarations of the files of a program.
pub fn rows<'p>(alloc: Global, program: &'p [Entry]) -> Result<Rows<'p>, AllocError>
    requires { length program.now ≤ 4096 }
    ensures { IfOk result (λ all. AreRows program.now all) }
{
    let mut all = IndexMap::new(alloc);
    for (file, entry) in program.iter().enumerate() {
        declare_file(alloc, file as u32, entry, &mut all)?;
    }
    Ok(all)
}
