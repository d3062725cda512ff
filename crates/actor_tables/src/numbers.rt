//! The numbers of the protocols and types of a program.

ghost use Rattle.std.specs.Prelude.{◌≡◌, ◌↔◌, ◌≤◌, ◌<◌, [], map, length, IfOk, OnOk};
ghost use Rattle.std.specs.List.{All, AllPairs, Contains};
ghost use Rattle.ipdl_syntax.specs.Programs.{IsProgram, BearTheirNames};
ghost use Rattle.program_schema.specs.Numbers.{AreProtocolFiles, AreTypes};
ghost use Rattle.actor_tables.specs.Numbered.{decl_of, id_of_key, AreNamedFiles, AddsKeys, IsStructKey, IsUnionKey, IsKeyBelow, IsBefore, GivesNumbers, FindsNumbers, AreNumbersOf};

use ipdl_base::Place;
use ipdl_syntax::{Entry, StructDecl, UnionDecl, Unit};
use std::alloc::{AllocError, Global};
use std::collections::HashMap;

/// A struct or a union, by its file and its index among the structs or the unions of the file.
#[derive(Clone, Copy, Debug, PartialEq, Eq, Hash)]
pub struct TypeId {
    /// The number of its file.
    pub file: u32,
    /// Whether it is a union.
    pub is_union: bool,
    /// Its index among the structs, or among the unions.
    pub index: usize,
}

/// The key by which structs and unions are ordered. The file is that of the place.
#[derive(Clone, Copy, Debug, PartialEq, Eq, PartialOrd, Ord)]
pub struct TypeKey {
    /// The place of its name.
    pub place: Place,
    /// Whether it is a union.
    pub is_union: bool,
    /// Its index among the structs, or among the unions.
    pub index: usize,
}

/// The protocols and the types of a program by their numbers, and the numbers of both.
#[derive(Drop)]
pub struct SchemaNumbers {
    /// The files of the protocols, in the order of the protocols' numbers.
    pub files: Vec<u32>,
    /// The structs and unions, in the order of their numbers.
    pub types: Vec<TypeId>,
    /// For each file, the number of its protocol. It has no meaning for a file without a protocol.
    pub of_files: Vec<u32>,
    /// The number of each struct and union.
    pub of_types: HashMap<TypeId, u32>,
}

/// The full name of the protocol of a file, and the number of the file.
type NamedFile<'p> = (&'p [u8], u32);

/// Returns the files that have protocols, with the full names of their protocols.
fn named_files(alloc: Global, program: &[Entry]) -> Result<Vec<NamedFile<'_>>, AllocError>
    requires few { length program.now ≤ 4096 }
    ensures { IfOk result (λ named. AreNamedFiles program.now (length program.now) named.items) }
{
    let mut named = Vec::new(alloc);
    for (file, entry) in program.iter().enumerate() {
        if let Some(protocol) = &entry.unit.protocol {
            named.push((protocol.full.as_slice(), file as u32))?;
        }
    }
    Ok(named)
}

/// Returns the files without the names.
fn files_of(alloc: Global, named: &[NamedFile<'_>]) -> Result<Vec<u32>, AllocError>
    ensures { IfOk result (λ files. files.items ≡ map (λ n. n.1) named.now) }
{
    named.iter().map(|named| named.1).collect(alloc)
}

/// Returns the files that have protocols, in the order of the protocols' full names.
fn protocol_files(alloc: Global, program: &[Entry]) -> Result<Vec<u32>, AllocError>
    requires is_program { IsProgram program.now }
    requires named { BearTheirNames program.now }
    ensures files { IfOk result (λ files. AreProtocolFiles program.now files.items) }
    ensures few { IfOk result (λ files. length files.items ≤ 4096) }
{
    let mut named = named_files(alloc, program)?;
    named.sort_unstable();
    files_of(alloc, named.as_slice())
}

/// Returns a list of length `count` that has, at the number of each of these files, its index among
/// them.
fn numbers_of_files(alloc: Global, count: usize, files: &[u32]) -> Result<Vec<u32>, AllocError>
    requires few { length files.now ≤ 4096 }
    requires below { All (λ file. file < count) files.now }
    ensures { IfOk result (λ numbers. FindsNumbers files.now numbers.items) }
{
    let mut numbers = vec![in alloc; 0u32; count]?;
    for (number, file) in files.iter().enumerate() {
        numbers[*file as usize] = number as u32;
    }
    Ok(numbers)
}

/// Adds the keys of the structs of a file.
fn add_structs(structs: &[StructDecl], keys: &mut Vec<TypeKey>) -> Result<(), AllocError>
    ensures { OnOk result (AddsKeys (IsStructKey structs.now) keys.old.items keys.new.items) }
{
    for (index, item) in structs.iter().enumerate() {
        keys.push(TypeKey {
            place: item.place,
            is_union: false,
            index,
        })?;
    }
    Ok(())
}

/// Adds the keys of the unions of a file.
fn add_unions(unions: &[UnionDecl], keys: &mut Vec<TypeKey>) -> Result<(), AllocError>
    ensures { OnOk result (AddsKeys (IsUnionKey unions.now) keys.old.items keys.new.items) }
{
    for (index, item) in unions.iter().enumerate() {
        keys.push(TypeKey {
            place: item.place,
            is_union: true,
            index,
        })?;
    }
    Ok(())
}

/// Returns the keys of the structs and unions of a program.
fn type_keys(alloc: Global, program: &[Entry]) -> Result<Vec<TypeKey>, AllocError>
    ensures { IfOk result (λ keys. AddsKeys (IsKeyBelow program.now (length program.now)) [] keys.items) }
{
    let mut keys = Vec::new(alloc);
    for entry in program {
        add_structs(entry.unit.structs.as_slice(), &mut keys)?;
        add_unions(entry.unit.unions.as_slice(), &mut keys)?;
    }
    Ok(keys)
}

/// Returns these keys, each once and in order.
fn sorted_keys(keys: Vec<TypeKey>) -> Vec<TypeKey>
    ensures ordered { AllPairs IsBefore result.items }
    ensures exact { (key : TypeKey) → Contains result.items key ↔ Contains keys.items key }
{
    let mut keys = keys;
    keys.sort_unstable();
    keys.dedup();
    keys
}

/// Returns the structs and unions that have these keys.
fn ids_of(alloc: Global, keys: &[TypeKey]) -> Result<Vec<TypeId>, AllocError>
    ensures { IfOk result (λ ids. ids.items ≡ map id_of_key keys.now) }
{
    keys.iter()
        .map(|key| TypeId {
            file: key.place.file,
            is_union: key.is_union,
            index: key.index,
        })
        .collect(alloc)
}

/// Returns the structs and unions of a program in text order.
fn type_ids(alloc: Global, program: &[Entry]) -> Result<Vec<TypeId>, AllocError>
    requires { IsProgram program.now }
    ensures { IfOk result (λ ids. AreTypes program.now (map decl_of ids.items)) }
{
    let keys = sorted_keys(type_keys(alloc, program)?);
    ids_of(alloc, keys.as_slice())
}

/// Returns for each of these types its index among them. More types than there are numbers count as
/// an allocation failure.
fn numbers_of_types(alloc: Global, ids: &[TypeId]) -> Result<HashMap<TypeId, u32>, AllocError>
    ensures { IfOk result (GivesNumbers ids.now) }
{
    let mut numbers = HashMap::new(alloc);
    for (place, id) in ids.iter().enumerate() {
        let Ok(number) = u32::try_from(place) else {
            return Err(AllocError);
        };
        numbers.insert(*id, number)?;
    }
    Ok(numbers)
}

impl SchemaNumbers {
    /// Numbers the protocols and types of a program. Fails only if memory runs out.
    pub fn of(alloc: Global, program: &[Entry]) -> Result<SchemaNumbers, AllocError>
        requires is_program { IsProgram program.now }
        requires named { BearTheirNames program.now }
        ensures { IfOk result (AreNumbersOf program.now) }
    {
        let files = protocol_files(alloc, program)?;
        let types = type_ids(alloc, program)?;
        let of_files = numbers_of_files(alloc, program.len(), files.as_slice())?;
        let of_types = numbers_of_types(alloc, types.as_slice())?;
        Ok(SchemaNumbers {
            files,
            types,
            of_files,
            of_types,
        })
    }
}
