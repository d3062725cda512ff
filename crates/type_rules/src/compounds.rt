//! The structs and unions of a program, by number.

ghost use Rattle.std.specs.Prelude.{◌≡◌, ◌≤◌, ℕ, List, [], ◌++◌, length, map, IfOk, OnOk};
ghost use Rattle.std.specs.Option.{option_copied};
ghost use Rattle.type_rules.specs.Compounds.{told, place_of, struct, union, AreNumbers, AreOfFile, number_of, number_found, AllNumbered};

use ipdl_base::Place;
use ipdl_syntax::{Entry, StructDecl, UnionDecl, Unit};
use name_table::{DeclId, Found};
use std::alloc::{AllocError, Global};

/// A struct or a union, with the number of its file.
#[derive(Clone, Copy)]
pub enum Compound<'p> {
    /// A struct.
    Struct(u32, &'p StructDecl),
    /// A union.
    Union(u32, &'p UnionDecl),
}

impl Compound<'_> {
    /// Returns the place of its name.
    pub fn place(&self) -> Place
        ensures { result ≡ place_of (told self.now) }
    {
        match self {
            Compound::Struct(_, item) => item.place,
            Compound::Union(_, item) => item.place,
        }
    }
}

/// The numbers of the structs and of the unions of a file.
#[derive(Drop)]
pub struct FileNumbers {
    /// The numbers of the structs.
    pub structs: Vec<usize>,
    /// The numbers of the unions.
    pub unions: Vec<usize>,
}

/// The structs and unions of a program, and for each file the numbers of its own. A number is an
/// index in the list of all.
#[derive(Drop)]
pub struct Compounds<'p> {
    /// The structs and unions.
    pub all: Vec<Compound<'p>>,
    /// The numbers of those of each file.
    pub files: Vec<FileNumbers>,
}

/// Adds the structs of a file to the list of all, and their numbers to an empty list.
fn number_structs<'p>(
    file: u32,
    structs: &'p [StructDecl],
    all: &mut Vec<Compound<'p>>,
    numbers: &mut Vec<usize>,
) -> Result<(), AllocError>
    requires { numbers.old.items ≡ [] }
    ensures { OnOk result (AreNumbers (struct file) structs.now numbers.new.items (map told all.old.items) (map told all.new.items)) }
{
    for item in structs {
        numbers.push(all.len())?;
        all.push(Compound::Struct(file, item))?;
    }
    Ok(())
}

/// Adds the unions of a file to the list of all, and their numbers to an empty list.
fn number_unions<'p>(
    file: u32,
    unions: &'p [UnionDecl],
    all: &mut Vec<Compound<'p>>,
    numbers: &mut Vec<usize>,
) -> Result<(), AllocError>
    requires { numbers.old.items ≡ [] }
    ensures { OnOk result (AreNumbers (union file) unions.now numbers.new.items (map told all.old.items) (map told all.new.items)) }
{
    for item in unions {
        numbers.push(all.len())?;
        all.push(Compound::Union(file, item))?;
    }
    Ok(())
}

/// Adds the structs and unions of a file to the list, and returns their numbers.
fn number_file<'p>(
    alloc: Global,
    file: u32,
    unit: &'p Unit,
    all: &mut Vec<Compound<'p>>,
) -> Result<FileNumbers, AllocError>
    ensures { IfOk result (λ numbers. AreOfFile file unit.now numbers (map told all.old.items) (map told all.new.items)) }
{
    let mut numbers = FileNumbers {
        structs: Vec::new(alloc),
        unions: Vec::new(alloc),
    };
    number_structs(file, unit.structs.as_slice(), all, &mut numbers.structs)?;
    number_unions(file, unit.unions.as_slice(), all, &mut numbers.unions)?;
    Ok(numbers)
}

/// Returns the structs and unions of a program with their numbers.
pub fn compounds_of(alloc: Global, program: &[Entry]) -> Result<Compounds<'_>, AllocError>
    requires { length program.now ≤ 4096 }
    ensures { IfOk result (λ compounds. AllNumbered program.now (map told compounds.all.items) compounds.files.items) }
{
    let mut all = Vec::new(alloc);
    let mut files = Vec::new(alloc);
    for (file, entry) in program.iter().enumerate() {
        files.push(number_file(alloc, file as u32, &entry.unit, &mut all)?)?;
    }
    Ok(Compounds { all, files })
}

/// Returns the number of a struct or a union, or `None` for any other declaration.
fn number_of(files: &[FileNumbers], id: DeclId) -> Option<usize>
    ensures { result ≡ number_of files.now id }
{
    match id {
        DeclId::Struct(file, place) => files.get(file as usize)?.structs.get(place).copied(),
        DeclId::Union(file, place) => files.get(file as usize)?.unions.get(place).copied(),
        _ => None,
    }
}

/// Returns the number of the one struct or union that a name finds, or `None` if it finds anything
/// else.
pub fn number_found(files: &[FileNumbers], finds: Found) -> Option<usize>
    ensures { result ≡ number_found files.now finds }
{
    match finds {
        Found::One(id) => number_of(files, id),
        _ => None,
    }
}
