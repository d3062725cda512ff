//! The structs and unions as nodes of a least fixed point, by what their parts find.

ghost use Rattle.std.specs.Prelude.{◌≡◌, ℕ, List, map, IfOk, OnOk, MatchOption};
ghost use Rattle.type_rules.specs.Compounds.{told, struct, union};
ghost use Rattle.type_rules.specs.Parts.{IsPart, IsFree, AddsPart, AreParts, IsUnionNode, IsNodeOf, AreNodes};

use crate::compounds::{Compound, Compounds, FileNumbers, number_found};
use ipdl_syntax::{Base, Param, TypeSpec};
use least_fixed_points::{Need, Node};
use name_table::Names;
use std::alloc::{AllocError, Global};

/// What the fields or components of a struct or a union find.
#[derive(Drop)]
pub struct Parts {
    /// The numbers of the structs and unions that they find.
    pub numbers: Vec<usize>,
    /// Whether one of them finds anything else.
    pub has_free: bool,
}

/// Returns the number of the struct or union that a type finds, by its name or the name inside its
/// `UniquePtr`, or `None` if it finds anything else.
fn part_of(names: &Names<'_>, files: &[FileNumbers], file: u32, spec: &TypeSpec) -> Option<usize>
    ensures { MatchOption result (IsFree names.now files.now file spec.now.base) (IsPart names.now files.now file spec.now.base) }
{
    match &spec.base {
        Base::Named(name, argument) => {
            number_found(files, names.find(file, name, argument.as_ref()))
        }
        Base::Unique(inner) => part_of(names, files, file, inner),
    }
}

/// Records what a type finds.
fn add_part(
    names: &Names<'_>,
    files: &[FileNumbers],
    file: u32,
    spec: &TypeSpec,
    parts: &mut Parts,
) -> Result<(), AllocError>
    ensures { OnOk result (AddsPart names.now files.now file spec.now.base parts.old parts.new) }
{
    match part_of(names, files, file, spec) {
        Some(number) => parts.numbers.push(number)?,
        None => parts.has_free = true,
    }
    Ok(())
}

/// Returns what the fields of a struct find.
fn parts_of_fields(
    alloc: Global,
    names: &Names<'_>,
    files: &[FileNumbers],
    file: u32,
    fields: &[Param],
) -> Result<Parts, AllocError>
    ensures { IfOk result (AreParts names.now files.now file (map (λ f. f.spec.base) fields.now)) }
{
    let mut parts = Parts {
        numbers: Vec::with_capacity(alloc, fields.len())?,
        has_free: false,
    };
    for field in fields {
        add_part(names, files, file, &field.spec, &mut parts)?;
    }
    Ok(parts)
}

/// Returns what the components of a union find.
fn parts_of_components(
    alloc: Global,
    names: &Names<'_>,
    files: &[FileNumbers],
    file: u32,
    components: &[TypeSpec],
) -> Result<Parts, AllocError>
    ensures { IfOk result (AreParts names.now files.now file (map (λ c. c.base) components.now)) }
{
    let mut parts = Parts {
        numbers: Vec::with_capacity(alloc, components.len())?,
        has_free: false,
    };
    for component in components {
        add_part(names, files, file, component, &mut parts)?;
    }
    Ok(parts)
}

/// Returns the node of a union. It needs one of the structs and unions that its components find, or
/// nothing if a component finds anything else.
fn union_node(alloc: Global, parts: Parts) -> Node
    ensures { IsUnionNode parts result }
{
    if parts.has_free {
        Node {
            need: Need::All,
            parts: Vec::new(alloc),
        }
    } else {
        Node {
            need: Need::One,
            parts: parts.numbers,
        }
    }
}

/// Returns the node of a struct or a union.
fn node_of(
    alloc: Global,
    names: &Names<'_>,
    files: &[FileNumbers],
    compound: Compound<'_>,
) -> Result<Node, AllocError>
    ensures { IfOk result (IsNodeOf names.now files.now (told compound.entry)) }
{
    match compound {
        Compound::Struct(file, item) => {
            let parts = parts_of_fields(alloc, names, files, file, item.fields.as_slice())?;
            Ok(Node {
                need: Need::All,
                parts: parts.numbers,
            })
        }
        Compound::Union(file, item) => {
            let parts = parts_of_components(alloc, names, files, file, item.components.as_slice())?;
            Ok(union_node(alloc, parts))
        }
    }
}

/// Returns the nodes of the structs and unions of a program.
pub fn nodes_of(
    alloc: Global,
    names: &Names<'_>,
    compounds: &Compounds<'_>,
) -> Result<Vec<Node>, AllocError>
    ensures { IfOk result (λ nodes. AreNodes names.now compounds.now.files.items (map told compounds.now.all.items) nodes.items) }
{
    let mut nodes = Vec::new(alloc);
    for compound in &compounds.all {
        nodes.push(node_of(alloc, names, compounds.files.as_slice(), *compound)?)?;
    }
    Ok(nodes)
}
