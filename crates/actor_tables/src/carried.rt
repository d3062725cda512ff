//! Marks the types that mention a type that no channel carries.

ghost use Rattle.std.specs.Prelude.{◌≡◌, ◌↔◌, ◌++◌, IfOk, OnOk, IsTrue};
ghost use Rattle.std.specs.List.{Any, filter_map};
ghost use Rattle.std.specs.Option.{option_to_list};
ghost use Rattle.ipdl_base.specs.Sound.{MentionsUncarried};
ghost use Rattle.actor_tables.specs.Marked.{part_of, IsNodeOf, AreNodesOf, AreMarked};

use ipdl_base::{ParamRow, Shape, TypeRow};
use least_fixed_points::{Need, Node, least_fixed_point};
use std::alloc::{AllocError, Global};

/// The rows of types, each with a mark: whether the type mentions a type that is not carried.
#[derive(Drop)]
pub struct MarkedTypes {
    /// The rows.
    pub rows: Vec<TypeRow>,
    /// A set mark for types that are not carried, and then a mark for each row.
    pub marks: Vec<bool>,
}

/// Returns the index of the mark that decides whether a shape mentions a type that is not carried,
/// or `None` if it cannot mention one.
fn part(shape: &Shape) -> Option<usize>
    ensures { result ≡ part_of shape.now }
{
    match shape {
        Shape::Builtin(builtin) => { if builtin.is_carried() { None } else { Some(0) } }
        Shape::Using(_) => None,
        Shape::Actor(_, _) => None,
        Shape::Named(number) => Some(*number as usize + 1),
        Shape::Array(element) => part(element),
        Shape::Maybe(held) => part(held),
        Shape::Unique(held) => part(held),
        Shape::Endpoint(_, _) => Some(0),
    }
}

/// Adds the index of the mark of a shape, if there is one.
fn add_part(shape: &Shape, parts: &mut Vec<usize>) -> Result<(), AllocError>
    ensures { OnOk result (parts.new.items ≡ parts.old.items ++ option_to_list (part_of shape.now)) }
{
    if let Some(part) = part(shape) {
        parts.push(part)?;
    }
    Ok(())
}

/// Returns the indices of the marks of the fields of a struct.
fn field_parts(alloc: Global, fields: &[ParamRow]) -> Result<Vec<usize>, AllocError>
    ensures { IfOk result (λ parts. parts.items ≡ filter_map (λ field. part_of field.shape) fields.now) }
{
    let mut parts = Vec::new(alloc);
    for field in fields {
        add_part(&field.shape, &mut parts)?;
    }
    Ok(parts)
}

/// Returns the indices of the marks of the components of a union.
fn component_parts(alloc: Global, components: &[Shape]) -> Result<Vec<usize>, AllocError>
    ensures { IfOk result (λ parts. parts.items ≡ filter_map part_of components.now) }
{
    let mut parts = Vec::new(alloc);
    for component in components {
        add_part(component, &mut parts)?;
    }
    Ok(parts)
}

/// Returns the node of a struct or a union. It is derived if one of its parts is.
fn node(alloc: Global, row: &TypeRow) -> Result<Node, AllocError>
    ensures { IfOk result (IsNodeOf row.now) }
{
    let parts = match row {
        TypeRow::Struct(_, fields) => field_parts(alloc, fields.as_slice())?,
        TypeRow::Union(_, components) => component_parts(alloc, components.as_slice())?,
    };
    Ok(Node {
        need: Need::One,
        parts,
    })
}

/// Returns the nodes of rows: one that is always derived, for types that are not carried, and then
/// one for each row.
fn nodes(alloc: Global, rows: &[TypeRow]) -> Result<Vec<Node>, AllocError>
    ensures { IfOk result (λ nodes. AreNodesOf rows.now nodes.items) }
{
    let mut nodes = Vec::new(alloc);
    nodes.push(Node {
        need: Need::All,
        parts: Vec::new(alloc),
    })?;
    for row in rows {
        nodes.push(node(alloc, row)?)?;
    }
    Ok(nodes)
}

impl MarkedTypes {
    /// Marks these rows. Fails only if memory runs out.
    pub fn of(alloc: Global, rows: Vec<TypeRow>) -> Result<MarkedTypes, AllocError>
        ensures rows { IfOk result (λ types. types.rows.items ≡ rows.items) }
        ensures marks { IfOk result AreMarked }
    {
        let nodes = nodes(alloc, rows.as_slice())?;
        let marks = least_fixed_point(alloc, nodes.as_slice())?;
        Ok(MarkedTypes { rows, marks })
    }

    /// Returns whether a shape mentions a type that is not carried.
    fn mentions(&self, shape: &Shape) -> bool
        requires { AreMarked self.now }
        ensures { IsTrue result ↔ MentionsUncarried self.now.rows.items shape.now }
    {
        match part(shape) {
            Some(part) => match self.marks.get(part) {
                Some(mark) => *mark,
                None => false,
            },
            None => false,
        }
    }

    /// Returns whether one of these parameters or returns mentions a type that is not carried.
    pub fn mentions_any(&self, params: &[ParamRow]) -> bool
        requires { AreMarked self.now }
        ensures { IsTrue result ↔ Any (λ p. MentionsUncarried self.now.rows.items p.shape) params.now }
    {
        for param in params {
            if self.mentions(&param.shape) {
                return true;
            }
        }
        false
    }
}
