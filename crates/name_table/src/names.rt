//! The table of what every name in a program finds.

ghost use Rattle.std.specs.Prelude.{◌≡◌, ◌≢◌, ◌≤◌, ◌↔◌, ◌⊎◌, ℕ, List, Option, Some, None, length, map, option_map, IsTrue, IfOk, IfSome, IfNone};
ghost use Rattle.std.specs.List.{Contains};
ghost use Rattle.std.specs.Option.{option_copied};
ghost use Rattle.ipdl_syntax.specs.Grammar.{whole_name};
ghost use Rattle.name_table.specs.Candidates.{IsCandidate, AreOne, IsBuiltinOrEndpoint};
ghost use Rattle.name_table.specs.Declares.{file_of, full_name_in, full_name_of, IsHeader};
ghost use Rattle.name_table.specs.Finds.{Finds, FindsAsProtocol, FindsProtocol, NamesBuiltin, Counts, endpoint_word};
ghost use Rattle.name_table.specs.Marks.{Reaches, IsFollowed, Shows};
ghost use Rattle.name_table.specs.Rows.{declared_from, listed_under};
ghost use Rattle.name_table.specs.Visible.{Sees};

use crate::decl::{DeclId, Found};
use crate::ends::{ends, has_ends};
use crate::rows::{Rows, rows};
use crate::sight::{Reach, sights};
use crate::texts::{builtin_of, endpoint_of, inner_of, is_name_of, word_of};
use ipdl_base::Name;
use ipdl_syntax::{Entry, Program};
use std::alloc::{AllocError, Global};
use std::marker::Model;

/// The table of what every name in a program finds. Contracts see it as the program.
#[derive(Drop)]
pub struct Names<'p> {
    program: &'p [Entry],
    rows: Rows<'p>,
    /// Marks on the ends of the texts that have a row.
    ends: Vec<bool>,
    sights: Vec<Reach>,
}

impl<'p> Model for Names<'p> {
    ghost use Rattle.std.specs.Prelude.{List};
    ghost use Rattle.std.specs.Coded.{codes};
    ghost use Rattle.ipdl_syntax.specs.declared.program.Entry.{Entry};
    ghost use Rattle.ipdl_syntax.specs.contracts.tree.Base as base;
    ghost use Rattle.name_table.specs.Ends.{AreEnds};
    ghost use Rattle.name_table.specs.Marks.{AreSights};
    ghost use Rattle.name_table.specs.Rows.{AreRows};

    ghost Value = { List Entry };

    ghost view = { λ a. a.program.now };

    ghost invariant = { λ a. AreRows a.program.now a.rows × AreSights a.program.now a.sights.items × AreEnds a.rows a.ends.items };

    ghost coded = { Prim.hlevel (codes, base.the_row.coded) };
}

/// Returns the file that has a declaration, or `None` for a declaration of no file.
fn file_of(id: DeclId) -> Option<u32>
    ensures { result ≡ file_of id }
{
    match id {
        DeclId::Using(file, _)
        | DeclId::Struct(file, _)
        | DeclId::Union(file, _)
        | DeclId::Protocol(file) => Some(file),
        DeclId::Builtin(_) | DeclId::Endpoint(_, _) => None,
    }
}

/// Returns the full name of a declaration that a file has, or `None`.
fn full_name_in(entry: &Entry, id: DeclId) -> Option<&[u8]>
    ensures { option_map (λ full. full.now) result ≡ full_name_in entry.entry.now id }
{
    let unit = &entry.unit;
    match id {
        DeclId::Using(_, place) => Some(unit.usings.as_slice().get(place)?.full.as_slice()),
        DeclId::Struct(_, place) => Some(unit.structs.as_slice().get(place)?.full.as_slice()),
        DeclId::Union(_, place) => Some(unit.unions.as_slice().get(place)?.full.as_slice()),
        DeclId::Protocol(_) => Some(unit.protocol.as_ref()?.full.as_slice()),
        DeclId::Builtin(_) | DeclId::Endpoint(_, _) => None,
    }
}

/// Returns the full name of a declaration that a program has, or `None`.
fn full_name(program: &[Entry], id: DeclId) -> Option<&[u8]>
    ensures { option_map (λ full. full.now) result ≡ full_name_of program.entry.now id }
{
    full_name_in(program.get(file_of(id)? as usize)?, id)
}

/// Returns whether two declarations are the same.
fn are_same(one: DeclId, other: DeclId) -> bool
    ensures { IsTrue result ↔ (one ≡ other) }
{
    one == other
}

impl<'p> Names<'p> {
    /// Builds the table of a program of at most 4,096 files with any trees. Fails only if memory
    /// runs out.
    pub fn build(alloc: Global, program: &'p Program) -> Result<Names<'p>, AllocError>
        requires few { length program.now ≤ 4096 }
        ensures { IfOk result (λ names. names ≡ program.now) }
    {
        let program = program.as_slice();
        let rows = rows(alloc, program)?;
        let ends = ends(alloc, &rows)?;
        Ok(Names {
            program,
            rows,
            ends,
            sights: sights(alloc, program)?,
        })
    }

    /// Returns what a text, with its argument if it has one, finds in a file as the name of a type
    /// (docs/names.md). Takes no memory.
    pub fn find(&self, file: u32, text: &Name, argument: Option<&Name>) -> Found
        ensures { Counts (Finds self.now file text.now (option_copied argument.entry)) result }
    {
        let text = text.as_slice();
        match argument {
            None => {
                let first = match builtin_of(text) {
                    Some(builtin) => Found::One(DeclId::Builtin(builtin)),
                    None => Found::None,
                };
                self.with_declared(file, text, None, first)
            }
            Some(argument) => {
                let inner = argument.as_slice();
                let first = self.endpoints(file, text, inner);
                self.with_declared(file, text, Some(inner), first)
            }
        }
    }

    /// Returns what a text finds in a file as the name of a manager or of a managed protocol: only
    /// protocols. Takes no memory.
    pub fn find_protocol(&self, file: u32, text: &Name) -> Found
        ensures { Counts (FindsAsProtocol self.now file text.now) result }
    {
        self.protocols(file, text.as_slice())
    }

    /// Returns the declarations that are listed under a text.
    fn row(&self, text: &[u8]) -> &[DeclId]
        ensures { result.now ≡ listed_under text.now (declared_from 0 self.now) }
    {
        if !has_ends(self.ends.as_slice(), text) {
            return &[];
        }
        match self.rows.get(text) {
            Some(row) => row.as_slice(),
            None => &[],
        }
    }

    /// Returns whether a file is reached from another.
    fn is_reached(&self, file: u32, other: u32) -> bool
        ensures { IsTrue result ↔ Reaches self.now file other }
    {
        match self.sights.get(file as usize) {
            Some(sight) => sight.has(other),
            None => false,
        }
    }

    /// Returns whether a file is a header.
    fn is_header(&self, file: u32) -> bool
        ensures { IsTrue result ↔ IsHeader self.now file }
    {
        match self.program.get(file as usize) {
            Some(entry) => entry.unit.protocol.is_none(),
            None => false,
        }
    }

    /// Returns whether a file sees a declaration of this number, if there is such a declaration.
    fn shows(&self, file: u32, id: DeclId) -> bool
        ensures { IsTrue result ↔ Shows self.now file id }
    {
        match id {
            DeclId::Using(other, _) => self.shows_all(file, other),
            DeclId::Struct(other, _) => self.shows_all(file, other),
            DeclId::Union(other, _) => self.shows_all(file, other),
            DeclId::Protocol(other) => self.is_reached(file, other),
            DeclId::Builtin(_) => false,
            DeclId::Endpoint(_, _) => false,
        }
    }

    /// Returns whether a file sees all declarations of another file.
    fn shows_all(&self, file: u32, other: u32) -> bool
        ensures { IsTrue result ↔ (Reaches self.now file other × IsFollowed self.now file other) }
    {
        self.is_reached(file, other) && (other == file || self.is_header(other))
    }

    /// Returns the full name under which a file sees a declaration, or `None` if it does not see it.
    fn seen_name(&self, file: u32, id: DeclId) -> Option<&[u8]>
        ensures some { IfSome result (λ full. Sees self.now file id full.now) }
        ensures none { IfNone result ((full : List ℕ) → ¬ Sees self.now file id full) }
    {
        if self.shows(file, id) {
            full_name(self.program, id)
        } else {
            None
        }
    }

    /// Returns the protocols that a text finds.
    fn protocols(&self, file: u32, text: &[u8]) -> Found
        ensures { Counts (FindsAsProtocol self.now file text.now) result }
    {
        let mut found = Found::None;
        for id in self.row(text) {
            if self.is_protocol(file, text, *id) {
                match found {
                    Found::None => found = Found::One(*id),
                    Found::One(first) => {
                        if !are_same(first, *id) {
                            return Found::Many(first, *id);
                        }
                    }
                    Found::Many(_, _) => return found,
                }
            }
        }
        found
    }

    /// Returns the builtin types and endpoints that a text with this argument finds.
    fn endpoints(&self, file: u32, text: &[u8], inner: &[u8]) -> Found
        ensures { Counts (λ d. IsBuiltinOrEndpoint d × Finds self.now file text.now (Some inner.now) d) result }
    {
        let Some(managed) = endpoint_of(text) else {
            return Found::None;
        };
        match self.protocols(file, inner) {
            Found::One(DeclId::Protocol(p)) => Found::One(DeclId::Endpoint(p, managed)),
            Found::Many(DeclId::Protocol(p), DeclId::Protocol(q)) => {
                Found::Many(DeclId::Endpoint(p, managed), DeclId::Endpoint(q, managed))
            }
            _ => Found::None,
        }
    }

    /// Returns whether a text finds this declaration as a protocol.
    fn is_protocol(&self, file: u32, text: &[u8], id: DeclId) -> bool
        ensures { IsTrue result ↔ FindsAsProtocol self.now file text.now id }
    {
        let DeclId::Protocol(_) = id else {
            return false;
        };
        match self.seen_name(file, id) {
            Some(full) => is_name_of(text, None, full),
            None => false,
        }
    }

    /// Returns whether a using of this full name names a builtin type in a file.
    fn names_builtin(&self, file: u32, full: &[u8]) -> bool
        ensures { IsTrue result ↔ NamesBuiltin self.now file full.now }
    {
        if builtin_of(full).is_some() {
            return true;
        }
        if endpoint_of(full).is_some() {
            return true;
        }
        if self.names_endpoint(file, full, false) {
            return true;
        }
        self.names_endpoint(file, full, true)
    }

    /// Returns whether a full name is `Endpoint`, or `ManagedEndpoint`, with an argument that finds
    /// a protocol.
    fn names_endpoint(&self, file: u32, full: &[u8], managed: bool) -> bool
        ensures { IsTrue result ↔ ((inner : List ℕ) × (p : ℕ)
            × (full.now ≡ whole_name (endpoint_word managed) (Some inner)) × FindsProtocol self.now file inner p) }
    {
        match inner_of(full, word_of(managed)) {
            Some(inner) => match self.protocols(file, inner) {
                Found::None => false,
                Found::One(_) => true,
                Found::Many(_, _) => true,
            },
            None => false,
        }
    }

    /// Returns whether a declaration of this full name is not a using that names a builtin type in
    /// a file.
    fn is_own(&self, file: u32, full: &[u8], id: DeclId) -> bool
        ensures { IsTrue result ↔ ((other place : ℕ) → id ≡ DeclId.Using other place → ¬ NamesBuiltin self.now file full.now) }
    {
        match id {
            DeclId::Using(_, _) => !self.names_builtin(file, full),
            _ => true,
        }
    }

    /// Returns whether a text and its argument may find a declaration.
    fn is_candidate(&self, file: u32, text: &[u8], argument: Option<&[u8]>, id: DeclId) -> bool
        ensures { IsTrue result ↔ IsCandidate self.now file text.now (option_map (λ inner. inner.now) argument.entry) id }
    {
        match self.seen_name(file, id) {
            Some(full) => is_name_of(text, argument, full) && self.is_own(file, full, id),
            None => false,
        }
    }

    /// Returns whether two declared ids count as one declaration.
    fn are_one(&self, one: DeclId, other: DeclId) -> bool
        ensures { IsTrue result ↔ AreOne self.now one other }
    {
        match (one, other) {
            (DeclId::Using(_, _), DeclId::Using(_, _)) => {
                full_name(self.program, one) == full_name(self.program, other)
            }
            _ => one == other,
        }
    }

    /// Returns what a text and its argument find. `first` has the builtin types and endpoints among it.
    fn with_declared(&self, file: u32, text: &[u8], argument: Option<&[u8]>, first: Found) -> Found
        requires { Counts (λ d. IsBuiltinOrEndpoint d × Finds self.now file text.now (option_map (λ inner. inner.now) argument) d) first }
        ensures { Counts (Finds self.now file text.now (option_map (λ inner. inner.now) argument.entry)) result }
    {
        let row = self.row(text);
        if row.is_empty() {
            first
        } else {
            self.with_row(file, text, argument, row, first)
        }
    }

    /// Does the same if `row` is listed under the text.
    fn with_row(
        &self,
        file: u32,
        text: &[u8],
        argument: Option<&[u8]>,
        row: &[DeclId],
        first: Found,
    ) -> Found
        requires row { row.now ≡ listed_under text.now (declared_from 0 self.now) }
        requires first { Counts (λ d. IsBuiltinOrEndpoint d × Finds self.now file text.now (option_map (λ inner. inner.now) argument) d) first }
        ensures { Counts (Finds self.now file text.now (option_map (λ inner. inner.now) argument.entry)) result }
    {
        let mut found = first;
        for id in row {
            if self.is_candidate(file, text, argument, *id) {
                match found {
                    Found::None => found = Found::One(*id),
                    Found::One(one) => {
                        if !self.are_one(one, *id) {
                            return Found::Many(one, *id);
                        }
                    }
                    Found::Many(_, _) => return found,
                }
            }
        }
        found
    }
}
