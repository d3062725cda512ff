//! Tests of the trees of files.

use super::checks::{check, cut};
use super::tree_rows::{HEADER_TREES, PROTOCOL_TREES, WHOLE_HEADERS};
use ipdl_base::{Direction, Name, Place, Semantics};
use ipdl_lex::{LexedText, lex};
use ipdl_parse::parse;
use ipdl_syntax::{
    Attributes, Base, FileKind, IncludeKind, Includes, MessageDecl, NamesAt, Params, ProtocolDecl,
    StructDecls, Suffix, TypeSpec, UnionDecls, Unit, Usings,
};
use std::alloc::{AllocError, Global};
use std::process::Abort;
use std::test::Fail;

/// Appends a word, a name and the place of the name.
fn show_name(
    alloc: Global,
    out: &mut Vec<u8>,
    word: &[u8],
    name: &Name,
    place: Place,
) -> Result<(), AllocError> {
    out.extend_from_slice(word)?;
    out.push(b' ')?;
    out.extend_from_slice(name.as_slice())?;
    show_place(alloc, out, place)
}

/// Appends a space, and a place's line and column.
fn show_place(alloc: Global, out: &mut Vec<u8>, place: Place) -> Result<(), AllocError> {
    let Place { line, column, .. } = place;
    let text = format!(in alloc; " {line}:{column}")?;
    out.extend_from_slice(text.as_bytes())
}

/// Appends each attribute as a line: its name, its place, and its value, if it has one.
fn show_attributes(
    alloc: Global,
    out: &mut Vec<u8>,
    attributes: &Attributes,
) -> Result<(), AllocError> {
    for attribute in attributes.as_slice() {
        show_name(alloc, out, b"attribute", &attribute.name, attribute.place)?;
        if let Some(value) = &attribute.value {
            out.extend_from_slice(b" = ")?;
            out.extend_from_slice(value.as_slice())?;
        }
        out.push(b'\n')?;
    }
    Ok(())
}

/// Appends a type, each `UniquePtr` with its content, and after each type `at` and its place.
fn show_type(alloc: Global, out: &mut Vec<u8>, spec: &TypeSpec) -> Result<(), AllocError> {
    if spec.nullable {
        out.extend_from_slice(b"nullable ")?;
    }
    match &spec.base {
        Base::Named(name, inner) => show_named(out, name, inner.as_ref())?,
        Base::Unique(inner) => {
            out.extend_from_slice(b"UniquePtr<")?;
            show_type(alloc, out, inner)?;
            out.push(b'>')?;
        }
    }
    for suffix in spec.suffixes.as_slice() {
        let mark: &[u8] = match suffix {
            Suffix::Array => b"[]",
            Suffix::Maybe => b"?",
        };
        out.extend_from_slice(mark)?;
    }
    out.extend_from_slice(b" at")?;
    show_place(alloc, out, spec.place)
}

/// Appends a name, and its argument between `<` and `>`, if it has one.
fn show_named(out: &mut Vec<u8>, name: &Name, inner: Option<&Name>) -> Result<(), AllocError> {
    out.extend_from_slice(name.as_slice())?;
    if let Some(inner) = inner {
        out.push(b'<')?;
        out.extend_from_slice(inner.as_slice())?;
        out.push(b'>')?;
    }
    Ok(())
}

/// Appends each parameter as a line, and its attributes.
fn show_params(
    alloc: Global,
    out: &mut Vec<u8>,
    word: &[u8],
    params: &Params,
) -> Result<(), AllocError> {
    for param in params.as_slice() {
        show_name(alloc, out, word, &param.name, param.place)?;
        out.extend_from_slice(b": ")?;
        show_type(alloc, out, &param.spec)?;
        out.push(b'\n')?;
        show_attributes(alloc, out, &param.attributes)?;
    }
    Ok(())
}

/// Appends a message: its direction, its semantics and its name, its attributes, its parameters and
/// returns.
fn show_message(alloc: Global, out: &mut Vec<u8>, message: &MessageDecl) -> Result<(), AllocError> {
    let side: &[u8] = match message.direction {
        Direction::Parent => b"parent ",
        Direction::Child => b"child ",
        Direction::Both => b"both ",
    };
    out.extend_from_slice(side)?;
    let word: &[u8] = match message.semantics {
        Semantics::Async => b"async",
        Semantics::Sync => b"sync",
    };
    show_name(alloc, out, word, &message.name, message.place)?;
    out.push(b'\n')?;
    show_attributes(alloc, out, &message.attributes)?;
    show_params(alloc, out, b"param", &message.params)?;
    if let Some(returns) = &message.returns {
        out.extend_from_slice(b"returns\n")?;
        show_params(alloc, out, b"return", returns)?;
    }
    Ok(())
}

/// Appends each name as a line.
fn show_names(
    alloc: Global,
    out: &mut Vec<u8>,
    word: &[u8],
    names: &NamesAt,
) -> Result<(), AllocError> {
    for name in names.as_slice() {
        show_name(alloc, out, word, &name.name, name.place)?;
        out.push(b'\n')?;
    }
    Ok(())
}

/// Appends a protocol with all of its content.
fn show_protocol(
    alloc: Global,
    out: &mut Vec<u8>,
    protocol: &ProtocolDecl,
) -> Result<(), AllocError> {
    let word: &[u8] = match protocol.semantics {
        Semantics::Async => b"async protocol",
        Semantics::Sync => b"sync protocol",
    };
    show_name(alloc, out, word, &protocol.full, protocol.place)?;
    out.push(b'\n')?;
    show_attributes(alloc, out, &protocol.attributes)?;
    show_names(alloc, out, b"manager", &protocol.managers)?;
    show_names(alloc, out, b"manages", &protocol.manages)?;
    for message in protocol.messages.as_slice() {
        show_message(alloc, out, message)?;
    }
    Ok(())
}

/// Appends each include as a line.
fn show_includes(alloc: Global, out: &mut Vec<u8>, includes: &Includes) -> Result<(), AllocError> {
    for include in includes.as_slice() {
        let word: &[u8] = match include.kind {
            IncludeKind::Protocol => b"include protocol",
            IncludeKind::Header => b"include header",
            IncludeKind::Quoted => b"include quoted",
        };
        show_name(alloc, out, word, &include.name, include.place)?;
        out.push(b'\n')?;
    }
    Ok(())
}

/// Appends each using as a line, and its attributes.
fn show_usings(alloc: Global, out: &mut Vec<u8>, usings: &Usings) -> Result<(), AllocError> {
    for foreign in usings.as_slice() {
        show_name(alloc, out, b"using", &foreign.full, foreign.place)?;
        out.push(b'\n')?;
        show_attributes(alloc, out, &foreign.attributes)?;
    }
    Ok(())
}

/// Appends each struct, its attributes and its fields.
fn show_structs(alloc: Global, out: &mut Vec<u8>, structs: &StructDecls) -> Result<(), AllocError> {
    for decl in structs.as_slice() {
        show_name(alloc, out, b"struct", &decl.full, decl.place)?;
        out.push(b'\n')?;
        show_attributes(alloc, out, &decl.attributes)?;
        show_params(alloc, out, b"field", &decl.fields)?;
    }
    Ok(())
}

/// Appends each union, its attributes and its components.
fn show_unions(alloc: Global, out: &mut Vec<u8>, unions: &UnionDecls) -> Result<(), AllocError> {
    for decl in unions.as_slice() {
        show_name(alloc, out, b"union", &decl.full, decl.place)?;
        out.push(b'\n')?;
        show_attributes(alloc, out, &decl.attributes)?;
        for component in decl.components.as_slice() {
            out.extend_from_slice(b"component ")?;
            show_type(alloc, out, component)?;
            out.push(b'\n')?;
        }
    }
    Ok(())
}

/// Appends a tree as lines, one for each part: includes, usings, structs, unions and the protocol.
fn show_unit(alloc: Global, out: &mut Vec<u8>, unit: &Unit) -> Result<(), AllocError> {
    show_includes(alloc, out, &unit.includes)?;
    show_usings(alloc, out, &unit.usings)?;
    show_structs(alloc, out, &unit.structs)?;
    show_unions(alloc, out, &unit.unions)?;
    match &unit.protocol {
        Some(protocol) => show_protocol(alloc, out, protocol),
        None => Ok(()),
    }
}

/// Returns a tree as text.
fn unit_text(alloc: Global, unit: &Unit) -> Result<String, Fail> {
    let mut out = Vec::new(alloc);
    show_unit(alloc, &mut out, unit)?;
    Ok(String::from_utf8(out)?)
}

/// Returns the tree of a text's tokens as text.
fn tree_text(alloc: Global, lexed: &LexedText<'_>, kind: FileKind) -> Result<String, Fail> {
    match parse(alloc, lexed.tokens.as_slice(), lexed.end, kind) {
        Ok(unit) => unit_text(alloc, &unit),
        Err(_) => Err("no tree".into()),
    }
}

/// Returns the tree of a text as text.
fn shown(alloc: Global, kind: FileKind, text: &str) -> Result<String, Fail> {
    if text.len() > 1_048_576 {
        return Err("too long".into());
    }
    match lex(alloc, text.as_bytes(), 0) {
        Ok(lexed) => tree_text(alloc, &lexed, kind),
        Err(_) => Err("no tokens".into()),
    }
}

/// Compares the tree of each row's text with the expected one.
fn check_rows(rt: &impl Abort, alloc: Global, kind: FileKind, rows: &str) -> Result<(), Fail> {
    for row in rows.split("====\n") {
        let (text, wanted) = cut(row, "\n---\n");
        let found = shown(alloc, kind, text)?;
        check(rt, text, found.as_str(), wanted);
    }
    Ok(())
}

#[test]
fn header_trees(rt: HostRuntime) -> Result<(), Fail> {
    check_rows(&rt, rt.alloc(), FileKind::Header, HEADER_TREES)
}

#[test]
fn whole_headers(rt: HostRuntime) -> Result<(), Fail> {
    check_rows(&rt, rt.alloc(), FileKind::Header, WHOLE_HEADERS)
}

#[test]
fn protocol_trees(rt: HostRuntime) -> Result<(), Fail> {
    check_rows(&rt, rt.alloc(), FileKind::Protocol, PROTOCOL_TREES)
}
